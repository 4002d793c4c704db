ghost use Rattle.std.specs.Prelude.{◌≡◌};
ghost use Rattle.mp_words.specs.Faults.{fault_if, is_behind, least_from, rank_of, sooner, LeastIsLeast};

use crate::{TextErr, TextWhy};

/// The place of a static fault in the order of those at one place.
fn rank(why: TextWhy) -> u64
    ensures { result ≡ rank_of why }
{
    match why {
        TextWhy::Taken => 0,
        TextWhy::UnknownName => 1,
        TextWhy::TooMany => 2,
        TextWhy::TooDeep => 3,
        TextWhy::TooBig => 4,
        TextWhy::BadNumber => 5,
        TextWhy::UnboundVar => 6,
        TextWhy::DanglingContext => 7,
        TextWhy::TwiceContext => 8,
        TextWhy::TooManyContexts => 9,
        TextWhy::MisplacedHyp => 10,
        TextWhy::NotAPattern => 11,
        TextWhy::BadUse => 12,
        TextWhy::UnboundParam => 13,
        TextWhy::UnboundMeta => 14,
        TextWhy::AtNeeded => 15,
        TextWhy::AtRefused => 16,
        TextWhy::MissingWith => 17,
        TextWhy::ExtraWith => 18,
        TextWhy::TwiceWith => 19,
        TextWhy::BadArity => 20,
        TextWhy::WrongGoal => 21,
        TextWhy::BadIndent => 22,
        TextWhy::CountDiffers => 23,
        TextWhy::WrongLabel => 24,
        TextWhy::NotCanonical => 25,
        TextWhy::Cycle => 26,
        TextWhy::Conditional => 27,
        TextWhy::NestedSweep => 28,
        TextWhy::BadDerivation => 29,
        TextWhy::BadCheckpoint => 30,
        TextWhy::BadByte => 31,
        TextWhy::LongName => 32,
        TextWhy::BadString => 33,
        TextWhy::TooNested => 34,
        TextWhy::Syntax => 35,
    }
}

/// The sooner one of the fault that is held and this one at a byte: the one at the earlier place, and at one place the
/// one that is first in the order. Of two alike the one that is held stays.
pub fn sooner_of(held: Option<TextErr>, at: u32, why: TextWhy) -> Option<TextErr>
    ensures { result ≡ sooner held (record { at = at; why = why }) }
{
    let fault = TextErr { at: at as u64, why };
    let Some(other) = held else {
        return Some(fault);
    };
    if fault.at < other.at || (fault.at == other.at && rank(why) < rank(other.why)) {
        Some(fault)
    } else {
        Some(other)
    }
}

/// The sooner one of the fault that is held and this one at a byte, if the test passes.
pub fn sooner_if(held: Option<TextErr>, test: bool, at: u32, why: TextWhy) -> Option<TextErr>
    ensures { result ≡ least_from held (fault_if test at why) }
{
    if test { sooner_of(held, at, why) } else { held }
}

/// Whether the fault that is held is at an earlier byte, so that no fault at this one is sooner.
pub fn behind(held: Option<TextErr>, at: u32) -> bool
    ensures { result ≡ is_behind held at }
{
    match held {
        Some(fault) => fault.at < at as u64,
        None => false,
    }
}

/// The fault that is found in a list of faults is one of them, and none of them is sooner.
pub fn least_is_least()
    ensures { LeastIsLeast }
{}
