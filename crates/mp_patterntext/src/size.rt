ghost use Rattle.std.specs.Prelude.{◌≡◌, ℕ, map, nat_lt, sum};
ghost use Rattle.mp_logic.specs.Trees.{counted};
ghost use Rattle.mp_words.specs.declared.fail.TextWhy.TheVariants as why;
ghost use Rattle.mp_words.specs.Faults.{fault_if, least_from};
ghost use Rattle.mp_patterntext.specs.Sizes.{raw_pattern_size_of, raw_bound_size_of};

use crate::{RawPattern, RawPatternBound};
use mp_term::limits::MOST_NODES;
use mp_words::{TextErr, TextWhy, sooner_of};

/// The number of variables, operators and second-order variables of a pattern. The count stops at `2^64 - 1`.
#[cycle(size)]
pub fn pattern_size(raw: &RawPattern) -> u64
    ensures { result ≡ counted (raw_pattern_size_of raw.now) }
{
    match raw {
        RawPattern::Var { .. } => 1,
        RawPattern::Op { subs, .. } => bounds_size(subs.as_slice()).saturating_add(1),
        RawPattern::Meta { args, .. } => arguments_size(args.as_slice()).saturating_add(1),
    }
}

#[cycle(size)]
fn bounds_size(subs: &[RawPatternBound]) -> u64
    ensures { result ≡ counted (sum (map raw_bound_size_of subs.now)) }
{
    let mut total = 0u64;
    for sub in subs {
        total = total.saturating_add(pattern_size(&sub.body));
    }
    total
}

/// The sum of the sizes of arguments. The count stops at `2^64 - 1`.
#[cycle(size)]
pub fn arguments_size(args: &[RawPattern]) -> u64
    ensures { result ≡ counted (sum (map raw_pattern_size_of args.now)) }
{
    let mut total = 0u64;
    for arg in args {
        total = total.saturating_add(pattern_size(arg));
    }
    total
}

/// The sooner one of the fault that is held and TooBig, for a schema or a pattern of so many nodes.
pub fn check_size(held: Option<TextErr>, size: u64, at: u32) -> Option<TextErr>
    ensures { (n : ℕ) → counted n ≡ size → result ≡ least_from held (fault_if (nat_lt 20000 n) at why.TooBig) }
{
    if size > MOST_NODES {
        sooner_of(held, at, TextWhy::TooBig)
    } else {
        held
    }
}
