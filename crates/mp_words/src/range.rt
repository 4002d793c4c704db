ghost use Rattle.std.specs.Prelude.{◌≡◌};
ghost use Rattle.mp_words.specs.Faults.{least_from};
ghost use Rattle.mp_words.specs.Ranges.{number_faults, written_number_faults};

use crate::{RawNumber, TextErr, TextWhy, sooner_of};

/// The sooner one of the fault that is held and BadNumber, for a number that isn't from the least up to the most.
pub fn check_number(
    held: Option<TextErr>,
    least: u32,
    most: u32,
    number: RawNumber,
) -> Option<TextErr>
    ensures { result ≡ least_from held (number_faults least most number) }
{
    if number.value < i64::from(least) || i64::from(most) < number.value {
        sooner_of(held, number.at, TextWhy::BadNumber)
    } else {
        held
    }
}

/// The same for a number that may be left out.
pub fn check_written_number(
    held: Option<TextErr>,
    least: u32,
    most: u32,
    number: Option<RawNumber>,
) -> Option<TextErr>
    ensures { result ≡ least_from held (written_number_faults least most number) }
{
    match number {
        Some(number) => check_number(held, least, most, number),
        None => held,
    }
}
