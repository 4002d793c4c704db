//! Terms and sequents as texts.
#![tactic(auto)]

mod bytes;
mod laws;
mod print;
mod raw;
mod reading;
mod scope;
mod statics;
mod syntax;
mod value;

pub use bytes::{push_bytes, push_decimal};
pub use laws::{grammar_cases, one_text, round_trip_law, some_text};
pub use mp_words::{TextErr, TextFail, TextWhy};
pub use print::{print_sequent, print_term, push_bound_term, push_sequent, push_term};
pub use raw::{RawBound, RawHyp, RawParam, RawSequent, RawTerm};
pub use reading::{read_sequent, read_term};
pub use scope::{level_of, push_names};
pub use statics::{TOO_DEEP, at_of, check_bound_term, check_depth, check_sequent, check_size};
pub use syntax::{param_at, parse_binders, parse_bound, parse_sequent};
pub use value::{build_bound, build_sequent};
