//! Steps as they are written: their grammar, their static rules and their values. What a step gives for a need is a
//! parameter: a term here, and whatever else has a reader.
#![tactic(auto)]

mod body;
mod laws;
mod names;
mod print;
mod raw;
mod statics;
mod syntax;
mod term;
mod value;

pub use body::{Body, StepValue};
pub use laws::step_round_trip_law;
pub use print::{push_just, push_rule_step};
pub use raw::{RawGiven, RawPlace, RawRewriteStep, RawRuleStep, RawStep};
pub use statics::check_step;
pub use syntax::{parse_number_behind, parse_step};
pub use term::{GivenTerm, build_just};
pub use value::build_step;
