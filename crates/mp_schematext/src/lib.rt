//! Schemata and rules as they are written: their grammar, their static rules, and their values.
#![tactic(auto)]

mod holes;
mod laws;
mod raw;
mod rule;
mod size;
mod statics;
mod uses;
mod value;

pub use laws::one_set_of_rules;
pub use raw::{RawItem, RawRule, RawSchema};
pub use statics::check_rule;
pub use value::{build_premises, build_schema};
