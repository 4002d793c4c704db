//! Scripts as texts: their grammar, their static rules, and the reader.
#![tactic(auto)]

mod goals;
mod laws;
mod making;
mod plan;
mod raw;
mod reading;
mod script;
mod seen;
mod statics;
mod strategy;
mod syntax;

pub use laws::{one_text, read_goals_are_good, some_text, strategy_cases};
pub use raw::{RawAtom, RawEntry, RawLink, RawPrefix, RawStrategy};
pub use reading::read_script;
pub use script::{Entry, Script};
