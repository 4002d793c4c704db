//! A table that numbers names in the order of their first entry.
#![tactic(auto)]

mod set;
mod table;

pub use set::NameSet;
pub use table::Names;
