//! The second checker of proof trees: it takes each step of a tree anew, and rests on nothing but the logic.
#![tactic(auto)]

mod checking;
mod laws;
mod verdict;

pub use checking::replay;
pub use laws::{one_verdict, some_verdict, verdict_is_validity};
pub use verdict::{BadCause, Verdict};
