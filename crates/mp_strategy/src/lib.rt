//! Strategies: their table, works on it, and what they give.
#![tactic(auto)]

mod fitting;
mod law;
mod limits;
mod outcome;
mod problem;
mod tactic;
mod work;

pub use fitting::fits;
pub use law::same_outcomes;
pub use limits::{MOST_BRANCHES, MOST_DEPTH, MOST_FUEL, MOST_NODES, MOST_REPEATS};
pub use outcome::{Failure, Kind, Outcome, copy_outcome};
pub use problem::{Problem, ProblemState};
pub use tactic::{Tac, TacId};
pub use work::{Work, copy_work, left_at};
