//! Evaluation of strategies by one thread, and the laws of what they give.
#![tactic(auto)]

mod checks;
mod ended;
mod evaluation;
mod laws;
mod queue;
mod rows;

pub use evaluation::evaluate;
pub use laws::{
    closed_goals_are_derivable, eval_is_allowed, goals_stay_good, inner_goals_are_good,
    only_eval_is_allowed, trees_are_sound,
};
