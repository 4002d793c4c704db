//! Rewrites: a conditional equation applied at an address of a goal.
//!
//! `apply` replaces an instance of a rewrite's redex, at one address in the conclusion or in a hypothesis, by that of its
//! contractum, and leaves each condition as a subgoal. `specs/RewriteStep.antt` says what a rewrite gives a goal, in terms of
//! instances; `rewrite_law` says that a step is just that.
#![tactic(auto)]

mod kids;
mod law;
mod put;
mod site;
mod step;

pub use law::rewrite_law;
pub use step::apply;
