//! The refiner: the one place where proof steps are made.
//!
//! `Refiner` is the logic of a theory: its goals are sequents, and its steps are by the theory's laws. A step by a rule matches
//! the rule's conclusion with the goal, puts the given terms for what the premises need, and builds the premises. A step by
//! a rewrite is applied at an address.
//! `specs/RuleStep.antt` says what a rule gives a goal, in terms of instances; `step_law` says that a step is just that.
#![tactic(auto)]

mod law;
mod refiner;
mod step;
mod value;

pub use law::step_law;
pub use mp_theory::{Address, Given, Just, Place};
pub use refiner::Refiner;
