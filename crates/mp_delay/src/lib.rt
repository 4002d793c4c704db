//! Delayed terms: terms whose levels are still to be moved.
//!
//! A rule that adds a hypothesis changes nothing in those that stand but the numbers of their bound variables. So a
//! delayed term is a term, which shares its bodies with others, and a short list of moves of levels that are still to
//! be made in it. Contracts see the term that it stands for. `specs/Moves.antt` says what a list of moves makes of a
//! level and of a term; `specs/Composing.antt` has moves and then moves as one list of moves.
//!
//! Levels make this simple: what is bound in a term moves like its scope, so one list of moves needs no look at binders,
//! and can serve all hypotheses of a goal, though each stands in a scope of its own.
//!
//! Moving is delayed, and so is the substitution of variables for variables, which is a move. Other terms that are put for
//! variables are put in at once, by `Delayed::instance`.
#![tactic(auto)]

mod body;
mod composing;
mod delayed;
mod equal;
mod head;
mod instance;
mod law;
mod making;
mod moves;
mod tidying;

pub use delayed::Delayed;
pub use head::{DelayedBound, Head};
pub use law::{measure_laws, move_laws, renaming_laws};
pub use moves::{Move, Moves};
