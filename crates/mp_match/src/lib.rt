//! Matching: the instance of a pattern or a schema that gives a term or a goal.
//!
//! `match_term` finds it for the redex of a rewrite and `match_sequent` for the conclusion of a rule; `give` adds a
//! value that the goal doesn't determine. What they answer is said over the instances of
//! `mp_schema`: an instance that gives the goal, with which every other one agrees, and None where there is none.
//! `specs/Matches.antt` and `specs/Walks.antt` have one such instance as a function, on which the steps of a prover
//! stand, and `specs/Laws.antt` says that it is one.
//!
//! Second-order variables are applied to distinct variables, the condition of D. Miller, "A logic programming language
//! with lambda-abstraction, function variables, and simple unification", 1991. So each has at most one value, and one
//! walk over the pattern and the term finds it.
#![tactic(auto)]

mod giving;
mod items;
mod law;
mod levels;
mod matching;
mod patterns;
mod place;
mod sequents;
mod shapes;
mod sizes;

pub use giving::give;
pub use law::{agreement_laws, match_laws};
pub use matching::match_term;
pub use sequents::match_sequent;
