//! Instances of patterns and schemata, built from values.
//!
//! `build_sequent` makes the sequent of a rule's premise, and `build_term` the term of a rewrite's pattern. Both
//! answer TooLarge exactly where the limits are passed. `specs/Built.antt` says what they answer, `specs/Rooms.antt`
//! how wide scopes get on the way, and `specs/Laws.antt` has the laws that the crates above stand on: `build_laws`
//! has them as its contract.
//!
//! What is made is weighed before it is built, and the weighing ends where it passes a limit. Arguments that a
//! value doesn't use are neither weighed nor built. So time and memory stay within the limits, the pattern and the
//! values, also where the instance, or an argument that vanishes, would have far more nodes.
#![tactic(auto)]

mod build;
mod error;
mod law;
mod limits;
mod sequent;
mod site;
mod sizes;
mod term;
mod values;
mod weights;

pub use error::BuildErr;
pub use law::build_laws;
pub use sequent::build_sequent;
pub use term::build_term;
