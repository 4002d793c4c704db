//! Patterns with second-order variables, schemata of sequents with contexts, and their instances.
//!
//! A schema is what a rule speaks in: items, each a context or a named hypothesis, and a conclusion. Its
//! instances are the sequents that it makes when each context gets a list of hypotheses, each second-order
//! variable a term and each hole a parameter. `specs/Instances.antt` and `specs/Sequents.antt` define them, and
//! `specs/Conditions.antt` says what matching and building ask of them.
//!
//! `rule_fault` and `rewrite_fault` answer what is wrong with a rule or a rewrite, and `find_rule_fault` does so in linear
//! time with tables in memory. `specs/Faults.antt` defines each fault, and `specs/Faultless.antt` says what is known where
//! there is none.
//!
//! Second-order variables are those of G. Huet and B. Lang, "Proving and applying program transformations
//! expressed with second-order patterns", 1978; that those of a conclusion are applied to distinct variables
//! is the condition of D. Miller, "A logic programming language with lambda-abstraction, function variables,
//! and simple unification", 1991. Contexts are those of the sequent schemata of A. Nogin and J. Hickey,
//! "Sequent schema for derived rules", 2002.
#![tactic(auto)]

mod contexts;
mod demand;
mod fault;
mod find;
mod first;
mod first_uses;
mod hole_names;
mod holes;
mod instance;
mod law;
mod levels;
pub mod limits;
mod measures;
mod named;
mod pattern;
mod place;
mod rewrite;
mod rule;
mod schema;
mod uses;

pub use contexts::has_two_contexts;
pub use fault::SchemaFault;
pub use find::context_value;
pub use instance::{CtxVal, Inst, MetaVal, ParamVal};
pub use law::{faultless_laws, fitting_laws, instance_laws};
pub use named::{MetaVals, ParamVals};
pub use pattern::{PBound, ParamPat, Pattern};
pub use rewrite::rewrite_fault;
pub use rule::{find_rule_fault, rule_fault};
pub use schema::{Item, Schema};
