//! Theories: laws by name, in the order of their entry, what each rule needs to be given, and justifications of steps.
#![tactic(auto)]

mod address;
mod just;
mod law;
mod look_ups;
mod needs;
mod place;
mod rewrite;
mod rule;
mod theory;

pub use address::Address;
pub use just::{Given, Just};
pub use law::Law;
pub use look_ups::theory_laws;
pub use place::Place;
pub use rewrite::Rewrite;
pub use rule::{Need, Rule};
pub use theory::{Theory, TheoryErr};
