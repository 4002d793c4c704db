//! Theories as texts: rewrites and laws as they are written, their static rules, and the reader.
#![tactic(auto)]

mod laws;
mod making;
mod raw;
mod reading;
mod rewrite;
mod statics;
mod syntax;

pub use laws::{one_set_of_rewrites, one_text, read_theories_are_theories, some_text};
pub use raw::{RawLaw, RawRewrite};
pub use reading::read_theory;
