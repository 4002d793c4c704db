//! The printed text of outcomes, of drills, of checked trees and of refusals.
#![tactic(auto)]

mod check;
mod refusal;
mod trace;

pub use check::{BadNode, Checked, checked_text, push_checked};
pub use mp_treetext::{push_result, result_text};
pub use refusal::{FileKind, push_file, push_refusal, refusal_text};
pub use trace::{push_trace, trace_text};
