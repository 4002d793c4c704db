//! Proof trees and outcomes of goals as texts: how they are printed, and how they are read again.
#![tactic(auto)]

mod comparing;
mod kind;
mod laws;
mod limits;
mod line;
mod making;
mod place;
mod print;
mod printed;
mod raw;
mod reading;
mod result;
mod roots;
mod statics;
mod syntax;

pub use laws::{one_trees_text, read_trees_are_good, read_trees_are_printed, some_trees_text};
pub use print::{print_tree, push_tree};
pub use printed::Printed;
pub use raw::{RawBlock, RawFailure, RawGoalLine, RawState, RawTreeLine};
pub use reading::read_trees;
pub use result::{push_printed, push_result, result_text};
