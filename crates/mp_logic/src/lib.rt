//! What everything stands on: lists, shared values, numbers of names, proof trees, and the trait of a logic.
#![tactic(auto)]

mod list;
mod logic;
mod memory;
mod shared;
mod sym;
mod tree;
mod waiting;

pub use list::{List, Text};
pub use logic::{Logic, StepErr, Why, copy_tree};
pub use memory::NoMemory;
pub use shared::Shared;
pub use sym::Sym;
pub use tree::{JustId, Tree, count, graft, leaf_count, root};
pub use waiting::Waiting;
