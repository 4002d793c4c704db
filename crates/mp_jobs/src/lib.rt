//! The and-or job tree: its nodes, what expanding and settling make of them, and the store that keeps one tree.
#![tactic(auto)]

mod boxed;
mod law;
mod node;

pub use boxed::Boxed;
pub use law::{
    each_unit_keeps, found_jobs_are_changed, only_done_is_weightless, settled_is_live,
    settled_is_settled, steps_keep, units_refine, yields_are_monotone,
};
pub use node::{Node, Parcel, Ticket};
