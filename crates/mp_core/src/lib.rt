//! The core: one root job that is to do, claimed or done, whoever claims, loses, repeats or reports it.
#![tactic(auto)]

mod core_calls;
mod law;
mod node;
mod state;
mod works;

pub use core_calls::{Claimed, Core, Reported};
pub use law::{every_call_keeps_sound, every_run_is_sound};
pub use node::Node;
pub use state::{CoreState, MachineState, Parcel, Ticket};
pub use works::copy_parcel;
