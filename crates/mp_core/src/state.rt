use crate::node::Node;
use mp_strategy::{Outcome, ProblemState, Work};

/// A job that was handed out: its work, and the epoch under which it is claimed, which no other ticket
/// of the core has.
#[derive(Drop)]
pub struct Ticket<G> {
    pub epoch: u64,
    pub work: Work<G>,
}

/// A ticket's epoch and work, with what the work gave.
#[derive(Drop)]
pub struct Parcel<G> {
    pub epoch: u64,
    pub work: Work<G>,
    pub outcome: Outcome<G>,
}

/// The state of the machine that a core is, as contracts see it. No value of it is made.
pub struct MachineState<G> {
    /// The root work, which never changes.
    pub work: Work<G>,
    /// What is left of it.
    pub node: Node<G>,
    /// The last epoch that was drawn, and 0 where none was. The next epoch is one greater.
    pub drawn: u64,
}

/// A core, as contracts see it: its problem, and the machine's state. No value of it is made.
pub struct CoreState<L, J, G> {
    pub problem: ProblemState<L, J>,
    pub machine: MachineState<G>,
}
