use crate::boxed::Boxed;
use mp_logic::{List, Tree};
use mp_strategy::{Outcome, Work};

/// What is left of a work: a job, an outcome, or a node whose parts are still to be done.
#[derive(Drop)]
pub enum Node<G> {
    /// A job that nobody has.
    Todo(Work<G>),
    /// A job that a worker has, under the epoch of the worker's ticket.
    Claimed {
        epoch: u64,
        who: u32,
        work: Work<G>,
    },
    /// It is done.
    Done(Outcome<G>),
    /// A work whose first part is still to be done; after it the work goes on with the leaves of the part's tree.
    Then {
        work: Work<G>,
        first: Boxed<Node<G>>,
    },
    /// A tree, and a kid for each of its open leaves from left to right; if it is cut, the kids up to one that failed.
    Leaves {
        tree: Tree<G>,
        kids: List<Node<G>>,
        cut: bool,
    },
    /// A part, and another one for the case that it fails.
    Else {
        first: Boxed<Node<G>>,
        second: Boxed<Node<G>>,
    },
    /// Parts of which any one that gives a tree is enough.
    Race {
        kids: List<Node<G>>,
    },
    /// A work whose part is still to be done; after it the work looks at the part's tree.
    Check {
        work: Work<G>,
        inner: Boxed<Node<G>>,
    },
}

/// A job that was handed out: its work, and the epoch under which it is claimed, which no other ticket of the
/// core has.
#[derive(Drop)]
pub struct Ticket<G> {
    pub epoch: u64,
    pub work: Work<G>,
}

/// A ticket's epoch and work, and the node that the work has become.
#[derive(Drop)]
pub struct Parcel<G> {
    pub epoch: u64,
    pub work: Work<G>,
    pub node: Node<G>,
}
