use mp_logic::{List, Why};

/// What is wrong with a node.
#[derive(Drop)]
pub enum BadCause<G> {
    /// The tree is for another goal than the one that was asked.
    Goal,
    /// The step is refused.
    Refused(Why),
    /// The step gives other subgoals than the kids' goals.
    Kids {
        /// The kids' goals.
        found: List<G>,
        /// The subgoals that the step gives.
        due: List<G>,
    },
}

/// What is said of a tree and a goal.
#[derive(Drop)]
pub enum Verdict<G> {
    /// The tree is valid for the goal, and has no open leaf.
    Closed,
    /// The tree is valid for the goal, and has so many open leaves; the number stops at the greatest `u64`.
    OpenLeaves(u64),
    /// The tree isn't valid for the goal.
    Bad {
        /// The first bad node, counted from 1 in preorder, leaves too; the number stops at the greatest `u64`.
        node: u64,
        /// What is wrong with it.
        cause: BadCause<G>,
    },
}
