use mp_logic::{JustId, List};

/// The number of a strategy: its place in the table of strategies.
#[derive(Clone, Copy, Debug, PartialEq, Eq)]
pub struct TacId(pub u32);

/// A strategy. It names its parts by their numbers.
#[derive(Debug, Drop)]
pub enum Tac {
    /// The goal as an open leaf.
    Id,
    /// It fails on every goal.
    Fail,
    /// One step by a justification of the problem. It takes one unit of fuel.
    Step(JustId),
    /// The first strategy, and then the second one on each leaf from left to right.
    Then(TacId, TacId),
    /// The first strategy, and then one of the list on each leaf: as many leaves as the list has strategies.
    ThenL(TacId, List<TacId>),
    /// The first strategy, and where it fails the second one.
    Else(TacId, TacId),
    /// Any one of the strategies that gives a tree; evaluation takes the first one from the left.
    Race(List<TacId>),
    /// The strategy, and then the same on each leaf, so many times at most; it stops at a leaf where the strategy
    /// fails or leaves the goal as it is.
    Repeat(u32, TacId),
    /// The strategy, and a failure where the only open leaf is the goal itself.
    Progress(TacId),
    /// The strategy, and a failure where a leaf is open.
    Complete(TacId),
}
