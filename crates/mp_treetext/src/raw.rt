use mp_logic::List;
use mp_steptext::RawStep;
use mp_strategy::Kind;
use mp_termtext::{RawBound, RawSequent};
use mp_words::{RawName, RawNumber};

/// A line of a tree as it is written.
#[derive(Drop)]
pub struct RawTreeLine {
    /// The first byte of its first token.
    pub at: u32,
    /// The step; None for an open goal.
    pub step: Option<RawStep<RawBound>>,
    pub goal: RawSequent,
}

/// A failure as it is written.
#[derive(Drop)]
pub struct RawFailure {
    pub kind: Kind,
    /// The number of the strategy, counted from 1.
    pub tac: RawNumber,
    pub goal: RawSequent,
}

/// What is written of a goal after its name.
#[derive(Drop)]
pub enum RawState {
    Closed,
    /// The number of open goals.
    Open(RawNumber),
    Failed(RawFailure),
}

/// The first line of a block as it is written.
#[derive(Drop)]
pub struct RawGoalLine {
    pub name: RawName,
    /// The first byte of what is after the colon.
    pub at: u32,
    pub state: RawState,
}

/// A block as it is written: what became of a goal. One that failed has no lines of a tree.
#[derive(Drop)]
pub struct RawBlock {
    pub goal: RawGoalLine,
    pub lines: List<RawTreeLine>,
}
