use mp_logic::{List, Shared};
use mp_steptext::RawStep;
use mp_termtext::{RawBound, RawSequent};
use mp_words::{RawName, RawNumber};

/// What stands before the argument of an atom.
#[derive(Clone, Copy, Debug, PartialEq, Eq)]
pub enum RawPrefix {
    /// `try`.
    Try,
    /// `repeat` with its number.
    Repeat(RawNumber),
    /// `progress`.
    Progress,
    /// `complete`.
    Complete,
}

/// A strategy as it is written: an atom, and what follows it. Each link joins all that stands before it to what it has, so
/// that strategies group to the left.
#[cycle(raw)]
#[derive(Drop)]
pub struct RawStrategy {
    /// Its first byte.
    pub at: u32,
    pub first: RawAtom,
    pub links: List<RawLink>,
}

/// What follows a strategy.
#[cycle(raw)]
#[derive(Drop)]
pub enum RawLink {
    /// `then` and an atom.
    Then(RawAtom),
    /// `thenl` and the strategies between its brackets.
    ThenL(List<RawStrategy>),
    /// `orelse` and a chain, whose own links are `then` and `thenl`.
    OrElse(RawStrategy),
}

/// An atom as it is written: a strategy that can stand before or after a link.
#[cycle(raw)]
#[derive(Drop)]
pub enum RawAtom {
    /// `id`.
    Id,
    /// `fail`.
    Fail,
    /// A step of the theory.
    Step(RawStep<RawBound>),
    /// `race` and the strategies between its brackets.
    Race(List<RawStrategy>),
    /// A prefix and its argument.
    Prefix(RawPrefix, Shared<RawAtom>),
    /// A strategy between parentheses.
    Group(Shared<RawStrategy>),
}

/// A goal as it is written, with its strategy.
#[derive(Drop)]
pub struct RawEntry {
    pub name: RawName,
    /// The number after `fuel`, where it stands.
    pub fuel: Option<RawNumber>,
    pub goal: RawSequent,
    pub strategy: RawStrategy,
}
