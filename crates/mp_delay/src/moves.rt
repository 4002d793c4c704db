ghost use Rattle.std.specs.Prelude.{◌≡◌, ◌++◌, ◌∷◌, [], ◌<◌, ◌≤◌, ◌^◌, IfOk, OnOk, OnErr};
ghost use Rattle.mp_delay.specs.Moves.{moved, moved_after};

use mp_logic::NoMemory;
use smallvec::SmallVec;
use std::alloc::Global;
use std::marker::Model;

/// From level `from` on, up to the next move, each level moves by as much: `from` becomes `to`.
#[derive(Clone, Copy, Debug, Default, PartialEq, Eq)]
pub struct Move {
    /// The first level that moves.
    pub from: u32,
    /// What it becomes.
    pub to: u32,
}

// Most lists are no longer, and then take no allocation.
const INLINE: usize = 4;

/// A list of moves, in the order of their first levels. Contracts see the list. A level before the first move stays.
#[derive(Drop)]
pub struct Moves {
    list: SmallVec<Move, INLINE>,
}

impl Model for Moves {
    ghost use Rattle.std.specs.Prelude.{List};
    ghost use Rattle.mp_delay.specs.declared.moves.Move.{Move};

    ghost Value = { List Move };

    ghost view = { λ moves. moves.list.items };
}

impl Moves {
    /// No move: each level stays.
    pub fn new(alloc: Global) -> Moves
        ensures { result ≡ [] }
    {
        Moves {
            list: SmallVec::new(alloc),
        }
    }

    /// The moves of this list.
    pub fn from_slice(alloc: Global, moves: &[Move]) -> Result<Moves, NoMemory>
        ensures { IfOk result (λ made. made ≡ moves.now) }
    {
        match SmallVec::from_slice(alloc, moves) {
            Ok(list) => Ok(Moves { list }),
            Err(_) => Err(NoMemory),
        }
    }

    /// Adds the move at the end. Where there is no memory the list stays.
    pub fn push(&mut self, step: Move) -> Result<(), NoMemory>
        ensures longer { OnOk result (self.new ≡ self.old ++ step ∷ []) }
        ensures unchanged { OnErr result (self.new ≡ self.old) }
    {
        match self.list.push(step) {
            Ok(()) => Ok(()),
            Err(_) => Err(NoMemory),
        }
    }

    /// The moves in order.
    pub fn as_slice(&self) -> &[Move]
        ensures { result.now ≡ self.now }
    {
        self.list.as_slice()
    }
}

// The level that the moves make of this one.
pub(crate) fn level_of(moves: &[Move], level: u32) -> u32
    requires { moved moves.now level < 2 ^ 32 }
    ensures { result ≡ moved moves.now level }
{
    wide_level(moves, level) as u32
}

// The same where it need not be a number of 32 bits.
pub(crate) fn wide_level(moves: &[Move], level: u32) -> u64
    ensures { result ≡ moved moves.now level }
{
    let mut from = 0u32;
    let mut to = 0u32;
    for step in moves {
        if level < step.from {
            break;
        }
        from = step.from;
        to = step.to;
    }
    to as u64 + (level - from) as u64
}
