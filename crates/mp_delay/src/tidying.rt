ghost use Rattle.std.specs.Prelude.{◌≡◌, IfOk};
ghost use Rattle.mp_delay.specs.Composing.{starts_late, goes_on, tidied};

use crate::{Move, Moves};
use mp_logic::NoMemory;
use std::alloc::Global;

// The moves without those that go on like the one before.
pub(crate) fn tidy(alloc: Global, moves: &[Move]) -> Result<Moves, NoMemory>
    ensures { IfOk result (λ tidy. tidy ≡ tidied moves.now) }
{
    let mut tidy = Moves::new(alloc);
    let mut last = Move { from: 0, to: 0 };
    for i in 0..moves.len() {
        let step = moves[i];
        if !is_like(last, step, &moves[i + 1..]) {
            tidy.push(step)?;
            last = step;
        }
    }
    Ok(tidy)
}

fn is_like(last: Move, step: Move, rest: &[Move]) -> bool
    ensures { result ≡ goes_on last.from last.to step rest.now }
{
    last.from <= step.from
        && step.to as u64 == last.to as u64 + (step.from - last.from) as u64
        && is_late(step.from, rest)
}

fn is_late(level: u32, rest: &[Move]) -> bool
    ensures { result ≡ starts_late level rest.now }
{
    match rest.first() {
        None => true,
        Some(next) => level <= next.from,
    }
}
