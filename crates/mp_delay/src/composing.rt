ghost use Rattle.std.specs.Prelude.{◌≡◌, ◌++◌, ◌<◌, ℕ, IsTrue, IfOk, IfSome};
ghost use Rattle.mp_delay.specs.Moves.{moved, AreInOrder};
ghost use Rattle.mp_delay.specs.Composing.{run, composed, is_before};

use crate::moves::wide_level;
use crate::tidying::tidy;
use crate::{Move, Moves};
use mp_logic::NoMemory;
use std::alloc::Global;

/// The most moves of a list: where there would be more, the moves are made in the term.
const MOST_MOVES: usize = 8;

// The first level that doesn't fit a level.
const WIDEST: u64 = 4294967296;

// The moves `first` and then `second`, as one short list. None where it would be long, or where a number of it would
// have more than 32 bits; then the term may be made instead.
pub(crate) fn compose(
    alloc: Global,
    first: &[Move],
    second: &[Move],
) -> Result<Option<Moves>, NoMemory>
    requires { AreInOrder second.now }
    ensures { IfOk result (λ r. IfSome r (λ moves. (i : ℕ) → moved moves i ≡ moved second.now (moved first.now i))) }
{
    if first.is_empty() {
        return Ok(Some(Moves::from_slice(alloc, second)?));
    }
    let Some(both) = composed(alloc, first, second)? else {
        return Ok(None);
    };
    let moves = tidy(alloc, both.as_slice())?;
    if moves.as_slice().len() > MOST_MOVES {
        return Ok(None);
    }
    Ok(Some(moves))
}

// None where a number would have more than 32 bits.
fn composed(alloc: Global, first: &[Move], second: &[Move]) -> Result<Option<Moves>, NoMemory>
    ensures { IfOk result (λ r. IfSome r (λ moves. moves ≡ composed first.now second.now)) }
{
    let mut moves = Moves::new(alloc);
    let mut last = Move { from: 0, to: 0 };
    for step in first {
        if !push_run(&mut moves, last, Some(step.from), second)? {
            return Ok(None);
        }
        last = *step;
    }
    if !push_run(&mut moves, last, None, second)? {
        return Ok(None);
    }
    Ok(Some(moves))
}

// The move `step`, up to the level `end`, moved again by `second`. False where a number would have more than 32 bits.
fn push_run(
    moves: &mut Moves,
    step: Move,
    end: Option<u32>,
    second: &[Move],
) -> Result<bool, NoMemory>
    ensures { IfOk result (λ fits. IsTrue fits → moves.new ≡ moves.old ++ run step.from step.to end second.now) }
{
    let start = wide_level(second, step.to);
    if start >= WIDEST {
        return Ok(false);
    }
    moves.push(Move {
        from: step.from,
        to: start as u32,
    })?;
    for next in second {
        if step.to < next.from {
            let at = step.from as u64 + (next.from - step.to) as u64;
            if comes_before(at, end) {
                if at >= WIDEST {
                    return Ok(false);
                }
                moves.push(Move {
                    from: at as u32,
                    to: next.to,
                })?;
            }
        }
    }
    Ok(true)
}

fn comes_before(level: u64, end: Option<u32>) -> bool
    ensures { result ≡ is_before level end }
{
    match end {
        None => true,
        Some(end) => level < end as u64,
    }
}
