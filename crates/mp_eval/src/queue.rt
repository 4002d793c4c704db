ghost use Rattle.std.specs.Prelude.{◌≡◌, ◌<◌, ◌≤◌, IfOk, length};
ghost use Rattle.mp_eval.specs.Queues.{IsReady, first_at, first_left, rest_of, weight_at, weight_of};

use mp_logic::{List, Logic, NoMemory, Waiting};
use mp_strategy::{Problem, TacId, left_at};
use std::alloc::Global;

/// The strategies for the leaves of a tree, from left to right.
#[derive(Drop)]
pub(crate) enum Queue {
    /// This entry, with so many repeats left, on each leaf.
    Each(TacId, u32),
    /// One entry of a list on each leaf; they stand after the entry that lists them.
    Listed(TacId, Waiting<TacId>),
}

/// The strategy for the next leaf, and how often it repeats.
pub(crate) fn draw<L: Logic>(problem: &Problem<L>, queue: &mut Queue) -> (TacId, u32)
    requires { IsReady (length problem.now.tacs) queue.old 1 }
    ensures at { result.0.0 ≡ first_at queue.old }
    ensures left { result.1 ≡ first_left problem.now.tacs queue.old }
    ensures rest { queue.new ≡ rest_of queue.old }
    ensures within { result.0.0 < length problem.now.tacs }
    ensures lighter { weight_at (length problem.now.tacs) result.0.0 result.1 ≤ weight_of (length problem.now.tacs) queue.old }
{
    match queue {
        Queue::Each(at, left) => (*at, *left),
        Queue::Listed(_, waiting) => match waiting.next() {
            Some(at) => (at, left_at(&problem.tacs, at)),
            None => unreachable!(),
        },
    }
}

/// The entries of a list, to be taken one by one.
pub(crate) fn waiting_of(alloc: Global, parts: &[TacId]) -> Result<Waiting<TacId>, NoMemory>
    ensures { IfOk result (λ waiting. waiting ≡ parts.now) }
{
    let mut copies = List::with_capacity(alloc, parts.len() as u64)?;
    for part in parts {
        if let Err((_, refused)) = copies.push(*part) {
            return Err(refused);
        }
    }
    Ok(Waiting::new(copies))
}
