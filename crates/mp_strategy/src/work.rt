ghost use Rattle.std.specs.Prelude.{◌≡◌, ◌<◌, ◌≤◌, length, slice_get, IsTrue, IfOk};
ghost use Rattle.mp_strategy.specs.declared.limits.TheConstants.{MOST_FUEL};
ghost use Rattle.mp_strategy.specs.Strategies.{left_of};
ghost use Rattle.mp_strategy.specs.Works.{work_of, IsWork};

use crate::{Problem, Tac, TacId};
use mp_logic::{List, Logic, NoMemory};
use std::alloc::Global;

/// A strategy to be tried on a goal.
#[derive(Drop)]
pub struct Work<G> {
    /// The strategy.
    pub tac: TacId,
    /// How often the strategy still repeats; 0 for a strategy that doesn't.
    pub left: u32,
    /// The greatest number of steps on a path.
    pub fuel: u32,
    /// What it is tried on.
    pub goal: G,
}

impl<G: Drop> Work<G> {
    /// The work of a strategy of the problem on a goal.
    pub fn of<L: Logic<Goal = G>>(problem: &Problem<L>, tac: TacId, fuel: u32, goal: G) -> Work<G>
        requires tac { tac.0 < length problem.now.tacs }
        requires fuel { fuel ≤ MOST_FUEL }
        requires good { IsTrue ((L.meaning problem.now.logic).good goal) }
        ensures value { result ≡ work_of problem.now.tacs tac fuel goal }
        ensures fits { IsWork L.meaning problem.now result }
    {
        let left = left_at(&problem.tacs, tac);
        Work {
            tac,
            left,
            fuel,
            goal,
        }
    }
}

/// How often the strategy at a place of the table repeats: the count of a repeat, and 0 for any other one.
pub fn left_at(tacs: &List<Tac>, at: TacId) -> u32
    ensures { result ≡ left_of (slice_get tacs.now at.0) }
{
    match tacs.get(at.0 as u64) {
        Some(Tac::Repeat(times, _)) => *times,
        _ => 0,
    }
}

/// An equal work.
pub fn copy_work<L: Logic>(
    alloc: Global,
    logic: &L,
    work: &Work<L::Goal>,
) -> Result<Work<L::Goal>, NoMemory>
    ensures { IfOk result (λ copy. copy ≡ work.now) }
{
    Ok(Work {
        tac: work.tac,
        left: work.left,
        fuel: work.fuel,
        goal: logic.copy_goal(alloc, &work.goal)?,
    })
}
