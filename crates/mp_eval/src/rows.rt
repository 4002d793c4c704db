ghost use Rattle.std.specs.Prelude.{◌≡◌, ◌<◌, ℕ, IfOk, IsTrue, length, map};
ghost use Rattle.mp_logic.specs.declared.tree.Tree.TheVariants.{Leaf};
ghost use Rattle.mp_strategy.specs.Fits.{row_fits};
ghost use Rattle.mp_strategy.specs.Strategies.{kind_of as kind_of_why, step_with};
ghost use Rattle.mp_strategy.specs.Evaluation.{entry_eval, part_of, row_of};
ghost use Rattle.mp_eval.specs.Ends.{Ends};

use crate::ended::{Ended, failed};
use mp_logic::{JustId, List, Logic, NoMemory, StepErr, Tree, Waiting, Why};
use mp_strategy::{Kind, Problem, Tac, TacId};
use std::alloc::Global;

/// The entry at a place, and what its row says.
pub(crate) fn row<'a, L: Logic>(problem: &'a Problem<'_, L>, at: TacId) -> &'a Tac
    requires tac { at.0 < length problem.now.tacs }
    ensures fits { IsTrue (row_fits (length problem.now.justs) at.0 (length problem.now.tacs) result.now) }
    ensures means { (left : ℕ) → entry_eval L.meaning problem.now at.0 left ≡ row_of (L.meaning problem.now.logic) problem.now.justs result.now at.0 (part_of L.meaning problem.now) left }
{
    problem.known();
    let Some(tac) = problem.tacs.get(at.0 as u64) else {
        unreachable!()
    };
    tac
}

/// The node of a step on the goal, or why there is none.
pub(crate) fn step<L: Logic>(
    alloc: Global,
    problem: &Problem<L>,
    here: TacId,
    just: JustId,
    fuel: u32,
    goal: L::Goal,
) -> Result<Ended<L::Goal>, NoMemory>
    requires just { just.0 < length problem.now.justs }
    requires good { IsTrue ((L.meaning problem.now.logic).good goal) }
    ensures { IfOk result (Ends (step_with (L.meaning problem.now.logic) problem.now.justs here.0 just fuel goal) goal) }
{
    if fuel == 0 {
        return Ok(failed(Kind::OutOfFuel, here, goal));
    }
    let Some(by) = problem.justs.get(just.0 as u64) else {
        unreachable!()
    };
    match problem.logic.step(alloc, by, &goal) {
        Ok(goals) => {
            let kids = open_leaves(alloc, goals)?;
            Ok(Ended::Tree(Tree::Step { goal, just, kids }))
        }
        Err(StepErr::Refused(why)) => Ok(failed(kind_of(why), here, goal)),
        Err(StepErr::NoMemory) => Err(NoMemory),
    }
}

fn kind_of(why: Why) -> Kind
    ensures { result ≡ kind_of_why why }
{
    match why {
        Why::NoMatch => Kind::NoMatch,
        Why::BadArgument => Kind::BadArgument,
        Why::BadAddress => Kind::BadAddress,
        Why::UnderBinder => Kind::UnderBinder,
        Why::TooLarge => Kind::TooLarge,
    }
}

/// Each goal as an open leaf.
fn open_leaves<G: Drop>(alloc: Global, goals: List<G>) -> Result<List<Tree<G>>, NoMemory>
    ensures { IfOk result (λ kids. kids ≡ map Leaf goals) }
{
    let mut kids = List::with_capacity(alloc, goals.len())?;
    let mut rest = Waiting::new(goals);
    while let Some(goal) = rest.next() {
        if let Err((_, refused)) = kids.push(Tree::Leaf(goal)) {
            return Err(refused);
        }
    }
    Ok(kids)
}
