ghost use Rattle.mp_strategy.specs.Laws.{SameOutcomes};

use crate::Problem;
use mp_logic::Logic;

/// A law, and no work: what a strategy evaluates to on a good goal is determined by what allowed justifications give good
/// goals, and by the test of goals. Whatever else a logic may say of steps changes nothing.
pub fn same_outcomes<L: Logic>(problem: &Problem<L>)
    ensures { SameOutcomes L.meaning problem.now }
{
    problem.known();
}
