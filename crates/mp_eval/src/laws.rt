ghost use Rattle.mp_strategy.specs.Laws.{EvalIsAllowed, OnlyEvalIsAllowed, TreesAreSound, InnerGoalsAreGood, ClosedGoalsAreDerivable, GoalsStayGood};

use mp_logic::Logic;
use mp_strategy::Problem;

/// What evaluation gives of a work is an outcome that its strategy gives.
pub fn eval_is_allowed<L: Logic>(problem: &Problem<L>)
    ensures { EvalIsAllowed L.meaning problem.now }
{
    problem.known();
}

/// A strategy gives no other outcome, where there is no race.
pub fn only_eval_is_allowed<L: Logic>(problem: &Problem<L>)
    ensures { OnlyEvalIsAllowed L.meaning problem.now }
{
    problem.known();
}

/// Each tree that a strategy gives is valid for its goal, and no path of it has more steps than the fuel.
pub fn trees_are_sound<L: Logic>(problem: &Problem<L>)
    ensures { TreesAreSound L.meaning problem.now }
{
    problem.known();
}

/// Each goal of a tree that is valid for a good goal is good, the inner ones too.
pub fn inner_goals_are_good<L: Logic>(problem: &Problem<L>)
    ensures { InnerGoalsAreGood L.meaning problem.now }
{
    problem.known();
}

/// Where a strategy gives a tree without open leaves on a good goal, the goal is derivable, by allowed justifications.
pub fn closed_goals_are_derivable<L: Logic>(problem: &Problem<L>)
    ensures { ClosedGoalsAreDerivable L.meaning problem.now }
{
    problem.known();
}

/// On a good goal a strategy gives trees with good open leaves, and failures at good goals.
pub fn goals_stay_good<L: Logic>(problem: &Problem<L>)
    ensures { GoalsStayGood L.meaning problem.now }
{
    problem.known();
}
