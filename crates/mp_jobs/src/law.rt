ghost use Rattle.mp_jobs.specs.Expansion.{expand_rule};
ghost use Rattle.mp_jobs.specs.JobLaws.{TodosAreClaimed, ClaimsArePlaced, OldestIsReclaimed, LiveIsFound, JobsAreWorks, LossesAreSteps};
ghost use Rattle.mp_jobs.specs.Laws.{YieldsAreMonotone, EachChangeKeeps, OnlyDoneIsWeightless, SettledIsSettled, SettledIsLive, UnitsRefine, StepsKeep, RunsAreSound};
ghost use Rattle.mp_jobs.specs.Settlement.{settle_rule};

use mp_logic::Logic;
use mp_strategy::Problem;

/// A node whose parts yield no more yields no more.
pub fn yields_are_monotone<L: Logic>(problem: &Problem<L>)
    ensures { YieldsAreMonotone L.meaning problem.now }
{
    problem.known();
}

/// Each expansion and each settlement keeps the shape of a node and claims nothing; after it the node yields no more, weighs
/// at least 1 less, and is no wider.
pub fn each_unit_keeps<L: Logic>(problem: &Problem<L>)
    ensures expansion { EachChangeKeeps L.meaning problem.now (expand_rule L.meaning problem.now) }
    ensures settlement { EachChangeKeeps L.meaning problem.now (settle_rule L.meaning problem.now) }
{
    problem.known();
}

/// The weight of a node is 0 exactly where it is done.
pub fn only_done_is_weightless<L: Logic>(problem: &Problem<L>)
    ensures { OnlyDoneIsWeightless L.meaning problem.now }
{
    problem.known();
}

/// A node on which every settlement was made has no node that is ready.
pub fn settled_is_settled<L: Logic>(problem: &Problem<L>)
    ensures { SettledIsSettled L.meaning problem.now }
{
    problem.known();
}

/// A settled node that isn't done has a job that is to do or claimed.
pub fn settled_is_live<L: Logic>(problem: &Problem<L>)
    ensures { SettledIsLive L.meaning problem.now }
{
    problem.known();
}

/// After at least one unit on the job of a work the node refines the work.
pub fn units_refine<L: Logic>(problem: &Problem<L>)
    ensures { UnitsRefine L.meaning problem.now }
{
    problem.known();
}

/// Whatever is claimed, settled, placed, lost and reissued, in any order: the node stays steady, and makes no outcome possible
/// that wasn't. From the job of a work it yields only what the work gives, and weighs no more than the work costs.
pub fn steps_keep<L: Logic>(problem: &Problem<L>)
    ensures each { StepsKeep L.meaning problem.now }
    ensures from_start { RunsAreSound L.meaning problem.now }
{
    problem.known();
}

/// What is found among the jobs of a node is there to be changed: a job that is to do can be claimed, the claim with the
/// least epoch can be reissued, and one that a parcel is due to can be replaced. Their works may be given to calls, each
/// live node has one of them, and the loss of a worker gives back one claim after the other.
pub fn found_jobs_are_changed<L: Logic>(problem: &Problem<L>)
    ensures todos { TodosAreClaimed L.meaning problem.now }
    ensures claims { ClaimsArePlaced L.meaning problem.now }
    ensures oldest { OldestIsReclaimed L.meaning problem.now }
    ensures live { LiveIsFound L.meaning problem.now }
    ensures works { JobsAreWorks L.meaning problem.now }
    ensures losses { LossesAreSteps L.meaning problem.now }
{
    problem.known();
}
