ghost use Rattle.mp_strategy.specs.Strategies.{Evals};
ghost use Rattle.mp_strategy.specs.Works.{IsWork};
ghost use Rattle.mp_core.specs.Events.{CallsKeepSound, CallsKeepShape, CallsYieldNoMore, RunsStaySound, RunsKeepShape, RunsAnswerTruly};

use mp_logic::Logic;
use mp_strategy::{Problem, Work};

/// Each call keeps a core sound, whoever makes it and whatever it answers, where a parcel that is reported
/// has an outcome that its work gives. It also keeps the shape, in which no epoch stands in two leaves, and after it
/// nothing is yielded that wasn't yielded before.
pub fn every_call_keeps_sound<L: Logic>(problem: &Problem<L>)
    ensures sound { CallsKeepSound (Evals L.meaning problem.now) }
    ensures shape { CallsKeepShape L.meaning problem.now }
    ensures yields_no_more { CallsYieldNoMore (Evals L.meaning problem.now) }
{
    problem.known();
}

/// The law over every list of calls: whatever is claimed, lost, reissued, and reported late or twice,
/// a core that is given true parcels stays sound, keeps the shape, and answers only what its root work gives.
pub fn every_run_is_sound<L: Logic>(problem: &Problem<L>, work: &Work<L::Goal>)
    requires work { IsWork L.meaning problem.now work.now }
    ensures sound { RunsStaySound (Evals L.meaning problem.now) work.now }
    ensures shape { RunsKeepShape L.meaning problem.now work.now }
    ensures answer { RunsAnswerTruly (Evals L.meaning problem.now) work.now }
{
    problem.known();
    let _work = work;
}
