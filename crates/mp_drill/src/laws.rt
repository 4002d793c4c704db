ghost use Rattle.mp_strategy.specs.declared.work.Work.{Work};
ghost use Rattle.mp_strategy.specs.declared.outcome.Outcome.{Outcome};
ghost use Rattle.mp_drill.specs.Laws.{OneTrace, SameTraces, SomeTrace, TracesAreAllowed, TracesEvaluate};
ghost use Rattle.mp_drill.specs.ScheduleReading.{OneScheduleText, SomeScheduleText};

use mp_logic::Logic;
use mp_strategy::Problem;

/// A schedule has one trace: whatever works evaluate to, the work and the events determine each reply and the outcome.
pub fn one_trace<G>()
    ensures { (eval : Work G → Outcome G) → OneTrace eval }
{}

/// Each schedule of a work on goals of a logic has a trace.
pub fn some_trace<L: Logic>()
    ensures { (logic : L) → (eval : Work L.Goal → Outcome L.Goal) → SomeTrace eval }
{}

/// A trace ends with what its work evaluates to.
pub fn traces_evaluate<G>()
    ensures { (eval : Work G → Outcome G) → TracesEvaluate eval }
{}

/// A trace depends on evaluation only by what its own work evaluates to.
pub fn same_traces<G>()
    ensures { (eval other : Work G → Outcome G) → SameTraces eval other }
{}

/// The outcome of a trace is one that its work gives, whatever the schedule.
pub fn traces_are_allowed<L: Logic>(problem: &Problem<L>)
    ensures { TracesAreAllowed L.meaning problem.now }
{
    problem.known();
}

/// For given goals a text has one schedule or one fault, and not both.
pub fn one_schedule_text()
    ensures { OneScheduleText }
{}

/// For given goals a text has a schedule or a fault.
pub fn some_schedule_text()
    ensures { SomeScheduleText }
{}
