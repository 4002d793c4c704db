ghost use Rattle.std.specs.Prelude.{◌≡◌, List, IfOk};
ghost use Rattle.mp_logic.specs.declared.sym.Sym.{Sym};
ghost use Rattle.mp_names.specs.Sets.{Met};
ghost use Rattle.mp_words.specs.Faults.{least, least_from};
ghost use Rattle.mp_drill.specs.ScheduleStatics.{event_faults, events_faults, goal_faults, schedule_faults, section_faults};

use crate::limits::{LAST_WORKER, MOST_UNITS};
use crate::raw::{RawEvent, RawSection};
use mp_logic::{List, NoMemory, Sym};
use mp_names::NameSet;
use mp_words::{
    RawName, TextErr, TextWhy, check_number, check_second, check_written_number, sooner_of,
};
use std::alloc::Global;

/// The earliest of the fault that is held and those of an event.
#[tactic(auto, using(mp_words::proofs::Soonest::least_from_append))]
fn check_event(held: Option<TextErr>, raw: &RawEvent) -> Option<TextErr>
    ensures { result ≡ least_from held (event_faults raw.now) }
{
    match raw {
        RawEvent::Claim(who) => check_number(held, 0, LAST_WORKER, *who),
        RawEvent::Send { who, units } => {
            let held = check_number(held, 0, LAST_WORKER, *who);
            check_written_number(held, 1, MOST_UNITS, *units)
        }
        RawEvent::Again(who) => check_number(held, 0, LAST_WORKER, *who),
        RawEvent::Die(who) => check_number(held, 1, LAST_WORKER, *who),
        RawEvent::Lose(who) => check_number(held, 1, LAST_WORKER, *who),
        RawEvent::Reissue => held,
    }
}

/// The earliest of the fault that is held and those of events.
fn check_events(held: Option<TextErr>, raws: &[RawEvent]) -> Option<TextErr>
    ensures { result ≡ least_from held (events_faults raws.now) }
{
    let mut held = held;
    for raw in raws {
        held = check_event(held, raw);
    }
    held
}

/// The names of these goals.
fn goal_names(alloc: Global, goals: &List<Sym>) -> Result<NameSet, NoMemory>
    ensures { IfOk result (λ names. Met names goals.now) }
{
    let mut names = NameSet::new(alloc);
    for goal in goals.as_slice() {
        names.meet(*goal)?;
    }
    Ok(names)
}

/// The sooner one of the fault that is held and UnknownName, for a name that isn't among these names of goals.
fn check_goal(held: Option<TextErr>, names: &NameSet, name: RawName) -> Option<TextErr>
    ensures { (goals : List Sym) → Met names.now goals → result ≡ least_from held (goal_faults goals name) }
{
    match names.place(name.name) {
        Some(_) => held,
        None => sooner_of(held, name.at, TextWhy::UnknownName),
    }
}

/// The earliest of the fault that is held and those of a section, but that its name is taken, for goals of these names.
fn check_section(held: Option<TextErr>, names: &NameSet, raw: &RawSection) -> Option<TextErr>
    ensures { (goals : List Sym) → Met names.now goals → result ≡ least_from held (section_faults goals raw.now) }
{
    let held = check_goal(held, names, raw.goal);
    check_events(held, raw.events.as_slice())
}

/// The least static fault of a schedule as it is written, for these goals. None exactly where it has none.
pub(crate) fn schedule_fault(
    alloc: Global,
    goals: &List<Sym>,
    raws: &List<RawSection>,
) -> Result<Option<TextErr>, NoMemory>
    ensures { IfOk result (λ found. found ≡ least (schedule_faults goals.now raws.now)) }
{
    let names = goal_names(alloc, goals)?;
    let mut held = check_second(alloc, raws.as_slice(), TextWhy::Taken, None)?;
    for raw in raws.as_slice() {
        held = check_section(held, &names, raw);
    }
    Ok(held)
}
