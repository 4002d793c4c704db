ghost use Rattle.std.specs.Prelude.{◌≡◌, [], true, map, nat_abs, IfOk, IsTrue};
ghost use Rattle.mp_drill.specs.declared.limits.TheConstants.{MOST_UNITS};
ghost use Rattle.std.specs.List.{flat_map};
ghost use Rattle.mp_drill.specs.Ranges.{is_in_range, are_in_range};
ghost use Rattle.mp_words.specs.Ranges.{is_between};
ghost use Rattle.mp_drill.specs.ScheduleStatics.{units_faults, event_faults, events_faults};
ghost use Rattle.mp_drill.specs.ScheduleValues.{units_of, event_of, schedule_of, EachInRange};

use crate::limits::UNITS;
use crate::raw::{RawEvent, RawSection};
use crate::schedule::{Event, Section};
use mp_logic::{List, NoMemory};
use mp_words::RawNumber;
use std::alloc::Global;

/// The number that is written, where it is 0 to 1,000,000.
fn natural(raw: RawNumber) -> u32
    requires { is_between 0 MOST_UNITS raw.value ≡ true }
    ensures { result ≡ nat_abs raw.value }
{
    raw.value as u32
}

/// The units of a send, where they are in range.
fn send_units(raw: Option<RawNumber>) -> u32
    requires { units_faults raw ≡ [] }
    ensures { result ≡ units_of raw }
{
    match raw {
        Some(units) => natural(units),
        None => UNITS,
    }
}

/// The event that is written, where its numbers are in range.
fn event_by(raw: &RawEvent) -> Event
    requires { event_faults raw.now ≡ [] }
    ensures { result ≡ event_of raw.now }
{
    match raw {
        RawEvent::Claim(who) => Event::Claim(natural(*who)),
        RawEvent::Send { who, units } => Event::Send {
            who: natural(*who),
            units: send_units(*units),
        },
        RawEvent::Again(who) => Event::Again(natural(*who)),
        RawEvent::Die(who) => Event::Die(natural(*who)),
        RawEvent::Lose(who) => Event::Lose(natural(*who)),
        RawEvent::Reissue => Event::Reissue,
    }
}

/// The events that are written, where their numbers are in range.
fn build_events(alloc: Global, raws: &[RawEvent]) -> Result<List<Event>, NoMemory>
    requires { events_faults raws.now ≡ [] }
    ensures { IfOk result (λ events. events ≡ map event_of raws.now) }
{
    let mut events = List::new(alloc);
    for raw in raws {
        match events.push(event_by(raw)) {
            Ok(()) => {}
            Err(_) => return Err(NoMemory),
        }
    }
    Ok(events)
}

/// The sections that are written, where the numbers of their events are in range.
pub(crate) fn build_schedule(
    alloc: Global,
    raws: &List<RawSection>,
) -> Result<List<Section>, NoMemory>
    requires { flat_map (λ s. events_faults s.events) raws.now ≡ [] }
    ensures { IfOk result (λ sections. sections ≡ schedule_of raws.now) }
{
    let mut sections = List::new(alloc);
    for raw in raws.as_slice() {
        let events = build_events(alloc, raw.events.as_slice())?;
        let section = Section {
            goal: raw.goal.name,
            events,
        };
        match sections.push(section) {
            Ok(()) => {}
            Err(_) => return Err(NoMemory),
        }
    }
    Ok(sections)
}
