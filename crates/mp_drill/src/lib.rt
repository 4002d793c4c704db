//! The core under a schedule: workers claim, report, repeat, die and are lost as a list of events says. Schedules as texts.
#![tactic(auto)]

mod drilling;
mod laws;
mod limits;
mod raw;
mod reading;
mod rounds;
mod schedule;
mod sections;
mod statics;
mod syntax;
mod value;
mod workers;

pub use drilling::drill;
pub use laws::{
    one_schedule_text, one_trace, same_traces, some_schedule_text, some_trace, traces_are_allowed,
    traces_evaluate,
};
pub use limits::{LAST_WORKER, MOST_UNITS, UNITS, WORKERS};
pub use raw::{RawEvent, RawSection};
pub use reading::read_schedule;
pub use schedule::{Event, Reply, Section};
pub use sections::Sections;
