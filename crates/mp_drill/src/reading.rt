ghost use Rattle.std.specs.Prelude.{◌<◌, ◌≤◌, ◌+◌, ◌-◌, ◌^◌, length, IfOk};
ghost use Rattle.mp_names.specs.Table.{Extends};
ghost use Rattle.mp_drill.specs.ScheduleReading.{ReadsSchedule};
ghost use Rattle.mp_drill.specs.ScheduleValues.{EachInRange};

use crate::schedule::Section;
use crate::statics::schedule_fault;
use crate::syntax::parse_schedule;
use crate::value::build_schedule;
use mp_logic::{List, Sym};
use mp_names::Names;
use mp_words::{TextFail, lex_text, stopped};
use std::alloc::Global;

/// Reads a schedule that is all of the text, for these goals: its sections, in the order of the text, each with events in
/// range. Bad has the one fault of the text: the first lexical one; else Syntax, at the token at which the grammar is stuck,
/// or at the text's length where it ends too early; else the least static one, which is Taken, UnknownName or BadNumber.
/// Earlier names keep their numbers, and at most as many are added as the text has bytes, also where the text is refused.
pub fn read_schedule(
    alloc: Global,
    names: &mut Names,
    goals: &List<Sym>,
    source: &[u8],
) -> Result<List<Section>, TextFail>
    requires room { length names.old + length source.now < 2 ^ 32 - 1 }
    ensures reads { ReadsSchedule goals.now names.old source.now result names.new }
    ensures grown { Extends names.old names.new }
    ensures few { length names.new ≤ length names.old + length source.now }
    ensures range { IfOk result EachInRange }
{
    let words = lex_text(alloc, names, source)?;
    let raws = match parse_schedule(alloc, words.as_slice()) {
        Ok(raws) => raws,
        Err(fail) => return Err(stopped(source, fail)),
    };
    if let Some(fault) = schedule_fault(alloc, goals, &raws)? {
        return Err(TextFail::Bad(fault));
    }
    let sections = build_schedule(alloc, &raws)?;
    Ok(sections)
}
