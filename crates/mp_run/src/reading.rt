ghost use Rattle.std.specs.Prelude.{◌≡◌, ◌≤◌, ◌+◌, ◌-◌, ◌<◌, ◌^◌, ℕ, List, length, IfOk};
ghost use Rattle.mp_theory.specs.Tables.{IsTheory, no_laws};
ghost use Rattle.mp_theorytext.specs.Reading.{ReadsTheory};
ghost use Rattle.mp_scripttext.specs.Reading.{ReadsScript};
ghost use Rattle.mp_drill.specs.ScheduleReading.{ReadsSchedule};
ghost use Rattle.mp_treetext.specs.Reading.{ReadsTrees};
ghost use Rattle.mp_treetext.specs.Printed.{EachGoodPrinted};
ghost use Rattle.mp_scripttext.specs.Entries.{EachGood};
ghost use Rattle.mp_drill.specs.ScheduleValues.{EachInRange};
ghost use Rattle.mp_run.specs.declared.limits.TheConstants.{LONGEST_FILE, LONGEST_TREES};
ghost use Rattle.mp_run.specs.Commands.{Named};
ghost use Rattle.mp_run.specs.Lines.{limit_of as limit_of_kind};
ghost use Rattle.mp_run.specs.Loaded.{StopsRead, with_names};
ghost use Rattle.mp_run.specs.Parts.{Makes, read_as, taken_from};

use crate::lines::{limit_of, refused, too_long};
use crate::stop::Stop;
use mp_drill::{Section, read_schedule};
use mp_logic::{List as Items, Sym, Text};
use mp_names::Names;
use mp_ports::{ReadErr, Shelf};
use mp_report::FileKind;
use mp_scripttext::{Script, read_script};
use mp_theory::{Theory, theory_laws};
use mp_theorytext::{read_theories_are_theories, read_theory};
use mp_treetext::{Printed, read_trees};
use mp_words::TextFail;
use std::alloc::Global;

/// The bytes of a file that is within the limit.
fn read_file<H: Shelf>(
    alloc: Global,
    shelf: &mut H,
    name: &Text,
    kind: FileKind,
) -> Result<Text, Stop>
    ensures calls { Makes H.reads (taken_from kind (Named name.now)) shelf.old shelf.new result }
    ensures bound { IfOk result (λ text. length text ≤ limit_of_kind kind) }
{
    match shelf.read(alloc, name, limit_of(kind)) {
        Ok(text) => Ok(text),
        Err(ReadErr::TooLong) => Err(too_long(alloc, kind)),
        Err(ReadErr::Failed) => Err(Stop::Fault(kind)),
        Err(ReadErr::NoMemory) => Err(Stop::NoMemory),
    }
}

/// What ends a run whose file of this kind wasn't read.
fn stop_of(alloc: Global, kind: FileKind, fail: TextFail) -> Stop
    ensures { StopsRead kind fail result }
{
    match fail {
        TextFail::Bad(error) => refused(alloc, kind, &error),
        TextFail::NoMemory => Stop::NoMemory,
    }
}

/// The theory that a file says.
pub fn theory_of<H: Shelf>(
    alloc: Global,
    shelf: &mut H,
    names: &mut Names,
    name: &Text,
) -> Result<Theory, Stop>
    requires room { length names.old + LONGEST_FILE < 2 ^ 32 - 1 }
    ensures theory { IfOk result IsTheory }
    ensures calls { Makes H.reads (read_as FileKind.Theory (Named name.now) (ReadsTheory no_laws names.old)) shelf.old shelf.new (with_names names.new result) }
    ensures few { length names.new ≤ length names.old + LONGEST_FILE }
{
    theory_laws();
    read_theories_are_theories();
    let source = read_file(alloc, shelf, name, FileKind::Theory)?;
    let none = Theory::new(alloc);
    match read_theory(alloc, names, none, source.as_slice()) {
        Ok(theory) => Ok(theory),
        Err(fail) => Err(stop_of(alloc, FileKind::Theory, fail)),
    }
}

/// The script that a file says in a theory.
pub fn script_of<H: Shelf>(
    alloc: Global,
    shelf: &mut H,
    names: &mut Names,
    theory: &Theory,
    name: &Text,
) -> Result<Script, Stop>
    requires room { length names.old + LONGEST_FILE < 2 ^ 32 - 1 }
    ensures calls { Makes H.reads (read_as FileKind.Script (Named name.now) (ReadsScript theory.now names.old)) shelf.old shelf.new (with_names names.new result) }
    ensures good { IfOk result (λ script. EachGood theory.now script.entries) }
    ensures few { length names.new ≤ length names.old + LONGEST_FILE }
{
    let source = read_file(alloc, shelf, name, FileKind::Script)?;
    match read_script(alloc, names, theory, source.as_slice()) {
        Ok(script) => Ok(script),
        Err(fail) => Err(stop_of(alloc, FileKind::Script, fail)),
    }
}

/// The schedule of some goals that a file says.
pub fn schedule_of<H: Shelf>(
    alloc: Global,
    shelf: &mut H,
    names: &mut Names,
    goals: &Items<Sym>,
    name: &Text,
) -> Result<Items<Section>, Stop>
    requires room { length names.old + LONGEST_FILE < 2 ^ 32 - 1 }
    ensures calls { Makes H.reads (read_as FileKind.Schedule (Named name.now) (ReadsSchedule goals.now names.old)) shelf.old shelf.new (with_names names.new result) }
    ensures range { IfOk result EachInRange }
{
    let source = read_file(alloc, shelf, name, FileKind::Schedule)?;
    match read_schedule(alloc, names, goals, source.as_slice()) {
        Ok(sections) => Ok(sections),
        Err(fail) => Err(stop_of(alloc, FileKind::Schedule, fail)),
    }
}

/// The blocks of some goals that a tree file says in a theory, one for each.
pub fn trees_of<H: Shelf>(
    alloc: Global,
    shelf: &mut H,
    names: &mut Names,
    theory: &Theory,
    goals: &Items<Sym>,
    name: &Text,
) -> Result<Items<Printed>, Stop>
    requires room { length names.old + LONGEST_TREES < 2 ^ 32 - 1 }
    ensures calls { Makes H.reads (read_as FileKind.Trees (Named name.now) (ReadsTrees theory.now goals.now names.old)) shelf.old shelf.new (with_names names.new result) }
    ensures good { IfOk result (λ blocks. EachGoodPrinted theory.now blocks) }
    ensures each { IfOk result (λ blocks. length blocks ≡ length goals.now) }
{
    let source = read_file(alloc, shelf, name, FileKind::Trees)?;
    match read_trees(alloc, names, theory, goals, source.as_slice()) {
        Ok(blocks) => Ok(blocks),
        Err(fail) => Err(stop_of(alloc, FileKind::Trees, fail)),
    }
}
