ghost use Rattle.std.specs.Prelude.{◌≡◌, ◌++◌, ◌∷◌, [], IfOk, OnOk};
ghost use Rattle.mp_words.specs.Grammars.{made, whole};
ghost use Rattle.mp_words.specs.Reading.{Reads};
ghost use Rattle.mp_scripttext.specs.Goals.{goal_name, kept_fault, no_goals, with_goal, with_goals};
ghost use Rattle.mp_scripttext.specs.Grammar.{script};

use crate::making::build_entry;
use crate::raw::RawEntry;
use crate::script::Entry;
use crate::statics::check_entry;
use mp_logic::{List, NoMemory};
use mp_theory::Theory;
use mp_words::{Named, RawName, ReadFail, Reader, TextErr, TextWhy, Word, check_second};
use std::alloc::Global;

/// The name of a goal.
#[derive(Clone, Copy)]
pub(crate) struct GoalName(pub RawName);

impl Named for GoalName {
    ghost named = { λ n. n.0 };

    fn named(&self) -> RawName {
        self.0
    }
}

/// What is kept of the goals of a script, which are read one after the other.
#[derive(Drop)]
pub(crate) struct Goals {
    /// The names of all goals.
    pub names: List<GoalName>,
    /// The earliest static fault of the goals, but that a name is taken.
    pub held: Option<TextErr>,
    /// The goals up to the one with the first fault that was found.
    pub entries: List<Entry>,
}

impl Goals {
    /// Nothing is kept.
    pub fn new(alloc: Global) -> Goals
        ensures { result ≡ no_goals }
    {
        Goals {
            names: List::new(alloc),
            held: None,
            entries: List::new(alloc),
        }
    }

    /// The earliest static fault of the goals that were read. None exactly where no static rule is broken.
    pub fn fault(&self, alloc: Global) -> Result<Option<TextErr>, NoMemory>
        ensures { IfOk result (λ found. found ≡ kept_fault self.now) }
    {
        check_second(alloc, self.names.as_slice(), TextWhy::Taken, self.held)
    }
}

/// Adds the name of a goal.
fn add_name(goals: &mut Goals, name: RawName) -> Result<(), NoMemory>
    ensures { OnOk result (goals.new ≡ record { names = goals.old.names ++ (record { 0 = name }) ∷ []; held = goals.old.held; entries = goals.old.entries }) }
{
    match goals.names.push(GoalName(name)) {
        Ok(()) => Ok(()),
        Err((_, refused)) => Err(refused),
    }
}

/// Adds a goal that has no fault.
fn add_entry(goals: &mut Goals, entry: Entry) -> Result<(), NoMemory>
    ensures { OnOk result (goals.new ≡ record { names = goals.old.names; held = goals.old.held; entries = goals.old.entries ++ entry ∷ [] }) }
{
    match goals.entries.push(entry) {
        Ok(()) => Ok(()),
        Err((_, refused)) => Err(refused),
    }
}

/// Adds a goal that is written. Its value is made only if neither it nor one before it has a fault.
fn add_written(
    alloc: Global,
    theory: &Theory,
    goals: &mut Goals,
    raw: &RawEntry,
) -> Result<(), NoMemory>
    ensures { OnOk result (goals.new ≡ with_goal theory.now goals.old raw.now) }
{
    add_name(goals, raw.name)?;
    let held = check_entry(alloc, theory, raw, goals.held)?;
    goals.held = held;
    if held.is_some() {
        return Ok(());
    }
    let entry = build_entry(alloc, theory, raw)?;
    add_entry(goals, entry)
}

/// Adds a goal, and drops what is written of it.
fn add_goal(
    alloc: Global,
    theory: &Theory,
    goals: &mut Goals,
    raw: RawEntry,
) -> Result<(), NoMemory>
    ensures { OnOk result (goals.new ≡ with_goal theory.now goals.old raw) }
{
    add_written(alloc, theory, goals, &raw)
}

/// Reads the goals that are all of the words. What is written of a goal is dropped before the next one is read.
pub(crate) fn read_goals(
    alloc: Global,
    theory: &Theory,
    goals: &mut Goals,
    words: &[Word],
) -> Result<(), ReadFail>
    ensures { Reads (λ _. (goals.new, [])) (made (with_goals theory.now goals.old) (whole script)) words.now result }
{
    let mut at = words;
    while !at.is_empty() {
        let (raw, rest) = match RawEntry::read(alloc, at) {
            Ok(read) => read,
            Err(fail) => return Err(fail),
        };
        match add_goal(alloc, theory, goals, raw) {
            Ok(()) => {}
            Err(_) => return Err(ReadFail::NoMemory),
        }
        at = rest;
    }
    Ok(())
}
