ghost use Rattle.std.specs.Prelude.{◌≡◌, ◌≤◌, ◌+◌, ◌-◌, ◌<◌, ◌^◌, List, length, map, IfOk};
ghost use Rattle.mp_run.specs.declared.limits.TheConstants.{LONGEST_FILE, LONGEST_TREES};
ghost use Rattle.mp_run.specs.Commands.{Named};
ghost use Rattle.mp_run.specs.Loaded.{IsReady, IsPlanReady, SearchInRange, AreBlocks, command_seen, plan_seen, said_of, seen_by, task_seen, with_names};
ghost use Rattle.mp_run.specs.Loads.{drill_part, loads, goal_names, plan_part, replay_part};
ghost use Rattle.mp_run.specs.Parts.{Makes};
ghost use Rattle.mp_theory.specs.Tables.{Laws};

use crate::command::{Command, Task};
use crate::reading::{schedule_of, script_of, theory_of, trees_of};
use crate::stop::Stop;
use mp_drill::Sections;
use mp_logic::{List as Items, NoMemory, Sym, Text};
use mp_names::Names;
use mp_ports::Shelf;
use mp_scripttext::Script;
use mp_theory::Theory;
use mp_treetext::Printed;
use std::alloc::Global;

/// How the tree of a goal is searched for.
#[derive(Drop)]
pub enum Search {
    /// Each goal is evaluated.
    Evaluated,
    /// The events of each goal are drilled.
    Drilled(Sections),
}

/// What is done with the goals, with what was read for it.
#[derive(Drop)]
pub enum Plan {
    /// A tree of each goal is searched for.
    Searched(Search),
    /// The block that a tree file has for each goal is checked.
    Replayed(Items<Printed>),
}

/// What the files of a command say.
#[derive(Drop)]
pub struct Loaded {
    pub names: Names,
    pub theory: Theory,
    pub script: Script,
    pub plan: Plan,
}

/// The names of the goals, in order.
fn goals_of(alloc: Global, script: &Script) -> Result<Items<Sym>, NoMemory>
    ensures { IfOk result (λ goals. goals ≡ goal_names script.now.entries) }
{
    let mut goals = Items::with_capacity(alloc, script.entries.len())?;
    for entry in script.entries.as_slice() {
        if let Err((_, refused)) = goals.push(entry.name) {
            return Err(refused);
        }
    }
    Ok(goals)
}

/// The plan of a drill: its schedule is read for the goals of the script.
#[tactic(auto, using(crate::proofs::Plans::kept_range))]
fn drill_of<H: Shelf>(
    alloc: Global,
    shelf: &mut H,
    names: &mut Names,
    script: &Script,
    schedule: &Text,
) -> Result<Plan, Stop>
    requires room { length names.old + LONGEST_FILE < 2 ^ 32 - 1 }
    ensures ready { (theory : Laws) → IfOk result (IsPlanReady theory script.now.entries) }
    ensures calls { Makes H.reads (drill_part (Named schedule.now) script.now names.old) shelf.old shelf.new (with_names names.new (seen_by plan_seen result)) }
{
    let Ok(goals) = goals_of(alloc, script) else {
        return Err(Stop::NoMemory);
    };
    let sections = schedule_of(alloc, shelf, names, &goals, schedule)?;
    match Sections::new(alloc, sections) {
        Ok(sections) => Ok(Plan::Searched(Search::Drilled(sections))),
        Err(NoMemory) => Err(Stop::NoMemory),
    }
}

/// The plan of a replay: its tree file is read for the goals of the script.
fn replay_of<H: Shelf>(
    alloc: Global,
    shelf: &mut H,
    names: &mut Names,
    theory: &Theory,
    script: &Script,
    trees: &Text,
) -> Result<Plan, Stop>
    requires room { length names.old + LONGEST_TREES < 2 ^ 32 - 1 }
    ensures ready { IfOk result (IsPlanReady theory.now script.now.entries) }
    ensures calls { Makes H.reads (replay_part (Named trees.now) theory.now script.now names.old) shelf.old shelf.new (with_names names.new (seen_by plan_seen result)) }
{
    let Ok(goals) = goals_of(alloc, script) else {
        return Err(Stop::NoMemory);
    };
    let blocks = trees_of(alloc, shelf, names, theory, &goals, trees)?;
    Ok(Plan::Replayed(blocks))
}

/// The plan of the task for the goals of the script. The third file is read for it.
fn plan_of<H: Shelf>(
    alloc: Global,
    shelf: &mut H,
    names: &mut Names,
    theory: &Theory,
    script: &Script,
    task: Task<'_>,
) -> Result<Plan, Stop>
    requires room { length names.old + LONGEST_TREES < 2 ^ 32 - 1 }
    ensures ready { IfOk result (IsPlanReady theory.now script.now.entries) }
    ensures calls { Makes H.reads (plan_part (task_seen task.entry) theory.now script.now names.old) shelf.old shelf.new (with_names names.new (seen_by plan_seen result)) }
{
    match task {
        Task::Seq => Ok(Plan::Searched(Search::Evaluated)),
        Task::Drill(schedule) => drill_of(alloc, shelf, names, script, schedule),
        Task::Replay(trees) => replay_of(alloc, shelf, names, theory, script, trees),
    }
}

/// Reads the files of the command, in the order of its words.
pub fn load<H: Shelf>(alloc: Global, shelf: &mut H, command: Command<'_>) -> Result<Loaded, Stop>
    ensures ready { IfOk result IsReady }
    ensures calls { Makes H.reads (loads (command_seen command.entry)) shelf.old shelf.new (seen_by said_of result) }
{
    let mut names = Names::new(alloc);
    let theory = theory_of(alloc, shelf, &mut names, command.theory)?;
    let script = script_of(alloc, shelf, &mut names, &theory, command.script)?;
    let plan = plan_of(alloc, shelf, &mut names, &theory, &script, command.task)?;
    Ok(Loaded {
        names,
        theory,
        script,
        plan,
    })
}
