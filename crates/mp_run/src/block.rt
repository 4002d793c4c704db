ghost use Rattle.std.specs.Prelude.{◌≡◌, IfOk};
ghost use Rattle.mp_drill.specs.Sections.{events_of};
ghost use Rattle.mp_theory.specs.Tables.{IsTheory};
ghost use Rattle.mp_scripttext.specs.Entries.{IsGoodEntry};
ghost use Rattle.mp_run.specs.Goals.{GoalsInRange, IsEvaluated, IsDrilled};
ghost use Rattle.mp_run.specs.Goals.{is_closed_outcome as is_closed_of, verdict_of as verdict_of_outcome};

use crate::piece::{Piece, Verdict};
use mp_drill::{Sections, drill};
use mp_eval::evaluate;
use mp_logic::{List, NoMemory, leaf_count};
use mp_names::Names;
use mp_refiner::{Refiner, step_law};
use mp_report::{push_result, push_trace, result_text};
use mp_scripttext::Entry;
use mp_strategy::{Outcome, Problem, TacId, Work};
use mp_term::Sequent;
use mp_theory::Theory;
use std::alloc::Global;

/// Whether the outcome is a tree without open leaves.
fn is_closed(outcome: &Outcome<Sequent>) -> bool
    ensures { result ≡ is_closed_of outcome.now }
{
    match outcome {
        Outcome::Tree(tree) => leaf_count(tree) == 0,
        Outcome::Failure(_) => false,
    }
}

/// The verdict on the outcome.
fn verdict_of(outcome: &Outcome<Sequent>) -> Verdict
    ensures { result ≡ verdict_of_outcome outcome.now }
{
    if is_closed(outcome) {
        Verdict::Closed
    } else {
        Verdict::Open
    }
}

/// The block of a goal that is evaluated from left to right.
pub fn seq_block(
    alloc: Global,
    names: &Names,
    theory: &Theory,
    entry: Entry,
) -> Result<Piece, NoMemory>
    requires theory { IsTheory theory.now }
    requires good { IsGoodEntry theory.now entry }
    ensures { IfOk result (IsEvaluated names.now theory.now entry) }
{
    let Entry {
        name,
        goal,
        fuel,
        justs,
        tacs,
    } = entry;
    // Each step of a tree is a step of a rule.
    step_law();
    let refiner = Refiner::new(theory);
    let problem = Problem::new(&refiner, justs, tacs);
    let work = Work::of(&problem, TacId(0), fuel, goal);
    let outcome = evaluate(alloc, &problem, &work)?;
    let text = result_text(alloc, names, theory, name, &problem.justs, &outcome)?;
    Ok(Piece {
        text,
        verdict: verdict_of(&outcome),
    })
}

/// The block of a goal whose schedule is drilled.
pub fn drill_block(
    alloc: Global,
    names: &Names,
    theory: &Theory,
    sections: &Sections,
    entry: Entry,
) -> Result<Piece, NoMemory>
    requires theory { IsTheory theory.now }
    requires good { IsGoodEntry theory.now entry }
    requires range { GoalsInRange sections.now }
    ensures { IfOk result (IsDrilled names.now theory.now (events_of sections.now entry.name) entry) }
{
    let Entry {
        name,
        goal,
        fuel,
        justs,
        tacs,
    } = entry;
    // Each step of a tree is a step of a rule.
    step_law();
    let refiner = Refiner::new(theory);
    let problem = Problem::new(&refiner, justs, tacs);
    let work = Work::of(&problem, TacId(0), fuel, goal);
    let events = sections.events(name);
    let (replies, outcome) = drill(alloc, &problem, work, events)?;
    let mut text = Vec::new(alloc);
    push_trace(&mut text, names, name, events, &replies)?;
    push_result(
        alloc,
        &mut text,
        names,
        theory,
        name,
        &problem.justs,
        &outcome,
    )?;
    Ok(Piece {
        text: List::from_vec(text),
        verdict: verdict_of(&outcome),
    })
}
