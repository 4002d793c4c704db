//! Tables of strategies, evaluation, the core and the sections of a schedule.

use crate::table::check;
use crate::toy::Stepless;
use mp_core::{
    Claimed, Core, Parcel, Reported, copy_parcel, every_call_keeps_sound, every_run_is_sound,
};
use mp_drill::{Event, Section, Sections};
use mp_eval::{
    closed_goals_are_derivable, eval_is_allowed, evaluate, goals_stay_good, only_eval_is_allowed,
    trees_are_sound,
};
use mp_logic::{JustId, List, NoMemory, Sym, Tree};
use mp_strategy::{Outcome, Problem, Tac, TacId, Work, fits};
use std::alloc::Global;
use std::test::Fail;

// ## Tables

/// Whether the table of a step by the justification, and then a part that is given, and `id` fits one justification.
fn three_entries_fit(alloc: Global, second: u32, just: u32) -> Option<bool> {
    let tacs = vec![in alloc;
        Tac::Then(TacId(1), TacId(second)),
        Tac::Step(JustId(just)),
        Tac::Id,
    ]
    .ok()?;
    Some(fits(1, &List::from_vec(tacs)))
}

/// Whether the table of so many entries that use the next one twice, and `id` fits.
fn pairs_fit(alloc: Global, pairs: u32) -> Option<bool> {
    let mut tacs = Vec::new(alloc);
    for at in 0..pairs.min(100) {
        tacs.push(Tac::Then(TacId(at + 1), TacId(at + 1))).ok()?;
    }
    tacs.push(Tac::Id).ok()?;
    Some(fits(0, &List::from_vec(tacs)))
}

/// The second part of the first entry, its justification, and whether the table fits.
static ENTRIES: [(u32, u32, bool); 5] = [
    (2, 0, true),
    (1, 0, true),
    (0, 0, false),
    (3, 0, false),
    (2, 1, false),
];

fn is_fit(alloc: Global, row: &(u32, u32, bool)) -> Option<bool> {
    let (second, just, due) = row;
    Some(three_entries_fit(alloc, *second, *just)? == *due)
}

#[test]
fn parts_stand_after_their_entry_and_justifications_are_in_range(
    rt: HostRuntime,
) -> Result<(), Fail> {
    for (place, row) in ENTRIES.iter().enumerate() {
        check(place, is_fit(rt.alloc(), row))?;
    }
    Ok(())
}

fn no_entry_fits(alloc: Global) -> bool {
    fits(1, &List::new(alloc))
}

#[test]
fn a_table_has_an_entry_and_is_at_most_64_deep(rt: HostRuntime) -> Result<(), Fail> {
    check(0, Some(!no_entry_fits(rt.alloc())))?;
    check(1, pairs_fit(rt.alloc(), 63))?;
    check(2, Some(pairs_fit(rt.alloc(), 64) == Some(false)))
}

/// The strategy that leaves its goal open.
fn left_open(alloc: Global) -> Option<Problem<'static, Stepless>> {
    let tacs = List::from_vec(vec![in alloc; Tac::Id].ok()?);
    if !fits(0, &tacs) || tacs.len() != 1 {
        return None;
    }
    Some(Problem::new(&Stepless, List::new(alloc), tacs))
}

// ## The core

/// A call on the core. What is reported is the parcel of the root work at a goal, under an epoch.
#[derive(Clone, Copy)]
enum Call {
    Claim(u32),
    Reissue,
    Next,
    Lose(u32),
    Report { epoch: u64, goal: u32 },
    Answer,
}

/// A call's answer, in short.
#[derive(Clone, Copy, Debug, PartialEq, Eq)]
enum Answer {
    Ticket(u64, u32),
    Nothing,
    Finished,
    Back(u64),
    Taken,
    Stale(u64),
    Undone,
    Open(u32),
    Other,
}

fn claimed(given: Result<Claimed<u32>, NoMemory>) -> Answer {
    match given {
        Ok(Claimed::Ticket(ticket)) => Answer::Ticket(ticket.epoch, ticket.work.goal),
        Ok(Claimed::Nothing) => Answer::Nothing,
        Ok(Claimed::Finished) => Answer::Finished,
        Ok(Claimed::Spent) => Answer::Other,
        Err(NoMemory) => Answer::Other,
    }
}

/// Reports the root work at the goal under the epoch, with what it evaluates to, by a copy of the parcel.
fn report(alloc: Global, core: &mut Core<Stepless>, epoch: u64, goal: u32) -> Answer {
    let problem = core.problem();
    if problem.tacs.len() == 0 {
        return Answer::Other;
    }
    let work = Work::of(problem, TacId(0), 5, goal);
    let Ok(outcome) = evaluate(alloc, problem, &work) else {
        return Answer::Other;
    };
    let parcel = Parcel {
        epoch,
        work,
        outcome,
    };
    let Ok(copy) = copy_parcel(alloc, problem.logic, &parcel) else {
        return Answer::Other;
    };
    match core.report(copy) {
        Reported::Taken => Answer::Taken,
        Reported::Stale(back) => Answer::Stale(back.epoch),
        Reported::TakenUnsettled => Answer::Other,
        Reported::NoMemory(_) => Answer::Other,
    }
}

/// Makes the call.
fn made(alloc: Global, core: &mut Core<Stepless>, call: Call) -> Answer {
    match call {
        Call::Claim(who) => claimed(core.claim(alloc, who)),
        Call::Reissue => claimed(core.reissue(alloc)),
        Call::Next => claimed(core.next_for_caller(alloc)),
        Call::Lose(0) => Answer::Other,
        Call::Lose(who) => Answer::Back(core.lose(who)),
        Call::Report { epoch, goal } => report(alloc, core, epoch, goal),
        Call::Answer => match core.answer() {
            Some(Outcome::Tree(Tree::Leaf(goal))) => Answer::Open(*goal),
            Some(_) => Answer::Other,
            None => Answer::Undone,
        },
    }
}

static CALLS: [(Call, Answer); 18] = [
    (Call::Reissue, Answer::Nothing),
    (Call::Claim(3), Answer::Ticket(1, 7)),
    (Call::Claim(4), Answer::Nothing),
    (Call::Lose(4), Answer::Back(0)),
    (Call::Lose(3), Answer::Back(1)),
    (Call::Report { epoch: 1, goal: 7 }, Answer::Stale(1)),
    (Call::Next, Answer::Ticket(2, 7)),
    (Call::Next, Answer::Ticket(3, 7)),
    (Call::Reissue, Answer::Ticket(4, 7)),
    (Call::Report { epoch: 3, goal: 7 }, Answer::Stale(3)),
    (Call::Report { epoch: 4, goal: 8 }, Answer::Stale(4)),
    (Call::Answer, Answer::Undone),
    (Call::Report { epoch: 4, goal: 7 }, Answer::Taken),
    (Call::Report { epoch: 4, goal: 7 }, Answer::Stale(4)),
    (Call::Claim(3), Answer::Finished),
    (Call::Reissue, Answer::Finished),
    (Call::Lose(3), Answer::Back(0)),
    (Call::Answer, Answer::Open(7)),
];

/// Whether the root's goal is as is due, and the answer to each call.
fn answers_all(alloc: Global, core: &mut Core<Stepless>) -> Result<(), Fail> {
    check(CALLS.len(), Some(core.work().goal == 7))?;
    for (place, (call, due)) in CALLS.iter().enumerate() {
        check(place, Some(made(alloc, core, *call) == *due))?;
    }
    Ok(())
}

#[test]
fn a_job_is_claimed_lost_reissued_and_done_once(rt: HostRuntime) -> Result<(), Fail> {
    let problem = left_open(rt.alloc()).ok_or("no strategy")?;
    let work = Work::of(&problem, TacId(0), 5, 7);
    let Ok(mut core) = Core::start(&problem, work) else {
        return Err(Fail::from("no memory"));
    };
    answers_all(rt.alloc(), &mut core)
}

// ## Laws

/// The laws of evaluation.
fn evaluation_laws(problem: &Problem<Stepless>) {
    eval_is_allowed(problem);
    only_eval_is_allowed(problem);
    trees_are_sound(problem);
    closed_goals_are_derivable(problem);
    goals_stay_good(problem);
}

/// The laws of the core.
fn core_laws(problem: &Problem<Stepless>) {
    every_call_keeps_sound(problem);
    if problem.tacs.len() > 0 {
        every_run_is_sound(problem, &Work::of(problem, TacId(0), 5, 7));
    }
}

#[test]
fn the_laws_are_of_every_problem(rt: HostRuntime) -> Result<(), Fail> {
    let problem = left_open(rt.alloc()).ok_or("no strategy")?;
    evaluation_laws(&problem);
    core_laws(&problem);
    Ok(())
}

// ## Sections

/// A goal, and the worker that claims it in its section.
static SECTIONS: [(u32, u32); 6] = [(7, 1), (3, 2), (7, 3), (0, 4), (3, 5), (7, 6)];

fn section(alloc: Global, goal: u32, worker: u32) -> Option<Section> {
    let events = List::from_vec(vec![in alloc; Event::Claim(worker)].ok()?);
    let goal = Sym(goal);
    Some(Section { goal, events })
}

fn sections(alloc: Global) -> Option<Sections> {
    let mut sections = Vec::new(alloc);
    for (goal, worker) in &SECTIONS {
        sections.push(section(alloc, *goal, *worker)?).ok()?;
    }
    Sections::new(alloc, List::from_vec(sections)).ok()
}

fn has_events(sections: &Sections, goal: u32, due: &[Event]) -> bool {
    sections.events(Sym(goal)).as_slice() == due
}

/// A goal, and its events.
static EVENTS: [(u32, &[Event]); 5] = [
    (7, &[Event::Claim(1)]),
    (3, &[Event::Claim(2)]),
    (0, &[Event::Claim(4)]),
    (1, &[]),
    (8, &[]),
];

fn have_events(sections: &Sections) -> Result<(), Fail> {
    for (place, (goal, due)) in EVENTS.iter().enumerate() {
        check(place, Some(has_events(sections, *goal, *due)))?;
    }
    Ok(())
}

#[test]
fn each_goal_has_the_events_of_its_first_section(rt: HostRuntime) -> Result<(), Fail> {
    let sections = sections(rt.alloc()).ok_or("no memory")?;
    have_events(&sections)
}
