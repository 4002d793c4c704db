//! Evaluation: what each strategy gives, and each of its failures.

use self::Due::{Fails, Gives};
use self::Entry::{Complete, Else, Fail, Id, Progress, Race, Repeat, Step, Then, ThenL};
use crate::halving::Halving;
use crate::table::check;
use crate::tree_tests::has_goals;
use mp_eval::evaluate;
use mp_logic::{JustId, List, leaf_count};
use mp_strategy::{Kind, MOST_FUEL, Outcome, Problem, Tac, TacId, Work, fits};
use std::alloc::Global;

/// An entry of a table of strategies. It names its parts by their places.
enum Entry {
    Id,
    Fail,
    /// The half of an even number, so many times.
    Step(u32),
    Then(u32, u32),
    ThenL(u32, &'static [u32]),
    Else(u32, u32),
    Race(&'static [u32]),
    Repeat(u32, u32),
    Progress(u32),
    Complete(u32),
}

/// What a strategy ends with.
enum Due {
    /// A tree with these goals, in preorder, and so many open leaves.
    Gives(&'static [u32], u64),
    /// A failure, with the place of the strategy and the goal that it arose at.
    Fails(Kind, u32, u32),
}

/// A table, the fuel and the goal that its first entry is tried with, and what that ends with.
type Row = (&'static [Entry], u32, u32, Due);

static ROWS: [Row; 25] = [
    (&[Fail], 5, 8, Fails(Kind::Failed, 0, 8)),
    (&[Step(2)], 1, 8, Gives(&[8, 4, 4], 2)),
    (&[Step(1)], 0, 8, Fails(Kind::OutOfFuel, 0, 8)),
    (
        &[Then(1, 2), Step(2), Step(1)],
        5,
        8,
        Gives(&[8, 4, 2, 4, 2], 2),
    ),
    // each leaf has its strategy and the fuel that is left, and the first failure is told
    (
        &[ThenL(1, &[2, 3]), Step(2), Step(1), Id],
        2,
        8,
        Gives(&[8, 4, 2, 4], 2),
    ),
    (
        &[ThenL(1, &[2]), Step(2), Id],
        5,
        8,
        Fails(Kind::WrongCount, 0, 8),
    ),
    (
        &[ThenL(1, &[2, 2]), Step(1), Id],
        5,
        8,
        Fails(Kind::WrongCount, 0, 8),
    ),
    (
        &[ThenL(1, &[2, 3]), Step(2), Step(1), Fail],
        5,
        6,
        Fails(Kind::NoMatch, 2, 3),
    ),
    (
        &[ThenL(1, &[2]), Step(1), Step(1)],
        1,
        8,
        Fails(Kind::OutOfFuel, 2, 4),
    ),
    // the second strategy is tried where the first one fails
    (&[Else(1, 2), Step(1), Id], 0, 8, Gives(&[8], 1)),
    (&[Else(1, 2), Step(1), Id], 1, 8, Gives(&[8, 4], 1)),
    (
        &[Else(1, 2), Fail, Step(1)],
        1,
        7,
        Fails(Kind::NoMatch, 2, 7),
    ),
    // the first tree from the left, or the failure of the last branch
    (
        &[Race(&[1, 2, 3]), Fail, Step(1), Id],
        1,
        8,
        Gives(&[8, 4], 1),
    ),
    (
        &[Race(&[1, 2]), Fail, Step(1)],
        1,
        7,
        Fails(Kind::NoMatch, 2, 7),
    ),
    // by count, by a failure, by a step without fuel, and by a leaf
    (
        &[Repeat(2, 1), Step(2)],
        5,
        16,
        Gives(&[16, 8, 4, 4, 8, 4, 4], 4),
    ),
    (&[Repeat(9, 1), Step(1)], 5, 12, Gives(&[12, 6, 3], 1)),
    (&[Repeat(9, 1), Step(1)], 1, 12, Gives(&[12, 6], 1)),
    (&[Repeat(9, 1), Id], 5, 12, Gives(&[12], 1)),
    // the only open leaf is the goal
    (&[Progress(1), Id], 5, 8, Fails(Kind::NoProgress, 0, 8)),
    (&[Progress(1), Step(1)], 5, 0, Fails(Kind::NoProgress, 0, 0)),
    (&[Progress(1), Step(2)], 5, 0, Gives(&[0, 0, 0], 2)),
    (&[Progress(1), Step(1)], 5, 7, Fails(Kind::NoMatch, 1, 7)),
    // a leaf is open
    (&[Complete(1), Step(1)], 5, 8, Fails(Kind::Incomplete, 0, 8)),
    (&[Complete(1), Step(0)], 5, 8, Gives(&[8], 0)),
    (&[Complete(1), Fail], 5, 8, Fails(Kind::Failed, 1, 8)),
];

fn parts(alloc: Global, places: &[u32]) -> Option<List<TacId>> {
    let mut parts = Vec::new(alloc);
    for place in places {
        parts.push(TacId(*place)).ok()?;
    }
    Some(List::from_vec(parts))
}

fn tac(alloc: Global, entry: &Entry) -> Option<Tac> {
    Some(match entry {
        Id => Tac::Id,
        Fail => Tac::Fail,
        Step(copies) => Tac::Step(JustId(*copies)),
        Then(first, second) => Tac::Then(TacId(*first), TacId(*second)),
        ThenL(first, others) => Tac::ThenL(TacId(*first), parts(alloc, *others)?),
        Else(first, second) => Tac::Else(TacId(*first), TacId(*second)),
        Race(branches) => Tac::Race(parts(alloc, *branches)?),
        Repeat(times, part) => Tac::Repeat(*times, TacId(*part)),
        Progress(part) => Tac::Progress(TacId(*part)),
        Complete(part) => Tac::Complete(TacId(*part)),
    })
}

fn tacs(alloc: Global, entries: &[Entry]) -> Option<List<Tac>> {
    let mut tacs = Vec::new(alloc);
    for entry in entries {
        tacs.push(tac(alloc, entry)?).ok()?;
    }
    Some(List::from_vec(tacs))
}

/// The table over the steps that give no half, one and two.
fn problem(alloc: Global, entries: &[Entry]) -> Option<Problem<'static, Halving>> {
    let tacs = tacs(alloc, entries)?;
    let justs = List::from_vec(vec![in alloc; 0u32, 1, 2].ok()?);
    if !fits(3, &tacs) {
        return None;
    }
    Some(Problem::new(&Halving, justs, tacs))
}

/// What the first entry of the table ends with.
fn ended(alloc: Global, row: &Row) -> Option<Outcome<u32>> {
    let problem = problem(alloc, row.0)?;
    if problem.tacs.len() == 0 {
        return None;
    }
    let work = Work::of(&problem, TacId(0), row.1.min(MOST_FUEL), row.2);
    evaluate(alloc, &problem, &work).ok()
}

fn is_as(alloc: Global, outcome: &Outcome<u32>, due: &Due) -> Option<bool> {
    match (outcome, due) {
        (Outcome::Tree(tree), Gives(goals, leaves)) => {
            Some(has_goals(alloc, tree, *goals)? && leaf_count(tree) == *leaves)
        }
        (Outcome::Failure(failure), Fails(kind, tac, goal)) => {
            Some(failure.kind == *kind && failure.tac == TacId(*tac) && failure.goal == *goal)
        }
        _ => Some(false),
    }
}

fn is_due(alloc: Global, row: &Row) -> Option<bool> {
    is_as(alloc, &ended(alloc, row)?, &row.3)
}

#[test]
fn a_strategy_gives_a_tree_or_its_first_failure(rt: HostRuntime) -> Result<(), std::test::Fail> {
    for (place, row) in ROWS.iter().enumerate() {
        check(place, is_due(rt.alloc(), row))?;
    }
    Ok(())
}
