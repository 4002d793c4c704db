ghost use Rattle.std.specs.Prelude.{◌≡◌, ◌<◌, ◌≤◌, ℕ, sum, IfOk, IsTrue, length, map};
ghost use Rattle.std.specs.List.{AllByRecursion, list_all};
ghost use Rattle.mp_logic.specs.Lists.{greatest};
ghost use Rattle.mp_logic.specs.Trees.{leaf_count_of, root_of};
ghost use Rattle.mp_logic.specs.Valid.{EachGoal};
ghost use Rattle.mp_strategy.specs.declared.outcome.Kind.TheVariants as kind;
ghost use Rattle.mp_strategy.specs.Fits.{is_behind, places};
ghost use Rattle.mp_strategy.specs.Works.{IsWork};
ghost use Rattle.mp_strategy.specs.Strategies.{Evals, as_many, completed as completed_of, failure as failure_of, progressed as progressed_of};
ghost use Rattle.mp_strategy.specs.Evaluation.{entry_eval, eval, part_of, onward, on_leaves as on_leaves_of, else_of, one_each as listed_of, race_of, repeat_of};
ghost use Rattle.mp_strategy.specs.Laws.{tree_depth_of, IsGood, IsSound};
ghost use Rattle.mp_eval.specs.Ends.{Ends, IsFor};
ghost use Rattle.mp_eval.specs.Queues.{IsReady, Passes, after, drawn, on_tree, on_kids as on_kids_of};

use crate::checks::{completed, has_as_many, into_root, is_leaf, progressed};
use crate::ended::{Ended, failed, failure, outcome};
use crate::queue::{Queue, draw, waiting_of};
use crate::rows::{row, step};
use mp_logic::{List, Logic, NoMemory, Tree};
use mp_strategy::{Failure, Kind, Outcome, Problem, Tac, TacId, Work, left_at};
use std::alloc::Global;

/// The outcome of the work: what its strategy gives, with the leaves of a tree taken from left to right, and a race's
/// branches too. It recurses once for each level of the strategy and of the trees. The work's goal is copied once; within,
/// goals and trees are moved, and the leaves of a tree are replaced in place.
pub fn evaluate<L: Logic>(
    alloc: Global,
    problem: &Problem<L>,
    work: &Work<L::Goal>,
) -> Result<Outcome<L::Goal>, NoMemory>
    requires work { IsWork L.meaning problem.now work.now }
    ensures value { IfOk result (λ o. o ≡ eval L.meaning problem.now work.now) }
    ensures relation { IfOk result (λ o. Evals L.meaning problem.now work.now o) }
    ensures valid { IfOk result (λ o. IsSound L.meaning problem.now work.now o) }
    ensures good { IfOk result (λ o. IsGood (L.meaning problem.now.logic) o) }
{
    problem.known();
    let goal = problem.logic.copy_goal(alloc, &work.goal)?;
    let ended = entry(alloc, problem, work.tac, work.left, work.fuel, goal)?;
    Ok(outcome(ended))
}

/// What the entry gives on the goal.
#[cycle(evaluation)]
fn entry<L: Logic>(
    alloc: Global,
    problem: &Problem<L>,
    at: TacId,
    left: u32,
    fuel: u32,
    goal: L::Goal,
) -> Result<Ended<L::Goal>, NoMemory>
    requires tac { at.0 < length problem.now.tacs }
    requires good { IsTrue ((L.meaning problem.now.logic).good goal) }
    ensures { IfOk result (Ends (entry_eval L.meaning problem.now at.0 left fuel goal) goal) }
{
    match row(problem, at) {
        Tac::Id => Ok(Ended::Tree(Tree::Leaf(goal))),
        Tac::Fail => Ok(failed(Kind::Failed, at, goal)),
        Tac::Step(just) => step(alloc, problem, at, *just, fuel, goal),
        Tac::Then(first, second) => then_each(alloc, problem, at, *first, *second, fuel, goal),
        Tac::ThenL(first, others) => {
            then_listed(alloc, problem, at, *first, others.as_slice(), fuel, goal)
        }
        Tac::Else(first, second) => or_else(alloc, problem, at, *first, *second, fuel, goal),
        Tac::Race(branches) => race(alloc, problem, at, branches.as_slice(), fuel, goal),
        Tac::Repeat(_, again) => repeat(alloc, problem, at, *again, left, fuel, goal),
        Tac::Progress(inner) => progress(alloc, problem, at, *inner, fuel, goal),
        Tac::Complete(inner) => complete(alloc, problem, at, *inner, fuel, goal),
    }
}

/// What the entry gives as a part of another one.
#[cycle(evaluation)]
fn part<L: Logic>(
    alloc: Global,
    problem: &Problem<L>,
    at: TacId,
    fuel: u32,
    goal: L::Goal,
) -> Result<Ended<L::Goal>, NoMemory>
    requires tac { at.0 < length problem.now.tacs }
    requires good { IsTrue ((L.meaning problem.now.logic).good goal) }
    ensures value { IfOk result (Ends (part_of L.meaning problem.now at.0 fuel goal) goal) }
    ensures is_for { IfOk result (IsFor (L.meaning problem.now.logic) fuel goal) }
{
    problem.known();
    let left = left_at(&problem.tacs, at);
    entry(alloc, problem, at, left, fuel, goal)
}

/// The first part, and then the second one on each leaf of its tree.
#[cycle(evaluation)]
fn then_each<L: Logic>(
    alloc: Global,
    problem: &Problem<L>,
    here: TacId,
    first: TacId,
    second: TacId,
    fuel: u32,
    goal: L::Goal,
) -> Result<Ended<L::Goal>, NoMemory>
    requires here { here.0 < length problem.now.tacs }
    requires first { (here.0 < first.0) × (first.0 < length problem.now.tacs) }
    requires second { (here.0 < second.0) × (second.0 < length problem.now.tacs) }
    requires good { IsTrue ((L.meaning problem.now.logic).good goal) }
    ensures { IfOk result (Ends (onward (part_of L.meaning problem.now first.0 fuel goal) (on_leaves_of (part_of L.meaning problem.now second.0) fuel)) goal) }
{
    match part(alloc, problem, first, fuel, goal)? {
        Ended::Tree(tree) => {
            let mut queue = Queue::Each(second, left_at(&problem.tacs, second));
            on_leaves(alloc, problem, &mut queue, fuel, tree)
        }
        Ended::Failed {
            kind,
            tac,
            given,
            other,
        } => Ok(Ended::Failed {
            kind,
            tac,
            given,
            other,
        }),
    }
}

/// The first part, and then one of the others on each leaf of its tree, if there are as many.
#[cycle(evaluation)]
fn then_listed<L: Logic>(
    alloc: Global,
    problem: &Problem<L>,
    here: TacId,
    first: TacId,
    others: &[TacId],
    fuel: u32,
    goal: L::Goal,
) -> Result<Ended<L::Goal>, NoMemory>
    requires here { here.0 < length problem.now.tacs }
    requires first { (here.0 < first.0) × (first.0 < length problem.now.tacs) }
    requires others { IsTrue (list_all (is_behind here.0 (length problem.now.tacs)) (places others.now)) }
    requires good { IsTrue ((L.meaning problem.now.logic).good goal) }
    ensures { IfOk result (Ends (onward (part_of L.meaning problem.now first.0 fuel goal) (λ t. listed_of (as_many others.now t) (part_of L.meaning problem.now) here.0 others.now fuel goal t)) goal) }
{
    match part(alloc, problem, first, fuel, goal)? {
        Ended::Tree(tree) => {
            if !has_as_many(others, &tree) {
                return Ok(failed(Kind::WrongCount, here, into_root(tree)));
            }
            let mut queue = Queue::Listed(here, waiting_of(alloc, others)?);
            on_leaves(alloc, problem, &mut queue, fuel, tree)
        }
        Ended::Failed {
            kind,
            tac,
            given,
            other,
        } => Ok(Ended::Failed {
            kind,
            tac,
            given,
            other,
        }),
    }
}

/// The first part, or the second one where it fails.
#[cycle(evaluation)]
fn or_else<L: Logic>(
    alloc: Global,
    problem: &Problem<L>,
    here: TacId,
    first: TacId,
    second: TacId,
    fuel: u32,
    goal: L::Goal,
) -> Result<Ended<L::Goal>, NoMemory>
    requires here { here.0 < length problem.now.tacs }
    requires first { (here.0 < first.0) × (first.0 < length problem.now.tacs) }
    requires second { (here.0 < second.0) × (second.0 < length problem.now.tacs) }
    requires good { IsTrue ((L.meaning problem.now.logic).good goal) }
    ensures { IfOk result (Ends (else_of (part_of L.meaning problem.now first.0 fuel goal) (part_of L.meaning problem.now second.0 fuel goal)) goal) }
{
    match part(alloc, problem, first, fuel, goal)? {
        Ended::Tree(tree) => Ok(Ended::Tree(tree)),
        Ended::Failed { given, .. } => part(alloc, problem, second, fuel, given),
    }
}

/// The first branch from the left that gives a tree, or what the last one gives.
#[cycle(evaluation)]
fn race<L: Logic>(
    alloc: Global,
    problem: &Problem<L>,
    here: TacId,
    branches: &[TacId],
    fuel: u32,
    goal: L::Goal,
) -> Result<Ended<L::Goal>, NoMemory>
    requires here { here.0 < length problem.now.tacs }
    requires some { 0 < length branches.now }
    requires branches { IsTrue (list_all (is_behind here.0 (length problem.now.tacs)) (places branches.now)) }
    requires good { IsTrue ((L.meaning problem.now.logic).good goal) }
    ensures { IfOk result (Ends (race_of (λ b. part_of L.meaning problem.now b.0 fuel goal) (failure_of kind.Failed here.0 goal) branches.now) goal) }
{
    let mut goal = goal;
    let mut rest = branches;
    while let [branch, _, ..] = rest {
        match part(alloc, problem, *branch, fuel, goal)? {
            Ended::Tree(tree) => return Ok(Ended::Tree(tree)),
            Ended::Failed { given, .. } => {
                goal = given;
                rest = &rest[1..];
            }
        }
    }
    part(alloc, problem, rest[0], fuel, goal)
}

/// The part so many times at most, on each leaf anew.
#[cycle(evaluation)]
fn repeat<L: Logic>(
    alloc: Global,
    problem: &Problem<L>,
    here: TacId,
    again: TacId,
    left: u32,
    fuel: u32,
    goal: L::Goal,
) -> Result<Ended<L::Goal>, NoMemory>
    requires here { here.0 < length problem.now.tacs }
    requires again { (here.0 < again.0) × (again.0 < length problem.now.tacs) }
    requires row { (n : ℕ) → entry_eval L.meaning problem.now here.0 n ≡ repeat_of (part_of L.meaning problem.now again.0) n }
    requires good { IsTrue ((L.meaning problem.now.logic).good goal) }
    ensures { IfOk result (Ends (repeat_of (part_of L.meaning problem.now again.0) left fuel goal) goal) }
{
    if left == 0 {
        return Ok(Ended::Tree(Tree::Leaf(goal)));
    }
    match part(alloc, problem, again, fuel, goal)? {
        Ended::Failed { given, .. } => Ok(Ended::Tree(Tree::Leaf(given))),
        Ended::Tree(tree) => {
            if is_leaf(&tree) {
                return Ok(Ended::Tree(tree));
            }
            let mut queue = Queue::Each(here, left - 1);
            on_leaves(alloc, problem, &mut queue, fuel, tree)
        }
    }
}

/// The part, and a failure where its tree leaves the goal as it is.
#[cycle(evaluation)]
fn progress<L: Logic>(
    alloc: Global,
    problem: &Problem<L>,
    here: TacId,
    inner: TacId,
    fuel: u32,
    goal: L::Goal,
) -> Result<Ended<L::Goal>, NoMemory>
    requires here { here.0 < length problem.now.tacs }
    requires inner { (here.0 < inner.0) × (inner.0 < length problem.now.tacs) }
    requires good { IsTrue ((L.meaning problem.now.logic).good goal) }
    ensures { IfOk result (Ends (onward (part_of L.meaning problem.now inner.0 fuel goal) (progressed_of (L.meaning problem.now.logic) here.0 goal)) goal) }
{
    match part(alloc, problem, inner, fuel, goal)? {
        Ended::Tree(tree) => Ok(progressed(problem.logic, here, tree)),
        Ended::Failed {
            kind,
            tac,
            given,
            other,
        } => Ok(Ended::Failed {
            kind,
            tac,
            given,
            other,
        }),
    }
}

/// The part, and a failure where its tree has an open leaf.
#[cycle(evaluation)]
fn complete<L: Logic>(
    alloc: Global,
    problem: &Problem<L>,
    here: TacId,
    inner: TacId,
    fuel: u32,
    goal: L::Goal,
) -> Result<Ended<L::Goal>, NoMemory>
    requires here { here.0 < length problem.now.tacs }
    requires inner { (here.0 < inner.0) × (inner.0 < length problem.now.tacs) }
    requires good { IsTrue ((L.meaning problem.now.logic).good goal) }
    ensures { IfOk result (Ends (onward (part_of L.meaning problem.now inner.0 fuel goal) (completed_of here.0 goal)) goal) }
{
    match part(alloc, problem, inner, fuel, goal)? {
        Ended::Tree(tree) => Ok(completed(here, tree)),
        Ended::Failed {
            kind,
            tac,
            given,
            other,
        } => Ok(Ended::Failed {
            kind,
            tac,
            given,
            other,
        }),
    }
}

/// The next strategies on the leaves of the tree, from left to right.
#[cycle(evaluation)]
fn on_leaves<L: Logic>(
    alloc: Global,
    problem: &Problem<L>,
    queue: &mut Queue,
    fuel: u32,
    tree: Tree<L::Goal>,
) -> Result<Ended<L::Goal>, NoMemory>
    requires ready { IsReady (length problem.now.tacs) queue.old (leaf_count_of tree) }
    requires good { EachGoal (λ g. IsTrue ((L.meaning problem.now.logic).good g)) tree }
    requires depth { tree_depth_of tree ≤ fuel }
    ensures value { IfOk result (Ends (on_tree (drawn L.meaning problem.now) queue.old fuel tree) (root_of tree)) }
    ensures rest { IfOk result (Passes queue.old queue.new (leaf_count_of tree)) }
{
    match tree {
        Tree::Leaf(goal) => {
            let (at, left) = draw(problem, queue);
            entry(alloc, problem, at, left, fuel, goal)
        }
        Tree::Step { goal, just, kids } => {
            match on_kids(alloc, problem, queue, fuel - 1, kids)? {
                Ok(kids) => Ok(Ended::Tree(Tree::Step { goal, just, kids })),
                Err(
                    Failure {
                        kind,
                        tac,
                        goal: other,
                    },
                ) => Ok(Ended::Failed {
                    kind,
                    tac,
                    given: goal,
                    other: Some(other),
                }),
            }
        }
    }
}

/// The next strategies on the leaves of the trees: what becomes of them, each in its place, or the first failure.
#[cycle(evaluation)]
fn on_kids<L: Logic>(
    alloc: Global,
    problem: &Problem<L>,
    queue: &mut Queue,
    fuel: u32,
    kids: List<Tree<L::Goal>>,
) -> Result<Result<List<Tree<L::Goal>>, Failure<L::Goal>>, NoMemory>
    requires ready { IsReady (length problem.now.tacs) queue.old (sum (map leaf_count_of kids)) }
    requires good { AllByRecursion (EachGoal (λ g. IsTrue ((L.meaning problem.now.logic).good g))) kids }
    requires depth { greatest (map tree_depth_of kids) ≤ fuel }
    ensures value { IfOk result (λ r. r ≡ on_kids_of (drawn L.meaning problem.now) queue.old fuel kids) }
    ensures rest { IfOk result (λ r. IfOk r (λ _. queue.new ≡ after (sum (map leaf_count_of kids)) queue.old)) }
{
    let mut kids = kids.into_vec();
    for place in 0..kids.len() {
        let kid = kids.remove(place);
        match on_leaves(alloc, problem, queue, fuel, kid)? {
            Ended::Tree(tree) => {
                if kids.insert(place, tree).is_err() {
                    return Err(NoMemory);
                }
            }
            Ended::Failed {
                kind,
                tac,
                given,
                other,
            } => return Ok(Err(failure(kind, tac, given, other))),
        }
    }
    Ok(Ok(List::from_vec(kids)))
}
