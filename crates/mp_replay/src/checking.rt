ghost use Rattle.std.specs.Prelude.{◌≡◌, ◌↔◌, map, IfOk, IsTrue, MatchOption};
ghost use Rattle.mp_logic.specs.declared.tree.Tree.TheOpen as layer;
ghost use Rattle.mp_logic.specs.Trees.{root_of};
ghost use Rattle.mp_logic.specs.Valid.{StepHolds};
ghost use Rattle.mp_replay.specs.Conditions.{CanReplay, IsByAllowed};
ghost use Rattle.mp_replay.specs.Finding.{Finds};
ghost use Rattle.mp_replay.specs.Nodes.{preorder_of};
ghost use Rattle.mp_replay.specs.Verdicts.{IsBad, IsVerdict};

use crate::{BadCause, Verdict};
use mp_logic::{JustId, List, Logic, NoMemory, StepErr, Tree, leaf_count, root};
use std::alloc::Global;

/// Whether the tree is valid for the goal, with how many open leaves; else its first bad node in preorder, with its cause.
/// That the tree is for another goal is said of node 1, and before any other cause. Each step is taken once, up to the bad one.
/// The goals of the tree are good, and each of its justifications is in the list and allowed. NoMemory where memory ran out.
pub fn replay<L: Logic>(
    alloc: Global,
    logic: &L,
    justs: &List<L::Just>,
    goal: &L::Goal,
    tree: &Tree<L::Goal>,
) -> Result<Verdict<L::Goal>, NoMemory>
    requires { CanReplay (L.meaning logic.now) justs.now tree.now }
    ensures { IfOk result (λ verdict. IsVerdict (L.meaning logic.now).step justs.now tree.now goal.now verdict) }
{
    if !same_goals(logic, root(tree), goal) {
        return Ok(Verdict::Bad {
            node: 1,
            cause: BadCause::Goal,
        });
    }
    let mut seen = 0u64;
    let found = first_fault(alloc, logic, justs, tree, &mut seen)?;
    match found {
        Some(cause) => Ok(Verdict::Bad { node: seen, cause }),
        None => match leaf_count(tree) {
            0 => Ok(Verdict::Closed),
            open_leaves => Ok(Verdict::OpenLeaves(open_leaves)),
        },
    }
}

/// What is wrong with the first bad node of this tree in preorder; None where none is bad. It counts the nodes that it
/// sees, the bad one too.
fn first_fault<L: Logic>(
    alloc: Global,
    logic: &L,
    justs: &List<L::Just>,
    tree: &Tree<L::Goal>,
    seen: &mut u64,
) -> Result<Option<BadCause<L::Goal>>, NoMemory>
    requires { CanReplay (L.meaning logic.now) justs.now tree.now }
    ensures { IfOk result (λ found. Finds (L.meaning logic.now).step justs.now (preorder_of tree.now) seen.old found seen.new) }
{
    *seen = seen.saturating_add(1);
    match tree {
        Tree::Leaf(_) => Ok(None),
        Tree::Step { goal, just, kids } => {
            if let Some(cause) = step_fault(alloc, logic, justs, goal, *just, kids)? {
                return Ok(Some(cause));
            }
            for kid in kids.as_slice() {
                if let Some(cause) = first_fault(alloc, logic, justs, kid, seen)? {
                    return Ok(Some(cause));
                }
            }
            Ok(None)
        }
    }
}

/// What is wrong with a step; None where it gives the kids' goals.
fn step_fault<L: Logic>(
    alloc: Global,
    logic: &L,
    justs: &List<L::Just>,
    goal: &L::Goal,
    just: JustId,
    kids: &List<Tree<L::Goal>>,
) -> Result<Option<BadCause<L::Goal>>, NoMemory>
    requires good { IsTrue ((L.meaning logic.now).good goal.now) }
    requires allowed { IsByAllowed (L.meaning logic.now) justs.now (layer.Step goal.now just kids.now) }
    ensures { IfOk result (λ found. MatchOption found
        (StepHolds (L.meaning logic.now).step justs.now (layer.Step goal.now just kids.now))
        (λ cause. IsBad (L.meaning logic.now).step justs.now (layer.Step goal.now just kids.now) cause)) }
{
    let just = &justs.as_slice()[just.0 as usize];
    let due = match logic.step(alloc, just, goal) {
        Ok(due) => due,
        Err(StepErr::Refused(why)) => return Ok(Some(BadCause::Refused(why))),
        Err(StepErr::NoMemory) => return Err(NoMemory),
    };
    if are_roots(logic, due.as_slice(), kids.as_slice()) {
        return Ok(None);
    }
    let found = roots(alloc, logic, kids.as_slice())?;
    Ok(Some(BadCause::Kids { found, due }))
}

/// Whether these are the goals at the trees' roots, in order.
fn are_roots<L: Logic>(logic: &L, goals: &[L::Goal], trees: &[Tree<L::Goal>]) -> bool
    ensures { IsTrue result ↔ (goals.now ≡ map root_of trees.now) }
{
    if goals.len() != trees.len() {
        return false;
    }
    for i in 0..goals.len() {
        if !same_goals(logic, &goals[i], root(&trees[i])) {
            return false;
        }
    }
    true
}

/// Copies of the goals at the trees' roots, in order.
fn roots<L: Logic>(
    alloc: Global,
    logic: &L,
    trees: &[Tree<L::Goal>],
) -> Result<List<L::Goal>, NoMemory>
    ensures { IfOk result (λ goals. goals ≡ map root_of trees.now) }
{
    let mut goals = List::with_capacity(alloc, trees.len() as u64)?;
    for tree in trees {
        let goal = logic.copy_goal(alloc, root(tree))?;
        if let Err((_, refused)) = goals.push(goal) {
            return Err(refused);
        }
    }
    Ok(goals)
}

/// Whether the goals are equal.
fn same_goals<L: Logic>(logic: &L, a: &L::Goal, b: &L::Goal) -> bool
    ensures { IsTrue result ↔ (a.now ≡ b.now) }
{
    logic.same_goal(a, b)
}
