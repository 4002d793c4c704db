//! Lists and trees: what is pushed and popped, grafted and copied.

use crate::table::check;
use crate::toy::Stepless;
use mp_logic::{JustId, List, Tree, copy_tree, count, graft, leaf_count, root};
use mp_strategy::{Failure, Kind, Outcome, TacId, Work, copy_outcome, copy_work};
use std::alloc::Global;
use std::test::Fail;

/// A step on goal 1 with the open leaves 2 and 3.
fn two_leaves(alloc: Global) -> Option<Tree<u32>> {
    let kids = vec![in alloc; Tree::Leaf(2), Tree::Leaf(3)].ok()?;
    Some(Tree::Step {
        goal: 1,
        just: JustId(0),
        kids: List::from_vec(kids),
    })
}

fn push_goals(tree: &Tree<u32>, goals: &mut Vec<u32>) -> Option<()> {
    goals.push(*root(tree)).ok()?;
    if let Tree::Step { kids, .. } = tree {
        for kid in kids.as_slice() {
            push_goals(kid, goals)?;
        }
    }
    Some(())
}

/// Whether the tree has these goals, in preorder.
pub(crate) fn has_goals(alloc: Global, tree: &Tree<u32>, due: &[u32]) -> Option<bool> {
    let mut goals = Vec::new(alloc);
    push_goals(tree, &mut goals)?;
    Some(goals.as_slice() == due)
}

// ## Lists

fn push_all(list: &mut List<u8>, bytes: &[u8]) -> Option<()> {
    for byte in bytes {
        list.push(*byte).ok()?;
    }
    Some(())
}

/// The list of these bytes, with room for one at first.
fn pushed(alloc: Global, bytes: &[u8]) -> Option<List<u8>> {
    let mut list = List::with_capacity(alloc, 1).ok()?;
    push_all(&mut list, bytes)?;
    Some(list)
}

fn is_read(list: &List<u8>) -> bool {
    list.as_slice() == [5u8, 7, 9].as_slice()
        && list.get(2).copied() == Some(9)
        && list.get(3).is_none()
}

fn is_popped(list: &mut List<u8>) -> bool {
    list.pop() == Some(9) && list.len() == 2
}

fn is_list(alloc: Global) -> Option<bool> {
    let mut list = pushed(alloc, &[5, 7, 9])?;
    Some(is_read(&list) && is_popped(&mut list))
}

#[test]
fn a_list_is_pushed_read_and_popped(rt: HostRuntime) -> Result<(), Fail> {
    check(0, is_list(rt.alloc()))
}

// ## Trees and what else a strategy gives

fn subs(alloc: Global) -> Option<List<Tree<u32>>> {
    let tree = two_leaves(alloc)?;
    Some(List::from_vec(vec![in alloc; Tree::Leaf(20), tree].ok()?))
}

/// The tree whose leaves are a leaf and a tree with two leaves.
fn grafted(alloc: Global) -> Option<Tree<u32>> {
    let mut tree = two_leaves(alloc)?;
    let subs = subs(alloc)?;
    if leaf_count(&tree) != 2 || subs.len() != 2 {
        return None;
    }
    graft(&mut tree, subs);
    Some(tree)
}

fn is_filled(alloc: Global) -> Option<bool> {
    let tree = grafted(alloc)?;
    let has_counts = leaf_count(&tree) == 3 && count(&tree) == 5;
    Some(has_goals(alloc, &tree, &[1, 20, 1, 2, 3])? && has_counts)
}

#[test]
fn leaves_are_filled_from_the_left(rt: HostRuntime) -> Result<(), Fail> {
    check(0, is_filled(rt.alloc()))
}

fn tree_copied(alloc: Global) -> Option<Tree<u32>> {
    copy_tree(alloc, &Stepless, &two_leaves(alloc)?).ok()
}

/// The copy of a copy of the tree, as an outcome's.
fn outcome_copied(alloc: Global) -> Option<Outcome<u32>> {
    copy_outcome(alloc, &Stepless, &Outcome::Tree(tree_copied(alloc)?)).ok()
}

fn is_tree_copied(alloc: Global) -> Option<bool> {
    match &outcome_copied(alloc)? {
        Outcome::Tree(tree) => has_goals(alloc, tree, &[1, 2, 3]),
        Outcome::Failure(_) => None,
    }
}

#[test]
fn trees_and_outcomes_are_copied(rt: HostRuntime) -> Result<(), Fail> {
    check(0, is_tree_copied(rt.alloc()))
}

fn failure_copied(alloc: Global) -> Option<Outcome<u32>> {
    let failure = Failure {
        kind: Kind::TooLarge,
        tac: TacId(4),
        goal: 9,
    };
    copy_outcome(alloc, &Stepless, &Outcome::Failure(failure)).ok()
}

/// Whether the copy of the failure has its kind, its strategy and its goal.
fn is_failure_copied(alloc: Global) -> Option<bool> {
    Some(match &failure_copied(alloc)? {
        Outcome::Failure(copy) => {
            copy.kind == Kind::TooLarge && copy.tac == TacId(4) && copy.goal == 9
        }
        Outcome::Tree(_) => false,
    })
}

/// Whether the copy of a work has its strategy, its repeats, its fuel and its goal.
fn is_work_copied(alloc: Global) -> Option<bool> {
    let work = Work {
        tac: TacId(3),
        left: 2,
        fuel: 400,
        goal: 7,
    };
    let copy = copy_work(alloc, &Stepless, &work).ok()?;
    Some(copy.tac == TacId(3) && copy.left == 2 && copy.fuel == 400 && copy.goal == 7)
}

#[test]
fn failures_and_works_are_copied(rt: HostRuntime) -> Result<(), Fail> {
    check(0, is_failure_copied(rt.alloc()))?;
    check(1, is_work_copied(rt.alloc()))
}
