ghost use Rattle.std.specs.Prelude.{◌≡◌, ◌==◌, ◌&&◌};
ghost use Rattle.std.specs.Option.{option_copied};
ghost use Rattle.mp_logic.specs.Trees.{leaves_of, leaf_count_of, root_of};
ghost use Rattle.mp_strategy.specs.Strategies.{as_many, completed as completed_of, is_leaf as is_leaf_of, only_leaf, progressed as progressed_of};
ghost use Rattle.mp_eval.specs.Ends.{Ends};
ghost use Rattle.mp_eval.specs.Leaves.{first_goal};

use crate::ended::{Ended, failed};
use mp_logic::{Logic, Tree, leaf_count, root};
use mp_strategy::{Kind, TacId};

/// Whether the tree is a leaf.
pub(crate) fn is_leaf<G>(tree: &Tree<G>) -> bool
    ensures { result ≡ is_leaf_of tree.now }
{
    match tree {
        Tree::Leaf(_) => true,
        Tree::Step { .. } => false,
    }
}

/// Whether the tree has as many open leaves as there are strategies.
pub(crate) fn has_as_many<G>(strategies: &[TacId], tree: &Tree<G>) -> bool
    ensures { result ≡ as_many strategies.now tree.now }
{
    leaf_count(tree) == strategies.len() as u64
}

/// The goal at the root, and the rest is let go.
pub(crate) fn into_root<G: Drop>(tree: Tree<G>) -> G
    ensures { result ≡ root_of tree }
{
    match tree {
        Tree::Leaf(goal) => goal,
        Tree::Step { goal, .. } => goal,
    }
}

/// The goal of the first open leaf from the left.
fn first_leaf<G>(tree: &Tree<G>) -> Option<&G>
    ensures { option_copied result ≡ first_goal (leaves_of tree.now) }
{
    match tree {
        Tree::Leaf(goal) => Some(goal),
        Tree::Step { kids, .. } => {
            for kid in kids.as_slice() {
                if let Some(goal) = first_leaf(kid) {
                    return Some(goal);
                }
            }
            None
        }
    }
}

/// Whether the only open leaf of the tree is the goal at its root.
fn is_unchanged<L: Logic>(logic: &L, tree: &Tree<L::Goal>) -> bool
    ensures { result ≡ only_leaf (L.meaning logic.now).same (leaves_of tree.now) (root_of tree.now) }
{
    if leaf_count(tree) != 1 {
        return false;
    }
    match first_leaf(tree) {
        Some(goal) => logic.same_goal(goal, root(tree)),
        None => false,
    }
}

/// The tree, or a failure at its root's goal where that goal is its only open leaf.
pub(crate) fn progressed<L: Logic>(logic: &L, here: TacId, tree: Tree<L::Goal>) -> Ended<L::Goal>
    ensures { Ends (progressed_of (L.meaning logic.now) here.0 (root_of tree) tree) (root_of tree) result }
{
    if is_unchanged(logic, &tree) {
        return failed(Kind::NoProgress, here, into_root(tree));
    }
    Ended::Tree(tree)
}

/// The tree, or a failure at its root's goal where it has an open leaf.
pub(crate) fn completed<G: Drop>(here: TacId, tree: Tree<G>) -> Ended<G>
    ensures { Ends (completed_of here.0 (root_of tree) tree) (root_of tree) result }
{
    if leaf_count(&tree) != 0 {
        return failed(Kind::Incomplete, here, into_root(tree));
    }
    Ended::Tree(tree)
}
