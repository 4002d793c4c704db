ghost use Rattle.std.specs.Prelude.{◌≡◌, ◌≤◌, length, IfOk, IsTrue};
ghost use Rattle.std.specs.List.{list_all};
ghost use Rattle.mp_logic.specs.Meaning.{Meaning, IsLogic};
ghost use Rattle.mp_logic.specs.Steps.{IsAnswer};

use crate::{List, NoMemory, Tree};
use std::alloc::Global;

/// Why a step is refused.
#[derive(Clone, Copy, Debug, PartialEq, Eq)]
pub enum Why {
    /// The goal is no instance of what the step applies to.
    NoMatch,
    /// A given term names a hypothesis that it may not use.
    BadArgument,
    /// There is no such hypothesis or no such subterm.
    BadAddress,
    /// A conditional rewrite below a binder.
    UnderBinder,
    /// A subgoal isn't within the limits.
    TooLarge,
}

/// What a step answers in place of its subgoals.
#[derive(Clone, Copy, Debug, PartialEq, Eq)]
pub enum StepErr {
    Refused(Why),
    NoMemory,
}

/// A logic in the LCF tradition: its steps are the one place where subgoals are made. Whatever is above
/// it, strategies and job trees among them, is proved for every logic.
pub trait Logic {
    type Goal: Drop + Send + Sync;

    type Just: Drop + Send + Sync;

    /// What the logic means: its goals, its justifications, its steps, and which goals are equal.
    ghost meaning: { Self → Meaning Self.Goal Self.Just };

    /// The subgoals in order, or why there are none.
    fn step(
        &self,
        alloc: Global,
        just: &Self::Just,
        goal: &Self::Goal,
    ) -> Result<List<Self::Goal>, StepErr>
        requires allowed { IsTrue ((meaning self.now).allowed just.now) }
        requires good { IsTrue ((meaning self.now).good goal.now) }
        ensures answer { IsAnswer ((meaning self.now).step just.now goal.now) result }
        ensures good { IfOk result (λ kids. IsTrue (list_all (meaning self.now).good kids)) }
        ensures narrow { IfOk result (λ kids. length kids ≤ (meaning self.now).width) };

    /// An equal goal.
    fn copy_goal(&self, alloc: Global, goal: &Self::Goal) -> Result<Self::Goal, NoMemory>
        ensures { IfOk result (λ copy. copy ≡ goal.now) };

    /// An equal justification.
    fn copy_just(&self, alloc: Global, just: &Self::Just) -> Result<Self::Just, NoMemory>
        ensures { IfOk result (λ copy. copy ≡ just.now) };

    /// Whether the goals are equal.
    fn same_goal(&self, a: &Self::Goal, b: &Self::Goal) -> bool
        ensures { result ≡ (meaning self.now).same a.now b.now };

    /// The greatest number of subgoals.
    fn width(&self) -> u32
        ensures { result ≡ (meaning self.now).width };

    /// The subgoals of a good goal by an allowed justification are good, and no more than the width; and the test of
    /// goals is equality.
    ghost lawful: { (l : Self) → IsLogic (meaning l) };
}

/// An equal tree.
pub fn copy_tree<L: Logic>(
    alloc: Global,
    logic: &L,
    tree: &Tree<L::Goal>,
) -> Result<Tree<L::Goal>, NoMemory>
    ensures { IfOk result (λ copy. copy ≡ tree.now) }
{
    match tree {
        Tree::Leaf(goal) => Ok(Tree::Leaf(logic.copy_goal(alloc, goal)?)),
        Tree::Step { goal, just, kids } => {
            let mut copies = List::with_capacity(alloc, kids.len())?;
            for kid in kids.as_slice() {
                let copy = copy_tree(alloc, logic, kid)?;
                if let Err((_, refused)) = copies.push(copy) {
                    return Err(refused);
                }
            }
            Ok(Tree::Step {
                goal: logic.copy_goal(alloc, goal)?,
                just: *just,
                kids: copies,
            })
        }
    }
}
