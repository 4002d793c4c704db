use mp_logic::{List, Tree};
use mp_strategy::{Kind, TacId};
use mp_term::Sequent;
use mp_theory::Just;

/// What is printed of a goal's outcome, and read again.
#[derive(Drop)]
pub enum Printed {
    /// The tree, and the justifications that its steps name by their places.
    Proof {
        tree: Tree<Sequent>,
        justs: List<Just>,
    },
    /// There is no tree: why, the number of the strategy that failed, and the goal that it failed on.
    Failed {
        kind: Kind,
        tac: TacId,
        goal: Sequent,
    },
}
