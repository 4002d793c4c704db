ghost use Rattle.std.specs.Prelude.{◌≡◌};
ghost use Rattle.mp_strategy.specs.declared.outcome.Outcome.{Outcome as Result};
ghost use Rattle.mp_strategy.specs.Strategies.{failure as failure_of};
ghost use Rattle.mp_eval.specs.Ends.{Ends, where_at};

use mp_logic::Tree;
use mp_strategy::{Failure, Kind, Outcome, TacId};

/// What a strategy ends with. A failure hands back the goal that the strategy was tried on, so that another strategy can
/// be tried on it with nothing copied.
#[derive(Drop)]
pub(crate) enum Ended<G> {
    /// The tree.
    Tree(Tree<G>),
    /// The failure.
    Failed {
        kind: Kind,
        tac: TacId,
        /// The goal that the strategy was tried on.
        given: G,
        /// The goal that the failure arose at, where it is another one.
        other: Option<G>,
    },
}

/// A failure at the goal that the strategy was tried on.
pub(crate) fn failed<G: Drop>(kind: Kind, tac: TacId, given: G) -> Ended<G>
    ensures { Ends (failure_of kind tac.0 given) given result }
{
    Ended::Failed {
        kind,
        tac,
        given,
        other: None,
    }
}

/// The failure with the goal that it arose at.
pub(crate) fn failure<G: Drop>(kind: Kind, tac: TacId, given: G, other: Option<G>) -> Failure<G>
    ensures { result ≡ record { kind = kind; tac = tac; goal = where_at other given } }
{
    match other {
        Some(goal) => Failure { kind, tac, goal },
        None => Failure {
            kind,
            tac,
            goal: given,
        },
    }
}

/// The outcome that a strategy ended with.
pub(crate) fn outcome<G: Drop>(ended: Ended<G>) -> Outcome<G>
    ensures { (o : Result G) (g : G) → Ends o g ended → result ≡ o }
{
    match ended {
        Ended::Tree(tree) => Outcome::Tree(tree),
        Ended::Failed {
            kind,
            tac,
            given,
            other,
        } => Outcome::Failure(failure(kind, tac, given, other)),
    }
}
