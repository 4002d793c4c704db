ghost use Rattle.std.specs.Prelude.{◌≡◌, length, IsTrue};
ghost use Rattle.std.specs.List.{list_all};
ghost use Rattle.mp_strategy.specs.Fits.{fits_of};
ghost use Rattle.mp_strategy.specs.Problems.{IsProblem};

use crate::Tac;
use mp_logic::{List, Logic};
use std::marker::Model;

/// A problem, as contracts see it. No value of it is made.
pub struct ProblemState<L, J> {
    /// Where the steps are made.
    pub logic: L,
    /// What the steps are tried by; a strategy names them by their places.
    pub justs: List<J>,
    /// The strategies; each names its parts by their places.
    pub tacs: List<Tac>,
}

/// A logic, the justifications that its steps are tried by, and the table of strategies. The whole
/// strategy is entry 0. The table fits so many justifications, and the logic allows each of them.
#[derive(Drop)]
pub struct Problem<'l, L: Logic> {
    /// Where the steps are made.
    pub logic: &'l L,
    /// What the steps are tried by; a strategy names them by their places.
    pub justs: List<L::Just>,
    /// The strategies; each names its parts by their places.
    pub tacs: List<Tac>,
}

impl<'l, L: Logic> Model for Problem<'l, L> {
    ghost use Rattle.mp_strategy.specs.declared.problem.ProblemState.{ProblemState};

    ghost Value = { ProblemState L L.Just };

    ghost view = { λ p. record { logic = p.logic.now; justs = p.justs; tacs = p.tacs } };

    ghost use Rattle.mp_strategy.specs.Problems.{IsProblem};

    ghost invariant = { λ p. IsProblem L.meaning (record { logic = p.logic.now; justs = p.justs; tacs = p.tacs }) };
}

impl<'l, L: Logic> Problem<'l, L> {
    /// The problem of these parts.
    pub fn new(logic: &'l L, justs: List<L::Just>, tacs: List<Tac>) -> Problem<'l, L>
        requires fits { IsTrue (fits_of (length justs) tacs) }
        requires allowed { IsTrue (list_all (L.meaning logic.now).allowed justs) }
        ensures { result ≡ record { logic = logic.now; justs = justs; tacs = tacs } }
    {
        Problem { logic, justs, tacs }
    }

    /// A law, and no work: the table of a problem fits, and its justifications are allowed.
    pub fn known(&self)
        ensures { IsProblem L.meaning self.now }
    {
        let _ = &self.justs;
    }
}
