ghost use Rattle.std.specs.Prelude.{◌≡◌};
ghost use Rattle.mp_refiner.specs.Lawful.{lawful};
ghost use Rattle.mp_refiner.specs.Steps.{meaning_of};

use crate::step::rule_step;
use crate::value::copy_justification;
use mp_logic::{List, Logic, NoMemory, StepErr, Why};
use mp_rewrite::apply;
use mp_term::{Sequent, copy_sequent, same_sequent};
use mp_theory::{Just, Theory};
use std::alloc::Global;
use std::marker::Model;

/// The logic of a theory: its goals are sequents, and its steps are by the theory's laws.
#[derive(Drop)]
pub struct Refiner<'a> {
    theory: &'a Theory,
}

impl<'a> Model for Refiner<'a> {
    ghost use Rattle.mp_theory.specs.Tables.{Laws};
    ghost use Rattle.mp_theory.specs.contracts.law.Law as law;
    ghost use Rattle.std.specs.Coded.{codes};

    ghost Value = { Laws };

    ghost coded = { Prim.hlevel (codes, law.the_row.coded) };

    ghost view = { λ r. r.theory.now };
}

impl<'a> Refiner<'a> {
    /// The logic of this theory.
    pub fn new(theory: &'a Theory) -> Refiner<'a>
        ensures { result ≡ theory.now }
    {
        Refiner { theory }
    }
}

impl<'a> Logic for Refiner<'a> {
    type Goal = Sequent;

    type Just = Just;

    ghost meaning = { λ theory. meaning_of theory };

    fn step(&self, alloc: Global, just: &Just, goal: &Sequent) -> Result<List<Sequent>, StepErr> {
        match just {
            Just::Rule { rule, first, given } => match self.theory.rule(*rule) {
                Some(rule) => rule_step(alloc, rule, *first, given, goal),
                None => Err(StepErr::Refused(Why::NoMatch)),
            },
            Just::Rewrite {
                rewrite,
                place,
                address,
            } => match self.theory.rewrite(*rewrite) {
                Some(rewrite) => apply(alloc, rewrite, place, address, goal),
                None => Err(StepErr::Refused(Why::NoMatch)),
            },
        }
    }

    fn copy_goal(&self, alloc: Global, goal: &Sequent) -> Result<Sequent, NoMemory> {
        copy_sequent(alloc, goal)
    }

    fn copy_just(&self, alloc: Global, just: &Just) -> Result<Just, NoMemory> {
        copy_justification(alloc, just)
    }

    fn same_goal(&self, a: &Sequent, b: &Sequent) -> bool {
        same_sequent(a, b)
    }

    fn width(&self) -> u32 {
        self.theory.width()
    }

    ghost lawful = { λ theory. lawful theory };
}
