//! A logic whose goals are numbers, for the calls of evaluation and of the core.
ghost use Rattle.std.specs.Prelude.{nat_eq, true, Err};
ghost use Rattle.std.proofs.lemmas.Bool.{eq-eqb, eqb-true};
ghost use Rattle.mp_logic.specs.declared.logic.Why.TheVariants.{NoMatch};

use mp_logic::{List, Logic, NoMemory, StepErr, Why};
use std::alloc::Global;

/// No step applies to any goal.
#[derive(Drop)]
pub(crate) struct Stepless;

impl Logic for Stepless {
    type Goal = u32;

    type Just = u32;

    ghost meaning = { λ l. record {
      good = λ g. true;
      allowed = λ j. true;
      step = λ j g. Err NoMatch;
      same = nat_eq;
      width = 0;
    } };

    fn step(&self, _alloc: Global, _just: &u32, _goal: &u32) -> Result<List<u32>, StepErr> {
        Err(StepErr::Refused(Why::NoMatch))
    }

    fn copy_goal(&self, _alloc: Global, goal: &u32) -> Result<u32, NoMemory> {
        Ok(*goal)
    }

    fn copy_just(&self, _alloc: Global, just: &u32) -> Result<u32, NoMemory> {
        Ok(*just)
    }

    fn same_goal(&self, a: &u32, b: &u32) -> bool {
        *a == *b
    }

    fn width(&self) -> u32 {
        0
    }

    ghost lawful = { λ l. record {
      keeps_good = λ j g allowed good. tt;
      within_width = λ j g allowed good. tt;
      same_is = λ a b. (eqb-true a b, eq-eqb a b);
    } };
}
