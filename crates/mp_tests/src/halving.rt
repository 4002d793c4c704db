//! A logic whose steps halve numbers, for the calls of evaluation.
ghost use Rattle.std.specs.Prelude.{nat_eq, nat_le, true};
ghost use Rattle.std.proofs.lemmas.Bool.{eq-eqb, eqb-true};
ghost use Rattle.mp_tests.specs.Halves.{halved, halves_are_few, halves_are_good};

use mp_logic::{List, Logic, NoMemory, StepErr, Why};
use std::alloc::Global;

/// A step by a number gives the half of an even number, so many times. No step applies to an odd number.
#[derive(Drop)]
pub(crate) struct Halving;

impl Logic for Halving {
    type Goal = u32;

    type Just = u32;

    ghost meaning = { λ l. record {
      good = λ g. true;
      allowed = λ j. nat_le j 2;
      step = halved;
      same = nat_eq;
      width = 2;
    } };

    fn step(&self, alloc: Global, just: &u32, goal: &u32) -> Result<List<u32>, StepErr> {
        if *goal % 2 != 0 {
            return Err(StepErr::Refused(Why::NoMatch));
        }
        match vec![in alloc; *goal / 2; *just as usize] {
            Ok(halves) => Ok(List::from_vec(halves)),
            Err(_) => Err(StepErr::NoMemory),
        }
    }

    fn copy_goal(&self, _alloc: Global, goal: &u32) -> Result<u32, NoMemory> {
        Ok(*goal)
    }

    fn copy_just(&self, _alloc: Global, just: &u32) -> Result<u32, NoMemory> {
        Ok(*just)
    }

    fn same_goal(&self, a: &u32, b: &u32) -> bool {
        *a == *b
    }

    fn width(&self) -> u32 {
        2
    }

    ghost lawful = { λ l. record {
      keeps_good = λ j g allowed good. halves_are_good j g;
      within_width = λ j g allowed good. halves_are_few j g allowed;
      same_is = λ a b. (eqb-true a b, eq-eqb a b);
    } };
}
