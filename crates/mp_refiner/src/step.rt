ghost use Rattle.std.specs.Prelude.{◌≡◌, IsTrue, IfOk, map, All, if◌then◌else◌};
ghost use Rattle.mp_logic.specs.Steps.{IsAnswer};
ghost use Rattle.mp_term.specs.Limits.{within_limits_of};
ghost use Rattle.mp_schema.specs.Sequents.{seq};
ghost use Rattle.mp_schema.specs.Values.{instance_of};
ghost use Rattle.mp_theory.specs.Tables.{IsRule};
ghost use Rattle.mp_refiner.specs.Ready.{IsUsable, AreNew, IsReady};
ghost use Rattle.mp_theory.specs.Allowed.{is_good, is_allowed_at, are_for};
ghost use Rattle.mp_refiner.specs.Steps.{given_all, outcome_of};
ghost use Rattle.mp_rewrite.specs.Steps.{if_each};

use mp_build::{BuildErr, build_sequent};
use mp_logic::{List, NoMemory, StepErr, Why};
use mp_match::{give, match_sequent};
use mp_schema::{Inst, Schema};
use mp_term::Sequent;
use mp_theory::{Given, Need, Rule};
use std::alloc::Global;

/// The subgoals of the goal by the rule, or the first refusal.
pub(crate) fn rule_step(
    alloc: Global,
    rule: &Rule,
    first: Option<u32>,
    given: &List<Given>,
    goal: &Sequent,
) -> Result<List<Sequent>, StepErr>
    requires rule { IsRule rule.now }
    requires allowed { IsTrue (is_allowed_at (Some rule.now) first given.now) }
    requires good { IsTrue (is_good goal.now) }
    ensures { IsAnswer (outcome_of rule.now first given.now goal.now) result }
{
    let Ok(matched) = match_sequent(alloc, &rule.concl, first, goal) else {
        return Err(StepErr::NoMemory);
    };
    let Some(mut inst) = matched else {
        return Err(StepErr::Refused(Why::NoMatch));
    };
    match give_all(alloc, rule.needs.as_slice(), given.as_slice(), &mut inst) {
        Ok(true) => build_kids(alloc, rule.premises.as_slice(), &inst),
        Ok(false) => Err(StepErr::Refused(Why::BadArgument)),
        Err(NoMemory) => Err(StepErr::NoMemory),
    }
}

/// Puts the given terms into the instance. False where one of them names a hypothesis that it may not.
fn give_all(
    alloc: Global,
    needs: &[Need],
    given: &[Given],
    inst: &mut Inst,
) -> Result<bool, NoMemory>
    requires count { IsTrue (are_for needs.now given.now) }
    requires usable { All (IsUsable inst.old.ctxs) needs.now }
    requires new { AreNew inst.old.metas needs.now }
    ensures { IfOk result (λ done. (if done then Some inst.new else None) ≡ given_all needs.now given.now inst.old) }
{
    for place in 0..needs.len() {
        let need = &needs[place];
        if !give(
            inst,
            alloc,
            need.name,
            &need.ctxs,
            need.arity,
            &given[place].body,
        )? {
            return Ok(false);
        }
    }
    Ok(true)
}

/// The premises' instances, if each is within the limits.
fn build_kids(alloc: Global, premises: &[Schema], inst: &Inst) -> Result<List<Sequent>, StepErr>
    requires closed { inst.now.ambient ≡ 0 }
    requires ready { All (IsReady (instance_of inst.now)) premises.now }
    ensures { IsAnswer (if_each within_limits_of (map (seq (instance_of inst.now)) premises.now)) result }
{
    let mut kids = List::new(alloc);
    for premise in premises {
        match build_sequent(alloc, premise, inst) {
            Ok(kid) => {
                if kids.push(kid).is_err() {
                    return Err(StepErr::NoMemory);
                }
            }
            Err(BuildErr::TooLarge) => return Err(StepErr::Refused(Why::TooLarge)),
            Err(BuildErr::NoMemory) => return Err(StepErr::NoMemory),
        }
    }
    Ok(kids)
}
