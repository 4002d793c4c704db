ghost use Rattle.std.specs.Prelude.{◌≡◌, length, nat_lt, ◌&&◌, IsTrue};
ghost use Rattle.mp_logic.specs.Steps.{IsAnswer};
ghost use Rattle.mp_theory.specs.Allowed.{is_good};
ghost use Rattle.mp_theory.specs.Tables.{IsRewrite};
ghost use Rattle.mp_rewrite.specs.Steps.{rewrite_outcome};

use crate::kids::{Target, build_kids};
use crate::site::{hyps_before, site_at, term_at};
use mp_build::BuildErr;
use mp_logic::{List, StepErr, Why};
use mp_match::match_term;
use mp_term::Sequent;
use mp_theory::{Address, Place, Rewrite};
use std::alloc::Global;

/// The subgoals of the goal by the rewrite at this address of the term at a place: first the goal with the contractum's
/// instance there, and then for each condition the hypotheses before the place with the condition's instance.
///
/// Refused is, in this order: `BadAddress`, that there is no such hypothesis or no such subterm; `UnderBinder`, that the
/// rewrite has a condition and the address passes a binder; `NoMatch`, that the subterm is no instance of the redex;
/// `TooLarge`, that a subgoal isn't within the limits.
///
/// The rewrite must have no fault, and the goal must be good. What is unchanged is shared with the goal, and the time is linear in
/// the goal's nodes and those that are built, however long the address is.
pub fn apply(
    alloc: Global,
    rewrite: &Rewrite,
    place: &Place,
    address: &Address,
    goal: &Sequent,
) -> Result<List<Sequent>, StepErr>
    requires rewrite { IsRewrite rewrite.now }
    requires good { IsTrue (is_good goal.now) }
    ensures { IsAnswer (rewrite_outcome rewrite.now place.now address.now goal.now) result }
{
    let (place, address) = (*place, address.steps());
    let scope = hyps_before(goal, place).len() as u32;
    let Some(t) = term_at(goal, place) else {
        return Err(StepErr::Refused(Why::BadAddress));
    };
    let Some(site) = site_at(t, scope, address) else {
        return Err(StepErr::Refused(Why::BadAddress));
    };
    if is_barred(rewrite, scope, site.scope) {
        return Err(StepErr::Refused(Why::UnderBinder));
    }
    let Ok(matched) = match_term(alloc, &rewrite.redex, site.scope, site.term) else {
        return Err(StepErr::NoMemory);
    };
    let Some(inst) = matched else {
        return Err(StepErr::Refused(Why::NoMatch));
    };
    let target = Target {
        goal,
        place,
        address,
        old: site.term,
    };
    match build_kids(alloc, rewrite, &target, &inst) {
        Ok(kids) => Ok(kids),
        Err(BuildErr::TooLarge) => Err(StepErr::Refused(Why::TooLarge)),
        Err(BuildErr::NoMemory) => Err(StepErr::NoMemory),
    }
}

// Whether the rewrite has a condition, and this scope of a subterm is wider than that of the term at the place: then the address
// passes a binder.
fn is_barred(rewrite: &Rewrite, scope: u32, inner: u32) -> bool
    ensures { result ≡ (nat_lt 0 (length rewrite.now.conds) && nat_lt scope inner) }
{
    rewrite.conds.len() > 0 && inner > scope
}
