ghost use Rattle.std.specs.Prelude.{◌≡◌, ◌≤◌, nat_lt, ◌||◌, All, IsTrue, Some, sum_by};
ghost use Rattle.mp_logic.specs.Trees.{counted};
ghost use Rattle.mp_term.specs.Terms.{size_of};
ghost use Rattle.mp_term.specs.Limits.{within_limits_of};
ghost use Rattle.mp_schema.specs.Values.{instance_of};
ghost use Rattle.mp_build.specs.Built.{IsBuilt};
ghost use Rattle.mp_rewrite.specs.Addresses.{Subterm, subterm_of, put_in};
ghost use Rattle.mp_rewrite.specs.Building.{IsReady, AreBuilt, AreFew};
ghost use Rattle.mp_rewrite.specs.RewriteStep.{made_by, kids_by};

use crate::put::{copy_terms, put_in};
use crate::site::hyps_before;
use mp_build::{BuildErr, build_term};
use mp_logic::List;
use mp_schema::{Inst, Pattern};
use mp_term::limits::{MOST_DEPTH, MOST_NODES};
use mp_term::{Sequent, Term, size, weigh};
use mp_theory::{Place, Rewrite};
use std::alloc::Global;

/// Where a goal is rewritten.
#[derive(Clone, Copy)]
pub(crate) struct Target<'a> {
    /// The goal.
    pub goal: &'a Sequent,
    /// The place of a term in it.
    pub place: Place,
    /// The address in this term.
    pub address: &'a [u32],
    /// The subterm there.
    pub old: &'a Term,
}

/// The subgoals by the instance, if each is within the limits.
pub(crate) fn build_kids(
    alloc: Global,
    rewrite: &Rewrite,
    target: &Target,
    inst: &Inst,
) -> Result<List<Sequent>, BuildErr>
    requires goal { IsTrue (within_limits_of target.now.goal.now) }
    requires there { subterm_of target.now.place target.now.address.now target.now.goal.now ≡ Some (record { term = target.now.old.now; scope = inst.now.ambient }) }
    requires contractum { IsReady (instance_of inst.now) rewrite.now.contractum }
    requires conditions { All (IsReady (instance_of inst.now)) rewrite.now.conds }
    ensures { AreBuilt (kids_by rewrite.now target.now.place target.now.address.now target.now.goal.now inst.now.ambient (instance_of inst.now)) result }
{
    let mut kids = List::new(alloc);
    let rewritten = build_rewritten(alloc, &rewrite.contractum, target, inst)?;
    if kids.push(rewritten).is_err() {
        return Err(BuildErr::NoMemory);
    }
    let before = hyps_before(target.goal, target.place);
    let taken = total_size(before);
    for cond in rewrite.conds.as_slice() {
        let kid = build_condition(alloc, cond, before, taken, inst)?;
        if kids.push(kid).is_err() {
            return Err(BuildErr::NoMemory);
        }
    }
    Ok(kids)
}

// The goal with the contractum's instance for the subterm. It is weighed by what changes: what stands elsewhere was within
// the limits, and the instance lies as deep as the address is long.
fn build_rewritten(
    alloc: Global,
    contractum: &Pattern,
    target: &Target,
    inst: &Inst,
) -> Result<Sequent, BuildErr>
    requires goal { IsTrue (within_limits_of target.now.goal.now) }
    requires there { subterm_of target.now.place target.now.address.now target.now.goal.now ≡ Some (record { term = target.now.old.now; scope = inst.now.ambient }) }
    requires ready { IsReady (instance_of inst.now) contractum.now }
    ensures { IsBuilt (put_in target.now.place target.now.address.now (made_by inst.now.ambient (instance_of inst.now) contractum.now) target.now.goal.now) result }
{
    let new = build_term(alloc, contractum, inst)?;
    let weight = weigh(&new);
    let goal = target.goal;
    let whole = total_size(goal.hyps.as_slice()) + size(&goal.concl);
    let kept = whole - size(target.old);
    let nodes = kept + weight.size;
    let depth = target.address.len() as u64 + weight.depth;
    if is_over(nodes, depth) {
        return Err(BuildErr::TooLarge);
    }
    let made = put_in(alloc, goal, target.place, target.address, new)?;
    Ok(made)
}

// The condition's instance after these hypotheses, which have so many nodes.
fn build_condition(
    alloc: Global,
    cond: &Pattern,
    before: &[Term],
    taken: u64,
    inst: &Inst,
) -> Result<Sequent, BuildErr>
    requires ready { IsReady (instance_of inst.now) cond.now }
    requires few { AreFew before.now }
    requires taken { taken ≡ sum_by size_of before.now }
    requires small { taken ≤ 20000 }
    ensures { IsBuilt (record { hyps = before.now; concl = made_by inst.now.ambient (instance_of inst.now) cond.now }) result }
{
    let concl = build_term(alloc, cond, inst)?;
    if taken + size(&concl) > MOST_NODES {
        return Err(BuildErr::TooLarge);
    }
    let hyps = copy_terms(alloc, before)?;
    Ok(Sequent { hyps, concl })
}

// Whether so many nodes or so great a depth pass a limit.
fn is_over(nodes: u64, depth: u64) -> bool
    ensures { result ≡ (nat_lt 20000 nodes || nat_lt 200 depth) }
{
    nodes > MOST_NODES || depth > MOST_DEPTH
}

// The sizes of the terms together. The count stops at `2^64 - 1`.
fn total_size(terms: &[Term]) -> u64
    ensures { result ≡ counted (sum_by size_of terms.now) }
{
    let mut total = 0u64;
    for t in terms {
        total = total.saturating_add(size(t));
    }
    total
}
