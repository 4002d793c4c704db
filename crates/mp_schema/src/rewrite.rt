ghost use Rattle.std.specs.Prelude.{◌≡◌};
ghost use Rattle.mp_schema.specs.Faults.{rewrite_is_few, rewrite_is_shallow, rewrite_is_small, rewrite_is_closed, rewrite_is_listed, rewrite_is_on_variables, rewrite_is_consistent, rewrite_is_filled, rewrite_is_bound, rewrite_fault_of};

use crate::contexts::Listed;
use crate::demand::{pattern_keeps, patterns_keep};
use crate::holes::{are_patterns_filled, is_pattern_filled};
use crate::levels::is_pattern_closed;
use crate::limits::MOST_CONDITIONS;
use crate::measures::{is_few_pattern, is_pattern_shallow, is_pattern_small};
use crate::uses::{AsInRewrite, BoundIn, OnVariables};
use crate::{Pattern, SchemaFault};
use mp_logic::List;

/// The first fault of the rewrite of the redex to the contractum under these conditions, in the order of
/// `SchemaFault`; None where it has none. It takes no memory.
#[tactic(auto, using(crate::proofs::Rewrites::unlisted), unfolding(crate::specs::Faults::rewrite_is_on_variables))]
pub fn rewrite_fault(
    conds: &List<Pattern>,
    redex: &Pattern,
    contractum: &Pattern,
) -> Option<SchemaFault>
    ensures { result ≡ rewrite_fault_of conds.now redex.now contractum.now }
{
    let conds = conds.as_slice();
    if !is_rewrite_few(conds, redex, contractum) {
        return Some(SchemaFault::TooMany);
    }
    if !is_rewrite_shallow(conds, redex, contractum) {
        return Some(SchemaFault::TooDeep);
    }
    if !is_rewrite_small(conds, redex, contractum) {
        return Some(SchemaFault::TooBig);
    }
    if !is_rewrite_closed(conds, redex, contractum) {
        return Some(SchemaFault::UnboundVar);
    }
    // A list without contexts has none twice.
    if !is_rewrite_listed(conds, redex, contractum) {
        return Some(SchemaFault::DanglingContext);
    }
    if !pattern_keeps(redex, &OnVariables) {
        return Some(SchemaFault::NotAPattern);
    }
    if !is_rewrite_consistent(conds, redex, contractum) {
        return Some(SchemaFault::BadUse);
    }
    if !is_rewrite_filled(conds, redex, contractum) {
        return Some(SchemaFault::UnboundParam);
    }
    if !is_rewrite_bound(conds, redex, contractum) {
        return Some(SchemaFault::UnboundMeta);
    }
    None
}

#[tactic(auto, unfolding(crate::specs::Faults::rewrite_is_few))]
fn is_rewrite_few(conds: &[Pattern], redex: &Pattern, contractum: &Pattern) -> bool
    ensures { result ≡ rewrite_is_few conds.now redex.now contractum.now }
{
    if conds.len() as u64 > MOST_CONDITIONS {
        return false;
    }
    for cond in conds {
        if !is_few_pattern(cond) {
            return false;
        }
    }
    is_few_pattern(redex) && is_few_pattern(contractum)
}

#[tactic(auto, unfolding(crate::specs::Faults::rewrite_is_shallow))]
fn is_rewrite_shallow(conds: &[Pattern], redex: &Pattern, contractum: &Pattern) -> bool
    ensures { result ≡ rewrite_is_shallow conds.now redex.now contractum.now }
{
    for cond in conds {
        if !is_pattern_shallow(cond) {
            return false;
        }
    }
    is_pattern_shallow(redex) && is_pattern_shallow(contractum)
}

#[tactic(auto, unfolding(crate::specs::Faults::rewrite_is_small))]
fn is_rewrite_small(conds: &[Pattern], redex: &Pattern, contractum: &Pattern) -> bool
    ensures { result ≡ rewrite_is_small conds.now redex.now contractum.now }
{
    for cond in conds {
        if !is_pattern_small(cond) {
            return false;
        }
    }
    is_pattern_small(redex) && is_pattern_small(contractum)
}

#[tactic(auto, unfolding(crate::specs::Faults::rewrite_is_closed))]
fn is_rewrite_closed(conds: &[Pattern], redex: &Pattern, contractum: &Pattern) -> bool
    ensures { result ≡ rewrite_is_closed conds.now redex.now contractum.now }
{
    for cond in conds {
        if !is_pattern_closed(cond, 0) {
            return false;
        }
    }
    is_pattern_closed(redex, 0) && is_pattern_closed(contractum, 0)
}

#[tactic(auto, unfolding(crate::specs::Faults::rewrite_is_listed))]
fn is_rewrite_listed(conds: &[Pattern], redex: &Pattern, contractum: &Pattern) -> bool
    ensures { result ≡ rewrite_is_listed conds.now redex.now contractum.now }
{
    let demand = Listed { before: &[] };
    patterns_keep(conds, &demand)
        && pattern_keeps(redex, &demand)
        && pattern_keeps(contractum, &demand)
}

#[tactic(auto, unfolding(crate::specs::Faults::rewrite_is_consistent))]
fn is_rewrite_consistent(conds: &[Pattern], redex: &Pattern, contractum: &Pattern) -> bool
    ensures { result ≡ rewrite_is_consistent conds.now redex.now contractum.now }
{
    let demand = AsInRewrite {
        conds,
        redex,
        contractum,
    };
    patterns_keep(conds, &demand)
        && pattern_keeps(redex, &demand)
        && pattern_keeps(contractum, &demand)
}

#[tactic(auto, using(crate::proofs::Names::appended), unfolding(crate::specs::Faults::rewrite_is_filled))]
fn is_rewrite_filled(conds: &[Pattern], redex: &Pattern, contractum: &Pattern) -> bool
    ensures { result ≡ rewrite_is_filled conds.now redex.now contractum.now }
{
    are_patterns_filled(conds, redex) && is_pattern_filled(contractum, redex)
}

#[tactic(auto, unfolding(crate::specs::Faults::rewrite_is_bound))]
fn is_rewrite_bound(conds: &[Pattern], redex: &Pattern, contractum: &Pattern) -> bool
    ensures { result ≡ rewrite_is_bound conds.now redex.now contractum.now }
{
    let demand = BoundIn { redex };
    patterns_keep(conds, &demand) && pattern_keeps(contractum, &demand)
}
