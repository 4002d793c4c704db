ghost use Rattle.std.specs.Prelude.{◌≡◌, IfOk};
ghost use Rattle.std.specs.List.{list_all, flat_map};
ghost use Rattle.std.specs.Option.{option_or};
ghost use Rattle.mp_schema.specs.Conditions.{has_all};
ghost use Rattle.mp_schema.specs.Occurrences.{holes_in_schema};
ghost use Rattle.mp_schema.specs.Faults.{rule_is_few, rule_is_shallow, rule_is_small, rule_is_closed, rule_is_listed, rule_is_single, rule_has_few_contexts, rule_is_framed, rule_is_on_variables, rule_is_consistent, rule_is_filled, late_fault, occurrences_of_rule, rule_fault_of};

use crate::contexts::{
    count_contexts, has_contexts_of, is_schema_framed, is_schema_listed, is_schema_single,
};
use crate::demand::{Demand, schema_keeps};
use crate::first_uses::find_first_uses;
use crate::hole_names::find_hole_names;
use crate::holes::{Holes, are_schemata_filled};
use crate::levels::is_schema_closed;
use crate::limits::MOST_PREMISES;
use crate::measures::{is_few, is_shallow, is_small};
use crate::uses::{AsInRule, OnVariables};
use crate::{Schema, SchemaFault};
use mp_logic::{List, NoMemory};
use std::alloc::Global;

/// The first fault of the rule with these premises and this conclusion, in the order of `SchemaFault`; None where
/// it has none. It takes no memory, and looks the first use of a name up by a walk over the rule, so its time may grow
/// with the square of the rule: `find_rule_fault` is for rules that may be long.
#[tactic(auto, unfolding(crate::specs::Faults::rule_is_consistent, crate::specs::Faults::rule_is_filled))]
pub fn rule_fault(premises: &List<Schema>, concl: &Schema) -> Option<SchemaFault>
    ensures { result ≡ rule_fault_of premises.now concl.now }
{
    let premises = premises.as_slice();
    match early_rule_fault(premises, concl) {
        Some(fault) => Some(fault),
        None => late_rule_fault(premises, concl, &AsInRule { premises, concl }, concl),
    }
}

/// The same fault, in time that is linear in the rule. It takes memory for tables of the rule's first uses and of the
/// holes of its conclusion: where there is none, `rule_fault` has the answer.
pub fn find_rule_fault(
    alloc: Global,
    premises: &List<Schema>,
    concl: &Schema,
) -> Result<Option<SchemaFault>, NoMemory>
    ensures { IfOk result (λ fault. fault ≡ rule_fault_of premises.now concl.now) }
{
    let premises = premises.as_slice();
    if let Some(fault) = early_rule_fault(premises, concl) {
        return Ok(Some(fault));
    }
    let uses = find_first_uses(alloc, premises, concl)?;
    let holes = find_hole_names(alloc, concl)?;
    Ok(late_rule_fault(premises, concl, &uses, &holes))
}

// The first fault of those before BadUse. Where there is none, the last two demands decide.
#[tactic(auto, unfolding(crate::specs::Faults::rule_has_few_contexts, crate::specs::Faults::rule_is_framed, crate::specs::Faults::rule_is_on_variables))]
fn early_rule_fault(premises: &[Schema], concl: &Schema) -> Option<SchemaFault>
    ensures { rule_fault_of premises.now concl.now ≡ option_or result (late_fault (rule_is_consistent premises.now concl.now) (rule_is_filled premises.now concl.now)) }
{
    if !is_rule_few(premises, concl) {
        return Some(SchemaFault::TooMany);
    }
    if !is_rule_shallow(premises, concl) {
        return Some(SchemaFault::TooDeep);
    }
    if !is_rule_small(premises, concl) {
        return Some(SchemaFault::TooBig);
    }
    if !is_rule_closed(premises, concl) {
        return Some(SchemaFault::UnboundVar);
    }
    if !is_rule_listed(premises, concl) {
        return Some(SchemaFault::DanglingContext);
    }
    if !is_rule_single(premises, concl) {
        return Some(SchemaFault::TwiceContext);
    }
    if count_contexts(concl.items.as_slice()) > 2 {
        return Some(SchemaFault::TooManyContexts);
    }
    if !is_schema_framed(concl) {
        return Some(SchemaFault::MisplacedHyp);
    }
    if !schema_keeps(concl, &OnVariables) {
        return Some(SchemaFault::NotAPattern);
    }
    None
}

// The first fault of the last two, where this demand is that uses are as at their first one, and these are the holes of
// the conclusion.
fn late_rule_fault<D: Demand, H: Holes>(
    premises: &[Schema],
    concl: &Schema,
    demand: &D,
    known: &H,
) -> Option<SchemaFault>
    ensures { result ≡ late_fault (list_all (D.keeps demand.now) (occurrences_of_rule premises.now concl.now)) (has_all (H.holes known.now) (flat_map holes_in_schema premises.now)) }
{
    if !are_uses_kept(premises, concl, demand) {
        return Some(SchemaFault::BadUse);
    }
    if !are_schemata_filled(premises, known) {
        return Some(SchemaFault::UnboundParam);
    }
    None
}

#[tactic(auto, unfolding(crate::specs::Faults::rule_is_few))]
fn is_rule_few(premises: &[Schema], concl: &Schema) -> bool
    ensures { result ≡ rule_is_few premises.now concl.now }
{
    if premises.len() as u64 > MOST_PREMISES {
        return false;
    }
    for premise in premises {
        if !is_few(premise) {
            return false;
        }
    }
    is_few(concl)
}

#[tactic(auto, unfolding(crate::specs::Faults::rule_is_shallow))]
fn is_rule_shallow(premises: &[Schema], concl: &Schema) -> bool
    ensures { result ≡ rule_is_shallow premises.now concl.now }
{
    premises.iter().all(|premise| is_shallow(premise)) && is_shallow(concl)
}

#[tactic(auto, unfolding(crate::specs::Faults::rule_is_small))]
fn is_rule_small(premises: &[Schema], concl: &Schema) -> bool
    ensures { result ≡ rule_is_small premises.now concl.now }
{
    premises.iter().all(|premise| is_small(premise)) && is_small(concl)
}

#[tactic(auto, unfolding(crate::specs::Faults::rule_is_closed))]
fn is_rule_closed(premises: &[Schema], concl: &Schema) -> bool
    ensures { result ≡ rule_is_closed premises.now concl.now }
{
    premises.iter().all(|premise| is_schema_closed(premise)) && is_schema_closed(concl)
}

#[tactic(auto, unfolding(crate::specs::Faults::rule_is_single))]
fn is_rule_single(premises: &[Schema], concl: &Schema) -> bool
    ensures { result ≡ rule_is_single premises.now concl.now }
{
    premises.iter().all(|premise| is_schema_single(premise)) && is_schema_single(concl)
}

#[tactic(auto, unfolding(crate::specs::Faults::rule_is_listed))]
fn is_rule_listed(premises: &[Schema], concl: &Schema) -> bool
    ensures { result ≡ rule_is_listed premises.now concl.now }
{
    for premise in premises {
        if !is_schema_listed(premise) || !has_contexts_of(concl, premise) {
            return false;
        }
    }
    is_schema_listed(concl)
}

fn are_uses_kept<D: Demand>(premises: &[Schema], concl: &Schema, demand: &D) -> bool
    ensures { result ≡ list_all (D.keeps demand.now) (occurrences_of_rule premises.now concl.now) }
{
    for premise in premises {
        if !schema_keeps(premise, demand) {
            return false;
        }
    }
    schema_keeps(concl, demand)
}
