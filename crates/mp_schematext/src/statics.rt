ghost use Rattle.std.specs.Prelude.{◌≡◌, ◌++◌, [], ℕ, IfOk, OnOk, length, nat_eq, nat_lt, slice_get, if◌then◌else◌};
ghost use Rattle.std.specs.List.{flat_map};
ghost use Rattle.mp_logic.specs.Trees.{counted};
ghost use Rattle.mp_words.specs.declared.fail.TextWhy.TheVariants as why;
ghost use Rattle.mp_words.specs.Faults.{fault_at_any, fault_if, least_from, too_many};
ghost use Rattle.mp_patterntext.specs.Scopes.{syms_of};
ghost use Rattle.mp_patterntext.specs.Uses.{hole_faults};
ghost use Rattle.mp_schematext.specs.Scopes.{context_in, contexts_of, env_behind, env_past};
ghost use Rattle.mp_schematext.specs.Statics.{frame_faults, item_at, item_faults, items_faults, misplaced_faults, premise_faults, rule_faults, schema_faults};
ghost use Rattle.mp_schematext.specs.Uses.{raw_schema_holes};

use crate::holes::{gather_schema, gather_schemata};
use crate::size::schema_size;
use crate::uses::check_rule_uses;
use crate::{RawItem, RawRule, RawSchema};
use mp_logic::{List, NoMemory, Sym};
use mp_patterntext::{
    check_apart, check_argument_nodes, check_known, check_nodes, check_size, check_unknown,
    check_use,
};
use mp_schema::limits::{MOST_ITEMS, MOST_PREMISES};
use mp_words::{RawName, TextErr, TextWhy, sooner_if, sooner_of};
use std::alloc::Global;

/// Appends the context, if the item is one.
fn push_context(known: &mut Vec<RawName>, item: &RawItem) -> Result<(), NoMemory>
    ensures { OnOk result (known.new.items ≡ known.old.items ++ context_in item.now) }
{
    if let RawItem::Ctx { name, .. } = item
        && known.push(*name).is_err()
    {
        return Err(NoMemory);
    }
    Ok(())
}

/// Appends the name of the hypothesis, if the item is one.
fn push_name(env: &mut Vec<Sym>, item: &RawItem) -> Result<(), NoMemory>
    ensures { OnOk result (env.new.items ≡ env_past item.now env.old.items) }
{
    if let RawItem::Hyp { name, .. } = item
        && env.push(*name).is_err()
    {
        return Err(NoMemory);
    }
    Ok(())
}

/// The contexts among the items of a schema, in order.
fn contexts(alloc: Global, raw: &RawSchema) -> Result<Vec<RawName>, NoMemory>
    ensures { IfOk result (λ names. names.items ≡ contexts_of raw.now) }
{
    let mut known = Vec::new(alloc);
    for item in raw.items.as_slice() {
        push_context(&mut known, item)?;
    }
    Ok(known)
}

/// The earliest of the fault that is held and those of the nodes of an item.
#[tactic(auto, using(mp_words::proofs::Soonest::least_from_append))]
fn check_item(
    alloc: Global,
    item: &RawItem,
    known: &[RawName],
    is_matched: bool,
    env: &mut Vec<Sym>,
    held: Option<TextErr>,
) -> Result<Option<TextErr>, NoMemory>
    ensures fault { IfOk result (λ found. found ≡ least_from held (item_faults (syms_of known.now) is_matched item.now env.old.items)) }
    ensures env { OnOk result (env.new.items ≡ env.old.items) }
{
    match item {
        RawItem::Ctx { ctxs, args, .. } => {
            let args = args.as_slice();
            let held = check_use(alloc, known, is_matched, ctxs.as_slice(), args, held)?;
            let found = check_argument_nodes(alloc, args, known, is_matched, env, 2, held)?;
            Ok(found)
        }
        RawItem::Hyp { pattern, .. } => {
            let found = check_nodes(alloc, pattern, known, is_matched, env, 1, held)?;
            Ok(found)
        }
    }
}

/// The earliest of the fault that is held and those of the nodes of items, each after the contexts and the bound names
/// before it. The names of all of them are bound after them.
fn check_items(
    alloc: Global,
    items: &[RawItem],
    is_matched: bool,
    env: &mut Vec<Sym>,
    held: Option<TextErr>,
) -> Result<Option<TextErr>, NoMemory>
    ensures fault { IfOk result (λ found. found ≡ least_from held (items_faults [] is_matched items.now env.old.items)) }
    ensures env { OnOk result (env.new.items ≡ env_behind items.now env.old.items) }
{
    let mut known = Vec::new(alloc);
    let mut held = held;
    for item in items {
        held = check_item(alloc, item, known.as_slice(), is_matched, env, held)?;
        push_context(&mut known, item)?;
        push_name(env, item)?;
    }
    Ok(held)
}

fn check_item_count(held: Option<TextErr>, items: &[RawItem]) -> Option<TextErr>
    ensures { result ≡ least_from held (too_many item_at 200 items.now) }
{
    match items.get(MOST_ITEMS as usize) {
        Some(RawItem::Ctx { at, .. }) => sooner_of(held, *at, TextWhy::TooMany),
        Some(RawItem::Hyp { at, .. }) => sooner_of(held, *at, TextWhy::TooMany),
        None => held,
    }
}

/// The earliest of the fault that is held and those of a schema of a rule.
fn check_schema(
    alloc: Global,
    raw: &RawSchema,
    is_matched: bool,
    held: Option<TextErr>,
) -> Result<Option<TextErr>, NoMemory>
    ensures { IfOk result (λ found. found ≡ least_from held (schema_faults is_matched raw.now)) }
{
    let items = raw.items.as_slice();
    let held = check_item_count(held, items);
    let known = contexts(alloc, raw)?;
    let held = check_apart(held, known.as_slice(), TextWhy::TwiceContext);
    let mut env = Vec::new(alloc);
    let held = check_items(alloc, items, is_matched, &mut env, held)?;
    let concl = &raw.concl;
    let held = check_nodes(
        alloc,
        concl,
        known.as_slice(),
        is_matched,
        &mut env,
        1,
        held,
    )?;
    Ok(check_size(held, schema_size(raw), raw.at))
}

/// The earliest of the fault that is held and those of a premise of a rule whose conclusion has these contexts.
fn check_premise(
    alloc: Global,
    raw: &RawSchema,
    concl: &[RawName],
    held: Option<TextErr>,
) -> Result<Option<TextErr>, NoMemory>
    ensures { IfOk result (λ found. found ≡ least_from held (premise_faults (syms_of concl.now) raw.now)) }
{
    let known = contexts(alloc, raw)?;
    let held = check_known(held, concl, known.as_slice());
    let found = check_schema(alloc, raw, false, held)?;
    Ok(found)
}

fn check_premises(
    alloc: Global,
    premises: &[RawSchema],
    concl: &[RawName],
    held: Option<TextErr>,
) -> Result<Option<TextErr>, NoMemory>
    ensures { IfOk result (λ found. found ≡ least_from held (flat_map (premise_faults (syms_of concl.now)) premises.now)) }
{
    let mut held = held;
    for premise in premises {
        held = check_premise(alloc, premise, concl, held)?;
    }
    Ok(held)
}

/// The earliest of the fault that is held and those of named hypotheses that don't stand after exactly one context.
fn check_between(held: Option<TextErr>, items: &[RawItem]) -> Option<TextErr>
    ensures { result ≡ least_from held (misplaced_faults 0 items.now) }
{
    let mut held = held;
    let mut before = 0u64;
    for item in items {
        match item {
            RawItem::Ctx { .. } => before += 1,
            RawItem::Hyp { at, .. } => {
                held = sooner_if(held, before != 1, *at, TextWhy::MisplacedHyp);
            }
        }
    }
    held
}

fn check_third(held: Option<TextErr>, contexts: &[RawName]) -> Option<TextErr>
    ensures { result ≡ least_from held (fault_at_any (λ c. c.at) why.TooManyContexts (slice_get contexts.now 2)) }
{
    match contexts.get(2) {
        Some(third) => sooner_of(held, third.at, TextWhy::TooManyContexts),
        None => held,
    }
}

/// The earliest of the fault that is held and those of a conclusion that has three contexts, or two with a named hypothesis
/// that doesn't stand between them.
#[tactic(auto, using(mp_words::proofs::Soonest::least_from_append))]
fn check_frame(held: Option<TextErr>, raw: &RawSchema, contexts: &[RawName]) -> Option<TextErr>
    requires { contexts.now ≡ contexts_of raw.now }
    ensures { result ≡ least_from held (frame_faults raw.now) }
{
    let held = check_third(held, contexts);
    if contexts.len() == 2 {
        check_between(held, raw.items.as_slice())
    } else {
        held
    }
}

/// The earliest of the fault that is held and those of the holes in a rule.
fn check_rule_holes(
    alloc: Global,
    raw: &RawRule,
    held: Option<TextErr>,
) -> Result<Option<TextErr>, NoMemory>
    ensures { IfOk result (λ found. found ≡ least_from held (hole_faults (syms_of (raw_schema_holes raw.now.concl)) (flat_map raw_schema_holes raw.now.premises))) }
{
    let mut known = List::new(alloc);
    gather_schema(&raw.concl, &mut known)?;
    let mut asked = List::new(alloc);
    gather_schemata(raw.premises.as_slice(), &mut asked)?;
    let found = check_unknown(
        alloc,
        held,
        known.as_slice(),
        asked.as_slice(),
        TextWhy::UnboundParam,
    )?;
    Ok(found)
}

fn check_premise_count(held: Option<TextErr>, premises: &List<RawSchema>) -> Option<TextErr>
    ensures { result ≡ least_from held (too_many (λ s. s.at) 16 premises.now) }
{
    match premises.get(MOST_PREMISES) {
        Some(premise) => sooner_of(held, premise.at, TextWhy::TooMany),
        None => held,
    }
}

/// The earliest of the fault that is held and those of a rule, but that its name is taken.
pub fn check_rule(
    alloc: Global,
    raw: &RawRule,
    held: Option<TextErr>,
) -> Result<Option<TextErr>, NoMemory>
    ensures { IfOk result (λ found. found ≡ least_from held (rule_faults raw.now)) }
{
    let concl = contexts(alloc, &raw.concl)?;
    let held = check_premise_count(held, &raw.premises);
    let held = check_premises(alloc, raw.premises.as_slice(), concl.as_slice(), held)?;
    let held = check_frame(held, &raw.concl, concl.as_slice());
    let held = check_schema(alloc, &raw.concl, true, held)?;
    let held = check_rule_uses(alloc, raw, held)?;
    let found = check_rule_holes(alloc, raw, held)?;
    Ok(found)
}
