#![tactic(auto, using(crate::proofs::Gathered::gathering))]

ghost use Rattle.std.specs.Prelude.{◌≡◌, ◌++◌, ◌∷◌, [], map, length, IfOk, OnOk, None, true, All};
ghost use Rattle.mp_names.specs.Sets.{with_met};
ghost use Rattle.mp_schema.specs.Faultless.{IsLimitedSchema};
ghost use Rattle.mp_schema.specs.Faults.{rule_fault_of};
ghost use Rattle.mp_schema.specs.Limits.{few_of, few_of_bound, few_of_item};
ghost use Rattle.mp_theory.specs.Needs.{needs_of, all_uses, uses_of, uses_bound, item_uses, schema_uses};
ghost use Rattle.mp_theory.specs.Fresh.{fresh_uses, with_all};

use crate::Need;
use mp_logic::{List, NoMemory, Sym};
use mp_names::NameSet;
use mp_schema::{Item, PBound, Pattern, Schema};
use std::alloc::Global;

/// The second-order variables of the premises that the conclusion doesn't have, in the order of their first uses.
#[tactic(auto, using(crate::proofs::Gathered::needs_fresh))]
pub(crate) fn find_needs(
    alloc: Global,
    premises: &List<Schema>,
    concl: &Schema,
) -> Result<List<Need>, NoMemory>
    requires { rule_fault_of premises.now concl.now ≡ None }
    ensures { IfOk result (λ needs. needs ≡ needs_of premises.now concl.now) }
{
    // What the conclusion has is met first, and is no need.
    let mut met = NameSet::new(alloc);
    let mut bound = List::new(alloc);
    gather_schema(alloc, concl, &mut met, &mut bound)?;
    let mut needs = List::new(alloc);
    gather_premises(alloc, premises.as_slice(), &mut met, &mut needs)?;
    Ok(needs)
}

fn gather_premises(
    alloc: Global,
    premises: &[Schema],
    met: &mut NameSet,
    held: &mut List<Need>,
) -> Result<(), NoMemory>
    requires { All IsLimitedSchema premises.now }
    ensures held { OnOk result (held.new ≡ held.old ++ fresh_uses met.old (all_uses (map schema_uses premises.now))) }
    ensures met { OnOk result (met.new ≡ with_all met.old (all_uses (map schema_uses premises.now))) }
{
    for premise in premises {
        gather_schema(alloc, premise, met, held)?;
    }
    Ok(())
}

fn gather_schema(
    alloc: Global,
    schema: &Schema,
    met: &mut NameSet,
    held: &mut List<Need>,
) -> Result<(), NoMemory>
    requires { IsLimitedSchema schema.now }
    ensures held { OnOk result (held.new ≡ held.old ++ fresh_uses met.old (schema_uses schema.now)) }
    ensures met { OnOk result (met.new ≡ with_all met.old (schema_uses schema.now)) }
{
    gather_items(alloc, schema.items.as_slice(), met, held)?;
    gather_pattern(alloc, &schema.concl, met, held)
}

fn gather_items(
    alloc: Global,
    items: &[Item],
    met: &mut NameSet,
    held: &mut List<Need>,
) -> Result<(), NoMemory>
    requires { All (λ item. few_of_item item ≡ true) items.now }
    ensures held { OnOk result (held.new ≡ held.old ++ fresh_uses met.old (all_uses (map item_uses items.now))) }
    ensures met { OnOk result (met.new ≡ with_all met.old (all_uses (map item_uses items.now))) }
{
    for item in items {
        gather_item(alloc, item, met, held)?;
    }
    Ok(())
}

fn gather_item(
    alloc: Global,
    item: &Item,
    met: &mut NameSet,
    held: &mut List<Need>,
) -> Result<(), NoMemory>
    requires { few_of_item item.now ≡ true }
    ensures held { OnOk result (held.new ≡ held.old ++ fresh_uses met.old (item_uses item.now)) }
    ensures met { OnOk result (met.new ≡ with_all met.old (item_uses item.now)) }
{
    match item {
        Item::Hyp(pattern) => gather_pattern(alloc, pattern, met, held),
        Item::Ctx { args, .. } => gather_arguments(alloc, args.as_slice(), met, held),
    }
}

#[cycle(gathering)]
fn gather_pattern(
    alloc: Global,
    pattern: &Pattern,
    met: &mut NameSet,
    held: &mut List<Need>,
) -> Result<(), NoMemory>
    requires { few_of pattern.now ≡ true }
    ensures held { OnOk result (held.new ≡ held.old ++ fresh_uses met.old (uses_of pattern.now)) }
    ensures met { OnOk result (met.new ≡ with_all met.old (uses_of pattern.now)) }
{
    match pattern {
        Pattern::Var(_) => Ok(()),
        Pattern::Op { subs, .. } => gather_bodies(alloc, subs.as_slice(), met, held),
        Pattern::Meta { name, ctxs, args } => {
            join(alloc, *name, ctxs, args.len() as u32, met, held)?;
            gather_arguments(alloc, args.as_slice(), met, held)
        }
    }
}

#[cycle(gathering)]
fn gather_bodies(
    alloc: Global,
    subs: &[PBound],
    met: &mut NameSet,
    held: &mut List<Need>,
) -> Result<(), NoMemory>
    requires { All (λ sub. few_of_bound sub ≡ true) subs.now }
    ensures held { OnOk result (held.new ≡ held.old ++ fresh_uses met.old (all_uses (map uses_bound subs.now))) }
    ensures met { OnOk result (met.new ≡ with_all met.old (all_uses (map uses_bound subs.now))) }
{
    for sub in subs {
        gather_pattern(alloc, &sub.body, met, held)?;
    }
    Ok(())
}

#[cycle(gathering)]
fn gather_arguments(
    alloc: Global,
    args: &[Pattern],
    met: &mut NameSet,
    held: &mut List<Need>,
) -> Result<(), NoMemory>
    requires { All (λ arg. few_of arg ≡ true) args.now }
    ensures held { OnOk result (held.new ≡ held.old ++ fresh_uses met.old (all_uses (map uses_of args.now))) }
    ensures met { OnOk result (met.new ≡ with_all met.old (all_uses (map uses_of args.now))) }
{
    for arg in args {
        gather_pattern(alloc, arg, met, held)?;
    }
    Ok(())
}

// A name that was met adds nothing.
fn join(
    alloc: Global,
    name: Sym,
    ctxs: &List<Sym>,
    arity: u32,
    met: &mut NameSet,
    held: &mut List<Need>,
) -> Result<(), NoMemory>
    ensures held { OnOk result (held.new ≡ held.old ++ fresh_uses met.old (record { name = name; ctxs = ctxs.now; arity = arity } ∷ [])) }
    ensures met { OnOk result (met.new ≡ with_met met.old name.0) }
{
    if met.meet(name)? {
        return Ok(());
    }
    let ctxs = copy_names(alloc, ctxs)?;
    match held.push(Need { name, ctxs, arity }) {
        Ok(()) => Ok(()),
        Err((_, refused)) => Err(refused),
    }
}

fn copy_names(alloc: Global, names: &List<Sym>) -> Result<List<Sym>, NoMemory>
    ensures { IfOk result (λ copied. copied ≡ names.now) }
{
    let mut copies = List::with_capacity(alloc, names.len())?;
    for name in names.as_slice() {
        match copies.push(*name) {
            Ok(()) => {}
            Err((_, refused)) => return Err(refused),
        }
    }
    Ok(copies)
}
