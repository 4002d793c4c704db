#![tactic(auto, using(crate::proofs::Entering::entering))]

ghost use Rattle.std.specs.Prelude.{◌≡◌, IfOk, OnOk, map, false, true, [], ◌∷◌};
ghost use Rattle.std.specs.List.{flat_map};
ghost use Rattle.mp_logic.specs.declared.sym.Sym.{Sym as Name};
ghost use Rattle.mp_schema.specs.Occurrences.{occurrences_in, occurrences_in_bound, occurrences_in_item, occurrences_in_schema, first_named};
ghost use Rattle.mp_schema.specs.Faults.{is_like_first, occurrences_of_rule};
ghost use Rattle.mp_schema.specs.Places.{occurrence_at};
ghost use Rattle.mp_schema.specs.Tables.{use_of, Enters};

use crate::demand::Demand;
use crate::place::{Use, are_alike};
use crate::{Item, PBound, Pattern, Schema};
use mp_logic::NoMemory;
use std::alloc::Global;
use std::collections::HashMap;

/// The first use of each name in a text, by the name's number. As a demand: it is used as there.
#[derive(Drop)]
pub(crate) struct FirstUses<'a> {
    places: HashMap<u32, Use<'a>>,
}

impl<'a> FirstUses<'a> {
    // A name that has a use keeps it.
    fn enter(&mut self, place: Use<'a>) -> Result<(), NoMemory>
        ensures { OnOk result (Enters self.old (occurrence_at place.entry ∷ []) self.new) }
    {
        match self.places.entry(place.name.0) {
            Ok(entry) => {
                entry.or_insert(place);
                Ok(())
            }
            Err(_) => Err(NoMemory),
        }
    }
}

impl Demand for FirstUses<'_> {
    ghost keeps = { λ uses o. is_like_first (use_of uses o.name) o };

    fn is_kept(&self, place: Use<'_>) -> bool {
        match self.places.get(&place.name.0) {
            Some(first) => are_alike(*first, place),
            None => false,
        }
    }
}

// The first uses in the text of the rule.
pub(crate) fn find_first_uses<'a>(
    alloc: Global,
    premises: &'a [Schema],
    concl: &'a Schema,
) -> Result<FirstUses<'a>, NoMemory>
    ensures { IfOk result (λ uses. (name : Name) → use_of uses name ≡ first_named (occurrences_of_rule premises.now concl.now) name) }
{
    let mut uses = FirstUses {
        places: HashMap::new(alloc),
    };
    for premise in premises {
        enter_schema(premise, &mut uses)?;
    }
    enter_schema(concl, &mut uses)?;
    Ok(uses)
}

fn enter_schema<'a>(s: &'a Schema, uses: &mut FirstUses<'a>) -> Result<(), NoMemory>
    ensures { OnOk result (Enters uses.old (occurrences_in_schema s.now) uses.new) }
{
    for item in s.items.as_slice() {
        enter_item(item, uses)?;
    }
    enter_pattern(&s.concl, uses)
}

fn enter_item<'a>(item: &'a Item, uses: &mut FirstUses<'a>) -> Result<(), NoMemory>
    ensures { OnOk result (Enters uses.old (occurrences_in_item item.now) uses.new) }
{
    match item {
        Item::Hyp(p) => enter_pattern(p, uses),
        Item::Ctx { name, ctxs, args } => {
            let place = Use::new(true, *name, ctxs, args);
            uses.enter(place)?;
            enter_patterns(args.as_slice(), uses)
        }
    }
}

#[cycle(entering)]
fn enter_pattern<'a>(p: &'a Pattern, uses: &mut FirstUses<'a>) -> Result<(), NoMemory>
    ensures { OnOk result (Enters uses.old (occurrences_in p.now) uses.new) }
{
    match p {
        Pattern::Var(_) => Ok(()),
        Pattern::Op { subs, .. } => enter_bodies(subs.as_slice(), uses),
        Pattern::Meta { name, ctxs, args } => {
            let place = Use::new(false, *name, ctxs, args);
            uses.enter(place)?;
            enter_patterns(args.as_slice(), uses)
        }
    }
}

#[cycle(entering)]
fn enter_bodies<'a>(subs: &'a [PBound], uses: &mut FirstUses<'a>) -> Result<(), NoMemory>
    ensures { OnOk result (Enters uses.old (flat_map occurrences_in_bound subs.now) uses.new) }
{
    for sub in subs {
        enter_pattern(&sub.body, uses)?;
    }
    Ok(())
}

#[cycle(entering)]
fn enter_patterns<'a>(patterns: &'a [Pattern], uses: &mut FirstUses<'a>) -> Result<(), NoMemory>
    ensures { OnOk result (Enters uses.old (flat_map occurrences_in patterns.now) uses.new) }
{
    for p in patterns {
        enter_pattern(p, uses)?;
    }
    Ok(())
}
