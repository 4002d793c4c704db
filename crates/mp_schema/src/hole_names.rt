#![tactic(auto, using(crate::proofs::HoleNames::meeting))]

ghost use Rattle.std.specs.Prelude.{◌≡◌, IfOk, OnOk, map};
ghost use Rattle.std.specs.List.{flat_map};
ghost use Rattle.mp_logic.specs.declared.sym.Sym.{Sym as Name};
ghost use Rattle.mp_names.specs.Sets.{is_met};
ghost use Rattle.mp_schema.specs.Conditions.{has};
ghost use Rattle.mp_schema.specs.Occurrences.{hole_in_param, holes_in, holes_in_bound, holes_in_item, holes_in_schema};
ghost use Rattle.mp_schema.specs.Tables.{names_met, Meets};

use crate::holes::Holes;
use crate::{Item, PBound, ParamPat, Pattern, Schema};
use mp_logic::{NoMemory, Sym};
use mp_names::NameSet;
use std::alloc::Global;

impl Holes for NameSet {
    ghost holes = { names_met };

    fn has_hole(&self, name: Sym) -> bool {
        self.place(name).is_some()
    }
}

// The names of the holes of the schema.
pub(crate) fn find_hole_names(alloc: Global, s: &Schema) -> Result<NameSet, NoMemory>
    ensures { IfOk result (λ met. (name : Name) → is_met met name.0 ≡ has (holes_in_schema s.now) name) }
{
    let mut met = NameSet::new(alloc);
    for item in s.items.as_slice() {
        meet_item_holes(item, &mut met)?;
    }
    meet_pattern_holes(&s.concl, &mut met)?;
    Ok(met)
}

fn meet_item_holes(item: &Item, met: &mut NameSet) -> Result<(), NoMemory>
    ensures { OnOk result (Meets met.old (holes_in_item item.now) met.new) }
{
    match item {
        Item::Hyp(p) => meet_pattern_holes(p, met),
        Item::Ctx { args, .. } => meet_argument_holes(args.as_slice(), met),
    }
}

#[cycle(meeting)]
fn meet_pattern_holes(p: &Pattern, met: &mut NameSet) -> Result<(), NoMemory>
    ensures { OnOk result (Meets met.old (holes_in p.now) met.new) }
{
    match p {
        Pattern::Var(_) => Ok(()),
        Pattern::Op { params, subs, .. } => {
            meet_param_holes(params.as_slice(), met)?;
            meet_body_holes(subs.as_slice(), met)
        }
        Pattern::Meta { args, .. } => meet_argument_holes(args.as_slice(), met),
    }
}

#[cycle(meeting)]
fn meet_body_holes(subs: &[PBound], met: &mut NameSet) -> Result<(), NoMemory>
    ensures { OnOk result (Meets met.old (flat_map holes_in_bound subs.now) met.new) }
{
    for sub in subs {
        meet_pattern_holes(&sub.body, met)?;
    }
    Ok(())
}

#[cycle(meeting)]
fn meet_argument_holes(args: &[Pattern], met: &mut NameSet) -> Result<(), NoMemory>
    ensures { OnOk result (Meets met.old (flat_map holes_in args.now) met.new) }
{
    for arg in args {
        meet_pattern_holes(arg, met)?;
    }
    Ok(())
}

fn meet_param_holes(params: &[ParamPat], met: &mut NameSet) -> Result<(), NoMemory>
    ensures { OnOk result (Meets met.old (flat_map hole_in_param params.now) met.new) }
{
    for param in params {
        if let ParamPat::Hole(name) = param {
            met.meet(*name)?;
        }
    }
    Ok(())
}
