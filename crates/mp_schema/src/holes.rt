#![tactic(auto, using(crate::proofs::Names::appended))]

ghost use Rattle.std.specs.Prelude.{◌≡◌, List};
ghost use Rattle.std.specs.List.{flat_map};
ghost use Rattle.mp_logic.specs.declared.sym.Sym.{Sym as Name};
ghost use Rattle.mp_schema.specs.Conditions.{has, has_all};
ghost use Rattle.mp_schema.specs.Occurrences.{hole_in_param, holes_in, holes_in_bound, holes_in_item, holes_in_schema};

use crate::{Item, PBound, ParamPat, Pattern, Schema};
use mp_logic::Sym;

/// What holes may be looked for in.
pub(crate) trait Holes {
    ghost holes: { Self → List Name };

    fn has_hole(&self, name: Sym) -> bool
        ensures { result ≡ has (holes self.now) name };
}

impl Holes for Pattern {
    ghost holes = { holes_in };

    fn has_hole(&self, name: Sym) -> bool {
        has_pattern_hole(self, name)
    }
}

impl Holes for Schema {
    ghost holes = { holes_in_schema };

    fn has_hole(&self, name: Sym) -> bool {
        for item in self.items.as_slice() {
            if has_item_hole(item, name) {
                return true;
            }
        }
        has_pattern_hole(&self.concl, name)
    }
}

fn has_item_hole(item: &Item, name: Sym) -> bool
    ensures { result ≡ has (holes_in_item item.now) name }
{
    match item {
        Item::Hyp(p) => has_pattern_hole(p, name),
        Item::Ctx { args, .. } => has_argument_hole(args.as_slice(), name),
    }
}

#[cycle(hole)]
fn has_pattern_hole(p: &Pattern, name: Sym) -> bool
    ensures { result ≡ has (holes_in p.now) name }
{
    match p {
        Pattern::Var(_) => false,
        Pattern::Op { params, subs, .. } => {
            has_param_hole(params.as_slice(), name) || has_body_hole(subs.as_slice(), name)
        }
        Pattern::Meta { args, .. } => has_argument_hole(args.as_slice(), name),
    }
}

#[cycle(hole)]
fn has_body_hole(subs: &[PBound], name: Sym) -> bool
    ensures { result ≡ has (flat_map holes_in_bound subs.now) name }
{
    for sub in subs {
        if has_pattern_hole(&sub.body, name) {
            return true;
        }
    }
    false
}

#[cycle(hole)]
fn has_argument_hole(args: &[Pattern], name: Sym) -> bool
    ensures { result ≡ has (flat_map holes_in args.now) name }
{
    for arg in args {
        if has_pattern_hole(arg, name) {
            return true;
        }
    }
    false
}

fn has_param_hole(params: &[ParamPat], name: Sym) -> bool
    ensures { result ≡ has (flat_map hole_in_param params.now) name }
{
    for param in params {
        if let ParamPat::Hole(other) = param
            && other.0 == name.0
        {
            return true;
        }
    }
    false
}

// Whether each hole of the schemata is one of these.
pub(crate) fn are_schemata_filled<H: Holes>(schemata: &[Schema], known: &H) -> bool
    ensures { result ≡ has_all (H.holes known.now) (flat_map holes_in_schema schemata.now) }
{
    for s in schemata {
        if !is_schema_filled(s, known) {
            return false;
        }
    }
    true
}

fn is_schema_filled<H: Holes>(s: &Schema, known: &H) -> bool
    ensures { result ≡ has_all (H.holes known.now) (holes_in_schema s.now) }
{
    for item in s.items.as_slice() {
        if !is_item_filled(item, known) {
            return false;
        }
    }
    is_pattern_filled(&s.concl, known)
}

fn is_item_filled<H: Holes>(item: &Item, known: &H) -> bool
    ensures { result ≡ has_all (H.holes known.now) (holes_in_item item.now) }
{
    match item {
        Item::Hyp(p) => is_pattern_filled(p, known),
        Item::Ctx { args, .. } => are_patterns_filled(args.as_slice(), known),
    }
}

#[cycle(filled)]
pub(crate) fn is_pattern_filled<H: Holes>(p: &Pattern, known: &H) -> bool
    ensures { result ≡ has_all (H.holes known.now) (holes_in p.now) }
{
    match p {
        Pattern::Var(_) => true,
        Pattern::Op { params, subs, .. } => {
            are_params_filled(params.as_slice(), known) && are_bodies_filled(subs.as_slice(), known)
        }
        Pattern::Meta { args, .. } => are_patterns_filled(args.as_slice(), known),
    }
}

#[cycle(filled)]
fn are_bodies_filled<H: Holes>(subs: &[PBound], known: &H) -> bool
    ensures { result ≡ has_all (H.holes known.now) (flat_map holes_in_bound subs.now) }
{
    for sub in subs {
        if !is_pattern_filled(&sub.body, known) {
            return false;
        }
    }
    true
}

// Whether each hole of the patterns is one of these.
#[cycle(filled)]
pub(crate) fn are_patterns_filled<H: Holes>(patterns: &[Pattern], known: &H) -> bool
    ensures { result ≡ has_all (H.holes known.now) (flat_map holes_in patterns.now) }
{
    for p in patterns {
        if !is_pattern_filled(p, known) {
            return false;
        }
    }
    true
}

fn are_params_filled<H: Holes>(params: &[ParamPat], known: &H) -> bool
    ensures { result ≡ has_all (H.holes known.now) (flat_map hole_in_param params.now) }
{
    for param in params {
        if let ParamPat::Hole(name) = param
            && !known.has_hole(*name)
        {
            return false;
        }
    }
    true
}
