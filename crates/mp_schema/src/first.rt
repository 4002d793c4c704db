ghost use Rattle.std.specs.Prelude.{◌≡◌, map};
ghost use Rattle.std.specs.List.{flat_map};
ghost use Rattle.std.specs.Option.{option_map};
ghost use Rattle.mp_schema.specs.Occurrences.{occurrences_in, occurrences_in_bound, occurrences_in_item, occurrences_in_schema, first_named};
ghost use Rattle.mp_schema.specs.Places.{occurrence_at};

use crate::place::Use;
use crate::{Item, PBound, Pattern, Schema};
use mp_logic::Sym;

// The first occurrence of the name in the schemata.
pub(crate) fn first_in_schemata(schemata: &[Schema], name: Sym) -> Option<Use<'_>>
    ensures { option_map occurrence_at result ≡ first_named (flat_map occurrences_in_schema schemata.now) name }
{
    for s in schemata {
        if let Some(place) = first_in_schema(s, name) {
            return Some(place);
        }
    }
    None
}

// The first occurrence of the name in the schema.
pub(crate) fn first_in_schema(s: &Schema, name: Sym) -> Option<Use<'_>>
    ensures { option_map occurrence_at result ≡ first_named (occurrences_in_schema s.now) name }
{
    for item in s.items.as_slice() {
        if let Some(place) = first_in_item(item, name) {
            return Some(place);
        }
    }
    first_in_pattern(&s.concl, name)
}

fn first_in_item(item: &Item, name: Sym) -> Option<Use<'_>>
    ensures { option_map occurrence_at result ≡ first_named (occurrences_in_item item.now) name }
{
    match item {
        Item::Hyp(p) => first_in_pattern(p, name),
        Item::Ctx {
            name: other,
            ctxs,
            args,
        } => {
            if other.0 == name.0 {
                return Some(Use::new(true, *other, ctxs, args));
            }
            first_in_patterns(args.as_slice(), name)
        }
    }
}

// The first occurrence of the name in the pattern.
#[cycle(first)]
pub(crate) fn first_in_pattern(p: &Pattern, name: Sym) -> Option<Use<'_>>
    ensures { option_map occurrence_at result ≡ first_named (occurrences_in p.now) name }
{
    match p {
        Pattern::Var(_) => None,
        Pattern::Op { subs, .. } => first_in_bodies(subs.as_slice(), name),
        Pattern::Meta {
            name: other,
            ctxs,
            args,
        } => {
            if other.0 == name.0 {
                return Some(Use::new(false, *other, ctxs, args));
            }
            first_in_patterns(args.as_slice(), name)
        }
    }
}

#[cycle(first)]
fn first_in_bodies(subs: &[PBound], name: Sym) -> Option<Use<'_>>
    ensures { option_map occurrence_at result ≡ first_named (flat_map occurrences_in_bound subs.now) name }
{
    for sub in subs {
        if let Some(place) = first_in_pattern(&sub.body, name) {
            return Some(place);
        }
    }
    None
}

// The first occurrence of the name in the patterns.
#[cycle(first)]
pub(crate) fn first_in_patterns(patterns: &[Pattern], name: Sym) -> Option<Use<'_>>
    ensures { option_map occurrence_at result ≡ first_named (flat_map occurrences_in patterns.now) name }
{
    for p in patterns {
        if let Some(place) = first_in_pattern(p, name) {
            return Some(place);
        }
    }
    None
}
