ghost use Rattle.std.specs.Prelude.{◌≡◌, Bool};
ghost use Rattle.std.specs.List.{list_all, flat_map};
ghost use Rattle.mp_schema.specs.Occurrences.{Occurrence, occurrences_in, occurrences_in_bound, occurrences_in_item, occurrences_in_schema};
ghost use Rattle.mp_schema.specs.Places.{occurrence_at};

use crate::place::Use;
use crate::{Item, PBound, Pattern, Schema};

/// What is asked of each occurrence in a text.
pub(crate) trait Demand {
    ghost keeps: { Self → Occurrence → Bool };

    fn is_kept(&self, place: Use<'_>) -> bool
        ensures { result ≡ keeps self.now (occurrence_at place.entry) };
}

// Whether each occurrence in the schema keeps the demand.
pub(crate) fn schema_keeps<D: Demand>(s: &Schema, demand: &D) -> bool
    ensures { result ≡ list_all (D.keeps demand.now) (occurrences_in_schema s.now) }
{
    for item in s.items.as_slice() {
        if !item_keeps(item, demand) {
            return false;
        }
    }
    pattern_keeps(&s.concl, demand)
}

// Whether each occurrence in the item does; a context itself is one.
pub(crate) fn item_keeps<D: Demand>(item: &Item, demand: &D) -> bool
    ensures { result ≡ list_all (D.keeps demand.now) (occurrences_in_item item.now) }
{
    match item {
        Item::Hyp(p) => pattern_keeps(p, demand),
        Item::Ctx { name, ctxs, args } => {
            let place = Use::new(true, *name, ctxs, args);
            demand.is_kept(place) && patterns_keep(args.as_slice(), demand)
        }
    }
}

// Whether each second-order variable in the pattern does.
#[cycle(keeping)]
pub(crate) fn pattern_keeps<D: Demand>(p: &Pattern, demand: &D) -> bool
    ensures { result ≡ list_all (D.keeps demand.now) (occurrences_in p.now) }
{
    match p {
        Pattern::Var(_) => true,
        Pattern::Op { subs, .. } => bodies_keep(subs.as_slice(), demand),
        Pattern::Meta { name, ctxs, args } => {
            let place = Use::new(false, *name, ctxs, args);
            demand.is_kept(place) && patterns_keep(args.as_slice(), demand)
        }
    }
}

#[cycle(keeping)]
fn bodies_keep<D: Demand>(subs: &[PBound], demand: &D) -> bool
    ensures { result ≡ list_all (D.keeps demand.now) (flat_map occurrences_in_bound subs.now) }
{
    for sub in subs {
        if !pattern_keeps(&sub.body, demand) {
            return false;
        }
    }
    true
}

// Whether each second-order variable in the patterns does.
#[cycle(keeping)]
pub(crate) fn patterns_keep<D: Demand>(patterns: &[Pattern], demand: &D) -> bool
    ensures { result ≡ list_all (D.keeps demand.now) (flat_map occurrences_in patterns.now) }
{
    for p in patterns {
        if !pattern_keeps(p, demand) {
            return false;
        }
    }
    true
}
