ghost use Rattle.std.specs.Prelude.{◌≡◌, ℕ, map, min};
ghost use Rattle.mp_term.specs.Terms.{all_at_scope};
ghost use Rattle.mp_schema.specs.Conditions.{Before, below, below_bound};
ghost use Rattle.mp_schema.specs.Faults.{item_closed, is_closed};

use crate::{Item, PBound, Pattern, Schema};

const WIDEST: u64 = 4294967296;

// Whether each variable of the schema is a named hypothesis or a binder before it.
pub(crate) fn is_schema_closed(s: &Schema) -> bool
    ensures { result ≡ is_closed s.now }
{
    let mut named = 0u64;
    for item in s.items.as_slice() {
        if !is_item_closed(item, named.min(WIDEST)) {
            return false;
        }
        if let Item::Hyp(_) = item {
            named += 1;
        }
    }
    is_pattern_closed(&s.concl, named.min(WIDEST))
}

fn is_item_closed(item: &Item, levels: u64) -> bool
    ensures { (b : Before) → min b.named WIDEST ≡ levels → result ≡ item_closed item.now b }
{
    match item {
        Item::Hyp(p) => is_pattern_closed(p, levels),
        Item::Ctx { args, .. } => are_arguments_closed(args.as_slice(), levels),
    }
}

// Whether each variable of the pattern is one of so many levels or a binder before it. From WIDEST on these are
// all levels that can be written, so their number may stand at WIDEST.
#[cycle(closed)]
pub(crate) fn is_pattern_closed(p: &Pattern, levels: u64) -> bool
    ensures { (n : ℕ) → min n WIDEST ≡ levels → result ≡ below p.now n }
{
    match p {
        Pattern::Var(level) => (*level as u64) < levels,
        Pattern::Op { subs, .. } => are_bodies_closed(subs.as_slice(), levels),
        Pattern::Meta { args, .. } => are_arguments_closed(args.as_slice(), levels),
    }
}

#[cycle(closed)]
fn are_bodies_closed(subs: &[PBound], levels: u64) -> bool
    ensures { (n : ℕ) → min n WIDEST ≡ levels → result ≡ all_at_scope n (map below_bound subs.now) }
{
    for sub in subs {
        let inner = levels.saturating_add(sub.binders as u64).min(WIDEST);
        if !is_pattern_closed(&sub.body, inner) {
            return false;
        }
    }
    true
}

#[cycle(closed)]
fn are_arguments_closed(args: &[Pattern], levels: u64) -> bool
    ensures { (n : ℕ) → min n WIDEST ≡ levels → result ≡ all_at_scope n (map below args.now) }
{
    for arg in args {
        if !is_pattern_closed(arg, levels) {
            return false;
        }
    }
    true
}
