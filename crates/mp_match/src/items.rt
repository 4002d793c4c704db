ghost use Rattle.std.specs.Prelude.{◌≡◌, ◌+◌, ◌<◌, ◌≤◌, ◌^◌, drop, map, length, nat_eq, IsTrue, IfOk, All, if◌then◌else◌};
ghost use Rattle.std.specs.List.{IsDistinct};
ghost use Rattle.mp_term.specs.Terms.{in_scope_of};
ghost use Rattle.mp_term.specs.Limits.{in_scopes_from};
ghost use Rattle.mp_term.specs.Subst.{widest_of, widest_from};
ghost use Rattle.mp_schema.specs.Conditions.{seen, args_fine, is_known, lists_known, each_item, item_placed, item_fine, nothing_before};
ghost use Rattle.mp_match.specs.Places.{before, names_of, IsUsable};
ghost use Rattle.mp_match.specs.Walks.{taken, needed, hyp_found, kept_found, context_found, item_found, items_found, first_walk};

use crate::levels::levels_of;
use crate::patterns::match_within;
use crate::place::{Found, Position, Walk};
use crate::sizes::{Sizes, next_size};
use mp_logic::{List, NoMemory, Sym};
use mp_schema::{CtxVal, Item, MetaVals, ParamVals, Pattern};
use mp_subst::{Levels, unrename};
use mp_term::Term;
use std::alloc::Global;

// What the items find in a goal with these hypotheses; None where they find none.
pub(crate) fn match_items(
    alloc: Global,
    items: &[Item],
    hyps: &[Term],
    sizes: Sizes,
) -> Result<Option<Walk>, NoMemory>
    requires placed { IsTrue (each_item item_placed items.now nothing_before) }
    requires fine { IsTrue (each_item item_fine items.now nothing_before) }
    requires counted { needed items.now sizes.first sizes.later ≡ length hyps.now }
    requires scoped { IsTrue (in_scopes_from 0 hyps.now) }
    requires narrow { widest_from 0 hyps.now < 2 ^ 31 }
    ensures { IfOk result (λ r. r ≡ items_found sizes hyps.now items.now first_walk) }
{
    let mut place = Position {
        ambient: 0,
        ctxs: List::new(alloc),
        named: List::new(alloc),
        next: 0,
    };
    let mut found = Found {
        metas: MetaVals::new(alloc),
        params: ParamVals::new(alloc),
    };
    for item in items {
        if !match_item(alloc, item, hyps, sizes, &mut place, &mut found)? {
            return Ok(None);
        }
    }
    Ok(Some(Walk { place, found }))
}

// Whether the item finds values that agree with those found, at its place in a goal with these hypotheses. The place and
// what is found go on; after false they may be anything.
fn match_item(
    alloc: Global,
    item: &Item,
    hyps: &[Term],
    sizes: Sizes,
    place: &mut Position,
    found: &mut Found,
) -> Result<bool, NoMemory>
    requires placed { IsTrue (item_placed item.now (before place.old)) }
    requires fine { IsTrue (item_fine item.now (before place.old)) }
    requires usable { IsUsable place.old }
    requires room { place.old.next + taken sizes item.now place.old.ctxs ≤ length hyps.now }
    requires scoped { IsTrue (in_scopes_from place.old.next (drop place.old.next hyps.now)) }
    requires narrow { widest_from place.old.next (drop place.old.next hyps.now) < 2 ^ 31 }
    ensures { IfOk result (λ same. (if same then Some (record { place = place.new; found = found.new }) else None)
        ≡ item_found sizes item.now (drop place.old.next hyps.now) (record { place = place.old; found = found.old })) }
{
    let next = place.next as usize;
    match item {
        Item::Hyp(p) => match_hypothesis(alloc, p, &hyps[next], place, found),
        Item::Ctx { name, ctxs, args } => {
            let end = next + next_size(sizes, &place.ctxs) as usize;
            match_context(alloc, *name, ctxs, args, &hyps[next..end], place)
        }
    }
}

fn match_hypothesis(
    alloc: Global,
    p: &Pattern,
    t: &Term,
    place: &mut Position,
    found: &mut Found,
) -> Result<bool, NoMemory>
    requires fine { IsTrue ((seen p.now).fine (length place.old.named)) }
    requires known { IsTrue (lists_known (names_of place.old.ctxs) p.now) }
    requires usable { IsUsable place.old }
    requires scoped { IsTrue (in_scope_of t.now place.old.next) }
    requires narrow { widest_of t.now place.old.next < 2 ^ 31 }
    requires room { place.old.next + 1 < 2 ^ 31 }
    ensures { IfOk result (λ same. (if same then Some (record { place = place.new; found = found.new }) else None)
        ≡ hyp_found p.now t.now (record { place = place.old; found = found.old })) }
{
    let next = place.next;
    if !match_within(alloc, p, place, next, t, found)? {
        return Ok(false);
    }
    if let Err((_, refused)) = place.named.push(next) {
        return Err(refused);
    }
    place.next = next + 1;
    Ok(true)
}

fn match_context(
    alloc: Global,
    name: Sym,
    ctxs: &List<Sym>,
    args: &List<Pattern>,
    hyps: &[Term],
    place: &mut Position,
) -> Result<bool, NoMemory>
    requires fine { IsTrue (args_fine (length place.old.named) (map seen args.now)) }
    requires known { IsTrue (is_known (names_of place.old.ctxs) ctxs.now) }
    requires usable { IsUsable place.old }
    requires scoped { IsTrue (in_scopes_from place.old.next hyps.now) }
    requires narrow { widest_from place.old.next hyps.now < 2 ^ 31 }
    ensures { IfOk result (λ same. (if same then Some place.new else None) ≡ context_found name ctxs.now args.now hyps.now place.old) }
{
    let first = place.next;
    let levels = levels_of(alloc, ctxs, args, place, first)?;
    match kept_hypotheses(alloc, levels, first, hyps)? {
        None => Ok(false),
        Some(kept) => {
            let value = CtxVal {
                name,
                first,
                hyps: kept,
            };
            if let Err((_, refused)) = place.ctxs.push(value) {
                return Err(refused);
            }
            place.next = first + hyps.len() as u32;
            Ok(true)
        }
    }
}

// The hypotheses of a context, the first of them in scope `first`: each over these variables and those of the context
// before it. None where one has another variable.
fn kept_hypotheses(
    alloc: Global,
    mut levels: Levels,
    first: u32,
    hyps: &[Term],
) -> Result<Option<List<Term>>, NoMemory>
    requires distinct { IsDistinct nat_eq levels }
    requires below { All (λ level. level < first) levels }
    requires scoped { IsTrue (in_scopes_from first hyps.now) }
    requires narrow { widest_from first hyps.now < 2 ^ 31 }
    ensures { IfOk result (λ r. r ≡ kept_found levels first hyps.now) }
{
    let mut kept = List::with_capacity(alloc, hyps.len() as u64)?;
    let mut scope = first;
    for hyp in hyps {
        let Some(term) = unrename(alloc, hyp, scope, &levels)? else {
            return Ok(None);
        };
        if let Err((_, refused)) = kept.push(term) {
            return Err(refused);
        }
        levels.push(scope)?;
        scope += 1;
    }
    Ok(Some(kept))
}
