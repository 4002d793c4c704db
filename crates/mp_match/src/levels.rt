ghost use Rattle.std.specs.Prelude.{◌≡◌, ◌+◌, ◌-◌, ◌<◌, ◌≤◌, ◌^◌, ◌++◌, ℕ, map, length, IsTrue, All, IfOk, OnOk, slice_index_or};
ghost use Rattle.mp_term.specs.Subst.{upto};
ghost use Rattle.mp_schema.specs.Conditions.{seen, Seen, all_variables, or_zero};
ghost use Rattle.mp_schema.specs.Conditions.{argument};
ghost use Rattle.mp_match.specs.Places.{ground_of, levels_at, IsUsable};
ghost use Rattle.mp_schema.specs.Values.{variables_of};

use crate::place::Position;
use mp_logic::{List, NoMemory, Sym};
use mp_schema::{CtxVal, Pattern, context_value};
use mp_subst::Levels;
use std::alloc::Global;

// The variables that the value of a second-order variable or a context may use: those of the ambient scope and of
// its contexts, and its arguments.
pub(crate) fn levels_of(
    alloc: Global,
    names: &List<Sym>,
    args: &List<Pattern>,
    place: &Position,
    scope: u32,
) -> Result<Levels, NoMemory>
    requires outer { place.now.next ≤ scope }
    requires variables { IsTrue (all_variables (length place.now.named + (scope - place.now.next)) (map seen args.now)) }
    requires usable { IsUsable place.now }
    ensures { IfOk result (λ levels. levels ≡ ground_of place.now names.now ++ map (λ (a : Seen). argument (levels_at place.now scope) a.level) (map seen args.now)) }
{
    let mut levels = ground_levels(alloc, names, place)?;
    for arg in args.as_slice() {
        levels.push(level_at(place, level_of(arg), scope))?;
    }
    Ok(levels)
}

// The variables of the ambient scope, and those of the contexts, one context after the other.
fn ground_levels(alloc: Global, names: &List<Sym>, place: &Position) -> Result<Levels, NoMemory>
    ensures { IfOk result (λ levels. levels ≡ ground_of place.now names.now) }
{
    let mut levels = Levels::new(alloc);
    levels.push_range(0, place.ambient as u64)?;
    push_contexts(&mut levels, names, &place.ctxs)?;
    Ok(levels)
}

// Adds the variables of the contexts, one context after the other.
pub(crate) fn push_contexts(
    levels: &mut Levels,
    names: &List<Sym>,
    ctxs: &List<CtxVal>,
) -> Result<(), NoMemory>
    ensures { OnOk result (levels.new ≡ levels.old ++ variables_of ctxs.now names.now) }
{
    for name in names.as_slice() {
        if let Some(value) = context_value(ctxs, *name) {
            levels.push_range(value.first, value.hyps.len())?;
        }
    }
    Ok(())
}

// The variable of a level of a pattern at the place, under binders up to the scope.
pub(crate) fn level_at(place: &Position, level: u32, scope: u32) -> u32
    requires outer { place.now.next ≤ scope }
    requires below { level < length place.now.named + (scope - place.now.next) }
    ensures { (d : ℕ) → result ≡ slice_index_or (levels_at place.now scope) level d }
{
    let named = place.named.len();
    if (level as u64) < named {
        place.named.as_slice()[level as usize]
    } else {
        let above = level - named as u32;
        place.next + above
    }
}

fn level_of(p: &Pattern) -> u32
    ensures { result ≡ or_zero ((seen p.now).level) }
{
    match p {
        Pattern::Var(level) => *level,
        Pattern::Op { .. } | Pattern::Meta { .. } => 0,
    }
}
