ghost use Rattle.std.specs.Prelude.{◌≡◌, ◌++◌, IfOk};
ghost use Rattle.std.specs.List.{flat_map};
ghost use Rattle.mp_words.specs.Faults.{least_from, too_many};
ghost use Rattle.mp_patterntext.specs.Nodes.{pattern_at};
ghost use Rattle.mp_patterntext.specs.Scopes.{syms_of};
ghost use Rattle.mp_patterntext.specs.Uses.{hole_faults, raw_holes, uses_faults, uses_in};
ghost use Rattle.mp_theorytext.specs.Statics.{meta_faults, rewrite_faults, rewrite_node_faults, rewrite_size_faults, size_faults, uses_in_rewrite};

use crate::RawRewrite;
use mp_logic::{List, NoMemory};
use mp_patterntext::{
    RawPattern, check_alike, check_argument_nodes, check_nodes, check_size, check_unknown,
    first_byte, gather_argument_holes, gather_argument_uses, gather_holes, gather_uses, names_at,
    pattern_size,
};
use mp_schema::limits::MOST_CONDITIONS;
use mp_words::{TextErr, TextWhy, sooner_of};
use std::alloc::Global;

fn check_condition_count(held: Option<TextErr>, conds: &[RawPattern]) -> Option<TextErr>
    ensures { result ≡ least_from held (too_many pattern_at 15 conds.now) }
{
    match conds.get(MOST_CONDITIONS as usize) {
        Some(cond) => sooner_of(held, first_byte(cond), TextWhy::TooMany),
        None => held,
    }
}

/// The earliest of the fault that is held and those of the nodes of a rewrite's patterns.
fn check_rewrite_nodes(
    alloc: Global,
    raw: &RawRewrite,
    held: Option<TextErr>,
) -> Result<Option<TextErr>, NoMemory>
    ensures { IfOk result (λ found. found ≡ least_from held (rewrite_node_faults raw.now)) }
{
    let mut env = Vec::new(alloc);
    let conds = raw.conds.as_slice();
    let held = check_argument_nodes(alloc, conds, &[], false, &mut env, 1, held)?;
    let held = check_nodes(alloc, &raw.redex, &[], true, &mut env, 1, held)?;
    let found = check_nodes(alloc, &raw.contractum, &[], false, &mut env, 1, held)?;
    Ok(found)
}

fn check_pattern_size(held: Option<TextErr>, raw: &RawPattern) -> Option<TextErr>
    ensures { result ≡ least_from held (size_faults raw.now) }
{
    check_size(held, pattern_size(raw), first_byte(raw))
}

fn check_condition_sizes(held: Option<TextErr>, conds: &[RawPattern]) -> Option<TextErr>
    ensures { result ≡ least_from held (flat_map size_faults conds.now) }
{
    let mut held = held;
    for cond in conds {
        held = check_pattern_size(held, cond);
    }
    held
}

/// The earliest of the fault that is held and those of patterns of a rewrite that are too big.
#[tactic(auto, using(mp_words::proofs::Soonest::least_from_append))]
fn check_rewrite_sizes(held: Option<TextErr>, raw: &RawRewrite) -> Option<TextErr>
    ensures { result ≡ least_from held (rewrite_size_faults raw.now) }
{
    let held = check_condition_sizes(held, raw.conds.as_slice());
    let held = check_pattern_size(held, &raw.redex);
    check_pattern_size(held, &raw.contractum)
}

/// The earliest of the fault that is held and those of the uses in a rewrite: each is like the first one of its name.
fn check_rewrite_uses(
    alloc: Global,
    raw: &RawRewrite,
    held: Option<TextErr>,
) -> Result<Option<TextErr>, NoMemory>
    ensures { IfOk result (λ found. found ≡ least_from held (uses_faults (uses_in_rewrite raw.now))) }
{
    let mut places = List::new(alloc);
    gather_argument_uses(raw.conds.as_slice(), &mut places)?;
    gather_uses(&raw.redex, &mut places)?;
    gather_uses(&raw.contractum, &mut places)?;
    let found = check_alike(alloc, places.as_slice(), held)?;
    Ok(found)
}

/// The earliest of the fault that is held and those of the holes in a rewrite: each is one of the redex.
fn check_rewrite_holes(
    alloc: Global,
    raw: &RawRewrite,
    held: Option<TextErr>,
) -> Result<Option<TextErr>, NoMemory>
    ensures { IfOk result (λ found. found ≡ least_from held (hole_faults (syms_of (raw_holes raw.now.redex)) (flat_map raw_holes raw.now.conds ++ raw_holes raw.now.contractum))) }
{
    let mut known = List::new(alloc);
    gather_holes(&raw.redex, &mut known)?;
    let mut asked = List::new(alloc);
    gather_argument_holes(raw.conds.as_slice(), &mut asked)?;
    gather_holes(&raw.contractum, &mut asked)?;
    let found = check_unknown(
        alloc,
        held,
        known.as_slice(),
        asked.as_slice(),
        TextWhy::UnboundParam,
    )?;
    Ok(found)
}

/// The earliest of the fault that is held and those of the second-order variables in a rewrite: each is one of the redex.
fn check_rewrite_metas(
    alloc: Global,
    raw: &RawRewrite,
    held: Option<TextErr>,
) -> Result<Option<TextErr>, NoMemory>
    ensures { IfOk result (λ found. found ≡ least_from held (meta_faults raw.now.redex (flat_map uses_in raw.now.conds ++ uses_in raw.now.contractum))) }
{
    let mut known = List::new(alloc);
    gather_uses(&raw.redex, &mut known)?;
    let known = names_at(alloc, known.as_slice())?;
    let mut asked = List::new(alloc);
    gather_argument_uses(raw.conds.as_slice(), &mut asked)?;
    gather_uses(&raw.contractum, &mut asked)?;
    let asked = names_at(alloc, asked.as_slice())?;
    let found = check_unknown(
        alloc,
        held,
        known.as_slice(),
        asked.as_slice(),
        TextWhy::UnboundMeta,
    )?;
    Ok(found)
}

/// The earliest of the fault that is held and those of a rewrite, but that its name is taken.
#[tactic(auto, using(mp_words::proofs::Soonest::least_from_append))]
pub(crate) fn check_rewrite(
    alloc: Global,
    raw: &RawRewrite,
    held: Option<TextErr>,
) -> Result<Option<TextErr>, NoMemory>
    ensures { IfOk result (λ found. found ≡ least_from held (rewrite_faults raw.now)) }
{
    let held = check_condition_count(held, raw.conds.as_slice());
    let held = check_rewrite_nodes(alloc, raw, held)?;
    let held = check_rewrite_sizes(held, raw);
    let held = check_rewrite_uses(alloc, raw, held)?;
    let held = check_rewrite_holes(alloc, raw, held)?;
    let found = check_rewrite_metas(alloc, raw, held)?;
    Ok(found)
}
