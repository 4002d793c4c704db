ghost use Rattle.std.specs.Prelude.{◌≡◌, ◌+◌, ◌-◌, ◌<◌, ◌≤◌, ◌^◌, map, length, nat_eq, IsTrue, IfOk, All, if◌then◌else◌};
ghost use Rattle.std.specs.List.{IsDistinct};
ghost use Rattle.mp_term.specs.Terms.{in_scope_of, all_at_scope, ScopeTest, scope_step, scope_bound_step};
ghost use Rattle.mp_term.specs.declared.term.Bound.{fold-Bound};
ghost use Rattle.mp_term.specs.Subst.{widest_of, widest_at, width_bound};
ghost use Rattle.mp_schema.specs.Instances.{all_pass};
ghost use Rattle.mp_schema.specs.Conditions.{seen, seen_bound, all_fine, lists_known, lists_known_bound};
ghost use Rattle.mp_match.specs.Matching.{found_in, all_found, params_found, param_found, meta_found, matcher_bound};
ghost use Rattle.mp_match.specs.Places.{ground_of, levels_at, names_of, IsUsable};

use crate::levels::{level_at, levels_of};
use crate::place::{Found, Position};
use mp_logic::{List, NoMemory, Sym};
use mp_schema::{MetaVal, PBound, ParamPat, ParamVal, Pattern};
use mp_subst::{Levels, unrename};
use mp_term::{Bound, Param, Term, same};
use std::alloc::Global;

// Whether the term, of scope `scope`, is the pattern's under some values that agree with those found. What it learns
// goes into `found`; after false that may be anything.
#[cycle(matching)]
pub(crate) fn match_within(
    alloc: Global,
    p: &Pattern,
    place: &Position,
    scope: u32,
    t: &Term,
    found: &mut Found,
) -> Result<bool, NoMemory>
    requires outer { place.now.next ≤ scope }
    requires fine { IsTrue ((seen p.now).fine (length place.now.named + (scope - place.now.next))) }
    requires known { IsTrue (lists_known (names_of place.now.ctxs) p.now) }
    requires usable { IsUsable place.now }
    requires scoped { IsTrue (in_scope_of t.now scope) }
    requires narrow { widest_of t.now scope < 2 ^ 31 }
    ensures { IfOk result (λ same. (if same then Some found.new else None) ≡ found_in (ground_of place.now) p.now (levels_at place.now scope) scope t.now found.old) }
{
    match p {
        Pattern::Var(level) => match t {
            Term::Var(other) => Ok(level_at(place, *level, scope) == *other),
            Term::Op { .. } => Ok(false),
        },
        Pattern::Op { op, params, subs } => match t {
            Term::Var(_) => Ok(false),
            Term::Op {
                op: other,
                params: values,
                subs: bodies,
            } => {
                if *op != *other {
                    return Ok(false);
                }
                if !match_params(params.as_slice(), values.as_slice(), found)? {
                    return Ok(false);
                }
                match_subs(
                    alloc,
                    subs.as_slice(),
                    place,
                    scope,
                    bodies.get().as_slice(),
                    found,
                )
            }
        },
        Pattern::Meta { name, ctxs, args } => {
            let levels = levels_of(alloc, ctxs, args, place, scope)?;
            match_meta(alloc, *name, &levels, scope, t, found)
        }
    }
}

#[cycle(matching)]
fn match_subs(
    alloc: Global,
    subs: &[PBound],
    place: &Position,
    scope: u32,
    bodies: &[Bound],
    found: &mut Found,
) -> Result<bool, NoMemory>
    requires outer { place.now.next ≤ scope }
    requires fine { IsTrue (all_fine (length place.now.named + (scope - place.now.next)) (map seen_bound subs.now)) }
    requires known { IsTrue (all_pass (map (lists_known_bound (names_of place.now.ctxs)) subs.now)) }
    requires usable { IsUsable place.now }
    requires scoped { IsTrue (all_at_scope scope (map (fold-Bound ScopeTest ScopeTest scope_step scope_bound_step) bodies.now)) }
    requires narrow { widest_at scope (map width_bound bodies.now) < 2 ^ 31 }
    ensures { IfOk result (λ same. (if same then Some found.new else None)
        ≡ all_found (map (matcher_bound (ground_of place.now)) subs.now) (levels_at place.now scope) scope bodies.now found.old) }
{
    if subs.len() != bodies.len() {
        return Ok(false);
    }
    for i in 0..subs.len() {
        let sub = &subs[i];
        let bound = &bodies[i];
        if sub.binders != bound.binders {
            return Ok(false);
        }
        let inner = scope + sub.binders;
        if !match_within(alloc, &sub.body, place, inner, &bound.body, found)? {
            return Ok(false);
        }
    }
    Ok(true)
}

fn match_params(pats: &[ParamPat], values: &[Param], found: &mut Found) -> Result<bool, NoMemory>
    ensures { IfOk result (λ same. (if same then Some found.new else None) ≡ params_found pats.now values.now found.old) }
{
    if pats.len() != values.len() {
        return Ok(false);
    }
    for i in 0..pats.len() {
        if !match_param(pats[i], values[i], found)? {
            return Ok(false);
        }
    }
    Ok(true)
}

fn match_param(pat: ParamPat, value: Param, found: &mut Found) -> Result<bool, NoMemory>
    ensures { IfOk result (λ same. (if same then Some found.new else None) ≡ param_found pat value found.old) }
{
    match pat {
        ParamPat::Lit(param) => Ok(param == value),
        ParamPat::Hole(name) => match found.params.get(name) {
            Some(param) => Ok(param == value),
            None => {
                found.params.push(ParamVal { name, value })?;
                Ok(true)
            }
        },
    }
}

// The value is the one term that gives `t` when the variables are substituted for its own.
fn match_meta(
    alloc: Global,
    name: Sym,
    levels: &Levels,
    scope: u32,
    t: &Term,
    found: &mut Found,
) -> Result<bool, NoMemory>
    requires distinct { IsDistinct nat_eq levels.now }
    requires below { All (λ level. level < scope) levels.now }
    requires scoped { IsTrue (in_scope_of t.now scope) }
    requires narrow { widest_of t.now scope < 2 ^ 31 }
    ensures { IfOk result (λ same. (if same then Some found.new else None) ≡ meta_found name levels.now scope t.now found.old) }
{
    match unrename(alloc, t, scope, levels)? {
        None => Ok(false),
        Some(body) => match found.metas.get(name) {
            Some(value) => Ok(same(&value.body, &body)),
            None => {
                found.metas.push(MetaVal {
                    name,
                    scope: levels.len(),
                    body,
                })?;
                Ok(true)
            }
        },
    }
}
