ghost use Rattle.std.specs.Prelude.{◌≡◌, IfOk, OnOk, map};
ghost use Rattle.mp_patterntext.specs.Buildable.{AreFaultless, AreFaultlessBounds, IsFaultless, IsFaultlessBound};
ghost use Rattle.mp_patterntext.specs.Scopes.{syms_of};
ghost use Rattle.mp_patterntext.specs.Values.{each_pattern_value, param_value, pattern_of, bound_of};

use crate::{RawParamPat, RawPattern, RawPatternBound};
use mp_logic::{List, NoMemory, Sym};
use mp_schema::{PBound, ParamPat, Pattern};
use mp_termtext::{level_of, push_names};
use mp_words::RawName;
use std::alloc::Global;

fn value_of(param: RawParamPat) -> ParamPat
    ensures { result ≡ param_value param }
{
    match param {
        RawParamPat::Lit(param) => ParamPat::Lit(param.value),
        RawParamPat::Hole { name, .. } => ParamPat::Hole(name.name),
    }
}

fn build_params(alloc: Global, params: &List<RawParamPat>) -> Result<List<ParamPat>, NoMemory>
    ensures { IfOk result (λ values. values ≡ map param_value params.now) }
{
    let mut values = List::with_capacity(alloc, params.len())?;
    for param in params.as_slice() {
        if let Err((_, refused)) = values.push(value_of(*param)) {
            return Err(refused);
        }
    }
    Ok(values)
}

/// The names, without their places.
pub fn copy_names(alloc: Global, names: &[RawName]) -> Result<List<Sym>, NoMemory>
    ensures { IfOk result (λ copied. copied ≡ syms_of names.now) }
{
    let mut copied = List::with_capacity(alloc, names.len() as u64)?;
    for name in names {
        if let Err((_, refused)) = copied.push(name.name) {
            return Err(refused);
        }
    }
    Ok(copied)
}

/// The pattern that is written, where the names `env` are bound, and no static rule is broken.
#[cycle(building)]
pub fn build_pattern(
    alloc: Global,
    raw: &RawPattern,
    env: &mut Vec<Sym>,
) -> Result<Pattern, NoMemory>
    requires faultless { IsFaultless raw.now env.old.items }
    ensures value { IfOk result (λ p. p ≡ pattern_of raw.now env.old.items) }
    ensures env { OnOk result (env.new.items ≡ env.old.items) }
{
    match raw {
        RawPattern::Var { name, .. } => {
            let level = level_of(0, env.as_slice(), *name, None).unwrap_or(0);
            Ok(Pattern::Var(level as u32))
        }
        RawPattern::Op {
            name,
            params,
            subs,
            ..
        } => {
            let params = build_params(alloc, params)?;
            let subs = build_bounds(alloc, subs.as_slice(), env)?;
            Ok(Pattern::Op {
                op: *name,
                params,
                subs,
            })
        }
        RawPattern::Meta {
            name,
            ctxs,
            args,
            ..
        } => {
            let ctxs = copy_names(alloc, ctxs.as_slice())?;
            let args = build_args(alloc, args.as_slice(), env)?;
            Ok(Pattern::Meta {
                name: *name,
                ctxs,
                args,
            })
        }
    }
}

#[cycle(building)]
fn build_bounds(
    alloc: Global,
    subs: &[RawPatternBound],
    env: &mut Vec<Sym>,
) -> Result<List<PBound>, NoMemory>
    requires faultless { AreFaultlessBounds subs.now env.old.items }
    ensures value { IfOk result (λ bs. bs ≡ each_pattern_value (map bound_of subs.now) env.old.items) }
    ensures env { OnOk result (env.new.items ≡ env.old.items) }
{
    let mut built = List::with_capacity(alloc, subs.len() as u64)?;
    for sub in subs {
        let bound = build_bound(alloc, sub, env)?;
        if let Err((_, refused)) = built.push(bound) {
            return Err(refused);
        }
    }
    Ok(built)
}

#[cycle(building)]
fn build_bound(alloc: Global, raw: &RawPatternBound, env: &mut Vec<Sym>) -> Result<PBound, NoMemory>
    requires faultless { IsFaultlessBound raw.now env.old.items }
    ensures value { IfOk result (λ b. b ≡ bound_of raw.now env.old.items) }
    ensures env { OnOk result (env.new.items ≡ env.old.items) }
{
    let outer = env.len();
    push_names(env, raw.binders.as_slice())?;
    let body = build_pattern(alloc, &raw.body, env)?;
    env.truncate(outer);
    Ok(PBound {
        binders: raw.binders.len() as u32,
        body,
    })
}

/// The arguments that are written, where the names `env` are bound.
#[cycle(building)]
pub fn build_args(
    alloc: Global,
    args: &[RawPattern],
    env: &mut Vec<Sym>,
) -> Result<List<Pattern>, NoMemory>
    requires faultless { AreFaultless args.now env.old.items }
    ensures value { IfOk result (λ ps. ps ≡ each_pattern_value (map pattern_of args.now) env.old.items) }
    ensures env { OnOk result (env.new.items ≡ env.old.items) }
{
    let mut built = List::with_capacity(alloc, args.len() as u64)?;
    for arg in args {
        let pattern = build_pattern(alloc, arg, env)?;
        if let Err((_, refused)) = built.push(pattern) {
            return Err(refused);
        }
    }
    Ok(built)
}
