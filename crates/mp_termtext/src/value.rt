ghost use Rattle.std.specs.Prelude.{◌≡◌, ◌<◌, ◌≤◌, ◌^◌, [], IfOk, OnOk, length, map};
ghost use Rattle.mp_termtext.specs.Statics.{hyp_names, hyps_faults, sequent_faults, term_faults};
ghost use Rattle.mp_termtext.specs.Values.{IsFaultless, IsFaultlessBound, bound_value_of, hyps_value, sequent_value, term_value, value_of};

use crate::scope::{level_of, push_names};
use crate::{RawBound, RawHyp, RawParam, RawSequent, RawTerm};
use mp_logic::{List, NoMemory, Shared, Sym};
use mp_term::limits::MOST_HYPOTHESES;
use mp_term::{Bound, Param, Sequent, Term};
use std::alloc::Global;

fn values(alloc: Global, params: &List<RawParam>) -> Result<List<Param>, NoMemory>
    ensures { IfOk result (λ values. values ≡ map (λ p. p.value) params.now) }
{
    let mut values = List::with_capacity(alloc, params.len())?;
    for param in params.as_slice() {
        if let Err((_, refused)) = values.push(param.value) {
            return Err(refused);
        }
    }
    Ok(values)
}

/// The term that is written, where the names `env` are bound after `free` free ones, and no static rule is
/// broken.
#[cycle(building)]
pub(crate) fn build_term(
    alloc: Global,
    raw: &RawTerm,
    free: u32,
    env: &mut Vec<Sym>,
) -> Result<Term, NoMemory>
    requires free { free < 2 ^ 31 }
    requires faultless { IsFaultless free raw.now env.old.items }
    ensures value { IfOk result (λ t. t ≡ value_of free raw.now env.old.items) }
    ensures env { OnOk result (env.new.items ≡ env.old.items) }
{
    match raw {
        RawTerm::Var { name, numbered, .. } => {
            let level = level_of(free, env.as_slice(), *name, *numbered).unwrap_or(0);
            Ok(Term::Var(level as u32))
        }
        RawTerm::Op {
            name,
            params,
            subs,
            ..
        } => {
            let mut built = List::with_capacity(alloc, subs.len())?;
            for sub in subs.as_slice() {
                let bound = build_bound(alloc, sub, free, env)?;
                if let Err((_, refused)) = built.push(bound) {
                    return Err(refused);
                }
            }
            let params = values(alloc, params)?;
            let subs = Shared::new(alloc, built)?;
            Ok(Term::Op {
                op: *name,
                params,
                subs,
            })
        }
    }
}

/// The subterm that is written, with the number of its binders.
#[cycle(building)]
pub fn build_bound(
    alloc: Global,
    raw: &RawBound,
    free: u32,
    env: &mut Vec<Sym>,
) -> Result<Bound, NoMemory>
    requires free { free < 2 ^ 31 }
    requires faultless { IsFaultlessBound free raw.now env.old.items }
    ensures value { IfOk result (λ b. b ≡ bound_value_of free raw.now env.old.items) }
    ensures env { OnOk result (env.new.items ≡ env.old.items) }
{
    let outer = env.len();
    push_names(env, raw.binders.as_slice())?;
    let body = build_term(alloc, &raw.body, free, env)?;
    env.truncate(outer);
    Ok(Bound {
        binders: raw.binders.len() as u32,
        body,
    })
}

/// The term that is all of a text, where so many names are free, and no static rule is broken.
pub(crate) fn build_whole_term(alloc: Global, raw: &RawTerm, free: u32) -> Result<Term, NoMemory>
    requires free { free < 2 ^ 31 }
    requires faultless { term_faults free raw.now ≡ [] }
    ensures { IfOk result (λ t. t ≡ term_value free raw.now) }
{
    let mut env = Vec::new(alloc);
    let term = build_term(alloc, raw, free, &mut env)?;
    Ok(term)
}

/// The hypotheses that are written, each after those before it, whose names `env` has at the end.
fn build_hyps(alloc: Global, hyps: &[RawHyp], env: &mut Vec<Sym>) -> Result<List<Term>, NoMemory>
    requires none { env.old.items ≡ [] }
    requires few { length hyps.now ≤ MOST_HYPOTHESES }
    requires faultless { hyps_faults hyps.now [] ≡ [] }
    ensures value { IfOk result (λ ts. ts ≡ hyps_value hyps.now []) }
    ensures env { OnOk result (env.new.items ≡ hyp_names hyps.now) }
{
    let mut built = List::with_capacity(alloc, hyps.len() as u64)?;
    for hyp in hyps {
        let term = build_term(alloc, &hyp.term, 0, env)?;
        if let Err((_, refused)) = built.push(term) {
            return Err(refused);
        }
        if env.push(hyp.name).is_err() {
            return Err(NoMemory);
        }
    }
    Ok(built)
}

/// The sequent that is written, where no static rule is broken.
pub fn build_sequent(alloc: Global, raw: &RawSequent) -> Result<Sequent, NoMemory>
    requires { sequent_faults raw.now ≡ [] }
    ensures { IfOk result (λ s. s ≡ sequent_value raw.now) }
{
    let mut env = Vec::new(alloc);
    let hyps = build_hyps(alloc, raw.hyps.as_slice(), &mut env)?;
    let concl = build_term(alloc, &raw.concl, 0, &mut env)?;
    Ok(Sequent { hyps, concl })
}
