ghost use Rattle.std.specs.Prelude.{◌≡◌, ◌+◌, ◌++◌, ℕ, [], None, IfOk, OnOk, min, nat_lt, sum_by, slice_get};
ghost use Rattle.mp_logic.specs.Trees.{counted};
ghost use Rattle.mp_words.specs.declared.fail.TextWhy.TheVariants as why;
ghost use Rattle.mp_words.specs.Faults.{fault_if, least, least_from, too_many};
ghost use Rattle.mp_termtext.specs.Statics.{bound_faults_of, bound_term_faults, deep, faults_of, hyp_names, hyps_faults, at_of, level_of, raw_sequent_size_of, raw_size_of, sequent_faults, term_faults, unless_bound};

use crate::scope::{level_of, push_names};
use crate::{RawBound, RawHyp, RawSequent, RawTerm};
use mp_logic::{List, NoMemory, Sym};
use mp_term::limits::{MOST_BINDERS, MOST_DEPTH, MOST_HYPOTHESES, MOST_NODES, MOST_PARAMETERS};
use mp_words::{TextErr, TextWhy, behind, sooner_of};
use std::alloc::Global;

/// The depth that stands for all that are too great.
pub const TOO_DEEP: u64 = MOST_DEPTH + 1;

/// The sooner one of the fault that is held and TooDeep, for a node at this depth or, at TOO_DEEP, a greater
/// one.
pub fn check_depth(held: Option<TextErr>, depth: u64, at: u32) -> Option<TextErr>
    ensures { (d : ℕ) → min d TOO_DEEP ≡ depth → result ≡ least_from held (deep d at) }
{
    if depth == TOO_DEEP {
        sooner_of(held, at, TextWhy::TooDeep)
    } else {
        held
    }
}

// Behind a fault that is held no variable is looked up, so the time to look at a text with very many
// hypotheses is still linear.
#[tactic(auto, using(crate::proofs::Unbound::unbound_behind))]
fn check_variable(
    held: Option<TextErr>,
    free: u32,
    env: &[Sym],
    name: Sym,
    numbered: Option<u32>,
    at: u32,
) -> Option<TextErr>
    ensures { result ≡ least_from held (unless_bound at (level_of free env.now name numbered)) }
{
    if behind(held, at) || level_of(free, env, name, numbered).is_some() {
        held
    } else {
        sooner_of(held, at, TextWhy::UnboundVar)
    }
}

#[cycle(checking)]
#[tactic(auto, using(mp_words::proofs::Soonest::least_from_append))]
fn check_in(
    raw: &RawTerm,
    free: u32,
    env: &mut Vec<Sym>,
    depth: u64,
    held: Option<TextErr>,
) -> Result<Option<TextErr>, NoMemory>
    ensures fault { IfOk result (λ found. (d : ℕ) → min d TOO_DEEP ≡ depth → found ≡ least_from held (faults_of free raw.now env.old.items d)) }
    ensures env { OnOk result (env.new.items ≡ env.old.items) }
{
    match raw {
        RawTerm::Var { name, numbered, at } => {
            let held = check_depth(held, depth, *at);
            Ok(check_variable(held, free, env.as_slice(), *name, *numbered, *at))
        }
        RawTerm::Op {
            params,
            subs,
            at,
            ..
        } => {
            let mut held = check_depth(held, depth, *at);
            if let Some(param) = params.get(MOST_PARAMETERS) {
                held = sooner_of(held, param.at, TextWhy::TooMany);
            }
            let inner = depth.saturating_add(1).min(TOO_DEEP);
            for sub in subs.as_slice() {
                held = check_bound(sub, free, env, inner, held)?;
            }
            Ok(held)
        }
    }
}

#[cycle(checking)]
#[tactic(auto, using(mp_words::proofs::Soonest::least_from_append))]
fn check_bound(
    raw: &RawBound,
    free: u32,
    env: &mut Vec<Sym>,
    depth: u64,
    held: Option<TextErr>,
) -> Result<Option<TextErr>, NoMemory>
    ensures fault { IfOk result (λ found. (d : ℕ) → min d TOO_DEEP ≡ depth → found ≡ least_from held (bound_faults_of free raw.now env.old.items d)) }
    ensures env { OnOk result (env.new.items ≡ env.old.items) }
{
    let held = match raw.binders.get(MOST_BINDERS as u64) {
        Some(binder) => sooner_of(held, binder.at, TextWhy::TooMany),
        None => held,
    };
    let outer = env.len();
    push_names(env, raw.binders.as_slice())?;
    let found = check_in(&raw.body, free, env, depth, held)?;
    env.truncate(outer);
    Ok(found)
}

/// The number of variables and operators. The count stops at `2^64 - 1`.
fn raw_size(raw: &RawTerm) -> u64
    ensures { result ≡ counted (raw_size_of raw.now) }
{
    match raw {
        RawTerm::Var { .. } => 1,
        RawTerm::Op { subs, .. } => {
            let mut total = 1u64;
            for sub in subs.as_slice() {
                total = total.saturating_add(raw_size(&sub.body));
            }
            total
        }
    }
}

/// The first byte of the term.
pub fn at_of(raw: &RawTerm) -> u32
    ensures { result ≡ at_of raw.now }
{
    match raw {
        RawTerm::Var { at, .. } => *at,
        RawTerm::Op { at, .. } => *at,
    }
}

/// The sooner one of the fault that is held and TooBig, for a whole of so many nodes.
pub fn check_size(held: Option<TextErr>, size: u64, at: u32) -> Option<TextErr>
    ensures { (n : ℕ) → counted n ≡ size → result ≡ least_from held (fault_if (nat_lt MOST_NODES n) at why.TooBig) }
{
    if size > MOST_NODES {
        sooner_of(held, at, TextWhy::TooBig)
    } else {
        held
    }
}

/// The earliest of the fault that is held and those of a term after its binders that stands by itself, where so many
/// names are free and which begins at this byte: more than 8 binders, the faults of the term's nodes, and
/// more than 20,000 nodes.
#[tactic(auto, using(mp_words::proofs::Soonest::least_from_append))]
pub fn check_bound_term(
    alloc: Global,
    raw: &RawBound,
    free: u32,
    at: u32,
    held: Option<TextErr>,
) -> Result<Option<TextErr>, NoMemory>
    ensures { IfOk result (λ found. found ≡ least_from held (bound_term_faults free at raw.now)) }
{
    let mut env = Vec::new(alloc);
    let held = check_bound(raw, free, &mut env, 1, held)?;
    Ok(check_size(held, raw_size(&raw.body), at))
}

/// The least static fault of a term that is all of a text, where so many names are free. None exactly where
/// it has none.
#[tactic(auto, using(mp_words::proofs::Soonest::least_from_append))]
pub(crate) fn term_fault(
    alloc: Global,
    raw: &RawTerm,
    free: u32,
) -> Result<Option<TextErr>, NoMemory>
    ensures { IfOk result (λ found. found ≡ least (term_faults free raw.now)) }
{
    let mut env = Vec::new(alloc);
    let held = check_in(raw, free, &mut env, 1, None)?;
    Ok(check_size(held, raw_size(raw), at_of(raw)))
}

fn hyps_size(hyps: &[RawHyp]) -> u64
    ensures { result ≡ counted (sum_by (λ h. raw_size_of h.term) hyps.now) }
{
    let mut total = 0u64;
    for hyp in hyps {
        total = total.saturating_add(raw_size(&hyp.term));
    }
    total
}

/// The earliest of the fault that is held and those of the hypotheses, each after those before it, whose
/// names `env` has at the end.
fn check_hyps(
    hyps: &[RawHyp],
    env: &mut Vec<Sym>,
    held: Option<TextErr>,
) -> Result<Option<TextErr>, NoMemory>
    requires { env.old.items ≡ [] }
    ensures fault { IfOk result (λ found. found ≡ least_from held (hyps_faults hyps.now [])) }
    ensures env { OnOk result (env.new.items ≡ hyp_names hyps.now) }
{
    let mut held = held;
    for hyp in hyps {
        held = check_in(&hyp.term, 0, env, 1, held)?;
        if env.push(hyp.name).is_err() {
            return Err(NoMemory);
        }
    }
    Ok(held)
}

/// The sooner one of the fault that is held and TooMany, at the first hypothesis that is one too many.
fn check_count(hyps: &[RawHyp], held: Option<TextErr>) -> Option<TextErr>
    ensures { result ≡ least_from held (too_many (λ h. h.at) MOST_HYPOTHESES hyps.now) }
{
    match hyps.get(MOST_HYPOTHESES as usize) {
        Some(hyp) => sooner_of(held, hyp.at, TextWhy::TooMany),
        None => held,
    }
}

/// The earliest of the fault that is held and those of a sequent: more than 200 hypotheses, the faults of its
/// terms, and more than 20,000 nodes.
#[tactic(auto, using(mp_words::proofs::Soonest::least_from_append))]
pub fn check_sequent(
    alloc: Global,
    raw: &RawSequent,
    held: Option<TextErr>,
) -> Result<Option<TextErr>, NoMemory>
    ensures { IfOk result (λ found. found ≡ least_from held (sequent_faults raw.now)) }
{
    let held = check_count(raw.hyps.as_slice(), held);
    let mut env = Vec::new(alloc);
    let held = check_hyps(raw.hyps.as_slice(), &mut env, held)?;
    let held = check_in(&raw.concl, 0, &mut env, 1, held)?;
    let size = hyps_size(raw.hyps.as_slice()).saturating_add(raw_size(&raw.concl));
    Ok(check_size(held, size, raw.at))
}
