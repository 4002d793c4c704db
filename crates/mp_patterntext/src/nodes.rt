ghost use Rattle.std.specs.Prelude.{◌≡◌, ◌++◌, [], ℕ, IfOk, OnOk, map, min, is_none, if◌then◌else◌};
ghost use Rattle.std.specs.List.{flat_map};
ghost use Rattle.mp_words.specs.declared.fail.TextWhy.TheVariants as why;
ghost use Rattle.mp_words.specs.Faults.{fault_if, least_from, too_many};
ghost use Rattle.mp_termtext.specs.Statics.{deep, each_faults, unless_bound};
ghost use Rattle.mp_patterntext.specs.Scopes.{level_in, syms_of};
ghost use Rattle.mp_patterntext.specs.Nodes.{argument_faults, argument_of, bound_node_faults, list_faults, node_faults, param_place, pattern_at, use_faults, variables_in};

use crate::scope::{check_apart, check_known};
use crate::{RawParamPat, RawPattern, RawPatternBound};
use mp_logic::{NoMemory, Sym};
use mp_schema::limits::{MOST_ARGUMENTS, MOST_CONTEXTS};
use mp_term::limits::{MOST_BINDERS, MOST_DEPTH, MOST_PARAMETERS};
use mp_termtext::{level_of, push_names};
use mp_words::{RawName, TextErr, TextWhy, behind, sooner_of};
use std::alloc::Global;

/// The depth that stands for all that are too great.
pub const TOO_DEEP: u64 = MOST_DEPTH + 1;

/// The sooner one of the fault that is held and TooDeep, for a node at this depth or, at TOO_DEEP, a greater
/// one.
fn check_depth(held: Option<TextErr>, depth: u64, at: u32) -> Option<TextErr>
    ensures { (d : ℕ) → min d TOO_DEEP ≡ depth → result ≡ least_from held (deep d at) }
{
    if depth == TOO_DEEP {
        sooner_of(held, at, TextWhy::TooDeep)
    } else {
        held
    }
}

// Behind a fault that is held no variable is looked up, so the time to look at a text with very many
// hypotheses is still linear.
#[tactic(auto, using(mp_termtext::proofs::Unbound::unbound_behind))]
fn check_variable(held: Option<TextErr>, env: &[Sym], name: Sym, at: u32) -> Option<TextErr>
    ensures { result ≡ least_from held (unless_bound at (level_in env.now name)) }
{
    if behind(held, at) || level_of(0, env, name, None).is_some() {
        held
    } else {
        sooner_of(held, at, TextWhy::UnboundVar)
    }
}

fn place_of(param: RawParamPat) -> u32
    ensures { result ≡ param_place param }
{
    match param {
        RawParamPat::Lit(param) => param.at,
        RawParamPat::Hole { at, .. } => at,
    }
}

fn check_params(held: Option<TextErr>, params: &[RawParamPat]) -> Option<TextErr>
    ensures { result ≡ least_from held (too_many param_place 16 params.now) }
{
    match params.get(MOST_PARAMETERS as usize) {
        Some(param) => sooner_of(held, place_of(*param), TextWhy::TooMany),
        None => held,
    }
}

/// The first byte of the pattern.
pub fn first_byte(raw: &RawPattern) -> u32
    ensures { result ≡ pattern_at raw.now }
{
    match raw {
        RawPattern::Var { at, .. } => *at,
        RawPattern::Op { at, .. } => *at,
        RawPattern::Meta { at, .. } => *at,
    }
}

#[tactic(auto, using(mp_words::proofs::Soonest::least_from_append))]
fn check_counts(held: Option<TextErr>, ctxs: &[RawName], args: &[RawPattern]) -> Option<TextErr>
    ensures { result ≡ least_from held (too_many (λ c. c.at) 8 ctxs.now ++ too_many (λ a. a.at) 8 (map argument_of args.now)) }
{
    let mut held = held;
    if let Some(ctx) = ctxs.get(MOST_CONTEXTS as usize) {
        held = sooner_of(held, ctx.at, TextWhy::TooMany);
    }
    if let Some(arg) = args.get(MOST_ARGUMENTS as usize) {
        held = sooner_of(held, first_byte(arg), TextWhy::TooMany);
    }
    held
}

/// The earliest of the fault that is held and those of arguments that aren't variables.
fn check_variables(held: Option<TextErr>, args: &[RawPattern]) -> Option<TextErr>
    ensures { result ≡ least_from held (flat_map (λ a. fault_if (is_none a.variable) a.at why.NotAPattern) (map argument_of args.now)) }
{
    let mut held = held;
    for arg in args {
        match arg {
            RawPattern::Var { .. } => {}
            RawPattern::Op { at, .. } => held = sooner_of(held, *at, TextWhy::NotAPattern),
            RawPattern::Meta { at, .. } => held = sooner_of(held, *at, TextWhy::NotAPattern),
        }
    }
    held
}

/// The variables among arguments.
fn variables(alloc: Global, args: &[RawPattern]) -> Result<Vec<RawName>, NoMemory>
    ensures { IfOk result (λ names. names.items ≡ variables_in (map argument_of args.now)) }
{
    let mut names = Vec::new(alloc);
    for arg in args {
        if let RawPattern::Var { name, at } = arg
            && names
                .push(RawName {
                    name: *name,
                    at: *at,
                })
                .is_err()
        {
            return Err(NoMemory);
        }
    }
    Ok(names)
}

/// The earliest of the fault that is held and those of arguments that aren't distinct variables.
#[tactic(auto, using(mp_words::proofs::Soonest::least_from_append))]
fn check_arguments(
    alloc: Global,
    args: &[RawPattern],
    held: Option<TextErr>,
) -> Result<Option<TextErr>, NoMemory>
    ensures { IfOk result (λ found. found ≡ least_from held (argument_faults (map argument_of args.now))) }
{
    let held = check_variables(held, args);
    let names = variables(alloc, args)?;
    Ok(check_apart(held, names.as_slice(), TextWhy::NotAPattern))
}

/// The earliest of the fault that is held and those of a context or a second-order variable with this list of contexts and
/// these arguments, after the known contexts.
#[tactic(auto, using(mp_words::proofs::Soonest::least_from_append))]
pub fn check_use(
    alloc: Global,
    known: &[RawName],
    is_matched: bool,
    ctxs: &[RawName],
    args: &[RawPattern],
    held: Option<TextErr>,
) -> Result<Option<TextErr>, NoMemory>
    ensures { IfOk result (λ found. found ≡ least_from held (use_faults (syms_of known.now) is_matched ctxs.now (map argument_of args.now))) }
{
    let held = check_counts(held, ctxs, args);
    let held = check_known(held, known, ctxs);
    let held = check_apart(held, ctxs, TextWhy::TwiceContext);
    if !is_matched {
        return Ok(held);
    }
    let found = check_arguments(alloc, args, held)?;
    Ok(found)
}

/// The earliest of the fault that is held and those of the nodes of a pattern at this depth, where the names `env` are
/// bound, after the known contexts. TOO_DEEP stands for all depths that are too great.
#[cycle(checking)]
#[tactic(auto, using(mp_words::proofs::Soonest::least_from_append))]
pub fn check_nodes(
    alloc: Global,
    raw: &RawPattern,
    known: &[RawName],
    is_matched: bool,
    env: &mut Vec<Sym>,
    depth: u64,
    held: Option<TextErr>,
) -> Result<Option<TextErr>, NoMemory>
    ensures fault { IfOk result (λ found. (d : ℕ) → min d TOO_DEEP ≡ depth → found ≡ least_from held (node_faults (syms_of known.now) is_matched raw.now env.old.items d)) }
    ensures env { OnOk result (env.new.items ≡ env.old.items) }
{
    let inner = depth.saturating_add(1).min(TOO_DEEP);
    match raw {
        RawPattern::Var { name, at } => {
            let held = check_depth(held, depth, *at);
            Ok(check_variable(held, env.as_slice(), *name, *at))
        }
        RawPattern::Op {
            params,
            subs,
            at,
            ..
        } => {
            let held = check_depth(held, depth, *at);
            let held = check_params(held, params.as_slice());
            let subs = subs.as_slice();
            let found = check_bounds_nodes(alloc, subs, known, is_matched, env, inner, held)?;
            Ok(found)
        }
        RawPattern::Meta { ctxs, args, at, .. } => {
            let held = check_depth(held, depth, *at);
            let args = args.as_slice();
            let held = check_use(alloc, known, is_matched, ctxs.as_slice(), args, held)?;
            let found = check_argument_nodes(alloc, args, known, is_matched, env, inner, held)?;
            Ok(found)
        }
    }
}

#[cycle(checking)]
#[tactic(auto, using(mp_words::proofs::Soonest::least_from_append))]
fn check_bounds_nodes(
    alloc: Global,
    subs: &[RawPatternBound],
    known: &[RawName],
    is_matched: bool,
    env: &mut Vec<Sym>,
    depth: u64,
    held: Option<TextErr>,
) -> Result<Option<TextErr>, NoMemory>
    ensures fault { IfOk result (λ found. (d : ℕ) → min d TOO_DEEP ≡ depth → found ≡ least_from held (each_faults (map (bound_node_faults (syms_of known.now) is_matched) subs.now) env.old.items d)) }
    ensures env { OnOk result (env.new.items ≡ env.old.items) }
{
    let mut held = held;
    for sub in subs {
        held = check_bound_nodes(alloc, sub, known, is_matched, env, depth, held)?;
    }
    Ok(held)
}

#[cycle(checking)]
#[tactic(auto, using(mp_words::proofs::Soonest::least_from_append))]
fn check_bound_nodes(
    alloc: Global,
    raw: &RawPatternBound,
    known: &[RawName],
    is_matched: bool,
    env: &mut Vec<Sym>,
    depth: u64,
    held: Option<TextErr>,
) -> Result<Option<TextErr>, NoMemory>
    ensures fault { IfOk result (λ found. (d : ℕ) → min d TOO_DEEP ≡ depth → found ≡ least_from held (bound_node_faults (syms_of known.now) is_matched raw.now env.old.items d)) }
    ensures env { OnOk result (env.new.items ≡ env.old.items) }
{
    let held = match raw.binders.get(MOST_BINDERS as u64) {
        Some(binder) => sooner_of(held, binder.at, TextWhy::TooMany),
        None => held,
    };
    let outer = env.len();
    push_names(env, raw.binders.as_slice())?;
    let found = check_nodes(alloc, &raw.body, known, is_matched, env, depth, held)?;
    env.truncate(outer);
    Ok(found)
}

/// The earliest of the fault that is held and those of the nodes of arguments at this depth.
#[cycle(checking)]
#[tactic(auto, using(mp_words::proofs::Soonest::least_from_append))]
pub fn check_argument_nodes(
    alloc: Global,
    args: &[RawPattern],
    known: &[RawName],
    is_matched: bool,
    env: &mut Vec<Sym>,
    depth: u64,
    held: Option<TextErr>,
) -> Result<Option<TextErr>, NoMemory>
    ensures fault { IfOk result (λ found. (d : ℕ) → min d TOO_DEEP ≡ depth → found ≡ least_from held (each_faults (map (node_faults (syms_of known.now) is_matched) args.now) env.old.items d)) }
    ensures env { OnOk result (env.new.items ≡ env.old.items) }
{
    let mut held = held;
    for arg in args {
        held = check_nodes(alloc, arg, known, is_matched, env, depth, held)?;
    }
    Ok(held)
}
