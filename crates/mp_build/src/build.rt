ghost use Rattle.std.specs.Prelude.{◌≡◌, ℕ, ◌+◌, ◌-◌, ◌<◌, ◌≤◌, ◌^◌, ◌++◌, map, length, IsTrue, IfOk, OnOk, slice_index_or};
ghost use Rattle.mp_term.specs.declared.term.Term.{Var};
ghost use Rattle.mp_term.specs.Subst.{sub_of, variables, upto};
ghost use Rattle.mp_schema.specs.Instances.{param_of};
ghost use Rattle.mp_schema.specs.Sequents.{ground_at, wide_of};
ghost use Rattle.mp_schema.specs.Values.{instance_of, kept_of};
ghost use Rattle.mp_schema.specs.Conditions.{has};
ghost use Rattle.mp_logic.specs.declared.sym.Sym.{Sym};
ghost use Rattle.mp_build.specs.Sites.{spot_of, start_of, env_at, made_at, bodies_at, the_blank, used_terms, IsBuildable, AreBuildableBodies, AreBuildableArgs, IsSubstitutable};

use crate::site::{Site, Span, Start};
use crate::values::kept_count;
use crate::weights::occurs;
use mp_logic::{List, NoMemory, Shared, Sym};
use mp_schema::{Inst, PBound, ParamPat, Pattern};
use mp_subst::substitute;
use mp_term::{Bound, Param, Term, copy};
use std::alloc::Global;

/// The level at which the context begins; 0 where it has no entry.
fn level_of_start(starts: &[Start], name: Sym) -> u32
    ensures { result ≡ start_of starts.now name }
{
    let mut level = 0;
    for start in starts {
        if start.name.0 == name.0 {
            level = start.level;
        }
    }
    level
}

// The variable that stands for a pattern's level: a named hypothesis, or one that a binder brought.
fn variable_at(site: &Site, base: u32, level: u32) -> u32
    requires { base + (level - length site.now.places.items) < 2 ^ 32 }
    ensures { (m : ℕ) → level < length site.now.places.items + (m - base) → slice_index_or (env_at (spot_of site.now) base m) level (Var level) ≡ Var result }
{
    match site.places.get(level as usize) {
        Some(place) => *place,
        None => base + (level - site.places.len() as u32),
    }
}

// The parameters, each hole with its parameter.
fn build_params(alloc: Global, params: &[ParamPat], inst: &Inst) -> Result<List<Param>, NoMemory>
    ensures { IfOk result (λ made. made ≡ map (param_of (instance_of inst.now).values) params.now) }
{
    let mut made = List::with_capacity(alloc, params.len() as u64)?;
    for param in params {
        if let Err((_, refused)) = made.push(param_at(*param, inst)) {
            return Err(refused);
        }
    }
    Ok(made)
}

fn param_at(param: ParamPat, inst: &Inst) -> Param
    ensures { result ≡ param_of (instance_of inst.now).values param }
{
    match param {
        ParamPat::Lit(param) => param,
        ParamPat::Hole(name) => match inst.params.get(name) {
            Some(param) => param,
            None => Param::Num(0),
        },
    }
}

// Adds the variables from `first` on.
fn push_variables(terms: &mut Vec<Term>, first: u32, count: u32) -> Result<(), NoMemory>
    requires { first + count < 2 ^ 32 }
    ensures { OnOk result (terms.new.items ≡ terms.old.items ++ map Var (upto first count)) }
{
    for level in first..first + count {
        if terms.push(Term::Var(level)).is_err() {
            return Err(NoMemory);
        }
    }
    Ok(())
}

// The variables that a value has before its arguments: the ambient ones, and those of these contexts.
pub(crate) fn variables_before(
    alloc: Global,
    inst: &Inst,
    site: &Site,
    ctxs: &[Sym],
) -> Result<Vec<Term>, NoMemory>
    requires ambient { (instance_of inst.now).ambient ≤ site.now.next }
    requires made { (c : Sym) → IsTrue (has ctxs.now c) → start_of site.now.starts.items c + length (kept_of inst.now.ctxs c) ≤ site.now.next }
    ensures { IfOk result (λ terms. terms.items ≡ map Var (ground_at (instance_of inst.now) (start_of site.now.starts.items) ctxs.now)) }
{
    let mut terms = Vec::new(alloc);
    push_variables(&mut terms, 0, inst.ambient)?;
    for name in ctxs {
        let first = level_of_start(site.starts.as_slice(), *name);
        push_variables(&mut terms, first, kept_count(inst, *name) as u32)?;
    }
    Ok(terms)
}

/// The pattern's instance in this scope.
#[cycle(building)]
pub(crate) fn build_within(
    alloc: Global,
    p: &Pattern,
    inst: &Inst,
    site: &Site,
    span: Span,
) -> Result<Term, NoMemory>
    requires { IsBuildable (instance_of inst.now) (spot_of site.now) span.base p.now span.scope }
    ensures { IfOk result (λ t. t ≡ made_at (instance_of inst.now) (spot_of site.now) span.base p.now span.scope) }
{
    match p {
        Pattern::Var(level) => Ok(Term::Var(variable_at(site, span.base, *level))),
        Pattern::Op { op, params, subs } => {
            let params = build_params(alloc, params.as_slice(), inst)?;
            let subs = build_bodies(alloc, subs.as_slice(), inst, site, span)?;
            let subs = Shared::new(alloc, subs)?;
            Ok(Term::Op {
                op: *op,
                params,
                subs,
            })
        }
        Pattern::Meta { name, ctxs, args } => {
            let missing = Term::Var(0);
            let value = value_or(inst, *name, &missing);
            let mut terms = variables_before(alloc, inst, site, ctxs.as_slice())?;
            push_args(alloc, args.as_slice(), value, inst, site, span, &mut terms)?;
            put_or_share(alloc, value, terms.as_slice(), span.scope)
        }
    }
}

// The bound subterms that are made.
#[cycle(building)]
fn build_bodies(
    alloc: Global,
    subs: &[PBound],
    inst: &Inst,
    site: &Site,
    span: Span,
) -> Result<List<Bound>, NoMemory>
    requires { AreBuildableBodies (instance_of inst.now) (spot_of site.now) span.base subs.now span.scope }
    ensures { IfOk result (λ made. made ≡ bodies_at (instance_of inst.now) (spot_of site.now) span.base subs.now span.scope) }
{
    let mut made = List::with_capacity(alloc, subs.len() as u64)?;
    for sub in subs {
        let inner = Span {
            base: span.base,
            scope: span.scope + sub.binders,
        };
        let body = build_within(alloc, &sub.body, inst, site, inner)?;
        let sub = Bound {
            binders: sub.binders,
            body,
        };
        if let Err((_, refused)) = made.push(sub) {
            return Err(refused);
        }
    }
    Ok(made)
}

// Adds the instances of the arguments that stand in the term, the next variable of which is the first argument. For
// each other one it adds a term that stands for nothing.
#[cycle(building)]
fn push_args(
    alloc: Global,
    args: &[Pattern],
    t: &Term,
    inst: &Inst,
    site: &Site,
    span: Span,
    terms: &mut Vec<Term>,
) -> Result<(), NoMemory>
    requires { AreBuildableArgs (instance_of inst.now) (spot_of site.now) span.base args.now span.scope }
    ensures { OnOk result (terms.new.items ≡ terms.old.items ++ used_terms (instance_of inst.now) (spot_of site.now) span.base t.now (length terms.old.items) args.now span.scope) }
{
    for arg in args {
        let made = if occurs(t, terms.len() as u64) {
            build_within(alloc, arg, inst, site, span)?
        } else {
            blank(alloc)?
        };
        if terms.push(made).is_err() {
            return Err(NoMemory);
        }
    }
    Ok(())
}

// A term that is in every scope.
pub(crate) fn blank(alloc: Global) -> Result<Term, NoMemory>
    ensures { IfOk result (λ t. t ≡ the_blank) }
{
    let subs = Shared::new(alloc, List::new(alloc))?;
    Ok(Term::Op {
        op: Sym(0),
        params: List::new(alloc),
        subs,
    })
}

// The second-order variable's value, or this term where it has none.
fn value_or<'a>(inst: &'a Inst, name: Sym, missing: &'a Term) -> &'a Term
    requires { missing.now ≡ Var 0 }
    ensures { result.now ≡ (instance_of inst.now).values.meta name }
{
    match inst.metas.get(name) {
        Some(value) => &value.body,
        None => missing,
    }
}

// The term with these terms, of scope `scope`, for its variables. Where they are the variables themselves it is one more
// owner of the term.
fn put_or_share(alloc: Global, t: &Term, terms: &[Term], scope: u32) -> Result<Term, NoMemory>
    requires { IsSubstitutable t.now terms.now scope }
    ensures { IfOk result (λ made. made ≡ sub_of t.now terms.now scope) }
{
    if are_variables(terms, scope) {
        return copy(alloc, t);
    }
    put_in(alloc, t, terms, scope)
}

/// The term with these terms, of scope `scope`, for its variables.
pub(crate) fn put_in(alloc: Global, t: &Term, terms: &[Term], scope: u32) -> Result<Term, NoMemory>
    requires { IsSubstitutable t.now terms.now scope }
    ensures { IfOk result (λ made. made ≡ sub_of t.now terms.now scope) }
{
    substitute(alloc, t, terms.len() as u32, terms, scope)
}

/// Whether these are the variables of a scope of `n`, in order.
pub(crate) fn are_variables(terms: &[Term], n: u32) -> bool
    ensures { IsTrue result → terms.now ≡ variables 0 n }
{
    if terms.len() != n as usize {
        return false;
    }
    for (i, term) in terms.iter().enumerate() {
        if !is_variable(term, i) {
            return false;
        }
    }
    true
}

fn is_variable(t: &Term, level: usize) -> bool
    ensures { IsTrue result → t.now ≡ Var level }
{
    match t {
        Term::Var(other) => *other as usize == level,
        Term::Op { .. } => false,
    }
}
