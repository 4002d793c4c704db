ghost use Rattle.std.specs.Prelude.{◌≡◌, ◌≤◌, ◌++◌, ◌+◌, ◌<◌, ◌^◌, OnOk, IfOk, codes, length, map};
ghost use Rattle.mp_termtext.specs.Printing.{binders_text, bound_text, hyp_text, hyps_text, list_text, param_text, sequent_text, term_text};

use crate::bytes::{push_bytes, push_name, push_number, push_quoted};
use mp_logic::{List, NoMemory, Text};
use mp_names::Names;
use mp_term::{Bound, Param, Sequent, Term};
use std::alloc::Global;

/// The one text of a term where `scope` variables are in scope. The names of operators and strings are those
/// that `names` has for their numbers.
pub fn print_term(alloc: Global, names: &Names, t: &Term, scope: u32) -> Result<Text, NoMemory>
    ensures { IfOk result (λ text. text ≡ term_text names.now t.now scope) }
{
    let mut out = Vec::new(alloc);
    push_term(&mut out, names, t, scope)?;
    Ok(List::from_vec(out))
}

/// The one text of a sequent.
pub fn print_sequent(alloc: Global, names: &Names, s: &Sequent) -> Result<Text, NoMemory>
    ensures { IfOk result (λ text. text ≡ sequent_text names.now s.now) }
{
    let mut out = Vec::new(alloc);
    push_sequent(&mut out, names, s)?;
    Ok(List::from_vec(out))
}

/// Appends the one text of a term where `scope` variables are in scope. Where there is no memory, some of it
/// may have been appended.
pub fn push_term(out: &mut Vec<u8>, names: &Names, t: &Term, scope: u32) -> Result<(), NoMemory>
    ensures { OnOk result (out.new.items ≡ out.old.items ++ term_text names.now t.now scope) }
{
    push_in(out, names, t, scope as u64)
}

/// Appends so many binders, which are the levels from `scope` on, and after them the one text of the term, in
/// whose scope they are. Where there is no memory, some of it may have been appended.
pub fn push_bound_term(
    out: &mut Vec<u8>,
    names: &Names,
    scope: u32,
    binders: u32,
    body: &Term,
) -> Result<(), NoMemory>
    ensures { OnOk result (out.new.items ≡ out.old.items ++ binders_text scope binders ++ term_text names.now body.now (scope + binders)) }
{
    push_binders(out, scope as u64, binders as u64)?;
    push_in(out, names, body, scope as u64 + binders as u64)
}

/// Appends the one text of a sequent. Where there is no memory, some of it may have been appended.
pub fn push_sequent(out: &mut Vec<u8>, names: &Names, s: &Sequent) -> Result<(), NoMemory>
    ensures { OnOk result (out.new.items ≡ out.old.items ++ sequent_text names.now s.now) }
{
    push_hyps(out, names, &s.hyps)?;
    push_bytes(out, b">- ")?;
    push_in(out, names, &s.concl, s.hyps.len())
}

fn push_hyps(out: &mut Vec<u8>, names: &Names, hyps: &List<Term>) -> Result<(), NoMemory>
    ensures text { OnOk result (out.new.items ≡ out.old.items ++ hyps_text names.now hyps.now) }
    ensures grown { OnOk result (length out.old.items + length hyps.now ≤ length out.new.items) }
{
    let Some((first, rest)) = hyps.as_slice().split_first() else {
        return Ok(());
    };
    push_hyp(out, names, 0, first)?;
    let mut level = 1u64;
    for hyp in rest {
        push_bytes(out, b"; ")?;
        push_hyp(out, names, level, hyp)?;
        level += 1;
    }
    push_bytes(out, b" ")
}

fn push_hyp(out: &mut Vec<u8>, names: &Names, level: u64, hyp: &Term) -> Result<(), NoMemory>
    requires { level ≤ 2 ^ 32 + length out.old.items }
    ensures text { OnOk result (out.new.items ≡ out.old.items ++ hyp_text names.now level hyp.now) }
    ensures grown { OnOk result (length out.old.items + 1 ≤ length out.new.items) }
{
    push_name(out, level)?;
    push_bytes(out, b": ")?;
    push_in(out, names, hyp, level)
}

/// Appends so many binders from this level on.
fn push_binders(out: &mut Vec<u8>, scope: u64, count: u64) -> Result<(), NoMemory>
    requires { scope + count < 2 ^ 64 }
    ensures text { OnOk result (out.new.items ≡ out.old.items ++ binders_text scope count) }
    ensures grown { OnOk result (length out.old.items + count ≤ length out.new.items) }
{
    if count == 0 {
        return Ok(());
    }
    push_name(out, scope)?;
    for i in 1..count {
        push_bytes(out, b", ")?;
        push_name(out, scope + i)?;
    }
    push_bytes(out, b". ")
}

fn push_params(out: &mut Vec<u8>, names: &Names, params: &List<Param>) -> Result<(), NoMemory>
    ensures { OnOk result (out.new.items ≡ out.old.items ++ list_text (codes "[") (codes "]") (map (param_text names.now) params.now)) }
{
    let mut begun = false;
    for param in params.as_slice() {
        if begun {
            push_bytes(out, b"; ")?;
        } else {
            push_bytes(out, b"[")?;
        }
        push_param(out, names, *param)?;
        begun = true;
    }
    if begun {
        push_bytes(out, b"]")?;
    }
    Ok(())
}

fn push_param(out: &mut Vec<u8>, names: &Names, param: Param) -> Result<(), NoMemory>
    ensures { OnOk result (out.new.items ≡ out.old.items ++ param_text names.now param) }
{
    match param {
        Param::Num(number) => push_number(out, number),
        Param::Str(sym) => push_quoted(out, names.text(sym)),
    }
}

// Each level from 2^32 on is of a binder that is printed before it, so that the scope fits.
#[cycle(printing)]
fn push_in(out: &mut Vec<u8>, names: &Names, t: &Term, scope: u64) -> Result<(), NoMemory>
    requires { scope ≤ 2 ^ 32 + length out.old.items }
    ensures text { OnOk result (out.new.items ≡ out.old.items ++ term_text names.now t.now scope) }
    ensures grown { OnOk result (length out.old.items ≤ length out.new.items) }
{
    match t {
        Term::Var(level) => {
            push_bytes(out, b"'")?;
            push_name(out, *level as u64)
        }
        Term::Op { op, params, subs } => {
            push_bytes(out, names.text(*op))?;
            push_params(out, names, params)?;
            let mut begun = false;
            for sub in subs.get().as_slice() {
                if begun {
                    push_bytes(out, b"; ")?;
                } else {
                    push_bytes(out, b"{")?;
                }
                push_bound(out, names, sub, scope)?;
                begun = true;
            }
            if begun {
                push_bytes(out, b"}")?;
            }
            Ok(())
        }
    }
}

#[cycle(printing)]
fn push_bound(out: &mut Vec<u8>, names: &Names, bound: &Bound, scope: u64) -> Result<(), NoMemory>
    requires { scope ≤ 2 ^ 32 + length out.old.items }
    ensures text { OnOk result (out.new.items ≡ out.old.items ++ bound_text names.now bound.now scope) }
    ensures grown { OnOk result (length out.old.items ≤ length out.new.items) }
{
    let count = bound.binders as u64;
    push_binders(out, scope, count)?;
    push_in(out, names, &bound.body, scope + count)
}
