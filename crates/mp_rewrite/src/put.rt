ghost use Rattle.std.specs.Prelude.{◌≡◌, ◌++◌, ◌<◌, length, IfOk, OnOk};
ghost use Rattle.mp_rewrite.specs.Addresses.{changed_at, with_body, put_at, put_in};

use mp_logic::{List, NoMemory, Shared};
use mp_term::{Bound, Sequent, Term, copy, copy_params};
use mp_theory::Place;
use std::alloc::Global;

/// The goal with another subterm at this address of the term at a place. What is unchanged is shared with the goal.
pub(crate) fn put_in(
    alloc: Global,
    goal: &Sequent,
    place: Place,
    address: &[u32],
    new: Term,
) -> Result<Sequent, NoMemory>
    ensures { IfOk result (λ made. made ≡ put_in place address.now new goal.now) }
{
    let hyps = goal.hyps.as_slice();
    match place {
        Place::Concl => {
            let hyps = copy_terms(alloc, hyps)?;
            let concl = put_at(alloc, &goal.concl, address, new)?;
            Ok(Sequent { hyps, concl })
        }
        Place::Hyp(number) => {
            let hyps = with_hyp(alloc, hyps, number as usize, address, new)?;
            let concl = copy(alloc, &goal.concl)?;
            Ok(Sequent { hyps, concl })
        }
    }
}

/// Equal terms, which share their bodies.
pub(crate) fn copy_terms(alloc: Global, terms: &[Term]) -> Result<List<Term>, NoMemory>
    ensures { IfOk result (λ copied. copied ≡ terms.now) }
{
    let mut copies = List::with_capacity(alloc, terms.len() as u64)?;
    push_terms(alloc, terms, &mut copies)?;
    Ok(copies)
}

fn push_terms(alloc: Global, terms: &[Term], copies: &mut List<Term>) -> Result<(), NoMemory>
    ensures { OnOk result (copies.new ≡ copies.old ++ terms.now) }
{
    for t in terms {
        let copied = copy(alloc, t)?;
        if let Err((_, refused)) = copies.push(copied) {
            return Err(refused);
        }
    }
    Ok(())
}

// The hypotheses with another subterm at this address of the one with this number.
fn with_hyp(
    alloc: Global,
    hyps: &[Term],
    number: usize,
    address: &[u32],
    new: Term,
) -> Result<List<Term>, NoMemory>
    ensures { IfOk result (λ made. made ≡ changed_at number (put_at address.now new) hyps.now) }
{
    if number >= hyps.len() {
        return copy_terms(alloc, hyps);
    }
    let changed = put_at(alloc, &hyps[number], address, new)?;
    let mut made = List::with_capacity(alloc, hyps.len() as u64)?;
    push_terms(alloc, &hyps[..number], &mut made)?;
    if let Err((_, refused)) = made.push(changed) {
        return Err(refused);
    }
    push_terms(alloc, &hyps[number + 1..], &mut made)?;
    Ok(made)
}

// The term with another subterm at this address.
fn put_at(alloc: Global, t: &Term, address: &[u32], new: Term) -> Result<Term, NoMemory>
    ensures { IfOk result (λ made. made ≡ put_at address.now new t.now) }
{
    let Some((number, rest)) = address.split_first() else {
        return Ok(new);
    };
    let Term::Op { op, params, subs } = t else {
        return copy(alloc, t);
    };
    let subs = subs.get().as_slice();
    let number = *number as usize;
    if number >= subs.len() {
        return copy(alloc, t);
    }
    let body = put_at(alloc, &subs[number].body, rest, new)?;
    let subs = with_bound(alloc, subs, number, body)?;
    Ok(Term::Op {
        op: *op,
        params: copy_params(alloc, params)?,
        subs: Shared::new(alloc, subs)?,
    })
}

// The bound subterms with another body in the one with this number.
fn with_bound(
    alloc: Global,
    subs: &[Bound],
    number: usize,
    body: Term,
) -> Result<List<Bound>, NoMemory>
    requires { number < length subs.now }
    ensures { IfOk result (λ made. made ≡ changed_at number (with_body (λ old. body)) subs.now) }
{
    let mut made = List::with_capacity(alloc, subs.len() as u64)?;
    push_bounds(alloc, &subs[..number], &mut made)?;
    let changed = Bound {
        binders: subs[number].binders,
        body,
    };
    if let Err((_, refused)) = made.push(changed) {
        return Err(refused);
    }
    push_bounds(alloc, &subs[number + 1..], &mut made)?;
    Ok(made)
}

fn push_bounds(alloc: Global, subs: &[Bound], copies: &mut List<Bound>) -> Result<(), NoMemory>
    ensures { OnOk result (copies.new ≡ copies.old ++ subs.now) }
{
    for sub in subs {
        let copied = Bound {
            binders: sub.binders,
            body: copy(alloc, &sub.body)?,
        };
        if let Err((_, refused)) = copies.push(copied) {
            return Err(refused);
        }
    }
    Ok(())
}
