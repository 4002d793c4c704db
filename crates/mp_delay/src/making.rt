ghost use Rattle.std.specs.Prelude.{◌≡◌, ◌+◌, ◌<◌, ◌^◌, ◌++◌, ◌∷◌, [], IsTrue, IfOk, List as Row};
ghost use Rattle.mp_term.specs.declared.term.Term.{Var, Op};
ghost use Rattle.mp_term.specs.declared.term.Bound.{Bound as ABound};
ghost use Rattle.mp_term.specs.Terms.{in_scope_of};
ghost use Rattle.mp_term.specs.Subst.{weak, widest_of};
ghost use Rattle.mp_delay.specs.Moves.{moved, moved_term, levels_fit_by};
ghost use Rattle.mp_delay.specs.Made.{made_or, remade, AreRemade};

use crate::Move;
use crate::moves::level_of;
use mp_logic::{List, NoMemory, Shared, Sym};
use mp_term::{Bound, Param, Term, copy, copy_params};
use std::alloc::Global;

// The term with its levels moved. It shares each body in which nothing moved.
pub(crate) fn make(alloc: Global, t: &Term, moves: &[Move]) -> Result<Term, NoMemory>
    requires { IsTrue (levels_fit_by (moved moves.now) t.now) }
    ensures { IfOk result (λ made. made ≡ moved_term moves.now t.now) }
{
    if moves.is_empty() {
        return copy(alloc, t);
    }
    match changed(alloc, t, moves)? {
        None => copy(alloc, t),
        Some(made) => Ok(made),
    }
}

// The term of scope `n` in scope `n + k`.
pub(crate) fn weaken(alloc: Global, t: &Term, n: u32, k: u32) -> Result<Term, NoMemory>
    requires scoped { IsTrue (in_scope_of t.now n) }
    requires narrow { widest_of t.now n + k < 2 ^ 31 }
    ensures { IfOk result (λ made. made ≡ weak n k t.now) }
{
    if k == 0 {
        return copy(alloc, t);
    }
    let up = Move { from: n, to: n + k };
    make(alloc, t, &[up])
}

// None where nothing moved.
fn changed(alloc: Global, t: &Term, moves: &[Move]) -> Result<Option<Term>, NoMemory>
    requires { IsTrue (levels_fit_by (moved moves.now) t.now) }
    ensures { IfOk result (λ made. made_or t.now made ≡ moved_term moves.now t.now) }
{
    match t {
        Term::Var(level) => {
            let to = level_of(moves, *level);
            Ok(moved_variable(*level, to))
        }
        Term::Op { op, params, subs } => {
            let kids = subs.get().as_slice();
            let mut made = List::new(alloc);
            for i in 0..kids.len() {
                let body = changed(alloc, &kids[i].body, moves)?;
                push_body(alloc, &mut made, &kids[..i], &kids[i], body)?;
            }
            remake(alloc, *op, params, made)
        }
    }
}

// None where the variable stays.
pub(crate) fn moved_variable(level: u32, to: u32) -> Option<Term>
    ensures { made_or (Var level) result ≡ Var to }
{
    if to == level {
        None
    } else {
        Some(Term::Var(to))
    }
}

// Adds the body behind those before it: as it was made, or as it was. None is made as long as each is as it was.
pub(crate) fn push_body(
    alloc: Global,
    made: &mut List<Bound>,
    before: &[Bound],
    kid: &Bound,
    body: Option<Term>,
) -> Result<(), NoMemory>
    ensures { IfOk result (λ _. (news : Row ABound) → AreRemade made.old before.now news → AreRemade made.new (before.now ++ kid.now ∷ []) (news ++ remade kid.now body ∷ [])) }
{
    let body = match body {
        Some(body) => {
            if made.len() == 0 {
                push_copies(alloc, made, before)?;
            }
            body
        }
        None => {
            if made.len() == 0 {
                return Ok(());
            }
            copy(alloc, &kid.body)?
        }
    };
    let kid = Bound {
        binders: kid.binders,
        body,
    };
    match made.push(kid) {
        Ok(()) => Ok(()),
        Err((_, refused)) => Err(refused),
    }
}

fn push_copies(alloc: Global, copies: &mut List<Bound>, kids: &[Bound]) -> Result<(), NoMemory>
    ensures { IfOk result (λ _. copies.new ≡ copies.old ++ kids.now) }
{
    for kid in kids {
        let copied = Bound {
            binders: kid.binders,
            body: copy(alloc, &kid.body)?,
        };
        if let Err((_, refused)) = copies.push(copied) {
            return Err(refused);
        }
    }
    Ok(())
}

// The operator with the bodies that were made. None where none was.
pub(crate) fn remake(
    alloc: Global,
    op: Sym,
    params: &List<Param>,
    made: List<Bound>,
) -> Result<Option<Term>, NoMemory>
    ensures { IfOk result (λ t. (olds news : Row ABound) → AreRemade made olds news → made_or (Op op params.now olds) t ≡ Op op params.now news) }
{
    if made.len() == 0 {
        return Ok(None);
    }
    Ok(Some(Term::Op {
        op,
        params: copy_params(alloc, params)?,
        subs: Shared::new(alloc, made)?,
    }))
}
