ghost use Rattle.std.specs.Prelude.{◌≡◌, ◌<◌, length, IsTrue, IfOk, All};
ghost use Rattle.mp_term.specs.declared.term.Term.{Var};
ghost use Rattle.mp_term.specs.Subst.{AreInScope};
ghost use Rattle.mp_delay.specs.Moves.{moved};
ghost use Rattle.mp_delay.specs.Instances.{levels_made, variables_and, put_into, CanPutInto};
ghost use Rattle.mp_delay.specs.Made.{made_or};

use crate::Move;
use crate::making::{moved_variable, push_body, remake, weaken};
use crate::moves::level_of;
use mp_logic::{List, NoMemory};
use mp_term::Term;
use std::alloc::Global;

// What is put into a term: its levels are moved by `own`; then the variables below `count` become what `moves` make of
// them, and those behind them become the terms `args`, which are of scope `scope`.
#[derive(Clone, Copy)]
pub(crate) struct Filling<'a> {
    pub own: &'a [Move],
    pub moves: &'a [Move],
    pub count: u32,
    pub args: &'a [Term],
    pub scope: u32,
}

// The term, which stands below `depth` binders, with this put into it. None where nothing changes.
pub(crate) fn fill(
    alloc: Global,
    filling: &Filling<'_>,
    t: &Term,
    depth: u32,
) -> Result<Option<Term>, NoMemory>
    requires below { All (λ level. level < filling.now.scope) (levels_made filling.now.moves.now filling.now.count) }
    requires args_scoped { AreInScope filling.now.scope filling.now.args.now }
    requires can { CanPutInto (moved filling.now.own.now) (variables_and filling.now.moves.now filling.now.count filling.now.args.now) filling.now.scope depth t.now }
    ensures { IfOk result (λ made. made_or t.now made ≡ put_into (moved filling.now.own.now) (variables_and filling.now.moves.now filling.now.count filling.now.args.now) filling.now.scope depth t.now) }
{
    match t {
        Term::Var(level) => fill_variable(alloc, filling, *level, depth),
        Term::Op { op, params, subs } => {
            let kids = subs.get().as_slice();
            let mut made = List::new(alloc);
            for i in 0..kids.len() {
                let kid = &kids[i];
                let body = fill(alloc, filling, &kid.body, depth + kid.binders)?;
                push_body(alloc, &mut made, &kids[..i], kid, body)?;
            }
            remake(alloc, *op, params, made)
        }
    }
}

// A term that is put in is weakened over the binders above it, and a bound variable follows the new scope.
fn fill_variable(
    alloc: Global,
    filling: &Filling<'_>,
    level: u32,
    depth: u32,
) -> Result<Option<Term>, NoMemory>
    requires below { All (λ level. level < filling.now.scope) (levels_made filling.now.moves.now filling.now.count) }
    requires args_scoped { AreInScope filling.now.scope filling.now.args.now }
    requires can { CanPutInto (moved filling.now.own.now) (variables_and filling.now.moves.now filling.now.count filling.now.args.now) filling.now.scope depth (Var level) }
    ensures { IfOk result (λ made. made_or (Var level) made ≡ put_into (moved filling.now.own.now) (variables_and filling.now.moves.now filling.now.count filling.now.args.now) filling.now.scope depth (Var level)) }
{
    let at = level_of(filling.own, level);
    if at < filling.count {
        return Ok(moved_variable(level, level_of(filling.moves, at)));
    }
    let place = (at - filling.count) as usize;
    if place < filling.args.len() {
        let arg = weaken(alloc, &filling.args[place], filling.scope, depth)?;
        return Ok(Some(arg));
    }
    let bound = (place - filling.args.len()) as u32;
    Ok(moved_variable(level, filling.scope + bound))
}
