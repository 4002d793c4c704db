ghost use Rattle.std.specs.Prelude.{◌≡◌, ◌↔◌, ◌+◌, ◌<◌, ◌^◌, nat_eq, IsTrue, IsFalse, IfOk, OnErr, All};
ghost use Rattle.std.specs.List.{IsDistinct};
ghost use Rattle.mp_term.specs.Terms.{in_scope_of};
ghost use Rattle.mp_term.specs.Subst.{widest_of};
ghost use Rattle.mp_schema.specs.Values.{find_meta, variables_of};
ghost use Rattle.mp_match.specs.Giving.{IsGiven, NamesOnly};

use crate::levels::push_contexts;
use mp_logic::{List, NoMemory, Sym};
use mp_schema::{Inst, MetaVal};
use mp_subst::{Levels, unrename};
use mp_term::Term;
use std::alloc::Global;

/// The scope of a given body before its arguments: the most hypotheses that a goal may have.
const GIVEN_SCOPE: u32 = 200;

/// Adds the value of a second-order variable that `body` gives: the one term that becomes `body` when the variables of
/// the contexts `ctxs` in the goal, one context after the other, and then the levels `200` to `200 + arity - 1` are
/// substituted for its variables. Ok(true) where it was added.
///
/// Ok(false) exactly where `body` names a hypothesis that isn't a variable of these contexts. Then and after NoMemory
/// nothing has changed.
///
/// The body must be in scope `200 + arity`, and no scope in it may reach `2^31`. The instance must have no value of
/// `name`, and the contexts' variables must be distinct and below 200.
pub fn give(
    inst: &mut Inst,
    alloc: Global,
    name: Sym,
    ctxs: &List<Sym>,
    arity: u32,
    body: &Term,
) -> Result<bool, NoMemory>
    requires fresh { find_meta inst.old.metas name ≡ None }
    requires scoped { IsTrue (in_scope_of body.now (200 + arity)) }
    requires narrow { widest_of body.now (200 + arity) < 2 ^ 31 }
    requires distinct { IsDistinct nat_eq (variables_of inst.old.ctxs ctxs.now) }
    requires below { All (λ level. level < 200) (variables_of inst.old.ctxs ctxs.now) }
    ensures added { IfOk result (λ given. IsTrue given → IsGiven inst.old name ctxs.now arity body.now inst.new) }
    ensures named { IfOk result (λ given. IsTrue given ↔ NamesOnly (variables_of inst.old.ctxs ctxs.now) body.now) }
    ensures refused { IfOk result (λ given. IsFalse given → inst.new ≡ inst.old) }
    ensures failed { OnErr result (inst.new ≡ inst.old) }
{
    let mut levels = Levels::new(alloc);
    push_contexts(&mut levels, ctxs, &inst.ctxs)?;
    levels.push_range(GIVEN_SCOPE, arity as u64)?;
    let Some(value) = unrename(alloc, body, GIVEN_SCOPE + arity, &levels)? else {
        return Ok(false);
    };
    inst.metas.push(MetaVal {
        name,
        scope: levels.len(),
        body: value,
    })?;
    Ok(true)
}
