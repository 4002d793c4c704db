ghost use Rattle.std.specs.Prelude.{◌≡◌, ◌<◌, ◌^◌, ◌↔◌, IsTrue, IsSome, IfOk, IfSome};
ghost use Rattle.mp_term.specs.Limits.{sequent_in_scope_of};
ghost use Rattle.mp_schema.specs.Conditions.{is_conclusion, has_two_contexts};
ghost use Rattle.mp_match.specs.Covering.{schema_covered};
ghost use Rattle.mp_schema.specs.Solutions.{IsInstance};
ghost use Rattle.mp_match.specs.Spread.{IsSpread};
ghost use Rattle.mp_match.specs.Walks.{match_of};
ghost use Rattle.mp_term.specs.Subst.{widest_in_sequent};

use crate::items::match_items;
use crate::matching::instance_at;
use crate::patterns::match_within;
use crate::place::Walk;
use crate::shapes::has_shape_of;
use crate::sizes::context_sizes;
use mp_logic::NoMemory;
use mp_schema::{Inst, Schema};
use mp_term::Sequent;
use std::alloc::Global;

/// The instance with ambient scope 0 that makes the schema this goal; every other such instance has the same values. None
/// exactly where there is none.
///
/// The schema must be a conclusion: at most two contexts, with all named hypotheses between two of them, and each
/// second-order variable and context applied to distinct variables. `first` is the size of the first context, and is
/// Some exactly where there are two. The goal's terms must be in their scopes, and no scope in it may reach `2^31`.
/// NoMemory where memory ran out; nothing else is refused.
///
/// A context's size is what the named hypotheses and the other context leave, and there is no instance where it would be
/// negative. Where there is no context, the goal must have as many hypotheses as the schema.
///
/// Where some operator of the conclusion isn't the goal's, nothing but the two conclusions is looked at, and no memory is
/// taken. Else it is one walk over the items and the goal, and one copy of what each second-order variable and each context
/// stands for, or one more owner where all variables before it may be used.
pub fn match_sequent(
    alloc: Global,
    concl: &Schema,
    first: Option<u32>,
    goal: &Sequent,
) -> Result<Option<Inst>, NoMemory>
    requires conclusion { IsTrue (is_conclusion concl.now) }
    requires sized { IsSome first ↔ IsTrue (has_two_contexts concl.now) }
    requires scoped { IsTrue (sequent_in_scope_of goal.now) }
    requires narrow { widest_in_sequent goal.now < 2 ^ 31 }
    ensures instance { IfOk result (IsInstance concl.now first goal.now) }
    ensures covers { IfOk result (λ r. IfSome r (λ i. IsTrue (schema_covered i concl.now))) }
    ensures spread { IfOk result (λ r. IfSome r (λ i. IsSpread i concl.now goal.now)) }
{
    sequent_found(alloc, concl, first, goal)
}

fn sequent_found(
    alloc: Global,
    concl: &Schema,
    first: Option<u32>,
    goal: &Sequent,
) -> Result<Option<Inst>, NoMemory>
    requires conclusion { IsTrue (is_conclusion concl.now) }
    requires sized { IsSome first ↔ IsTrue (has_two_contexts concl.now) }
    requires scoped { IsTrue (sequent_in_scope_of goal.now) }
    requires narrow { widest_in_sequent goal.now < 2 ^ 31 }
    ensures { IfOk result (λ r. r ≡ match_of concl.now first goal.now) }
{
    // Most rules that don't fit show it here, before anything is copied.
    if !has_shape_of(&concl.concl, &goal.concl) {
        return Ok(None);
    }
    let hyps = goal.hyps.as_slice();
    let Some(sizes) = context_sizes(&concl.items, first, hyps.len() as u32) else {
        return Ok(None);
    };
    let Some(walk) = match_items(alloc, concl.items.as_slice(), hyps, sizes)? else {
        return Ok(None);
    };
    let Walk { place, mut found } = walk;
    let scope = place.next;
    if !match_within(alloc, &concl.concl, &place, scope, &goal.concl, &mut found)? {
        return Ok(None);
    }
    Ok(Some(instance_at(place, found)))
}
