ghost use Rattle.std.specs.Prelude.{◌≡◌, ◌<◌, ◌^◌, [], IsTrue, IfOk, IfSome};
ghost use Rattle.mp_term.specs.Terms.{in_scope_of};
ghost use Rattle.mp_term.specs.Subst.{widest_of};
ghost use Rattle.mp_schema.specs.Conditions.{seen, lists_known};
ghost use Rattle.mp_match.specs.Covering.{is_covered};
ghost use Rattle.mp_match.specs.Matches.{as_instance, term_match};
ghost use Rattle.mp_schema.specs.Solutions.{IsTermInstance};

use crate::patterns::match_within;
use crate::place::{Found, Position};
use mp_logic::{List, NoMemory};
use mp_schema::{Inst, MetaVals, ParamVals, Pattern};
use mp_term::Term;
use std::alloc::Global;

/// The instance whose ambient scope is `scope` that makes the redex the term `t`; every other such instance has the same
/// values. None exactly where there is none.
///
/// The redex must have no contexts, and its second-order variables must be applied to distinct variables; then a value
/// is the one term that gives its place when the arguments are substituted for its last variables. The term must be in
/// scope `scope`, and no scope in it may reach `2^31`. NoMemory where memory ran out; nothing else is refused.
///
/// One walk over the pattern and the term, and one copy of what each second-order variable stands for.
pub fn match_term(
    alloc: Global,
    redex: &Pattern,
    scope: u32,
    t: &Term,
) -> Result<Option<Inst>, NoMemory>
    requires fine { IsTrue ((seen redex.now).fine 0) }
    requires no_contexts { IsTrue (lists_known [] redex.now) }
    requires scoped { IsTrue (in_scope_of t.now scope) }
    requires narrow { widest_of t.now scope < 2 ^ 31 }
    ensures instance { IfOk result (IsTermInstance scope redex.now t.now) }
    ensures covers { IfOk result (λ r. IfSome r (λ i. IsTrue (is_covered i redex.now))) }
{
    term_found(alloc, redex, scope, t)
}

fn term_found(
    alloc: Global,
    redex: &Pattern,
    scope: u32,
    t: &Term,
) -> Result<Option<Inst>, NoMemory>
    requires fine { IsTrue ((seen redex.now).fine 0) }
    requires no_contexts { IsTrue (lists_known [] redex.now) }
    requires scoped { IsTrue (in_scope_of t.now scope) }
    requires narrow { widest_of t.now scope < 2 ^ 31 }
    ensures { IfOk result (λ r. r ≡ term_match redex.now scope t.now) }
{
    let place = Position {
        ambient: scope,
        ctxs: List::new(alloc),
        named: List::new(alloc),
        next: scope,
    };
    let mut found = Found {
        metas: MetaVals::new(alloc),
        params: ParamVals::new(alloc),
    };
    if !match_within(alloc, redex, &place, scope, t, &mut found)? {
        return Ok(None);
    }
    Ok(Some(instance_at(place, found)))
}

// What is found at the place, as an instance.
pub(crate) fn instance_at(place: Position, found: Found) -> Inst
    ensures { result ≡ as_instance place found }
{
    let Position { ambient, ctxs, .. } = place;
    let Found { metas, params } = found;
    Inst {
        ambient,
        ctxs,
        metas,
        params,
    }
}
