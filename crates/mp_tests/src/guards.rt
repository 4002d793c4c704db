//! What calls ask of terms and values, as tests.
ghost use Rattle.std.specs.Prelude.{◌≡◌, ◌<◌, IsTrue, All};
ghost use Rattle.mp_term.specs.Terms.{in_scope_of};
ghost use Rattle.mp_term.specs.Subst.{widest_of};
ghost use Rattle.mp_schema.specs.declared.instance.MetaVal.{MetaVal};
ghost use Rattle.mp_build.specs.Laws.{IsTameTerm};
ghost use Rattle.mp_theory.specs.Allowed.{is_good};

use mp_schema::MetaVals;
use mp_term::{
    Sequent, Term, depth, few_binders, in_scope, sequent_few_binders, sequent_in_scope,
    within_limits,
};

/// Whether the term is in this scope, and each scope in it is far below the limit.
#[tactic(auto, using(mp_term::proofs::BinderLaws::width))]
pub(crate) fn is_small(t: &Term, scope: u32) -> bool
    ensures scoped { IsTrue result → IsTrue (in_scope_of t.now scope) }
    ensures narrow { IsTrue result → widest_of t.now scope < 5000 }
    ensures below { IsTrue result → scope < 1000 }
{
    scope < 1000 && in_scope(t, scope) && few_binders(t) && depth(t) <= 300
}

/// Whether each value has few binders, and is no deeper than a goal.
pub(crate) fn are_tame(metas: &MetaVals) -> bool
    ensures { IsTrue result → All (λ (x : MetaVal). IsTameTerm x.body) metas.now }
{
    for place in 0..metas.len() {
        if let Some(value) = metas.at(place) {
            if !few_binders(&value.body) || depth(&value.body) > 200 {
                return false;
            }
        }
    }
    true
}

/// Whether the goal is one that steps are tried on.
pub(crate) fn is_good(goal: &Sequent) -> bool
    ensures { result ≡ is_good goal.now }
{
    sequent_in_scope(goal) && sequent_few_binders(goal) && within_limits(goal)
}
