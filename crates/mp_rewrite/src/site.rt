ghost use Rattle.std.specs.Prelude.{◌≡◌, ◌<◌, ◌^◌, Option};
ghost use Rattle.std.specs.Option.{option_copied, option_map};
ghost use Rattle.mp_term.specs.Subst.{widest_of};
ghost use Rattle.mp_rewrite.specs.Addresses.{Subterm, hyps_before, term_at, subterm_at};

use mp_term::{Sequent, Term};
use mp_theory::Place;

/// The subterm that a rewrite is applied to.
#[derive(Clone, Copy)]
pub(crate) struct Site<'a> {
    /// The subterm.
    pub term: &'a Term,
    /// The scope in which it stands.
    pub scope: u32,
}

/// The hypotheses before a place; before the conclusion these are all.
pub(crate) fn hyps_before(goal: &Sequent, place: Place) -> &[Term]
    ensures { result.now ≡ hyps_before place goal.now }
{
    let hyps = goal.hyps.as_slice();
    match place {
        Place::Concl => hyps,
        Place::Hyp(number) => &hyps[..(number as usize).min(hyps.len())],
    }
}

/// The term at a place. None exactly where there is none.
pub(crate) fn term_at(goal: &Sequent, place: Place) -> Option<&Term>
    ensures { option_copied result ≡ term_at place goal.now }
{
    match place {
        Place::Concl => Some(&goal.concl),
        Place::Hyp(number) => goal.hyps.get(number as u64),
    }
}

/// The subterm at this address of a term in this scope. None exactly where there is none.
pub(crate) fn site_at<'a>(t: &'a Term, scope: u32, address: &[u32]) -> Option<Site<'a>>
    requires { widest_of t.now scope < 2 ^ 31 }
    ensures { option_map (λ site. record { term = site.term.now; scope = site.scope }) result ≡ subterm_at address.now scope t.now }
{
    let mut site = Site { term: t, scope };
    for number in address {
        let subs = match site.term {
            Term::Var(_) => return None,
            Term::Op { subs, .. } => subs.get(),
        };
        let sub = subs.get(*number as u64)?;
        site = Site {
            term: &sub.body,
            scope: site.scope + sub.binders,
        };
    }
    Some(site)
}
