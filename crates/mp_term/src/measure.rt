ghost use Rattle.std.specs.Prelude.{◌≡◌, ◌≤◌, ℕ, min};
ghost use Rattle.mp_logic.specs.Trees.{counted};
ghost use Rattle.mp_term.specs.Terms.{size_of, depth_of, in_scope_of};
ghost use Rattle.mp_term.specs.Limits.{few_binders_of};

use crate::Term;
use crate::limits::MOST_BINDERS;

/// The number of variables and operators, at least 1. The count stops at `2^64 - 1`.
pub fn size(t: &Term) -> u64
    ensures { result ≡ counted (size_of t.now) }
{
    match t {
        Term::Var(_) => 1,
        Term::Op { subs, .. } => {
            let mut total = 1u64;
            for sub in subs.get().as_slice() {
                total = total.saturating_add(size(&sub.body));
            }
            total
        }
    }
}

/// 1 for a variable, and for an operator 1 more than the depth of its deepest body, or 1 where it has
/// none. The count stops at `2^64 - 1`.
pub fn depth(t: &Term) -> u64
    ensures { result ≡ counted (depth_of t.now) }
{
    match t {
        Term::Var(_) => 1,
        Term::Op { subs, .. } => {
            let mut greatest = 0u64;
            for sub in subs.get().as_slice() {
                greatest = greatest.max(depth(&sub.body));
            }
            greatest.saturating_add(1)
        }
    }
}

/// Whether the term is in this scope: each free variable is below `scope`, and each bound variable is
/// one that a binder around it binds.
pub fn in_scope(t: &Term, scope: u32) -> bool
    ensures { result ≡ in_scope_of t.now scope }
{
    in_wide_scope(t, scope as u64)
}

pub(crate) const WIDEST: u64 = 4294967296;

// A scope from WIDEST on holds every variable that can be written, so it may stand at WIDEST.
pub(crate) fn in_wide_scope(t: &Term, scope: u64) -> bool
    ensures { (n : ℕ) → min n WIDEST ≡ scope → result ≡ in_scope_of t.now n }
{
    match t {
        Term::Var(level) => (*level as u64) < scope,
        Term::Op { subs, .. } => {
            for sub in subs.get().as_slice() {
                let inner = scope.saturating_add(sub.binders as u64).min(WIDEST);
                if !in_wide_scope(&sub.body, inner) {
                    return false;
                }
            }
            true
        }
    }
}

/// How large a term is.
#[derive(Clone, Copy, Debug, PartialEq, Eq)]
pub struct Weight {
    /// Its size, as `size` counts it.
    pub size: u64,
    /// Its depth, as `depth` counts it.
    pub depth: u64,
}

/// The size and the depth, in one walk.
pub fn weigh(t: &Term) -> Weight
    ensures size { result.size ≡ counted (size_of t.now) }
    ensures depth { result.depth ≡ counted (depth_of t.now) }
{
    match t {
        Term::Var(_) => Weight { size: 1, depth: 1 },
        Term::Op { subs, .. } => {
            let mut total = 1u64;
            let mut greatest = 0u64;
            for sub in subs.get().as_slice() {
                let inner = weigh(&sub.body);
                total = total.saturating_add(inner.size);
                greatest = greatest.max(inner.depth);
            }
            Weight {
                size: total,
                depth: greatest.saturating_add(1),
            }
        }
    }
}

/// Whether each subterm, however deep, has at most 8 binders.
pub fn few_binders(t: &Term) -> bool
    ensures { result ≡ few_binders_of t.now }
{
    match t {
        Term::Var(_) => true,
        Term::Op { subs, .. } => {
            for sub in subs.get().as_slice() {
                if sub.binders > MOST_BINDERS || !few_binders(&sub.body) {
                    return false;
                }
            }
            true
        }
    }
}
