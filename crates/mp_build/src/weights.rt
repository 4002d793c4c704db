ghost use Rattle.std.specs.Prelude.{◌≡◌, map, slice_index_or};
ghost use Rattle.mp_term.specs.Sizes.{sub_size, sub_depth};
ghost use Rattle.mp_term.specs.Subst.{occurs_in};
ghost use Rattle.mp_build.specs.Sizes.{behind_ones, IsWeighed};

use mp_term::limits::{MOST_DEPTH, MOST_NODES};
use mp_term::{Term, Weight};

/// The weight of this size and this depth; None where one of both is over its limit.
pub(crate) fn limited(size: u64, depth: u64) -> Option<Weight>
    ensures { IsWeighed size depth result }
{
    if size > MOST_NODES || depth > MOST_DEPTH {
        return None;
    }
    Some(Weight { size, depth })
}

/// The weight of a term in which terms of weight 1 stand for its first `before` variables, and terms of these
/// weights for those that follow. None where it is over a limit; the walk ends where that shows.
pub(crate) fn weigh_under(t: &Term, before: u64, args: &[Weight]) -> Option<Weight>
    ensures { let ones = behind_ones before in IsWeighed (sub_size (ones (map (λ w. w.size) args.now)) t.now) (sub_depth (ones (map (λ w. w.depth) args.now)) t.now) result }
{
    match t {
        Term::Var(level) => {
            let weight = weight_at(*level, before, args);
            limited(weight.size, weight.depth)
        }
        Term::Op { subs, .. } => {
            let mut total = Weight { size: 1, depth: 1 };
            for sub in subs.get().as_slice() {
                let inner = weigh_under(&sub.body, before, args)?;
                total = limited(total.size + inner.size, total.depth.max(inner.depth + 1))?;
            }
            Some(total)
        }
    }
}

// The weight of what stands for a variable: 1 for one that keeps standing for itself.
fn weight_at(level: u32, before: u64, args: &[Weight]) -> Weight
    ensures size { result.size ≡ slice_index_or (behind_ones before (map (λ w. w.size) args.now)) level 1 }
    ensures depth { result.depth ≡ slice_index_or (behind_ones before (map (λ w. w.depth) args.now)) level 1 }
{
    let level = level as u64;
    if level < before {
        return Weight { size: 1, depth: 1 };
    }
    match args.get((level - before) as usize) {
        Some(weight) => *weight,
        None => Weight { size: 1, depth: 1 },
    }
}

/// Whether the variable of this level stands in the term.
pub(crate) fn occurs(t: &Term, level: u64) -> bool
    ensures { result ≡ occurs_in level t.now }
{
    match t {
        Term::Var(other) => *other as u64 == level,
        Term::Op { subs, .. } => {
            for sub in subs.get().as_slice() {
                if occurs(&sub.body, level) {
                    return true;
                }
            }
            false
        }
    }
}
