ghost use Rattle.std.specs.Prelude.{◌≡◌, ◌↔◌, IsTrue};
ghost use Rattle.mp_term.specs.Equality.{same_term};
ghost use Rattle.mp_delay.specs.Moves.{moved_term};

use crate::Move;
use crate::moves::wide_level;
use mp_term::{Param, Term};

// Whether the terms are equal once the levels of each are moved, `a` by `first` and `b` by `second`. It makes neither.
pub(crate) fn same_moved(a: &Term, first: &[Move], b: &Term, second: &[Move]) -> bool
    ensures { result ≡ same_term (moved_term first.now a.now) (moved_term second.now b.now) }
{
    match (a, b) {
        (Term::Var(x), Term::Var(y)) => wide_level(first, *x) == wide_level(second, *y),
        (
            Term::Op { op, params, subs },
            Term::Op {
                op: other_op,
                params: other_params,
                subs: other_subs,
            },
        ) => {
            let left = subs.get().as_slice();
            let right = other_subs.get().as_slice();
            if op.0 != other_op.0
                || !same_parameters(params.as_slice(), other_params.as_slice())
                || left.len() != right.len()
            {
                return false;
            }
            for i in 0..left.len() {
                let one = &left[i];
                let other = &right[i];
                if one.binders != other.binders
                    || !same_moved(&one.body, first, &other.body, second)
                {
                    return false;
                }
            }
            true
        }
        _ => false,
    }
}

fn same_parameters(left: &[Param], right: &[Param]) -> bool
    ensures { IsTrue result ↔ (left.now ≡ right.now) }
{
    if left.len() != right.len() {
        return false;
    }
    for i in 0..left.len() {
        if !same_parameter(left[i], right[i]) {
            return false;
        }
    }
    true
}

fn same_parameter(a: Param, b: Param) -> bool
    ensures { IsTrue result ↔ (a ≡ b) }
{
    a == b
}
