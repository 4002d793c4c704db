ghost use Rattle.std.specs.Prelude.{IsFalse};
ghost use Rattle.mp_match.specs.Shapes.{FindsNothing, FindNothing};

use mp_schema::{PBound, Pattern};
use mp_term::{Bound, Term};

// Whether the pattern's operators, down to its variables, stand in the term, with as many bodies and binders. It takes no
// memory.
#[cycle(shapes)]
pub(crate) fn has_shape_of(p: &Pattern, t: &Term) -> bool
    ensures { IsFalse result → FindsNothing p.now t.now }
{
    match p {
        Pattern::Op { op, subs, .. } => match t {
            Term::Var(_) => false,
            Term::Op {
                op: other,
                subs: bodies,
                ..
            } => {
                if *op != *other {
                    return false;
                }
                have_shapes_of(subs.as_slice(), bodies.get().as_slice())
            }
        },
        Pattern::Var(_) | Pattern::Meta { .. } => true,
    }
}

#[cycle(shapes)]
fn have_shapes_of(subs: &[PBound], bodies: &[Bound]) -> bool
    ensures { IsFalse result → FindNothing subs.now bodies.now }
{
    if subs.len() != bodies.len() {
        return false;
    }
    for i in 0..subs.len() {
        let sub = &subs[i];
        let bound = &bodies[i];
        if sub.binders != bound.binders {
            return false;
        }
        if !has_shape_of(&sub.body, &bound.body) {
            return false;
        }
    }
    true
}
