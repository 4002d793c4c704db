ghost use Rattle.std.specs.Prelude.{◌≡◌, ◌<◌, ◌^◌, map, IfOk, OnErr};
ghost use Rattle.mp_term.specs.Subst.{widest_at};
ghost use Rattle.mp_schema.specs.Sequents.{wide_of};
ghost use Rattle.mp_schema.specs.Values.{instance_of};
ghost use Rattle.mp_build.specs.Rooms.{room, IsNarrowSomewhere};
ghost use Rattle.mp_build.specs.Sizes.{inst_size, inst_depth, applied_size, applied_depth, used_from, IsWeighing, AreWeighed};

use crate::BuildErr;
use crate::values::width_before;
use crate::weights::{limited, occurs, weigh_under};
use mp_logic::Sym;
use mp_schema::{Inst, Pattern};
use mp_term::{Term, Weight};
use std::alloc::Global;

/// The size and the depth of the pattern's instance, which isn't built. TooLarge where one is over its limit: the
/// walk ends where that shows. Arguments that a value doesn't use are passed over.
#[cycle(weighing)]
pub(crate) fn weigh_pattern(alloc: Global, p: &Pattern, inst: &Inst) -> Result<Weight, BuildErr>
    requires narrow { let v = instance_of inst.now in IsNarrowSomewhere (room (wide_of v) v.values p.now) }
    ensures { let v = instance_of inst.now in IsWeighing (inst_size (wide_of v) v.values p.now) (inst_depth (wide_of v) v.values p.now) result }
{
    match p {
        Pattern::Var(_) => Ok(Weight { size: 1, depth: 1 }),
        Pattern::Op { subs, .. } => {
            let mut total = Weight { size: 1, depth: 1 };
            for sub in subs.as_slice() {
                let inner = weigh_pattern(alloc, &sub.body, inst)?;
                match limited(total.size + inner.size, total.depth.max(inner.depth + 1)) {
                    Some(next) => total = next,
                    None => return Err(BuildErr::TooLarge),
                }
            }
            Ok(total)
        }
        Pattern::Meta { name, ctxs, args } => {
            let (ctxs, args) = (ctxs.as_slice(), args.as_slice());
            match inst.metas.get(*name) {
                Some(value) => weigh_applied(alloc, args, ctxs, &value.body, inst),
                None => weigh_applied(alloc, args, ctxs, &Term::Var(0), inst),
            }
        }
    }
}

/// The weight of the term in which these contexts' variables and these arguments stand for its variables.
#[cycle(weighing)]
pub(crate) fn weigh_applied(
    alloc: Global,
    args: &[Pattern],
    ctxs: &[Sym],
    t: &Term,
    inst: &Inst,
) -> Result<Weight, BuildErr>
    requires few { wide_of (instance_of inst.now) ctxs.now < 2 ^ 31 }
    requires narrow { let v = instance_of inst.now in IsNarrowSomewhere (λ m. widest_at m (map (room (wide_of v) v.values) args.now)) }
    ensures { let v = instance_of inst.now in IsWeighing (applied_size v ctxs.now args.now t.now) (applied_depth v ctxs.now args.now t.now) result }
{
    let before = width_before(inst, ctxs);
    let weights = weigh_args(alloc, args, before, t, inst)?;
    match weigh_under(t, before, weights.as_slice()) {
        Some(weight) => Ok(weight),
        None => Err(BuildErr::TooLarge),
    }
}

/// The weights of the arguments, the first of which has the level `before`, where they stand in the term.
#[cycle(weighing)]
fn weigh_args(
    alloc: Global,
    args: &[Pattern],
    before: u64,
    t: &Term,
    inst: &Inst,
) -> Result<Vec<Weight>, BuildErr>
    requires few { before < 2 ^ 31 }
    requires narrow { let v = instance_of inst.now in IsNarrowSomewhere (λ m. widest_at m (map (room (wide_of v) v.values) args.now)) }
    ensures { AreWeighed (instance_of inst.now) t.now before args.now result }
{
    let mut weights = Vec::new(alloc);
    let mut level = before;
    for arg in args {
        let weight = if occurs(t, level) {
            weigh_pattern(alloc, arg, inst)?
        } else {
            Weight { size: 1, depth: 1 }
        };
        if weights.push(weight).is_err() {
            return Err(BuildErr::NoMemory);
        }
        level += 1;
    }
    Ok(weights)
}
