ghost use Rattle.std.specs.Prelude.{◌≡◌, ◌+◌, ◌<◌, ◌^◌, max, map, sum};
ghost use Rattle.mp_logic.specs.Trees.{counted};
ghost use Rattle.mp_logic.specs.Lists.{greatest};
ghost use Rattle.mp_term.specs.Limits.{within_limits_of};
ghost use Rattle.mp_term.specs.Subst.{widest_at};
ghost use Rattle.mp_schema.specs.Sequents.{seq, wide_of};
ghost use Rattle.mp_schema.specs.Values.{instance_of};
ghost use Rattle.mp_build.specs.Built.{IsChecked};
ghost use Rattle.mp_build.specs.Rooms.{room, item_room, items_room, IsNarrowSomewhere};
ghost use Rattle.mp_build.specs.Sizes.{applied_size, applied_depth, item_count, item_size, item_depth, schema_size, schema_depth, IsWeighing};

use crate::BuildErr;
use crate::sizes::{weigh_applied, weigh_pattern};
use crate::values::kept_count;
use crate::weights::limited;
use mp_logic::Sym;
use mp_schema::{Inst, Item, Pattern, Schema, context_value};
use mp_term::limits::MOST_HYPOTHESES;
use mp_term::{Term, Weight};
use std::alloc::Global;

/// TooLarge exactly where the sequent that the schema makes isn't within the limits. It isn't built.
///
/// Its hypotheses are counted first, and only where they are few enough its terms are weighed.
pub(crate) fn check_limits(alloc: Global, schema: &Schema, inst: &Inst) -> Result<(), BuildErr>
    requires { IsNarrowSomewhere (items_room (instance_of inst.now) schema.now.items schema.now.concl) }
    ensures { IsChecked (within_limits_of (seq (instance_of inst.now) schema.now)) result }
{
    if count_hyps(schema.items.as_slice(), inst) > MOST_HYPOTHESES {
        return Err(BuildErr::TooLarge);
    }
    weigh_schema(alloc, schema, inst)?;
    Ok(())
}

// The number of hypotheses that the items make. The count stops at `2^64 - 1`.
fn count_hyps(items: &[Item], inst: &Inst) -> u64
    ensures { result ≡ counted (sum (map (item_count (instance_of inst.now)) items.now)) }
{
    let mut total = 0u64;
    for item in items {
        total = total.saturating_add(count_of_item(item, inst));
    }
    total
}

fn count_of_item(item: &Item, inst: &Inst) -> u64
    ensures { result ≡ item_count (instance_of inst.now) item.now }
{
    match item {
        Item::Ctx { name, .. } => kept_count(inst, *name),
        Item::Hyp(_) => 1,
    }
}

// The sizes of the terms that the schema makes, together, and the greatest of their depths.
fn weigh_schema(alloc: Global, schema: &Schema, inst: &Inst) -> Result<Weight, BuildErr>
    requires { IsNarrowSomewhere (items_room (instance_of inst.now) schema.now.items schema.now.concl) }
    ensures { let v = instance_of inst.now in IsWeighing (schema_size v schema.now) (schema_depth v schema.now) result }
{
    let mut total = Weight { size: 0, depth: 0 };
    for item in schema.items.as_slice() {
        let weight = weigh_item(alloc, item, inst)?;
        total = joined(total, weight)?;
    }
    let concl = weigh_pattern(alloc, &schema.concl, inst)?;
    joined(total, concl)
}

// The weight of two rows of terms: the sum of the sizes, and the greater depth.
fn joined(left: Weight, right: Weight) -> Result<Weight, BuildErr>
    requires left { left.size < 2 ^ 63 }
    requires right { right.size < 2 ^ 63 }
    ensures { IsWeighing (left.size + right.size) (max left.depth right.depth) result }
{
    match limited(left.size + right.size, left.depth.max(right.depth)) {
        Some(weight) => Ok(weight),
        None => Err(BuildErr::TooLarge),
    }
}

// The weight of the hypotheses that an item makes.
fn weigh_item(alloc: Global, item: &Item, inst: &Inst) -> Result<Weight, BuildErr>
    requires { IsNarrowSomewhere (item_room (instance_of inst.now) item.now) }
    ensures { let v = instance_of inst.now in IsWeighing (item_size v item.now) (item_depth v item.now) result }
{
    match item {
        Item::Hyp(p) => weigh_pattern(alloc, p, inst),
        Item::Ctx { name, ctxs, args } => {
            let (ctxs, args) = (ctxs.as_slice(), args.as_slice());
            match context_value(&inst.ctxs, *name) {
                Some(context) => weigh_row(alloc, context.hyps.as_slice(), ctxs, args, inst),
                None => Ok(Weight { size: 0, depth: 0 }),
            }
        }
    }
}

// The weight of a context's hypotheses.
fn weigh_row(
    alloc: Global,
    row: &[Term],
    ctxs: &[Sym],
    args: &[Pattern],
    inst: &Inst,
) -> Result<Weight, BuildErr>
    requires few { wide_of (instance_of inst.now) ctxs.now < 2 ^ 31 }
    requires narrow { let v = instance_of inst.now in IsNarrowSomewhere (λ m. widest_at m (map (room (wide_of v) v.values) args.now)) }
    ensures { let v = instance_of inst.now in IsWeighing (sum (map (applied_size v ctxs.now args.now) row.now)) (greatest (map (applied_depth v ctxs.now args.now) row.now)) result }
{
    let mut total = Weight { size: 0, depth: 0 };
    for t in row {
        let weight = weigh_applied(alloc, args, ctxs, t, inst)?;
        total = joined(total, weight)?;
    }
    Ok(total)
}
