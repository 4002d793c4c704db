ghost use Rattle.std.specs.Prelude.{◌≡◌, ◌↔◌, IfOk, IsTrue};

use crate::state::Parcel;
use mp_logic::{Logic, NoMemory};
use mp_strategy::{Work, copy_outcome, copy_work};
use std::alloc::Global;

/// Whether the goals are equal.
fn same_goals<L: Logic>(logic: &L, a: &L::Goal, b: &L::Goal) -> bool
    ensures { IsTrue result ↔ (a.now ≡ b.now) }
{
    logic.same_goal(a, b)
}

/// Whether the works are equal.
pub(crate) fn same_work<L: Logic>(logic: &L, a: &Work<L::Goal>, b: &Work<L::Goal>) -> bool
    ensures { IsTrue result ↔ (a.now ≡ b.now) }
{
    a.tac.0 == b.tac.0
        && a.left == b.left
        && a.fuel == b.fuel
        && same_goals(logic, &a.goal, &b.goal)
}

/// An equal parcel.
pub fn copy_parcel<L: Logic>(
    alloc: Global,
    logic: &L,
    parcel: &Parcel<L::Goal>,
) -> Result<Parcel<L::Goal>, NoMemory>
    ensures { IfOk result (λ copy. copy ≡ parcel.now) }
{
    Ok(Parcel {
        epoch: parcel.epoch,
        work: copy_work(alloc, logic, &parcel.work)?,
        outcome: copy_outcome(alloc, logic, &parcel.outcome)?,
    })
}
