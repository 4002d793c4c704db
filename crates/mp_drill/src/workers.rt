ghost use Rattle.std.specs.Prelude.{◌≡◌, IfOk, replicate};
ghost use Rattle.mp_drill.specs.declared.limits.TheConstants.{WORKERS};
ghost use Rattle.mp_drill.specs.Workers.{idle};

use crate::limits::WORKERS;
use mp_core::{Parcel, Ticket};
use mp_logic::NoMemory;
use std::alloc::Global;

/// What a worker holds.
#[derive(Drop)]
pub(crate) struct Worker<G> {
    /// The ticket that it works on.
    pub(crate) hand: Option<Ticket<G>>,
    /// A copy of the parcel that it reported last.
    pub(crate) last: Option<Parcel<G>>,
}

/// Workers 0 to 64, which hold nothing.
pub(crate) fn idle_workers<G: Drop>(alloc: Global) -> Result<Vec<Worker<G>>, NoMemory>
    ensures { IfOk result (λ workers. workers.items ≡ replicate WORKERS idle) }
{
    let mut workers = Vec::new(alloc);
    for _worker in 0..WORKERS {
        let idle = Worker {
            hand: None,
            last: None,
        };
        if workers.push(idle).is_err() {
            return Err(NoMemory);
        }
    }
    Ok(workers)
}
