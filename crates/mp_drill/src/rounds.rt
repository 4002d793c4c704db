ghost use Rattle.std.specs.Prelude.{◌≡◌, ⊤, IfOk};
ghost use Rattle.mp_strategy.specs.Strategies.{Evals};
ghost use Rattle.mp_strategy.specs.Evaluation.{eval};
ghost use Rattle.mp_strategy.specs.Works.{IsWork};
ghost use Rattle.mp_core.specs.Cores.{moved};
ghost use Rattle.mp_core.specs.Sound.{IsSoundCore};
ghost use Rattle.mp_drill.specs.Rounds.{Rounds};
ghost use Rattle.mp_drill.specs.Rounds.{evaluated as evaluated_of};
ghost use Rattle.mp_drill.specs.Trace.{Delivers};

use crate::schedule::Reply;
use mp_core::{Claimed, Core, Parcel, Reported, Ticket};
use mp_eval::evaluate;
use mp_logic::{Logic, NoMemory};
use mp_strategy::{Outcome, Problem};
use std::alloc::Global;

/// The ticket's parcel, with what its work evaluates to.
pub(crate) fn evaluated<L: Logic>(
    alloc: Global,
    problem: &Problem<L>,
    ticket: Ticket<L::Goal>,
) -> Result<Parcel<L::Goal>, NoMemory>
    requires { IsWork L.meaning problem.now ticket.work }
    ensures value { IfOk result (λ p. p ≡ evaluated_of (eval L.meaning problem.now) ticket) }
    ensures honest { IfOk result (λ p. Evals L.meaning problem.now p.work p.outcome) }
{
    let Ticket { epoch, work } = ticket;
    let outcome = evaluate(alloc, problem, &work)?;
    Ok(Parcel {
        epoch,
        work,
        outcome,
    })
}

/// Reports the parcel.
pub(crate) fn deliver<L: Logic>(
    core: &mut Core<'_, L>,
    parcel: Parcel<L::Goal>,
) -> Result<Reply, NoMemory>
    requires { Evals L.meaning core.old.problem parcel.work parcel.outcome }
    ensures same { IfOk result (λ _. core.new ≡ moved core.old core.new.machine) }
    ensures reply { IfOk result (λ r. Delivers core.old.machine parcel r core.new.machine) }
    ensures sound { IsSoundCore L.meaning core.old → IsSoundCore L.meaning core.new }
{
    match core.report(parcel) {
        Reported::Taken => Ok(Reply::Taken),
        Reported::Stale(_) => Ok(Reply::Stale),
        Reported::TakenUnsettled => Err(NoMemory),
        Reported::NoMemory(_) => Err(NoMemory),
    }
}

/// Rounds of the caller until the root is done.
pub(crate) fn finish<L: Logic>(
    alloc: Global,
    core: Core<'_, L>,
) -> Result<Outcome<L::Goal>, NoMemory>
    requires { IsSoundCore L.meaning core }
    ensures { IfOk result (λ o. Rounds (eval L.meaning core.entry.problem) core.entry.machine o) }
{
    let mut core = core;
    let problem = core.problem();
    loop {
        match core.next_for_caller(alloc)? {
            Claimed::Ticket(ticket) => {
                let parcel = evaluated(alloc, problem, ticket)?;
                let _ = deliver(&mut core, parcel)?;
            }
            Claimed::Nothing => unreachable!(),
            Claimed::Finished => {
                let Some(outcome) = core.into_answer() else {
                    unreachable!()
                };
                return Ok(outcome);
            }
            Claimed::Spent => return evaluate(alloc, problem, core.work()),
        }
    }
}
