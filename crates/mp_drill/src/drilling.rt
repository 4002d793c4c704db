ghost use Rattle.std.specs.Prelude.{◌≡◌, ◌<◌, ℕ, IfOk, IsTrue, length, slice_set, Some, None};
ghost use Rattle.mp_drill.specs.declared.limits.TheConstants.{WORKERS};
ghost use Rattle.mp_strategy.specs.Evaluation.{eval};
ghost use Rattle.mp_strategy.specs.Laws.{IsSound, IsGood};
ghost use Rattle.mp_strategy.specs.Strategies.{Evals};
ghost use Rattle.mp_strategy.specs.Works.{IsWork};
ghost use Rattle.mp_core.specs.Cores.{moved};
ghost use Rattle.mp_drill.specs.Ranges.{is_in_range, are_in_range};
ghost use Rattle.mp_drill.specs.Ready.{IsReady};
ghost use Rattle.mp_drill.specs.Trace.{claim_reply, Happens, IsTrace};
ghost use Rattle.mp_drill.specs.Trace.{hand_over as hand_over_of};
ghost use Rattle.mp_drill.specs.Workers.{world, idle, worker_at, with_hand};

use crate::rounds::{deliver, evaluated, finish};
use crate::schedule::{Event, Reply};
use crate::workers::{Worker, idle_workers};
use mp_core::{Claimed, Core, Parcel, Ticket, copy_parcel};
use mp_logic::{List, Logic, NoMemory};
use mp_strategy::{Outcome, Problem, Work};
use std::alloc::Global;

/// A ticket replaces the worker's hand.
fn hand_over<G: Drop>(workers: &mut Vec<Worker<G>>, who: u32, claimed: Claimed<G>) -> Reply
    requires { who < length workers.old.items }
    ensures reply { result ≡ claim_reply claimed }
    ensures workers { workers.new.items ≡ hand_over_of claimed who workers.old.items }
{
    match claimed {
        Claimed::Ticket(ticket) => {
            let epoch = ticket.epoch;
            workers[who as usize].hand = Some(ticket);
            Reply::Ticket(epoch)
        }
        Claimed::Nothing => Reply::Nothing,
        Claimed::Finished => Reply::Finished,
        Claimed::Spent => Reply::Spent,
    }
}

/// Takes the worker's ticket away, if it holds one.
fn take_hand<G: Drop>(workers: &mut Vec<Worker<G>>, who: u32) -> Option<Ticket<G>>
    requires { who < length workers.old.items }
    ensures hand { result ≡ (worker_at workers.old.items who).hand }
    ensures workers { workers.new.items ≡ with_hand workers.old.items who None }
{
    workers[who as usize].hand.take()
}

/// The worker holds no ticket, and this parcel as its last one.
fn keep_last<G: Drop>(workers: &mut Vec<Worker<G>>, who: u32, last: Parcel<G>)
    requires { who < length workers.old.items }
    ensures { workers.new.items ≡ slice_set workers.old.items who (record { hand = None; last = Some last }) }
{
    workers[who as usize] = Worker {
        hand: None,
        last: Some(last),
    };
}

/// The core, and what each worker holds.
#[derive(Drop)]
pub(crate) struct Session<'p, L: Logic> {
    core: Core<'p, L>,
    workers: Vec<Worker<L::Goal>>,
}

impl<'p, L: Logic> Session<'p, L> {
    /// The worker claims a job.
    fn claim(&mut self, alloc: Global, who: u32) -> Result<Reply, NoMemory>
        requires ready { IsReady L.meaning self.old.core self.old.workers.items }
        requires who { who < WORKERS }
        ensures ready { IfOk result (λ _. IsReady L.meaning self.new.core self.new.workers.items) }
        ensures same { IfOk result (λ _. self.new.core ≡ moved self.old.core self.new.core.machine) }
        ensures reply { IfOk result (λ r. Happens (eval L.meaning self.old.core.problem) (world self.old.core.machine self.old.workers.items) (Event.Claim who) r (world self.new.core.machine self.new.workers.items)) }
    {
        let claimed = self.core.claim(alloc, who)?;
        Ok(hand_over(&mut self.workers, who, claimed))
    }

    /// The oldest claim becomes worker 0's.
    fn reissue(&mut self, alloc: Global) -> Result<Reply, NoMemory>
        requires ready { IsReady L.meaning self.old.core self.old.workers.items }
        ensures ready { IfOk result (λ _. IsReady L.meaning self.new.core self.new.workers.items) }
        ensures same { IfOk result (λ _. self.new.core ≡ moved self.old.core self.new.core.machine) }
        ensures reply { IfOk result (λ r. Happens (eval L.meaning self.old.core.problem) (world self.old.core.machine self.old.workers.items) Event.Reissue r (world self.new.core.machine self.new.workers.items)) }
    {
        let claimed = self.core.reissue(alloc)?;
        Ok(hand_over(&mut self.workers, 0, claimed))
    }

    /// The worker reports what its ticket's work evaluates to.
    fn send(&mut self, alloc: Global, who: u32) -> Result<Reply, NoMemory>
        requires ready { IsReady L.meaning self.old.core self.old.workers.items }
        requires who { who < WORKERS }
        ensures ready { IfOk result (λ _. IsReady L.meaning self.new.core self.new.workers.items) }
        ensures same { IfOk result (λ _. self.new.core ≡ moved self.old.core self.new.core.machine) }
        ensures reply { IfOk result (λ r. Happens (eval L.meaning self.old.core.problem) (world self.old.core.machine self.old.workers.items) (Event.Send who 1) r (world self.new.core.machine self.new.workers.items)) }
    {
        let problem = self.core.problem();
        let Some(ticket) = take_hand(&mut self.workers, who) else {
            return Ok(Reply::Empty);
        };
        let parcel = evaluated(alloc, problem, ticket)?;
        let last = copy_parcel(alloc, problem.logic, &parcel)?;
        keep_last(&mut self.workers, who, last);
        deliver(&mut self.core, parcel)
    }

    /// The worker reports its last parcel once more.
    fn again(&mut self, alloc: Global, who: u32) -> Result<Reply, NoMemory>
        requires ready { IsReady L.meaning self.old.core self.old.workers.items }
        requires who { who < WORKERS }
        ensures ready { IfOk result (λ _. IsReady L.meaning self.new.core self.new.workers.items) }
        ensures same { IfOk result (λ _. self.new.core ≡ moved self.old.core self.new.core.machine) }
        ensures reply { IfOk result (λ r. Happens (eval L.meaning self.old.core.problem) (world self.old.core.machine self.old.workers.items) (Event.Again who) r (world self.new.core.machine self.new.workers.items)) }
    {
        let problem = self.core.problem();
        let Some(last) = &self.workers[who as usize].last else {
            return Ok(Reply::Empty);
        };
        let parcel = copy_parcel(alloc, problem.logic, last)?;
        deliver(&mut self.core, parcel)
    }

    /// The worker drops what it holds.
    fn die(&mut self, who: u32) -> Reply
        requires ready { IsReady L.meaning self.old.core self.old.workers.items }
        requires who { who < WORKERS }
        ensures ready { IsReady L.meaning self.new.core self.new.workers.items }
        ensures same { self.new.core ≡ moved self.old.core self.new.core.machine }
        ensures reply { Happens (eval L.meaning self.old.core.problem) (world self.old.core.machine self.old.workers.items) (Event.Die who) result (world self.new.core.machine self.new.workers.items) }
    {
        self.workers[who as usize] = Worker {
            hand: None,
            last: None,
        };
        Reply::Gone
    }

    /// One event of the schedule.
    fn happen(&mut self, alloc: Global, event: &Event) -> Result<Reply, NoMemory>
        requires ready { IsReady L.meaning self.old.core self.old.workers.items }
        requires range { IsTrue (is_in_range event.now) }
        ensures ready { IfOk result (λ _. IsReady L.meaning self.new.core self.new.workers.items) }
        ensures same { IfOk result (λ _. self.new.core ≡ moved self.old.core self.new.core.machine) }
        ensures reply { IfOk result (λ r. Happens (eval L.meaning self.old.core.problem) (world self.old.core.machine self.old.workers.items) event.now r (world self.new.core.machine self.new.workers.items)) }
    {
        match event {
            Event::Claim(who) => self.claim(alloc, *who),
            Event::Send { who, .. } => self.send(alloc, *who),
            Event::Again(who) => self.again(alloc, *who),
            Event::Die(who) => Ok(self.die(*who)),
            Event::Lose(who) => Ok(Reply::Back(self.core.lose(*who))),
            Event::Reissue => self.reissue(alloc),
        }
    }
}

/// Runs the schedule on a core of the work, and then the caller's rounds until the root is done: the
/// replies to the events, and the outcome. Where the epochs are spent the work is evaluated as a whole.
pub fn drill<L: Logic>(
    alloc: Global,
    problem: &Problem<L>,
    work: Work<L::Goal>,
    events: &List<Event>,
) -> Result<(List<Reply>, Outcome<L::Goal>), NoMemory>
    requires work { IsWork L.meaning problem.now work }
    requires events { IsTrue (are_in_range events.now) }
    ensures trace { IfOk result (λ r. IsTrace (eval L.meaning problem.now) work events.now r.0 r.1) }
    ensures relation { IfOk result (λ r. Evals L.meaning problem.now work r.1) }
    ensures valid { IfOk result (λ r. IsSound L.meaning problem.now work r.1) }
    ensures good { IfOk result (λ r. IsGood (L.meaning problem.now.logic) r.1) }
    ensures length { IfOk result (λ r. length r.0 ≡ length events.now) }
{
    problem.known();
    let mut session = Session {
        core: Core::start(problem, work)?,
        workers: idle_workers(alloc)?,
    };
    let mut replies = List::with_capacity(alloc, events.len())?;
    for event in events.as_slice() {
        let reply = session.happen(alloc, event)?;
        match replies.push(reply) {
            Ok(()) => {}
            Err((_, refused)) => return Err(refused),
        }
    }
    let outcome = finish(alloc, session.core)?;
    Ok((replies, outcome))
}
