ghost use Rattle.std.specs.Prelude.{◌≡◌, ◌≢◌, ◌+◌, ◌<◌, IfOk, MatchResult, IfSome};
ghost use Rattle.std.specs.Option.{option_copied};
ghost use Rattle.mp_core.specs.Machine.{opening, claimed_by, reissued, next_for, Reports, lost_by, answer_of, issue_reply, issue_state};
ghost use Rattle.mp_core.specs.Nodes.{claim_by};
ghost use Rattle.mp_core.specs.Cores.{moved, started};
ghost use Rattle.mp_core.specs.Sound.{IsSoundCore, TicketHas};
ghost use Rattle.mp_strategy.specs.Laws.{IsSound, IsGood};
ghost use Rattle.mp_strategy.specs.Strategies.{Evals};
ghost use Rattle.mp_strategy.specs.Works.{IsWork};

use crate::state::{CoreState, Parcel, Ticket};
use crate::works::same_work;
use mp_logic::{Logic, NoMemory};
use mp_strategy::{Outcome, Problem, Work, copy_work};
use std::alloc::Global;
use std::marker::Model;

/// What a worker that asks for a job is given.
#[derive(Drop)]
pub enum Claimed<G> {
    /// A job, under an epoch of its own.
    Ticket(Ticket<G>),
    /// There is no such job.
    Nothing,
    /// The root is done.
    Finished,
    /// The last epoch, `2^64 - 1`, was drawn.
    Spent,
}

/// What becomes of a parcel that is reported.
#[derive(Drop)]
pub enum Reported<G> {
    /// The parcel is in.
    Taken,
    /// The parcel is in, and for want of memory the next call settles on. A core of one job never answers this.
    TakenUnsettled,
    /// No job is claimed under the parcel's epoch with its work, or none is once what was left over is settled. The
    /// parcel comes back, and nothing changed but for those settlements, of which a core of one job has none.
    Stale(Parcel<G>),
    /// Want of memory: the parcel comes back. A core of one job never answers this.
    NoMemory(Parcel<G>),
}

/// Where the root job stands.
#[derive(Drop)]
pub(crate) enum Root<G> {
    Todo,
    Claimed { epoch: u64, who: u32 },
    Done(Outcome<G>),
}

/// The job of a root work, handed out to one worker at a time. Contracts see its problem and the state
/// of the machine that it is, which has the shape of a core's: each work in it may be given to calls, each goal of an
/// outcome in it is good, and no epoch stands in two of its leaves.
#[derive(Drop)]
pub struct Core<'p, L: Logic> {
    problem: &'p Problem<'p, L>,
    work: Work<L::Goal>,
    root: Root<L::Goal>,
    drawn: u64,
}

impl<'p, L: Logic> Model for Core<'p, L> {
    ghost use Rattle.mp_core.specs.declared.state.CoreState.{CoreState};
    ghost use Rattle.mp_core.specs.contracts.state.CoreState as core_state;
    ghost use borrow.Follows.Maybe.{bare};
    ghost use Rattle.mp_core.specs.Cores.{node_at};
    ghost use Rattle.mp_core.specs.Sound.{HasShape};

    ghost Value = { CoreState L L.Just L.Goal };

    ghost coded = { (core_state.the_row (bare L L.code) (bare L.Just L.Just.code) (bare L.Goal L.Goal.code)).coded };

    ghost view = { λ c. record { problem = c.problem.now; machine = record { work = c.work; node = node_at c.root c.work; drawn = c.drawn } } };

    ghost invariant = { λ c. HasShape L.meaning c.problem.now (record { work = c.work; node = node_at c.root c.work; drawn = c.drawn }) };
}

impl<'p, L: Logic> Core<'p, L> {
    /// A core whose root is to do, and of which no epoch was drawn. It takes no memory.
    pub fn start(problem: &'p Problem<'p, L>, work: Work<L::Goal>) -> Result<Core<'p, L>, NoMemory>
        requires work { IsWork L.meaning problem.now work }
        ensures started { MatchResult result (λ core. core ≡ started problem.now (opening work)) (λ _. ⊥) }
        ensures sound { IfOk result (IsSoundCore L.meaning) }
    {
        Ok(Core {
            problem,
            work,
            root: Root::Todo,
            drawn: 0,
        })
    }

    /// The root becomes the worker's under the next epoch.
    fn issue(&mut self, alloc: Global, who: u32) -> Result<Claimed<L::Goal>, NoMemory>
        ensures reply { IfOk result (λ r. r ≡ issue_reply self.old.machine self.old.machine.work) }
        ensures state { MatchResult result (λ _. self.new ≡ moved self.old (issue_state self.old.machine (claim_by self.old.machine.work (self.old.machine.drawn + 1) who))) (λ _. self.new ≡ self.old) }
    {
        if self.drawn == u64::MAX {
            return Ok(Claimed::Spent);
        }
        let problem = self.problem;
        let work = copy_work(alloc, problem.logic, &self.work)?;
        self.drawn += 1;
        self.root = Root::Claimed {
            epoch: self.drawn,
            who,
        };
        Ok(Claimed::Ticket(Ticket {
            epoch: self.drawn,
            work,
        }))
    }

    /// Hands the leftmost job that is to do to the worker. Finished exactly where the root is done; else
    /// Nothing exactly where no job is to do; else Spent exactly where epoch `2^64 - 1` was drawn. After
    /// NoMemory nothing is claimed, and the next epoch is as before.
    pub fn claim(&mut self, alloc: Global, who: u32) -> Result<Claimed<L::Goal>, NoMemory>
        ensures reply { IfOk result (λ r. r ≡ (claimed_by self.old.machine who).0) }
        ensures state { MatchResult result (λ _. self.new ≡ moved self.old (claimed_by self.old.machine who).1) (λ _. self.new ≡ self.old) }
        ensures sound { IsSoundCore L.meaning self.old → IsSoundCore L.meaning self.new }
        ensures work { IfOk result (TicketHas (IsWork L.meaning self.old.problem)) }
    {
        match &self.root {
            Root::Todo => self.issue(alloc, who),
            Root::Claimed { .. } => Ok(Claimed::Nothing),
            Root::Done(_) => Ok(Claimed::Finished),
        }
    }

    /// Makes the claim with the least epoch worker 0's, under the next epoch. Finished exactly where the
    /// root is done; else Nothing exactly where no job is claimed; else Spent exactly where epoch
    /// `2^64 - 1` was drawn. After NoMemory nothing is claimed anew, and the next epoch is as before.
    pub fn reissue(&mut self, alloc: Global) -> Result<Claimed<L::Goal>, NoMemory>
        ensures reply { IfOk result (λ r. r ≡ (reissued self.old.machine).0) }
        ensures state { MatchResult result (λ _. self.new ≡ moved self.old (reissued self.old.machine).1) (λ _. self.new ≡ self.old) }
        ensures sound { IsSoundCore L.meaning self.old → IsSoundCore L.meaning self.new }
        ensures work { IfOk result (TicketHas (IsWork L.meaning self.old.problem)) }
    {
        match &self.root {
            Root::Todo => Ok(Claimed::Nothing),
            Root::Claimed { .. } => self.issue(alloc, 0),
            Root::Done(_) => Ok(Claimed::Finished),
        }
    }

    /// A claim of worker 0, and where that is Nothing a reissue. It never answers Nothing: a root that
    /// isn't done is to do or claimed. After NoMemory nothing is claimed, and the next epoch is as before.
    pub fn next_for_caller(&mut self, alloc: Global) -> Result<Claimed<L::Goal>, NoMemory>
        ensures reply { IfOk result (λ r. r ≡ (next_for self.old.machine).0) }
        ensures state { MatchResult result (λ _. self.new ≡ moved self.old (next_for self.old.machine).1) (λ _. self.new ≡ self.old) }
        ensures never_nothing { IfOk result (λ r. r ≢ Claimed.Nothing) }
        ensures sound { IsSoundCore L.meaning self.old → IsSoundCore L.meaning self.new }
        ensures work { IfOk result (TicketHas (IsWork L.meaning self.old.problem)) }
    {
        match self.claim(alloc, 0)? {
            Claimed::Nothing => self.reissue(alloc),
            other => Ok(other),
        }
    }

    /// Takes the parcel where a job is claimed under its epoch with its work, also once what was left over is
    /// settled: the job is done then, with the parcel's outcome. Else the parcel is Stale and comes back, and
    /// nothing changes but for those settlements, of which a core of one job has none. It takes no memory.
    pub fn report(&mut self, parcel: Parcel<L::Goal>) -> Reported<L::Goal>
        requires { Evals L.meaning self.old.problem parcel.work parcel.outcome }
        ensures state { self.new ≡ moved self.old self.new.machine }
        ensures reply { Reports self.old.machine parcel result self.new.machine }
        ensures sound { IsSoundCore L.meaning self.old → IsSoundCore L.meaning self.new }
    {
        let problem = self.problem;
        problem.known();
        let Root::Claimed { epoch, .. } = &self.root else {
            return Reported::Stale(parcel);
        };
        if *epoch != parcel.epoch || !same_work(problem.logic, &parcel.work, &self.work) {
            return Reported::Stale(parcel);
        }
        self.root = Root::Done(parcel.outcome);
        Reported::Taken
    }

    /// Gives back each claim of the worker, and answers their number.
    pub fn lose(&mut self, who: u32) -> u64
        requires { 0 < who }
        ensures reply { result ≡ (lost_by self.old.machine who).0 }
        ensures state { self.new ≡ moved self.old (lost_by self.old.machine who).1 }
        ensures sound { IsSoundCore L.meaning self.old → IsSoundCore L.meaning self.new }
    {
        match &self.root {
            Root::Claimed { who: holder, .. } if *holder == who => {
                self.root = Root::Todo;
                1
            }
            _ => 0,
        }
    }

    /// The root's outcome: Some exactly where the root is done.
    pub fn answer(&self) -> Option<&Outcome<L::Goal>>
        ensures answer { option_copied result ≡ answer_of self.now.machine }
        ensures sound { IsSoundCore L.meaning self.now → IfSome result (λ o. Evals L.meaning self.now.problem self.now.machine.work o.now) }
        ensures valid { IsSoundCore L.meaning self.now → IfSome result (λ o. IsSound L.meaning self.now.problem self.now.machine.work o.now) }
        ensures good { IfSome result (λ o. IsGood (L.meaning self.now.problem.logic) o.now) }
    {
        match &self.root {
            Root::Done(outcome) => Some(outcome),
            _ => None,
        }
    }

    /// The root's outcome, with nothing copied: Some exactly where the root is done.
    pub fn into_answer(self) -> Option<Outcome<L::Goal>>
        ensures answer { result ≡ answer_of self.entry.machine }
        ensures sound { IsSoundCore L.meaning self.entry → IfSome result (λ o. Evals L.meaning self.entry.problem self.entry.machine.work o) }
        ensures valid { IsSoundCore L.meaning self.entry → IfSome result (λ o. IsSound L.meaning self.entry.problem self.entry.machine.work o) }
        ensures good { IfSome result (λ o. IsGood (L.meaning self.entry.problem.logic) o) }
    {
        let Core { root, .. } = self;
        match root {
            Root::Done(outcome) => Some(outcome),
            _ => None,
        }
    }

    /// The problem that the core was started on.
    pub fn problem(&self) -> &'p Problem<'p, L>
        ensures { result.now ≡ self.now.problem }
    {
        self.problem
    }

    /// The root work.
    pub fn work(&self) -> &Work<L::Goal>
        ensures value { result.now ≡ self.now.machine.work }
        ensures fits { IsWork L.meaning self.now.problem result.now }
    {
        &self.work
    }
}
