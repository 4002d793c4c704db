use mp_logic::{List, Sym};

/// What happens to a core. Workers are 0 to 64; worker 0 is the caller, which neither dies nor is lost.
#[derive(Clone, Copy, Debug, PartialEq, Eq)]
pub enum Event {
    /// The worker claims a job. A ticket replaces its hand.
    Claim(u32),
    /// The worker does so many units of the job in its hand, 1 to 1,000,000, and reports. Its hand is empty
    /// then, and it keeps a copy of the parcel as its last one.
    Send { who: u32, units: u32 },
    /// The worker reports a copy of its last parcel.
    Again(u32),
    /// The worker drops its hand and its last parcel. The core isn't told.
    Die(u32),
    /// The core gives back what the worker has claimed. The worker keeps its hand and its last parcel.
    Lose(u32),
    /// The oldest claim becomes worker 0's. A ticket replaces the hand of worker 0.
    Reissue,
}

/// What an event is answered.
#[derive(Clone, Copy, Debug, PartialEq, Eq)]
pub enum Reply {
    /// A ticket, by its epoch.
    Ticket(u64),
    /// There is no such job.
    Nothing,
    /// The root is done.
    Finished,
    /// Every epoch was drawn.
    Spent,
    /// The parcel is in.
    Taken,
    /// No job is claimed under the parcel's epoch with its work.
    Stale,
    /// So many claims were given back.
    Back(u64),
    /// The worker is dead.
    Gone,
    /// The worker has nothing to report.
    Empty,
}

/// The events of a goal.
#[derive(Drop)]
pub struct Section {
    pub goal: Sym,
    pub events: List<Event>,
}
