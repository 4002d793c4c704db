use mp_strategy::{Outcome, Work};

/// What is left of a work, as contracts see it: one job. No value of it is made.
pub enum Node<G> {
    /// Nobody works on the job.
    Todo(Work<G>),
    /// The job is the worker's, under the epoch of the worker's ticket.
    Claimed { epoch: u64, who: u32, work: Work<G> },
    /// The job is done.
    Done(Outcome<G>),
}
