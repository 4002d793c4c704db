use crate::status::Status;
use mp_logic::Text;

/// What a piece says of the run.
#[derive(Clone, Copy, Debug, PartialEq, Eq)]
pub enum Verdict {
    /// Nothing is open.
    Closed,
    /// Something failed or is open.
    Open,
    /// The run ends after this piece, with this status.
    Ends(Status),
}

/// A text that is put by one call, and its verdict.
#[derive(Drop)]
pub struct Piece {
    pub text: Text,
    pub verdict: Verdict,
}
