use mp_logic::List;
use mp_words::{Named, RawName, RawNumber};

/// An event as it is written.
#[derive(Clone, Copy, Debug, PartialEq, Eq)]
pub enum RawEvent {
    Claim(RawNumber),
    Send {
        who: RawNumber,
        units: Option<RawNumber>,
    },
    Again(RawNumber),
    Die(RawNumber),
    Lose(RawNumber),
    Reissue,
}

/// A goal's name and its events as they are written.
#[derive(Drop)]
pub struct RawSection {
    pub goal: RawName,
    pub events: List<RawEvent>,
}

impl Named for RawSection {
    ghost named = { λ s. s.goal };

    fn named(&self) -> RawName {
        self.goal
    }
}
