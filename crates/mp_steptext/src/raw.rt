use mp_logic::List;
use mp_words::{Named, RawName, RawNumber};

/// What a step gives for a need as it is written: the need's name, and a body.
#[derive(Drop)]
pub struct RawGiven<R> {
    pub name: RawName,
    pub body: R,
    /// The first byte of the body.
    pub at: u32,
}

/// A step by a rule as it is written.
#[derive(Drop)]
pub struct RawRuleStep<R> {
    pub rule: RawName,
    /// The number after `at`, where it stands.
    pub place: Option<RawNumber>,
    pub given: List<RawGiven<R>>,
}

/// Which term of the goal a step rewrites in, as it is written.
#[derive(Clone, Copy, Debug, PartialEq, Eq)]
pub enum RawPlace {
    /// The conclusion.
    Concl,
    /// The hypothesis of this number, counted from 1.
    Hyp(RawNumber),
}

/// A step by a rewrite as it is written.
#[derive(Drop)]
pub struct RawRewriteStep {
    pub rewrite: RawName,
    pub place: RawPlace,
    /// The way from that term to the subterm that is replaced: at each operator the number of the subterm, counted from 1.
    pub address: List<RawNumber>,
}

/// A step as it is written.
#[derive(Drop)]
pub enum RawStep<R> {
    /// By a rule.
    Rule(RawRuleStep<R>),
    /// By a rewrite.
    Rewrite(RawRewriteStep),
}

impl<R> Named for RawGiven<R> {
    ghost named = { λ g. g.name };

    fn named(&self) -> RawName {
        self.name
    }
}
