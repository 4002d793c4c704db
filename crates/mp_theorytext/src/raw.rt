use mp_logic::List;
use mp_patterntext::RawPattern;
use mp_schematext::RawRule;
use mp_words::RawName;

/// A rewrite as it is written.
#[derive(Drop)]
pub struct RawRewrite {
    /// The rewrite's name.
    pub name: RawName,
    /// The conditions, in the order of the text.
    pub conds: List<RawPattern>,
    /// What is replaced.
    pub redex: RawPattern,
    /// What stands in its place.
    pub contractum: RawPattern,
}

/// A law of a theory as it is written.
#[derive(Drop)]
pub enum RawLaw {
    /// A rule.
    Rule(RawRule),
    /// A rewrite.
    Rewrite(RawRewrite),
}
