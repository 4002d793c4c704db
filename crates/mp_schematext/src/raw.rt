use mp_logic::{List, Sym};
use mp_patterntext::RawPattern;
use mp_words::RawName;

/// An item of a schema as it is written, and its first byte.
#[derive(Drop)]
pub enum RawItem {
    /// A context with its list of contexts and its arguments.
    Ctx {
        name: RawName,
        ctxs: List<RawName>,
        args: List<RawPattern>,
        at: u32,
    },
    /// A hypothesis with its name, which is its first word.
    Hyp {
        name: Sym,
        pattern: RawPattern,
        at: u32,
    },
}

/// A schema as it is written, and its first byte.
#[derive(Drop)]
pub struct RawSchema {
    pub items: List<RawItem>,
    pub concl: RawPattern,
    pub at: u32,
}

/// A rule as it is written.
#[derive(Drop)]
pub struct RawRule {
    pub name: RawName,
    pub premises: List<RawSchema>,
    pub concl: RawSchema,
}
