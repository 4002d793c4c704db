use mp_logic::{List, Sym};
use mp_termtext::RawParam;
use mp_words::RawName;

/// A parameter of a pattern as it is written.
#[derive(Clone, Copy, Debug, PartialEq, Eq)]
pub enum RawParamPat {
    /// A number or a string.
    Lit(RawParam),
    /// The hole of this name, and the first byte of the `@` before it.
    Hole { name: RawName, at: u32 },
}

/// A subterm of a pattern as it is written, after its binders.
#[cycle(raw)]
#[derive(Drop)]
pub struct RawPatternBound {
    pub binders: List<RawName>,
    pub body: RawPattern,
}

/// A pattern as it is written, with names in place of levels. Each node knows its first byte.
#[cycle(raw)]
#[derive(Drop)]
pub enum RawPattern {
    Var {
        name: Sym,
        at: u32,
    },
    Op {
        name: Sym,
        params: List<RawParamPat>,
        subs: List<RawPatternBound>,
        at: u32,
    },
    /// A second-order variable with its list of contexts and its arguments.
    Meta {
        name: Sym,
        ctxs: List<RawName>,
        args: List<RawPattern>,
        at: u32,
    },
}
