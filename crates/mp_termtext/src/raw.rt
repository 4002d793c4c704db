use mp_logic::{List, Sym};
use mp_term::Param;
use mp_words::RawName;

/// A parameter as it is written, and its first byte.
#[derive(Clone, Copy, Debug, PartialEq, Eq)]
pub struct RawParam {
    pub value: Param,
    pub at: u32,
}

/// A subterm as it is written, after its binders.
#[cycle(raw)]
#[derive(Drop)]
pub struct RawBound {
    pub binders: List<RawName>,
    pub body: RawTerm,
}

/// A term as it is written, with names in place of levels. Each node knows its first byte.
#[cycle(raw)]
#[derive(Drop)]
pub enum RawTerm {
    /// A variable; `numbered` is `k` where its name is `x` followed by `k`, as in `Word::SmallVar`.
    Var {
        name: Sym,
        numbered: Option<u32>,
        at: u32,
    },
    Op {
        name: Sym,
        params: List<RawParam>,
        subs: List<RawBound>,
        at: u32,
    },
}

/// A hypothesis as it is written, and the first byte of its name.
#[derive(Drop)]
pub struct RawHyp {
    pub name: Sym,
    pub term: RawTerm,
    pub at: u32,
}

/// A sequent as it is written, and its first byte.
#[derive(Drop)]
pub struct RawSequent {
    pub hyps: List<RawHyp>,
    pub concl: RawTerm,
    pub at: u32,
}
