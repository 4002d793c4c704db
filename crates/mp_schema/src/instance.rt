use crate::{MetaVals, ParamVals};
use mp_logic::{List, Sym};
use mp_term::{Param, Term};

/// The value of a context: the hypotheses that stand for it.
#[derive(Drop)]
pub struct CtxVal {
    /// The context's name.
    pub name: Sym,
    /// The level of its first variable in the goal.
    pub first: u32,
    /// Its hypotheses. Number `j`, counted from 0, is in the scope of the variables of its contexts, its
    /// arguments and the context's own first `j` variables, in this order.
    pub hyps: List<Term>,
}

/// The value of a second-order variable.
#[derive(Drop)]
pub struct MetaVal {
    /// The second-order variable's name.
    pub name: Sym,
    /// The scope of its term: the variables of the ambient scope, of its contexts, and its arguments.
    pub scope: u32,
    /// The term.
    pub body: Term,
}

/// The value of a parameter hole.
#[derive(Clone, Copy, Debug, PartialEq, Eq)]
pub struct ParamVal {
    /// The hole's name.
    pub name: Sym,
    /// The parameter.
    pub value: Param,
}

/// An instance: a value for each context, second-order variable and hole. Where a name has several entries,
/// the first one is its value.
#[derive(Drop)]
pub struct Inst {
    /// The variables that each value may use: 0 for a rule, and the scope of the place for a rewrite.
    pub ambient: u32,
    /// The contexts' values.
    pub ctxs: List<CtxVal>,
    /// The second-order variables' values.
    pub metas: MetaVals,
    /// The holes' values.
    pub params: ParamVals,
}
