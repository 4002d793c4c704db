use mp_logic::{List, Sym};
use mp_term::Param;

/// A parameter of an operator in a pattern.
#[derive(Clone, Copy, Debug, PartialEq, Eq)]
pub enum ParamPat {
    /// This parameter.
    Lit(Param),
    /// A hole, by its name: it stands for one parameter.
    Hole(Sym),
}

/// A subterm of a pattern, and how many variables it binds.
#[cycle(pattern)]
#[derive(Drop)]
pub struct PBound {
    /// The number of variables that are bound in the body.
    pub binders: u32,
    /// The subterm.
    pub body: Pattern,
}

/// A term with second-order variables. Its variables are levels: the named hypotheses before its place, in
/// order, and then the binders above it. Contexts have no levels.
#[cycle(pattern)]
#[derive(Drop)]
pub enum Pattern {
    /// The variable with this level.
    Var(u32),
    /// An operator with its parameters and its subterms, in order.
    Op {
        /// The operator's name.
        op: Sym,
        /// The parameters and holes, in order.
        params: List<ParamPat>,
        /// The subterms with their binders.
        subs: List<PBound>,
    },
    /// A second-order variable. Its value may use the variables of its contexts and its arguments, and nothing
    /// else.
    Meta {
        /// The second-order variable's name.
        name: Sym,
        /// The contexts whose variables the value may use, in order.
        ctxs: List<Sym>,
        /// The arguments, in order.
        args: List<Pattern>,
    },
}
