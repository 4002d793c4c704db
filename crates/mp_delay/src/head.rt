use crate::Delayed;
use mp_logic::{List, Sym};
use mp_term::Param;

/// A subterm of a delayed term, and how many variables it binds.
#[derive(Drop)]
pub struct DelayedBound {
    /// The number of variables that are bound in the body.
    pub binders: u32,
    /// The subterm.
    pub body: Delayed,
}

/// The outermost layer of a delayed term.
#[derive(Drop)]
pub enum Head {
    /// The variable with this level.
    Var(u32),
    /// An operator with its parameters and its subterms, in order.
    Op {
        /// The operator's name.
        op: Sym,
        /// The parameters.
        params: List<Param>,
        /// The subterms with their binders.
        subs: List<DelayedBound>,
    },
}
