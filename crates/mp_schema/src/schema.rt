use crate::Pattern;
use mp_logic::{List, Sym};

/// An item of a schema: a context, or a hypothesis with a name.
#[derive(Drop)]
pub enum Item {
    /// A context variable. Its hypotheses may use the variables of its contexts, its arguments, and each those
    /// before it in the context.
    Ctx {
        /// The context's name.
        name: Sym,
        /// The contexts whose variables the hypotheses may use, in order.
        ctxs: List<Sym>,
        /// The arguments, in order.
        args: List<Pattern>,
    },
    /// A named hypothesis.
    Hyp(Pattern),
}

/// A sequent with contexts and second-order variables.
#[derive(Drop)]
pub struct Schema {
    /// The items, from left to right.
    pub items: List<Item>,
    /// The conclusion.
    pub concl: Pattern,
}
