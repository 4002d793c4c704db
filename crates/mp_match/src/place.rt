use mp_logic::List;
use mp_schema::{CtxVal, MetaVals, ParamVals};

/// A place in a schema: what is matched on its left.
#[derive(Drop)]
pub(crate) struct Position {
    /// The number of variables that each value may use.
    pub ambient: u32,
    /// The contexts before the place.
    pub ctxs: List<CtxVal>,
    /// The level of each named hypothesis before the place.
    pub named: List<u32>,
    /// The number of hypotheses of the goal before the place, and so the scope of the term there.
    pub next: u32,
}

/// The values of second-order variables and holes that are found so far.
#[derive(Drop)]
pub(crate) struct Found {
    /// The second-order variables' values.
    pub metas: MetaVals,
    /// The holes' values.
    pub params: ParamVals,
}

/// What is matched before a place, and found so far.
#[derive(Drop)]
pub(crate) struct Walk {
    /// The place.
    pub place: Position,
    /// What is found.
    pub found: Found,
}
