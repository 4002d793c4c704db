use mp_logic::{List, Sym};
use mp_schema::Pattern;

/// A conditional equation: where the same instances of the conditions hold, an instance of the redex may be replaced by
/// that of the contractum.
#[derive(Drop)]
pub struct Rewrite {
    /// The rewrite's name.
    pub name: Sym,
    /// The conditions, in order. There are at most 15.
    pub conds: List<Pattern>,
    /// What is replaced.
    pub redex: Pattern,
    /// What stands in its place.
    pub contractum: Pattern,
}
