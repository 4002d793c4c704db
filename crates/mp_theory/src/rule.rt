use mp_logic::{List, Sym};
use mp_schema::Schema;

/// A second-order variable that occurs in premises alone: each step by the rule has to give its value.
#[derive(Drop)]
pub struct Need {
    /// The second-order variable's name.
    pub name: Sym,
    /// The contexts whose variables the value may use, in order.
    pub ctxs: List<Sym>,
    /// The number of its arguments.
    pub arity: u32,
}

/// To prove an instance of the conclusion it is enough to prove the same instances of the premises.
#[derive(Drop)]
pub struct Rule {
    /// The rule's name.
    pub name: Sym,
    /// The premises, in order. There are at most 16.
    pub premises: List<Schema>,
    /// The conclusion.
    pub concl: Schema,
    /// What has to be given, in the order of first occurrence in the premises.
    pub needs: List<Need>,
}
