/// What is wrong with a rule or a rewrite, in the order in which it is told.
#[derive(Clone, Copy, Debug, PartialEq, Eq)]
pub enum SchemaFault {
    /// More than 16 premises, 15 conditions, 200 items of a schema, 16 parameters of an operator, 8 binders of
    /// a subterm, 8 arguments or 8 contexts in one list.
    TooMany,
    /// A node of a pattern at depth over 200. The arguments of a second-order variable or a context are one
    /// deeper than it is.
    TooDeep,
    /// A schema, a condition, a redex or a contractum of more than 20,000 nodes. A second-order variable is a
    /// node, and a context is none.
    TooBig,
    /// A variable that is no binder or named hypothesis before it.
    UnboundVar,
    /// A context in a list that is no item before it in the same schema; a context of a premise that isn't in
    /// the conclusion; any context in a rewrite.
    DanglingContext,
    /// A context that is an item a second time in one schema, or stands a second time in one list.
    TwiceContext,
    /// A third context in a conclusion.
    TooManyContexts,
    /// A named hypothesis of a conclusion with two contexts that doesn't stand between them.
    MisplacedHyp,
    /// In a conclusion or a redex an argument that isn't a variable, or the same variable again in one list.
    NotAPattern,
    /// A second-order variable or a context with another list of contexts or another number of arguments than
    /// at its first occurrence in the text; one name as both.
    BadUse,
    /// A hole in a premise, a condition or a contractum that isn't in the conclusion or the redex.
    UnboundParam,
    /// A second-order variable of a condition or a contractum that isn't in the redex.
    UnboundMeta,
}
