//! The limits of terms and sequents.

/// The greatest depth of a term.
pub const MOST_DEPTH: u64 = 200;

/// The most variables and operators of a sequent, and of a term by itself.
pub const MOST_NODES: u64 = 20_000;

/// The most hypotheses of a sequent.
pub const MOST_HYPOTHESES: u64 = 200;

/// The most parameters of an operator.
pub const MOST_PARAMETERS: u64 = 16;

/// The most variables that a subterm binds.
pub const MOST_BINDERS: u32 = 8;
