//! The limits of schemata, rules and rewrites. Their terms keep those of `mp_term::limits` too.

/// The most premises of a rule.
pub const MOST_PREMISES: u64 = 16;

/// The most conditions of a rewrite.
pub const MOST_CONDITIONS: u64 = 15;

/// The most items of a schema.
pub const MOST_ITEMS: u64 = 200;

/// The most contexts in a list.
pub const MOST_CONTEXTS: u64 = 8;

/// The most arguments of a second-order variable or a context.
pub const MOST_ARGUMENTS: u64 = 8;
