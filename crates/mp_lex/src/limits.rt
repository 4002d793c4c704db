//! The limits of tokens and brackets.

/// The most bytes of a name, without the `'` of a variable.
pub const LONGEST_NAME: usize = 64;

/// The most bytes between the quotes of a string, as it is written.
pub const LONGEST_STRING: usize = 256;

/// The most brackets that are open at once.
pub const MOST_OPEN: u64 = 250;
