/// The greatest fuel of a work: so many steps may a path of its tree have.
pub const MOST_FUEL: u32 = 400;

/// How often a strategy repeats at most.
pub const MOST_REPEATS: u32 = 400;

/// The greatest depth of a strategy.
pub const MOST_DEPTH: u8 = 64;

/// The greatest number of entries of a table of strategies.
pub const MOST_NODES: usize = 4096;

/// The greatest number of branches of a race.
pub const MOST_BRANCHES: u64 = 8;
