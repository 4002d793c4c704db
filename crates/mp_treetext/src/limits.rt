/// The greatest depth of a line of a tree.
pub const MOST_LINE_DEPTH: u64 = 400;
