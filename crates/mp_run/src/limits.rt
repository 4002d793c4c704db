/// The limit on the length of a theory, a script or a schedule, in bytes.
pub const LONGEST_FILE: u64 = 1_048_576;

/// The limit on the length of a file of trees, of jobs or of a checkpoint, in bytes.
pub const LONGEST_TREES: u64 = 67_108_864;
