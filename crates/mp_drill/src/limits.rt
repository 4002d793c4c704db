/// The greatest number of a worker. Worker 0 is the caller.
pub const LAST_WORKER: u32 = 64;

/// The number of workers.
pub const WORKERS: u32 = 65;

/// The most units of a send.
pub const MOST_UNITS: u32 = 1_000_000;

/// The units of a send that doesn't say them.
pub const UNITS: u32 = 256;
