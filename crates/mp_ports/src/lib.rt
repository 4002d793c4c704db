//! The outside: shelves of files that are read, and sinks that bytes are put into. Each counts its
//! faults, so that a caller's contract can say that a fault is answered only where one was counted.
#![tactic(auto)]

mod files;
mod memory;
mod output;
mod ports;

pub use files::FileShelf;
pub use memory::{MemShelf, MemSink};
pub use output::StdSink;
pub use ports::{PutFailed, ReadErr, Shelf, Sink};
