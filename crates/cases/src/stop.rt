//! Why a file of cases isn't read.

use std::alloc::{AllocError, AllocFailed};

/// Why a line isn't read.
#[derive(Clone, Copy)]
pub enum Why {
    /// It isn't in the format; for a person, what is wrong.
    Bad(&'static str),
    /// There is no memory for what it says.
    NoMemory,
}

impl From<AllocError> for Why {
    fn from(_error: AllocError) -> Why {
        Why::NoMemory
    }
}

impl<T: Drop> From<AllocFailed<T>> for Why {
    fn from(_error: AllocFailed<T>) -> Why {
        Why::NoMemory
    }
}

/// Why a file isn't read.
#[derive(Clone, Copy, Drop)]
pub enum Stop {
    /// The line of this number, counted from 1, isn't in the format.
    Fault { line: u64, why: &'static str },
    /// There is no memory for its cases.
    NoMemory,
}

impl From<AllocError> for Stop {
    fn from(_error: AllocError) -> Stop {
        Stop::NoMemory
    }
}

impl<T: Drop> From<AllocFailed<T>> for Stop {
    fn from(_error: AllocFailed<T>) -> Stop {
        Stop::NoMemory
    }
}
