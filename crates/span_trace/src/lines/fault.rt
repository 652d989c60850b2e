//! Why a line is not read.

use std::alloc::{AllocError, AllocFailed};
use thiserror::Error;

/// Why a line of the input is not read.
#[derive(Clone, Copy, Debug, PartialEq, Eq, Error)]
pub enum LineFault {
    /// The line is JSON, and has a number that is no whole number of 64 bits.
    #[error("float number")]
    FloatNumber,
    /// The line is no setup call and no step.
    #[error("not readable")]
    NotReadable,
    /// There was no memory to read the line.
    #[error("out of memory")]
    OutOfMemory,
}

impl From<AllocError> for LineFault {
    fn from(_: AllocError) -> LineFault {
        LineFault::OutOfMemory
    }
}

impl<T: Drop> From<AllocFailed<T>> for LineFault {
    fn from(_: AllocFailed<T>) -> LineFault {
        LineFault::OutOfMemory
    }
}
