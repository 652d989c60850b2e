//! Why the service stops early.

use span_tracing::{BuildError, CallError, OpenStackError, Refusal, SeatError};
use std::alloc::{AllocError, AllocFailed};
use std::io;
use thiserror::Error;
use tracing_appender::StartError;

/// Why the service stops early.
#[derive(Clone, Copy, Debug, PartialEq, Eq, Error)]
pub(crate) enum Stop {
    #[error("out of memory")]
    OutOfMemory,
    /// A log file wasn't opened.
    #[error("{0}")]
    Files(BuildError),
    /// The thread that writes a log file wasn't started.
    #[error("{0}")]
    Worker(StartError),
    /// The trace wasn't opened.
    #[error("{0}")]
    Open(OpenStackError),
    /// A lane got no seat.
    #[error("{0}")]
    Seat(SeatError),
    /// The trace refused a step.
    #[error("{0}")]
    Call(CallError),
    #[error("the seats don't have the whole journal")]
    Torn,
    #[error("a log file can't be read, or the output not written")]
    Io,
    #[error("lines are missing")]
    Missing,
    #[error("usage: examples_service [TEXT-DIRECTORY JSON-DIRECTORY]")]
    Usage,
}

impl From<AllocError> for Stop {
    fn from(_: AllocError) -> Stop {
        Stop::OutOfMemory
    }
}

impl<T: Drop> From<AllocFailed<T>> for Stop {
    fn from(_: AllocFailed<T>) -> Stop {
        Stop::OutOfMemory
    }
}

impl From<Refusal> for Stop {
    fn from(refusal: Refusal) -> Stop {
        Stop::Call(CallError::Refused(refusal))
    }
}

impl From<CallError> for Stop {
    fn from(error: CallError) -> Stop {
        Stop::Call(error)
    }
}

impl From<OpenStackError> for Stop {
    fn from(error: OpenStackError) -> Stop {
        Stop::Open(error)
    }
}

impl From<SeatError> for Stop {
    fn from(error: SeatError) -> Stop {
        Stop::Seat(error)
    }
}

impl From<io::Error> for Stop {
    fn from(_: io::Error) -> Stop {
        Stop::Io
    }
}
