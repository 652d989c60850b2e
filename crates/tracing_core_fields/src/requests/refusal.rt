//! Why a subscriber refuses a request.
use thiserror::Error;

/// A subscriber's refusal of a request.
#[derive(Clone, Copy, Debug, PartialEq, Eq, Error)]
pub enum RequestError {
    /// There was no memory for what the request makes.
    #[error("out of memory")]
    OutOfMemory,
    /// No open span has the id.
    #[error("unknown span")]
    UnknownSpan,
    /// No open span has the id that was named as the parent.
    #[error("unknown parent")]
    UnknownParent,
    /// Every id was given.
    #[error("no id is left")]
    IdsSpent,
    /// The span has as many handles as can be counted.
    #[error("too many handles")]
    TooManyHandles,
}
