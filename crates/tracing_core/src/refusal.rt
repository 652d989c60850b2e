//! Why a hub refuses a command.
use thiserror::Error;

/// Why a hub gives no further handle.
#[derive(Clone, Copy, Debug, PartialEq, Eq, Error)]
pub enum HandleError {
    /// No subscriber of this hub has the handle.
    #[error("unknown handle")]
    Unknown,
    /// The subscriber has as many handles as can be counted.
    #[error("too many handles")]
    TooMany,
}

/// Why a hub doesn't take a subscriber, which comes back.
#[derive(Debug, Drop, Error)]
pub enum AddError<S> {
    /// There was no memory for it.
    #[error("out of memory")]
    OutOfMemory(S),
    /// Every number was given.
    #[error("no number is left")]
    NumbersSpent(S),
}

/// Why a hub doesn't take a callsite, which comes back.
#[derive(Debug, Drop, Error)]
pub enum RegisterError<C> {
    /// The hub has a callsite with this identifier.
    #[error("the identifier is taken")]
    Taken(C),
    /// There was no memory for it.
    #[error("out of memory")]
    OutOfMemory(C),
}

/// The subscriber has as many handles as can be counted.
#[derive(Clone, Copy, Debug, PartialEq, Eq, Error)]
#[error("too many handles")]
pub struct TooManyHandles(pub(crate) ());

/// Why a hub doesn't set the global default.
#[derive(Clone, Copy, Debug, PartialEq, Eq, Error)]
pub enum SetGlobalDefaultError {
    /// It was set before, and stays.
    #[error("a global default has already been set")]
    AlreadySet,
    /// There is no further handle for the default to hold.
    #[error("{0}")]
    Handle(HandleError),
}

/// Why a hub doesn't set the default of a lane.
#[derive(Clone, Copy, Debug, PartialEq, Eq, Error)]
pub enum SetDefaultError {
    /// No lane that runs has this number.
    #[error("unknown lane")]
    UnknownLane,
    /// There is no further handle for the default to hold.
    #[error("{0}")]
    Handle(HandleError),
}

/// No lane that runs has this number.
#[derive(Clone, Copy, Debug, PartialEq, Eq, Error)]
#[error("unknown lane")]
pub struct UnknownLane(pub(crate) ());
