//! What remembers the default that a lane had before.
ghost use Rattle.std.specs.Prelude.{◌≡◌};

use crate::hub::LaneDefault;
use thiserror::Error;

/// Remembers the default that a lane had before another one was set. [`Hub::reset`](crate::Hub::reset)
/// takes it; a guard that is let go otherwise leaves the lane as it is.
#[derive(Debug, Drop)]
pub struct DefaultGuard {
    pub(crate) lane: u64,
    pub(crate) before: LaneDefault,
}

impl DefaultGuard {
    /// The number of the lane whose default it remembers.
    pub fn lane(&self) -> u64
        ensures { result ≡ self.now.lane }
    {
        self.lane
    }

    /// The default that the lane had before.
    pub fn before(&self) -> LaneDefault
        ensures { result ≡ self.now.before }
    {
        self.before
    }
}

/// The guard is of another lane. It comes back.
#[derive(Debug, Drop, Error)]
#[error("the guard is of another lane")]
pub struct WrongLane(pub DefaultGuard);
