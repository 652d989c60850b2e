//! What is told of the time that calls take.

/// The nanoseconds until the last call came back, and until nothing was left to do.
#[derive(Clone, Copy, Debug)]
pub(crate) struct Times {
    pub(crate) calls: u128,
    pub(crate) all: u128,
}

impl Times {
    /// The times of calls that leave nothing to do.
    pub(crate) fn of_calls(nanoseconds: u128) -> Times {
        Times {
            calls: nanoseconds,
            all: nanoseconds,
        }
    }
}
