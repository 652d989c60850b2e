//! Where and when a request is made.

/// Where and when a request is made: the number of its lane, and a moment in seconds and nanoseconds,
/// which only subscribers read.
#[derive(Clone, Copy, Debug, PartialEq, Eq)]
pub struct At {
    /// The number of the lane.
    pub lane: u64,
    /// The seconds of the moment.
    pub seconds: i64,
    /// The nanoseconds after these seconds.
    pub nanoseconds: u32,
}
