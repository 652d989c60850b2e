//! What a subscriber answers about the current span.
use crate::Id;

/// What a subscriber answers about the current span of a lane.
#[derive(Clone, Copy, Debug)]
pub enum CurrentSpan {
    /// The subscriber doesn't track the current span.
    Unknown,
    /// The lane is in no span.
    Outside,
    /// The lane is in this span.
    Inside(Id),
}
