//! What becomes of lines.

ghost use Rattle.std.specs.Prelude.{◌≡◌, ◌≤◌, if◌then◌else◌};
ghost use Rattle.tracing_appender_queue.specs.queued.LineFates.{is_lost, is_missed, more_if};

use thiserror::Error;

/// What became of a line that came to a queue.
#[derive(Clone, Copy, Debug, PartialEq, Eq)]
pub enum Fate {
    /// The queue took it in.
    Queued,
    /// A lossy queue had no room, or was closed. The queue counts it.
    Dropped,
    /// A waiting queue had no room, or a line was held before: it is held beside the queue, behind those.
    Held,
    /// A waiting queue was closed. It is counted as a write fault.
    Lost,
    /// There was no memory for it where it was to go.
    Missed,
}

impl Fate {
    /// Whether a closed waiting queue lost it.
    pub fn is_lost(self) -> bool
        ensures { result ≡ is_lost self }
    {
        match self {
            Fate::Lost => true,
            Fate::Queued | Fate::Dropped | Fate::Held | Fate::Missed => false,
        }
    }

    /// Whether there was no memory for it.
    pub fn is_missed(self) -> bool
        ensures { result ≡ is_missed self }
    {
        match self {
            Fate::Missed => true,
            Fate::Queued | Fate::Dropped | Fate::Held | Fate::Lost => false,
        }
    }
}

/// How many lines of a request a closed waiting queue lost, and how many found no memory.
#[derive(Clone, Copy, Debug, PartialEq, Eq)]
pub struct Settlement {
    pub lost: usize,
    pub missed: usize,
}

/// Why no held line was admitted.
#[derive(Clone, Copy, Debug, PartialEq, Eq, Error)]
pub enum AdmitError {
    #[error("no line is held")]
    NothingHeld,
    /// The first held line is given up.
    #[error("the queue is closed")]
    Closed,
    #[error("no room in the queue")]
    NoRoom,
    #[error("out of memory")]
    OutOfMemory,
}

// One more, where it is to be counted. The count stops at the greatest number.
pub(crate) fn more_if(counts: bool, count: usize) -> usize
    ensures { result ≡ more_if counts count }
{
    if counts {
        count.saturating_add(1)
    } else {
        count
    }
}

pub(crate) fn one_if(counts: bool) -> usize
    ensures number { result ≡ (if counts then 1 else 0) }
    ensures few { result ≤ 1 }
{
    if counts { 1 } else { 0 }
}
