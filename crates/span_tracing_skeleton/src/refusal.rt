//! Why a call is refused.

ghost use Rattle.std.specs.Prelude.{◌≡◌};

use thiserror::Error;

/// A refusal of a call. It leaves the trace as it was, but that with `Closed` a held line is given up.
#[derive(Clone, Copy, Debug, PartialEq, Eq, Error)]
pub enum Refusal {
    #[error("the callsite isn't registered, or is of the other kind")]
    UnknownCallsite,
    #[error("no such stack, or no such handle")]
    UnknownStack,
    #[error("the stack was released, or the handle is spent")]
    ReleasedStack,
    #[error("the span isn't open, or has no handle to give up")]
    UnknownSpan,
    #[error("the parent isn't of the stack that the lane reaches, or the followed span isn't of the span's")]
    ForeignParent,
    #[error("a stack of no outputs, or no such output")]
    NoOutput,
    #[error("a stack has at most 64 outputs")]
    TooManyFilters,
    #[error("two outputs have the same key")]
    EqualKeys,
    #[error("a queue's limit is zero")]
    ZeroLimit,
    #[error("a link has the name of a log file")]
    BadLinkName,
    #[error("a part of a file name has a slash or a NUL, or the name is `.` or `..`")]
    BadName,
    #[error("a folder refused to open a file")]
    FolderRefused,
    #[error("the moment is out of range")]
    BadMoment,
    #[error("out of memory")]
    OutOfMemory,
    #[error("a line is held beside a queue: it is admitted or given up first")]
    Busy,
    #[error("the queue has no room")]
    NoRoom,
    #[error("no line is held beside the queue")]
    NothingHeld,
    #[error("the queue is closed")]
    Closed,
    #[error("the sink has no queue")]
    NotQueued,
    #[error("no such sink, or it was taken with its stack")]
    UnknownSink,
    #[error("the route names a sink that the output lacks, or one twice, or its `or_else` begins without a bound")]
    BadRoute,
    #[error("a line of JSON needs fields in JSON")]
    JsonFieldsNeeded,
    #[error("no such lane")]
    UnknownLane,
    #[error("the global default is set already")]
    GlobalSet,
    #[error("the identifier is taken by other metadata")]
    Taken,
    #[error("the span or the stack has as many handles as can be counted")]
    TooManyHandles,
    #[error("all span ids are given")]
    IdsSpent,
    #[error("the guard isn't this lane's, isn't there, or is spent")]
    WrongLane,
    #[error("no such place on the shelf of filters")]
    UnknownShelf,
    #[error("the queue's mark was put before")]
    MarkSent,
}

impl Refusal {
    ghost use Rattle.span_tracing_skeleton.specs.Refusals.{refusal_number};

    /// The number under which programs tell the refusal.
    pub fn number(self) -> u64
        ensures { result ≡ refusal_number self }
    {
        match self {
            Refusal::UnknownCallsite => 1,
            Refusal::UnknownStack => 2,
            Refusal::ReleasedStack => 3,
            Refusal::UnknownSpan => 4,
            Refusal::ForeignParent => 5,
            Refusal::NoOutput => 6,
            Refusal::TooManyFilters => 7,
            Refusal::EqualKeys => 8,
            Refusal::ZeroLimit => 9,
            Refusal::BadLinkName => 10,
            Refusal::BadName => 11,
            Refusal::FolderRefused => 12,
            Refusal::BadMoment => 13,
            Refusal::OutOfMemory => 14,
            Refusal::Busy => 15,
            Refusal::NoRoom => 16,
            Refusal::NothingHeld => 17,
            Refusal::Closed => 18,
            Refusal::NotQueued => 19,
            Refusal::UnknownSink => 20,
            Refusal::BadRoute => 21,
            Refusal::JsonFieldsNeeded => 22,
            Refusal::UnknownLane => 23,
            Refusal::GlobalSet => 24,
            Refusal::Taken => 25,
            Refusal::TooManyHandles => 26,
            Refusal::IdsSpent => 27,
            Refusal::WrongLane => 28,
            Refusal::UnknownShelf => 29,
            Refusal::MarkSent => 30,
        }
    }
}
