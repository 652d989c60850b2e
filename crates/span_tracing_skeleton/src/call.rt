//! The steps of a trace and its replies.
ghost use Rattle.std.specs.Prelude.{◌≡◌};

use crate::call_error::CallError;
use crate::queue_call::SinkCall;
use crate::refusal::Refusal;
use crate::setting::SettingCall;
use std::num::NonZeroU64;
use tracing_core_fields::{FieldValue, Identifier};
use tracing_core_moments::Moment;

/// A span, by its stack's number and its id in that stack.
///
/// The id is the plain number of an `Id`: a function that hands on, twice, a struct with an `Id` in it could not be proved.
#[derive(Clone, Copy, Debug, PartialEq, Eq)]
pub struct SpanName {
    /// The number of the stack.
    pub stack: usize,
    /// The number of the span's id.
    pub id: NonZeroU64,
}

/// Which span a request stands under.
#[derive(Clone, Copy, Debug, PartialEq, Eq)]
pub enum Parent {
    /// The lane's current span in the stack that the lane reaches, where there is one.
    Contextual,
    /// None.
    Root,
    /// This one.
    Explicit(SpanName),
}

/// An event on a lane.
#[derive(Debug, Drop)]
pub struct EventCall {
    pub lane: usize,
    pub moment: Moment,
    pub callsite: Identifier,
    pub parent: Parent,
    pub values: Vec<FieldValue>,
}

/// A new span on a lane.
#[derive(Debug, Drop)]
pub struct NewSpanCall {
    pub lane: usize,
    pub moment: Moment,
    pub callsite: Identifier,
    pub parent: Parent,
    pub values: Vec<FieldValue>,
}

/// A call on a span, or on none: a call on none does nothing.
#[derive(Clone, Copy, Debug, PartialEq, Eq)]
pub struct SpanCall {
    pub lane: usize,
    pub moment: Moment,
    pub span: Option<SpanName>,
}

/// Values for a span, or for none. A field is told by its place among those of the span's callsite; one that
/// the callsite lacks is passed over.
#[derive(Debug, Drop)]
pub struct RecordCall {
    pub lane: usize,
    pub moment: Moment,
    pub span: Option<SpanName>,
    pub values: Vec<FieldValue>,
}

/// A span that follows from another one. Where either is none, nothing is told, and the other is looked at
/// all the same.
#[derive(Clone, Copy, Debug, PartialEq, Eq)]
pub struct FollowsCall {
    pub lane: usize,
    pub moment: Moment,
    pub span: Option<SpanName>,
    pub follows: Option<SpanName>,
}

/// A question on a lane: whether a request at a callsite would be made.
#[derive(Clone, Copy, Debug, PartialEq, Eq)]
pub struct EnabledCall {
    pub lane: usize,
    pub moment: Moment,
    pub callsite: Identifier,
}

/// A lane's own default from now on: the stack with this handle, or none, so that the lane reaches nothing.
#[derive(Clone, Copy, Debug, PartialEq, Eq)]
pub struct DefaultCall {
    pub lane: usize,
    pub handle: Option<usize>,
}

/// Gives a lane the default back that its guard keeps, and spends the guard.
#[derive(Clone, Copy, Debug, PartialEq, Eq)]
pub struct ResetCall {
    pub lane: usize,
    pub guard: usize,
}

/// One step of a trace.
#[derive(Debug, Drop)]
pub enum Step {
    /// Makes the stack with this handle the one that lanes reach that have no default of their own. The trace holds it once more
    /// from then on, and the handle stays as it was.
    SetGlobalDefault(usize),
    Event(EventCall),
    /// Asks whether a request would be made: each output's filter is asked, and its answer marked. It is no request, and tells nobody.
    Enabled(EnabledCall),
    NewSpan(NewSpanCall),
    /// Adds values to a span's.
    Record(RecordCall),
    /// Records that a span follows from another one.
    RecordFollowsFrom(FollowsCall),
    Enter(SpanCall),
    Exit(SpanCall),
    /// Takes one more handle of a span.
    CloneSpan(SpanCall),
    /// Gives up one handle of a span.
    TryClose(SpanCall),
    /// Gives a lane a default of its own, and answers a guard that keeps the one before.
    SetDefault(DefaultCall),
    /// Gives a lane the default back that its guard keeps.
    ResetDefault(ResetCall),
    /// Takes one more handle of the stack with this handle.
    CloneHandle(usize),
    /// Spends a handle. Where nobody else holds its stack, the stack is released.
    Release(usize),
    /// Changes a setting of an output, from the next step on.
    Set(SettingCall),
    /// Works the queue of a sink, admits a line to it, or shuts it down.
    Queue(SinkCall),
}

/// The answer to a step.
#[derive(Clone, Copy, Debug, PartialEq, Eq)]
pub enum Reply {
    Done,
    /// Whether a request would be made.
    Enabled(bool),
    /// The new span, or none where it was dropped.
    Span(Option<SpanName>),
    /// Whether the span closed.
    Closed(bool),
    /// The number of the new handle.
    Handle(usize),
    /// The number of the guard.
    Guard(usize),
    /// How many lines a step of a worker took from its queue.
    Worked(usize),
    Refused(Refusal),
}

impl Reply {
    ghost use Rattle.span_tracing_skeleton.specs.Replies.{as_closed, as_done, as_guard, as_handle, as_span, as_worked};

    /// The answer to a call whose reply says no more than that it was done.
    ///
    /// # Errors
    ///
    /// The refusal, where the call was refused.
    pub fn done(self) -> Result<(), CallError>
        ensures { result ≡ as_done self }
    {
        match self {
            Reply::Refused(refusal) => Err(CallError::Refused(refusal)),
            _ => Ok(()),
        }
    }

    /// The span that a call made, and none where it was dropped or where the reply is no span's.
    ///
    /// # Errors
    ///
    /// The refusal, where the call was refused.
    pub fn span(self) -> Result<Option<SpanName>, CallError>
        ensures { result ≡ as_span self }
    {
        match self {
            Reply::Refused(refusal) => Err(CallError::Refused(refusal)),
            Reply::Span(span) => Ok(span),
            _ => Ok(None),
        }
    }

    /// Whether a call closed a span; false where the reply is none of such a call.
    ///
    /// # Errors
    ///
    /// The refusal, where the call was refused.
    pub fn closed(self) -> Result<bool, CallError>
        ensures { result ≡ as_closed self }
    {
        match self {
            Reply::Refused(refusal) => Err(CallError::Refused(refusal)),
            Reply::Closed(is_closed) => Ok(is_closed),
            _ => Ok(false),
        }
    }

    /// The number of the handle that a call gave, and none where the reply tells of none.
    ///
    /// # Errors
    ///
    /// The refusal, where the call was refused.
    pub fn handle(self) -> Result<Option<usize>, CallError>
        ensures { result ≡ as_handle self }
    {
        match self {
            Reply::Refused(refusal) => Err(CallError::Refused(refusal)),
            Reply::Handle(handle) => Ok(Some(handle)),
            _ => Ok(None),
        }
    }

    /// The number of the guard that a call gave, and none where the reply tells of none.
    ///
    /// # Errors
    ///
    /// The refusal, where the call was refused.
    pub fn guard(self) -> Result<Option<usize>, CallError>
        ensures { result ≡ as_guard self }
    {
        match self {
            Reply::Refused(refusal) => Err(CallError::Refused(refusal)),
            Reply::Guard(guard) => Ok(Some(guard)),
            _ => Ok(None),
        }
    }

    /// How many lines a step of a worker took, and none where the reply tells of none.
    ///
    /// # Errors
    ///
    /// The refusal, where the call was refused.
    pub fn worked(self) -> Result<Option<usize>, CallError>
        ensures { result ≡ as_worked self }
    {
        match self {
            Reply::Refused(refusal) => Err(CallError::Refused(refusal)),
            Reply::Worked(lines) => Ok(Some(lines)),
            _ => Ok(None),
        }
    }
}
