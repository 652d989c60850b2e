//! Calls on the spans of a stack.
ghost use Rattle.std.specs.Prelude.{◌≡◌};
ghost use Rattle.tracing_core_fields.specs.requests.PlainRequests.{plain_attributes, plain_record};
ghost use Rattle.span_registry_layers.specs.Calls.{CloneGives, CloseGives, EnterGives, ExitGives, FollowsGives, RecordGives, SpanAsked};
ghost use Rattle.span_registry_layers.specs.Calls.{SpanCached, current_in};
ghost use Rattle.span_registry_layers.specs.CacheValidity.{CacheIsValid};

use crate::stack::Stack;
use span_registry_layers_layers::{Filter, Filtered, Layer};
use tracing_core_fields::{Attributes, CurrentSpan, Id, Record, RequestError};
use tracing_core_moments::At;

impl<O> Stack<O> {
    /// The span that a lane is in.
    pub fn current_span(&self, lane: u64) -> CurrentSpan
        ensures { result ≡ current_in self.now lane }
    {
        self.parts.current_span(lane)
    }
}

impl<L: Layer, F: Filter> Stack<Filtered<L, F>> {
    /// Makes a span where some output's filter passes it, tells each output that does, and answers the span's
    /// id, or `None` where it is dropped. What each filter said is kept with the span, and decides what later
    /// calls on it tell.
    ///
    /// # Errors
    ///
    /// `UnknownParent` where a parent is named that is not open, else, where the span isn't dropped,
    /// `IdsSpent` where all ids were given, else `OutOfMemory`; each leaves the stack as it was.
    pub fn new_span(
        &mut self,
        attributes: &Attributes<'_, '_>,
        at: At,
    ) -> Result<Option<Id>, RequestError>
        ensures exact { SpanCached ⟦<F as Filter>⟧ ⟦<L as Layer>⟧ (plain_attributes attributes.now) at self.old result
            self.new }
        // With a valid cache this goes as if every filter were asked.
        ensures asking { CacheIsValid ⟦<F as Filter>⟧ self.old →
            SpanAsked ⟦<F as Filter>⟧ ⟦<L as Layer>⟧ (plain_attributes attributes.now) at self.old result self.new }
        // A valid cache stays valid.
        ensures kept { CacheIsValid ⟦<F as Filter>⟧ self.old → CacheIsValid ⟦<F as Filter>⟧ self.new }
    {
        self.parts.new_span(attributes, at)
    }

    /// Tells each output that sees the span of values that are recorded on it.
    ///
    /// # Errors
    ///
    /// `UnknownSpan` where the span is not open, which leaves the stack as it was.
    pub fn record(&mut self, span: &Id, values: &Record<'_>, at: At) -> Result<(), RequestError>
        ensures gives { RecordGives ⟦<F as Filter>⟧ ⟦<L as Layer>⟧ span.now (plain_record values.now) at self.old
            result self.new }
        // A valid cache stays valid.
        ensures kept { CacheIsValid ⟦<F as Filter>⟧ self.old → CacheIsValid ⟦<F as Filter>⟧ self.new }
    {
        self.parts.record(span, values, at)
    }

    /// Tells each output that sees both spans that the first follows from the second.
    ///
    /// # Errors
    ///
    /// `UnknownSpan` where one of them is not open, which leaves the stack as it was.
    pub fn record_follows_from(
        &mut self,
        span: &Id,
        follows: &Id,
        at: At,
    ) -> Result<(), RequestError>
        ensures gives { FollowsGives ⟦<F as Filter>⟧ ⟦<L as Layer>⟧ span.now follows.now at self.old result self.new }
        // A valid cache stays valid.
        ensures kept { CacheIsValid ⟦<F as Filter>⟧ self.old → CacheIsValid ⟦<F as Filter>⟧ self.new }
    {
        self.parts.record_follows_from(span, follows, at)
    }

    /// A lane enters a span, and each output that sees it is told.
    ///
    /// # Errors
    ///
    /// `UnknownSpan` where the span is not open, else `OutOfMemory`; both leave the stack as it was.
    pub fn enter(&mut self, span: &Id, at: At) -> Result<(), RequestError>
        ensures gives { EnterGives ⟦<F as Filter>⟧ ⟦<L as Layer>⟧ span.now at self.old result self.new }
        // A valid cache stays valid.
        ensures kept { CacheIsValid ⟦<F as Filter>⟧ self.old → CacheIsValid ⟦<F as Filter>⟧ self.new }
    {
        self.parts.enter(span, at)
    }

    /// A lane leaves a span: its last entry there goes, where there is one, and the exit is told. Then what
    /// nothing keeps open closes, each span told once, a child before its parent, to the outputs that see it.
    /// It takes no memory.
    pub fn exit(&mut self, span: &Id, at: At)
        // The span's last entry on the lane goes, the exit is told, and then each span that nothing keeps open closes, told once, a
        // child before its parent.
        ensures gives { ExitGives ⟦<F as Filter>⟧ ⟦<L as Layer>⟧ span.now at self.old self.new }
        // A valid cache stays valid.
        ensures kept { CacheIsValid ⟦<F as Filter>⟧ self.old → CacheIsValid ⟦<F as Filter>⟧ self.new }
    {
        self.parts.exit(span, at)
    }

    /// Counts one more handle of a span. It takes no memory.
    ///
    /// # Errors
    ///
    /// `UnknownSpan` where the span is not open, else `TooManyHandles` where it has `usize::MAX`; both leave
    /// the stack as it was.
    pub fn clone_span(&mut self, span: &Id) -> Result<Id, RequestError>
        ensures gives { CloneGives span.now self.old result self.new }
        // A valid cache stays valid.
        ensures kept { CacheIsValid ⟦<F as Filter>⟧ self.old → CacheIsValid ⟦<F as Filter>⟧ self.new }
    {
        self.parts.clone_span(span)
    }

    /// Gives up one handle of a span, where it has one, and answers whether the span closed. What nothing
    /// keeps open closes, each span told once, a child before its parent, to the outputs that see it. It
    /// takes no memory.
    pub fn try_close(&mut self, span: Id, at: At) -> bool
        ensures gives { CloseGives ⟦<F as Filter>⟧ ⟦<L as Layer>⟧ span at self.old result self.new }
        // A valid cache stays valid.
        ensures kept { CacheIsValid ⟦<F as Filter>⟧ self.old → CacheIsValid ⟦<F as Filter>⟧ self.new }
    {
        self.parts.try_close(span, at)
    }
}
