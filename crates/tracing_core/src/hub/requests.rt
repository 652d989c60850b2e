//! Requests through the hub, to the subscriber of a handle that isn't counted.
ghost use Rattle.std.specs.Prelude.{◌≡◌};
ghost use Rattle.tracing_core_fields.specs.Metadata.{plain_metadata};
ghost use Rattle.tracing_core_fields.specs.requests.Calls.{SpanMade, Recorded, FollowsRecorded, EventAsked, EventDispatched, Entered};
ghost use Rattle.tracing_core_fields.specs.requests.Calls.{Exited, Cloned, Dropped, CloseTried, CurrentAsked};
ghost use Rattle.tracing_core.specs.Commands.{AskGives};
ghost use Rattle.tracing_core.specs.HandleCalls.{HubGives};
ghost use Rattle.tracing_core.specs.CachePreservation.{PreservesCaches};
ghost use Rattle.tracing_core_fields.specs.requests.PlainRequests.{plain_attributes, plain_event, plain_record};

use crate::hub::Hub;
use crate::hub::handing::{
    clone_span_at, current_span_at, drop_span_at, enter_at, event_at, event_enabled_at, exit_at,
    new_span_at, record_at, record_follows_from_at, try_close_at,
};
use crate::hub::registered::ask_one;
use tracing_core_fields::{
    Attributes, Callsite, CurrentSpan, Event, Id, Metadata, Record, RequestError, Subscriber,
    WeakDispatch, serial_of,
};
use tracing_core_moments::At;

impl<S: Subscriber, C: Callsite> Hub<S, C> {
    /// Whether the subscriber of the handle wants a span or an event of the callsite.
    pub fn enabled(&mut self, dispatch: &WeakDispatch, metadata: &Metadata<'_>, at: At) -> bool
        ensures asked { AskGives ⟦<S as Subscriber>⟧ (plain_metadata metadata.now) at dispatch.now self.old.subscribers
            result self.new.subscribers }
        ensures rest { self.new ≡ record self.old { subscribers = self.new.subscribers } }
        ensures keeps { PreservesCaches ⟦<S as Subscriber>⟧ ⟦<C as Callsite>⟧ self.old self.new }
    {
        ask_one(&mut self.subscribers, serial_of(dispatch), metadata, at)
    }

    /// Makes a span through the subscriber of the handle.
    pub fn new_span(
        &mut self,
        dispatch: &WeakDispatch,
        attributes: &Attributes<'_, '_>,
        at: At,
    ) -> Result<Option<Id>, RequestError>
        ensures gives { HubGives ⟦<S as Subscriber>⟧ (SpanMade (plain_attributes attributes.now) at) dispatch.now
            self.old result self.new }
        ensures keeps { PreservesCaches ⟦<S as Subscriber>⟧ ⟦<C as Callsite>⟧ self.old self.new }
    {
        new_span_at(&mut self.subscribers, serial_of(dispatch), attributes, at)
    }

    /// Records more values of a span.
    pub fn record(
        &mut self,
        dispatch: &WeakDispatch,
        span: &Id,
        values: &Record<'_>,
        at: At,
    ) -> Result<(), RequestError>
        ensures gives { HubGives ⟦<S as Subscriber>⟧ (Recorded span.now (plain_record values.now) at) dispatch.now
            self.old result self.new }
        ensures keeps { PreservesCaches ⟦<S as Subscriber>⟧ ⟦<C as Callsite>⟧ self.old self.new }
    {
        record_at(&mut self.subscribers, serial_of(dispatch), span, values, at)
    }

    /// Records that a span follows from another one.
    pub fn record_follows_from(
        &mut self,
        dispatch: &WeakDispatch,
        span: &Id,
        follows: &Id,
        at: At,
    ) -> Result<(), RequestError>
        ensures gives { HubGives ⟦<S as Subscriber>⟧ (FollowsRecorded span.now follows.now at) dispatch.now self.old
            result self.new }
        ensures keeps { PreservesCaches ⟦<S as Subscriber>⟧ ⟦<C as Callsite>⟧ self.old self.new }
    {
        record_follows_from_at(
            &mut self.subscribers,
            serial_of(dispatch),
            span,
            follows,
            at,
        )
    }

    /// Whether the subscriber of the handle wants the event, whose callsite is enabled.
    pub fn event_enabled(&mut self, dispatch: &WeakDispatch, event: &Event<'_, '_>, at: At) -> bool
        ensures gives { HubGives ⟦<S as Subscriber>⟧ (EventAsked (plain_event event.now) at) dispatch.now self.old
            result self.new }
        ensures keeps { PreservesCaches ⟦<S as Subscriber>⟧ ⟦<C as Callsite>⟧ self.old self.new }
    {
        event_enabled_at(&mut self.subscribers, serial_of(dispatch), event, at)
    }

    /// Hands an event to the subscriber of the handle.
    pub fn event(
        &mut self,
        dispatch: &WeakDispatch,
        event: &Event<'_, '_>,
        at: At,
    ) -> Result<(), RequestError>
        ensures gives { HubGives ⟦<S as Subscriber>⟧ (EventDispatched (plain_event event.now) at) dispatch.now
            self.old result self.new }
        ensures keeps { PreservesCaches ⟦<S as Subscriber>⟧ ⟦<C as Callsite>⟧ self.old self.new }
    {
        event_at(&mut self.subscribers, serial_of(dispatch), event, at)
    }

    /// The lane enters a span.
    pub fn enter(&mut self, dispatch: &WeakDispatch, span: &Id, at: At) -> Result<(), RequestError>
        ensures gives { HubGives ⟦<S as Subscriber>⟧ (Entered span.now at) dispatch.now self.old result self.new }
        ensures keeps { PreservesCaches ⟦<S as Subscriber>⟧ ⟦<C as Callsite>⟧ self.old self.new }
    {
        enter_at(&mut self.subscribers, serial_of(dispatch), span, at)
    }

    /// The lane leaves a span.
    pub fn exit(&mut self, dispatch: &WeakDispatch, span: &Id, at: At)
        ensures gives { HubGives ⟦<S as Subscriber>⟧ (Exited span.now at) dispatch.now self.old tt self.new }
        ensures keeps { PreservesCaches ⟦<S as Subscriber>⟧ ⟦<C as Callsite>⟧ self.old self.new }
    {
        exit_at(&mut self.subscribers, serial_of(dispatch), span, at)
    }

    /// Counts one more handle of a span, and answers the id to use for it.
    pub fn clone_span(
        &mut self,
        dispatch: &WeakDispatch,
        span: &Id,
        at: At,
    ) -> Result<Id, RequestError>
        ensures gives { HubGives ⟦<S as Subscriber>⟧ (Cloned span.now at) dispatch.now self.old result self.new }
        ensures keeps { PreservesCaches ⟦<S as Subscriber>⟧ ⟦<C as Callsite>⟧ self.old self.new }
    {
        clone_span_at(&mut self.subscribers, serial_of(dispatch), span, at)
    }

    /// Counts one handle of a span less.
    pub fn drop_span(&mut self, dispatch: &WeakDispatch, span: Id, at: At)
        ensures gives { HubGives ⟦<S as Subscriber>⟧ (Dropped span at) dispatch.now self.old tt self.new }
        ensures keeps { PreservesCaches ⟦<S as Subscriber>⟧ ⟦<C as Callsite>⟧ self.old self.new }
    {
        drop_span_at(&mut self.subscribers, serial_of(dispatch), span, at)
    }

    /// Counts one handle of a span less, and answers whether the span closed.
    pub fn try_close(&mut self, dispatch: &WeakDispatch, span: Id, at: At) -> bool
        ensures gives { HubGives ⟦<S as Subscriber>⟧ (CloseTried span at) dispatch.now self.old result self.new }
        ensures keeps { PreservesCaches ⟦<S as Subscriber>⟧ ⟦<C as Callsite>⟧ self.old self.new }
    {
        try_close_at(&mut self.subscribers, serial_of(dispatch), span, at)
    }

    /// The span that the lane is in.
    pub fn current_span(&mut self, dispatch: &WeakDispatch, at: At) -> CurrentSpan
        ensures gives { HubGives ⟦<S as Subscriber>⟧ (CurrentAsked at) dispatch.now self.old result self.new }
        ensures keeps { PreservesCaches ⟦<S as Subscriber>⟧ ⟦<C as Callsite>⟧ self.old self.new }
    {
        current_span_at(&mut self.subscribers, serial_of(dispatch), at)
    }
}
