//! Requests at callsites that are told by their index: the hub itself knows the metadata, and lends it.
ghost use Rattle.std.specs.Prelude.{◌≡◌, slice_get};
ghost use Rattle.tracing_core_fields.specs.Metadata.{plain_metadata};
ghost use Rattle.tracing_core.specs.HandleCalls.{CallGives};
ghost use Rattle.tracing_core.specs.IndexedRequests.{AskAtGives, EventAtGives, RecordAtGives, SpanAtGives, plain_parent, request_at};
ghost use Rattle.tracing_core.specs.IndexedRequests.{values_at};
ghost use Rattle.tracing_core.specs.CachePreservation.{PreservesCaches};
ghost use Rattle.tracing_core_fields.specs.requests.Calls.{EventDispatched, Recorded, SpanMade};
ghost use Rattle.tracing_core_fields.specs.requests.PlainRequests.{plain_event, plain_request};

use crate::hub::Hub;
use crate::hub::handing::{event_at, new_span_at, record_at};
use crate::hub::index::CallsiteIndex;
use crate::hub::parts::RegisteredSubscriber;
use crate::hub::registered::ask_one;
use tracing_core_fields::{
    Attributes, Callsite, Event, Id, IndexedValues, Metadata, Record, RequestError, Subscriber,
    ValueSet, WeakDispatch, serial_of,
};
use tracing_core_moments::At;

/// Which span a request stands under.
#[derive(Clone, Copy, Debug, PartialEq, Eq)]
pub enum RequestParent {
    /// The lane's current span, where there is one.
    Contextual,
    /// None.
    Root,
    /// This one.
    Explicit(Id),
}

// The event under this parent. All cases are made before one call hands the event over, so that the call is inlined.
fn event_of<'m, 'v>(
    metadata: &'m Metadata<'m>,
    parent: RequestParent,
    values: ValueSet<'v>,
) -> Event<'m, 'v>
    ensures { plain_event result ≡ plain_request metadata.now values.entry (plain_parent parent) }
{
    match parent {
        RequestParent::Contextual => Event::new(metadata, values),
        RequestParent::Root => Event::new_child_of(None, metadata, values),
        RequestParent::Explicit(id) => Event::new_child_of(Some(id), metadata, values),
    }
}

fn tell_event<S: Subscriber>(
    subscribers: &mut [RegisteredSubscriber<S>],
    serial: Option<u64>,
    metadata: &Metadata<'_>,
    parent: RequestParent,
    values: IndexedValues<'_>,
    at: At,
) -> Result<(), RequestError>
    ensures { CallGives ⟦<S as Subscriber>⟧ (EventDispatched (request_at (plain_metadata metadata.now) values.entry parent)
        at) serial subscribers.old result subscribers.new }
{
    let event = event_of(
        metadata,
        parent,
        metadata.fields().value_set_indexed(values),
    );
    event_at(subscribers, serial, &event, at)
}

fn make_span<S: Subscriber>(
    subscribers: &mut [RegisteredSubscriber<S>],
    serial: Option<u64>,
    metadata: &Metadata<'_>,
    parent: RequestParent,
    values: IndexedValues<'_>,
    at: At,
) -> Result<Option<Id>, RequestError>
    ensures { CallGives ⟦<S as Subscriber>⟧ (SpanMade (request_at (plain_metadata metadata.now) values.entry parent) at)
        serial subscribers.old result subscribers.new }
{
    let values = metadata.fields().value_set_indexed(values);
    match parent {
        RequestParent::Contextual => {
            new_span_at(subscribers, serial, &Attributes::new(metadata, values), at)
        }
        RequestParent::Root => {
            let attributes = Attributes::new_root(metadata, values);
            new_span_at(subscribers, serial, &attributes, at)
        }
        RequestParent::Explicit(id) => {
            let attributes = Attributes::child_of(id, metadata, values);
            new_span_at(subscribers, serial, &attributes, at)
        }
    }
}

fn tell_values<S: Subscriber>(
    subscribers: &mut [RegisteredSubscriber<S>],
    serial: Option<u64>,
    metadata: &Metadata<'_>,
    span: &Id,
    values: IndexedValues<'_>,
    at: At,
) -> Result<(), RequestError>
    ensures { CallGives ⟦<S as Subscriber>⟧ (Recorded span.now (values_at (plain_metadata metadata.now) values.entry) at)
        serial subscribers.old result subscribers.new }
{
    let values = Record::new(metadata.fields().value_set_indexed(values));
    record_at(subscribers, serial, span, &values, at)
}

impl<S: Subscriber, C: Callsite> Hub<S, C> {
    /// Whether the subscriber of the handle wants a span or an event of the callsite of the index, or `None` where no
    /// callsite stands there.
    pub fn enabled_at(
        &mut self,
        dispatch: &WeakDispatch,
        index: CallsiteIndex,
        at: At,
    ) -> Option<bool>
        ensures gives { AskAtGives ⟦<S as Subscriber>⟧ ⟦<C as Callsite>⟧ (slice_get self.old.callsites index.0) at
            dispatch.now self.old result self.new }
        // A sound hub stays sound, and its cache stays valid of each subscriber of which it was.
        ensures keeps { PreservesCaches ⟦<S as Subscriber>⟧ ⟦<C as Callsite>⟧ self.old self.new }
    {
        self.ask_at(dispatch, index, at)
    }

    fn ask_at(&mut self, dispatch: &WeakDispatch, index: CallsiteIndex, at: At) -> Option<bool>
        ensures { AskAtGives ⟦<S as Subscriber>⟧ ⟦<C as Callsite>⟧ (slice_get self.old.callsites index.0) at
            dispatch.now self.old result self.new }
    {
        match self.callsites.at(index.0) {
            None => None,
            Some(registered) => {
                let metadata = registered.callsite.metadata();
                Some(ask_one(&mut self.subscribers, serial_of(dispatch), &metadata, at))
            }
        }
    }

    /// Makes an event at the callsite of the index, and hands it to the subscriber of the handle, or answers `None`
    /// where no callsite stands there. A value is told by its field's place among those of the callsite; one of a
    /// field that the callsite lacks is passed over.
    pub fn event_at(
        &mut self,
        dispatch: &WeakDispatch,
        index: CallsiteIndex,
        parent: RequestParent,
        values: IndexedValues<'_>,
        at: At,
    ) -> Option<Result<(), RequestError>>
        ensures gives { EventAtGives ⟦<S as Subscriber>⟧ ⟦<C as Callsite>⟧ (slice_get self.old.callsites index.0)
            values.entry parent at dispatch.now self.old result self.new }
        ensures keeps { PreservesCaches ⟦<S as Subscriber>⟧ ⟦<C as Callsite>⟧ self.old self.new }
    {
        self.hand_event(dispatch, index, parent, values, at)
    }

    fn hand_event(
        &mut self,
        dispatch: &WeakDispatch,
        index: CallsiteIndex,
        parent: RequestParent,
        values: IndexedValues<'_>,
        at: At,
    ) -> Option<Result<(), RequestError>>
        ensures { EventAtGives ⟦<S as Subscriber>⟧ ⟦<C as Callsite>⟧ (slice_get self.old.callsites index.0) values.entry
            parent at dispatch.now self.old result self.new }
    {
        match self.callsites.at(index.0) {
            None => None,
            Some(registered) => {
                let metadata = registered.callsite.metadata();
                Some(tell_event(
                    &mut self.subscribers,
                    serial_of(dispatch),
                    &metadata,
                    parent,
                    values,
                    at,
                ))
            }
        }
    }

    /// Makes a span at the callsite of the index through the subscriber of the handle, or answers `None` where no
    /// callsite stands there. Values are told as to [`Hub::event_at`].
    pub fn new_span_at(
        &mut self,
        dispatch: &WeakDispatch,
        index: CallsiteIndex,
        parent: RequestParent,
        values: IndexedValues<'_>,
        at: At,
    ) -> Option<Result<Option<Id>, RequestError>>
        ensures gives { SpanAtGives ⟦<S as Subscriber>⟧ ⟦<C as Callsite>⟧ (slice_get self.old.callsites index.0)
            values.entry parent at dispatch.now self.old result self.new }
        ensures keeps { PreservesCaches ⟦<S as Subscriber>⟧ ⟦<C as Callsite>⟧ self.old self.new }
    {
        self.hand_span(dispatch, index, parent, values, at)
    }

    fn hand_span(
        &mut self,
        dispatch: &WeakDispatch,
        index: CallsiteIndex,
        parent: RequestParent,
        values: IndexedValues<'_>,
        at: At,
    ) -> Option<Result<Option<Id>, RequestError>>
        ensures { SpanAtGives ⟦<S as Subscriber>⟧ ⟦<C as Callsite>⟧ (slice_get self.old.callsites index.0) values.entry
            parent at dispatch.now self.old result self.new }
    {
        match self.callsites.at(index.0) {
            None => None,
            Some(registered) => {
                let metadata = registered.callsite.metadata();
                Some(make_span(
                    &mut self.subscribers,
                    serial_of(dispatch),
                    &metadata,
                    parent,
                    values,
                    at,
                ))
            }
        }
    }

    /// Records more values of a span, by the fields of the callsite of the index, or answers `None` where no
    /// callsite stands there. Values are told as to [`Hub::event_at`].
    pub fn record_at(
        &mut self,
        dispatch: &WeakDispatch,
        index: CallsiteIndex,
        span: &Id,
        values: IndexedValues<'_>,
        at: At,
    ) -> Option<Result<(), RequestError>>
        ensures gives { RecordAtGives ⟦<S as Subscriber>⟧ ⟦<C as Callsite>⟧ (slice_get self.old.callsites index.0)
            span.now values.entry at dispatch.now self.old result self.new }
        ensures keeps { PreservesCaches ⟦<S as Subscriber>⟧ ⟦<C as Callsite>⟧ self.old self.new }
    {
        self.hand_values(dispatch, index, span, values, at)
    }

    fn hand_values(
        &mut self,
        dispatch: &WeakDispatch,
        index: CallsiteIndex,
        span: &Id,
        values: IndexedValues<'_>,
        at: At,
    ) -> Option<Result<(), RequestError>>
        ensures { RecordAtGives ⟦<S as Subscriber>⟧ ⟦<C as Callsite>⟧ (slice_get self.old.callsites index.0) span.now
            values.entry at dispatch.now self.old result self.new }
    {
        match self.callsites.at(index.0) {
            None => None,
            Some(registered) => {
                let metadata = registered.callsite.metadata();
                Some(tell_values(
                    &mut self.subscribers,
                    serial_of(dispatch),
                    &metadata,
                    span,
                    values,
                    at,
                ))
            }
        }
    }
}
