//! Handing requests over to the subscriber of a number.
ghost use Rattle.tracing_core_fields.specs.requests.Calls.{SpanMade, Recorded, FollowsRecorded, EventAsked, EventDispatched, Entered};
ghost use Rattle.tracing_core_fields.specs.requests.Calls.{Exited, Cloned, Dropped, CloseTried, CurrentAsked};
ghost use Rattle.tracing_core.specs.HandleCalls.{CallGives};
ghost use Rattle.tracing_core_fields.specs.requests.PlainRequests.{plain_attributes, plain_event, plain_record};

use crate::hub::lending::index_or_end;
use crate::hub::parts::RegisteredSubscriber;
use tracing_core_fields::{
    Attributes, CurrentSpan, Event, Id, NoSubscriber, Record, RequestError, Subscriber,
};
use tracing_core_moments::At;

pub(crate) fn new_span_at<S: Subscriber>(
    subscribers: &mut [RegisteredSubscriber<S>],
    serial: Option<u64>,
    attributes: &Attributes<'_, '_>,
    at: At,
) -> Result<Option<Id>, RequestError>
    ensures { CallGives ⟦<S as Subscriber>⟧ (SpanMade (plain_attributes attributes.now) at) serial subscribers.old
        result
        subscribers.new }
{
    let index = index_or_end(subscribers, serial);
    if index < subscribers.len() {
        let registered = &mut subscribers[index];
        registered.subscriber.new_span(attributes, at)
    } else {
        NoSubscriber::new().new_span(attributes, at)
    }
}

pub(crate) fn record_at<S: Subscriber>(
    subscribers: &mut [RegisteredSubscriber<S>],
    serial: Option<u64>,
    span: &Id,
    values: &Record<'_>,
    at: At,
) -> Result<(), RequestError>
    ensures { CallGives ⟦<S as Subscriber>⟧ (Recorded span.now (plain_record values.now) at) serial subscribers.old
        result
        subscribers.new }
{
    let index = index_or_end(subscribers, serial);
    if index < subscribers.len() {
        let registered = &mut subscribers[index];
        registered.subscriber.record(span, values, at)
    } else {
        Ok(())
    }
}

pub(crate) fn record_follows_from_at<S: Subscriber>(
    subscribers: &mut [RegisteredSubscriber<S>],
    serial: Option<u64>,
    span: &Id,
    follows: &Id,
    at: At,
) -> Result<(), RequestError>
    ensures { CallGives ⟦<S as Subscriber>⟧ (FollowsRecorded span.now follows.now at) serial subscribers.old result
        subscribers.new }
{
    let index = index_or_end(subscribers, serial);
    if index < subscribers.len() {
        let registered = &mut subscribers[index];
        registered.subscriber.record_follows_from(span, follows, at)
    } else {
        Ok(())
    }
}

pub(crate) fn event_enabled_at<S: Subscriber>(
    subscribers: &mut [RegisteredSubscriber<S>],
    serial: Option<u64>,
    event: &Event<'_, '_>,
    at: At,
) -> bool
    ensures { CallGives ⟦<S as Subscriber>⟧ (EventAsked (plain_event event.now) at) serial subscribers.old result
        subscribers.new }
{
    let index = index_or_end(subscribers, serial);
    if index < subscribers.len() {
        let registered = &mut subscribers[index];
        registered.subscriber.event_enabled(event, at)
    } else {
        true
    }
}

pub(crate) fn event_at<S: Subscriber>(
    subscribers: &mut [RegisteredSubscriber<S>],
    serial: Option<u64>,
    event: &Event<'_, '_>,
    at: At,
) -> Result<(), RequestError>
    ensures { CallGives ⟦<S as Subscriber>⟧ (EventDispatched (plain_event event.now) at) serial subscribers.old result
        subscribers.new }
{
    let index = index_or_end(subscribers, serial);
    if index < subscribers.len() {
        let registered = &mut subscribers[index];
        registered.subscriber.event(event, at)
    } else {
        Ok(())
    }
}

pub(crate) fn enter_at<S: Subscriber>(
    subscribers: &mut [RegisteredSubscriber<S>],
    serial: Option<u64>,
    span: &Id,
    at: At,
) -> Result<(), RequestError>
    ensures { CallGives ⟦<S as Subscriber>⟧ (Entered span.now at) serial subscribers.old result subscribers.new }
{
    let index = index_or_end(subscribers, serial);
    if index < subscribers.len() {
        let registered = &mut subscribers[index];
        registered.subscriber.enter(span, at)
    } else {
        Ok(())
    }
}

pub(crate) fn exit_at<S: Subscriber>(
    subscribers: &mut [RegisteredSubscriber<S>],
    serial: Option<u64>,
    span: &Id,
    at: At,
)
    ensures { CallGives ⟦<S as Subscriber>⟧ (Exited span.now at) serial subscribers.old tt subscribers.new }
{
    let index = index_or_end(subscribers, serial);
    if index >= subscribers.len() {
        return;
    }
    let registered = &mut subscribers[index];
    registered.subscriber.exit(span, at)
}

pub(crate) fn clone_span_at<S: Subscriber>(
    subscribers: &mut [RegisteredSubscriber<S>],
    serial: Option<u64>,
    span: &Id,
    at: At,
) -> Result<Id, RequestError>
    ensures { CallGives ⟦<S as Subscriber>⟧ (Cloned span.now at) serial subscribers.old result subscribers.new }
{
    let index = index_or_end(subscribers, serial);
    if index < subscribers.len() {
        let registered = &mut subscribers[index];
        registered.subscriber.clone_span(span, at)
    } else {
        Ok(*span)
    }
}

pub(crate) fn drop_span_at<S: Subscriber>(
    subscribers: &mut [RegisteredSubscriber<S>],
    serial: Option<u64>,
    span: Id,
    at: At,
)
    ensures { CallGives ⟦<S as Subscriber>⟧ (Dropped span at) serial subscribers.old tt subscribers.new }
{
    let index = index_or_end(subscribers, serial);
    if index >= subscribers.len() {
        return;
    }
    let registered = &mut subscribers[index];
    registered.subscriber.drop_span(span, at)
}

pub(crate) fn try_close_at<S: Subscriber>(
    subscribers: &mut [RegisteredSubscriber<S>],
    serial: Option<u64>,
    span: Id,
    at: At,
) -> bool
    ensures { CallGives ⟦<S as Subscriber>⟧ (CloseTried span at) serial subscribers.old result subscribers.new }
{
    let index = index_or_end(subscribers, serial);
    if index < subscribers.len() {
        let registered = &mut subscribers[index];
        registered.subscriber.try_close(span, at)
    } else {
        false
    }
}

pub(crate) fn current_span_at<S: Subscriber>(
    subscribers: &mut [RegisteredSubscriber<S>],
    serial: Option<u64>,
    at: At,
) -> CurrentSpan
    ensures { CallGives ⟦<S as Subscriber>⟧ (CurrentAsked at) serial subscribers.old result subscribers.new }
{
    let index = index_or_end(subscribers, serial);
    if index < subscribers.len() {
        let registered = &mut subscribers[index];
        registered.subscriber.current_span(at)
    } else {
        CurrentSpan::Unknown
    }
}
