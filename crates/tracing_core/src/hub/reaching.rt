//! Requests of a lane, to the subscriber that it reaches.
ghost use Rattle.std.specs.Prelude.{◌≡◌, Some};
ghost use Rattle.tracing_core_fields.specs.Metadata.{plain_metadata};
ghost use Rattle.tracing_core_fields.specs.requests.Calls.{CallsiteRegistered, CurrentAsked, SpanMade, EventDispatched};
ghost use Rattle.tracing_core.specs.Commands.{AskGives, reached};
ghost use Rattle.tracing_core.specs.HandleCalls.{CallGives, HubGives};
ghost use Rattle.tracing_core.specs.TableRows.{KeptSubscriber};
ghost use Rattle.tracing_core.specs.CachePreservation.{PreservesCaches};
ghost use Rattle.tracing_core.specs.HandleSubscribers.{living_of};
ghost use Rattle.tracing_core_fields.specs.requests.PlainRequests.{plain_attributes, plain_event};

use crate::dispatch::Dispatch;
use crate::hub::Hub;
use crate::hub::lending::index_or_end;
use crate::hub::parts::RegisteredSubscriber;
use tracing_core_fields::{
    Attributes, Callsite, CurrentSpan, Event, Id, Interest, Metadata, RequestError, Subscriber,
    WeakDispatch, serial_of,
};
use tracing_core_moments::At;

fn register_callsite_at<S: Subscriber>(
    subscribers: &mut [RegisteredSubscriber<S>],
    serial: Option<u64>,
    metadata: &Metadata<'_>,
) -> Interest
    ensures answer { (e : KeptSubscriber S) → living_of serial subscribers.old ≡ Some e →
        S.says e.subscriber (plain_metadata metadata.now) result }
    ensures handed { CallGives ⟦<S as Subscriber>⟧ (CallsiteRegistered (plain_metadata metadata.now)) serial
        subscribers.old result subscribers.new }
{
    let index = index_or_end(subscribers, serial);
    if index < subscribers.len() {
        let registered = &mut subscribers[index];
        registered.subscriber.register_callsite(metadata)
    } else {
        Interest::never()
    }
}

impl<S, C> Hub<S, C> {
    // A handle to the subscriber that the lane reaches, which isn't counted.
    pub(crate) fn reached_handle(&self, lane: u64) -> Dispatch
        ensures { result ≡ reached self.now lane }
    {
        Dispatch::new(self.reached_serial(lane))
    }
}

impl<S: Subscriber, C: Callsite> Hub<S, C> {
    /// Asks the subscriber of the handle for its interest in a callsite, which is never where there is
    /// none. What is kept of callsites stays.
    pub fn register_callsite(
        &mut self,
        dispatch: &WeakDispatch,
        metadata: &Metadata<'_>,
    ) -> Interest
        ensures answer { (e : KeptSubscriber S) → living_of dispatch.now self.old.subscribers ≡ Some e →
            S.says e.subscriber (plain_metadata metadata.now) result }
        // This is one call of the handle's subscriber, and nothing else changes; where there is none, the answer is that of
        // `NoSubscriber`.
        ensures handed { HubGives ⟦<S as Subscriber>⟧ (CallsiteRegistered (plain_metadata metadata.now)) dispatch.now
            self.old result self.new }
        ensures keeps { PreservesCaches ⟦<S as Subscriber>⟧ ⟦<C as Callsite>⟧ self.old self.new }
    {
        register_callsite_at(&mut self.subscribers, serial_of(dispatch), metadata)
    }

    /// Whether the subscriber that the lane reaches wants a span or an event of the callsite. It is asked
    /// in any case; [`Hub::gate`] asks only where what is kept doesn't tell.
    pub fn enabled_here(&mut self, metadata: &Metadata<'_>, at: At) -> bool
        ensures asked { AskGives ⟦<S as Subscriber>⟧ (plain_metadata metadata.now) at (reached self.old at.lane)
            self.old.subscribers result self.new.subscribers }
        ensures rest { self.new ≡ record self.old { subscribers = self.new.subscribers } }
        ensures keeps { PreservesCaches ⟦<S as Subscriber>⟧ ⟦<C as Callsite>⟧ self.old self.new }
    {
        let dispatch = self.reached(at.lane);
        self.enabled(&dispatch, metadata, at)
    }

    /// Hands an event to the subscriber that the lane reaches.
    pub fn event_here(&mut self, event: &Event<'_, '_>, at: At) -> Result<(), RequestError>
        ensures gives { HubGives ⟦<S as Subscriber>⟧ (EventDispatched (plain_event event.now) at)
            (reached self.old at.lane) self.old result self.new }
        ensures keeps { PreservesCaches ⟦<S as Subscriber>⟧ ⟦<C as Callsite>⟧ self.old self.new }
    {
        let dispatch = self.reached(at.lane);
        self.event(&dispatch, event, at)
    }

    /// Makes a span through the subscriber that the lane reaches.
    pub fn new_span_here(
        &mut self,
        attributes: &Attributes<'_, '_>,
        at: At,
    ) -> Result<Option<Id>, RequestError>
        ensures gives { HubGives ⟦<S as Subscriber>⟧ (SpanMade (plain_attributes attributes.now) at)
            (reached self.old at.lane) self.old result self.new }
        ensures keeps { PreservesCaches ⟦<S as Subscriber>⟧ ⟦<C as Callsite>⟧ self.old self.new }
    {
        let dispatch = self.reached(at.lane);
        self.new_span(&dispatch, attributes, at)
    }

    /// The span that the lane is in, for the subscriber that it reaches.
    pub fn current_span_here(&mut self, at: At) -> CurrentSpan
        ensures gives { HubGives ⟦<S as Subscriber>⟧ (CurrentAsked at) (reached self.old at.lane) self.old result
            self.new }
        ensures keeps { PreservesCaches ⟦<S as Subscriber>⟧ ⟦<C as Callsite>⟧ self.old self.new }
    {
        let dispatch = self.reached(at.lane);
        self.current_span(&dispatch, at)
    }
}
