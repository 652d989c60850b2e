//! A hub of the program's own, and a subscriber that counts events.

ghost use Rattle.std.specs.Prelude.{◌≡◌, nat_le, false, if◌then◌else◌, None, Some, OnOk, OnErr, IfOk, ℕ, slice_get};
ghost use Rattle.std.specs.Option.{option_map};
ghost use Rattle.tracing_core.specs.Commands.{reached, callsite_with};
ghost use Rattle.tracing_core.specs.TableRows.{KeptCallsite, KeptSubscriber};
ghost use Rattle.tracing_core.specs.Handles.{subscriber_with};
ghost use Rattle.tracing_core.specs.CachePreservation.{PreservesCaches};
ghost use Rattle.tracing_core.specs.ValidCaches.{HasValidCache};
ghost use Rattle.tracing_core.specs.HandleSubscribers.{living_of};
ghost use Rattle.tracing_core.specs.PlainRequests.{plain_event};
ghost use Rattle.tracing_core.specs.declared.hub.parts.LaneDefault.TheVariants.{Unset};
ghost use Rattle.tracing_core.specs.HubInvariant.{IsSound};
ghost use Rattle.tracing_core.specs.Table.{own_setting};
ghost use Rattle.span_registry_layers.specs.Combined.{level_interest, same_word};
ghost use Rattle.uses.specs.Tallies.{counted, events_after, level_agrees, tally_reply};

use std::alloc::Global;
use tracing_core::{
    AddError, At, Attributes, Callsite, CurrentSpan, Dispatch, Event, Hub, Id, Interest,
    LevelFilter, Metadata, Record, RequestError, SetGlobalDefaultError, Subscriber, WeakDispatch,
};

/// A subscriber that enables what is up to a level, and counts the events that it is told of. It makes no spans.
#[derive(Clone, Copy, Debug, PartialEq, Eq)]
pub struct Tally {
    /// The most verbose level that is enabled.
    pub most: LevelFilter,
    /// How many events there were. The count stops at the greatest number.
    pub events: u64,
}

impl Tally {
    /// No event yet.
    pub fn new(most: LevelFilter) -> Tally
        ensures { (result.most ≡ most) × (result.events ≡ 0) }
    {
        Tally { most, events: 0 }
    }
}

/// Its ghost members say what each call answers and leaves, and that the answers fit each other.
impl Subscriber for Tally {
    ghost use Rattle.std.specs.Prelude.{◌↔◌};
    ghost use Rattle.std.proofs.Common.{◌∙◌, subst, sym};
    ghost use Rattle.tracing_core.specs.Steady.{SameWord};

    ghost answers = { λ x m at b. b ≡ nat_le m.level x.most };

    ghost says = { λ x m k. k ≡ level_interest x.most m.level };

    ghost hint = { λ x. Some x.most };

    ghost moves = { λ x c r y. (r ≡ tally_reply x.most c) × (y ≡ record x { events = events_after c x.events }) };

    ghost steady = { λ x. Unit {0} };

    ghost fair = { λ x _. level_agrees x.most };

    ghost single = { λ x m at a b k p q. p ∙ sym q };

    ghost stays = { λ x c r y moved k. (
      tt,
      subst (λ z. SameWord (λ m j. j ≡ level_interest x.most m.level) (λ m j. j ≡ level_interest z.most m.level)
          (Some x.most) (Some z.most)) (sym moved.1) (same_word (λ m j. j ≡ level_interest x.most m.level)
          (Some x.most)),
    ) };

    ghost quiet = { λ x m n at now r y b moved k. subst (λ z. (b ≡ nat_le n.level x.most) ↔
        (b ≡ nat_le n.level z.most)) (sym moved.1) (λ e. e, λ e. e) };

    fn on_register_dispatch(&mut self, _dispatch: &WeakDispatch) {}

    fn register_callsite(&mut self, metadata: &Metadata<'_>) -> Interest {
        if self.most.passes(*metadata.level()) {
            Interest::always()
        } else {
            Interest::never()
        }
    }

    fn enabled(&mut self, metadata: &Metadata<'_>, _at: At) -> bool {
        self.most.passes(*metadata.level())
    }

    fn max_level_hint(&mut self) -> Option<LevelFilter> {
        Some(self.most)
    }

    fn new_span(
        &mut self,
        _attributes: &Attributes<'_, '_>,
        _at: At,
    ) -> Result<Option<Id>, RequestError> {
        Ok(None)
    }

    fn record(&mut self, _span: &Id, _values: &Record<'_>, _at: At) -> Result<(), RequestError> {
        Ok(())
    }

    fn record_follows_from(
        &mut self,
        _span: &Id,
        _follows: &Id,
        _at: At,
    ) -> Result<(), RequestError> {
        Ok(())
    }

    fn event_enabled(&mut self, _event: &Event<'_, '_>, _at: At) -> bool {
        true
    }

    fn event(&mut self, _event: &Event<'_, '_>, _at: At) -> Result<(), RequestError> {
        self.events = self.events.saturating_add(1);
        Ok(())
    }

    fn enter(&mut self, _span: &Id, _at: At) -> Result<(), RequestError> {
        Ok(())
    }

    fn exit(&mut self, _span: &Id, _at: At) {}

    fn clone_span(&mut self, span: &Id, _at: At) -> Result<Id, RequestError> {
        Ok(*span)
    }

    fn drop_span(&mut self, _span: Id, _at: At) {}

    fn try_close(&mut self, _span: Id, _at: At) -> bool {
        false
    }

    fn current_span(&mut self, _at: At) -> CurrentSpan {
        CurrentSpan::Unknown
    }
}

/// A hub of one subscriber, and its handle. What the hub keeps of the subscriber's answers is right.
///
/// # Errors
///
/// Out of memory; the subscriber comes back.
pub fn hub_of<S: Subscriber, C: Callsite>(
    alloc: Global,
    subscriber: S,
) -> Result<(Hub<S, C>, Dispatch), AddError<S>>
    ensures right { IfOk result (λ made. S.steady subscriber →
        ((e : KeptSubscriber S) × (made.1 ≡ Some e.serial) ×
        HasValidCache ⟦<S as Subscriber>⟧ ⟦<C as Callsite>⟧ made.0 e)) }
    ensures sound { IfOk result (λ made. IsSound ⟦<C as Callsite>⟧ made.0) }
{
    let mut hub = Hub::new(alloc);
    match hub.add(subscriber) {
        Ok(dispatch) => Ok((hub, dispatch)),
        Err(refused) => Err(refused),
    }
}

/// Lets each lane that runs and has no default of its own reach the subscriber of the handle.
///
/// # Errors
///
/// This was done before, or the hub doesn't know the handle; the hub is as it was.
pub fn reach_by_default<S: Subscriber, C: Callsite>(
    hub: &mut Hub<S, C>,
    dispatch: &Dispatch,
) -> Result<(), SetGlobalDefaultError>
    ensures reached { OnOk result ((lane : ℕ) → own_setting (slice_get hub.old.lanes lane) ≡ Unset →
        reached hub.new lane ≡ dispatch.now) }
    ensures lanes { hub.new.lanes ≡ hub.old.lanes }
    ensures refused { OnErr result (hub.new ≡ hub.old) }
    ensures keeps { PreservesCaches ⟦<S as Subscriber>⟧ ⟦<C as Callsite>⟧ hub.old hub.new }
{
    hub.set_global_default(dispatch)
}

/// Hands an event to the tally that its lane reaches, where the hub lets its callsite through, and tells
/// whether it did.
pub fn log_event<C: Callsite>(hub: &mut Hub<Tally, C>, event: &Event<'_, '_>, at: At) -> bool
    ensures nobody { reached hub.old at.lane ≡ None → (result ≡ false) × (hub.new ≡ hub.old) }
    // With a valid cache of the reached tally, the event is handed on exactly where the tally's level passes it.
    ensures wanted { (row : KeptCallsite C) (e : KeptSubscriber Tally) →
        callsite_with (plain_event event.now).metadata.callsite hub.old.callsites ≡ Some row →
        reached hub.old at.lane ≡ Some e.serial → HasValidCache ⟦<Tally as Subscriber>⟧ ⟦<C as Callsite>⟧ hub.old e →
        result ≡ nat_le (C.metadata_of row.callsite).level e.subscriber.most }
    // The reached tally counts the event exactly where it was handed on.
    ensures counted { (e : KeptSubscriber Tally) → reached hub.old at.lane ≡ Some e.serial →
        subscriber_with e.serial hub.old.subscribers ≡ Some e → option_map (λ f. f.subscriber.events)
        (subscriber_with e.serial hub.new.subscribers) ≡ Some (if result then counted e.subscriber.events else
        e.subscriber.events) }
    ensures keeps { PreservesCaches ⟦<Tally as Subscriber>⟧ ⟦<C as Callsite>⟧ hub.old hub.new }
{
    match hub.gate(event.metadata().callsite(), at) {
        Some(true) => hub.event_here(event, at).is_ok(),
        _ => false,
    }
}

/// How many events the tally of the handle was told of.
pub fn events_of<C: Callsite>(hub: &Hub<Tally, C>, dispatch: &Dispatch) -> Option<u64>
    ensures { result ≡ option_map (λ e. e.subscriber.events) (living_of dispatch.now hub.now.subscribers) }
{
    match hub.subscriber(&dispatch.downgrade()) {
        Some(tally) => Some(tally.events),
        None => None,
    }
}
