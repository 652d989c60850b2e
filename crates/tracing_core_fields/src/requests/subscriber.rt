//! What takes the requests.
ghost use Rattle.std.specs.Prelude.{◌≡◌, ◌↔◌, ℕ, Bool, Option};
ghost use Rattle.tracing_core_fields.specs.Metadata.{plain_metadata};
ghost use Rattle.tracing_core_fields.specs.PlainMetadata.{PlainMetadata};
ghost use Rattle.tracing_core_fields.specs.requests.Calls.{Call, ReplyTo, DispatchRegistered, CallsiteRegistered, Asked, HintAsked};
ghost use Rattle.tracing_core_fields.specs.requests.Calls.{SpanMade, Recorded, FollowsRecorded, EventAsked, EventDispatched, Entered};
ghost use Rattle.tracing_core_fields.specs.requests.Calls.{Exited, Cloned, Dropped, CloseTried, CurrentAsked};
ghost use Rattle.tracing_core_fields.specs.requests.Interests.{PlainInterest};
ghost use Rattle.tracing_core_fields.specs.requests.PlainRequests.{plain_attributes, plain_event, plain_record};
ghost use Rattle.tracing_core_fields.specs.requests.Steady.{Agrees, SameWord};

mod boxed;
mod boxed_one;
mod none;

use crate::requests::arguments::{Attributes, Event, Record};
use crate::requests::current_span::CurrentSpan;
use crate::requests::dispatch::WeakDispatch;
use crate::requests::interest::Interest;
use crate::requests::refusal::RequestError;
use crate::{Id, LevelFilter, Metadata};
pub use none::NoSubscriber;
use tracing_core_moments::At;

/// What takes the requests: the making, entering and closing of spans, and events.
///
/// A subscriber that is consistent is steady: what it says is never enabled isn't, what it says is always
/// enabled is, no level above its hint is; asked twice in one place it answers the same, a question changes
/// none of its answers, and no call changes what it says of its interests, or its hint.
pub trait Subscriber: Drop {
    ghost use Rattle.tracing_core_moments.specs.declared.at.At.{At};

    // What it may answer where it is asked.
    ghost answers: { Self → PlainMetadata → At → Bool → Type 0 };

    // What it may say of its interest in a callsite.
    ghost says: { Self → PlainMetadata → PlainInterest → Type 0 };

    // The rank of the most verbose level that it enables.
    ghost hint: { Self → Option ℕ };

    // What a call may answer and leave.
    ghost moves: { Self → (c : Call) → ReplyTo c → Self → Type 0 };

    // Which values are consistent.
    ghost steady: { Self → Type 0 };

    ghost fair: { (x : Self) → steady x → Agrees (answers x) (says x) (hint x) };

    ghost single: { (x : Self) (m : PlainMetadata) (at : At) (a b : Bool) → steady x → answers x m at a →
        answers x m at b → a ≡ b };

    ghost stays: { (x : Self) (c : Call) (r : ReplyTo c) (y : Self) → moves x c r y → steady x → steady y ×
        SameWord (says x) (says y) (hint x) (hint y) };

    ghost quiet: { (x : Self) (m n : PlainMetadata) (at now : At) (r : Bool) (y : Self) (b : Bool) →
        moves x (Asked m at) r y → steady x → (answers x n now b ↔ answers y n now b) };

    /// Is told that a hub took it, and gave out this handle.
    fn on_register_dispatch(&mut self, dispatch: &WeakDispatch)
        ensures { moves self.old (DispatchRegistered dispatch.now) result self.new };

    /// Its interest in a callsite.
    fn register_callsite(&mut self, metadata: &Metadata<'_>) -> Interest
        ensures answer { says self.old (plain_metadata metadata.now) result }
        ensures state { moves self.old (CallsiteRegistered (plain_metadata metadata.now)) result self.new };

    /// Whether it wants a span or an event of the callsite, made there and then.
    fn enabled(&mut self, metadata: &Metadata<'_>, at: At) -> bool
        ensures answer { answers self.old (plain_metadata metadata.now) at result }
        ensures state { moves self.old (Asked (plain_metadata metadata.now) at) result self.new };

    /// The most verbose level that it enables, where it knows one.
    fn max_level_hint(&mut self) -> Option<LevelFilter>
        ensures answer { result ≡ hint self.old }
        ensures state { moves self.old HintAsked result self.new };

    /// Makes a span, and answers its id, or `None` where the span is dropped.
    fn new_span(
        &mut self,
        attributes: &Attributes<'_, '_>,
        at: At,
    ) -> Result<Option<Id>, RequestError>
        ensures { moves self.old (SpanMade (plain_attributes attributes.now) at) result self.new };

    /// Records more values of a span.
    fn record(&mut self, span: &Id, values: &Record<'_>, at: At) -> Result<(), RequestError>
        ensures { moves self.old (Recorded span.now (plain_record values.now) at) result self.new };

    /// Records that a span follows from another one.
    fn record_follows_from(&mut self, span: &Id, follows: &Id, at: At) -> Result<(), RequestError>
        ensures { moves self.old (FollowsRecorded span.now follows.now at) result self.new };

    /// Whether it wants the event, whose callsite is enabled.
    fn event_enabled(&mut self, event: &Event<'_, '_>, at: At) -> bool
        ensures { moves self.old (EventAsked (plain_event event.now) at) result self.new };

    /// Takes an event.
    fn event(&mut self, event: &Event<'_, '_>, at: At) -> Result<(), RequestError>
        ensures { moves self.old (EventDispatched (plain_event event.now) at) result self.new };

    /// The lane enters a span.
    fn enter(&mut self, span: &Id, at: At) -> Result<(), RequestError>
        ensures { moves self.old (Entered span.now at) result self.new };

    /// The lane leaves a span.
    fn exit(&mut self, span: &Id, at: At)
        ensures { moves self.old (Exited span.now at) result self.new };

    /// Counts one more handle of a span, and answers the id to use for it.
    fn clone_span(&mut self, span: &Id, at: At) -> Result<Id, RequestError>
        ensures { moves self.old (Cloned span.now at) result self.new };

    /// Counts one handle of a span less.
    fn drop_span(&mut self, span: Id, at: At)
        ensures { moves self.old (Dropped span at) result self.new };

    /// Counts one handle of a span less, and answers whether the span closed.
    fn try_close(&mut self, span: Id, at: At) -> bool
        ensures { moves self.old (CloseTried span at) result self.new };

    /// The span that the lane is in.
    fn current_span(&mut self, at: At) -> CurrentSpan
        ensures { moves self.old (CurrentAsked at) result self.new };
}
