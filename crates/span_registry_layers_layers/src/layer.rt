//! What an output does with what it is told.
ghost use Rattle.std.specs.Prelude.{◌≡◌, ◌≤◌, ◌+◌, ℕ, Bool, true, false, List, [], Option, None, length};
ghost use Rattle.tracing_core_fields.specs.declared.requests.interest.InterestInner.TheVariants.{Always};
ghost use Rattle.tracing_core_fields.specs.requests.Interests.{PlainInterest};
ghost use Rattle.tracing_core_fields.specs.Metadata.{plain_metadata};
ghost use Rattle.tracing_core_fields.specs.PlainMetadata.{PlainMetadata};
ghost use Rattle.tracing_core_fields.specs.requests.PlainRequests.{PlainEvent, plain_attributes, plain_event, plain_record};
ghost use Rattle.tracing_core_fields.specs.requests.Steady.{SameWord};
ghost use Rattle.span_registry_layers_layers.specs.Honesty.{Fair, OneAnswer};
ghost use Rattle.span_registry_layers_layers.specs.FilterViews.{Closed, Entered, Exited, Recorded, SameLoan, SpanMade, View, left, view};
ghost use Rattle.span_registry_layers_layers.specs.Notices.{AddsFilters, Attached, Dispatched, Followed, Happened, Notice, Renamed};
ghost use Rattle.span_registry_layers_layers.specs.Notices.{Spanned, Untouched, WritesUnder};
ghost use Rattle.span_registry_layers_layers.specs.LayerNotices.{notice};
ghost use Rattle.span_registry_layers_layers.specs.FilterNumbers.{AreNumbers, NumbersStay, SameBut, SameOf, more_filters, numbers_from};
ghost use Rattle.span_registry_layers_layers.specs.FilterNumbers.{room_after};

mod boxed;
mod ext;
mod filtered;
mod identity;
mod layered;
mod listening;
mod optional;
mod several;
mod told;
mod veto;

use crate::context::Context;
pub use ext::{LayerExt, SubscriberExt};
pub use identity::Identity;
pub use layered::Layered;
pub use listening::{Listener, Listening};
use span_registry_layers_store::{FilterMap, Registry};
pub use told::Told;
use tracing_core_fields::{
    Attributes, Event, Id, Interest, LevelFilter, Metadata, Record, WeakDispatch,
};

/// What an output does with the spans and events that it is told.
///
/// A notice answers nothing: a layer that finds no memory keeps that in its own state, so what a notice may
/// make of it is a relation. What it may write is slots under its `keys`; all else of the registry stays, but
/// that `on_layer` may number filters. Where nothing is said of `keys` there are none, so that the registry
/// stays as it was; a layer that writes says in `told` what it writes, by the registry that the notice holds
/// as it is left. An honest layer is consistent as an honest filter does, whatever it is told.
///
/// A layer that only listens is written as a `Listener`, by one method and no law, and `Listening` makes the layer of
/// it. Who writes a layer itself writes at least six laws (`fair`, `stays`, `numbered`, `once`, `aside`, `keyed`) and
/// nine methods: `hear`, the four that answer whether something passes, and `on_register_dispatch`, `on_layer`,
/// `room_left` and `ask_span`. What a layer doesn't say is what one does that passes all, says so, knows no hint, and
/// changes nothing by what it is told. A hook that does nothing is a case of `hear` that does nothing.
pub trait Layer: Drop {
    // What it may answer of a callsite, by what it may look at.
    ghost answers: { Self → PlainMetadata → View → Bool → Type 0 } = { λ x m v b. b ≡ true };

    // What it may answer of an event that it passed so far.
    ghost event_answers: { Self → PlainEvent → View → Bool → Type 0 } = { λ x e v b. b ≡ true };

    // What it may say of its interest in a callsite.
    ghost says: { Self → PlainMetadata → PlainInterest → Type 0 } = { λ x m k. k ≡ Always };

    // The rank of the most verbose level that it passes.
    ghost hint: { Self → Option ℕ } = { λ x. None };

    // What a notice may make of it.
    ghost told: { Self → Notice → Self → Type 0 } = { λ x n y. (y ≡ x) × Untouched n };

    // Which values are consistent.
    ghost honest: { Self → Type 0 } = { λ x. Unit {0} };

    // How many filters it has.
    ghost filters: { Self → ℕ } = { λ x. 0 };

    // The numbers of those that have one.
    ghost numbers: { Self → List ℕ } = { λ x. [] };

    // What its filters may say of a new span where all filters above it say this, and whether one of its
    // layers is told.
    ghost kept: { Self → PlainMetadata → View → Bool → List Bool → Bool → Type 0 } = { λ x m v passes verdicts some. some ≡ passes };

    // The keys of outputs under which it writes slots.
    ghost keys: { Self → ℕ → Bool } = { λ x key. false };

    ghost fair: { (x : Self) → honest x → Fair (answers x) (says x) (hint x) };

    ghost stays: { (x : Self) (n : Notice) (y : Self) → told x n y → honest x → honest y ×
        SameWord (says x) (says y) (hint x) (hint y) };

    ghost numbered: { (x : Self) (n : Notice) (y : Self) → told x n y → NumbersStay n (numbers x) (numbers y) };

    ghost once: { (x : Self) → honest x → OneAnswer (kept x) };

    ghost aside: { (x : Self) (n : Notice) (y : Self) → told x n y → WritesUnder (keys x) n };

    ghost keyed: { (x : Self) (n : Notice) (y : Self) → told x n y → (key : ℕ) → keys y key ≡ keys x key };

    /// Is told that a hub took the stack that it is in, and gave out this handle.
    fn on_register_dispatch(&mut self, dispatch: &WeakDispatch)
        ensures { told self.old (Dispatched dispatch.now) self.new };

    /// Is told that it was attached to a registry, which it may have number its filters.
    fn on_layer(&mut self, registry: &mut Registry)
        ensures notified { told self.old (Attached registry.old) self.new }
        ensures filters { AddsFilters registry.old registry.new }
        // Its filters are numbered in turn, where there is room for all of them.
        ensures numbers { registry.old.filters + filters self.old ≤ 64 →
            (registry.new ≡ more_filters (filters self.old) registry.old) ×
            (numbers self.new ≡ numbers_from registry.old.filters (filters self.old)) };

    /// How much is left of a room for filters once it has taken its own, and `None` where that is too little.
    fn room_left(&self, room: u8) -> Option<u8>
        ensures { result ≡ room_after room (filters self.now) };

    /// Asks its filters of a new span, where all filters above it say `passes`: what was known so far with what each of
    /// them says, and whether one of its layers is to be told.
    fn ask_span(
        &self,
        metadata: &Metadata<'_>,
        context: &mut Context<'_>,
        passes: bool,
        verdicts: FilterMap,
    ) -> (FilterMap, bool)
        ensures lent { SameLoan context.old context.new }
        ensures same { left context.new ≡ left context.old }
        ensures room { length result.0.passed ≡ length verdicts.passed }
        ensures others { SameBut (numbers self.now) verdicts.passed result.0.passed }
        // What its filters said is kept in every list of verdicts that agrees with the answer on their numbers, whatever other
        // filters say.
        ensures kept { (later : List Bool) → AreNumbers (length verdicts.passed) (numbers self.now) →
            SameOf (numbers self.now) result.0.passed later →
            kept self.now (plain_metadata metadata.now) (view context.old) passes later result.1 };

    /// Its interest in a callsite.
    fn register_callsite(&self, metadata: &Metadata<'_>) -> Interest
        ensures { says self.now (plain_metadata metadata.now) result };

    /// Whether spans and events of the callsite pass, made there and then. Where it refuses, nobody is told.
    fn enabled(&self, metadata: &Metadata<'_>, context: &Context<'_>) -> bool
        ensures { answers self.now (plain_metadata metadata.now) (view context.now) result };

    /// Does what the layer does with what it is told of spans and events. Each of the hooks below hands its call to this
    /// one, where the layer doesn't write the hook itself.
    fn hear(&mut self, call: &Told<'_, '_, '_, '_>, context: &mut Context<'_>)
        ensures lent { SameLoan context.old context.new }
        ensures notified { told self.old (notice call.now (view context.old) (left context.new)) self.new };

    /// Is told that a span was made.
    fn on_new_span(&mut self, attributes: &Attributes<'_, '_>, span: &Id, context: &mut Context<'_>)
        ensures lent { SameLoan context.old context.new }
        ensures notified { told self.old (Spanned span.now (SpanMade (plain_attributes attributes.now) span.now)
            (view context.old) (left context.new)) self.new }
    {
        self.hear(&Told::NewSpan(span, attributes), context);
    }

    /// The most verbose level that passes, where it knows one.
    fn max_level_hint(&self) -> Option<LevelFilter>
        ensures { result ≡ hint self.now };

    /// Is told that values were recorded on a span.
    fn on_record(&mut self, span: &Id, values: &Record<'_>, context: &mut Context<'_>)
        ensures lent { SameLoan context.old context.new }
        ensures notified { told self.old (Spanned span.now (Recorded span.now (plain_record values.now))
            (view context.old) (left context.new)) self.new }
    {
        self.hear(&Told::Record(span, values), context);
    }

    /// Is told that a span was said to follow from another one.
    fn on_follows_from(&mut self, span: &Id, follows: &Id, context: &mut Context<'_>)
        ensures lent { SameLoan context.old context.new }
        ensures notified { told self.old (Followed span.now follows.now (view context.old) (left context.new))
            self.new }
    {
        self.hear(&Told::FollowsFrom(span, follows), context);
    }

    /// Whether an event passes, whose callsite does. Where it refuses, nobody is told.
    fn event_enabled(&self, event: &Event<'_, '_>, context: &Context<'_>) -> bool
        ensures { event_answers self.now (plain_event event.now) (view context.now) result };

    /// Is told that an event happened.
    fn on_event(&mut self, event: &Event<'_, '_>, context: &mut Context<'_>)
        ensures lent { SameLoan context.old context.new }
        ensures notified { told self.old (Happened (plain_event event.now) (view context.old) (left context.new))
            self.new }
    {
        self.hear(&Told::Event(event), context);
    }

    /// Is told that a span was entered.
    fn on_enter(&mut self, span: &Id, context: &mut Context<'_>)
        ensures lent { SameLoan context.old context.new }
        ensures notified { told self.old (Spanned span.now (Entered span.now) (view context.old) (left context.new))
            self.new }
    {
        self.hear(&Told::Enter(span), context);
    }

    /// Is told that a span was left.
    fn on_exit(&mut self, span: &Id, context: &mut Context<'_>)
        ensures lent { SameLoan context.old context.new }
        ensures notified { told self.old (Spanned span.now (Exited span.now) (view context.old) (left context.new))
            self.new }
    {
        self.hear(&Told::Exit(span), context);
    }

    /// Is told that a span closes: it can still be looked at.
    fn on_close(&mut self, span: &Id, context: &mut Context<'_>)
        ensures lent { SameLoan context.old context.new }
        ensures notified { told self.old (Spanned span.now (Closed span.now) (view context.old) (left context.new))
            self.new }
    {
        self.hear(&Told::Close(span), context);
    }

    /// Is told that a span has another id. No stack of this crate calls it.
    fn on_id_change(&mut self, old: &Id, new: &Id, context: &mut Context<'_>)
        ensures lent { SameLoan context.old context.new }
        ensures notified { told self.old (Renamed old.now new.now (view context.old) (left context.new)) self.new }
    {
        self.hear(&Told::IdChange(old, new), context);
    }
}
