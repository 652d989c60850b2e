//! What decides which spans and events an output is told.
ghost use Rattle.std.specs.Prelude.{◌≡◌, ℕ, Bool, true, Option};
ghost use Rattle.tracing_core_fields.specs.requests.Interests.{PlainInterest};
ghost use Rattle.tracing_core_fields.specs.Metadata.{plain_metadata};
ghost use Rattle.tracing_core_fields.specs.PlainMetadata.{PlainMetadata};
ghost use Rattle.tracing_core_fields.specs.requests.PlainRequests.{PlainEvent, plain_attributes, plain_event, plain_record};
ghost use Rattle.tracing_core_fields.specs.requests.Steady.{SameWord};
ghost use Rattle.span_registry_layers_layers.specs.Honesty.{Fair, Firm, Single};
ghost use Rattle.span_registry_layers_layers.specs.FilterViews.{Closed, Entered, Exited, Hook, Recorded, SpanMade, View, view};
ghost use Rattle.span_registry_layers_layers.specs.SpanCalls.{hook};

mod boxed;
mod boxed_send;
mod combined;
mod dynamic;
mod ext;
mod function;
mod level;
mod optional;
mod span_call;

use crate::context::Context;
pub(crate) use combined::either_interest;
pub use combined::{And, Not, Or, either_hint};
pub use dynamic::{CallsiteTest, ContextTest, DynFilterFn, dynamic_filter_fn};
pub use ext::FilterExt;
pub use function::{FilterFn, MetadataTest, filter_fn};
pub use span_call::SpanCall;
use tracing_core_fields::{Attributes, Event, Id, Interest, LevelFilter, Metadata, Record};

/// Decides which spans and events an output is told.
///
/// An honest filter passes what it says it always passes, and refuses what it says it never passes and what
/// is above its hint, wherever it is asked; asked twice of the same in the same place it answers the same; it
/// says one thing of a callsite, and not that it always passes what is above its hint; no call changes what
/// it says, or its hint, or its honesty.
pub trait Filter: Drop {
    // What it may answer of a callsite, by what it may look at.
    ghost answers: { Self → PlainMetadata → View → Bool → Type 0 };

    // What it may answer of an event that it passed so far.
    ghost event_answers: { Self → PlainEvent → View → Bool → Type 0 } = { λ x e v b. b ≡ true };

    // What it may say of its interest in a callsite.
    ghost says: { Self → PlainMetadata → PlainInterest → Type 0 };

    // The rank of the most verbose level that it passes.
    ghost hint: { Self → Option ℕ };

    // What a call makes of it.
    ghost after: { Self → Hook → Self } = { λ x h. x };

    // Which values are consistent.
    ghost honest: { Self → Type 0 } = { λ x. Unit {0} };

    ghost fair: { (x : Self) → honest x → Fair (answers x) (says x) (hint x) };

    ghost stays: { (x : Self) (h : Hook) → honest x → honest (after x h) ×
        SameWord (says x) (says (after x h)) (hint x) (hint (after x h)) };

    ghost single: { (x : Self) → honest x → Single (answers x) (event_answers x) };

    ghost firm: { (x : Self) → honest x → Firm (says x) (hint x) };

    /// Whether spans and events of the callsite pass, made there and then.
    fn enabled(&self, metadata: &Metadata<'_>, context: &Context<'_>) -> bool
        ensures { answers self.now (plain_metadata metadata.now) (view context.now) result };

    /// Its interest in a callsite.
    fn callsite_enabled(&self, metadata: &Metadata<'_>) -> Interest
        ensures { says self.now (plain_metadata metadata.now) result };

    /// Whether an event passes, whose callsite does.
    fn event_enabled(&self, event: &Event<'_, '_>, context: &Context<'_>) -> bool
        ensures { event_answers self.now (plain_event event.now) (view context.now) result };

    /// The most verbose level that passes, where it knows one.
    fn max_level_hint(&self) -> Option<LevelFilter>
        ensures { result ≡ hint self.now };

    /// Does what the filter does with what it is told of spans that it passed. Each of the hooks below hands its call to
    /// this one, where the filter doesn't write the hook itself.
    fn hear(&mut self, call: &SpanCall<'_, '_, '_, '_>, context: &Context<'_>)
        ensures { self.new ≡ after self.old (hook call.now (view context.now)) };

    /// Is told that a span that passed was made.
    fn on_new_span(&mut self, attributes: &Attributes<'_, '_>, span: &Id, context: &Context<'_>)
        ensures { self.new ≡ after self.old (SpanMade (plain_attributes attributes.now) span.now (view context.now)) }
    {
        self.hear(&SpanCall::NewSpan(span, attributes), context);
    }

    /// Is told that values were recorded on a span that passed.
    fn on_record(&mut self, span: &Id, values: &Record<'_>, context: &Context<'_>)
        ensures { self.new ≡ after self.old (Recorded span.now (plain_record values.now) (view context.now)) }
    {
        self.hear(&SpanCall::Record(span, values), context);
    }

    /// Is told that a span that passed was entered.
    fn on_enter(&mut self, span: &Id, context: &Context<'_>)
        ensures { self.new ≡ after self.old (Entered span.now (view context.now)) }
    {
        self.hear(&SpanCall::Enter(span), context);
    }

    /// Is told that a span that passed was left.
    fn on_exit(&mut self, span: &Id, context: &Context<'_>)
        ensures { self.new ≡ after self.old (Exited span.now (view context.now)) }
    {
        self.hear(&SpanCall::Exit(span), context);
    }

    /// Is told that a span that passed closed.
    fn on_close(&mut self, span: &Id, context: &Context<'_>)
        ensures { self.new ≡ after self.old (Closed span.now (view context.now)) }
    {
        self.hear(&SpanCall::Close(span), context);
    }
}
