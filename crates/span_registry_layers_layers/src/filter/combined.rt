//! Filters made of other filters.
ghost use Rattle.std.specs.Prelude.{◌≡◌, None, true};
ghost use Rattle.span_registry_layers_layers.specs.Combined.{both_hints, both_interests, either_hint, either_interest, turned_interest};
ghost use Rattle.span_registry_layers_layers.specs.Firms.{both_firm, either_firm, turned_firm};
ghost use Rattle.span_registry_layers_layers.specs.Singles.{both_single, either_single, turned_single};

use crate::context::Context;
use crate::filter::{Filter, SpanCall};
use tracing_core_fields::{Event, Interest, LevelFilter, Metadata};

/// Passes what both filters pass.
#[derive(Clone, Copy, Debug, Drop)]
pub struct And<A, B> {
    a: A,
    b: B,
}

/// Passes what one of the filters passes.
#[derive(Clone, Copy, Debug, Drop)]
pub struct Or<A, B> {
    a: A,
    b: B,
}

/// Passes what the filter refuses.
#[derive(Clone, Copy, Debug, Drop)]
pub struct Not<A> {
    a: A,
}

impl<A, B> And<A, B> {
    /// Passes what both filters pass.
    pub fn new(a: A, b: B) -> And<A, B>
        ensures { (result.a ≡ a) × (result.b ≡ b) }
    {
        And { a, b }
    }
}

impl<A, B> Or<A, B> {
    /// Passes what one of the filters passes.
    pub fn new(a: A, b: B) -> Or<A, B>
        ensures { (result.a ≡ a) × (result.b ≡ b) }
    {
        Or { a, b }
    }
}

impl<A> Not<A> {
    /// Passes what the filter refuses.
    pub fn new(a: A) -> Not<A>
        ensures { result.a ≡ a }
    {
        Not { a }
    }
}

impl<A: Filter, B: Filter> Filter for And<A, B> {
    ghost use Rattle.span_registry_layers_layers.specs.Combined.{Both, SaysOf, both_fair, both_hints, both_interests, joined_word};

    ghost answers = { λ f m v r. Both (A.answers f.a m v) (B.answers f.b m v) r };

    ghost event_answers = { λ f e v r. Both (A.event_answers f.a e v) (B.event_answers f.b e v) r };

    ghost says = { λ f m k. SaysOf both_interests (A.says f.a m) (B.says f.b m) k };

    ghost hint = { λ f. both_hints (A.hint f.a) (B.hint f.b) };

    ghost after = { λ f h. record { a = A.after f.a h; b = B.after f.b h } };

    ghost honest = { λ f. A.honest f.a × B.honest f.b };

    ghost fair = { λ f k. both_fair (A.fair f.a k.0) (B.fair f.b k.1) };

    ghost stays = { λ f h k. (
      (((A.stays f.a h k.0).0, (B.stays f.b h k.1).0)),
      joined_word both_interests both_hints (A.stays f.a h k.0).1 (B.stays f.b h k.1).1,
    ) };

    ghost single = { λ f k. both_single (A.single f.a k.0) (B.single f.b k.1) };

    ghost firm = { λ f k. both_firm (A.firm f.a k.0) (B.firm f.b k.1) };

    fn enabled(&self, metadata: &Metadata<'_>, context: &Context<'_>) -> bool {
        self.a.enabled(metadata, context) && self.b.enabled(metadata, context)
    }

    fn callsite_enabled(&self, metadata: &Metadata<'_>) -> Interest {
        both_interests(
            self.a.callsite_enabled(metadata),
            self.b.callsite_enabled(metadata),
        )
    }

    fn event_enabled(&self, event: &Event<'_, '_>, context: &Context<'_>) -> bool {
        self.a.event_enabled(event, context) && self.b.event_enabled(event, context)
    }

    fn max_level_hint(&self) -> Option<LevelFilter> {
        both_hints(self.a.max_level_hint(), self.b.max_level_hint())
    }

    fn hear(&mut self, call: &SpanCall<'_, '_, '_, '_>, context: &Context<'_>) {
        self.a.hear(call, context);
        self.b.hear(call, context);
    }
}

impl<A: Filter, B: Filter> Filter for Or<A, B> {
    ghost use Rattle.span_registry_layers_layers.specs.Combined.{Either, SaysOf, either_fair, either_hint, either_interest, joined_word};

    ghost answers = { λ f m v r. Either (A.answers f.a m v) (B.answers f.b m v) r };

    ghost event_answers = { λ f e v r. Either (A.event_answers f.a e v) (B.event_answers f.b e v) r };

    ghost says = { λ f m k. SaysOf either_interest (A.says f.a m) (B.says f.b m) k };

    ghost hint = { λ f. either_hint (A.hint f.a) (B.hint f.b) };

    ghost after = { λ f h. record { a = A.after f.a h; b = B.after f.b h } };

    ghost honest = { λ f. A.honest f.a × B.honest f.b };

    ghost fair = { λ f k. either_fair (A.fair f.a k.0) (B.fair f.b k.1) };

    ghost stays = { λ f h k. (
      (((A.stays f.a h k.0).0, (B.stays f.b h k.1).0)),
      joined_word either_interest either_hint (A.stays f.a h k.0).1 (B.stays f.b h k.1).1,
    ) };

    ghost single = { λ f k. either_single (A.single f.a k.0) (B.single f.b k.1) };

    ghost firm = { λ f k. either_firm (A.firm f.a k.0) (B.firm f.b k.1) };

    fn enabled(&self, metadata: &Metadata<'_>, context: &Context<'_>) -> bool {
        self.a.enabled(metadata, context) || self.b.enabled(metadata, context)
    }

    fn callsite_enabled(&self, metadata: &Metadata<'_>) -> Interest {
        either_interest(
            self.a.callsite_enabled(metadata),
            self.b.callsite_enabled(metadata),
        )
    }

    fn event_enabled(&self, event: &Event<'_, '_>, context: &Context<'_>) -> bool {
        self.a.event_enabled(event, context) || self.b.event_enabled(event, context)
    }

    fn max_level_hint(&self) -> Option<LevelFilter> {
        either_hint(self.a.max_level_hint(), self.b.max_level_hint())
    }

    fn hear(&mut self, call: &SpanCall<'_, '_, '_, '_>, context: &Context<'_>) {
        self.a.hear(call, context);
        self.b.hear(call, context);
    }
}

impl<A: Filter> Filter for Not<A> {
    ghost use Rattle.span_registry_layers_layers.specs.Combined.{SaysTurned, Turned, turned_fair, turned_word};

    ghost answers = { λ f m v r. Turned (A.answers f.a m v) r };

    ghost event_answers = { λ f e v r. r ≡ true };

    ghost says = { λ f m k. SaysTurned (A.says f.a m) k };

    ghost hint = { λ f. None };

    ghost after = { λ f h. record { a = A.after f.a h } };

    ghost honest = { λ f. A.honest f.a };

    ghost fair = { λ f k. turned_fair (A.fair f.a k) };

    ghost stays = { λ f h k. ((A.stays f.a h k).0, turned_word (A.stays f.a h k).1) };

    ghost single = { λ f k. turned_single (A.single f.a k) };

    ghost firm = { λ f k. turned_firm (A.firm f.a k) };

    fn enabled(&self, metadata: &Metadata<'_>, context: &Context<'_>) -> bool {
        !self.a.enabled(metadata, context)
    }

    fn callsite_enabled(&self, metadata: &Metadata<'_>) -> Interest {
        turned_interest(self.a.callsite_enabled(metadata))
    }

    // What `enabled` passed isn't refused by what the other filter says of the event.
    fn event_enabled(&self, _event: &Event<'_, '_>, _context: &Context<'_>) -> bool {
        true
    }

    fn max_level_hint(&self) -> Option<LevelFilter> {
        None
    }

    fn hear(&mut self, call: &SpanCall<'_, '_, '_, '_>, context: &Context<'_>) {
        self.a.hear(call, context);
    }
}

// Never where one never passes, always where both always pass.
fn both_interests(a: Interest, b: Interest) -> Interest
    ensures { result ≡ both_interests a b }
{
    if a.is_never() || b.is_never() {
        Interest::never()
    } else if a.is_always() && b.is_always() {
        Interest::always()
    } else {
        Interest::sometimes()
    }
}

// Known where both are, the lower of two.
fn both_hints(a: Option<LevelFilter>, b: Option<LevelFilter>) -> Option<LevelFilter>
    ensures { result ≡ both_hints a b }
{
    match (a, b) {
        (Some(a), Some(b)) => Some(if a < b { a } else { b }),
        (_, _) => None,
    }
}

// Always where one always passes, never where both never pass.
pub(crate) fn either_interest(a: Interest, b: Interest) -> Interest
    ensures { result ≡ either_interest a b }
{
    if a.is_always() || b.is_always() {
        Interest::always()
    } else if a.is_never() && b.is_never() {
        Interest::never()
    } else {
        Interest::sometimes()
    }
}

/// The higher of two hints, and none where one is absent.
pub fn either_hint(a: Option<LevelFilter>, b: Option<LevelFilter>) -> Option<LevelFilter>
    ensures { result ≡ either_hint a b }
{
    match (a, b) {
        (Some(a), Some(b)) => Some(if a < b { b } else { a }),
        (_, _) => None,
    }
}

// Always where it never passes, and never where it always passes.
fn turned_interest(a: Interest) -> Interest
    ensures { result ≡ turned_interest a }
{
    if a.is_never() {
        Interest::always()
    } else if a.is_always() {
        Interest::never()
    } else {
        a
    }
}
