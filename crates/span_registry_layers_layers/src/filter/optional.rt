//! A filter that may be absent.
use crate::context::Context;
use crate::filter::{Filter, SpanCall};
use tracing_core_fields::{Event, Interest, LevelFilter, Metadata};

/// Passes all where it is absent.
impl<F: Filter> Filter for Option<F> {
    ghost use Rattle.span_registry_layers_layers.specs.OptionalFilter as optional;
    ghost use Rattle.span_registry_layers_layers.specs.OptionalFilter.{AnswersIf, EventAnswersIf, SaysIf};

    ghost answers = { AnswersIf F.answers };

    ghost event_answers = { EventAnswersIf F.event_answers };

    ghost says = { SaysIf F.says };

    ghost hint = { optional.hint_of ⟦<F as Filter>⟧ };

    ghost after = { optional.after_of ⟦<F as Filter>⟧ };

    ghost honest = { optional.IsHonest ⟦<F as Filter>⟧ };

    ghost fair = { optional.optional_fair ⟦<F as Filter>⟧ };

    ghost stays = { optional.optional_stays ⟦<F as Filter>⟧ };

    ghost single = { optional.optional_single ⟦<F as Filter>⟧ };

    ghost firm = { optional.optional_firm ⟦<F as Filter>⟧ };

    fn enabled(&self, metadata: &Metadata<'_>, context: &Context<'_>) -> bool {
        match self {
            None => true,
            Some(filter) => filter.enabled(metadata, context),
        }
    }

    fn callsite_enabled(&self, metadata: &Metadata<'_>) -> Interest {
        match self {
            None => Interest::always(),
            Some(filter) => filter.callsite_enabled(metadata),
        }
    }

    fn event_enabled(&self, event: &Event<'_, '_>, context: &Context<'_>) -> bool {
        match self {
            None => true,
            Some(filter) => filter.event_enabled(event, context),
        }
    }

    fn max_level_hint(&self) -> Option<LevelFilter> {
        match self {
            None => None,
            Some(filter) => filter.max_level_hint(),
        }
    }

    fn hear(&mut self, call: &SpanCall<'_, '_, '_, '_>, context: &Context<'_>) {
        match self {
            None => {}
            Some(filter) => filter.hear(call, context),
        }
    }
}
