//! A boxed filter that can be sent to another thread is a filter.
use crate::context::Context;
use crate::filter::{Filter, SpanCall};
use tracing_core_fields::{Event, Interest, LevelFilter, Metadata};

/// The box answers what the filter in it does.
impl Filter for Box<dyn Filter + Send> {
    ghost answers = { λ b. (Filter-box b).answers b.value };

    ghost event_answers = { λ b. (Filter-box b).event_answers b.value };

    ghost says = { λ b. (Filter-box b).says b.value };

    ghost hint = { λ b. (Filter-box b).hint b.value };

    ghost after = { λ b h. record b { value = (Filter-box b).after b.value h } };

    ghost honest = { λ b. (Filter-box b).honest b.value };

    ghost fair = { λ b k. (Filter-box b).fair b.value k };

    ghost stays = { λ b h k. (Filter-box b).stays b.value h k };

    ghost single = { λ b k. (Filter-box b).single b.value k };

    ghost firm = { λ b k. (Filter-box b).firm b.value k };

    fn enabled(&self, metadata: &Metadata<'_>, context: &Context<'_>) -> bool {
        (**self).enabled(metadata, context)
    }

    fn callsite_enabled(&self, metadata: &Metadata<'_>) -> Interest {
        (**self).callsite_enabled(metadata)
    }

    fn event_enabled(&self, event: &Event<'_, '_>, context: &Context<'_>) -> bool {
        (**self).event_enabled(event, context)
    }

    fn max_level_hint(&self) -> Option<LevelFilter> {
        (**self).max_level_hint()
    }

    fn hear(&mut self, call: &SpanCall<'_, '_, '_, '_>, context: &Context<'_>) {
        (**self).hear(call, context)
    }
}
