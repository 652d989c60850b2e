//! A level filter as a filter.
ghost use Rattle.std.specs.Prelude.{◌≡◌, Some, nat_le, true};
ghost use Rattle.span_registry_layers_layers.specs.Combined.{level_fair, level_interest, same_word};
ghost use Rattle.span_registry_layers_layers.specs.Firms.{level_firm};
ghost use Rattle.span_registry_layers_layers.specs.Singles.{function_single};

use crate::context::Context;
use crate::filter::{Filter, SpanCall};
use tracing_core_fields::{Event, Interest, LevelFilter, Metadata};

/// Passes what is at most as verbose as the filter's level.
impl Filter for LevelFilter {
    ghost answers = { λ f m v b. b ≡ nat_le m.level f };

    ghost event_answers = { λ f e v b. b ≡ true };

    ghost says = { λ f m k. k ≡ level_interest f m.level };

    ghost hint = { λ f. Some f };

    ghost after = { λ f h. f };

    ghost honest = { λ f. Unit {0} };

    ghost fair = { λ f _. level_fair f };

    ghost stays = { λ f h _. (tt, same_word (λ m k. k ≡ level_interest f m.level) (Some f)) };

    ghost single = { λ f _. function_single (λ m v. nat_le m.level f) };

    ghost firm = { λ f _. level_firm f };

    fn enabled(&self, metadata: &Metadata<'_>, _context: &Context<'_>) -> bool {
        self.passes(*metadata.level())
    }

    fn callsite_enabled(&self, metadata: &Metadata<'_>) -> Interest {
        if self.passes(*metadata.level()) {
            Interest::always()
        } else {
            Interest::never()
        }
    }

    fn event_enabled(&self, _event: &Event<'_, '_>, _context: &Context<'_>) -> bool {
        true
    }

    fn max_level_hint(&self) -> Option<LevelFilter> {
        Some(*self)
    }

    fn hear(&mut self, _call: &SpanCall<'_, '_, '_, '_>, _context: &Context<'_>) {}
}
