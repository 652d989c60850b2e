//! What an output shows: a filter of the program's own.
ghost use Rattle.std.specs.Prelude.{◌≡◌, None};
ghost use Rattle.examples.specs.ShownMetadata.{shows};
ghost use Rattle.tracing_core.specs.Metadata.{plain_metadata};
ghost use Rattle.span_registry_layers.specs.Combined.{kept_by, rule_fair, same_word};
ghost use Rattle.span_registry_layers.specs.Firms.{rule_firm};
ghost use Rattle.span_registry_layers.specs.Singles.{function_single};

use span_registry_layers::{Context, Filter, SpanCall};
use tracing_core::{Event, Interest, LevelFilter, Metadata};

/// What an output shows.
#[derive(Clone, Copy, Debug, Drop, PartialEq, Eq)]
pub enum Shown {
    /// What is at least of the level INFO.
    Info,
    /// What the shop itself tells, under the target `shop`, at any level.
    Shop,
}

impl Shown {
    fn shows(self, metadata: &Metadata<'_>) -> bool
        ensures { result ≡ shows self (plain_metadata metadata.now) }
    {
        match self {
            Shown::Info => LevelFilter::INFO.passes(*metadata.level()),
            Shown::Shop => metadata.target() == "shop",
        }
    }
}

/// Its ghost members say what it answers, and that these answers fit each other.
impl Filter for Shown {
    ghost answers = { λ f m v b. b ≡ shows f m };

    ghost says = { λ f m k. k ≡ kept_by (shows f m) };

    ghost hint = { λ f. None };

    ghost fair = { λ f _. rule_fair (shows f) };

    ghost stays = { λ f h _. (tt, same_word (λ m k. k ≡ kept_by (shows f m)) None) };

    ghost single = { λ f _. function_single (λ m v. shows f m) };

    ghost firm = { λ f _. rule_firm (shows f) };

    fn enabled(&self, metadata: &Metadata<'_>, _context: &Context<'_>) -> bool {
        self.shows(metadata)
    }

    fn callsite_enabled(&self, metadata: &Metadata<'_>) -> Interest {
        if self.shows(metadata) {
            Interest::always()
        } else {
            Interest::never()
        }
    }

    fn event_enabled(&self, _event: &Event<'_, '_>, _context: &Context<'_>) -> bool {
        true
    }

    fn max_level_hint(&self) -> Option<LevelFilter> {
        None
    }

    fn hear(&mut self, _call: &SpanCall<'_, '_, '_, '_>, _context: &Context<'_>) {}
}
