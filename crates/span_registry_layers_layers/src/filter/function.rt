//! A stored closure as a filter.
ghost use Rattle.std.specs.Prelude.{◌≡◌, None, Some, true};
ghost use Rattle.span_registry_layers_layers.specs.Combined.{same_word};
ghost use Rattle.span_registry_layers_layers.specs.Firms.{closure_firm};
ghost use Rattle.span_registry_layers_layers.specs.Functions.{AnswersBy, IsDetermined, RefusesAbove, SaysBy};
ghost use Rattle.span_registry_layers_layers.specs.Honesty.{Fair};
ghost use Rattle.span_registry_layers_layers.specs.Singles.{closure_single};

use crate::context::Context;
use crate::filter::{Filter, SpanCall};
use tracing_core_fields::{Event, Interest, LevelFilter, Metadata};

/// Decides by metadata alone. It can be sent to another thread, and so can a filter that keeps it.
pub type MetadataTest = Box<dyn Fn(&Metadata<'_>) -> bool + Send>;

/// A filter that asks a closure about metadata.
#[derive(Drop)]
pub struct FilterFn {
    enabled: MetadataTest,
    max_level_hint: Option<LevelFilter>,
    ghost callable: { MetadataTest.IsAlwaysCallable enabled },
}

impl FilterFn {
    /// Asks the closure, and knows no most verbose level. It is consistent where the closure's answer is
    /// determined by what the metadata says.
    pub fn new(enabled: MetadataTest) -> FilterFn
        requires { MetadataTest.IsAlwaysCallable enabled }
        ensures kept { (result.enabled ≡ enabled) × (result.max_level_hint ≡ None) }
        // What the filter says of callsites fits the closure's answers, where what the metadata says determines these.
        ensures honest { IsDetermined (MetadataTest.post enabled) →
            Fair (AnswersBy (MetadataTest.post enabled)) (SaysBy (MetadataTest.post enabled)) None }
    {
        FilterFn {
            enabled,
            max_level_hint: None,
        }
    }

    /// The filter with a most verbose level, above which the closure has to refuse.
    pub fn with_max_level_hint(self, hint: LevelFilter) -> FilterFn
        requires { RefusesAbove hint (MetadataTest.post self.enabled) }
        ensures kept { (result.enabled ≡ self.enabled) × (result.max_level_hint ≡ Some hint) }
        ensures honest { IsDetermined (MetadataTest.post self.enabled) →
            Fair (AnswersBy (MetadataTest.post self.enabled)) (SaysBy (MetadataTest.post self.enabled)) (Some hint) }
    {
        let FilterFn { enabled, .. } = self;
        FilterFn {
            enabled,
            max_level_hint: Some(hint),
        }
    }
}

/// A filter that asks a closure about metadata.
pub fn filter_fn(enabled: MetadataTest) -> FilterFn
    requires { MetadataTest.IsAlwaysCallable enabled }
    ensures { (result.enabled ≡ enabled) × (result.max_level_hint ≡ None) }
{
    FilterFn::new(enabled)
}

impl Filter for FilterFn {
    ghost answers = { λ f. AnswersBy (MetadataTest.post f.enabled) };

    ghost event_answers = { λ f e v b. b ≡ true };

    ghost says = { λ f. SaysBy (MetadataTest.post f.enabled) };

    ghost hint = { λ f. f.max_level_hint };

    ghost after = { λ f h. f };

    ghost honest = { λ f. Fair (AnswersBy (MetadataTest.post f.enabled)) (SaysBy (MetadataTest.post f.enabled))
        f.max_level_hint × IsDetermined (MetadataTest.post f.enabled) };

    ghost fair = { λ f k. k.0 };

    ghost stays = { λ f h k. (k, same_word (SaysBy (MetadataTest.post f.enabled)) f.max_level_hint) };

    ghost single = { λ f k. closure_single (MetadataTest.post f.enabled) k.1 };

    ghost firm = { λ f k. closure_firm (MetadataTest.post f.enabled) f.max_level_hint k.1 k.0 };

    fn enabled(&self, metadata: &Metadata<'_>, _context: &Context<'_>) -> bool {
        (self.enabled)(metadata)
    }

    // Always what the closure passes, and never what it refuses: it looks at nothing else.
    fn callsite_enabled(&self, metadata: &Metadata<'_>) -> Interest {
        if (self.enabled)(metadata) {
            Interest::always()
        } else {
            Interest::never()
        }
    }

    fn event_enabled(&self, _event: &Event<'_, '_>, _context: &Context<'_>) -> bool {
        true
    }

    fn max_level_hint(&self) -> Option<LevelFilter> {
        self.max_level_hint
    }

    fn hear(&mut self, _call: &SpanCall<'_, '_, '_, '_>, _context: &Context<'_>) {}
}
