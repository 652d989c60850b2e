//! A stored closure that looks at the context, as a filter.
ghost use Rattle.std.specs.Prelude.{◌≡◌, IfSome, IsSome, None, Some, true};
ghost use Rattle.span_registry_layers_layers.specs.Combined.{same_word};
ghost use Rattle.span_registry_layers_layers.specs.Dynamic.{AnswersIn, CallsitesFit, IsDeterminedIn, RefusesAboveHintIn, RefusesAboveIn};
ghost use Rattle.span_registry_layers_layers.specs.Dynamic.{SaysIn};
ghost use Rattle.span_registry_layers_layers.specs.Firms.{CallsitesAreFirm};
ghost use Rattle.span_registry_layers_layers.specs.Honesty.{Fair, Firm};
ghost use Rattle.span_registry_layers_layers.specs.Singles.{dynamic_single};

use crate::context::Context;
use crate::filter::{Filter, SpanCall};
use tracing_core_fields::{Event, Interest, LevelFilter, Metadata};

/// Decides by metadata and by what the context shows. It can be sent to another thread, and so can a filter that keeps it.
pub type ContextTest = Box<dyn Fn(&Metadata<'_>, &Context<'_>) -> bool + Send>;

/// Says what a filter's interest in a callsite is. It can be sent to another thread.
pub type CallsiteTest = Box<dyn Fn(&Metadata<'_>) -> Interest + Send>;

/// A closure that can be asked of any callsite.
#[derive(Drop)]
struct Says {
    closure: CallsiteTest,
    ghost callable: { CallsiteTest.IsAlwaysCallable closure },
}

/// A filter that asks a closure about metadata and context, and perhaps another one about callsites.
#[derive(Drop)]
pub struct DynFilterFn {
    enabled: ContextTest,
    callsite_enabled: Option<Says>,
    max_level_hint: Option<LevelFilter>,
    ghost callable: { ContextTest.IsAlwaysCallable enabled },
}

impl DynFilterFn {
    /// Asks the closure, and knows no most verbose level. It says nothing of callsites, so it is consistent where the
    /// closure's answer is determined by what the metadata says and the context shows.
    pub fn new(enabled: ContextTest) -> DynFilterFn
        requires { ContextTest.IsAlwaysCallable enabled }
        ensures kept { (result.enabled ≡ enabled) × (result.callsite_enabled ≡ None) × (result.max_level_hint ≡ None) }
        // What the filter says of callsites fits whatever the closure answers.
        ensures honest { Fair (AnswersIn (ContextTest.post result.enabled))
            (SaysIn (λ s. CallsiteTest.post s.closure) result.callsite_enabled result.max_level_hint)
            result.max_level_hint }
        ensures firm { Firm (SaysIn (λ s. CallsiteTest.post s.closure) result.callsite_enabled result.max_level_hint)
            result.max_level_hint }
    {
        DynFilterFn {
            enabled,
            callsite_enabled: None,
            max_level_hint: None,
        }
    }

    /// The filter with a most verbose level, above which the closure has to refuse. It is consistent where the
    /// closure's answer is so determined, and what is said of callsites is one thing, fits it and agrees with the
    /// hint.
    pub fn with_max_level_hint(self, hint: LevelFilter) -> DynFilterFn
        requires { RefusesAboveIn hint (ContextTest.post self.enabled) }
        ensures kept { (result.enabled ≡ self.enabled) × (result.callsite_enabled ≡ self.callsite_enabled) ×
            (result.max_level_hint ≡ Some hint) }
        ensures honest { CallsitesFit (ContextTest.post self.enabled) (λ s. CallsiteTest.post s.closure)
            self.callsite_enabled → Fair (AnswersIn (ContextTest.post result.enabled))
            (SaysIn (λ s. CallsiteTest.post s.closure) result.callsite_enabled result.max_level_hint)
            result.max_level_hint }
        ensures firm { CallsitesAreFirm (λ s. CallsiteTest.post s.closure) self.callsite_enabled (Some hint) →
            Firm (SaysIn (λ s. CallsiteTest.post s.closure) result.callsite_enabled result.max_level_hint)
            result.max_level_hint }
    {
        let DynFilterFn {
            enabled,
            callsite_enabled,
            ..
        } = self;
        DynFilterFn {
            enabled,
            callsite_enabled,
            max_level_hint: Some(hint),
        }
    }

    /// The filter with a closure that says what the interest in a callsite is. It is consistent where the filter's
    /// answer is so determined, and what the closure says is one thing, fits it and agrees with the hint.
    pub fn with_callsite_filter(self, callsite_enabled: CallsiteTest) -> DynFilterFn
        requires { CallsiteTest.IsAlwaysCallable callsite_enabled }
        ensures kept { (result.enabled ≡ self.enabled) ×
            IfSome result.callsite_enabled (λ s. s.closure ≡ callsite_enabled) × IsSome result.callsite_enabled ×
            (result.max_level_hint ≡ self.max_level_hint) }
        // What the filter says of callsites, and its hint, fit its answers, where the closure for callsites fits them and nothing
        // above the hint passes.
        ensures honest { RefusesAboveHintIn self.max_level_hint (ContextTest.post self.enabled) →
            CallsitesFit (ContextTest.post self.enabled) (λ s. CallsiteTest.post s.closure) result.callsite_enabled →
            Fair (AnswersIn (ContextTest.post result.enabled))
            (SaysIn (λ s. CallsiteTest.post s.closure) result.callsite_enabled result.max_level_hint)
            result.max_level_hint }
        ensures firm { CallsitesAreFirm (λ s. CallsiteTest.post s.closure) result.callsite_enabled self.max_level_hint
            → Firm (SaysIn (λ s. CallsiteTest.post s.closure) result.callsite_enabled result.max_level_hint)
            result.max_level_hint }
    {
        let DynFilterFn {
            enabled,
            max_level_hint,
            ..
        } = self;
        DynFilterFn {
            enabled,
            callsite_enabled: Some(Says {
                closure: callsite_enabled,
            }),
            max_level_hint,
        }
    }
}

/// A filter that asks a closure about metadata and context.
pub fn dynamic_filter_fn(enabled: ContextTest) -> DynFilterFn
    requires { ContextTest.IsAlwaysCallable enabled }
    ensures { (result.enabled ≡ enabled) × (result.callsite_enabled ≡ None) × (result.max_level_hint ≡ None) }
{
    DynFilterFn::new(enabled)
}

impl Filter for DynFilterFn {
    ghost answers = { λ f. AnswersIn (ContextTest.post f.enabled) };

    ghost event_answers = { λ f e v b. b ≡ true };

    ghost says = { λ f. SaysIn (λ s. CallsiteTest.post s.closure) f.callsite_enabled f.max_level_hint };

    ghost hint = { λ f. f.max_level_hint };

    ghost after = { λ f h. f };

    ghost honest = { λ f. Fair (AnswersIn (ContextTest.post f.enabled))
        (SaysIn (λ s. CallsiteTest.post s.closure) f.callsite_enabled f.max_level_hint) f.max_level_hint ×
        IsDeterminedIn (ContextTest.post f.enabled) × Firm
        (SaysIn (λ s. CallsiteTest.post s.closure) f.callsite_enabled f.max_level_hint) f.max_level_hint };

    ghost fair = { λ f k. k.0 };

    ghost stays = { λ f h k. (
      k,
      same_word (SaysIn (λ s. CallsiteTest.post s.closure) f.callsite_enabled f.max_level_hint)
          f.max_level_hint,
    ) };

    ghost single = { λ f k. dynamic_single (ContextTest.post f.enabled) k.1 };

    ghost firm = { λ f k. k.2 };

    fn enabled(&self, metadata: &Metadata<'_>, context: &Context<'_>) -> bool {
        (self.enabled)(metadata, context)
    }

    // The answer may change with the context, so without a closure for callsites it is asked each time.
    fn callsite_enabled(&self, metadata: &Metadata<'_>) -> Interest {
        if let Some(says) = &self.callsite_enabled {
            return (says.closure)(metadata);
        }
        match self.max_level_hint {
            Some(hint) if !hint.passes(*metadata.level()) => Interest::never(),
            _ => Interest::sometimes(),
        }
    }

    fn event_enabled(&self, _event: &Event<'_, '_>, _context: &Context<'_>) -> bool {
        true
    }

    fn max_level_hint(&self) -> Option<LevelFilter> {
        self.max_level_hint
    }

    fn hear(&mut self, _call: &SpanCall<'_, '_, '_, '_>, _context: &Context<'_>) {}
}
