//! One output of a stack.
ghost use Rattle.std.specs.Prelude.{◌≡◌, false};
ghost use Rattle.tracing_core_fields.specs.Metadata.{plain_metadata};
ghost use Rattle.tracing_core_fields.specs.requests.PlainRequests.{plain_event};
ghost use Rattle.span_registry_layers_layers.specs.Combined.{Then};
ghost use Rattle.span_registry_layers_layers.specs.Notices.{Happened};
ghost use Rattle.span_registry_layers.specs.CommonAnswers.{AsksRow};
ghost use Rattle.span_registry_layers.specs.OutputSlots.{AsksCallsite, AsksEvent, TellsEvent, is_marked, marked, view_of, with_layer};
ghost use Rattle.span_registry_layers.specs.Swaps.{with_filter};

mod spans;

use span_registry_layers_layers::{Context, Filter, Filtered, Layer};
use span_registry_layers_store::{FilterId, FilterMap, OutputKey, Registry};
pub(crate) use spans::SpanStep;
use tracing_core_fields::{Event, Interest, LevelFilter, Metadata};
use tracing_core_moments::At;

/// An output, its key, the number of its filter, whether its filter passed the callsite of the last request,
/// and whether it was told of that.
#[derive(Drop)]
pub(crate) struct OutputSlot<O> {
    pub(crate) key: OutputKey,
    pub(crate) id: FilterId,
    pub(crate) output: O,
    pub(crate) passed: bool,
    pub(crate) told: bool,
}

impl<O> OutputSlot<O> {
    // Its filter didn't pass the request.
    pub(crate) fn clear(&mut self)
        ensures { self.new ≡ marked false self.old }
    {
        self.passed = false;
        self.told = false;
    }

    // Whether anything is marked of the last request.
    pub(crate) fn is_marked(&self) -> bool
        ensures { result ≡ is_marked self.now }
    {
        self.passed || self.told
    }
}

impl<L: Layer, F: Filter> OutputSlot<Filtered<L, F>> {
    // What its filter says of a callsite.
    pub(crate) fn interest(&self, metadata: &Metadata<'_>) -> Interest
        ensures { F.says self.now.output.filter (plain_metadata metadata.now) result }
    {
        self.output.filter().callsite_enabled(metadata)
    }

    // The two filters change places.
    pub(crate) fn swap_filter(&mut self, filter: &mut F)
        ensures row { self.new ≡ with_filter filter.old self.old }
        ensures back { filter.new ≡ self.old.output.filter }
    {
        std::mem::swap(self.output.filter_mut(), filter);
    }

    // The most verbose level that its filter passes.
    pub(crate) fn hint(&self) -> Option<LevelFilter>
        ensures { result ≡ F.hint self.now.output.filter }
    {
        self.output.filter().max_level_hint()
    }

    // Whether its filter passes what is made of the callsite.
    pub(crate) fn passes(&self, metadata: &Metadata<'_>, registry: &mut Registry, at: At) -> bool
        ensures answer { F.answers self.now.output.filter (plain_metadata metadata.now)
            (view_of at registry.old self.now) result }
        ensures same { registry.new ≡ registry.old }
    {
        let context = Context::new(registry, at, Some(self.id));
        self.output.filter().enabled(metadata, &context)
    }

    // Asks its filter of a new span, and then the filters in its layer: what was known with what they say, and whether
    // its own passes.
    pub(crate) fn ask_span(
        &self,
        metadata: &Metadata<'_>,
        registry: &mut Registry,
        at: At,
        verdicts: FilterMap,
    ) -> (FilterMap, bool)
        ensures asked { AsksRow ⟦<F as Filter>⟧ ⟦<L as Layer>⟧ (plain_metadata metadata.now) at registry.old self.now
            verdicts.passed result.0.passed result.1 }
        ensures same { registry.new ≡ registry.old }
    {
        let passes = self.passes(metadata, registry, at);
        let own = verdicts.with(self.id, passes);
        let mut context = Context::new(registry, at, Some(self.id));
        let (said, _heard) = self
            .output
            .inner()
            .ask_span(metadata, &mut context, passes, own);
        (said, passes)
    }

    // Whether its filter passes the event, whose callsite it passes.
    fn wants(&self, event: &Event<'_, '_>, registry: &mut Registry, at: At) -> bool
        ensures answer { F.event_answers self.now.output.filter (plain_event event.now)
            (view_of at registry.old self.now) result }
        ensures same { registry.new ≡ registry.old }
    {
        let context = Context::new(registry, at, Some(self.id));
        self.output.filter().event_enabled(event, &context)
    }

    // The same, where it is known what it passes of the callsite.
    fn hears(&self, passes: bool, event: &Event<'_, '_>, registry: &mut Registry, at: At) -> bool
        ensures answer { Then (F.event_answers self.now.output.filter (plain_event event.now)
            (view_of at registry.old self.now)) passes result }
        ensures same { registry.new ≡ registry.old }
    {
        passes && self.wants(event, registry, at)
    }

    // Tells its layer of the event.
    fn tell(&mut self, event: &Event<'_, '_>, registry: &mut Registry, at: At)
        ensures notified { L.told self.old.output.layer
            (Happened (plain_event event.now) (view_of at registry.old self.old) registry.new) self.new.output.layer }
        ensures rest { self.new ≡ with_layer self.new.output.layer self.old }
    {
        let mut context = Context::new(registry, at, Some(self.id));
        self.output.inner_mut().on_event(event, &mut context);
    }

    // Asks its filter of a callsite, and marks what it answers. It is told nothing.
    pub(crate) fn ask_callsite(&mut self, metadata: &Metadata<'_>, registry: &mut Registry, at: At)
        ensures asked { AsksCallsite F.answers (plain_metadata metadata.now) at registry.old self.old self.new }
        ensures same { registry.new ≡ registry.old }
    {
        let passes = self.passes(metadata, registry, at);
        self.clear();
        self.passed = passes;
    }

    // Asks its filter of the event, and marks what it answers.
    pub(crate) fn ask_event(&mut self, event: &Event<'_, '_>, registry: &mut Registry, at: At)
        ensures asked { AsksEvent ⟦<F as Filter>⟧ (plain_event event.now) at registry.old self.old self.new }
        ensures same { registry.new ≡ registry.old }
    {
        let passes = self.passes(event.metadata(), registry, at);
        let hears = self.hears(passes, event, registry, at);
        self.passed = passes;
        self.told = hears;
    }

    // Tells its layer of the event, where that is marked.
    pub(crate) fn tell_event(&mut self, event: &Event<'_, '_>, registry: &mut Registry, at: At)
        ensures { TellsEvent ⟦<L as Layer>⟧ (plain_event event.now) at registry.old self.old registry.new self.new }
    {
        if self.told {
            self.tell(event, registry, at);
        }
    }
}
