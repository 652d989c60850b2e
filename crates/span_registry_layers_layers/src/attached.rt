//! Layers over a registry, as a subscriber.
ghost use Rattle.std.specs.Prelude.{◌≡◌, ◌≤◌, ◌+◌, nat_le, true};
ghost use Rattle.std.specs.Option.{option_copied};
ghost use Rattle.tracing_core_fields.specs.Metadata.{plain_metadata};
ghost use Rattle.tracing_core_fields.specs.requests.PlainRequests.{plain_attributes, plain_event, plain_record};
ghost use Rattle.span_registry_layers_store.specs.Registries.{knows, without_entry};
ghost use Rattle.span_registry_layers_layers.specs.Combined.{Both};
ghost use Rattle.span_registry_layers_layers.specs.FilterViews.{Exited};
ghost use Rattle.span_registry_layers_layers.specs.Notices.{Attached, Spanned};
ghost use Rattle.span_registry_layers_layers.specs.FilterNumbers.{more_filters, numbers_from};
ghost use Rattle.span_registry_layers_layers.specs.Trees.{AnswersOf, AsksSpan, AttachGives, CloseGives, Closes, ClosesOne, EnterGives};
ghost use Rattle.span_registry_layers_layers.specs.Trees.{EventGives, ExitGives, FollowsGives, IsAttached, LayersTold, MakesSpan};
ghost use Rattle.span_registry_layers_layers.specs.Trees.{NewSpanGives, RecordGives, TellsEvent, over, whole};

mod subscriber;

use crate::context::Context;
use crate::layer::{Layer, Layered};
use span_registry_layers_store::{FilterMap, Registry};
use thiserror::Error;
use tracing_core_fields::{Attributes, Event, Id, Metadata, Record, RequestError};
use tracing_core_moments::At;

/// A registry has at most 64 filters, and so has no room for those of a layer. Both parts are as they were.
#[derive(Debug, Drop, Error)]
#[error("a registry has at most 64 filters")]
pub struct AttachError<L, S> {
    /// The layer, which was not attached.
    pub layer: L,
    /// What it was to be attached to.
    pub subscriber: S,
}

// Whether a registry takes the filters of a layer.
fn has_room<L: Layer>(layer: &L, registry: &Registry) -> bool
    ensures { result ≡ nat_le (registry.now.filters + L.filters layer.now) 64 }
{
    layer.room_left(registry.filter_room()).is_some()
}

// The layer, and the registry that numbers its filters.
fn number<L: Layer>(layer: L, registry: Registry) -> Layered<L, Registry>
    ensures notified { L.told layer (Attached registry) result.layer }
    ensures numbers { registry.filters + L.filters layer ≤ 64 →
        (result.inner ≡ more_filters (L.filters layer) registry) ×
        (L.numbers result.layer ≡ numbers_from registry.filters (L.filters layer)) }
{
    let mut layer = layer;
    let mut registry = registry;
    layer.on_layer(&mut registry);
    Layered::new(layer, registry)
}

// The layer over the registry, where that takes its filters.
pub(crate) fn attach<L: Layer>(
    layer: L,
    registry: Registry,
) -> Result<Layered<L, Registry>, AttachError<L, Registry>>
    ensures { AttachGives ⟦<L as Layer>⟧ layer registry result }
{
    if has_room(&layer, &registry) {
        Ok(number(layer, registry))
    } else {
        Err(AttachError {
            layer,
            subscriber: registry,
        })
    }
}

impl<L: Layer> Layered<L, Registry> {
    // Whether a span that is named is open.
    fn knows(&self, span: Option<&Id>) -> bool
        ensures { result ≡ knows self.now.inner (option_copied span.entry) }
    {
        match span {
            None => true,
            Some(span) => self.inner.is_open(span),
        }
    }

    // Asks all filters of a new span.
    fn ask(&mut self, metadata: &Metadata<'_>, at: At) -> (FilterMap, bool)
        ensures kept { IsAttached ⟦<L as Layer>⟧ self.old →
            L.kept self.old.layer (plain_metadata metadata.now) (whole at self.old.inner) true result.0.passed
            result.1 }
        ensures same { self.new ≡ self.old }
    {
        let mut context = Context::new(&mut self.inner, at, None);
        self.layer
            .ask_span(metadata, &mut context, true, FilterMap::all())
    }

    // Whether no layer vetoes what is made of the callsite.
    fn lets(&mut self, metadata: &Metadata<'_>, at: At) -> bool
        ensures answer { L.answers self.old.layer (plain_metadata metadata.now) (whole at self.old.inner) result }
        ensures same { self.new ≡ self.old }
    {
        let context = Context::new(&mut self.inner, at, None);
        self.layer.enabled(metadata, &context)
    }

    // Whether some layer is to be told of a request on the callsite.
    fn makes(&mut self, metadata: &Metadata<'_>, at: At) -> bool
        ensures answer { AnswersOf ⟦<L as Layer>⟧ self.old (plain_metadata metadata.now) at result }
        ensures same { self.new ≡ self.old }
    {
        self.lets(metadata, at) && self.ask(metadata, at).1
    }

    // Whether no layer vetoes the event.
    fn allows(&mut self, event: &Event<'_, '_>, at: At) -> bool
        ensures answer { Both (L.answers self.old.layer (plain_event event.now).metadata (whole at self.old.inner))
            (L.event_answers self.old.layer (plain_event event.now) (whole at self.old.inner)) result }
        ensures same { self.new ≡ self.old }
    {
        let context = Context::new(&mut self.inner, at, None);
        self.layer.enabled(event.metadata(), &context) && self.layer.event_enabled(event, &context)
    }

    fn tell(&mut self, event: &Event<'_, '_>, at: At)
        ensures { TellsEvent ⟦<L as Layer>⟧ (plain_event event.now) at self.old self.new }
    {
        if self.allows(event, at) {
            self.layer
                .on_event(event, &mut Context::new(&mut self.inner, at, None));
        }
    }

    fn hand_event(&mut self, event: &Event<'_, '_>, at: At) -> Result<(), RequestError>
        ensures { EventGives ⟦<L as Layer>⟧ (plain_event event.now) at self.old result self.new }
    {
        if !self.knows(event.parent()) {
            return Err(RequestError::UnknownParent);
        }
        self.tell(event, at);
        Ok(())
    }

    // Makes a span with these verdicts.
    fn make_span(
        &mut self,
        attributes: &Attributes<'_, '_>,
        at: At,
        verdicts: FilterMap,
    ) -> Result<Option<Id>, RequestError>
        ensures { MakesSpan ⟦<L as Layer>⟧ (plain_attributes attributes.now) at verdicts.passed self.old result
            self.new }
    {
        let span = self.inner.new_span(attributes, at.lane, verdicts)?;
        self.layer.on_new_span(
            attributes,
            &span,
            &mut Context::new(&mut self.inner, at, None),
        );
        Ok(Some(span))
    }

    // Makes a span where some layer is to be told.
    fn ask_and_make(
        &mut self,
        attributes: &Attributes<'_, '_>,
        at: At,
    ) -> Result<Option<Id>, RequestError>
        ensures { IsAttached ⟦<L as Layer>⟧ self.old →
            AsksSpan ⟦<L as Layer>⟧ (plain_attributes attributes.now) at self.old result self.new }
    {
        let (verdicts, some) = self.ask(attributes.metadata(), at);
        if some {
            self.make_span(attributes, at, verdicts)
        } else {
            Ok(None)
        }
    }

    fn hand_span(
        &mut self,
        attributes: &Attributes<'_, '_>,
        at: At,
    ) -> Result<Option<Id>, RequestError>
        ensures { IsAttached ⟦<L as Layer>⟧ self.old →
            NewSpanGives ⟦<L as Layer>⟧ (plain_attributes attributes.now) at self.old result self.new }
    {
        if !self.knows(attributes.parent()) {
            return Err(RequestError::UnknownParent);
        }
        if self.lets(attributes.metadata(), at) {
            self.ask_and_make(attributes, at)
        } else {
            Ok(None)
        }
    }

    fn hand_record(&mut self, span: &Id, values: &Record<'_>, at: At) -> Result<(), RequestError>
        ensures { RecordGives ⟦<L as Layer>⟧ span.now (plain_record values.now) at self.old result self.new }
    {
        self.inner.record(span)?;
        self.layer
            .on_record(span, values, &mut Context::new(&mut self.inner, at, None));
        Ok(())
    }

    fn hand_follows(&mut self, span: &Id, follows: &Id, at: At) -> Result<(), RequestError>
        ensures { FollowsGives ⟦<L as Layer>⟧ span.now follows.now at self.old result self.new }
    {
        self.inner.record_follows_from(span, follows)?;
        self.layer.on_follows_from(span, follows, &mut Context::new(&mut self.inner, at, None));
        Ok(())
    }

    fn hand_enter(&mut self, span: &Id, at: At) -> Result<(), RequestError>
        ensures { EnterGives ⟦<L as Layer>⟧ span.now at self.old result self.new }
    {
        self.inner.enter(span, at.lane)?;
        self.layer
            .on_enter(span, &mut Context::new(&mut self.inner, at, None));
        Ok(())
    }

    // The next span closes, where one does.
    fn close_next(&mut self, at: At) -> bool
        ensures { ClosesOne ⟦<L as Layer>⟧ at self.old result self.new }
    {
        let Some(span) = self.inner.closing() else {
            return false;
        };
        self.layer
            .on_close(&span, &mut Context::new(&mut self.inner, at, None));
        let _span = self.inner.forget();
        true
    }

    // All spans close that nothing keeps open.
    fn close_all(&mut self, at: At)
        ensures { Closes ⟦<L as Layer>⟧ at self.old self.new }
    {
        while self.close_next(at) {}
    }

    // A lane leaves a span, and the exit is told.
    fn leave(&mut self, span: &Id, at: At)
        ensures { let x = without_entry self.old.inner at.lane span.now in
            LayersTold ⟦<L as Layer>⟧ (Spanned span.now (Exited span.now) (whole at x)) (over x self.old) self.new }
    {
        self.inner.leave(span, at.lane);
        self.layer
            .on_exit(span, &mut Context::new(&mut self.inner, at, None));
    }

    fn hand_exit(&mut self, span: &Id, at: At)
        ensures { ExitGives ⟦<L as Layer>⟧ span.now at self.old self.new }
    {
        self.leave(span, at);
        self.close_all(at);
    }

    fn hand_close(&mut self, span: Id, at: At) -> bool
        ensures { CloseGives ⟦<L as Layer>⟧ span at self.old result self.new }
    {
        if self.inner.give_up(&span).is_err() {
            return false;
        }
        self.close_all(at);
        !self.inner.is_open(&span)
    }
}
