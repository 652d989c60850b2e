//! What one output is told of spans.
ghost use Rattle.std.specs.Prelude.{◌≡◌, ◌&&◌};
ghost use Rattle.tracing_core_fields.specs.requests.PlainRequests.{plain_attributes, plain_record};
ghost use Rattle.span_registry_layers_layers.specs.FilterViews.{Recorded, SpanMade};
ghost use Rattle.span_registry_layers_layers.specs.Notices.{Followed};
ghost use Rattle.span_registry_layers.specs.OutputSlots.{view_of, with_layer};
ghost use Rattle.span_registry_layers.specs.SpanNotices.{Hears, TellsDispatch, TellsFollows, TellsMade, TellsSpan, sees};
ghost use Rattle.span_registry_layers.specs.SpanSteps.{hook_of};

use crate::output_slot::OutputSlot;
use span_registry_layers_layers::{Context, Filter, Filtered, Layer};
use span_registry_layers_store::Registry;
use tracing_core_fields::{Attributes, Id, Record, WeakDispatch};
use tracing_core_moments::At;

// What happens to a span that was made.
#[derive(Clone, Copy)]
pub(crate) enum SpanStep {
    Entered,
    Exited,
    Closed,
}

impl<O> OutputSlot<O> {
    // Whether it sees the span: the span is open, and the filter passed it when it was made.
    pub(crate) fn sees(&self, span: &Id, registry: &Registry) -> bool
        ensures { result ≡ sees registry.now span.now self.now }
    {
        registry.span_under(span, Some(self.id)).is_some()
    }
}

impl<L: Layer, F: Filter> OutputSlot<Filtered<L, F>> {
    // A hub took the stack.
    pub(crate) fn dispatch(&mut self, dispatch: &WeakDispatch)
        ensures { TellsDispatch ⟦<F as Filter>⟧ ⟦<L as Layer>⟧ dispatch.now self.old self.new }
    {
        self.output.inner_mut().on_register_dispatch(dispatch);
    }

    fn hear_span(
        &mut self,
        attributes: &Attributes<'_, '_>,
        span: &Id,
        registry: &mut Registry,
        at: At,
    )
        ensures { Hears ⟦<F as Filter>⟧ ⟦<L as Layer>⟧ span.now (SpanMade (plain_attributes attributes.now) span.now)
            (view_of at registry.old self.old) self.old registry.new self.new }
    {
        let mut context = Context::new(registry, at, Some(self.id));
        self.output
            .filter_mut()
            .on_new_span(attributes, span, &context);
        self.output
            .inner_mut()
            .on_new_span(attributes, span, &mut context);
    }

    // A span was made.
    pub(crate) fn new_span(
        &mut self,
        attributes: &Attributes<'_, '_>,
        span: &Id,
        registry: &mut Registry,
        at: At,
    )
        ensures { TellsMade ⟦<F as Filter>⟧ ⟦<L as Layer>⟧ (SpanMade (plain_attributes attributes.now) span.now)
            span.now at registry.old self.old registry.new self.new }
    {
        let sees = self.sees(span, registry);
        self.passed = sees;
        self.told = sees;
        if sees {
            self.hear_span(attributes, span, registry, at);
        }
    }

    fn hear_record(&mut self, span: &Id, values: &Record<'_>, registry: &mut Registry, at: At)
        ensures { Hears ⟦<F as Filter>⟧ ⟦<L as Layer>⟧ span.now (Recorded span.now (plain_record values.now))
            (view_of at registry.old self.old) self.old registry.new self.new }
    {
        let mut context = Context::new(registry, at, Some(self.id));
        self.output.filter_mut().on_record(span, values, &context);
        self.output
            .inner_mut()
            .on_record(span, values, &mut context);
    }

    // Values were recorded on a span.
    pub(crate) fn record(&mut self, span: &Id, values: &Record<'_>, registry: &mut Registry, at: At)
        ensures { TellsSpan ⟦<F as Filter>⟧ ⟦<L as Layer>⟧ (Recorded span.now (plain_record values.now)) span.now at
            registry.old self.old registry.new self.new }
    {
        if self.sees(span, registry) {
            self.hear_record(span, values, registry, at);
        }
    }

    fn hear_follows(&mut self, span: &Id, follows: &Id, registry: &mut Registry, at: At)
        ensures notified { L.told self.old.output.layer
            (Followed span.now follows.now (view_of at registry.old self.old) registry.new) self.new.output.layer }
        ensures rest { self.new ≡ with_layer self.new.output.layer self.old }
    {
        let mut context = Context::new(registry, at, Some(self.id));
        self.output
            .inner_mut()
            .on_follows_from(span, follows, &mut context);
    }

    fn sees_both(&self, span: &Id, follows: &Id, registry: &Registry) -> bool
        ensures { result ≡ (sees registry.now span.now self.now && sees registry.now follows.now self.now) }
    {
        self.sees(span, registry) && self.sees(follows, registry)
    }

    // A span was said to follow from another one: a filter isn't told of that.
    pub(crate) fn follows_from(&mut self, span: &Id, follows: &Id, registry: &mut Registry, at: At)
        ensures { TellsFollows ⟦<F as Filter>⟧ ⟦<L as Layer>⟧ span.now follows.now at registry.old self.old
            registry.new self.new }
    {
        if self.sees_both(span, follows, registry) {
            self.hear_follows(span, follows, registry, at);
        }
    }

    // Its filter hears of it, and then its layer.
    fn hear_step(&mut self, step: SpanStep, span: &Id, registry: &mut Registry, at: At)
        ensures { Hears ⟦<F as Filter>⟧ ⟦<L as Layer>⟧ span.now (hook_of step span.now)
            (view_of at registry.old self.old) self.old registry.new self.new }
    {
        let mut context = Context::new(registry, at, Some(self.id));
        match step {
            SpanStep::Entered => {
                self.output.filter_mut().on_enter(span, &context);
                self.output.inner_mut().on_enter(span, &mut context);
            }
            SpanStep::Exited => {
                self.output.filter_mut().on_exit(span, &context);
                self.output.inner_mut().on_exit(span, &mut context);
            }
            SpanStep::Closed => {
                self.output.filter_mut().on_close(span, &context);
                self.output.inner_mut().on_close(span, &mut context);
            }
        }
    }

    // A span was entered or left, or closes.
    pub(crate) fn step(&mut self, step: SpanStep, span: &Id, registry: &mut Registry, at: At)
        ensures { TellsSpan ⟦<F as Filter>⟧ ⟦<L as Layer>⟧ (hook_of step span.now) span.now at registry.old self.old
            registry.new self.new }
    {
        if self.sees(span, registry) {
            self.hear_step(step, span, registry, at);
        }
    }
}
