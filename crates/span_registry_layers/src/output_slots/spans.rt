//! What all outputs are told of spans, in order.
ghost use Rattle.tracing_core_fields.specs.requests.PlainRequests.{plain_attributes, plain_record};
ghost use Rattle.span_registry_layers_layers.specs.FilterViews.{Recorded, SpanMade};
ghost use Rattle.span_registry_layers_layers.specs.Several.{EachInTurn};
ghost use Rattle.span_registry_layers.specs.OutputSlots.{EachBecomes};
ghost use Rattle.span_registry_layers.specs.SpanNotices.{TellsDispatch, TellsFollows, TellsMade, TellsSpan};
ghost use Rattle.span_registry_layers.specs.SpanSteps.{hook_of};

use crate::output_slot::{OutputSlot, SpanStep};
use span_registry_layers_layers::{Filter, Filtered, Layer};
use span_registry_layers_store::Registry;
use tracing_core_fields::{Attributes, Id, Record, WeakDispatch};
use tracing_core_moments::At;

// A span was made: those that passed it are told.
pub(crate) fn tell_new_span<L: Layer, F: Filter>(
    rows: &mut [OutputSlot<Filtered<L, F>>],
    attributes: &Attributes<'_, '_>,
    span: &Id,
    registry: &mut Registry,
    at: At,
)
    ensures { EachInTurn (TellsMade ⟦<F as Filter>⟧ ⟦<L as Layer>⟧
        (SpanMade (plain_attributes attributes.now) span.now) span.now at) registry.old rows.old registry.new
        rows.new }
{
    for row in rows.iter_mut() {
        row.new_span(attributes, span, registry, at);
    }
}

// Values were recorded on a span.
pub(crate) fn tell_record<L: Layer, F: Filter>(
    rows: &mut [OutputSlot<Filtered<L, F>>],
    span: &Id,
    values: &Record<'_>,
    registry: &mut Registry,
    at: At,
)
    ensures { EachInTurn (TellsSpan ⟦<F as Filter>⟧ ⟦<L as Layer>⟧ (Recorded span.now (plain_record values.now))
        span.now at) registry.old rows.old registry.new rows.new }
{
    for row in rows.iter_mut() {
        row.record(span, values, registry, at);
    }
}

// A span was said to follow from another one.
pub(crate) fn tell_follows<L: Layer, F: Filter>(
    rows: &mut [OutputSlot<Filtered<L, F>>],
    span: &Id,
    follows: &Id,
    registry: &mut Registry,
    at: At,
)
    ensures { EachInTurn (TellsFollows ⟦<F as Filter>⟧ ⟦<L as Layer>⟧ span.now follows.now at) registry.old rows.old
        registry.new rows.new }
{
    for row in rows.iter_mut() {
        row.follows_from(span, follows, registry, at);
    }
}

// A span was entered or left, or closes.
pub(crate) fn tell_step<L: Layer, F: Filter>(
    rows: &mut [OutputSlot<Filtered<L, F>>],
    step: SpanStep,
    span: &Id,
    registry: &mut Registry,
    at: At,
)
    ensures { EachInTurn (TellsSpan ⟦<F as Filter>⟧ ⟦<L as Layer>⟧ (hook_of step span.now) span.now at) registry.old
        rows.old registry.new rows.new }
{
    for row in rows.iter_mut() {
        row.step(step, span, registry, at);
    }
}

// A hub took the stack.
pub(crate) fn tell_dispatch<L: Layer, F: Filter>(
    rows: &mut [OutputSlot<Filtered<L, F>>],
    dispatch: &WeakDispatch,
)
    ensures { EachBecomes (TellsDispatch ⟦<F as Filter>⟧ ⟦<L as Layer>⟧ dispatch.now) rows.old rows.new }
{
    for row in rows.iter_mut() {
        row.dispatch(dispatch);
    }
}
