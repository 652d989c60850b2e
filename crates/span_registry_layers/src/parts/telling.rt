//! Telling the outputs of a stack of events and spans.
ghost use Rattle.tracing_core_fields.specs.Metadata.{plain_metadata};
ghost use Rattle.tracing_core_fields.specs.requests.PlainRequests.{plain_attributes, plain_event, plain_record};
ghost use Rattle.span_registry_layers_layers.specs.FilterViews.{Recorded, SpanMade};
ghost use Rattle.span_registry_layers.specs.SpanNotices.{TellsDispatch, TellsFollows, TellsMade, TellsSpan};
ghost use Rattle.span_registry_layers.specs.OutputSlots.{AsksCallsite, AsksEvent, TellsEvent};
ghost use Rattle.span_registry_layers.specs.SpanSteps.{hook_of};
ghost use Rattle.span_registry_layers.specs.Stacks.{RowsBecome, RowsInTurn, plain_stack};

use crate::output_slot::SpanStep;
use crate::output_slots::{
    ask_callsite, ask_event, tell_dispatch, tell_event, tell_follows, tell_new_span, tell_record,
    tell_step,
};
use crate::parts::StackParts;
use span_registry_layers_layers::{Filter, Filtered, Layer};
use tracing_core_fields::{Attributes, Event, Id, Metadata, Record, WeakDispatch};
use tracing_core_moments::At;

impl<L: Layer, F: Filter> StackParts<Filtered<L, F>> {
    // Asks the outputs' own filters of the event, and marks what they answer.
    #[inline(always)]
    pub(super) fn ask_event(&mut self, event: &Event<'_, '_>, at: At)
        ensures { RowsBecome (AsksEvent ⟦<F as Filter>⟧ (plain_event event.now) at (plain_stack self.old).registry)
            (plain_stack self.old) (plain_stack self.new) }
    {
        ask_event(&mut self.rows, event, &mut self.registry, at);
    }

    // Asks the outputs' own filters of a callsite, and marks what they answer.
    pub(super) fn ask_callsite(&mut self, metadata: &Metadata<'_>, at: At)
        ensures { RowsBecome (AsksCallsite F.answers (plain_metadata metadata.now) at (plain_stack self.old).registry)
            (plain_stack self.old) (plain_stack self.new) }
    {
        ask_callsite(&mut self.rows, metadata, &mut self.registry, at);
    }

    // Tells each output whose filter passes it.
    #[inline(always)]
    pub(super) fn tell_event(&mut self, event: &Event<'_, '_>, at: At)
        ensures { RowsInTurn (TellsEvent ⟦<L as Layer>⟧ (plain_event event.now) at) (plain_stack self.old)
            (plain_stack self.new) }
    {
        tell_event(&mut self.rows, event, &mut self.registry, at);
    }

    pub(super) fn tell_new_span(&mut self, attributes: &Attributes<'_, '_>, span: &Id, at: At)
        ensures { RowsInTurn (TellsMade ⟦<F as Filter>⟧ ⟦<L as Layer>⟧
            (SpanMade (plain_attributes attributes.now) span.now) span.now at) (plain_stack self.old)
            (plain_stack self.new) }
    {
        tell_new_span(&mut self.rows, attributes, span, &mut self.registry, at);
    }

    pub(super) fn tell_record(&mut self, span: &Id, values: &Record<'_>, at: At)
        ensures { RowsInTurn (TellsSpan ⟦<F as Filter>⟧ ⟦<L as Layer>⟧ (Recorded span.now (plain_record values.now))
            span.now at) (plain_stack self.old) (plain_stack self.new) }
    {
        tell_record(&mut self.rows, span, values, &mut self.registry, at);
    }

    pub(super) fn tell_follows(&mut self, span: &Id, follows: &Id, at: At)
        ensures { RowsInTurn (TellsFollows ⟦<F as Filter>⟧ ⟦<L as Layer>⟧ span.now follows.now at)
            (plain_stack self.old) (plain_stack self.new) }
    {
        tell_follows(&mut self.rows, span, follows, &mut self.registry, at);
    }

    pub(super) fn tell_step(&mut self, step: SpanStep, span: &Id, at: At)
        ensures { RowsInTurn (TellsSpan ⟦<F as Filter>⟧ ⟦<L as Layer>⟧ (hook_of step span.now) span.now at)
            (plain_stack self.old) (plain_stack self.new) }
    {
        tell_step(&mut self.rows, step, span, &mut self.registry, at);
    }

    pub(crate) fn tell_dispatch(&mut self, dispatch: &WeakDispatch)
        ensures { RowsBecome (TellsDispatch ⟦<F as Filter>⟧ ⟦<L as Layer>⟧ dispatch.now) (plain_stack self.old)
            (plain_stack self.new) }
    {
        tell_dispatch(&mut self.rows, dispatch);
    }
}
