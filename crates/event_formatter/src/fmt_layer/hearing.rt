//! What a layer does with what it is told of spans.
ghost use Rattle.std.specs.Prelude.{◌≡◌};
ghost use Rattle.tracing_core_fields.specs.requests.PlainRequests.{plain_attributes, plain_record};
ghost use Rattle.span_registry_layers_layers.specs.FilterViews.{SameLoan, left, view};
ghost use Rattle.event_formatter.specs.fmt_layer.SpanCalls.{HearsClose, HearsEnter, HearsExit, HearsNew, HearsRecord, first_timings};

use crate::fmt_layer::layer::Layer;
use crate::fmt_layer::span_events::{has_close, has_enter, has_exit, has_new};
use crate::formats::FormatEvent;
use event_formatter_lines::{TimingStep, add_record, keep_new, step_timings, timings_at_start};
use event_formatter_text::{FormatFields, MakeWriter};
use span_registry_layers_layers::Context;
use span_registry_layers_store::Timings;
use tracing_core_fields::{Attributes, Id, Record};
use tracing_core_moments::At;

impl<N: FormatFields, E: FormatEvent, W: MakeWriter> Layer<N, E, W> {
    // The timings of a span that is made now, where its close is to tell them.
    fn first_timings(&self, at: At) -> Option<Timings>
        ensures { result ≡ first_timings self.now at }
    {
        if has_close(self.config.span_events) && self.config.has_timer {
            return Some(timings_at_start(at.seconds, at.nanoseconds));
        }
        None
    }

    /// A span was made.
    #[inline(never)]
    pub(crate) fn hear_new(
        &mut self,
        context: &mut Context<'_>,
        span: &Id,
        attributes: &Attributes<'_, '_>,
    )
        ensures lent { SameLoan context.old context.new }
        ensures told { HearsNew ⟦<N as FormatFields>⟧ E.line_of W.writes self.old (view context.old) span.now
            (plain_attributes attributes.now) (left context.new) self.new }
    {
        let timings = self.first_timings(context.at());
        let config = &self.config;
        let first = keep_new(
            self.alloc,
            context,
            span,
            config.key,
            config.settings,
            &config.fields,
            attributes,
            timings,
        );
        if !first.is_whole() {
            self.output.miss();
        }
        self.tell_span_if(has_new(self.config.span_events), context, span, "new");
    }

    /// Values were recorded on a span.
    #[inline(never)]
    pub(crate) fn hear_record(&mut self, context: &mut Context<'_>, span: &Id, values: &Record<'_>)
        ensures lent { SameLoan context.old context.new }
        ensures told { HearsRecord ⟦<N as FormatFields>⟧ self.old (view context.old) span.now
            (plain_record values.now) (left context.new) self.new }
    {
        let is_kept = add_record(
            self.alloc,
            context,
            span,
            self.config.key,
            self.config.settings,
            &self.config.fields,
            values,
        );
        if !is_kept {
            self.output.miss();
        }
    }

    /// A span was entered.
    #[inline(never)]
    pub(crate) fn hear_enter(&mut self, context: &mut Context<'_>, span: &Id)
        ensures lent { SameLoan context.old context.new }
        ensures told { HearsEnter ⟦<N as FormatFields>⟧ E.line_of W.writes self.old (view context.old) span.now
            (left context.new) self.new }
    {
        step_timings(context, span, self.config.key, TimingStep::Enter);
        self.tell_span_if(has_enter(self.config.span_events), context, span, "enter");
    }

    /// A span was left.
    #[inline(never)]
    pub(crate) fn hear_exit(&mut self, context: &mut Context<'_>, span: &Id)
        ensures lent { SameLoan context.old context.new }
        ensures told { HearsExit ⟦<N as FormatFields>⟧ E.line_of W.writes self.old (view context.old) span.now
            (left context.new) self.new }
    {
        step_timings(context, span, self.config.key, TimingStep::Exit);
        self.tell_span_if(has_exit(self.config.span_events), context, span, "exit");
    }

    /// A span closes.
    #[inline(never)]
    pub(crate) fn hear_close(&mut self, context: &mut Context<'_>, span: &Id)
        ensures lent { SameLoan context.old context.new }
        ensures told { HearsClose ⟦<N as FormatFields>⟧ E.line_of W.writes self.old (view context.old) span.now
            (left context.new) self.new }
    {
        let timings = step_timings(context, span, self.config.key, TimingStep::Close);
        if has_close(self.config.span_events) {
            self.tell_close(context, span, timings);
        }
    }
}
