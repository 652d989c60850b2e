//! The events of a span itself: that it was made, entered, left or closed.
ghost use Rattle.std.specs.Prelude.{◌≡◌, OnOk, length, map, string_bytes, take};
ghost use Rattle.tracing_core_fields.specs.Values.{placed_entries};
ghost use Rattle.span_registry_layers_layers.specs.FilterViews.{view};
ghost use Rattle.event_formatter_lines.specs.times.Durations.{duration_text};
ghost use Rattle.event_formatter.specs.fmt_layer.SpanEvents.{TellsClose, TellsSpan, TellsSpanIf, close_entries, close_names, close_texts};
ghost use Rattle.event_formatter.specs.fmt_layer.SpanEvents.{message_entries, message_names};

use crate::fmt_layer::layer::Layer;
use crate::formats::FormatEvent;
use event_formatter_lines::{FmtSpan, push_duration};
use event_formatter_text::{FormatFields, MakeWriter};
use span_registry_layers_layers::Context;
use span_registry_layers_store::Timings;
use std::alloc::AllocError;
use tracing_core_fields::{AnyValue, DebugText, Event, FieldSet, Id};

/// Whether an event is written when a span is made.
pub(crate) fn has_new(events: FmtSpan) -> bool
    ensures { result ≡ events.new }
{
    events.contains(FmtSpan::NEW)
}

/// Whether an event is written each time that a span is entered.
pub(crate) fn has_enter(events: FmtSpan) -> bool
    ensures { result ≡ events.enter }
{
    events.contains(FmtSpan::ENTER)
}

/// Whether an event is written each time that a span is left.
pub(crate) fn has_exit(events: FmtSpan) -> bool
    ensures { result ≡ events.exit }
{
    events.contains(FmtSpan::EXIT)
}

/// Whether an event is written when a span is closed.
pub(crate) fn has_close(events: FmtSpan) -> bool
    ensures { result ≡ events.close }
{
    events.contains(FmtSpan::CLOSE)
}

// Puts the text of the duration in place of what `out` held.
fn fill_duration(out: &mut String, nanoseconds: u128) -> Result<(), AllocError>
    ensures { OnOk result (string_bytes out.new ≡ duration_text nanoseconds) }
{
    out.clear();
    push_duration(out, nanoseconds)
}

// Puts the texts of how long the span was busy and idle in place of what the two texts held.
fn fill_durations(busy: &mut String, idle: &mut String, timings: &Timings) -> Result<(), AllocError>
    ensures busy { OnOk result (string_bytes busy.new ≡ duration_text timings.now.busy) }
    ensures idle { OnOk result (string_bytes idle.new ≡ duration_text timings.now.idle) }
{
    fill_duration(busy, timings.busy)?;
    fill_duration(idle, timings.idle)
}

impl<N: FormatFields, E: FormatEvent, W: MakeWriter> Layer<N, E, W> {
    // Writes the line of an event of the span itself, with fields of these names.
    fn tell_fields(
        &mut self,
        context: &Context<'_>,
        span: &Id,
        names: &[&str],
        values: &[Option<AnyValue<'_>>],
    )
        ensures { let own = map (λ name. name.now) names.now in
            TellsSpan N.text_of E.line_of W.writes self.old (view context.now) span.now own
            (placed_entries (take (length own) values.now)) self.new }
    {
        let Some(metadata) = context.metadata(span) else {
            return;
        };
        let fields = FieldSet::new(names, metadata.callsite());
        let event = Event::new_child_of(Some(*span), &metadata, fields.value_set_all(values));
        self.tell_event(context, &event);
    }

    /// Writes the line of an event of the span itself, with this message.
    pub(crate) fn tell_span(&mut self, context: &Context<'_>, span: &Id, message: &str)
        ensures { TellsSpan N.text_of E.line_of W.writes self.old (view context.now) span.now message_names
            (message_entries message.now) self.new }
    {
        let values = [Some(AnyValue::Str(message))];
        self.tell_fields(context, span, &["message"], &values);
    }

    /// The same where it is asked for.
    pub(crate) fn tell_span_if(
        &mut self,
        is_asked: bool,
        context: &Context<'_>,
        span: &Id,
        message: &str,
    )
        ensures { TellsSpanIf N.text_of E.line_of W.writes is_asked self.old (view context.now) span.now message_names
            (message_entries message.now) self.new }
    {
        if is_asked {
            self.tell_span(context, span, message);
        }
    }

    // Writes the line of a close, with these texts of how long the span was busy and idle.
    fn tell_times<'t>(&mut self, context: &Context<'_>, span: &Id, busy: &'t str, idle: &'t str)
        ensures { TellsSpan N.text_of E.line_of W.writes self.old (view context.now) span.now close_names
            (close_texts busy.now idle.now) self.new }
    {
        let values = [
            Some(AnyValue::Str("close")),
            Some(AnyValue::Debug(DebugText::Texts {
                plain: busy,
                alternate: busy,
            })),
            Some(AnyValue::Debug(DebugText::Texts {
                plain: idle,
                alternate: idle,
            })),
        ];
        self.tell_fields(
            context,
            span,
            &["message", "time.busy", "time.idle"],
            &values,
        );
    }

    // Counts the line of an event of the span, where that is seen, as one that found no memory.
    fn miss_span(&mut self, context: &Context<'_>, span: &Id, timings: &Timings)
        ensures { TellsSpan N.text_of E.line_of W.writes self.old (view context.now) span.now close_names
            (close_entries timings.now) self.new }
    {
        if context.exists(span) {
            self.threads.meet(context.at().lane);
            self.output.miss();
        }
    }

    // Writes the line of a close with the timings.
    fn tell_timed_close(&mut self, context: &Context<'_>, span: &Id, timings: &Timings)
        ensures { TellsSpan N.text_of E.line_of W.writes self.old (view context.now) span.now close_names
            (close_entries timings.now) self.new }
    {
        let mut busy = std::mem::replace(&mut self.scratch.busy, String::new(self.alloc));
        let mut idle = std::mem::replace(&mut self.scratch.idle, String::new(self.alloc));
        match fill_durations(&mut busy, &mut idle, timings) {
            Ok(()) => self.tell_times(context, span, busy.as_str(), idle.as_str()),
            Err(_) => self.miss_span(context, span, timings),
        }
        self.scratch.busy = busy;
        self.scratch.idle = idle;
    }

    /// Writes the line of a close, with the timings where there are any.
    pub(crate) fn tell_close(&mut self, context: &Context<'_>, span: &Id, timings: Option<Timings>)
        ensures { TellsClose N.text_of E.line_of W.writes timings self.old (view context.now) span.now self.new }
    {
        match timings {
            None => self.tell_span(context, span, "close"),
            Some(timings) => self.tell_timed_close(context, span, &timings),
        }
    }
}
