//! The settings of a stack's outputs change.
ghost use Rattle.std.specs.Prelude.{◌≡◌};
ghost use Rattle.span_tracing_outputs.specs.OutputSettings.{fmt_span_of, layer_set, lined_set, outputs_in, stack_set};

use crate::pending::PendingLines;
use crate::sink::LineSink;
use crate::trace_stack::TraceStack;
use event_formatter::{FormatEvent, Layer};
use event_formatter_lines::FmtSpan;
use event_formatter_text::FormatFields;
use span_registry_layers::Stack;
use span_registry_layers_layers::{Filter, Filtered};
use span_tracing_skeleton::{HasOutputs, Setting, SpanMoments};

// The same set of moments.
fn fmt_span(moments: SpanMoments) -> FmtSpan
    ensures { result ≡ fmt_span_of moments }
{
    let mut events = FmtSpan::NONE;
    if moments.new {
        events |= FmtSpan::NEW;
    }
    if moments.enter {
        events |= FmtSpan::ENTER;
    }
    if moments.exit {
        events |= FmtSpan::EXIT;
    }
    if moments.close {
        events |= FmtSpan::CLOSE;
    }
    events
}

// Changes a setting of a layer.
fn set_layer<N: FormatFields + Drop, E: FormatEvent>(
    layer: &mut Layer<N, E, PendingLines>,
    setting: Setting,
)
    ensures { layer.new ≡ layer_set setting layer.old }
{
    match setting {
        Setting::Ansi(has_styles) => layer.set_ansi(has_styles),
        Setting::SpanEvents(moments) => layer.set_span_events(fmt_span(moments)),
    }
}

// Changes a setting of the output at a place, where there is one.
fn set_output<N: FormatFields + Drop, E: FormatEvent, F: Filter>(
    stack: &mut Stack<Filtered<Layer<N, E, PendingLines>, F>>,
    place: usize,
    setting: Setting,
)
    ensures { stack.new ≡ lined_set stack.old place setting }
{
    if let Some(layer) = stack.layer_mut(place) {
        set_layer(layer, setting);
    }
}

impl<N: FormatFields + Drop, E: FormatEvent, F: Filter, S: LineSink> HasOutputs
    for TraceStack<N, E, F, S> {
    ghost use Rattle.std.specs.Prelude.{refl};
    ghost use Rattle.span_tracing_outputs.specs.OutputSettings.{set_word};

    ghost outputs_in = { λ x. outputs_in x };

    ghost set = { λ x place setting. stack_set x place setting };

    ghost spans_stay = { λ x place setting. refl };

    ghost word_stays = { λ x place setting k. set_word ⟦<F as Filter>⟧ x place setting k };

    fn output_count(&self) -> usize {
        self.sinks.len()
    }

    fn set(&mut self, place: usize, setting: Setting) {
        set_output(&mut self.stack, place, setting);
    }
}
