//! The lines of a request, handed to the sinks of their outputs.
ghost use Rattle.std.specs.Prelude.{◌≡◌, ◌<◌, IsTrue, length, map, slice_get};
ghost use Rattle.span_tracing_outputs.specs.SinkLines.{HandsOver, LinesIf, NoLines, cleared_at, cleared_row};

use crate::output_sinks::OutputSinks;
use crate::pending::PendingLines;
use crate::sink::{LineSink, copied, some_hold, take_all};
use event_formatter::{FormatEvent, Layer};
use event_formatter_text::FormatFields;
use span_registry_layers::Stack;
use span_registry_layers_layers::{Filter, Filtered};
use tracing_core_moments::At;

// The lines of the output at a place go to the sink there.
#[inline(always)]
fn hand_lines<N: FormatFields + Drop, E: FormatEvent, F: Filter, S: LineSink>(
    stack: &Stack<Filtered<Layer<N, E, PendingLines>, F>>,
    sinks: &mut Vec<S>,
    at: At,
    place: usize,
)
    requires { place < length sinks.old.items }
    ensures { LinesIf S.takes at (slice_get stack.now.rows place) place sinks.old.items sinks.new.items }
{
    if let Some(output) = stack.output(place) {
        take_all(&mut sinks[place], at, output.inner().writer().lines());
    }
}

// The output at a place has no line any more.
fn clear_at<N: FormatFields + Drop, E: FormatEvent, F: Filter>(
    stack: &mut Stack<Filtered<Layer<N, E, PendingLines>, F>>,
    place: usize,
)
    ensures { stack.new ≡ record stack.old { rows = cleared_at (slice_get stack.old.rows place) place stack.old.rows } }
{
    if let Some(layer) = stack.layer_mut(place) {
        layer.writer_mut().clear();
    }
}

/// Forgets the lines of all outputs, of which there are so many. Nothing else of the stack changes.
pub(crate) fn clear_lines<N: FormatFields + Drop, E: FormatEvent, F: Filter>(
    stack: &mut Stack<Filtered<Layer<N, E, PendingLines>, F>>,
    count: usize,
)
    requires { length stack.old.rows ≡ count }
    ensures { stack.new ≡ record stack.old { rows = map cleared_row stack.old.rows } }
{
    for place in 0..count {
        clear_at(stack, place);
    }
}

// Whether a lone output keeps no line.
#[inline(always)]
fn is_idle<N: FormatFields + Drop, E: FormatEvent, F: Filter>(
    stack: &Stack<Filtered<Layer<N, E, PendingLines>, F>>,
) -> bool
    requires { length stack.now.rows ≡ 1 }
    ensures { IsTrue result → NoLines stack.now.rows }
{
    match stack.output(0) {
        None => false,
        Some(output) => output.inner().writer().is_empty(),
    }
}

// The lines of a lone output go to its sink, without a loop.
fn hand_only<N: FormatFields + Drop, E: FormatEvent, F: Filter, S: LineSink>(
    stack: &mut Stack<Filtered<Layer<N, E, PendingLines>, F>>,
    sinks: &mut Vec<S>,
    at: At,
)
    requires outputs { length stack.old.rows ≡ 1 }
    requires sinks { length sinks.old.items ≡ 1 }
    ensures { HandsOver S.takes at stack.old sinks.old.items stack.new sinks.new.items }
{
    hand_lines(stack, sinks, at, 0);
    clear_at(stack, 0);
}

// The lines of each of several outputs go to its sink.
fn hand_each<N: FormatFields + Drop, E: FormatEvent, F: Filter, S: LineSink>(
    stack: &mut Stack<Filtered<Layer<N, E, PendingLines>, F>>,
    sinks: &mut Vec<S>,
    at: At,
)
    requires { length sinks.old.items ≡ length stack.old.rows }
    ensures { HandsOver S.takes at stack.old sinks.old.items stack.new sinks.new.items }
{
    for place in 0..sinks.len() {
        hand_lines(stack, sinks, at, place);
        clear_at(stack, place);
    }
}

// Hands over what outputs keep, and looks once whether a line is held then.
#[inline(never)]
fn hand_lists<N: FormatFields + Drop, E: FormatEvent, F: Filter, S: LineSink>(
    stack: &mut Stack<Filtered<Layer<N, E, PendingLines>, F>>,
    sinks: &mut OutputSinks<S>,
    at: At,
)
    requires { length sinks.old ≡ length stack.old.rows }
    ensures { HandsOver S.takes at stack.old sinks.old stack.new sinks.new }
{
    if sinks.sinks.len() == 1 {
        hand_only(stack, &mut sinks.sinks, at);
    } else {
        hand_each(stack, &mut sinks.sinks, at);
    }
    sinks.holding = some_hold(sinks.sinks.as_slice());
}

/// Hands the lines that the outputs keep to their sinks, outputs in order, and each output's lines in order. No output
/// keeps a line afterwards, and nothing else of the stack changes. It needs as
/// many sinks as outputs.
// Most calls on spans leave no line at a lone output, which is seen at once.
#[inline(always)]
pub(crate) fn hand_over<N: FormatFields + Drop, E: FormatEvent, F: Filter, S: LineSink>(
    stack: &mut Stack<Filtered<Layer<N, E, PendingLines>, F>>,
    sinks: &mut OutputSinks<S>,
    at: At,
)
    requires { length sinks.old ≡ length stack.old.rows }
    ensures { HandsOver S.takes at stack.old sinks.old stack.new sinks.new }
{
    if sinks.len() == 1 && is_idle(stack) {
        return;
    }
    hand_lists(stack, sinks, copied(at));
}
