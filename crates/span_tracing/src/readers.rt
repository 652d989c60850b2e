//! What can be read of a trace's outputs.
ghost use Rattle.std.specs.Prelude.{◌≡◌};
ghost use Rattle.std.specs.Option.{option_copied};
ghost use Rattle.span_tracing.specs.OutputReaders.{lost_at, lost_by, lost_by_all, missed_by_all, starved_at, starved_in};
ghost use Rattle.span_tracing_laws.specs.queue_steps.SinkPlaces.{sink_at};

use crate::trace::Trace;
use event_formatter::FormatEvent;
use event_formatter_text::FormatFields;
use span_registry_layers_layers::Filter;
use span_tracing_outputs::{AnySink, LineSink, RoutedSinks, TraceStack};
use tracing_appender::LiveQueue;
use tracing_appender_rolling::Folder;

// How many texts and lines the output at a place of a stack missed before its sinks.
fn starved_in<N: FormatFields + Drop, E: FormatEvent, F: Filter, S: LineSink>(
    stack: &TraceStack<N, E, F, S>,
    place: usize,
) -> Option<usize>
    ensures { result ≡ starved_in stack.now place }
{
    match stack.stack().output(place) {
        Some(filtered) => Some(filtered.inner().starved() as usize),
        None => None,
    }
}

// How many lines found no memory at sinks, beside what was missed before.
fn missed_by_all<D: Folder, Q: LiveQueue>(before: usize, sinks: &[AnySink<D, Q>]) -> usize
    ensures { result ≡ missed_by_all before sinks.now }
{
    let mut missed = before;
    for sink in sinks {
        missed = missed.saturating_add(sink.missed());
    }
    missed
}

// What a sink that had memory lost: lines that its folder didn't take whole; of a queued one also lines that it dropped, that came to its
// closed queue, and those behind its mark; of a live one those that came to its closed queue.
fn lost_by<D: Folder, Q: LiveQueue>(sink: &AnySink<D, Q>) -> usize
    ensures { result ≡ lost_by sink.now }
{
    match sink {
        AnySink::Direct(sink) => sink.appender().faults().writes,
        AnySink::Queued(sink) => sink
            .dropped_lines()
            .saturating_add(sink.faults().writes)
            .saturating_add(sink.queue().left() as usize),
        AnySink::Live(sink) => sink.lost(),
    }
}

// What sinks lost so, beside what was lost before.
fn lost_by_all<D: Folder, Q: LiveQueue>(before: usize, sinks: &[AnySink<D, Q>]) -> usize
    ensures { result ≡ lost_by_all before sinks.now }
{
    let mut lost = before;
    for sink in sinks {
        lost = lost.saturating_add(lost_by(sink));
    }
    lost
}

impl<N: FormatFields + Drop, E: FormatEvent, F: Filter, S: LineSink> Trace<
    TraceStack<N, E, F, RoutedSinks<S>>,
> {
    /// The sink with this number, also of a stack that was released and isn't taken yet. Sinks are numbered from 0 through all stacks and
    /// their outputs, in order. A sink tells how many lines found no memory at it; it has the folder of its files, what was lost to the
    /// folder's faults, and its queue, where it has one.
    pub fn sink(&self, number: usize) -> Option<&S>
        ensures { option_copied result ≡ sink_at self.now number }
    {
        match self.parts.sink_place(number) {
            None => None,
            Some(at) => match self.parts.stack(at.stack) {
                Some(stack) => stack.sink(at.place),
                None => None,
            },
        }
    }
}

impl<N: FormatFields + Drop, E: FormatEvent, F: Filter, D: Folder, Q: LiveQueue> Trace<
    TraceStack<N, E, F, RoutedSinks<AnySink<D, Q>>>,
> {
    /// How many texts of spans and lines the output with this number missed where memory ran out, before its sinks or at one of them, at
    /// most `usize::MAX`. A line that found no memory at two sinks counts twice. Outputs are numbered from 0 through all stacks. The stack
    /// may have been released, as long as it isn't taken.
    pub fn starved(&self, output: usize) -> Option<usize>
        ensures { result ≡ starved_at self.now output }
    {
        let at = self.parts.output_place(output)?;
        let Some(stack) = self.parts.stack(at.stack) else {
            return None;
        };
        let before = starved_in(stack, at.place)?;
        match stack.sinks().get(at.place) {
            Some(routed) => Some(missed_by_all(before, routed.sinks())),
            None => Some(before),
        }
    }

    /// How many texts and lines of the output with this number are missing in its files, at most `usize::MAX`: those that found no memory
    /// ([`starved`](Trace::starved)), lines that a folder didn't take whole, and lines that a queue dropped, that came to it once it was
    /// closed, or that stood behind its mark then. Lines that wait aren't counted, nor held ones that were given up, nor what became of lines
    /// in a live queue. A line that is missing
    /// at two sinks counts twice. The stack may have been released, as long as it isn't taken.
    pub fn lost(&self, output: usize) -> Option<usize>
        ensures { result ≡ lost_at self.now output }
    {
        let starved = self.starved(output)?;
        let at = self.parts.output_place(output)?;
        let Some(stack) = self.parts.stack(at.stack) else {
            return None;
        };
        match stack.sinks().get(at.place) {
            Some(routed) => Some(lost_by_all(starved, routed.sinks())),
            None => Some(starved),
        }
    }
}
