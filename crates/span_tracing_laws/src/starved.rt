//! The law of the counts of what found no memory.
ghost use Rattle.span_tracing_laws.specs.starved.StarvedCounts.{NothingIsStarved};
ghost use Rattle.span_tracing_outputs.specs.sinks.AnySinks.{TakesAny};
ghost use Rattle.span_tracing_outputs.specs.sinks.Routed.{TakesRouted};
ghost use Rattle.span_tracing_outputs.specs.sinks.SinkCalls.{CallsIn, outputs_hold};

use event_formatter::{FormatEvent, Layer};
use event_formatter_text::FormatFields;
use span_registry_layers_layers::Filter;
use span_tracing_outputs::{
    AnySink, PendingLines, RoutedSinks, each_sink_has_its_run, runs_compose,
};
use tracing_appender::LiveQueue;
use tracing_appender_rolling::Folder;

/// Where the count `Layer::starved` of an output is after a run what it was before, below the greatest number, nothing of the output was
/// starved: in the run its machine offers the lines that it offers where everything finds memory, and at the end it is the same. The count
/// goes on by one for each text and each line that found no memory, up to the greatest number, so it never falls. This holds on each road,
/// from each plain state that the trace agrees with, also of an output of a stack that was released and isn't taken yet. A step that found
/// no memory, and did nothing, did nothing there either.
pub fn nothing_is_starved<
    N: FormatFields + Drop,
    E: FormatEvent,
    F: Filter,
    D: Folder,
    Q: LiveQueue,
>()
    ensures { NothingIsStarved ⟦<N as FormatFields>⟧ E.line_of ⟦<F as Filter>⟧ (TakesRouted (TakesAny D.contents D.failed Q.settles))
        (CallsIn D.contents D.failed) outputs_hold ⟦<Layer<N, E, PendingLines> as span_registry_layers_layers::Layer>⟧ }
{
    runs_compose::<RoutedSinks<AnySink<D, Q>>>();
    each_sink_has_its_run::<N, E, F, RoutedSinks<AnySink<D, Q>>>();
}
