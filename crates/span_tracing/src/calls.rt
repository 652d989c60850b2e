//! Calls that are made one by one, seen as a run.
ghost use Rattle.span_tracing.specs.Calls.{CallsMakeRuns, EachRunIsReady};

use event_formatter::{FormatEvent, Layer};
use event_formatter_text::FormatFields;
use span_registry_layers_layers::Filter;
use span_tracing_laws::{files_follow, runs_follow};
use span_tracing_outputs::{AnySink, PendingLines, RoutedSinks, TraceStack};
use tracing_appender::LiveQueue;
use tracing_appender_rolling::Folder;
use tracing_core_fields::Subscriber;

/// What [`Trace::run`](crate::Trace::run) promises holds of calls that are made one by one, too. A call is a run of one step, and a run
/// with one that begins where it ended is one run. Of each run of a ready trace `RunsReady` says what came to each sink, and which bytes
/// stand in its files.
pub fn calls_make_runs<N: FormatFields + Drop, E: FormatEvent, F: Filter, D: Folder, Q: LiveQueue>()
    ensures runs { CallsMakeRuns D.contents D.failed ⟦<TraceStack<N, E, F, RoutedSinks<AnySink<D, Q>>> as Subscriber>⟧ }
    // Of every run of a ready trace `RunsReady` says replies, what came to each sink, and the bytes in its files, however
    // its steps were called.
    ensures files { EachRunIsReady D.contents D.failed ⟦<TraceStack<N, E, F, RoutedSinks<AnySink<D, Q>>> as Subscriber>⟧ Q.settles
        ⟦<N as FormatFields>⟧ E.line_of ⟦<F as Filter>⟧ ⟦<Layer<N, E, PendingLines> as span_registry_layers_layers::Layer>⟧ }
{
    runs_follow::<N, E, F, D, Q>();
    files_follow::<N, E, F, D, Q>();
}
