//! Laws of steps and runs.
ghost use Rattle.span_tracing_laws.specs.runs.AnySteps.{AnyStepsFollow};
ghost use Rattle.span_tracing_laws.specs.runs.Files.{FilesFollow};
ghost use Rattle.span_tracing_outputs.specs.sinks.AnySinks.{TakesAny};
ghost use Rattle.span_tracing_outputs.specs.sinks.Routed.{TakesRouted};
ghost use Rattle.span_tracing_outputs.specs.sinks.SinkCalls.{CallsIn, outputs_hold};
ghost use Rattle.span_tracing_laws.specs.runs.SkippedCallsites.{SkipsNothing};
ghost use Rattle.span_tracing_laws.specs.runs.Laws.{RunsFollow, SetupFollows, StepsFollow, TraceStaysCounted};

use event_formatter::{FormatEvent, Layer};
use event_formatter_text::FormatFields;
use span_registry_layers_layers::Filter;
use span_tracing_outputs::{
    AnySink, LineSink, PendingLines, RoutedSinks, TraceStack, each_sink_has_its_run,
    lines_stand_in_files, queued_lines_stand_in_files, runs_compose, sinks_meet_theirs,
    trace_follows,
};
use span_tracing_skeleton::stays_counted;
use tracing_appender::LiveQueue;
use tracing_appender_rolling::Folder;
use tracing_core_fields::Subscriber;

/// Setup calls leave a trace ready for steps, and so does asking anew of each callsite. The outputs of each stack, also of one that is
/// added, agree with the machines that they agreed with, and its filters, layers and sinks are as they were.
pub fn setup_follows<N: FormatFields + Drop, E: FormatEvent, F: Filter, S: LineSink>()
    ensures { SetupFollows ⟦<N as FormatFields>⟧ E.line_of ⟦<F as Filter>⟧ S.takes
        ⟦<Layer<N, E, PendingLines> as span_registry_layers_layers::Layer>⟧
        ⟦<TraceStack<N, E, F, S> as Subscriber>⟧ }
{
    trace_follows::<N, E, F, S>();
}

/// A step of a trace over stacks of outputs with sinks that finds no line held goes as the skeleton and the output machines of each stack
/// do, also of one that was released and isn't taken yet. The marks that an event, a question or a new span leaves in the stack that its
/// lane reached are what the filter of each output answers, asked again; a question is answered by whether some filter passes.
pub fn plain_steps_follow<N: FormatFields + Drop, E: FormatEvent, F: Filter, S: LineSink>()
    ensures { StepsFollow ⟦<N as FormatFields>⟧ E.line_of ⟦<F as Filter>⟧ S.takes
        ⟦<Layer<N, E, PendingLines> as span_registry_layers_layers::Layer>⟧
        ⟦<TraceStack<N, E, F, S> as Subscriber>⟧ }
{
    trace_follows::<N, E, F, S>();
}

/// While a line is held beside the queue of a sink, each step but the calls on queues is refused and changes nothing. Else a step goes as
/// the skeleton and the output machines of each stack do, also of one that was released and isn't taken yet. A call on a sink's queue
/// leaves the skeleton and the outputs as they were. Each step leaves the trace ready for the next one.
pub fn steps_follow<N: FormatFields + Drop, E: FormatEvent, F: Filter, D: Folder, Q: LiveQueue>()
    ensures { AnyStepsFollow ⟦<N as FormatFields>⟧ E.line_of ⟦<F as Filter>⟧ (TakesRouted (TakesAny D.contents D.failed Q.settles))
        (CallsIn D.contents D.failed) outputs_hold ⟦<Layer<N, E, PendingLines> as span_registry_layers_layers::Layer>⟧
        ⟦<TraceStack<N, E, F, RoutedSinks<AnySink<D, Q>>> as Subscriber>⟧ }
{
    plain_steps_follow::<N, E, F, RoutedSinks<AnySink<D, Q>>>();
}

/// Each stack of a trace is held by as many as it counts: in a new trace, and in a ready one after each setup call, step and run. So a
/// stack is released just when nobody holds it any more, and what a lane, a handle or a guard leads to is never released (`stays_counted`).
pub fn traces_stay_counted<
    N: FormatFields + Drop,
    E: FormatEvent,
    F: Filter,
    D: Folder,
    Q: LiveQueue,
>()
    ensures { TraceStaysCounted ⟦<N as FormatFields>⟧ E.line_of ⟦<F as Filter>⟧ (TakesRouted (TakesAny D.contents D.failed Q.settles))
        ⟦<Layer<N, E, PendingLines> as span_registry_layers_layers::Layer>⟧
        ⟦<TraceStack<N, E, F, RoutedSinks<AnySink<D, Q>>> as Subscriber>⟧ (CallsIn D.contents D.failed) outputs_hold }
{
    stays_counted();
    setup_follows::<N, E, F, RoutedSinks<AnySink<D, Q>>>();
    plain_steps_follow::<N, E, F, RoutedSinks<AnySink<D, Q>>>();
    steps_follow::<N, E, F, D, Q>();
}

/// A run of steps goes as the skeleton and the output machines do: from each plain state that the trace agrees with, the
/// replies are the plain ones, the trace agrees with the plain state afterwards, and the sinks of each stack met exactly the lines of its
/// outputs' machines, in order, each with where and when it was handed over, and between them the calls on their queues. A step that found
/// no memory did nothing, and so did one that found a line held. A call on a queue answers as the queue does. This holds of a run by what
/// is kept of filters' answers, and of one that asks anew before each step.
pub fn runs_follow<N: FormatFields + Drop, E: FormatEvent, F: Filter, D: Folder, Q: LiveQueue>()
    ensures { RunsFollow ⟦<N as FormatFields>⟧ E.line_of ⟦<F as Filter>⟧ (TakesRouted (TakesAny D.contents D.failed Q.settles))
        ⟦<Layer<N, E, PendingLines> as span_registry_layers_layers::Layer>⟧
        ⟦<TraceStack<N, E, F, RoutedSinks<AnySink<D, Q>>> as Subscriber>⟧ (CallsIn D.contents D.failed) outputs_hold }
{
    setup_follows::<N, E, F, RoutedSinks<AnySink<D, Q>>>();
    steps_follow::<N, E, F, D, Q>();
    runs_compose::<RoutedSinks<AnySink<D, Q>>>();
    each_sink_has_its_run::<N, E, F, RoutedSinks<AnySink<D, Q>>>();
}

/// Which bytes stand in which file after a run over sinks of rolling files: where a direct sink of an output dropped no line and its
/// folder's contents are known, exactly those lines of the output's machine that the route sends to it stand in its files, whole and
/// in order, where retention left them. Over any other folder each sink took just these lines, of
/// which the laws of sinks say which looks, openings and writes they come to. A machine offers no line that found no memory
/// before it came to the sink. The lines of a queued sink come to its queue, in order, and between them the calls on the queue. Where none
/// found no memory there, exactly the lines that the steps of workers took stand in its files, each in that of its step's running moment. Those of a live one
/// are offered to its queue, in order.
pub fn files_follow<N: FormatFields + Drop, E: FormatEvent, F: Filter, D: Folder, Q: LiveQueue>()
    ensures { FilesFollow D.contents D.failed ⟦<N as FormatFields>⟧ E.line_of ⟦<F as Filter>⟧ Q.settles
        ⟦<Layer<N, E, PendingLines> as span_registry_layers_layers::Layer>⟧ }
{
    sinks_meet_theirs::<D, Q>();
    lines_stand_in_files::<D>();
    queued_lines_stand_in_files::<D>();
}

/// At a callsite of which it is kept that nobody is interested in it, no filter passes an event, and no span is made: whoever makes no
/// request there misses no line. What he isn't told is whether the request would have been refused.
pub fn skipping_misses_nothing<N: FormatFields + Drop, E: FormatEvent, F: Filter, S: LineSink>()
    ensures { SkipsNothing ⟦<F as Filter>⟧ ⟦<Layer<N, E, PendingLines> as span_registry_layers_layers::Layer>⟧
        ⟦<TraceStack<N, E, F, S> as Subscriber>⟧ }
{}
