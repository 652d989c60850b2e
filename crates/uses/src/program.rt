//! Events and spans of a program, written as lines to a log file.

ghost use Rattle.std.specs.Prelude.{◌≡◌, ◌∷◌, [], IfOk, OnErr, Some, length, true, false, Err};
ghost use Rattle.tracing_core.specs.IndexedEntries.{lent_entries};
ghost use Rattle.tracing_core.specs.PlainValue.{Text};
ghost use Rattle.tracing_appender.specs.Moments.{is_moment};
ghost use Rattle.span_tracing.specs.TraceFollows.{IsReady};
ghost use Rattle.span_tracing.specs.Looking.{reach};
ghost use Rattle.span_tracing.specs.StepFollows.{TraceIsReady, skeleton_of};
ghost use Rattle.span_tracing.specs.StepRuns.{Caching};
ghost use Rattle.span_tracing.specs.Ready.{FileRunGives, FileStepGives, RunsReady};
ghost use Rattle.uses.specs.Programs.{message_step};

use event_formatter::FormatEvent;
use event_formatter_text::FormatFields;
use span_registry_layers::Filter;
use span_tracing::laws::{leveled_outputs_are_honest, traces_start_ready};
use span_tracing::value::{AnyValue, LentValue};
use span_tracing::{
    AnySink, Builder, Fields, FileStack, Folder, Format, LineFormat, LineSettings, Lines,
    LiveQueue, MemoryFolder, Moment, NoLive, OutputKey, OutputSpec, Parent, Refusal, Reply,
    Rotation, Route, RoutedSinks, SinkSpec, Timer, Trace, calls_make_runs, open_stack,
    setup_follows,
};
use std::alloc::Global;
use tracing_core::{Identifier, LevelFilter, Subscriber};

/// What the output's lines go to.
type Sinks = RoutedSinks<AnySink<MemoryFolder>>;

/// A trace over a folder in memory, under a level.
pub type MemoryTrace = Trace<FileStack<LevelFilter, MemoryFolder>>;

// One output, which writes lines of the full format, without a time, of what a level passes, to a file for each day,
// `prefix.DAY.log`, in an empty folder in memory.
pub(crate) fn output_of(
    alloc: Global,
    prefix: &str,
    level: LevelFilter,
) -> Result<OutputSpec<LevelFilter, MemoryFolder>, Refusal> {
    let files = Builder::new(alloc)
        .rotation(Rotation::DAILY)
        .filename_prefix(prefix)
        .filename_suffix("log");
    let mut sinks = Vec::new(alloc);
    let sink = SinkSpec::Direct(files, MemoryFolder::new(alloc));
    if sinks.push(sink).is_err() {
        return Err(Refusal::OutOfMemory);
    }
    let lines = LineSettings {
        timer: Timer::Empty,
        ..LineSettings::full()
    };
    OutputSpec::new(OutputKey(1), level, lines, Route::Sink(0), sinks).map_err(
        |refused| refused.error,
    )
}

// A stack of this output, which is ready for its first call.
pub(crate) fn stack_of(
    alloc: Global,
    output: OutputSpec<LevelFilter, MemoryFolder>,
    moment: Moment,
) -> Result<FileStack<LevelFilter, MemoryFolder>, Refusal>
    ensures { IfOk result (λ made. IsReady ⟦<LevelFilter as Filter>⟧ made) }
{
    let mut outputs = Vec::new(alloc);
    if outputs.push(output).is_err() {
        return Err(Refusal::OutOfMemory);
    }
    leveled_outputs_are_honest::<MemoryFolder, NoLive>();
    open_stack(alloc, outputs, moment).map_err(|refused| refused.refusal)
}

// A trace with this stack and one lane, which reaches the stack.
fn trace_over(
    alloc: Global,
    stack: FileStack<LevelFilter, MemoryFolder>,
) -> Result<MemoryTrace, Refusal>
    requires { IsReady ⟦<LevelFilter as Filter>⟧ stack }
    ensures ready { IfOk result (λ trace. TraceIsReady ⟦<LevelFilter as Filter>⟧ ⟦<Lines as span_registry_layers::Layer>⟧
        trace) }
    ensures reached { IfOk result (λ trace. reach (skeleton_of trace) 0 ≡ Some 0) }
    ensures lane { IfOk result (λ trace. length trace.threads ≡ 1) }
{
    traces_start_ready::<Fields, Format<LineFormat, Timer>, LevelFilter, Sinks>();
    setup_follows::<Fields, Format<LineFormat, Timer>, LevelFilter, Sinks>();
    let mut trace = Trace::new(alloc);
    let Ok(_lane) = trace.thread(None, 1) else {
        return Err(Refusal::OutOfMemory);
    };
    let Ok(handle) = trace.add_stack(stack) else {
        return Err(Refusal::OutOfMemory);
    };
    match trace.set_global_default(handle) {
        Reply::Done => Ok(trace),
        Reply::Refused(refusal) => Err(refusal),
        _ => Err(Refusal::UnknownStack),
    }
}

/// A trace with one output at a level, whose lines of the full format, without a time, go to a file for each day,
/// `prefix.DAY.log`. It has one lane, number 0, whose events reach the output.
///
/// # Errors
///
/// `BadMoment` where the moment is out of range, then `BadName` where the prefix can't stand in a file's name, else want
/// of memory.
pub fn open_trace(
    alloc: Global,
    prefix: &str,
    level: LevelFilter,
    moment: Moment,
) -> Result<MemoryTrace, Refusal>
    ensures moment { is_moment moment ≡ false → result ≡ Err Refusal.BadMoment }
    ensures ready { IfOk result (λ trace. TraceIsReady ⟦<LevelFilter as Filter>⟧ ⟦<Lines as span_registry_layers::Layer>⟧
        trace) }
    ensures reached { IfOk result (λ trace. reach (skeleton_of trace) 0 ≡ Some 0) }
    ensures lane { IfOk result (λ trace. length trace.threads ≡ 1) }
{
    if !moment.is_in_range() {
        return Err(Refusal::BadMoment);
    }
    let output = output_of(alloc, prefix, level)?;
    let stack = stack_of(alloc, output, moment)?;
    trace_over(alloc, stack)
}

// A text as the value of a callsite's first field.
pub(crate) fn message(text: &str) -> LentValue<'_>
    ensures { lent_entries (result ∷ []) ≡ (0, Text text.now) ∷ [] }
{
    LentValue {
        field: 0,
        value: AnyValue::Str(text),
    }
}

/// Logs a text as an event at a callsite whose first field is the message, on lane 0: the step that `message_step` tells.
/// A refused step leaves the trace as it was.
pub fn log_text(trace: &mut MemoryTrace, moment: Moment, callsite: Identifier, text: &str) -> Reply
    ensures { FileStepGives ⟦<MemoryFolder as Folder>⟧.contents ⟦<MemoryFolder as Folder>⟧.failed
        ⟦<FileStack<LevelFilter, MemoryFolder> as Subscriber>⟧ trace.old (message_step moment callsite.0 text.now) result trace.new }
{
    trace.event(0, moment, callsite, Parent::Contextual, &[message(text)])
}

/// Logs two texts, each as `log_text` does, by two calls. They are a run of two steps. So where the trace is ready, as `open_trace` leaves
/// it, `RunsReady` says which lines the sink took of them, and which bytes stand in its files afterwards.
pub fn log_both(
    trace: &mut MemoryTrace,
    moment: Moment,
    callsite: Identifier,
    first: &str,
    second: &str,
) -> (Reply, Reply)
    ensures gives { FileRunGives ⟦<MemoryFolder as Folder>⟧.contents ⟦<MemoryFolder as Folder>⟧.failed
        ⟦<FileStack<LevelFilter, MemoryFolder> as Subscriber>⟧ Caching trace.old
        (message_step moment callsite.0 first.now ∷ message_step moment callsite.0 second.now ∷ [])
        (result.0 ∷ result.1 ∷ []) trace.new }
    ensures run { RunsReady ⟦<MemoryFolder as Folder>⟧.contents ⟦<MemoryFolder as Folder>⟧.failed ⟦<NoLive as LiveQueue>⟧.settles
        ⟦<Fields as FormatFields>⟧ ⟦<Format<LineFormat, Timer> as FormatEvent>⟧.line_of ⟦<LevelFilter as Filter>⟧
        ⟦<Lines as span_registry_layers::Layer>⟧ Caching trace.old
        (message_step moment callsite.0 first.now ∷ message_step moment callsite.0 second.now ∷ [])
        (result.0 ∷ result.1 ∷ []) trace.new }
{
    calls_make_runs::<Fields, Format<LineFormat, Timer>, LevelFilter, MemoryFolder, NoLive>();
    let parent = Parent::Contextual;
    let reply = trace.event(0, moment, callsite, parent, &[message(first)]);
    let last = trace.event(0, moment, callsite, parent, &[message(second)]);
    (reply, last)
}
