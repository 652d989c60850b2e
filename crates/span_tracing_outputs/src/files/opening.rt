//! A stack whose files are opened.
ghost use Rattle.std.specs.Prelude.{◌≡◌, ◌⊎◌, IfOk, IfErr, Some, None, Err, false, true, [], map};
ghost use Rattle.tracing_core_fields.specs.requests.Lists.{Every};
ghost use Rattle.tracing_core_moments.specs.Moments.{is_moment};
ghost use Rattle.span_tracing_outputs.specs.TraceFollows.{IsReady};
ghost use Rattle.span_tracing_outputs.specs.files.OpenedStack.{Answers, OpensFiles, OpensRouting, OpensSink, OpensStack, Pairs, RowOf};
ghost use Rattle.span_tracing_outputs.specs.files.OpenedStack.{of_all, outputs_refusal, RowsAreTold, routing_of, stack_refusal};
ghost use Rattle.span_tracing_outputs.specs.files.Threads.{lane_of};
ghost use Rattle.span_tracing_outputs.specs.files.OpenRefusals.{FilesRefuse, InOne, IsRouted, NamesAnswer, NamesTell, OutputsTell};
ghost use Rattle.span_tracing_outputs.specs.files.OpenRefusals.{RoutingRefuses, SinkRefuses, SinkTells, SinksTell};
ghost use Rattle.tracing_appender_rolling.specs.Builders.{builder_names};

use crate::files::lane_thread::LaneThread;
use crate::files::line_settings::Lines;
use crate::files::open_error::OpenStackError;
use crate::files::output_spec::{OutputSpec, SinkSpec};
use crate::sinks::{AnySink, LiveSink, RollingSink, RoutedSinks};
use crate::{PendingLines, TraceStack, trace_starts};
use event_formatter::{Fields, Format, FormatEvent, Layer, LineFormat, Timer};
use event_formatter_text::{FormatFields, Route};
use span_registry_layers::{Output, Stack, StackError};
use span_registry_layers_layers::{Filter, Filtered};
use span_registry_layers_store::OutputKey;
use span_tracing_skeleton::Refusal;
use std::alloc::{AllocError, Global};
use tracing_appender::{LiveQueue, NoLive};
use tracing_appender_queue::{QueuedSink, Waiting};
use tracing_appender_rolling::{Builder, Folder, RollingFileAppender};
use tracing_core_moments::Moment;

/// A stack whose outputs have lines of any format, under filters `F`, and whose lines go to rolling files in folders `D`, or to live
/// queues `Q`.
pub type FileStack<F, D, Q = NoLive> = TraceStack<
    Fields,
    Format<LineFormat, Timer>,
    F,
    RoutedSinks<AnySink<D, Q>>,
>;

/// What an output needs besides its files.
type LinesOutput<F> = Output<Filtered<Lines, F>>;

/// The sinks of an output, before their files are opened.
#[derive(Drop)]
pub(crate) struct Routing<D, Q> {
    key: OutputKey,
    route: Route,
    sinks: Vec<SinkSpec<D, Q>>,
}

fn stack_refusal(error: StackError) -> Refusal
    ensures { result ≡ stack_refusal error }
{
    match error {
        StackError::NoOutput => Refusal::NoOutput,
        StackError::TooManyFilters => Refusal::TooManyFilters,
        StackError::EqualKeys => Refusal::EqualKeys,
        StackError::OutOfMemory => Refusal::OutOfMemory,
    }
}

/// Why files can't have their names.
fn name_refusal(builder: &Builder) -> Option<Refusal>
    ensures { NamesTell (builder_names builder.now) result }
{
    if builder.has_bad_name() {
        Some(Refusal::BadName)
    } else if builder.has_bad_link() {
        Some(Refusal::BadLinkName)
    } else {
        None
    }
}

/// Why a sink can't be, before its folder is asked.
fn sink_refusal<D, Q>(sink: &SinkSpec<D, Q>) -> Option<Refusal>
    ensures { SinkTells sink.now result }
{
    match sink {
        SinkSpec::Direct(builder, _) => name_refusal(builder),
        SinkSpec::Queued(builder, _, limit, _) => {
            if *limit == 0 {
                return Some(Refusal::ZeroLimit);
            }
            name_refusal(builder)
        }
        SinkSpec::Live(_) => None,
    }
}

/// The first of the sinks' refusals.
fn first_refusal<D, Q>(sinks: &[SinkSpec<D, Q>]) -> Option<Refusal>
    ensures { SinksTell sinks.now result }
{
    let mut rest = sinks;
    while let [sink, later @ ..] = rest {
        match sink_refusal(sink) {
            Some(refusal) => return Some(refusal),
            None => rest = later,
        }
    }
    None
}

/// The first refusal of a name, outputs and sinks in order, with the output's key.
fn names_refusal<F, D, Q>(outputs: &[OutputSpec<F, D, Q>]) -> Option<(OutputKey, Refusal)>
    ensures { OutputsTell outputs.now result }
{
    let mut rest = outputs;
    while let [output, later @ ..] = rest {
        match first_refusal(output.sinks.as_slice()) {
            Some(refusal) => return Some((output.key, refusal)),
            None => rest = later,
        }
    }
    None
}

fn row_of<F: Drop, D: Drop, Q: Drop>(
    alloc: Global,
    threads: &[LaneThread<'_>],
    spec: OutputSpec<F, D, Q>,
) -> Result<(LinesOutput<F>, Routing<D, Q>), AllocError>
    ensures row { IfOk result (λ made. RowOf (map lane_of threads.now) spec made.0) }
    ensures routing { IfOk result (λ made. made.1 ≡ routing_of spec) }
{
    let OutputSpec {
        key,
        filter,
        lines,
        route,
        sinks,
    } = spec;
    let output = Filtered::new(lines.into_layer(alloc, key, threads)?, filter);
    Ok((Output { key, output }, Routing { key, route, sinks }))
}

/// The outputs without their files, and their sinks.
#[tactic(auto, using(crate::proofs::files::PairedLists::pairs_more))]
fn split<F: Drop, D: Drop, Q: Drop>(
    alloc: Global,
    threads: &[LaneThread<'_>],
    outputs: Vec<OutputSpec<F, D, Q>>,
) -> Result<(Vec<LinesOutput<F>>, Vec<Routing<D, Q>>), AllocError>
    ensures rows { IfOk result (λ made. Pairs (RowOf (map lane_of threads.now)) outputs.items made.0.items) }
    ensures routings { IfOk result (λ made. made.1.items ≡ map routing_of outputs.items) }
{
    let mut rows = Vec::new(alloc);
    let mut routings = Vec::new(alloc);
    for spec in outputs {
        let (row, routing) = row_of(alloc, threads, spec)?;
        rows.push(row)?;
        routings.push(routing)?;
    }
    Ok((rows, routings))
}

/// The files of such names in a folder.
fn open_files<D: Folder>(
    alloc: Global,
    key: OutputKey,
    builder: Builder,
    folder: D,
    moment: Moment,
) -> Result<RollingFileAppender<D>, OpenStackError>
    requires { is_moment moment ≡ true }
    ensures opened { IfOk result (λ appender. OpensFiles D.contents D.failed moment builder folder appender) }
    // A folder's refusal is told only where the folder told a fault.
    ensures refused { IfErr result (λ told. FilesRefuse D.failed key told builder folder) }
{
    match builder.build(alloc, folder, moment) {
        Ok(appender) => Ok(appender),
        Err(refused) => Err(OpenStackError::of_sink(key, refused.error)),
    }
}

fn open_sink<D: Folder, Q: LiveQueue>(
    alloc: Global,
    key: OutputKey,
    spec: SinkSpec<D, Q>,
    moment: Moment,
) -> Result<AnySink<D, Q>, OpenStackError>
    requires { is_moment moment ≡ true }
    ensures opened { IfOk result (λ sink. OpensSink D.contents D.failed moment spec sink) }
    ensures refused { IfErr result (λ told. SinkRefuses D.failed key told spec) }
{
    match spec {
        SinkSpec::Direct(builder, folder) => {
            let appender = open_files(alloc, key, builder, folder, moment)?;
            Ok(AnySink::Direct(RollingSink::new(appender)))
        }
        SinkSpec::Queued(builder, folder, limit, lossy) => {
            let Ok(waiting) = Waiting::new(alloc, limit, lossy) else {
                return Err(OpenStackError::at_output(key, Refusal::ZeroLimit));
            };
            let appender = open_files(alloc, key, builder, folder, moment)?;
            Ok(AnySink::Queued(QueuedSink::new(waiting, appender)))
        }
        SinkSpec::Live(queue) => Ok(AnySink::Live(LiveSink::new(queue))),
    }
}

/// The sinks of an output, opened in order.
fn open_sinks<D: Folder, Q: LiveQueue>(
    alloc: Global,
    key: OutputKey,
    specs: Vec<SinkSpec<D, Q>>,
    moment: Moment,
) -> Result<Vec<AnySink<D, Q>>, OpenStackError>
    requires { is_moment moment ≡ true }
    ensures opened { IfOk result (λ sinks. Pairs (OpensSink D.contents D.failed moment) specs.items sinks.items) }
    ensures refused { IfErr result (λ told. InOne (SinkRefuses D.failed key told) specs.items) }
{
    let mut sinks = Vec::new(alloc);
    for spec in specs {
        let sink = open_sink(alloc, key, spec, moment)?;
        let Ok(()) = sinks.push(sink) else {
            return Err(OpenStackError::at_output(key, Refusal::OutOfMemory));
        };
    }
    Ok(sinks)
}

#[tactic(auto, using(crate::proofs::files::RequestedOutputs::routed_is))]
fn open_routing<D: Folder, Q: LiveQueue>(
    alloc: Global,
    routing: Routing<D, Q>,
    moment: Moment,
) -> Result<RoutedSinks<AnySink<D, Q>>, OpenStackError>
    requires { is_moment moment ≡ true }
    ensures opened { IfOk result (λ routed. OpensRouting D.contents D.failed moment routing routed) }
    ensures refused { IfErr result (λ told. RoutingRefuses D.failed told routing) }
{
    let Routing { key, route, sinks } = routing;
    let opened = open_sinks(alloc, key, sinks, moment)?;
    match RoutedSinks::new(route, opened) {
        Ok(routed) => Ok(routed),
        Err(_) => Err(OpenStackError::at_output(key, Refusal::BadRoute)),
    }
}

/// The sinks of all outputs, opened in order.
fn open_routings<D: Folder, Q: LiveQueue>(
    alloc: Global,
    routings: Vec<Routing<D, Q>>,
    moment: Moment,
) -> Result<Vec<RoutedSinks<AnySink<D, Q>>>, OpenStackError>
    requires { is_moment moment ≡ true }
    ensures opened { IfOk result (λ opened. Pairs (OpensRouting D.contents D.failed moment) routings.items opened.items) }
    ensures refused { IfErr result (λ told. InOne (RoutingRefuses D.failed told) routings.items) }
{
    let mut opened = Vec::new(alloc);
    for routing in routings {
        let key = routing.key;
        let routed = open_routing(alloc, routing, moment)?;
        let Ok(()) = opened.push(routed) else {
            return Err(OpenStackError::at_output(key, Refusal::OutOfMemory));
        };
    }
    Ok(opened)
}

/// Refused outputs are told, since their layers have no filters of their own.
fn rows_are_told<N: FormatFields + Drop, E: FormatEvent, F: Filter>()
    ensures { RowsAreTold ⟦<F as Filter>⟧ ⟦<Layer<N, E, PendingLines> as span_registry_layers_layers::Layer>⟧ }
{}

/// A stack of the outputs, whose lines know no thread. At the moment the files of all sinks are opened, outputs and sinks in order,
/// after retention.
///
/// # Errors
///
/// In this order: `BadMoment`; `NoOutput`, `TooManyFilters` where there are more than 64 outputs, `EqualKeys`; for the sinks in order
/// `ZeroLimit`, `BadName`, `BadLinkName`, all before a folder is asked; then `FolderRefused` or `OutOfMemory` at the first sink that meets
/// it. Out of memory may be told in place of any but `BadMoment`. What is told of one output comes with its key, and a folder's refusal
/// with the fault. The outputs are let go: the folders of earlier sinks keep what was opened in them.
pub fn open_stack<F: Filter, D: Folder, Q: LiveQueue>(
    alloc: Global,
    outputs: Vec<OutputSpec<F, D, Q>>,
    moment: Moment,
) -> Result<FileStack<F, D, Q>, OpenStackError>
    // A moment out of range is refused, with no key and no fault, whatever else is wrong.
    ensures moment { is_moment moment ≡ false → result ≡ Err (of_all Refusal.BadMoment) }
    // At a moment in range, no output, more than 64 outputs, or two with one key are refused, with no key and no fault; out of memory
    // may be answered instead.
    ensures told { is_moment moment ≡ true → Answers (outputs_refusal outputs.items) result }
    // Where each output's route is good, as `OutputSpec::new` makes it, the queues of a stack that is made have room and its files good
    // names, and the first that hasn't is refused ahead of what a folder refuses; out of memory may be answered instead. A folder's refusal
    // is told only where the folder told a fault.
    ensures names { is_moment moment ≡ true → outputs_refusal outputs.items ≡ None → Every IsRouted outputs.items →
        NamesAnswer D.failed outputs.items result }
    ensures opened { IfOk result (λ made. OpensStack D.contents D.failed ⟦<F as Filter>⟧
        ⟦<Lines as span_registry_layers_layers::Layer>⟧ moment [] outputs.items made) }
    // With honest filters the stack is ready.
    ensures ready { Every (λ (spec : OutputSpec F D Q). F.honest spec.filter) outputs.items →
        IfOk result (λ made. IsReady ⟦<F as Filter>⟧ made) }
{
    open_stack_with_threads(alloc, &[], outputs, moment)
}

/// The same as [`open_stack`], where lines that show threads show these: lane 0 stands for the first, and so on. Of a lane without a
/// thread here they show the lane's number. The caller adds the lanes to the trace by `Trace::thread`, in the same order; nothing looks
/// whether the two agree.
///
/// # Errors
///
/// Those of [`open_stack`].
pub fn open_stack_with_threads<F: Filter, D: Folder, Q: LiveQueue>(
    alloc: Global,
    threads: &[LaneThread<'_>],
    outputs: Vec<OutputSpec<F, D, Q>>,
    moment: Moment,
) -> Result<FileStack<F, D, Q>, OpenStackError>
    ensures moment { is_moment moment ≡ false → result ≡ Err (of_all Refusal.BadMoment) }
    ensures told { is_moment moment ≡ true → Answers (outputs_refusal outputs.items) result }
    // Where each output's route is good, as `OutputSpec::new` makes it, the queues of a stack that is made have room and its files good
    // names, and the first that hasn't is refused ahead of what a folder refuses; out of memory may be answered instead. A folder's refusal
    // is told only where the folder told a fault.
    ensures names { is_moment moment ≡ true → outputs_refusal outputs.items ≡ None → Every IsRouted outputs.items →
        NamesAnswer D.failed outputs.items result }
    ensures opened { IfOk result (λ made. OpensStack D.contents D.failed ⟦<F as Filter>⟧
        ⟦<Lines as span_registry_layers_layers::Layer>⟧ moment (map lane_of threads.now) outputs.items made) }
    // With honest filters the stack is ready.
    ensures ready { Every (λ (spec : OutputSpec F D Q). F.honest spec.filter) outputs.items →
        IfOk result (λ made. IsReady ⟦<F as Filter>⟧ made) }
{
    if !moment.is_in_range() {
        return Err(OpenStackError::of_all(Refusal::BadMoment));
    }
    trace_starts::<Fields, Format<LineFormat, Timer>, F, RoutedSinks<AnySink<D, Q>>>();
    rows_are_told::<Fields, Format<LineFormat, Timer>, F>();
    let names = names_refusal(outputs.as_slice());
    let Ok((rows, routings)) = split(alloc, threads, outputs) else {
        return Err(OpenStackError::of_all(Refusal::OutOfMemory));
    };
    let stack = match Stack::new(alloc, rows) {
        Ok(stack) => stack,
        Err(refused) => return Err(OpenStackError::of_all(stack_refusal(refused.error))),
    };
    if let Some((key, refusal)) = names {
        return Err(OpenStackError::at_output(key, refusal));
    }
    let sinks = open_routings(alloc, routings, moment)?;
    match TraceStack::new(stack, sinks) {
        Ok(made) => Ok(made),
        // There are sinks for each output.
        Err(_) => unreachable!(),
    }
}
