//! The log of the service: two files, each written by a thread of its own, behind one trace.
ghost use Rattle.std.specs.Prelude.{IfOk};
ghost use Rattle.span_tracing.specs.StepFollows.{TraceIsReady};

use crate::pool::Sites;
use crate::stop::Stop;
use event_formatter_text::Route;
use span_registry_layers::Filter;
use span_tracing::laws::{leveled_outputs_are_honest, sites_stay_ready, traces_start_ready};
use span_tracing::{
    AnySink, Builder, Clock, Fields, FileStack, Folder, Format, LineFormat, LineSettings, Lines,
    LiveQueue, Moment, NonBlocking, NonBlockingBuilder, OutputKey, OutputSpec, Rotation,
    RoutedSinks, SinkSpec, Site, SystemClock, Timer, Trace, WorkerGuard, open_trace,
};
use std::alloc::{AllocGlobal, Global};
use std::rt;
use std::sync::Wait;
use std::thread::Threads;
use tracing_appender::{Clocked, ClockedAppender};
use tracing_core::{Level, LevelFilter};

/// A trace whose lines go to queues.
pub(crate) type LiveTrace<D, Q> = Trace<FileStack<LevelFilter, D, Q>>;

/// What a worker writes to: a file for each day, by the machine's clock.
type DailyFiles<D, R> = ClockedAppender<D, SystemClock<R>>;

/// A queue, and the worker that writes its lines.
type LiveFile<D, R> = (NonBlocking<R>, WorkerGuard<DailyFiles<D, R>>);

/// Opens the file `service.DAY` in a folder, and starts a worker that writes to it. Where its queue is full, threads wait.
///
/// # Errors
///
/// The folder refuses the file, there is no thread, or no memory.
pub(crate) fn start<
    D: Folder + Send + Drop + 'static,
    R: AllocGlobal + rt::Clock + Threads + Wait + Copy + Send + Drop + 'static,
>(rt: &R, folder: D) -> Result<LiveFile<D, R>, Stop> {
    let alloc = rt.alloc();
    let mut clock = SystemClock::new(*rt, Moment::EPOCH);
    let files = Builder::new(alloc)
        .rotation(Rotation::DAILY)
        .filename_prefix("service");
    let appender = match files.build(alloc, folder, clock.now()) {
        Ok(appender) => appender,
        Err(refused) => return Err(Stop::Files(refused.error)),
    };
    let queue = NonBlockingBuilder::default()
        .lossy(false)
        .buffered_lines_limit(4);
    match queue.finish(*rt, alloc, appender.clocked(clock)) {
        Ok(live) => Ok(live),
        Err(refused) => Err(Stop::Worker(refused.error)),
    }
}

/// An output that hands its lines to a queue.
pub(crate) fn output<D: Drop, Q: Drop>(
    alloc: Global,
    key: OutputKey,
    lines: LineSettings,
    queue: Q,
) -> Result<OutputSpec<LevelFilter, D, Q>, Stop> {
    let mut sinks = Vec::new(alloc);
    sinks.push(SinkSpec::Live(queue))?;
    match OutputSpec::new(key, LevelFilter::INFO, lines, Route::Sink(0), sinks) {
        Ok(output) => Ok(output),
        Err(refused) => Err(Stop::from(refused.error)),
    }
}

/// Gives a trace, which has one lane, a lane for each other thread. A ready trace stays so.
fn add_lanes<D: Folder, Q: LiveQueue>(trace: &mut LiveTrace<D, Q>) -> Result<(), Stop>
    ensures { TraceIsReady ⟦<LevelFilter as Filter>⟧ ⟦<Lines as span_registry_layers::Layer>⟧ trace.old →
        TraceIsReady ⟦<LevelFilter as Filter>⟧ ⟦<Lines as span_registry_layers::Layer>⟧ trace.new }
{
    traces_start_ready::<
        Fields,
        Format<LineFormat, Timer>,
        LevelFilter,
        RoutedSinks<AnySink<D, Q>>,
    >();
    let _second = trace.thread(None, 2)?;
    let _third = trace.thread(None, 3)?;
    let _fourth = trace.thread(None, 4)?;
    Ok(())
}

/// Registers the callsites. A ready trace stays so.
fn register<D: Folder, Q: LiveQueue>(trace: &mut LiveTrace<D, Q>) -> Result<Sites, Stop>
    ensures { TraceIsReady ⟦<LevelFilter as Filter>⟧ ⟦<Lines as span_registry_layers::Layer>⟧ trace.old →
        TraceIsReady ⟦<LevelFilter as Filter>⟧ ⟦<Lines as span_registry_layers::Layer>⟧ trace.new }
{
    sites_stay_ready::<
        Fields,
        Format<LineFormat, Timer>,
        LevelFilter,
        RoutedSinks<AnySink<D, Q>>,
    >();
    let request = Site::span(trace, "service", "request", Level::INFO, &["job"])?;
    let told = Site::event(trace, "service", "told", Level::INFO, &["message", "job"])?;
    Ok(Sites { request, told })
}

/// Opens a trace of these outputs, with a lane for each thread, and registers the callsites. The trace is ready for its first step.
///
/// # Errors
///
/// Mostly no memory.
pub(crate) fn open<D: Folder, Q: LiveQueue>(
    alloc: Global,
    moment: Moment,
    outputs: Vec<OutputSpec<LevelFilter, D, Q>>,
) -> Result<(LiveTrace<D, Q>, Sites), Stop>
    ensures { IfOk result (λ opened. TraceIsReady ⟦<LevelFilter as Filter>⟧ ⟦<Lines as span_registry_layers::Layer>⟧ opened.0) }
{
    leveled_outputs_are_honest::<D, Q>();
    let mut trace = open_trace(alloc, outputs, moment)?;
    add_lanes(&mut trace)?;
    let sites = register(&mut trace)?;
    Ok((trace, sites))
}
