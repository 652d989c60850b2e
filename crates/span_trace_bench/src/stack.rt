//! The stack of a trace whose calls are timed.

use crate::bench::Bench;
use crate::fault::Fault;
use crate::lines::fields_of;
use span_tracing::{
    Builder, FileStack, Folder, LineSettings, LiveQueue, Moment, NoLive, OutputKey, OutputSpec,
    Rotation, Route, SinkSpec, open_stack,
};
use std::alloc::Global;
use tracing_core::LevelFilter;

/// 2025-02-17T10:01:00Z.
pub(crate) const OPENED: Moment = Moment {
    seconds: 1_739_786_460,
    nanoseconds: 0,
};

/// Outputs under levels.
pub(crate) type LevelStack<D, Q> = FileStack<LevelFilter, D, Q>;

/// How an output is to be.
pub(crate) type LevelSpec<D, Q> = OutputSpec<LevelFilter, D, Q>;

/// A file for each day, whose name begins with the prefix.
pub(crate) fn files_of(alloc: Global, prefix: &str) -> Builder {
    Builder::new(alloc)
        .rotation(Rotation::DAILY)
        .filename_prefix(prefix)
}

/// A sink of the bench to files in the folder.
pub(crate) fn sink_of<D: Folder>(
    alloc: Global,
    bench: Bench,
    folder: D,
    prefix: &str,
) -> SinkSpec<D, NoLive> {
    let builder = files_of(alloc, prefix);
    if bench.is_queued() {
        SinkSpec::Queued(builder, folder, 128_000, true)
    } else {
        SinkSpec::Direct(builder, folder)
    }
}

/// An output to INFO, whose lines have the time of their moment and their level, and go to the sink.
fn output_of<D: Folder, Q: LiveQueue>(
    alloc: Global,
    key: u32,
    bench: Bench,
    sink: SinkSpec<D, Q>,
) -> Result<LevelSpec<D, Q>, Fault> {
    let shape = bench.trace_format();
    let mut sinks = Vec::new(alloc);
    sinks.push(sink)?;
    let lines = LineSettings {
        format: shape,
        fields: fields_of(shape),
        ..LineSettings::full()
    };
    let key = OutputKey(key);
    OutputSpec::new(key, LevelFilter::INFO, lines, Route::Sink(0), sinks).map_err(
        |refused| Fault::Refused(refused.error),
    )
}

/// An output of the bench for each sink, under a key of its own.
pub(crate) fn outputs_of<D: Folder, Q: LiveQueue>(
    alloc: Global,
    bench: Bench,
    sinks: Vec<SinkSpec<D, Q>>,
) -> Result<Vec<LevelSpec<D, Q>>, Fault> {
    let mut outputs = Vec::new(alloc);
    let mut key: u32 = 0;
    for sink in sinks {
        outputs.push(output_of(alloc, key, bench, sink)?)?;
        key = key.saturating_add(1);
    }
    Ok(outputs)
}

/// A stack with an output of the bench for each sink.
pub(crate) fn stack_over<D: Folder, Q: LiveQueue>(
    alloc: Global,
    bench: Bench,
    sinks: Vec<SinkSpec<D, Q>>,
) -> Result<LevelStack<D, Q>, Fault> {
    let outputs = outputs_of(alloc, bench, sinks)?;
    open_stack(alloc, outputs, OPENED).map_err(|refused| Fault::Refused(refused.refusal))
}
