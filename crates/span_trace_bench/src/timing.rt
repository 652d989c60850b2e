//! The times of benches.

use crate::bench::Bench;
use crate::counting::CountingFolder;
use crate::fault::Fault;
use crate::lines::Lines;
use crate::live::time_live;
use crate::shared::time_shared;
use crate::stack::sink_of;
use crate::stage::Stage;
use crate::times::Times;
use event_formatter::LineFormat;
use span_tracing::{Folder, NoLive};
use std::alloc::Global;
use std::rt::Clock;
use std::sync::Wait;
use std::thread::Threads;
use std::time::Instant;
use tracing_appender_rolling::DiskFolder;

/// A folder of the system. That a trace over it may go to another thread is proved of this type, and not of any folder.
pub(crate) type Disk = DiskFolder<HostRuntime>;

/// How many other spans are open in the benches that have many, where their time is taken.
const MANY: u64 = 10_000;

/// A stage of the bench over a folder, before its calls.
pub(crate) fn stage_over<D: Folder>(
    alloc: Global,
    bench: Bench,
    folder: D,
    prefix: &str,
) -> Result<Stage<D, NoLive>, Fault> {
    let mut sinks = Vec::new(alloc);
    sinks.push(sink_of(alloc, bench, folder, prefix))?;
    let mut stage = Stage::new(alloc, bench, sinks)?;
    bench.prepare(&mut stage, 0)?;
    Ok(stage)
}

/// A stage of the bench over a folder that only counts for each of its outputs, before its calls: with `many` other spans, where it has many.
pub(crate) fn counting_stage(
    alloc: Global,
    bench: Bench,
    many: u64,
) -> Result<Stage<CountingFolder, NoLive>, Fault> {
    let mut sinks = Vec::new(alloc);
    for _ in 0..bench.output_count() {
        let folder = CountingFolder::new(alloc);
        sinks.push(sink_of(alloc, bench, folder, "counted"))?;
    }
    let mut stage = Stage::new(alloc, bench, sinks)?;
    bench.prepare(&mut stage, many)?;
    Ok(stage)
}

/// The time that a bench's calls take.
fn time_on<R: Clock, D: Folder>(
    rt: &R,
    bench: Bench,
    count: u64,
    stage: Stage<D, NoLive>,
) -> Result<Times, Fault> {
    let mut stage = stage;
    let start = Instant::now(rt)?;
    bench.run(&mut stage, count)?;
    Ok(Times::of_calls(start.elapsed(rt)?.as_nanos()))
}

/// The time that the lines of a stack by itself take.
fn time_lines<R: Clock>(
    rt: &R,
    alloc: Global,
    shape: LineFormat,
    count: u64,
) -> Result<Times, Fault> {
    let mut lines = Lines::new(alloc, shape)?;
    let start = Instant::now(rt)?;
    lines.tell(count)?;
    Ok(Times::of_calls(start.elapsed(rt)?.as_nanos()))
}

/// Makes a bench's calls and times them. Where it has files they stand in the folder, and their names begin with the prefix.
pub(crate) fn time<R: Clock + AllocGlobal + Threads + Wait + Sync + Copy + Send + Drop + 'static>(
    rt: &R,
    bench: Bench,
    count: u64,
    folder: Disk,
    prefix: &str,
) -> Result<Times, Fault> {
    let alloc = rt.alloc();
    if let Some(shape) = bench.line_format() {
        return time_lines(rt, alloc, shape, count);
    }
    match bench {
        Bench::DirectFile => {
            time_on(rt, bench, count, stage_over(alloc, bench, folder, prefix)?)
        }
        Bench::Live | Bench::LiveAll => {
            Ok(time_live(rt, alloc, bench, count, folder, prefix)?.0)
        }
        Bench::Shared => time_shared(rt, alloc, count),
        _ => time_on(rt, bench, count, counting_stage(alloc, bench, MANY)?),
    }
}
