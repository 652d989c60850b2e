//! A trace whose lines a worker's thread writes.

use crate::bench::Bench;
use crate::counting::CountingFolder;
use crate::fault::Fault;
use crate::stack::{OPENED, files_of};
use crate::stage::Stage;
use crate::times::Times;
use span_tracing::{Folder, LiveQueue, SinkSpec};
use std::alloc::Global;
use std::rt::Clock;
use std::sync::Wait;
use std::thread::Threads;
use std::time::Instant;
use tracing_appender::{ClockedAppender, FixedClock, NonBlocking, NonBlockingBuilder, WorkerGuard};

/// Rolling files, written at one moment.
pub(crate) type Files<D> = ClockedAppender<D, FixedClock>;

/// Files in the folder.
fn files_in<D: Folder>(alloc: Global, folder: D, prefix: &str) -> Result<Files<D>, Fault> {
    match files_of(alloc, prefix).build(alloc, folder, OPENED) {
        Ok(appender) => Ok(ClockedAppender::new(appender, FixedClock::new(OPENED))),
        Err(_) => Err(Fault::System),
    }
}

/// Starts a worker of the bench.
fn start<R: Threads + Wait + Copy + Send + Drop + 'static, D: Folder + Send + 'static>(
    rt: &R,
    alloc: Global,
    bench: Bench,
    count: u64,
    files: Files<D>,
) -> Result<(NonBlocking<R>, WorkerGuard<Files<D>>), Fault> {
    let builder = if bench == Bench::LiveAll {
        NonBlockingBuilder::default()
            .lossy(false)
            .buffered_lines_limit(count.max(1) as usize)
    } else {
        NonBlockingBuilder::default()
    };
    builder.finish(*rt, alloc, files).map_err(|_| Fault::System)
}

/// Makes the calls, and answers when they began and how long they took.
fn call<R: Clock, Q: LiveQueue>(
    rt: &R,
    alloc: Global,
    bench: Bench,
    count: u64,
    queue: Q,
) -> Result<(Instant, u128), Fault> {
    let mut sinks = Vec::new(alloc);
    sinks.push(SinkSpec::Live(queue))?;
    let mut stage = Stage::<CountingFolder, Q>::new(alloc, bench, sinks)?;
    bench.prepare(&mut stage, 0)?;
    let start = Instant::now(rt)?;
    bench.run(&mut stage, count)?;
    Ok((start, start.elapsed(rt)?.as_nanos()))
}

/// Times calls whose lines a worker writes to files in the folder, until all stand there, and hands the files back.
pub(crate) fn time_live<
    R: Clock + Threads + Wait + Copy + Send + Drop + 'static,
    D: Folder + Send + 'static,
>(
    rt: &R,
    alloc: Global,
    bench: Bench,
    count: u64,
    folder: D,
    prefix: &str,
) -> Result<(Times, Files<D>), Fault> {
    let files = files_in(alloc, folder, prefix)?;
    let (queue, worker) = start(rt, alloc, bench, count, files)?;
    let called = call(rt, alloc, bench, count, queue);
    // A worker isn't let go, whatever became of the calls.
    let files = worker.finish(rt);
    let (start, calls) = called?;
    let all = start.elapsed(rt)?.as_nanos();
    Ok((Times { calls, all }, files))
}
