//! The sums of what benches hand over.

use crate::bench::{Bench, SHOWN};
use crate::counting::CountingFolder;
use crate::fault::Fault;
use crate::lines::{Counter, Lines};
use crate::live::time_live;
use crate::shared::count_shared;
use crate::timing::counting_stage;
use event_formatter::LineFormat;
use std::alloc::Global;
use std::io::Write;
use std::rt::Clock;
use std::sync::Wait;
use std::thread::Threads;

/// How often a bench's calls are made where only sums are shown.
const SMALL: u64 = 3;

/// How many other spans are open in the benches that have many, where only sums are shown.
const FEW: u64 = 100;

/// What was handed over, and how many spans were made.
#[derive(Drop)]
struct Sum {
    counted: Counter,
    spans: u64,
}

/// The sum of a bench with one span.
fn one_span(counted: Counter) -> Sum {
    Sum { counted, spans: 1 }
}

/// The sum of a bench whose calls one thread makes on a trace.
fn sum_on(alloc: Global, bench: Bench) -> Result<Sum, Fault> {
    let mut stage = counting_stage(alloc, bench, FEW)?;
    bench.run(&mut stage, SMALL)?;
    Ok(Sum {
        counted: stage.counted()?,
        spans: stage.spans,
    })
}

/// The sum of what a worker wrote.
fn sum_of_live<R: Clock + AllocGlobal + Threads + Wait + Copy + Send + Drop + 'static>(
    rt: &R,
    bench: Bench,
) -> Result<Sum, Fault> {
    let alloc = rt.alloc();
    let folder = CountingFolder::new(alloc);
    let (_times, files) = time_live(rt, alloc, bench, SMALL, folder, "sums")?;
    let mut counted = Counter { bytes: 0, lines: 0 };
    counted.add(files.appender().folder());
    Ok(one_span(counted))
}

/// The sum of the lines of a stack by itself.
fn sum_of_lines(alloc: Global, shape: LineFormat) -> Result<Sum, Fault> {
    let mut lines = Lines::new(alloc, shape)?;
    lines.tell(SMALL)?;
    Ok(one_span(lines.counted()?))
}

/// Makes a bench's calls a few times.
fn sum_of<R: Clock + AllocGlobal + Threads + Wait + Sync + Copy + Send + Drop + 'static>(
    rt: &R,
    bench: Bench,
) -> Result<Sum, Fault> {
    let alloc = rt.alloc();
    if let Some(shape) = bench.line_format() {
        return sum_of_lines(alloc, shape);
    }
    match bench {
        Bench::Live | Bench::LiveAll => sum_of_live(rt, bench),
        Bench::Shared => Ok(one_span(count_shared(rt, alloc, SMALL)?)),
        _ => sum_on(alloc, bench),
    }
}

/// Writes the name of each bench, the bytes and the lines that it handed over, and how many spans were made.
pub(crate) fn write_sums<
    R: Clock + AllocGlobal + Threads + Wait + Sync + Copy + Send + Drop + 'static,
    W: Write,
>(rt: &R, output: &mut W) -> Result<(), Fault> {
    for bench in SHOWN {
        let sum = sum_of(rt, bench)?;
        let name = bench.name();
        let bytes = sum.counted.bytes;
        let lines = sum.counted.lines;
        let spans = sum.spans;
        writeln!(output, "{name} {bytes} {lines} {spans}")?;
    }
    Ok(())
}
