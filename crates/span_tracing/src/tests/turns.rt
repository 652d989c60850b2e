//! Calls that wait for room at a live queue in the midst of their lines, many times over.

use crate::tests::common::{MONDAY, lent_number, output_over, span_at};
use crate::{
    FileStack, FmtSpan, LineSettings, MemoryFolder, NonBlocking, NonBlockingBuilder, Parent, Reply,
    Route, SinkSpec, Timer, Trace, open_trace,
};
use std::alloc::{AllocGlobal, Global};
use std::process::Abort;
use std::sync::atomic::{AtomicUsize, Ordering};
use std::sync::{Arc, Wait};
use std::test::Fail;
use std::thread;
use std::thread::Threads;
use std::time::{Clock, Duration};
use tracing_core_fields::{FieldSet, Identifier, Level, LevelFilter};

type Live<R> = Trace<FileStack<LevelFilter, MemoryFolder, NonBlocking<R>>>;

const SPAN: Identifier = Identifier(1);

const TURNS: usize = 1_000;

/// What one exit writes: the line of the exit, and one for each of two spans that close by it.
const LINES: &str =
    " INFO work{n=1}:work{n=2}: app: exit\n INFO work{n=1}:work{n=2}: app: close\n INFO work{n=1}: app: close\n";

/// A trace whose only output has lines for exits and closes of spans, which go to this queue.
fn trace_over<R: Wait + Drop>(alloc: Global, queue: NonBlocking<R>) -> Result<Live<R>, Fail> {
    let lines = LineSettings {
        timer: Timer::Empty,
        span_events: FmtSpan::EXIT | FmtSpan::CLOSE,
        ..LineSettings::full()
    };
    let sinks = vec![in alloc; SinkSpec::Live(queue)].ok().ok_or("room")?;
    let outputs = output_over(alloc, 1, lines, Route::Sink(0), sinks)?;
    let mut trace = open_trace(alloc, outputs, MONDAY)?;
    let names = FieldSet::new(&["n"], SPAN);
    trace.register(SPAN, &span_at("work", Level::INFO, names))?;
    Ok(trace)
}

/// Leaves a span that has no handle any more, and whose parent has none. No other call of these makes a line. Answers whether each was done.
fn turn<R: Wait + Drop>(trace: &mut Live<R>) -> bool {
    let first = [lent_number(0, 1)];
    let Reply::Span(Some(outer)) = trace.new_span(0, MONDAY, SPAN, Parent::Root, &first) else {
        return false;
    };
    let second = [lent_number(0, 2)];
    let parent = Parent::Explicit(outer);
    let Reply::Span(inner) = trace.new_span(0, MONDAY, SPAN, parent, &second) else {
        return false;
    };
    trace.enter(0, MONDAY, inner) == Reply::Done
        && trace.try_close(0, MONDAY, inner) == Reply::Closed(false)
        && trace.try_close(0, MONDAY, Some(outer)) == Reply::Closed(false)
        && trace.exit(0, MONDAY, inner) == Reply::Done
}

/// Takes all turns, and counts those that ended. Answers whether each went well, and the trace lost nothing.
fn take_turns<R: Wait + Drop>(trace: Live<R>, ended: &AtomicUsize) -> bool {
    let mut trace = trace;
    let mut goes_well = true;
    for _ in 0..TURNS {
        goes_well = turn(&mut trace) && goes_well;
        ended.fetch_add(1, Ordering::SeqCst);
    }
    goes_well && trace.lost(0) == Some(0)
}

/// Whether so many turns ended, by a bounded number of looks.
fn is_past<R: Clock>(rt: &R, ended: &AtomicUsize, turns: usize) -> bool {
    for _ in 0..20_000 {
        if ended.load(Ordering::SeqCst) >= turns {
            return true;
        }
        thread::sleep(rt, Duration::from_millis(1));
    }
    false
}

/// Sees each turn end, or ends the test.
fn see_turns_end<R: Abort + Clock>(rt: &R, ended: &AtomicUsize) {
    for turns in 1..=TURNS {
        assert!(rt; is_past(rt, ended, turns), "turn {turns}");
    }
}

/// Takes the turns in a thread of its own, and sees each of them end. Answers whether all went well.
fn went_well<R: Abort + AllocGlobal + Clock + Threads + Wait + Send + Drop + 'static>(
    rt: &R,
    queue: NonBlocking<R>,
) -> Result<bool, Fail> {
    let alloc = rt.alloc();
    let trace = trace_over(alloc, queue)?;
    let ended = Arc::new(alloc, AtomicUsize::new(0))?;
    let counted = Arc::try_clone(&ended)?;
    let Ok(turning) = thread::spawn(rt, move || take_turns(trace, &counted)) else {
        return Err("no thread".into());
    };
    see_turns_end(rt, &ended);
    Ok(turning.join(rt))
}

/// One call has three lines for a queue of one place, so it has to wait for the worker before its end.
#[test]
fn an_exit_of_three_lines_ends_each_time(rt: HostRuntime) -> Result<(), Fail> {
    let alloc = rt.alloc();
    let started = NonBlockingBuilder::default()
        .lossy(false)
        .buffered_lines_limit(1)
        .finish(rt, alloc, Vec::new(alloc));
    let (queue, worker) = started.ok().ok_or("a worker")?;
    let came = went_well(&rt, queue);
    let written: Vec<u8> = worker.finish(&rt);
    assert!(rt; came?);
    assert_eq!(rt; written.len(), TURNS * LINES.len());
    for lines in written.as_slice().chunks(LINES.len()) {
        assert!(rt; lines == LINES.as_bytes());
    }
    Ok(())
}
