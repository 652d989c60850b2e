// Outputs whose lines go to live queues, alone and beside files.

use crate::tests::common::{MONDAY, event_at, lent_number, lent_text, output_over, span_at};
use crate::{
    AnySink, Builder, FileStack, LineSettings, MemoryFolder, NoLive, NonBlocking,
    NonBlockingBuilder, Parent, RecordedQueue, Refusal, Reply, Route, SinkSpec, Timer, Trace,
};
use std::alloc::Global;
use std::process::Abort;
use std::sync::Wait;
use std::test::Fail;
use tracing_appender::LiveQueue;
use tracing_core_fields::{FieldSet, Identifier, Level, LevelFilter};

type Live<Q> = Trace<FileStack<LevelFilter, MemoryFolder, Q>>;

const SPAN: Identifier = Identifier(1);

const EVENT: Identifier = Identifier(2);

/// A trace whose only output hands its lines to these sinks, as the route says. Its stack has the handle 0, and its lane 0.
fn trace_over<Q: LiveQueue>(
    alloc: Global,
    route: Route,
    sinks: Vec<SinkSpec<MemoryFolder, Q>>,
) -> Result<Live<Q>, Fail> {
    let lines = LineSettings {
        timer: Timer::Empty,
        ..LineSettings::full()
    };
    let outputs = output_over(alloc, 1, lines, route, sinks)?;
    let stack = crate::open_stack(alloc, outputs, MONDAY)?;
    let mut trace = Trace::new(alloc);
    trace.thread(None, 1)?;
    trace.add_stack(stack).ok().ok_or("a handle")?;
    let names = FieldSet::new(&["x"], SPAN);
    trace.register(SPAN, &span_at("outer", Level::INFO, names))?;
    let names = FieldSet::new(&["message", "n"], EVENT);
    trace.register(EVENT, &event_at("e", Level::INFO, names))?;
    Ok(trace)
}

/// Tells an event in a span.
fn tell<Q: LiveQueue>(rt: &impl Abort, trace: &mut Live<Q>) -> Result<(), Fail> {
    let parent = Parent::Contextual;
    let Reply::Span(span) = trace.new_span(0, MONDAY, SPAN, parent, &[lent_number(0, 42)]) else {
        return Err("a span")?;
    };
    assert_eq!(rt; trace.enter(0, MONDAY, span), Reply::Done);
    let values = [lent_text(0, "hi"), lent_number(1, 3)];
    assert_eq!(rt; trace.event(0, MONDAY, EVENT, parent, &values), Reply::Done);
    assert_eq!(rt; trace.exit(0, MONDAY, span), Reply::Done);
    assert_eq!(rt; trace.try_close(0, MONDAY, span), Reply::Closed(true));
    Ok(())
}

const LINE: &str = " INFO outer{x=42}: app: hi n=3\n";

fn only<T: Drop>(alloc: Global, it: T) -> Result<Vec<T>, Fail> {
    Ok(vec![in alloc; it].ok().ok_or("room")?)
}

/// The stack is the lane's own default, is let go, released and taken: the lines that came stay with it.
#[test]
fn lines_come_to_a_live_queue(rt: HostRuntime) -> Result<(), Fail> {
    let alloc = rt.alloc();
    let sinks = only(alloc, SinkSpec::Live(RecordedQueue::new(alloc)))?;
    let mut trace = trace_over(alloc, Route::Sink(0), sinks)?;
    assert_eq!(rt; trace.set_default(0, Some(0)), Reply::Guard(0));
    tell(&rt, &mut trace)?;
    for reply in [trace.work(0, 1, MONDAY), trace.admit(0), trace.shutdown(0)] {
        assert_eq!(rt; reply, Reply::Refused(Refusal::NotQueued));
    }
    assert!(rt; !trace.is_busy());
    assert_eq!(rt; (trace.starved(0), trace.lost(0)), (Some(0), Some(0)));
    assert_eq!(rt; trace.reset_default(0, 0), Reply::Done);
    assert_eq!(rt; trace.release(0), Reply::Done);
    let stack = trace.take_retired(0).ok_or("a stack")?;
    let queue = stack
        .sink(0)
        .ok_or("a sink")?
        .live_queue()
        .ok_or("a queue")?;
    assert_eq!(rt; queue.lines().len(), 1);
    assert_eq!(rt; queue.lines()[0].as_slice(), LINE.as_bytes());
    Ok(())
}

#[test]
fn a_file_stands_beside_a_live_queue(rt: HostRuntime) -> Result<(), Fail> {
    let alloc = rt.alloc();
    let mut sinks = only(alloc, SinkSpec::Live(RecordedQueue::new(alloc)))?;
    let file = SinkSpec::Direct(
        Builder::new(alloc).filename_prefix("p"),
        MemoryFolder::new(alloc),
    );
    sinks.push(file).ok().ok_or("room")?;
    let both = Route::Tee(
        Box::new(alloc, Route::Sink(0))?,
        Box::new(alloc, Route::Sink(1))?,
    );
    let mut trace = trace_over(alloc, both, sinks)?;
    assert_eq!(rt; trace.set_global_default(0), Reply::Done);
    tell(&rt, &mut trace)?;
    let live = trace.sink(0).ok_or("a sink")?;
    assert!(rt; live.appender().is_none());
    let queue = live.live_queue().ok_or("a queue")?;
    assert_eq!(rt; queue.lines()[0].as_slice(), LINE.as_bytes());
    let file = trace.sink(1).ok_or("a sink")?;
    assert!(rt; file.live_queue().is_none());
    let files = file.appender().ok_or("files")?.folder().files()?;
    assert_eq!(rt; files[0].bytes, LINE.as_bytes());
    Ok(())
}

/// The queue of no live queue loses each line, and says so.
#[test]
fn lines_to_no_queue_are_counted_as_lost(rt: HostRuntime) -> Result<(), Fail> {
    let alloc = rt.alloc();
    let sinks = only(alloc, SinkSpec::Live(NoLive))?;
    let mut trace = trace_over(alloc, Route::Sink(0), sinks)?;
    assert_eq!(rt; trace.set_global_default(0), Reply::Done);
    tell(&rt, &mut trace)?;
    assert_eq!(rt; (trace.starved(0), trace.lost(0)), (Some(0), Some(1)));
    assert_eq!(rt; trace.sink(0).ok_or("a sink")?.faults().writes, 1);
    Ok(())
}

/// A trace whose lines go to this queue, after three events.
fn told<R: Wait + Drop>(
    rt: &impl Abort,
    alloc: Global,
    queue: NonBlocking<R>,
) -> Result<Live<NonBlocking<R>>, Fail> {
    let sinks = only(alloc, SinkSpec::Live(queue))?;
    let mut trace = trace_over(alloc, Route::Sink(0), sinks)?;
    assert_eq!(rt; trace.set_global_default(0), Reply::Done);
    for _ in 0..3 {
        tell(rt, &mut trace)?;
    }
    Ok(trace)
}

/// A worker's thread writes the lines. Once it ended, a waiting queue loses what comes.
#[test]
fn a_worker_writes_a_traces_lines(rt: HostRuntime) -> Result<(), Fail> {
    let alloc = rt.alloc();
    let started = NonBlockingBuilder::default()
        .lossy(false)
        .buffered_lines_limit(1)
        .finish(rt, alloc, Vec::new(alloc));
    let (queue, worker) = started.ok().ok_or("a worker")?;
    let trace = told(&rt, alloc, queue);
    let written: Vec<u8> = worker.finish(&rt);
    let mut trace = trace?;
    assert_eq!(rt; written.len(), 3 * LINE.len());
    assert_eq!(rt; (trace.starved(0), trace.lost(0)), (Some(0), Some(0)));
    tell(&rt, &mut trace)?;
    assert_eq!(rt; (trace.starved(0), trace.lost(0)), (Some(0), Some(1)));
    assert!(rt; matches!(trace.sink(0), Some(AnySink::Live(_))));
    Ok(())
}
