//! Sinks behind queues: what is counted, and what is left where a stack goes.

use crate::tests::common::{MONDAY, TUESDAY, event_at, lent_text, output_over};
use crate::{
    AnySink, Builder, FileStack, LineSettings, MemoryFolder, Parent, QueuedSink, Refusal, Reply,
    Rotation, Route, SinkSpec, Trace, open_trace,
};
use std::alloc::Global;
use std::process::Abort;
use std::test::Fail;
use tracing_core_fields::{FieldSet, Identifier, Level, LevelFilter};

type Queued = Trace<FileStack<LevelFilter, MemoryFolder>>;

const HELLO: Identifier = Identifier(1);

/// A trace whose one sink has a file for each day, behind a queue.
fn trace_of(alloc: Global, limit: usize, lossy: bool) -> Result<Queued, Fail> {
    let lines = LineSettings {
        timer: crate::Timer::Empty,
        ..LineSettings::full()
    };
    let builder = Builder::new(alloc).rotation(Rotation::DAILY);
    let mut sinks = Vec::new(alloc);
    let sink = SinkSpec::Queued(builder, MemoryFolder::new(alloc), limit, lossy);
    sinks.push(sink).ok().ok_or("room")?;
    let outputs = output_over(alloc, 1, lines, Route::Sink(0), sinks)?;
    let mut trace = open_trace(alloc, outputs, MONDAY)?;
    let fields = FieldSet::new(&["message"], HELLO);
    let _interest = trace.register(HELLO, &event_at("event", Level::INFO, fields))?;
    Ok(trace)
}

fn tell(rt: &impl Abort, trace: &mut Queued, text: &str) {
    let message = lent_text(0, text);
    let reply = trace.event(0, MONDAY, HELLO, Parent::Contextual, &[message]);
    assert_eq!(rt; reply, Reply::Done);
}

fn queued(trace: &Queued) -> Result<&QueuedSink<MemoryFolder>, Fail> {
    match trace.sink(0) {
        Some(AnySink::Queued(sink)) => Ok(sink),
        _ => Err("a queued sink".into()),
    }
}

/// The bytes of all files, in order of their names.
fn texts(alloc: Global, sink: &QueuedSink<MemoryFolder>) -> Result<String, Fail> {
    let mut shown = String::new(alloc);
    for file in &sink.appender().folder().files()? {
        shown.push_str(str::from_utf8(file.bytes).ok().unwrap_or("not UTF-8"))?;
    }
    Ok(shown)
}

#[test]
fn lines_of_a_lossy_queue_are_counted(rt: HostRuntime) -> Result<(), Fail> {
    let mut trace = trace_of(rt.alloc(), 3, true)?;
    tell(&rt, &mut trace, "a");
    assert_eq!(rt; trace.shutdown(0), Reply::Done);
    tell(&rt, &mut trace, "b");
    tell(&rt, &mut trace, "full");
    assert_eq!(rt; trace.work(0, 5, MONDAY).worked(), Ok(Some(1)));
    tell(&rt, &mut trace, "closed");
    let queue = queued(&trace)?.queue();
    assert_eq!(rt;
        (
            queue.accepted(),
            queue.handed(),
            queue.queued(),
            queue.left()
        ),
        (2, 1, 0, 1)
    );
    assert_eq!(rt; queue.dropped_lines(), 2);
    assert_eq!(rt; trace.lost(0), Some(3));
    let text = texts(rt.alloc(), queued(&trace)?)?;
    assert!(rt; text.as_str().ends_with("INFO app: a\n"));
    Ok(())
}

#[test]
fn lines_of_a_waiting_queue_are_held_or_lost(rt: HostRuntime) -> Result<(), Fail> {
    let mut trace = trace_of(rt.alloc(), 1, false)?;
    tell(&rt, &mut trace, "a");
    assert!(rt; !trace.is_busy());
    tell(&rt, &mut trace, "b");
    // while it is held, other steps are refused, whatever else is wrong with them
    assert!(rt; trace.is_busy());
    let parent = Parent::Contextual;
    assert_eq!(rt;
        trace.event(9, MONDAY, HELLO, parent, &[]),
        Reply::Refused(Refusal::Busy)
    );
    assert_eq!(rt; trace.set_ansi(9, true), Reply::Refused(Refusal::Busy));
    let mut filter = LevelFilter::OFF;
    assert_eq!(rt;
        trace.swap_filter(0, &mut filter),
        Reply::Refused(Refusal::Busy)
    );
    assert_eq!(rt; filter, LevelFilter::OFF);
    assert_eq!(rt; queued(&trace)?.held(), 1);
    assert_eq!(rt; trace.admit(0), Reply::Refused(Refusal::NoRoom));
    assert_eq!(rt; trace.work(0, 9, MONDAY), Reply::Worked(1));
    assert_eq!(rt; trace.shutdown(0), Reply::Done);
    assert_eq!(rt; trace.work(0, 0, MONDAY), Reply::Worked(0));
    // the queue is closed: the held line is given up, and a later one is lost
    assert_eq!(rt; trace.admit(0), Reply::Refused(Refusal::Closed));
    assert!(rt; !trace.is_busy());
    assert_eq!(rt; queued(&trace)?.faults().writes, 0);
    tell(&rt, &mut trace, "d");
    let sink = queued(&trace)?;
    assert_eq!(rt;
        (sink.held(), sink.faults().writes, sink.dropped_lines()),
        (0, 1, 0)
    );
    assert!(rt; sink.faults().last.is_none());
    assert_eq!(rt; (trace.starved(0), trace.lost(0)), (Some(0), Some(1)));
    let sink = trace.sink(0).ok_or("a sink")?;
    assert_eq!(rt; (sink.held(), sink.dropped_lines()), (Some(0), Some(0)));
    assert_eq!(rt; sink.faults().writes, 1);
    assert_eq!(rt; sink.appender().ok_or("a folder")?.faults().writes, 0);
    Ok(())
}

#[test]
fn a_released_stacks_queue_can_be_worked_until_it_is_taken(rt: HostRuntime) -> Result<(), Fail> {
    let mut trace = trace_of(rt.alloc(), 9, true)?;
    // the global default is never given up, so a second stack is released
    let lines = LineSettings::full();
    let folder = MemoryFolder::new(rt.alloc());
    let mut sinks = Vec::new(rt.alloc());
    let spec = SinkSpec::Queued(Builder::new(rt.alloc()), folder, 9, true);
    sinks.push(spec).ok().ok_or("room")?;
    let outputs = output_over(rt.alloc(), 2, lines, Route::Sink(0), sinks)?;
    let stack = crate::open_stack(rt.alloc(), outputs, MONDAY)?;
    let handle = trace.add_stack(stack).ok().ok_or("room")?;
    let guard = trace
        .set_default(0, Some(handle))
        .guard()?
        .ok_or("a guard")?;
    tell(&rt, &mut trace, "last");
    assert_eq!(rt; trace.reset_default(0, guard), Reply::Done);
    assert_eq!(rt; trace.release(handle), Reply::Done);
    assert_eq!(rt; trace.work(1, 9, TUESDAY), Reply::Worked(1));
    assert_eq!(rt; trace.shutdown(1), Reply::Done);
    assert!(rt; !trace.is_busy());
    let taken = trace.take_retired(1).ok_or("a stack")?;
    assert!(rt; trace.sink(1).is_none());
    assert_eq!(rt;
        trace.work(1, 9, MONDAY),
        Reply::Refused(Refusal::UnknownSink)
    );
    assert_eq!(rt; trace.shutdown(1), Reply::Refused(Refusal::UnknownSink));
    let Some(AnySink::Queued(sink)) = taken.sink(0) else {
        return Err("a queued sink".into());
    };
    assert!(rt;
        texts(rt.alloc(), sink)?
            .as_str()
            .ends_with("INFO app: last\n")
    );
    Ok(())
}
