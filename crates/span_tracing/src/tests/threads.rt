//! Lines that show the threads of lanes.

use crate::Trace;
use crate::tests::common::{MONDAY, event_at, lent_text, output_over};
use event_formatter_text::Route;
use span_tracing_outputs::{
    FileStack, LaneThread, LineSettings, SinkSpec, open_stack_with_threads,
};
use span_tracing_skeleton::{Parent, Reply};
use std::alloc::Global;
use std::test::Fail;
use tracing_appender_rolling::{Builder, MemoryFolder};
use tracing_core_fields::{FieldSet, Identifier, Level, LevelFilter};

type ThreadTrace = Trace<FileStack<LevelFilter, MemoryFolder>>;

const HELLO: Identifier = Identifier(1);

/// A trace whose lanes stand for `main` with the number 1, and for the thread 12 without a name; of lane 2 no thread is told.
fn trace_of(alloc: Global, lines: LineSettings) -> Result<ThreadTrace, Fail> {
    let mut sinks = Vec::new(alloc);
    let sink = SinkSpec::Direct(Builder::new(alloc), MemoryFolder::new(alloc));
    sinks.push(sink).ok().ok_or("room")?;
    let lines = LineSettings {
        thread_names: true,
        thread_ids: true,
        ..lines
    };
    let outputs = output_over(alloc, 7, lines, Route::Sink(0), sinks)?;
    let threads = [
        LaneThread {
            name: Some("main"),
            id: 1,
        },
        LaneThread { name: None, id: 12 },
    ];
    let stack = open_stack_with_threads(alloc, &threads, outputs, MONDAY)?;
    let mut trace = Trace::new(alloc);
    let handle = trace.add_stack(stack).ok().ok_or("room")?;
    for thread in [1, 12, 3] {
        let _lane = trace.thread(None, thread)?;
    }
    is_done(trace.set_global_default(handle))?;
    register(&mut trace)?;
    Ok(trace)
}

fn is_done(reply: Reply) -> Result<(), Fail> {
    match reply {
        Reply::Done => Ok(()),
        _ => Err("the step is done".into()),
    }
}

fn register(trace: &mut ThreadTrace) -> Result<(), Fail> {
    let fields = FieldSet::new(&["message"], HELLO);
    let _interest = trace.register(HELLO, &event_at("event", Level::INFO, fields))?;
    Ok(())
}

/// What the file has after an event on each lane.
fn text_after_events(alloc: Global, lines: LineSettings) -> Result<String, Fail> {
    let mut trace = trace_of(alloc, lines)?;
    for lane in 0..3 {
        let message = lent_text(0, "hello");
        is_done(trace.event(lane, MONDAY, HELLO, Parent::Contextual, &[message]))?;
    }
    let sink = trace.sink(0).ok_or("a sink")?;
    let files = sink.appender().ok_or("a folder")?.folder().files()?;
    let file = files.first().ok_or("a file")?;
    Ok(String::from_str(alloc, str_of(&file.bytes)?)?)
}

fn str_of(bytes: &[u8]) -> Result<&str, Fail> {
    match std::str::from_utf8(bytes) {
        Ok(text) => Ok(text),
        Err(_) => Err("a text".into()),
    }
}

#[test]
fn full_lines_show_the_threads_of_lanes(rt: HostRuntime) -> Result<(), Fail> {
    let text = text_after_events(rt.alloc(), LineSettings::full())?;
    assert_eq!(rt;
        text.as_str(),
        "2025-02-17T10:01:00.000000Z  INFO main ThreadId(01) app: hello\n2025-02-17T10:01:00.000000Z  INFO ThreadId(12) app: hello\n2025-02-17T10:01:00.000000Z  INFO ThreadId(02) app: hello\n"
    );
    Ok(())
}

#[test]
fn json_lines_show_the_threads_of_lanes(rt: HostRuntime) -> Result<(), Fail> {
    let text = text_after_events(rt.alloc(), LineSettings::json())?;
    assert!(rt;
        text.as_str()
            .contains("\"threadName\":\"main\",\"threadId\":\"ThreadId(1)\"}\n")
    );
    assert!(rt;
        text.as_str()
            .contains("\"target\":\"app\",\"threadId\":\"ThreadId(12)\"}\n")
    );
    Ok(())
}
