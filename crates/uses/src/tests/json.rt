//! Files of JSON lines, read back by `serde_json`.

use serde_json::Value;
use span_tracing::value::Lend;
use span_tracing::{
    Builder, CallError, FileStack, LineSettings, MemoryFolder, Moment, OutputKey, OutputSpec,
    Reply, Rotation, Route, SinkSpec, Site, Trace, event, open_stack, span,
};
use std::alloc::Global;
use std::process::Abort;
use std::test::Fail;
use tracing_core::{Level, LevelFilter};

/// 2025-02-17T10:01:00Z.
const MONDAY: Moment = Moment {
    seconds: 1_739_786_460,
    nanoseconds: 0,
};

/// A text that JSON has to escape.
const ODD: &str = "a \"quoted\" line\nwith a \\, a tab\t, an escape \x1b[31m, a \x01 and an é";

type JsonTrace = Trace<FileStack<LevelFilter, MemoryFolder>>;

/// A trace with an output of JSON lines, which writes all that it is told to one file in memory, and one lane.
fn json_trace(rt: &impl Abort, alloc: Global) -> Result<JsonTrace, Fail> {
    let files = Builder::new(alloc)
        .rotation(Rotation::NEVER)
        .filename_prefix("app");
    let mut sinks = Vec::new(alloc);
    let sink = SinkSpec::Direct(files, MemoryFolder::new(alloc));
    sinks.push(sink).ok().ok_or("room")?;
    let (key, level) = (OutputKey(1), LevelFilter::TRACE);
    let output = OutputSpec::new(key, level, LineSettings::json(), Route::Sink(0), sinks).map_err(
        |refused| refused.error,
    )?;
    let mut outputs = Vec::new(alloc);
    outputs.push(output).ok().ok_or("room")?;
    let mut trace = Trace::new(alloc);
    let stack = open_stack(alloc, outputs, MONDAY)?;
    let handle = trace.add_stack(stack).ok().ok_or("a handle")?;
    trace.thread(None, 1)?;
    assert_eq!(rt; trace.set_global_default(handle), Reply::Done);
    Ok(trace)
}

/// The member at the end of a path.
fn member<'a>(line: &'a Value, path: &[&str]) -> Result<&'a Value, Fail> {
    let mut value = line;
    for name in path {
        value = value.get(*name).ok_or("a member")?;
    }
    Ok(value)
}

fn has_text(rt: &impl Abort, line: &Value, path: &[&str], text: &str) -> Result<(), Fail> {
    assert_eq!(rt; member(line, path)?.as_str(), Some(text));
    Ok(())
}

/// The lines of the one file, each read by itself.
fn lines_of(alloc: Global, trace: &JsonTrace) -> Result<Vec<Value>, Fail> {
    let sink = trace.sink(0).ok_or("a sink")?;
    let files = sink.appender().ok_or("a folder")?.folder().files()?;
    let file = files.first().ok_or("a file")?;
    let text = str::from_utf8(file.bytes).ok().ok_or("UTF-8")?;
    let mut lines = Vec::new(alloc);
    for line in text.lines() {
        let value = Value::from_str(alloc, line).ok().ok_or("JSON")?;
        lines.push(value).ok().ok_or("room")?;
    }
    Ok(lines)
}

/// Logs an event in a span, and one outside of it.
fn log_both(rt: &impl Abort, alloc: Global, trace: &mut JsonTrace) -> Result<(), Fail> {
    let request = Site::span(trace, "app", "request", Level::WARN, &["user", "number"])?;
    let fields = &["message", "count", "delta", "is_done"];
    let served = Site::event(trace, "app", "served", Level::WARN, fields)?;
    let span = span!(trace, 0, MONDAY, request, number = 7_u8, user = ODD)?;
    assert_eq!(rt; trace.enter(0, MONDAY, span), Reply::Done);
    let told = event!(
        trace,
        0,
        MONDAY,
        served,
        message = ODD,
        count = u64::MAX,
        delta = -3_i32,
        is_done = true
    );
    assert_eq!(rt; told, Ok(()));
    assert_eq!(rt; trace.exit(0, MONDAY, span), Reply::Done);
    let text = String::from_str(alloc, "plain")?;
    let told = event!(
        trace,
        0,
        MONDAY,
        served,
        message = text,
        is_done = false,
        delta = i64::MIN,
        count = 0_usize
    );
    assert_eq!(rt; told, Ok(()));
    let lost = event!(trace, 0, MONDAY, served, message = "lost", status = 200);
    assert_eq!(rt; lost, Err(CallError::NoField("status")));
    Ok(())
}

/// Compares the line of the event in the span.
fn is_inside(rt: &impl Abort, line: &Value) -> Result<(), Fail> {
    has_text(rt, line, &["timestamp"], "2025-02-17T10:01:00.000000Z")?;
    has_text(rt, line, &["level"], "WARN")?;
    has_text(rt, line, &["target"], "app")?;
    has_text(rt, line, &["fields", "message"], ODD)?;
    assert_eq!(rt;
        member(line, &["fields", "count"])?.as_u64(),
        Some(u64::MAX)
    );
    assert_eq!(rt; member(line, &["fields", "delta"])?.as_i64(), Some(-3));
    assert_eq!(rt; member(line, &["fields", "is_done"])?.as_bool(), Some(true));
    has_text(rt, line, &["span", "name"], "request")?;
    has_text(rt, line, &["span", "user"], ODD)?;
    assert_eq!(rt; member(line, &["span", "number"])?.as_u64(), Some(7));
    let spans = member(line, &["spans"])?.as_array().ok_or("a list")?;
    assert_eq!(rt; spans.len(), 1);
    has_text(rt, &spans[0], &["user"], ODD)
}

#[test]
fn lines_are_read_back_value_by_value(rt: HostRuntime) -> Result<(), Fail> {
    let alloc = rt.alloc();
    let mut trace = json_trace(&rt, alloc)?;
    log_both(&rt, alloc, &mut trace)?;
    let lines = lines_of(alloc, &trace)?;
    assert_eq!(rt; lines.len(), 2);
    is_inside(&rt, &lines[0])?;
    let outside = &lines[1];
    has_text(&rt, outside, &["fields", "message"], "plain")?;
    assert_eq!(rt; member(outside, &["fields", "count"])?.as_u64(), Some(0));
    assert_eq!(rt;
        member(outside, &["fields", "delta"])?.as_i64(),
        Some(i64::MIN)
    );
    assert!(rt; outside.get("span").is_none());
    Ok(())
}
