// A trace over two outputs.

use crate::Trace;
use crate::tests::common::{MONDAY, Shape, event_at, output_in, span_at};
use event_formatter::{Fields, Json, LineFormat};
use span_registry_layers::Stack;
use span_tracing_outputs::{AnySink, RollingSink, RoutedSinks, TraceStack};
use span_tracing_skeleton::{Refusal, Reply, SpanName};
use std::alloc::Global;
use std::num::NonZeroU64;
use std::process::Abort;
use std::test::Fail;
use tracing_appender_rolling::{MemoryFolder, RollingFileAppender, Rotation};
use tracing_core_fields::{FieldSet, Identifier, Interest, Level, LevelFilter};

/// Spans `outer` with a field `x`, at level INFO.
pub(crate) const OUTER: Identifier = Identifier(1);

/// Events with a message and a field `n`, at level WARN.
pub(crate) const WARNING: Identifier = Identifier(2);

pub(crate) const SPAN_FIELDS: [&str; 1] = ["x"];

pub(crate) const EVENT_FIELDS: [&str; 2] = ["message", "n"];

pub(crate) type Written = TraceStack<
    Fields,
    Shape,
    LevelFilter,
    RoutedSinks<AnySink<MemoryFolder>>,
>;

/// A sink over a file for each day, in a folder of its own.
pub(crate) fn sink_of(
    alloc: Global,
    prefix: &str,
) -> Result<RoutedSinks<AnySink<MemoryFolder>>, Fail> {
    let folder = MemoryFolder::new(alloc);
    let appender = RollingFileAppender::new(alloc, Rotation::DAILY, folder, prefix, MONDAY).map_err(
        |refusal| refusal.error,
    )?;
    Ok(RoutedSinks::single(alloc, AnySink::Direct(RollingSink::new(appender)))?)
}

/// Full lines from DEBUG on go to `lines`, and JSON from WARN on to `json`.
pub(crate) fn stack_of_two(alloc: Global) -> Result<Written, Fail> {
    let full = output_in(
        alloc,
        1,
        LineFormat::Full,
        Fields::Default,
        LevelFilter::DEBUG,
    )?;
    let shape = LineFormat::Json(Json::new());
    let json = output_in(alloc, 2, shape, Fields::Json, LevelFilter::WARN)?;
    let mut outputs = Vec::new(alloc);
    outputs.push(full).ok().ok_or("room")?;
    outputs.push(json).ok().ok_or("room")?;
    let mut sinks = Vec::new(alloc);
    sinks.push(sink_of(alloc, "lines")?).ok().ok_or("room")?;
    sinks.push(sink_of(alloc, "json")?).ok().ok_or("room")?;
    let stack = Stack::new(alloc, outputs).ok().ok_or("a stack")?;
    Ok(TraceStack::new(stack, sinks).ok().ok_or("pairs")?)
}

/// Registers both callsites, or asks for the interests in them again.
pub(crate) fn register_both(trace: &mut Trace<Written>) -> Result<[Interest; 2], Refusal> {
    let outer = span_at("outer", Level::INFO, FieldSet::new(&SPAN_FIELDS, OUTER));
    let warning = event_at(
        "warning",
        Level::WARN,
        FieldSet::new(&EVENT_FIELDS, WARNING),
    );
    Ok([
        trace.register(OUTER, &outer)?,
        trace.register(WARNING, &warning)?,
    ])
}

/// A trace with both callsites, two lanes and the stack, which no lane reaches yet.
pub(crate) fn trace_of_two(rt: &impl Abort, alloc: Global) -> Result<Trace<Written>, Fail> {
    let mut trace = Trace::new(alloc);
    assert_eq!(rt; register_both(&mut trace)?, [Interest::never(); 2]);
    assert_eq!(rt; trace.thread(None, 1)?, 0);
    let name = String::from_str(alloc, "second")?;
    assert_eq!(rt; trace.thread(Some(name), 2)?, 1);
    assert_eq!(rt; trace.stack_count(), 0);
    let handle = trace.add_stack(stack_of_two(alloc)?).ok().ok_or("room")?;
    assert_eq!(rt; handle, 0);
    assert_eq!(rt; trace.stack_count(), 1);
    // The outputs differ on spans, and agree on warnings.
    let kept = [Interest::sometimes(), Interest::always()];
    assert_eq!(rt; register_both(&mut trace)?, kept);
    Ok(trace)
}

/// The same, and lanes reach the stack.
pub(crate) fn set_trace(rt: &impl Abort, alloc: Global) -> Result<Trace<Written>, Fail> {
    let mut trace = trace_of_two(rt, alloc)?;
    assert_eq!(rt; trace.set_global_default(0), Reply::Done);
    Ok(trace)
}

pub(crate) fn span_name(stack: usize, id: u64) -> Result<SpanName, Fail> {
    let id = NonZeroU64::new(id).ok_or("an id")?;
    Ok(SpanName { stack, id })
}

/// The name that a reply gives to a span.
pub(crate) fn made(reply: Reply) -> Result<SpanName, Fail> {
    match reply {
        Reply::Span(Some(name)) => Ok(name),
        Reply::Refused(refusal) => Err(refusal.into()),
        _ => Err("no span".into()),
    }
}

/// Compares the file of an output of the first stack with a text.
pub(crate) fn has_file(
    rt: &impl Abort,
    trace: &Trace<Written>,
    output: usize,
    name: &str,
    text: &str,
) -> Result<(), Fail> {
    has_file_of(rt, trace, (0, output), name, text)
}

/// Compares the file of an output of a stack with a text.
pub(crate) fn has_file_of(
    rt: &impl Abort,
    trace: &Trace<Written>,
    (stack, output): (usize, usize),
    name: &str,
    text: &str,
) -> Result<(), Fail> {
    let sink = trace.sink(2 * stack + output).ok_or("a sink")?;
    assert_eq!(rt; sink.missed(), 0);
    for entry in &sink.appender().ok_or("a folder")?.folder().files()? {
        if entry.name == name {
            let shown = str::from_utf8(entry.bytes).ok().unwrap_or("not UTF-8");
            assert_eq!(rt; shown, text, "in {name}");
            return Ok(());
        }
    }
    Err("no such file".into())
}
