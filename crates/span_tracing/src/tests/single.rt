// One output: over a folder with an older file, and with styles.

use crate::tests::common::{MONDAY, event_at, lent_text, span_at};
use crate::{
    AnySink, Fields, FileStack, Filtered, FixedText, Format, Layer, LineFormat, MemoryFolder,
    Output, OutputKey, Parent, PendingLines, Reply, RollingFileAppender, RollingSink, Rotation,
    RoutedSinks, Stack, Timer, Trace, TraceStack,
};
use std::alloc::Global;
use std::process::Abort;
use std::test::Fail;
use tracing_appender_rolling::Folder;
use tracing_core_fields::{FieldSet, Identifier, Level, LevelFilter};

type Outputs = FileStack<LevelFilter, MemoryFolder>;

const SPAN: Identifier = Identifier(1);

const EVENT: Identifier = Identifier(2);

const FILE: &str = "app.2025-02-17";

/// A trace over one output of full lines into the folder, with a callsite of spans and one of events.
fn trace_over(
    rt: &impl Abort,
    alloc: Global,
    folder: MemoryFolder,
    has_styles: bool,
) -> Result<Trace<Outputs>, Fail> {
    let time = FixedText::new(String::from_str(alloc, "fake time")?);
    let format = Format::new(alloc)
        .with_timer(Timer::Fixed(time))
        .with_shape(LineFormat::Full);
    let layer = Layer::new(alloc, OutputKey(0), PendingLines::new(alloc))
        .without_time()
        .event_format(format)
        .fmt_fields(Fields::Default)
        .with_ansi(has_styles);
    let output = Output {
        key: OutputKey(0),
        output: Filtered::new(layer, LevelFilter::INFO),
    };
    let appender = RollingFileAppender::new(alloc, Rotation::DAILY, folder, "app", MONDAY).map_err(
        |refusal| refusal.error,
    )?;
    let outputs = vec![in alloc; output].ok().ok_or("room")?;
    let sink = RoutedSinks::single(alloc, AnySink::Direct(RollingSink::new(appender)))?;
    let sinks = vec![in alloc; sink].ok().ok_or("room")?;
    let stack = Stack::new(alloc, outputs).ok().ok_or("a stack")?;
    let stack = TraceStack::new(stack, sinks).ok().ok_or("a pair")?;
    let mut trace = Trace::new(alloc);
    trace.thread(None, 1)?;
    trace.add_stack(stack).ok().ok_or("a handle")?;
    let names = FieldSet::new(&[], SPAN);
    trace.register(SPAN, &span_at("s", Level::INFO, names))?;
    let names = FieldSet::new(&["message"], EVENT);
    trace.register(EVENT, &event_at("e", Level::INFO, names))?;
    assert_eq!(rt; trace.set_global_default(0), Reply::Done);
    Ok(trace)
}

fn tell(rt: &impl Abort, alloc: Global, trace: &mut Trace<Outputs>) -> Result<(), Fail> {
    let message = lent_text(0, "m");
    let reply = trace.event(0, MONDAY, EVENT, Parent::Contextual, &[message]);
    assert_eq!(rt; reply, Reply::Done);
    Ok(())
}

/// The text of the one file.
fn has_text(rt: &impl Abort, trace: &Trace<Outputs>, text: &str) -> Result<(), Fail> {
    let sink = trace.sink(0).ok_or("a sink")?;
    let files = sink.appender().ok_or("a folder")?.folder().files()?;
    let file = files.first().ok_or("a file")?;
    assert_eq!(rt; files.len(), 1);
    assert_eq!(rt; file.name, FILE);
    let shown = str::from_utf8(file.bytes).ok().unwrap_or("not UTF-8");
    assert_eq!(rt; shown, text);
    Ok(())
}

#[test]
fn lines_stand_behind_what_was_found(rt: HostRuntime) -> Result<(), Fail> {
    let alloc = rt.alloc();
    let mut folder = MemoryFolder::new(alloc);
    let file = folder.open_append(FILE).ok().ok_or("a file")?;
    let written = folder.write(file, b"old\n").ok().ok_or("a write")?;
    assert_eq!(rt; written, 4);
    folder.close_file(file).ok().ok_or("a close")?;
    let mut trace = trace_over(&rt, alloc, folder, false)?;
    tell(&rt, alloc, &mut trace)?;
    has_text(&rt, &trace, "old\nfake time  INFO app: m\n")
}

#[test]
fn styles_stand_round_the_parts_of_a_line(rt: HostRuntime) -> Result<(), Fail> {
    let alloc = rt.alloc();
    let mut trace = trace_over(&rt, alloc, MemoryFolder::new(alloc), true)?;
    let Reply::Span(Some(span)) = trace.new_span(0, MONDAY, SPAN, Parent::Root, &[]) else {
        return Err("a span".into());
    };
    assert_eq!(rt; trace.enter(0, MONDAY, Some(span)), Reply::Done);
    tell(&rt, alloc, &mut trace)?;
    has_text(
        &rt,
        &trace,
        "\x1b[2mfake time\x1b[0m \x1b[32m INFO\x1b[0m \x1b[1ms\x1b[0m\x1b[2m:\x1b[0m \x1b[2mapp\x1b[0m\x1b[2m:\x1b[0m m\n",
    )
}
