//! Lines that outputs keep until they are handed on.

use crate::tests::common::{Shown, event_at, output_in, span_at};
use event_formatter::{Fields, Json, LineFormat};
use event_formatter_text::MakeWriter;
use span_registry_layers::Stack;
use span_tracing_outputs::*;
use std::alloc::Global;
use std::test::Fail;
use tracing_core_fields::{
    AnyValue, Attributes, Event, FieldSet, Id, Identifier, Level, LevelFilter, Subscriber,
};
use tracing_core_moments::At;

const NAMES: [&str; 1] = ["message"];

const PLACE: At = At {
    lane: 0,
    seconds: 1_739_786_460,
    nanoseconds: 0,
};

fn stack_of_two(alloc: Global) -> Result<Stack<Shown>, Fail> {
    let mut outputs = Vec::new(alloc);
    let json = LineFormat::Json(Json::new());
    outputs
        .push(output_in(
            alloc,
            1,
            LineFormat::Full,
            Fields::Default,
            LevelFilter::DEBUG,
        )?)
        .ok()
        .ok_or("room")?;
    outputs
        .push(output_in(alloc, 2, json, Fields::Json, LevelFilter::WARN)?)
        .ok()
        .ok_or("room")?;
    Ok(Stack::new(alloc, outputs).ok().ok_or("a stack")?)
}

fn enter_span(stack: &mut Stack<Shown>, level: Level) -> Result<Id, Fail> {
    let fields = FieldSet::new(&NAMES, Identifier(1));
    let metadata = span_at("s", level, fields);
    let attributes = Attributes::new(&metadata, fields.value_set_all(&[]));
    let span = stack.new_span(&attributes, PLACE)?.ok_or("a span")?;
    stack.enter(&span, PLACE)?;
    Ok(span)
}

fn tell<T: Subscriber>(stack: &mut T, level: Level, message: &str) -> Result<(), Fail> {
    tell_at(stack, level, message, PLACE)
}

fn tell_at<T: Subscriber>(stack: &mut T, level: Level, message: &str, at: At) -> Result<(), Fail> {
    let fields = FieldSet::new(&NAMES, Identifier(2));
    let metadata = event_at("e", level, fields);
    let values = [Some(AnyValue::Str(message))];
    Ok(stack.event(&Event::new(&metadata, fields.value_set_all(&values)), at)?)
}

// Whether an output keeps just these lines.
fn keeps(stack: &Stack<Shown>, output: usize, lines: &[&str]) -> bool {
    let Some(output) = stack.output(output) else {
        return false;
    };
    let kept = output.inner().writer().lines();
    if kept.len() != lines.len() {
        return false;
    }
    for index in 0..lines.len() {
        if kept[index].bytes.as_slice() != lines[index].as_bytes() {
            return false;
        }
    }
    true
}

#[test]
fn lines_are_kept_in_order_and_buffers_are_used_again(rt: HostRuntime) -> Result<(), Fail> {
    let fields = FieldSet::new(&NAMES, Identifier(1));
    let warning = event_at("w", Level::WARN, fields);
    let detail = event_at("d", Level::DEBUG, fields);
    let mut pending = PendingLines::new(rt.alloc());
    assert!(rt; pending.lines().is_empty());
    pending.write_for(&warning, b"first\n")?;
    pending.write_for(&detail, b"second\n")?;
    assert_eq!(rt; pending.lines().len(), 2);
    assert_eq!(rt; pending.lines()[0].bytes.as_slice(), b"first\n".as_slice());
    assert_eq!(rt; pending.lines()[1].level, Level::DEBUG);
    pending.clear();
    assert!(rt; pending.lines().is_empty());
    pending.write_for(&detail, b"third\n")?;
    assert_eq!(rt; pending.lines().len(), 1);
    assert_eq!(rt; pending.lines()[0].bytes.as_slice(), b"third\n".as_slice());
    assert_eq!(rt; pending.lines()[0].level, Level::DEBUG);
    Ok(())
}

#[test]
fn outputs_keep_the_lines_of_what_they_passed(rt: HostRuntime) -> Result<(), Fail> {
    let mut stack = stack_of_two(rt.alloc())?;
    let span = enter_span(&mut stack, Level::INFO)?;
    tell(&mut stack, Level::WARN, "w")?;
    tell(&mut stack, Level::INFO, "i")?;
    assert!(rt;
        keeps(
            &stack,
            0,
            &["fake time  WARN s: app: w\n", "fake time  INFO s: app: i\n"]
        )
    );
    assert!(rt;
        keeps(
            &stack,
            1,
            &[
                "{\"timestamp\":\"fake time\",\"level\":\"WARN\",\"fields\":{\"message\":\"w\"},\"target\":\"app\"}\n"
            ],
        )
    );
    stack.exit(&span, PLACE);
    assert!(rt; stack.try_close(span, PLACE));
    assert!(rt;
        keeps(
            &stack,
            0,
            &[
                "fake time  WARN s: app: w\n",
                "fake time  INFO s: app: i\n",
                "fake time  INFO s: app: close\n",
            ],
        )
    );
    Ok(())
}

#[test]
fn a_full_line_shows_json_fields(rt: HostRuntime) -> Result<(), Fail> {
    let alloc = rt.alloc();
    let mut outputs = Vec::new(alloc);
    let output = output_in(alloc, 1, LineFormat::Full, Fields::Json, LevelFilter::TRACE)?;
    outputs.push(output).ok().ok_or("room")?;
    let mut stack = Stack::new(alloc, outputs).ok().ok_or("a stack")?;
    let own = FieldSet::new(&["x"], Identifier(1));
    let metadata = span_at("outer", Level::INFO, own);
    let values = [Some(AnyValue::U64(42))];
    let attributes = Attributes::new(&metadata, own.value_set_all(&values));
    let span = stack.new_span(&attributes, PLACE)?.ok_or("a span")?;
    stack.enter(&span, PLACE)?;
    let fields = FieldSet::new(&["message", "n"], Identifier(2));
    let metadata = event_at("e", Level::INFO, fields);
    let values = [Some(AnyValue::Str("hi")), Some(AnyValue::U64(3))];
    stack.event(&Event::new(&metadata, fields.value_set_all(&values)), PLACE)?;
    assert!(rt;
        keeps(
            &stack,
            0,
            &["fake time  INFO outer{{\"x\":42}}: app: {\"message\":\"hi\",\"n\":3}\n"]
        )
    );
    Ok(())
}

// Keeps the lines that it takes, each behind the lane of its request and a space.
#[derive(Drop)]
struct KeptLines {
    text: String,
}

impl LineSink for KeptLines {
    ghost use Rattle.std.specs.Prelude.{false};

    ghost takes = { λ old at line new. Unit {0} };

    ghost holds = { λ _. false };

    fn take(&mut self, at: At, _level: Level, line: &[u8]) {
        let _kept = write!(self.text, "{} ", at.lane);
        let _pushed = self.text.push_str(str::from_utf8(line).unwrap_or("?"));
    }

    fn is_holding(&self) -> bool {
        false
    }
}

fn empty_sinks(alloc: Global, count: usize) -> Result<Vec<KeptLines>, Fail> {
    let mut sinks = Vec::new(alloc);
    for _ in 0..count {
        sinks
            .push(KeptLines {
                text: String::new(alloc),
            })
            .ok()
            .ok_or("room")?;
    }
    Ok(sinks)
}

#[test]
fn each_sink_takes_the_lines_of_its_output(rt: HostRuntime) -> Result<(), Fail> {
    let alloc = rt.alloc();
    let mut trace = TraceStack::new(stack_of_two(alloc)?, empty_sinks(alloc, 2)?)
        .ok()
        .ok_or("pairs")?;
    let place = At { lane: 3, ..PLACE };
    tell_at(&mut trace, Level::WARN, "w", place)?;
    tell_at(&mut trace, Level::INFO, "i", place)?;
    assert!(rt; keeps(trace.stack(), 0, &[]) && keeps(trace.stack(), 1, &[]));
    assert_eq!(rt;
        trace.sinks()[0].text.as_str(),
        "3 fake time  WARN app: w\n3 fake time  INFO app: i\n"
    );
    assert_eq!(rt;
        trace.sinks()[1].text.as_str(),
        "3 {\"timestamp\":\"fake time\",\"level\":\"WARN\",\"fields\":{\"message\":\"w\"},\"target\":\"app\"}\n"
    );
    tell(&mut trace, Level::DEBUG, "d")?;
    assert_eq!(rt;
        trace.sinks()[0].text.as_str(),
        "3 fake time  WARN app: w\n3 fake time  INFO app: i\n0 fake time DEBUG app: d\n"
    );
    Ok(())
}

#[test]
fn a_stack_with_sinks_hands_over_at_each_request(rt: HostRuntime) -> Result<(), Fail> {
    let alloc = rt.alloc();
    let Err(unpaired) = TraceStack::new(stack_of_two(alloc)?, empty_sinks(alloc, 1)?) else {
        return Err("two outputs with one sink")?;
    };
    assert_eq!(rt; unpaired.sinks.len(), 1);
    let mut trace = TraceStack::new(unpaired.stack, empty_sinks(alloc, 2)?)
        .ok()
        .ok_or("pairs")?;
    let fields = FieldSet::new(&NAMES, Identifier(1));
    let metadata = span_at("s", Level::INFO, fields);
    let attributes = Attributes::new(&metadata, fields.value_set_all(&[]));
    let span = trace.new_span(&attributes, PLACE)?.ok_or("a span")?;
    trace.enter(&span, PLACE)?;
    trace.exit(&span, PLACE);
    assert!(rt; trace.sinks()[0].text.is_empty());
    assert!(rt; trace.try_close(span, At { lane: 5, ..PLACE }));
    assert_eq!(rt;
        trace.sinks()[0].text.as_str(),
        "5 fake time  INFO s: app: close\n"
    );
    assert!(rt; trace.sinks()[1].text.is_empty());
    assert!(rt; keeps(trace.stack(), 0, &[]));
    Ok(())
}
