//! The tests of the crates below; and a request's lines in text for people and in JSON for machines, from one stack of two outputs of one
//! type.

mod common;
mod formats;
mod layer;
mod lines;
mod memory;
mod slots;
mod surface;
mod text;
mod times;
mod visitors;

use super::*;
use common::{Lines, Names, span_metadata};
use span_registry_layers::{Output, Stack};
use span_registry_layers_layers::Filtered;
use span_registry_layers_store::OutputKey;
use std::alloc::Global;
use std::io;
use std::io::ErrorKind;
use std::test::Fail;
use tracing_core_fields::{
    AnyValue, Attributes, Event, FieldSet, Id, Identifier, Kind, Level, LevelFilter, Metadata,
};
use tracing_core_moments::At;

const NAMES: [&str; 2] = ["message", "n"];

const PLACE: At = At {
    lane: 0,
    seconds: 1_739_786_460,
    nanoseconds: 0,
};

type Lined = Filtered<Layer<Fields, Format<LineFormat, Timer>, Lines>, LevelFilter>;

// An output in this format.
fn output_in(
    alloc: Global,
    key: u32,
    shape: LineFormat,
    fields: Fields,
    filter: LevelFilter,
) -> Output<Lined> {
    let format = format(alloc)
        .with_timer(Timer::System(time()))
        .with_shape(shape);
    let layer = layer(alloc, OutputKey(key), Lines::new(alloc))
        .event_format(format)
        .fmt_fields(fields);
    Output {
        key: OutputKey(key),
        output: Filtered::new(layer, filter),
    }
}

// A stack of an output in text, and one in JSON that passes no debug events.
fn text_and_json(alloc: Global) -> Result<Stack<Lined>, Fail> {
    let mut outputs = Vec::new(alloc);
    let text = output_in(
        alloc,
        1,
        LineFormat::Full,
        Fields::Default,
        LevelFilter::DEBUG,
    );
    let json = output_in(
        alloc,
        2,
        LineFormat::Json(Json::new()),
        Fields::Json,
        LevelFilter::INFO,
    );
    outputs.push(text).ok().ok_or("room")?;
    outputs.push(json).ok().ok_or("room")?;
    Ok(Stack::new(alloc, outputs).ok().ok_or("a stack")?)
}

// Enters a span `request` with n = 7.
fn enter_request(stack: &mut Stack<Lined>) -> Result<Id, Fail> {
    let fields = FieldSet::new(&NAMES, Identifier(1));
    let metadata = span_metadata("request", fields);
    let values = [None, Some(AnyValue::U64(7))];
    let attributes = Attributes::new(&metadata, fields.value_set_all(&values));
    let span = stack.new_span(&attributes, PLACE)?.ok_or("a span")?;
    stack.enter(&span, PLACE)?;
    Ok(span)
}

// Tells an event with this message.
fn tell(stack: &mut Stack<Lined>, level: Level, message: &str) -> Result<(), Fail> {
    let fields = FieldSet::new(&NAMES, Identifier(2));
    let metadata = Metadata::new("done", "app", level, None, None, None, fields, Kind::EVENT);
    let values = [Some(AnyValue::Str(message))];
    Ok(stack.event(&Event::new(&metadata, fields.value_set_all(&values)), PLACE)?)
}

// Whether an output wrote just these lines.
fn wrote(stack: &Stack<Lined>, output: usize, lines: &[&str]) -> bool {
    match stack.output(output) {
        None => false,
        Some(output) => output.inner().writer().are(lines),
    }
}

#[test]
fn surface_event_formatter(rt: HostRuntime) -> Result<(), Fail> {
    let mut stack = text_and_json(rt.alloc())?;
    let span = enter_request(&mut stack)?;
    tell(&mut stack, Level::INFO, "done")?;
    tell(&mut stack, Level::DEBUG, "details")?;
    stack.exit(&span, PLACE);
    assert!(rt;
        wrote(
            &stack,
            0,
            &[
                "2025-02-17T10:01:00.000000Z  INFO request{n=7}: app: done\n",
                "2025-02-17T10:01:00.000000Z DEBUG request{n=7}: app: details\n",
            ]
        )
    );
    assert!(rt;
        wrote(
            &stack,
            1,
            &[
                "{\"timestamp\":\"2025-02-17T10:01:00.000000Z\",\"level\":\"INFO\",\"fields\":{\"message\":\"done\"},\"target\":\"app\",\"span\":{\"n\":7,\"name\":\"request\"},\"spans\":[{\"n\":7,\"name\":\"request\"}]}\n",
            ]
        )
    );
    Ok(())
}

#[test]
fn a_usual_timer_counts_from_its_start(rt: HostRuntime) -> Result<(), Fail> {
    let mut start = uptime(PLACE.seconds, PLACE.nanoseconds);
    let mut out = String::new(rt.alloc());
    start.format_time(rt.alloc(), &mut out, PLACE.seconds + 2, 5)?;
    assert!(rt; out.as_str() == "   2.000000005s");
    Ok(())
}
