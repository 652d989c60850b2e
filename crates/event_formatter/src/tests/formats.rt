//! Lines of events in a registry.

mod builders;
mod context;
mod fields;
mod json;
mod own;
mod scopes;
mod spans;
mod threads;

use super::common;
use super::common::PLAIN;
use crate::formats::*;
use event_formatter_lines::{FixedText, keep_new};
use event_formatter_text::{FormatError, Settings};
use span_registry_layers_layers::Context;
use span_registry_layers_store::{FilterId, FilterMap, OutputKey, Registry};
use std::alloc::Global;
use std::test::Fail;
use tracing_core_fields::{AnyValue, Attributes, Event, FieldSet, Id, Identifier, Metadata};
use tracing_core_moments::At;

const NAMES: [&str; 2] = ["message", "n"];

const KEY: OutputKey = OutputKey(1);

const AT: At = At {
    lane: 0,
    seconds: 1,
    nanoseconds: 2,
};

const MAIN: CurrentThread<'static> = CurrentThread {
    name: Some("main"),
    id: 1,
    longest: 6,
};

fn hi_and_three() -> [Option<AnyValue<'static>>; 2] {
    [Some(AnyValue::Str("hi")), Some(AnyValue::I64(3))]
}

fn only_m() -> [Option<AnyValue<'static>>; 2] {
    [Some(AnyValue::Str("m")), None]
}

// The metadata of an event.
fn event_metadata(file: Option<&'static str>, line: Option<u32>) -> Metadata<'static> {
    let fields = FieldSet::new(&NAMES, Identifier(2));
    common::event_metadata("event", file, line, fields)
}

// The text of the time in each test.
fn fake_time(alloc: Global) -> Result<FixedText, Fail> {
    Ok(FixedText::new("fake time".to_string(alloc)?))
}

// A format that shows that time.
fn timed(alloc: Global) -> Result<Format<Full, FixedText>, Fail> {
    Ok(Format::new(alloc).with_timer(fake_time(alloc)?))
}

// Opens a span in the lane's one, keeps the text of its fields, and enters it.
fn enter_span(
    alloc: Global,
    registry: &mut Registry,
    passed: FilterMap,
    name: &str,
    fields: Fields,
    names: &[&str],
    values: &[Option<AnyValue<'_>>],
) -> Result<Id, Fail> {
    let set = FieldSet::new(names, Identifier(1));
    let metadata = common::span_metadata(name, set);
    let attributes = Attributes::new(&metadata, metadata.fields().value_set_all(values));
    let span = registry
        .new_span(&attributes, 0, passed)
        .ok()
        .ok_or("a span")?;
    registry.enter(&span, 0).ok().ok_or("entered")?;
    let mut context = Context::new(registry, AT, None);
    let values = set.value_set_all(values);
    let first = keep_new(
        alloc,
        &mut context,
        &span,
        KEY,
        PLAIN,
        &fields,
        &values,
        None,
    );
    if !first.is_whole() {
        return Err(Fail::from("kept"));
    }
    Ok(span)
}

// A registry whose lane is in one span.
fn in_span(
    alloc: Global,
    name: &str,
    fields: Fields,
    names: &[&str],
    values: &[Option<AnyValue<'_>>],
) -> Result<Registry, Fail> {
    let mut registry = Registry::new(alloc);
    let passes = FilterMap::all();
    enter_span(alloc, &mut registry, passes, name, fields, names, values)?;
    Ok(registry)
}

// The line of an event in a context.
fn line_in<F: FormatEvent>(
    alloc: Global,
    context: &Context<'_>,
    format: &mut F,
    fields: Fields,
    thread: CurrentThread<'_>,
    event: &Event<'_, '_>,
) -> Result<String, Fail> {
    let mut ids = Vec::new(alloc);
    let has_scope = fill_scope(context, event, &mut ids)?;
    let mut out = String::new(alloc);
    let shown = FmtContext::new(context, &fields, KEY, thread, ids.as_slice(), has_scope);
    format.format_event(alloc, &shown, &mut out, PLAIN, event)?;
    Ok(out)
}

// The line of an event in the lane's span, with these values.
fn line_of<F: FormatEvent>(
    alloc: Global,
    registry: &mut Registry,
    format: &mut F,
    fields: Fields,
    values: &[Option<AnyValue<'_>>],
) -> Result<String, Fail> {
    let metadata = event_metadata(None, None);
    let event = Event::new(&metadata, metadata.fields().value_set_all(values));
    let context = Context::new(registry, AT, None);
    line_in(alloc, &context, format, fields, MAIN, &event)
}

// The line of the event `m` in the lane's span.
fn line_of_m<F: FormatEvent>(
    alloc: Global,
    registry: &mut Registry,
    format: &mut F,
) -> Result<String, Fail> {
    line_of(alloc, registry, format, Fields::Default, &only_m())
}

// The line of the event `m` outside of all spans, on a thread.
fn line_outside<F: FormatEvent>(
    alloc: Global,
    format: &mut F,
    metadata: &Metadata<'_>,
    thread: CurrentThread<'_>,
) -> Result<String, Fail> {
    let mut registry = Registry::new(alloc);
    let values = only_m();
    let event = Event::new(metadata, metadata.fields().value_set_all(&values));
    let context = Context::new(&mut registry, AT, None);
    line_in(alloc, &context, format, Fields::Default, thread, &event)
}
