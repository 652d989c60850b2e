//! What a layer writes of what it is told, through a registry.

mod builders;
mod faults;
mod parts;
mod setters;
mod span_events;
mod spans;
mod threads;

use crate::fmt_layer::*;
use crate::formats::{Format, FormatEvent, Full};
use crate::tests::common::{Lines, event_metadata, span_metadata};
use event_formatter_lines::{FixedText, FmtSpan};
use event_formatter_text::{DefaultFields, FormatFields};
use span_registry_layers_layers::{LayerExt, Layered, SubscriberExt};
use span_registry_layers_store::{OutputKey, Registry};
use std::alloc::{AllocError, Global};
use std::io::ErrorKind;
use std::test::Fail;
use tracing_core_fields::{
    AnyValue, Attributes, DebugText, Event, FieldSet, Id, Identifier, Record, Subscriber,
};
use tracing_core_moments::At;

const NAMES: [&str; 3] = ["message", "n", "x"];

const FAILS: [Option<AnyValue<'static>>; 2] = [
    Some(AnyValue::Debug(DebugText::Failing)),
    Some(AnyValue::U64(1)),
];

type Plain = Layer<DefaultFields, Format<Full, FixedText>, Lines>;

type Tree = Layered<Plain, Registry>;

// A moment, so many nanoseconds after the epoch.
fn moment(nanoseconds: u32) -> At {
    At {
        lane: 0,
        seconds: 0,
        nanoseconds,
    }
}

// A layer that shows the time `fake time`, and no level.
fn plain(alloc: Global, key: u32) -> Result<Plain, AllocError> {
    let time = FixedText::new(String::from_str(alloc, "fake time")?);
    Ok(
        Layer::new(alloc, OutputKey(key), Lines::new(alloc))
            .with_timer(time)
            .with_level(false),
    )
}

// The layer over a registry.
fn over_registry(alloc: Global, layer: Plain) -> Result<Tree, Fail> {
    let tree = layer.with_subscriber(Registry::new(alloc));
    Ok(tree.ok().ok_or("room")?)
}

// Makes a root span.
fn make<S: Subscriber>(
    tree: &mut S,
    name: &str,
    values: &[Option<AnyValue<'_>>],
    at: At,
) -> Result<Id, Fail> {
    let fields = FieldSet::new(&NAMES, Identifier(1));
    let metadata = span_metadata(name, fields);
    let attributes = Attributes::new_root(&metadata, fields.value_set_all(values));
    Ok(tree.new_span(&attributes, at)?.ok_or("a span")?)
}

// A span with x = 42, entered.
fn enter_span<S: Subscriber>(tree: &mut S, name: &str) -> Result<Id, Fail> {
    let span = make(
        tree,
        name,
        &[None, None, Some(AnyValue::U64(42))],
        moment(0),
    )?;
    tree.enter(&span, moment(0))?;
    Ok(span)
}

// Hands over an event under the current span.
fn tell<S: Subscriber>(tree: &mut S, values: &[Option<AnyValue<'_>>], at: At) -> Result<(), Fail> {
    let fields = FieldSet::new(&NAMES, Identifier(2));
    let metadata = event_metadata("ev", None, None, fields);
    let event = Event::new(&metadata, fields.value_set_all(values));
    Ok(tree.event(&event, at)?)
}

// An event with the message `hi` and n = 3.
fn tell_hi<S: Subscriber>(tree: &mut S) -> Result<(), Fail> {
    tell(
        tree,
        &[Some(AnyValue::Str("hi")), Some(AnyValue::U64(3))],
        moment(0),
    )
}

// Whether the maker was handed just these lines.
fn has_lines<N: Drop, E: Drop>(layer: &Layer<N, E, Lines>, lines: &[&str]) -> bool {
    layer.writer().are(lines)
}

// Whether the layer writes just this of an event that has a place in the source and stands in a span with x = 42.
fn writes<N: FormatFields + Drop, E: FormatEvent>(
    alloc: Global,
    layer: Layer<N, E, Lines>,
    text: &str,
) -> Result<bool, Fail> {
    let tree = layer.with_subscriber(Registry::new(alloc));
    let mut tree = tree.ok().ok_or("room")?;
    enter_span(&mut tree, "s")?;
    let fields = FieldSet::new(&NAMES, Identifier(2));
    let metadata = event_metadata("ev", Some("src/a.rs"), Some(7), fields);
    let values = [Some(AnyValue::Str("hi")), Some(AnyValue::U64(3))];
    let event = Event::new(&metadata, fields.value_set_all(&values));
    tree.event(&event, moment(0))?;
    Ok(has_lines(tree.layer(), &[text]))
}
