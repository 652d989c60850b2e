//! What is kept with spans, written and read through contexts.

mod fields;
mod memory;
mod timings;

use super::common::{PLAIN, STYLED, span_metadata};
use event_formatter_lines::*;
use event_formatter_text::{DefaultFields, FormatFields, JsonFields};
use span_registry_layers_layers::Context;
use span_registry_layers_store::{FilterId, FilterMap, OutputKey, Registry, Slot, Tag};
use std::alloc::Global;
use std::test::Fail;
use tracing_core_fields::{AnyValue, Attributes, DebugText, FieldSet, Id, Identifier};
use tracing_core_moments::At;

const NAMES: [&str; 3] = ["message", "n", "d"];

const KEY: OutputKey = OutputKey(1);

const OTHER: OutputKey = OutputKey(2);

const ONE: [Option<AnyValue<'static>>; 2] = [None, Some(AnyValue::U64(1))];

const NO: [Option<AnyValue<'static>>; 3] = [None, None, Some(AnyValue::Bool(false))];

const FAILS: [Option<AnyValue<'static>>; 2] = [
    Some(AnyValue::U64(5)),
    Some(AnyValue::Debug(DebugText::Failing)),
];

// A registry with one span, which a filter refused.
fn refused_span(alloc: Global) -> Result<(Registry, Id, FilterId), Fail> {
    let mut registry = Registry::new(alloc);
    let filter = registry.register_filter().ok().ok_or("a filter")?;
    let fields = FieldSet::new(&NAMES, Identifier(1));
    let metadata = span_metadata("s", fields);
    let attributes = Attributes::new(&metadata, metadata.fields().value_set_all(&[]));
    let passed = FilterMap::all().with(filter, false);
    let span = registry
        .new_span(&attributes, 0, passed)
        .ok()
        .ok_or("a span")?;
    Ok((registry, span, filter))
}

// A registry with one span.
fn one_span(alloc: Global) -> Result<(Registry, Id), Fail> {
    let (registry, span, _filter) = refused_span(alloc)?;
    Ok((registry, span))
}

// A place on the first lane.
fn at(seconds: i64, nanoseconds: u32) -> At {
    At {
        lane: 0,
        seconds,
        nanoseconds,
    }
}
