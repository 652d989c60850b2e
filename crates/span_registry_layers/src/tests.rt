// Each call of the crate, and what filters, layers and stacks answer and tell, through the paths that a user has.
ghost use Rattle.std.specs.Prelude.{◌≡◌, nat_le};
ghost use Rattle.tracing_core.specs.Metadata.{plain_metadata};

mod filter_answers;
mod filters;
mod layers;
mod recording;
mod scopes;
mod slots;
mod stack;
mod store;
mod trees;

use crate::{Context, Filter, FilterMap, Registry};
use std::alloc::Global;
use std::test::Fail;
use tracing_core::{
    At, Attributes, Event, FieldSet, Id, Identifier, Interest, Kind, Level, Metadata, RequestError,
    Subscriber, ValueSet,
};

const NAMES: [&str; 1] = ["n"];

const PLACE: At = At {
    lane: 0,
    seconds: 0,
    nanoseconds: 0,
};

/// The metadata of a callsite with one field.
fn metadata_at<'a>(
    identifier: u64,
    name: &'a str,
    target: &'a str,
    level: Level,
    kind: Kind,
) -> Metadata<'a> {
    let fields = FieldSet::new(&NAMES, Identifier(identifier));
    Metadata::new(name, target, level, None, None, None, fields, kind)
}

/// The metadata of events at one callsite.
fn event_metadata<'a>(target: &'a str, level: Level) -> Metadata<'a> {
    metadata_at(7, "e", target, level, Kind::EVENT)
}

/// The metadata of spans at one callsite.
fn span_metadata<'a>(name: &'a str, level: Level) -> Metadata<'a> {
    metadata_at(8, name, "app", level, Kind::SPAN)
}

/// No values of the fields of a callsite.
fn no_values<'a>(metadata: &Metadata<'a>) -> ValueSet<'a> {
    metadata.fields().value_set_all(&[])
}

/// Makes an INFO span on lane 0, under the current one.
fn make(registry: &mut Registry, name: &str, passed: FilterMap) -> Result<Id, Fail> {
    let metadata = span_metadata(name, Level::INFO);
    let made = registry.new_span(&Attributes::new(&metadata, no_values(&metadata)), 0, passed);
    Ok(made.ok().ok_or("a span")?)
}

/// Makes a span at a subscriber, under the current one.
fn make_in<S: Subscriber>(subscriber: &mut S, level: Level) -> Result<Option<Id>, RequestError> {
    let metadata = span_metadata("s", level);
    subscriber.new_span(&Attributes::new(&metadata, no_values(&metadata)), PLACE)
}

/// Hands an event over to a subscriber.
fn tell_in<S: Subscriber>(subscriber: &mut S, level: Level) -> Result<(), RequestError> {
    let metadata = event_metadata("app", level);
    subscriber.event(&Event::new(&metadata, no_values(&metadata)), PLACE)
}

/// A registry with an outer and an inner span, both entered on lane 0.
fn nested(alloc: Global) -> Result<(Registry, Id, Id), Fail> {
    let mut registry = Registry::new(alloc);
    let outer = make(&mut registry, "outer", FilterMap::all())?;
    registry.enter(&outer, 0).ok().ok_or("an entry")?;
    let inner = make(&mut registry, "inner", FilterMap::all())?;
    registry.enter(&inner, 0).ok().ok_or("an entry")?;
    Ok((registry, outer, inner))
}

/// Passes warnings and errors.
fn is_quiet(metadata: &Metadata<'_>) -> bool
    ensures { result ≡ nat_le (plain_metadata metadata.now).level 2 }
{
    *metadata.level() <= Level::WARN
}

/// The same, whatever the context shows.
fn is_quiet_anywhere(metadata: &Metadata<'_>, _context: &Context<'_>) -> bool
    ensures { result ≡ nat_le (plain_metadata metadata.now).level 2 }
{
    is_quiet(metadata)
}

/// Whether a filter passes what has this metadata, and its interest in it.
fn asked_of<F: Filter>(
    filter: &F,
    registry: &mut Registry,
    metadata: &Metadata<'_>,
) -> (bool, Interest) {
    let context = Context::new(registry, PLACE, None);
    (
        filter.enabled(metadata, &context),
        filter.callsite_enabled(metadata),
    )
}
