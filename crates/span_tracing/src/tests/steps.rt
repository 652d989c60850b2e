//! Each call once, and each refusal of a step. A span has fewer handles than can be counted and a registry gives
//! fewer ids than there are, so that too many handles are met by no test, and spent ids by the subscriber's answer.

ghost use Rattle.std.specs.Prelude.{◌≡◌, IfOk};
ghost use Rattle.span_tracing_steps.specs.TraceInvariant.{IsSound};

mod keeper;
mod refusing;
mod setups;
mod stepping;
mod tables;

use crate::tests::common::{MONDAY, TOO_EARLY};
use keeper::{Keeper, Told};
use span_tracing_skeleton::{EnabledCall, FollowsCall, Parent, Refusal, Reply, SpanCall, SpanName};
use span_tracing_steps::{RecordRequest, Request, TraceParts};
use std::alloc::Global;
use std::num::NonZeroU64;
use std::test::Fail;
use tracing_core_fields::{
    FieldSet, FieldValue, Id, Identifier, IndexedValues, Kind, Level, Metadata, OwnedValue,
    RequestError, Subscriber,
};

/// Spans with two fields.
const OUTER: u64 = 1;

/// Events with two fields.
const EVENT: u64 = 3;

/// Neither spans nor events.
const HINT: u64 = 5;

const NAMES: [&str; 2] = ["n", "m"];

/// Two fields of no callsite yet.
fn two_fields<'a>() -> FieldSet<'a> {
    FieldSet::new(&NAMES, Identifier(0))
}

/// Metadata with these fields.
fn metadata_of<'a>(name: &'a str, kind: Kind, fields: FieldSet<'a>) -> Metadata<'a> {
    Metadata::new(name, "app", Level::INFO, None, None, None, fields, kind)
}

/// A value of the field at the place.
fn digit(field: usize, number: u64) -> FieldValue {
    FieldValue {
        field,
        value: OwnedValue::U64(number),
    }
}

fn span_name(stack: usize, id: u64) -> Result<SpanName, Fail> {
    let id = NonZeroU64::new(id).ok_or("an id")?;
    Ok(SpanName { stack, id })
}

fn register(parts: &mut TraceParts<Keeper>, number: u64, kind: Kind) -> Result<(), Fail>
    requires { IsSound parts.old }
    ensures { IsSound parts.new }
{
    let metadata = metadata_of("made", kind, two_fields());
    let _interest = parts
        .register(Identifier(number), &metadata)
        .ok()
        .ok_or("a callsite")?;
    Ok(())
}

/// Two lanes, three callsites, and a stack that no lane reaches.
fn parts_of(alloc: Global, failure: Option<RequestError>) -> Result<TraceParts<Keeper>, Fail>
    ensures { IfOk result (λ p. IsSound p) }
{
    let mut parts = TraceParts::new(alloc);
    parts
        .add_stack(Keeper::new(alloc, failure))
        .ok()
        .ok_or("a stack")?;
    let _first = parts.thread(None, 7)?;
    let _second = parts.thread(Some(format!(in alloc; "second")?), 8)?;
    register(&mut parts, OUTER, Kind::SPAN)?;
    register(&mut parts, EVENT, Kind::EVENT)?;
    register(&mut parts, HINT, Kind::HINT)?;
    Ok(parts)
}

/// The same, and each lane reaches the stack.
fn set_parts(alloc: Global, failure: Option<RequestError>) -> Result<TraceParts<Keeper>, Fail>
    ensures { IfOk result (λ p. IsSound p) }
{
    let mut parts = parts_of(alloc, failure)?;
    if parts.set_global_default(0) == Reply::Done {
        Ok(parts)
    } else {
        Err("the default".into())
    }
}

/// How many requests the stack was handed, what it was told last, and for which lane.
fn heard(parts: &TraceParts<Keeper>) -> Result<(u64, Told, u64), Fail> {
    let keeper = parts.stack(0).ok_or("a stack")?;
    Ok((keeper.calls, keeper.told, keeper.lane))
}

fn request<'a>(callsite: u64, parent: Parent, values: &'a [FieldValue]) -> Request<'a> {
    Request {
        lane: 1,
        moment: MONDAY,
        callsite,
        parent,
        values: IndexedValues::Owned(values),
    }
}

/// The span's id.
fn id_of(name: SpanName) -> Id {
    Id::from_non_zero_u64(name.id)
}

fn call_on(span: Option<SpanName>) -> SpanCall {
    SpanCall {
        lane: 1,
        moment: MONDAY,
        span,
    }
}

/// A span of the second lane.
fn made(parts: &mut TraceParts<Keeper>) -> Result<SpanName, Fail>
    requires { IsSound parts.old }
    ensures { IsSound parts.new }
{
    match parts.new_span(&request(OUTER, Parent::Root, &[])) {
        Reply::Span(Some(name)) => Ok(name),
        _ => Err("a span".into()),
    }
}
