// Each call of a registry of spans.
mod filtered_spans;
mod lookups;

use super::*;
use crate::{
    Extensions, OutputKey, Slot, Tag, closes_child_first, line_is_whole, open_is_least,
    registry_stays_sound, slots_keep_to_their_key, slots_stand_aside,
};
use tracing_core::{OwnedMetadata, RequestError};

fn number_of(slot: Option<&Slot>) -> u64 {
    match slot {
        Some(Slot::Number(number)) => *number,
        _ => 0,
    }
}

#[test]
fn surface_registry(rt: HostRuntime) -> Result<(), Fail> {
    let (mut registry, outer, inner) = nested(rt.alloc())?;
    let filter = registry.register_filter().ok().ok_or("a filter")?;
    assert!(rt; filter.index() == 0 && registry.current_span(0) == Some(inner));
    assert!(rt; registry.record(&outer).is_ok());
    assert!(rt; registry.record_follows_from(&outer, &inner).is_ok());
    assert!(rt; registry.clone_span(&inner) == Ok(inner));
    assert!(rt; registry.try_close(inner) == Ok(false) && registry.is_open(&inner));
    assert!(rt; registry.lane(0).len() == 2);
    registry.exit(&inner, 0);
    assert!(rt; registry.current_span(0) == Some(outer));
    let table = registry.table()?;
    assert!(rt; table.spans.len() == 2 && table.lanes.len() == 1);
    registry.leave(&outer, 0);
    assert!(rt; registry.give_up(&inner).is_ok() && registry.closing() == Some(inner));
    assert!(rt; registry.forget() == Some(inner) && registry.closing().is_none());
    assert!(rt; registry.try_close(outer) == Ok(true));
    let mut registry = Registry::default(rt.alloc());
    assert!(rt; registry.clone_span(&outer) == Err(RequestError::UnknownSpan));
    Ok(())
}

#[test]
fn surface_spans(rt: HostRuntime) -> Result<(), Fail> {
    let mut registry = Registry::new(rt.alloc());
    let filter = registry.register_filter().ok().ok_or("a filter")?;
    let outer = make(&mut registry, "outer", FilterMap::all())?;
    registry.enter(&outer, 0).ok().ok_or("an entry")?;
    let refused = FilterMap::all().with(filter, false);
    assert!(rt; !refused.passes(filter));
    let inner = make(&mut registry, "inner", refused)?;
    registry.enter(&inner, 0).ok().ok_or("an entry")?;
    assert!(rt; registry.span_under(&inner, Some(filter)).is_none());
    let seen = registry.current_under(0, Some(filter)).ok_or("a span")?;
    assert!(rt; seen.id() == outer && seen.is_enabled_for(filter));
    let span = registry.span(&inner).ok_or("a span")?;
    assert!(rt; span.name() == "inner" && span.fields().len() == 1);
    let parent = span.parent().ok_or("a parent")?;
    assert!(rt; parent.id() == outer);
    let mut scope = span.scope();
    let first = scope.next().ok_or("a span")?;
    assert!(rt; first.id() == inner);
    let above = span.ancestors().next().ok_or("a span")?;
    assert!(rt; above.id() == outer);
    let mut back = span.scope().from_root(rt.alloc())?;
    let root = back.next().ok_or("a span")?;
    assert!(rt; root.id() == outer);
    Ok(())
}

/// The name of a span, by its metadata.
fn is_named(registry: &Registry, span: &Id, name: &str) -> bool {
    match registry.span(span) {
        None => false,
        Some(span) => span.fields().len() == 1 && span.metadata().name() == name,
    }
}

#[test]
fn surface_metadata(rt: HostRuntime) -> Result<(), Fail> {
    let (registry, outer, _inner) = nested(rt.alloc())?;
    assert!(rt; is_named(&registry, &outer, "outer"));
    let metadata = span_metadata("copied", Level::INFO);
    let copy = OwnedMetadata::new(rt.alloc(), &metadata)?;
    assert!(rt; copy.name() == "copied" && copy.fields().len() == 1);
    assert!(rt; copy.is_same(&metadata) && copy.metadata().name() == "copied");
    Ok(())
}

#[test]
fn surface_slots(rt: HostRuntime) -> Result<(), Fail> {
    let (mut registry, outer, inner) = nested(rt.alloc())?;
    let key = OutputKey(1);
    assert!(rt;
        registry
            .insert_slot(&outer, key, Tag::Number, Slot::Number(1))
            .is_ok()
    );
    assert!(rt;
        registry
            .replace_slot(&outer, key, Tag::Number, Slot::Number(2))
            .is_ok()
    );
    let span = registry.span(&outer).ok_or("a span")?;
    assert!(rt; number_of(span.slot(key, Tag::Number)) == 2);
    let kept: &Extensions = span.extensions();
    assert!(rt; number_of(kept.get(key, Tag::Number)) == 2);
    let taken = registry.remove_slot(&outer, key, Tag::Number);
    assert!(rt; number_of(taken.as_ref()) == 2);
    let extensions = registry.extensions_mut(&inner).ok_or("extensions")?;
    assert!(rt; extensions.insert(key, Tag::Number, Slot::Number(3)).is_ok());
    if let Some(Slot::Number(number)) = extensions.get_mut(key, Tag::Number) {
        *number = 4;
    }
    let before = extensions
        .replace(key, Tag::Number, Slot::Number(5))
        .ok()
        .ok_or("replaced")?;
    assert!(rt; number_of(before.as_ref()) == 4);
    let taken = extensions.remove(key, Tag::Number);
    assert!(rt; number_of(taken.as_ref()) == 5);
    Ok(())
}

#[test]
fn surface_laws(_rt: HostRuntime) {
    closes_child_first();
    line_is_whole();
    open_is_least();
    registry_stays_sound();
    slots_stand_aside();
    slots_keep_to_their_key();
}
