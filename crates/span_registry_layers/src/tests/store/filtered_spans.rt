// What filters see of spans.
use super::*;
use crate::{FilterId, ScopeFromRoot};

/// Makes a span on lane 0 under the current one, which the filter passes or not.
fn make_passed(
    registry: &mut Registry,
    name: &str,
    filter: FilterId,
    passes: bool,
) -> Result<Id, Fail> {
    make(registry, name, FilterMap::all().with(filter, passes))
}

#[test]
fn a_refused_span_is_not_current(rt: HostRuntime) -> Result<(), Fail> {
    let mut registry = Registry::new(rt.alloc());
    let filter = registry.register_filter().ok().ok_or("a filter")?;
    let outer = make_passed(&mut registry, "outer", filter, true)?;
    assert!(rt; registry.enter(&outer, 0).is_ok());
    let inner = make_passed(&mut registry, "inner", filter, false)?;
    assert!(rt; registry.enter(&inner, 0).is_ok());
    let plain = registry.current_under(0, None).ok_or("a span")?;
    assert!(rt; plain.id() == inner);
    let seen = registry.current_under(0, Some(filter)).ok_or("a span")?;
    assert!(rt; seen.id() == outer && seen.name() == "outer");
    assert!(rt; registry.current_under(1, Some(filter)).is_none());
    Ok(())
}

/// A filter, and a root, its child, which the filter refuses, and its grandchild, each made in the one before.
fn refused_child(registry: &mut Registry) -> Result<(FilterId, [Id; 3]), Fail> {
    let filter = registry.register_filter().ok().ok_or("a filter")?;
    let root = make_passed(registry, "root", filter, true)?;
    registry.enter(&root, 0).ok().ok_or("an entry")?;
    let child = make_passed(registry, "child", filter, false)?;
    registry.enter(&child, 0).ok().ok_or("an entry")?;
    let leaf = make_passed(registry, "leaf", filter, true)?;
    Ok((filter, [root, child, leaf]))
}

/// The name of the next span, and none at the end.
fn next_name<'a>(spans: &mut ScopeFromRoot<'a>) -> &'a str {
    match spans.next() {
        None => "",
        Some(span) => span.name(),
    }
}

#[test]
fn scopes_go_to_the_root_and_back(rt: HostRuntime) -> Result<(), Fail> {
    let mut registry = Registry::new(rt.alloc());
    let (_filter, [root, child, leaf]) = refused_child(&mut registry)?;
    assert!(rt; registry.enter(&leaf, 0).is_ok());
    let first = registry.span(&root).ok_or("a span")?;
    let mut spans = first.scope().from_root(rt.alloc())?;
    assert!(rt; next_name(&mut spans) == "root" && next_name(&mut spans) == "");
    let second = registry.span(&child).ok_or("a span")?;
    let mut spans = second.scope().from_root(rt.alloc())?;
    assert!(rt; next_name(&mut spans) == "root" && next_name(&mut spans) == "child");
    assert!(rt; next_name(&mut spans) == "");
    let third = registry.span(&leaf).ok_or("a span")?;
    let mut spans = third.scope().from_root(rt.alloc())?;
    assert!(rt; next_name(&mut spans) == "root" && next_name(&mut spans) == "child");
    assert!(rt; next_name(&mut spans) == "leaf" && next_name(&mut spans) == "");
    Ok(())
}

#[test]
fn refused_spans_are_left_out_of_scopes(rt: HostRuntime) -> Result<(), Fail> {
    let mut registry = Registry::new(rt.alloc());
    let (filter, [_root, _child, leaf]) = refused_child(&mut registry)?;
    let span = registry.span_under(&leaf, Some(filter)).ok_or("a span")?;
    let parent = span.parent().ok_or("a parent")?;
    assert!(rt; parent.name() == "root" && parent.parent().is_none());
    assert!(rt; span.fields().len() == 1);
    Ok(())
}
