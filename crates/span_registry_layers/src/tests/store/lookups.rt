// Spans that are looked up through the bound alone.
use super::*;
use crate::{LookupSpan, SpanData};

/// The parent of a span, and whether a filter that is registered now passed the span.
fn looked_up<R: LookupSpan>(registry: &mut R, span: &Id) -> Option<(Option<Id>, bool)> {
    let Ok(filter) = registry.register_filter() else {
        return None;
    };
    let Some(data) = registry.span_data(span) else {
        return None;
    };
    Some((data.parent(), data.is_enabled_for(filter)))
}

fn is_named<D: SpanData>(data: &D, name: &str) -> bool {
    data.metadata().name() == name
}

#[test]
fn a_span_is_looked_up_through_the_bound(rt: HostRuntime) -> Result<(), Fail> {
    let (mut registry, outer, inner) = nested(rt.alloc())?;
    let (parent, passed) = looked_up(&mut registry, &inner).ok_or("a span")?;
    assert!(rt; parent == Some(outer) && passed);
    let data = registry.span_data(&inner).ok_or("a span")?;
    assert!(rt; data.id() == inner && is_named(&data, "inner"));
    assert!(rt; data.extensions().get(OutputKey(1), Tag::Text).is_none());
    let span = LookupSpan::span(&registry, &inner).ok_or("a span")?;
    assert!(rt; span.id() == inner && span.name() == "inner");
    Ok(())
}
