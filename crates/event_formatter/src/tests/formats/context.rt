// What a format may ask of its context.
use super::*;
use event_formatter_lines::ShownSpans;
use tracing_core_fields::CurrentSpan;

// A lane in a span `outer` with x = 42, in which it is in a span that the filter refused.
fn in_refused(alloc: Global, registry: &mut Registry) -> Result<(FilterId, Id, Id), Fail> {
    let filter = registry.register_filter().ok().ok_or("a filter")?;
    let refused = FilterMap::all().with(filter, false);
    let names = ["x"];
    let values = [Some(AnyValue::U64(42))];
    let passes = FilterMap::all();
    let fields = Fields::Default;
    let outer = enter_span(alloc, registry, passes, "outer", fields, &names, &values)?;
    let inner = enter_span(alloc, registry, refused, "inner", fields, &[], &[])?;
    Ok((filter, outer, inner))
}

fn is_inside(current: CurrentSpan, span: Id) -> bool {
    matches!(current, CurrentSpan::Inside(id) if id == span)
}

#[test]
fn surface_context(rt: HostRuntime) -> Result<(), Fail> {
    let alloc = rt.alloc();
    let mut registry = Registry::new(alloc);
    let (_, outer, inner) = in_refused(alloc, &mut registry)?;
    let context = Context::new(&mut registry, AT, None);
    let fields = Fields::Default;
    let ids = [outer, inner];
    let shown = FmtContext::new(&context, &fields, KEY, MAIN, &ids, true);
    assert!(rt; shown.exists(&outer) && shown.exists(&inner));
    assert_eq!(rt; shown.span(&outer).ok_or("a span")?.name(), "outer");
    assert_eq!(rt; shown.metadata(&inner).ok_or("metadata")?.name(), "inner");
    assert!(rt; shown.lookup_current().ok_or("a span")?.id() == inner);
    assert!(rt; is_inside(shown.current_span(), inner));
    assert!(rt; shown.parent_span().ok_or("a span")?.id() == inner);
    let mut names = String::new(alloc);
    for span in shown.span_scope(&inner).ok_or("spans")? {
        names.push_str(span.name())?;
    }
    for span in shown.event_scope().ok_or("spans")? {
        names.push_str(span.name())?;
    }
    shown.visit_spans(|span| names.push_str(span.name()))?;
    assert_eq!(rt; names.as_str(), "innerouterinnerouterouterinner");
    assert!(rt; shown.at() == AT && shown.thread().id == 1);
    assert!(rt; shown.strict_spans().count() == 2 && shown.loose_spans().count() == 2);
    Ok(())
}

#[test]
fn a_context_shows_no_span_that_the_filter_refused(rt: HostRuntime) -> Result<(), Fail> {
    let alloc = rt.alloc();
    let mut registry = Registry::new(alloc);
    let (filter, outer, inner) = in_refused(alloc, &mut registry)?;
    let context = Context::new(&mut registry, AT, Some(filter));
    let fields = Fields::Default;
    let shown = FmtContext::new(&context, &fields, KEY, MAIN, &[], false);
    assert!(rt; shown.exists(&outer) && !shown.exists(&inner));
    assert!(rt; shown.span(&inner).is_none() && shown.metadata(&inner).is_none());
    assert!(rt; shown.span_scope(&inner).is_none());
    assert!(rt; shown.lookup_current().ok_or("a span")?.id() == outer);
    assert!(rt; is_inside(shown.current_span(), outer));
    Ok(())
}

#[test]
fn surface_fields_of_a_context(rt: HostRuntime) -> Result<(), Fail> {
    let alloc = rt.alloc();
    let mut registry = Registry::new(alloc);
    let context = Context::new(&mut registry, AT, None);
    let fields = Fields::Pretty;
    let shown = FmtContext::new(&context, &fields, KEY, MAIN, &[], false);
    let metadata = event_metadata(None, None);
    let values = hi_and_three();
    let event = Event::new(&metadata, metadata.fields().value_set_all(&values));
    let mut out = String::new(alloc);
    shown.format_fields(alloc, &mut out, PLAIN, &event)?;
    assert_eq!(rt; out.as_str(), "hi, n: 3");
    assert!(rt; *shown.field_format() == Fields::Pretty);
    Ok(())
}
