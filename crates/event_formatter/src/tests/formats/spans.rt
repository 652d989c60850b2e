use super::*;
use tracing_core_fields::DebugText;

// A registry whose lane is in a span with a field.
fn in_outer(alloc: Global, fields: Fields) -> Result<Registry, Fail> {
    let values = [Some(AnyValue::I64(42))];
    in_span(alloc, "outer", fields, &["x"], &values)
}

// The line of an event with a message and a number in the lane's span.
fn line_of_both<F: FormatEvent>(
    alloc: Global,
    registry: &mut Registry,
    format: &mut F,
    fields: Fields,
) -> Result<String, Fail> {
    line_of(alloc, registry, format, fields, &hi_and_three())
}

#[test]
fn full_line(rt: HostRuntime) -> Result<(), Fail> {
    let mut registry = in_outer(rt.alloc(), Fields::Default)?;
    let mut format = timed(rt.alloc())?.with_level(false);
    for _ in 0..2 {
        let line = line_of_both(rt.alloc(), &mut registry, &mut format, Fields::Default)?;
        assert_eq!(rt; line.as_str(), "fake time outer{x=42}: app: hi n=3\n");
    }
    Ok(())
}

#[test]
fn compact_line(rt: HostRuntime) -> Result<(), Fail> {
    let mut registry = in_outer(rt.alloc(), Fields::Default)?;
    let mut format = timed(rt.alloc())?.with_level(false).compact();
    let line = line_of_both(rt.alloc(), &mut registry, &mut format, Fields::Default)?;
    assert_eq!(rt; line.as_str(), "fake time outer: app: hi n=3 x=42\n");
    Ok(())
}

#[test]
fn pretty_lines(rt: HostRuntime) -> Result<(), Fail> {
    let mut registry = in_outer(rt.alloc(), Fields::Pretty)?;
    let mut format = timed(rt.alloc())?.with_level(false).pretty();
    let line = line_of_both(rt.alloc(), &mut registry, &mut format, Fields::Pretty)?;
    assert_eq!(rt;
        line.as_str(),
        "  fake time app: hi, n: 3\n    in app::outer with x: 42\n\n"
    );
    Ok(())
}

#[test]
fn a_value_that_fails(rt: HostRuntime) -> Result<(), Fail> {
    let mut registry = in_outer(rt.alloc(), Fields::Default)?;
    let metadata = event_metadata(None, None);
    let values = [None, Some(AnyValue::Debug(DebugText::Failing))];
    let event = Event::new(&metadata, metadata.fields().value_set_all(&values));
    let context = Context::new(&mut registry, AT, None);
    let mut out = String::new(rt.alloc());
    let shown = FmtContext::new(&context, &Fields::Default, KEY, MAIN, &[], false);
    let mut format = Format::new(rt.alloc());
    let wrote = format.format_event(rt.alloc(), &shown, &mut out, PLAIN, &event);
    assert!(rt; wrote == Err(FormatError::Failed));
    Ok(())
}
