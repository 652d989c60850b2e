use super::*;

// A registry whose lane is in a span without fields.
fn in_s(alloc: Global) -> Result<Registry, Fail> {
    in_span(alloc, "s", Fields::Default, &[], &[])
}

// Enters a span without fields in the lane's one.
fn enter_bare(
    alloc: Global,
    registry: &mut Registry,
    passed: FilterMap,
    name: &str,
) -> Result<Id, Fail> {
    enter_span(alloc, registry, passed, name, Fields::Default, &[], &[])
}

#[test]
fn root_event_in_an_entered_span(rt: HostRuntime) -> Result<(), Fail> {
    let alloc = rt.alloc();
    let mut registry = in_s(alloc)?;
    let metadata = event_metadata(None, None);
    let values = only_m();
    let event = Event::new_child_of(None, &metadata, metadata.fields().value_set_all(&values));
    let context = Context::new(&mut registry, AT, None);
    let mut full = timed(alloc)?.with_level(false);
    let line = line_in(alloc, &context, &mut full, Fields::Default, MAIN, &event)?;
    assert_eq!(rt; line.as_str(), "fake time app: m\n");
    let mut compact = full.compact();
    let line = line_in(alloc, &context, &mut compact, Fields::Default, MAIN, &event)?;
    assert_eq!(rt; line.as_str(), "fake time s: app: m\n");
    Ok(())
}

#[test]
fn parent_that_the_filter_refused(rt: HostRuntime) -> Result<(), Fail> {
    let alloc = rt.alloc();
    let mut registry = in_s(alloc)?;
    let filter = registry.register_filter().ok().ok_or("a filter")?;
    let passed = FilterMap::all().with(filter, false);
    let refused = enter_bare(alloc, &mut registry, passed, "refused")?;
    let metadata = event_metadata(None, None);
    let values = only_m();
    let set = metadata.fields().value_set_all(&values);
    let event = Event::new_child_of(Some(refused), &metadata, set);
    let mut compact = Format::new(alloc)
        .without_time()
        .with_level(false)
        .compact();
    let context = Context::new(&mut registry, AT, Some(filter));
    let line = line_in(alloc, &context, &mut compact, Fields::Default, MAIN, &event)?;
    assert_eq!(rt; line.as_str(), "s: app: m\n");
    let mut ids = Vec::new(alloc);
    assert!(rt; !fill_scope(&context, &event, &mut ids)? && ids.len() == 1);
    let context = Context::new(&mut registry, AT, None);
    let line = line_in(alloc, &context, &mut compact, Fields::Default, MAIN, &event)?;
    assert_eq!(rt; line.as_str(), "s:refused: app: m\n");
    Ok(())
}

#[test]
fn line_with_styles(rt: HostRuntime) -> Result<(), Fail> {
    let mut registry = in_s(rt.alloc())?;
    let mut format = timed(rt.alloc())?.with_ansi(true);
    let line = line_of_m(rt.alloc(), &mut registry, &mut format)?;
    assert_eq!(rt;
        line.as_str(),
        "\u{1b}[2mfake time\u{1b}[0m \u{1b}[32m INFO\u{1b}[0m \u{1b}[1ms\u{1b}[0m\u{1b}[2m:\u{1b}[0m \
         \u{1b}[2mapp\u{1b}[0m\u{1b}[2m:\u{1b}[0m m\n"
    );
    Ok(())
}

#[test]
fn spans_of_an_event(rt: HostRuntime) -> Result<(), Fail> {
    let alloc = rt.alloc();
    let mut registry = in_s(alloc)?;
    let leaf = enter_bare(alloc, &mut registry, FilterMap::all(), "leaf")?;
    let metadata = event_metadata(None, None);
    let event = Event::new(&metadata, metadata.fields().value_set_all(&[]));
    let context = Context::new(&mut registry, AT, None);
    let mut ids = Vec::new(alloc);
    let has_scope = fill_scope(&context, &event, &mut ids)?;
    let fields = Fields::Default;
    let shown = FmtContext::new(&context, &fields, KEY, MAIN, ids.as_slice(), has_scope);
    assert!(rt; shown.parent_span().ok_or("a span")?.id() == leaf);
    let mut names = String::new(alloc);
    for span in shown.event_scope().ok_or("spans")? {
        names.push_str(span.name())?;
        names.push_str(" ")?;
    }
    shown.visit_spans(|span| names.push_str(span.name()))?;
    assert_eq!(rt; names.as_str(), "leaf s sleaf");
    Ok(())
}

#[test]
fn visit_ends_at_a_refusal(rt: HostRuntime) -> Result<(), Fail> {
    let mut registry = in_s(rt.alloc())?;
    let current = registry.current_span(0).ok_or("a span")?;
    let context = Context::new(&mut registry, AT, None);
    let ids = [current, current];
    let fields = Fields::Default;
    let shown = FmtContext::new(&context, &fields, KEY, MAIN, &ids, true);
    let mut visits = 0;
    let answer = shown.visit_spans(|span| {
        visits += 1;
        Err(span.id())
    });
    assert!(rt; answer == Err(current) && visits == 1);
    let outside = FmtContext::new(&context, &fields, KEY, MAIN, &ids, false);
    assert!(rt; outside.parent_span().is_none() && outside.event_scope().is_none());
    assert!(rt; outside.visit_spans(|span| Err(span.id())).is_ok());
    Ok(())
}
