use super::*;

const UNNAMED: CurrentThread<'static> = CurrentThread {
    name: None,
    id: 1,
    longest: 6,
};

// The line of an event outside of all spans, in a format, on a thread.
fn line_on<F: FormatEvent>(
    alloc: Global,
    format: &mut F,
    thread: CurrentThread<'_>,
) -> Result<String, Fail> {
    line_outside(alloc, format, &event_metadata(None, None), thread)
}

#[test]
fn padded_in_one_line(rt: HostRuntime) -> Result<(), Fail> {
    let mut full = Format::new(rt.alloc())
        .without_time()
        .with_level(false)
        .with_thread_names(true)
        .with_thread_ids(true);
    let line = line_on(rt.alloc(), &mut full, MAIN)?;
    assert_eq!(rt; line.as_str(), "  main ThreadId(01) app: m\n");
    let line = line_on(rt.alloc(), &mut full, UNNAMED)?;
    assert_eq!(rt; line.as_str(), "ThreadId(01) app: m\n");
    let mut compact = full.with_thread_ids(false).compact();
    let line = line_on(rt.alloc(), &mut compact, MAIN)?;
    assert_eq!(rt; line.as_str(), "  main app: m\n");
    let line = line_on(rt.alloc(), &mut compact, UNNAMED)?;
    assert_eq!(rt; line.as_str(), "ThreadId(01) app: m\n");
    Ok(())
}

#[test]
fn below_a_pretty_line(rt: HostRuntime) -> Result<(), Fail> {
    let mut pretty = Format::new(rt.alloc())
        .without_time()
        .with_level(false)
        .with_thread_names(true)
        .pretty();
    let line = line_on(rt.alloc(), &mut pretty, MAIN)?;
    assert_eq!(rt; line.as_str(), "  app: m\n    on main\n\n");
    let line = line_on(rt.alloc(), &mut pretty, UNNAMED)?;
    assert_eq!(rt; line.as_str(), "  app: m\n    on \n\n");
    let mut numbered = pretty.with_thread_ids(true);
    let line = line_on(rt.alloc(), &mut numbered, MAIN)?;
    assert_eq!(rt; line.as_str(), "  app: m\n    on main ThreadId(1)\n\n");
    Ok(())
}
