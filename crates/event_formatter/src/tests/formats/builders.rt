use super::*;
use event_formatter_lines::{FormatTime, SystemTime, Uptime};

// The line of an event with a place in the source, outside of all spans.
fn placed_line<F: FormatEvent>(alloc: Global, format: &mut F) -> Result<String, Fail> {
    let metadata = event_metadata(Some("src/a.rs"), Some(7));
    line_outside(alloc, format, &metadata, MAIN)
}

#[test]
fn place_in_the_source(rt: HostRuntime) -> Result<(), Fail> {
    let mut format = Format::new(rt.alloc())
        .without_time()
        .with_source_location(true);
    let line = placed_line(rt.alloc(), &mut format)?;
    assert_eq!(rt; line.as_str(), " INFO app: src/a.rs:7: m\n");
    let mut format = format.with_file(false).with_target(false);
    let line = placed_line(rt.alloc(), &mut format)?;
    assert_eq!(rt; line.as_str(), " INFO 7: m\n");
    let mut format = format.with_file(true).with_line_number(false);
    let line = placed_line(rt.alloc(), &mut format)?;
    assert_eq!(rt; line.as_str(), " INFO src/a.rs: m\n");
    Ok(())
}

#[test]
fn place_below_a_pretty_line(rt: HostRuntime) -> Result<(), Fail> {
    let mut format = Format::new(rt.alloc()).without_time().pretty();
    let line = placed_line(rt.alloc(), &mut format)?;
    assert_eq!(rt; line.as_str(), "   INFO app: m\n    at src/a.rs:7\n\n");
    let mut format = format.with_file(false);
    let line = placed_line(rt.alloc(), &mut format)?;
    assert_eq!(rt; line.as_str(), "   INFO app:7: m\n\n");
    Ok(())
}

#[test]
fn timer_without_a_text(rt: HostRuntime) -> Result<(), Fail> {
    let alloc = rt.alloc();
    let mut registry = Registry::new(alloc);
    let metadata = event_metadata(None, None);
    let values = only_m();
    let event = Event::new(&metadata, metadata.fields().value_set_all(&values));
    let at = At {
        seconds: i64::MAX,
        ..AT
    };
    let context = Context::new(&mut registry, at, None);
    let mut format = Format::new(alloc);
    let line = line_in(alloc, &context, &mut format, Fields::Default, MAIN, &event)?;
    assert_eq!(rt; line.as_str(), "<unknown time>  INFO app: m\n");
    Ok(())
}

#[test]
fn timers_as_one_type(rt: HostRuntime) -> Result<(), Fail> {
    let mut out = String::new(rt.alloc());
    for mut timer in [
        Timer::System(SystemTime::new()),
        Timer::Uptime(Uptime::new(1, 0)),
        Timer::Fixed(fake_time(rt.alloc())?),
        Timer::Empty,
    ] {
        timer.format_time(rt.alloc(), &mut out, 1, 2_000)?;
        out.push_str(";")?;
    }
    assert_eq!(rt;
        out.as_str(),
        "1970-01-01T00:00:01.000002Z;   0.000002000s;fake time;;"
    );
    Ok(())
}
