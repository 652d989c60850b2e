use super::*;
use event_formatter_text::DefaultFields;
use std::test::Fail;

fn outer() -> [ShownSpan<'static>; 1] {
    [row("outer", "x=42")]
}

fn bare_span() -> [ShownSpan<'static>; 1] {
    [row("s", "")]
}

// The line of the values.
fn line_of(
    alloc: Global,
    settings: Settings,
    head: &Head<'_>,
    rows: &[ShownSpan<'static>],
    values: &[Option<AnyValue<'_>>],
) -> Result<String, FormatError> {
    let mut out = String::new(alloc);
    let spans = Rows { rows };
    push_full_line(
        alloc,
        &mut out,
        settings,
        head,
        &spans,
        &DefaultFields::new(),
        &fields_of(values),
    )?;
    Ok(out)
}

#[test]
fn plain(rt: HostRuntime) -> Result<(), Fail> {
    let head = timed(None);
    let values = hi_and_three();
    let line = line_of(rt.alloc(), PLAIN, &head, &outer(), &values)?;
    assert_eq!(rt; line.as_str(), "fake time outer{x=42}: app: hi n=3\n");
    Ok(())
}

#[test]
fn styled(rt: HostRuntime) -> Result<(), Fail> {
    let head = timed(Some(Level::INFO));
    let values = [Some(AnyValue::Str("m"))];
    let line = line_of(rt.alloc(), STYLED, &head, &bare_span(), &values)?;
    assert_eq!(rt;
        line.as_str(),
        "\u{1b}[2mfake time\u{1b}[0m \u{1b}[32m INFO\u{1b}[0m \u{1b}[1ms\u{1b}[0m\u{1b}[2m:\u{1b}[0m \u{1b}[2mapp\u{1b}[0m\u{1b}[2m:\u{1b}[0m m\n"
    );
    Ok(())
}
