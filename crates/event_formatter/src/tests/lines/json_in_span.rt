use super::*;
use std::test::Fail;

fn span() -> ShownSpan<'static> {
    row("request", "{\"id\":7}")
}

// Spans whose names are escaped, empty or long, and spans that keep no members of an object.
fn others() -> [ShownSpan<'static>; 7] {
    [
        row(
            "a name of many bytes with a quote at its end\"",
            "{\"id\":7}",
        ),
        row("a\"b", "{\"id\":7}"),
        row("empty", "{}"),
        row("open", "{"),
        row("bare", ""),
        row("text", "x=\"42\""),
        row("", "{\"id\":7}"),
    ]
}

const LEVELS: [Level; 5] = [
    Level::ERROR,
    Level::WARN,
    Level::INFO,
    Level::DEBUG,
    Level::TRACE,
];

// The line in one span, with a time, a level and a target alone.
fn short_line(
    alloc: Global,
    time: &str,
    level: Level,
    target: &str,
    row: &ShownSpan<'static>,
    values: &[Option<AnyValue<'_>>],
) -> Result<String, FormatError> {
    let mut out = String::new(alloc);
    push_json_line_in_span(&mut out, time, level, target, row, &fields_of(values))?;
    Ok(out)
}

// The same line by the function that writes any.
fn same_line(
    alloc: Global,
    time: &str,
    level: Level,
    target: &str,
    row: ShownSpan<'static>,
    values: &[Option<AnyValue<'_>>],
) -> Result<String, FormatError> {
    let mut out = String::new(alloc);
    let head = Head {
        time: Some(time),
        level: Some(level),
        target: Some(target),
        ..BARE
    };
    let spans = Rows { rows: &[row] };
    push_json_line(
        &mut out,
        JsonShape::default(),
        &head,
        &spans,
        &fields_of(values),
    )?;
    Ok(out)
}

#[test]
fn a_line_in_one_span(rt: HostRuntime) -> Result<(), Fail> {
    let line = short_line(
        rt.alloc(),
        "now",
        Level::INFO,
        "app",
        &span(),
        &hi_and_three(),
    )?;
    assert_eq!(rt;
        line.as_str(),
        "{\"timestamp\":\"now\",\"level\":\"INFO\",\"fields\":{\"message\":\"hi\",\"n\":3},\"target\":\"app\",\
         \"span\":{\"id\":7,\"name\":\"request\"},\"spans\":[{\"id\":7,\"name\":\"request\"}]}\n"
    );
    Ok(())
}

#[test]
fn levels_and_escapes_in_one_span(rt: HostRuntime) -> Result<(), Fail> {
    let alloc = rt.alloc();
    let values = hi_and_three();
    for level in LEVELS {
        let short = short_line(alloc, "a\"b", level, "a\\b", &span(), &values)?;
        let same = same_line(alloc, "a\"b", level, "a\\b", span(), &values)?;
        assert_eq!(rt; short.as_str(), same.as_str());
    }
    Ok(())
}

#[test]
fn other_spans_alone(rt: HostRuntime) -> Result<(), Fail> {
    let alloc = rt.alloc();
    for row in others() {
        let short = short_line(alloc, "now", Level::INFO, "app", &row, &[])?;
        let same = same_line(alloc, "now", Level::INFO, "app", row, &[])?;
        assert_eq!(rt; short.as_str(), same.as_str());
    }
    Ok(())
}

#[test]
fn a_value_that_fails_in_one_span(rt: HostRuntime) -> Result<(), Fail> {
    let values = ONE_AND_FAILING;
    let line = short_line(rt.alloc(), "now", Level::INFO, "app", &span(), &values);
    assert!(rt; line.err() == Some(FormatError::Failed));
    Ok(())
}
