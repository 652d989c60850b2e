use super::*;
use std::test::Fail;

const FLAT: JsonShape = JsonShape {
    flatten_event: true,
    current_span: true,
    span_list: true,
};

fn json_span() -> [ShownSpan<'static>; 1] {
    [row("json_span", "{\"answer\":42,\"number\":3}")]
}

// Spans with no members, with a text that is no object, and with none.
fn others() -> [ShownSpan<'static>; 4] {
    [
        row("empty", "{}"),
        row("a\"b\\", "x=\"42\" \u{1b}"),
        row("open", "{"),
        row("bare", ""),
    ]
}

// The line of the values.
fn line_of(
    alloc: Global,
    shape: JsonShape,
    head: &Head<'_>,
    rows: &[ShownSpan<'static>],
    values: &[Option<AnyValue<'_>>],
) -> Result<String, FormatError> {
    let mut out = String::new(alloc);
    let spans = Rows { rows };
    push_json_line(&mut out, shape, head, &spans, &fields_of(values))?;
    Ok(out)
}

#[test]
fn all_parts(rt: HostRuntime) -> Result<(), Fail> {
    let head = Head {
        time: Some("fake time"),
        level: Some(Level::WARN),
        thread_name: Some("main"),
        thread_id: Some("ThreadId(1)"),
        target: Some("app"),
        file: Some("src/a.rs"),
        line: Some(7),
    };
    let values = hi_and_three();
    let shape = JsonShape::default();
    let line = line_of(rt.alloc(), shape, &head, &json_span(), &values)?;
    assert_eq!(rt;
        line.as_str(),
        "{\"timestamp\":\"fake time\",\"level\":\"WARN\",\"fields\":{\"message\":\"hi\",\"n\":3},\
        \"target\":\"app\",\"filename\":\"src/a.rs\",\"line_number\":7,\"span\":{\"answer\":42,\
        \"number\":3,\"name\":\"json_span\"},\"spans\":[{\"answer\":42,\"number\":3,\
        \"name\":\"json_span\"}],\"threadName\":\"main\",\"threadId\":\"ThreadId(1)\"}\n"
    );
    Ok(())
}

#[test]
fn flattened(rt: HostRuntime) -> Result<(), Fail> {
    let head = timed(Some(Level::INFO));
    let values = [Some(AnyValue::Str("some json test"))];
    let line = line_of(rt.alloc(), FLAT, &head, &json_span(), &values)?;
    assert_eq!(rt;
        line.as_str(),
        "{\"timestamp\":\"fake time\",\"level\":\"INFO\",\"message\":\"some json test\",\
        \"target\":\"app\",\"span\":{\"answer\":42,\"number\":3,\"name\":\"json_span\"},\
        \"spans\":[{\"answer\":42,\"number\":3,\"name\":\"json_span\"}]}\n"
    );
    Ok(())
}

#[test]
fn no_part(rt: HostRuntime) -> Result<(), Fail> {
    let shape = JsonShape::default();
    let line = line_of(rt.alloc(), shape, &BARE, &[], &[])?;
    assert_eq!(rt; line.as_str(), "{\"fields\":{}}\n");
    let line = line_of(rt.alloc(), FLAT, &BARE, &[], &[])?;
    assert_eq!(rt; line.as_str(), "{}\n");
    Ok(())
}

#[test]
fn no_comma_at_the_start(rt: HostRuntime) -> Result<(), Fail> {
    let head = Head {
        target: Some("app"),
        ..BARE
    };
    let line = line_of(rt.alloc(), FLAT, &head, &[], &[])?;
    assert_eq!(rt; line.as_str(), "{\"target\":\"app\"}\n");
    let line = line_of(rt.alloc(), FLAT, &BARE, &[], &hi_and_three())?;
    assert_eq!(rt; line.as_str(), "{\"message\":\"hi\",\"n\":3}\n");
    Ok(())
}

#[test]
fn spans_with_other_texts(rt: HostRuntime) -> Result<(), Fail> {
    let listed = JsonShape {
        current_span: false,
        ..FLAT
    };
    let line = line_of(rt.alloc(), listed, &BARE, &others(), &[])?;
    assert_eq!(rt;
        line.as_str(),
        "{\"spans\":[{\"name\":\"empty\"},{\"field\":\"x=\\\"42\\\" \\u001b\",\"name\":\"a\\\"b\\\\\"},\
        {\"field\":\"{\",\"name\":\"open\"},{\"name\":\"bare\"}]}\n"
    );
    let leaf_alone = JsonShape {
        span_list: false,
        ..FLAT
    };
    let line = line_of(rt.alloc(), leaf_alone, &BARE, &others(), &[])?;
    assert_eq!(rt; line.as_str(), "{\"span\":{\"name\":\"bare\"}}\n");
    Ok(())
}

#[test]
fn escapes(rt: HostRuntime) -> Result<(), Fail> {
    let head = Head {
        thread_name: Some("a\tb"),
        target: Some("a\\b"),
        file: Some("\"a\""),
        ..BARE
    };
    let values = [Some(AnyValue::Str("a\"\n\0é"))];
    let line = line_of(rt.alloc(), FLAT, &head, &[], &values)?;
    assert_eq!(rt;
        line.as_str(),
        "{\"message\":\"a\\\"\\n\\u0000é\",\"target\":\"a\\\\b\",\"filename\":\"\\\"a\\\"\",\"threadName\":\"a\\tb\"}\n"
    );
    Ok(())
}

#[test]
fn a_value_that_fails(rt: HostRuntime) -> Result<(), Fail> {
    let values = ONE_AND_FAILING;
    let failed = Some(FormatError::Failed);
    let shape = JsonShape::default();
    let nested = line_of(rt.alloc(), shape, &BARE, &[], &values);
    assert!(rt; nested.err() == failed);
    let flat = line_of(rt.alloc(), FLAT, &BARE, &[], &values);
    assert!(rt; flat.err() == failed);
    Ok(())
}
