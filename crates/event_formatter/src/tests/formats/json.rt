use super::*;

// A registry whose lane is in a span with two fields.
fn in_json_span(alloc: Global) -> Result<Registry, Fail> {
    let values = [Some(AnyValue::I64(42)), Some(AnyValue::I64(3))];
    in_span(
        alloc,
        "json_span",
        Fields::Json,
        &["answer", "number"],
        &values,
    )
}

// The line of an event with a message in that span.
fn line_of_message<F: FormatEvent>(
    alloc: Global,
    registry: &mut Registry,
    format: &mut F,
) -> Result<String, Fail> {
    let message = [Some(AnyValue::Str("some json test")), None];
    line_of(alloc, registry, format, Fields::Json, &message)
}

#[test]
fn flattened_line(rt: HostRuntime) -> Result<(), Fail> {
    let mut registry = in_json_span(rt.alloc())?;
    let mut format = timed(rt.alloc())?.json().flatten_event(true);
    let line = line_of_message(rt.alloc(), &mut registry, &mut format)?;
    assert_eq!(rt;
        line.as_str(),
        "{\"timestamp\":\"fake time\",\"level\":\"INFO\",\"message\":\"some json test\",\"target\":\"app\",\
         \"span\":{\"answer\":42,\"number\":3,\"name\":\"json_span\"},\
         \"spans\":[{\"answer\":42,\"number\":3,\"name\":\"json_span\"}]}\n"
    );
    Ok(())
}

#[test]
fn line_without_spans(rt: HostRuntime) -> Result<(), Fail> {
    let mut registry = in_json_span(rt.alloc())?;
    let mut format = Format::new(rt.alloc())
        .without_time()
        .with_thread_ids(true)
        .json()
        .with_current_span(false)
        .with_span_list(false);
    let line = line_of_message(rt.alloc(), &mut registry, &mut format)?;
    assert_eq!(rt;
        line.as_str(),
        "{\"level\":\"INFO\",\"fields\":{\"message\":\"some json test\"},\"target\":\"app\",\
         \"threadId\":\"ThreadId(1)\"}\n"
    );
    Ok(())
}

#[test]
fn usual_line(rt: HostRuntime) -> Result<(), Fail> {
    let mut registry = in_json_span(rt.alloc())?;
    let mut format = timed(rt.alloc())?.json();
    let line = line_of_message(rt.alloc(), &mut registry, &mut format)?;
    assert_eq!(rt;
        line.as_str(),
        "{\"timestamp\":\"fake time\",\"level\":\"INFO\",\"fields\":{\"message\":\"some json test\"},\"target\":\"app\",\
         \"span\":{\"answer\":42,\"number\":3,\"name\":\"json_span\"},\
         \"spans\":[{\"answer\":42,\"number\":3,\"name\":\"json_span\"}]}\n"
    );
    // One part more than the usual ones.
    let mut format = timed(rt.alloc())?.with_thread_ids(true).json();
    let line = line_of_message(rt.alloc(), &mut registry, &mut format)?;
    assert!(rt;
        line.as_str()
            .ends_with("}],\"threadId\":\"ThreadId(1)\"}\n")
    );
    Ok(())
}
