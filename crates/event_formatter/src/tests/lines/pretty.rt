use super::*;
use event_formatter_text::PrettyFields;
use std::test::Fail;
use tracing_core_fields::DebugText;

fn outer() -> [ShownSpan<'static>; 1] {
    [row("outer", "x: 42")]
}

fn both() -> [ShownSpan<'static>; 2] {
    [
        row("outer", "x: 42"),
        ShownSpan {
            name: "inner",
            target: "app::db",
            text: "",
        },
    ]
}

const NOWHERE: Place<'static> = Place {
    file: None,
    line: None,
    thread: None,
};

// The lines of the values.
fn lines_of_values(
    alloc: Global,
    head: &Head<'_>,
    place: &Place<'_>,
    shows_target: bool,
    rows: &[ShownSpan<'static>],
    values: &[Option<AnyValue<'_>>],
) -> Result<String, FormatError> {
    let mut out = String::new(alloc);
    let spans = Rows { rows };
    let fields = PrettyFields::new();
    push_pretty_line(
        alloc,
        &mut out,
        STYLED,
        head,
        place,
        shows_target,
        &spans,
        &fields,
        &fields_of(values),
    )?;
    Ok(out)
}

// The lines of a message and a number.
fn lines_of(
    alloc: Global,
    head: &Head<'_>,
    place: &Place<'_>,
    shows_target: bool,
    rows: &[ShownSpan<'static>],
) -> Result<String, FormatError> {
    lines_of_values(alloc, head, place, shows_target, rows, &hi_and_three())
}

#[test]
fn span_below_the_event(rt: HostRuntime) -> Result<(), Fail> {
    let head = timed(None);
    let lines = lines_of(rt.alloc(), &head, &NOWHERE, true, &outer())?;
    assert_eq!(rt;
        lines.as_str(),
        "  fake time app: hi, n: 3\n    in app::outer with x: 42\n\n"
    );
    Ok(())
}

#[test]
fn leaf_before_root(rt: HostRuntime) -> Result<(), Fail> {
    let head = Head {
        level: Some(Level::INFO),
        ..BARE
    };
    let lines = lines_of(rt.alloc(), &head, &NOWHERE, false, &both())?;
    assert_eq!(rt;
        lines.as_str(),
        "   INFO  hi, n: 3\n    in inner\n    in outer with x: 42\n\n"
    );
    let lines = lines_of(rt.alloc(), &BARE, &NOWHERE, true, &both())?;
    assert_eq!(rt;
        lines.as_str(),
        "   hi, n: 3\n    in app::db::inner\n    in app::outer with x: 42\n\n"
    );
    Ok(())
}

#[test]
fn number_without_a_file(rt: HostRuntime) -> Result<(), Fail> {
    let head = Head {
        level: Some(Level::ERROR),
        target: Some("app"),
        line: Some(12),
        ..BARE
    };
    let lines = lines_of(rt.alloc(), &head, &NOWHERE, true, &[])?;
    assert_eq!(rt; lines.as_str(), "  ERROR app:12: hi, n: 3\n\n");
    let place = Place {
        line: Some(12),
        ..NOWHERE
    };
    let lines = lines_of(rt.alloc(), &BARE, &place, true, &[])?;
    assert_eq!(rt; lines.as_str(), "   hi, n: 3\n\n");
    Ok(())
}

#[test]
fn file_and_thread_on_a_line(rt: HostRuntime) -> Result<(), Fail> {
    let thread = Thread {
        name: Some("main"),
        id: Some("ThreadId(1)"),
    };
    let place = Place {
        file: Some("src/a.rs"),
        line: Some(7),
        thread: Some(thread),
    };
    let lines = lines_of(rt.alloc(), &BARE, &place, true, &[])?;
    assert_eq!(rt;
        lines.as_str(),
        "   hi, n: 3\n    at src/a.rs:7 on main ThreadId(1)\n\n"
    );
    let place = Place {
        file: Some("src/a.rs"),
        ..NOWHERE
    };
    let lines = lines_of(rt.alloc(), &BARE, &place, true, &[])?;
    assert_eq!(rt; lines.as_str(), "   hi, n: 3\n    at src/a.rs\n\n");
    Ok(())
}

// The lines of an event on the thread.
fn on_thread(alloc: Global, thread: Thread<'static>) -> Result<String, FormatError> {
    let place = Place {
        thread: Some(thread),
        ..NOWHERE
    };
    lines_of(alloc, &BARE, &place, true, &[])
}

#[test]
fn thread_on_its_own(rt: HostRuntime) -> Result<(), Fail> {
    let unnamed = Thread {
        name: None,
        id: None,
    };
    let named = Thread {
        name: Some("main"),
        id: None,
    };
    let numbered = Thread {
        name: None,
        id: Some("ThreadId(2)"),
    };
    let lines = on_thread(rt.alloc(), unnamed)?;
    assert_eq!(rt; lines.as_str(), "   hi, n: 3\n    on \n\n");
    let lines = on_thread(rt.alloc(), named)?;
    assert_eq!(rt; lines.as_str(), "   hi, n: 3\n    on main\n\n");
    let lines = on_thread(rt.alloc(), numbered)?;
    assert_eq!(rt; lines.as_str(), "   hi, n: 3\n    on ThreadId(2)\n\n");
    Ok(())
}

#[test]
fn a_value_that_fails(rt: HostRuntime) -> Result<(), Fail> {
    let values = [None, Some(AnyValue::Debug(DebugText::Failing))];
    let lines = lines_of_values(rt.alloc(), &BARE, &NOWHERE, true, &both(), &values);
    assert!(rt; lines.err() == Some(FormatError::Failed));
    Ok(())
}
