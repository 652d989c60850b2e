use std::test::Fail;
use tracing_core_fields::*;

mod kinds;
mod owned;
mod visits;

const NAMES: [&str; 3] = ["message", "count", "count"];

/// Texts, each with the level and the filter that it is read as.
fn level_texts() -> [(&'static str, Option<Level>, Option<LevelFilter>); 28] {
    [
        ("ERROR", Some(Level::ERROR), Some(LevelFilter::ERROR)),
        ("Error", Some(Level::ERROR), Some(LevelFilter::ERROR)),
        ("warn", Some(Level::WARN), Some(LevelFilter::WARN)),
        ("WARN", Some(Level::WARN), Some(LevelFilter::WARN)),
        ("Info", Some(Level::INFO), Some(LevelFilter::INFO)),
        ("info", Some(Level::INFO), Some(LevelFilter::INFO)),
        ("dEbUg", Some(Level::DEBUG), Some(LevelFilter::DEBUG)),
        ("debug", Some(Level::DEBUG), Some(LevelFilter::DEBUG)),
        ("trace", Some(Level::TRACE), Some(LevelFilter::TRACE)),
        ("TRACE", Some(Level::TRACE), Some(LevelFilter::TRACE)),
        ("3", Some(Level::INFO), Some(LevelFilter::INFO)),
        ("+3", Some(Level::INFO), Some(LevelFilter::INFO)),
        ("005", Some(Level::TRACE), Some(LevelFilter::TRACE)),
        ("5", Some(Level::TRACE), Some(LevelFilter::TRACE)),
        ("", None, Some(LevelFilter::ERROR)),
        ("off", None, Some(LevelFilter::OFF)),
        ("OFF", None, Some(LevelFilter::OFF)),
        ("0", None, Some(LevelFilter::OFF)),
        ("+0", None, Some(LevelFilter::OFF)),
        ("6", None, None),
        ("-1", None, None),
        ("+", None, None),
        ("inf", None, None),
        ("18446744073709551619", None, None),
        (" 3", None, None),
        ("3 ", None, None),
        (" off", None, None),
        ("none", None, None),
    ]
}

#[test]
fn levels_and_filters_parse(rt: HostRuntime) {
    for (text, level, filter) in level_texts() {
        assert_eq!(rt; text.parse::<Level>().ok(), level, "at {text}");
        assert_eq!(rt; text.parse::<LevelFilter>().ok(), filter, "at {text}");
    }
}

/// A value of each kind, but for an empty one.
fn each_value<'a>(sources: &'a [&'a str]) -> [Option<AnyValue<'a>>; 9] {
    [
        Some(AnyValue::I64(-1)),
        Some(AnyValue::U64(2)),
        Some(AnyValue::I128(-3)),
        Some(AnyValue::U128(4)),
        Some(AnyValue::Bool(false)),
        Some(AnyValue::Str("s")),
        Some(AnyValue::Bytes(b"\x0a")),
        Some(AnyValue::Error(ErrorText::new("e", sources))),
        Some(AnyValue::Debug(DebugText::Failing)),
    ]
}

#[test]
fn levels_print(rt: HostRuntime) -> Result<(), Fail> {
    let alloc = rt.alloc();
    assert_eq!(rt;
        format!(in alloc; "{}|{:>6}|{:?}", Level::WARN, Level::INFO, Level::DEBUG)?.as_str(),
        "WARN|  INFO|Level(Debug)"
    );
    assert_eq!(rt;
        format!(in alloc;
            "{}|{:<6}|{:?}",
            LevelFilter::OFF,
            LevelFilter::TRACE,
            LevelFilter::WARN
        )?
        .as_str(),
        "off|trace |LevelFilter::WARN"
    );
    let Err(level) = "loud".parse::<Level>() else {
        panic!(&rt; "read a level");
    };
    assert_eq!(rt;
        format!(in alloc; "{level}")?.as_str(),
        "error parsing level: expected one of \"error\", \"warn\", \"info\", \"debug\", \"trace\", or a number 1-5"
    );
    let Err(filter) = "loud".parse::<LevelFilter>() else {
        panic!(&rt; "read a filter");
    };
    assert_eq!(rt;
        format!(in alloc; "{filter}")?.as_str(),
        "error parsing level filter: expected one of \"off\", \"error\", \"warn\", \"info\", \"debug\", \"trace\", or a number 0-5"
    );
    Ok(())
}

#[test]
fn levels_compare(rt: HostRuntime) {
    assert!(rt; Level::ERROR < Level::WARN && Level::DEBUG < Level::TRACE);
    assert!(rt; LevelFilter::OFF < LevelFilter::ERROR);
    assert!(rt; LevelFilter::INFO.passes(Level::WARN) && !LevelFilter::INFO.passes(Level::DEBUG));
    assert!(rt; !LevelFilter::OFF.passes(Level::ERROR));
    assert_eq!(rt; LevelFilter::from(Level::INFO), LevelFilter::INFO);
    assert_eq!(rt; LevelFilter::from(None::<Level>), LevelFilter::OFF);
    assert_eq!(rt; LevelFilter::DEBUG.into_level(), Some(Level::DEBUG));
    let none: Option<Level> = LevelFilter::OFF.into();
    assert_eq!(rt; none, None);
}

#[test]
fn kinds_have_their_marks(rt: HostRuntime) {
    for (kind, event, span, hint) in [
        (Kind::EVENT, true, false, false),
        (Kind::SPAN, false, true, false),
        (Kind::HINT, false, false, true),
        (Kind::SPAN.hint(), false, true, true),
    ] {
        assert_eq!(rt;
            (kind.is_event(), kind.is_span(), kind.is_hint()),
            (event, span, hint)
        );
    }
    assert!(rt; constant_kinds() == (Kind::EVENT, Kind::SPAN, Kind::HINT));
    assert!(rt; Kind::EVENT != Kind::EVENT.hint());
}

#[test]
fn fields_are_found(rt: HostRuntime) -> Result<(), Fail> {
    let set = FieldSet::new(&NAMES, Identifier(7));
    assert_eq!(rt;
        (set.len(), set.is_empty(), set.callsite()),
        (3, false, Identifier(7))
    );
    let count = set.field("count").ok_or("count")?;
    assert_eq!(rt;
        (count.index(), count.name(), count.callsite()),
        (1, "count", Identifier(7))
    );
    assert!(rt; set.field("other").is_none());
    assert!(rt; set.contains(&count));
    assert!(rt; !FieldSet::new(&NAMES, Identifier(8)).contains(&count));
    assert!(rt; !FieldSet::new(&NAMES[..1], Identifier(7)).contains(&count));
    assert_eq!(rt; format!(in rt.alloc(); "{count:>6}")?.as_str(), " count");
    let mut seen = 0;
    for (place, field) in set.iter().enumerate() {
        assert_eq!(rt; field.index(), place);
        seen = place + 1;
    }
    assert_eq!(rt; seen, 3);
    assert!(rt; set != FieldSet::new(&NAMES[..2], Identifier(7)));
    Ok(())
}

#[test]
fn values_are_counted(rt: HostRuntime) -> Result<(), Fail> {
    let set = FieldSet::new(&NAMES, Identifier(7));
    let foreign = FieldSet::new(&NAMES, Identifier(8));
    let own = set.field("message").ok_or("message")?;
    let other = foreign.field("message").ok_or("message")?;
    let pairs = [
        (other, Some(AnyValue::U64(1))),
        (own, Some(AnyValue::Empty)),
        (own, None),
    ];
    let values = set.value_set(&pairs);
    assert_eq!(rt;
        (values.len(), values.is_empty(), values.callsite()),
        (2, true, Identifier(7))
    );
    assert!(rt; !values.contains(&own) && !values.contains(&other));
    let pairs = [(own, Some(AnyValue::Str("hi")))];
    assert!(rt; !set.value_set(&pairs).is_empty());
    assert!(rt; set.value_set(&pairs).contains(&own) && !set.value_set(&pairs).contains(&other));
    assert_eq!(rt; set.value_set(&pairs).field_set().len(), 3);
    let all = [None, None, Some(AnyValue::Empty), Some(AnyValue::I64(-1))];
    let values = set.value_set_all(&all);
    assert_eq!(rt; (values.len(), values.is_empty()), (3, true));
    let count = set.field("count").ok_or("count")?;
    assert!(rt; set.value_set_all(&all[2..]).contains(&count) && !values.contains(&count));
    assert_eq!(rt;
        (
            set.value_set_all(&all[3..]).len(),
            set.value_set_all(&all[3..]).is_empty()
        ),
        (1, false)
    );
    Ok(())
}

// What is known of an event or a span in a file.
fn placed<'a>(set: FieldSet<'a>, kind: Kind) -> Metadata<'a> {
    let (level, file, line) = (Level::WARN, Some("main.rs"), Some(4));
    Metadata::new("event", "app", level, file, line, None, set, kind)
}

#[test]
fn metadata_keeps_its_parts(rt: HostRuntime) {
    let set = FieldSet::new(&NAMES, Identifier(7));
    let event = placed(set, Kind::EVENT);
    assert_eq!(rt;
        (event.name(), event.target(), *event.level()),
        ("event", "app", Level::WARN)
    );
    assert_eq!(rt;
        (event.file(), event.line(), event.module_path()),
        (Some("main.rs"), Some(4), None)
    );
    assert_eq!(rt;
        (event.callsite(), event.fields().len()),
        (Identifier(7), 3)
    );
    assert!(rt; event.is_event() && !event.is_span());
    let span = placed(set, Kind::SPAN);
    assert!(rt; event == event && event != span && span.is_span());
}

#[test]
fn ids_keep_their_numbers(rt: HostRuntime) -> Result<(), Fail> {
    let id = Id::from_u64(3).ok_or("an id")?;
    assert!(rt; Id::from_u64(0).is_none());
    assert_eq!(rt; (id.into_u64(), id.into_non_zero_u64().get()), (3, 3));
    assert_eq!(rt; Id::from_non_zero_u64(id.into_non_zero_u64()), id);
    Ok(())
}
