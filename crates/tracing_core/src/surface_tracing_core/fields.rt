// Levels, metadata, fields and values.
use crate::surface_tracing_core::lines::Counted;
use crate::{
    AnyValue, DebugText, Empty, ErrorText, FieldSet, Identifier, Interest, Kind, Level,
    LevelFilter, Metadata, Value, Visit, debug, display, filters_read_their_names,
    interests_join_in_any_order, levels_read_their_names, numbers_are_read_as_usize,
};
use std::num::{NonZeroU8, Wrapping};
use std::test::Fail;

const NAMES: [&str; 2] = ["message", "count"];

#[test]
fn surface_levels(rt: HostRuntime) -> Result<(), Fail> {
    let alloc = rt.alloc();
    let (level, filter) = (Level::WARN, LevelFilter::INFO);
    assert!(rt; level.as_str() == "WARN" && level < Level::INFO && level != Level::ERROR);
    assert_eq!(rt;
        format!(in alloc; "{level} {filter}")?.as_str(),
        "WARN info"
    );
    assert!(rt;
        "debug"
            .parse::<Level>()
            .is_ok_and(|level| level == Level::DEBUG)
            && "6".parse::<Level>().is_err()
    );
    assert!(rt;
        "".parse::<LevelFilter>()
            .is_ok_and(|filter| filter == LevelFilter::ERROR)
    );
    assert!(rt; LevelFilter::from_level(level) == LevelFilter::WARN && LevelFilter::OFF < filter);
    assert!(rt; filter.into_level() == Some(Level::INFO) && !LevelFilter::from(None).passes(level));
    assert!(rt; filter.passes(level) && LevelFilter::from(level) == LevelFilter::WARN);
    let back: Option<Level> = LevelFilter::TRACE.into();
    assert!(rt; back == Some(Level::TRACE));
    Ok(())
}

#[test]
fn surface_metadata(rt: HostRuntime) -> Result<(), Fail> {
    let fields = FieldSet::new(&NAMES, Identifier(7));
    let kind = Kind::SPAN.hint();
    let metadata = Metadata::new(
        "made",
        "app",
        Level::INFO,
        Some("a.rs"),
        Some(3),
        Some("app::a"),
        fields,
        kind,
    );
    assert!(rt; kind.is_span() && kind.is_hint() && !kind.is_event() && Kind::EVENT.is_event());
    assert!(rt; metadata.is_span() && !metadata.is_event() && metadata == metadata);
    assert!(rt; metadata.name() == "made" && metadata.target() == "app");
    assert!(rt; metadata.file() == Some("a.rs") && metadata.line() == Some(3));
    assert!(rt; metadata.module_path() == Some("app::a") && *metadata.level() == Level::INFO);
    assert!(rt; metadata.callsite() == Identifier(7) && metadata.fields().len() == 2);
    Ok(())
}

#[test]
fn surface_fields(rt: HostRuntime) -> Result<(), Fail> {
    let alloc = rt.alloc();
    let fields = FieldSet::new(&NAMES, Identifier(7));
    let count = fields.field("count").ok_or("count")?;
    assert!(rt; count.name() == "count" && count.index() == 1 && count.callsite() == Identifier(7));
    assert!(rt; fields.contains(&count) && fields.field("other").is_none() && !fields.is_empty());
    assert!(rt; fields.iter().next().is_some() && fields.callsite() == Identifier(7));
    assert_eq!(rt; format!(in alloc; "{fields}")?.as_str(), "{message, count}");
    let pairs = [(count, Some(AnyValue::U64(2)))];
    let values = fields.value_set(&pairs);
    let mut counted = Counted { seen: 0, limit: 1 };
    assert!(rt; values.record(&mut counted).is_ok() && counted.seen == 1);
    assert!(rt; values.len() == 1 && !values.is_empty() && values.callsite() == Identifier(7));
    assert!(rt; values.contains(&count) && values.field_set() == &fields);
    let all = [Some(AnyValue::Empty), Some(AnyValue::Bool(true))];
    assert!(rt; fields.value_set_all(&all).record(&mut counted) == Err(1));
    Ok(())
}

#[test]
fn surface_visits(rt: HostRuntime) -> Result<(), Fail> {
    let fields = FieldSet::new(&NAMES, Identifier(7));
    let field = fields.field("count").ok_or("count")?;
    let mut counted = Counted { seen: 0, limit: 9 };
    let numbers = [
        counted.record_i64(&field, -1),
        counted.record_u64(&field, 1),
        counted.record_i128(&field, -1),
        counted.record_u128(&field, 1),
    ];
    assert!(rt; numbers.iter().all(|answer| answer.is_ok()) && counted.seen == 4);
    assert!(rt;
        counted.record_bool(&field, true).is_ok() && counted.record_str(&field, "a").is_ok()
    );
    assert!(rt; counted.record_bytes(&field, b"ab").is_ok());
    assert!(rt;
        counted
            .record_error(&field, &ErrorText::new("e", &["source"]))
            .is_ok()
    );
    assert!(rt; counted.record_debug(&field, &DebugText::U64(1)).is_ok() && counted.seen == 9);
    assert!(rt; counted.record_str(&field, "one too many") == Err(9));
    Ok(())
}

#[test]
fn surface_values(rt: HostRuntime) -> Result<(), Fail> {
    let alloc = rt.alloc();
    let owned = "own".to_string(alloc)?;
    let boxed = Box::new(alloc, 4u8)?;
    let small = NonZeroU8::new(3).ok_or("zero")?;
    let bytes: &[u8] = b"ab";
    assert!(rt; owned.value() == AnyValue::Str("own") && "a".value() == AnyValue::Str("a"));
    assert!(rt; boxed.value() == AnyValue::U64(4) && small.value() == AnyValue::U64(3));
    assert!(rt; bytes.value() == AnyValue::Bytes(b"ab") && Empty.value() == AnyValue::Empty);
    assert!(rt;
        Wrapping(7u8).value() == AnyValue::U64(7) && Some(true).value() == AnyValue::Bool(true)
    );
    let error = ErrorText::new("e", &[]);
    assert!(rt;
        error.value() == AnyValue::Error(error) && error.text() == "e" && error.sources().is_empty()
    );
    let seven = DebugText::Texts {
        plain: "7",
        alternate: "7",
    };
    assert!(rt; display(alloc, &7u8)?.value() == AnyValue::Debug(seven));
    assert!(rt; debug(alloc, &7u8)?.value() == AnyValue::Debug(seven));
    let (never, always) = (Interest::never(), Interest::always());
    assert!(rt; never.is_never() && always.is_always() && never.common(always).is_sometimes());
    assert!(rt; never.common(always) == Interest::sometimes());
    Ok(())
}

#[test]
fn surface_laws(_rt: HostRuntime) {
    levels_read_their_names();
    filters_read_their_names();
    numbers_are_read_as_usize();
    interests_join_in_any_order();
}
