// Texts of what the core has, and values of every kind.
use crate::surface_tracing_core::lines::Counted;
use crate::surface_tracing_core::span_metadata;
use crate::{
    AnyValue, Current, DebugText, FieldSet, FieldValue, Id, Identifier, IndexedValues, Kind, Level,
    LevelFilter, Metadata, OwnedValue, Value, constant_kinds, debug, display,
};
use std::convert::AsStr;
use std::hash::{DefaultHasher, Hash, Hasher};
use std::test::Fail;

const NAMES: [&str; 1] = ["n"];

#[test]
fn surface_field_texts(rt: HostRuntime) -> Result<(), Fail> {
    let alloc = rt.alloc();
    let names = ["a".to_string(alloc)?, "b".to_string(alloc)?];
    let fields = FieldSet::of_strings(&names, Identifier(7));
    let mut seen = 0;
    for field in &fields {
        assert!(rt; field.index() == seen);
        seen += 1;
    }
    assert!(rt; seen == 2);
    let second = fields.field("b").ok_or("b")?;
    assert!(rt; second.as_str() == "b");
    assert_eq!(rt; format!(in alloc; "{second}")?.as_str(), "b");
    let values = [
        FieldValue {
            field: 1,
            value: OwnedValue::I64(-2),
        },
        FieldValue {
            field: 9,
            value: OwnedValue::U64(3),
        },
    ];
    let set = fields.value_set_indexed(IndexedValues::Owned(&values));
    let mut counted = Counted { seen: 0, limit: 9 };
    assert!(rt; set.record(&mut counted).is_ok() && counted.seen == 1);
    assert!(rt; set.len() == 1 && set.contains(&second));
    assert!(rt; OwnedValue::Empty.lend() == AnyValue::Empty);
    Ok(())
}

#[test]
fn surface_level_texts(rt: HostRuntime) -> Result<(), Fail> {
    let alloc = rt.alloc();
    assert!(rt; Kind::HINT.is_hint() && !Kind::HINT.is_span() && !Kind::HINT.is_event());
    assert!(rt; "loud".parse::<LevelFilter>().is_err());
    assert_eq!(rt;
        format!(in alloc; "{:?}", LevelFilter::OFF)?.as_str(),
        "LevelFilter::OFF"
    );
    Ok(())
}

#[test]
fn surface_shown_values(rt: HostRuntime) -> Result<(), Fail> {
    let alloc = rt.alloc();
    constant_kinds();
    let seven = DebugText::Texts {
        plain: "7",
        alternate: "7",
    };
    assert!(rt; display(alloc, &7u8)?.text() == seven && debug(alloc, &7u8)?.text() == seven);
    assert!(rt; !Current::unknown().is_known());
    let fields = FieldSet::new(&[], Identifier(7));
    let kind = Kind::SPAN;
    let metadata = Metadata::new("made", "app", Level::INFO, None, None, None, fields, kind);
    assert!(rt; metadata.kind() == kind);
    Ok(())
}

fn hash_of<T: Hash>(value: &T) -> u64 {
    let mut hasher = DefaultHasher::new();
    value.hash(&mut hasher);
    hasher.finish()
}

#[test]
fn surface_hashes(rt: HostRuntime) -> Result<(), Fail> {
    let fields = FieldSet::new(&NAMES, Identifier(7));
    let field = fields.field("n").ok_or("n")?;
    let again = fields.field("n").ok_or("n")?;
    assert!(rt; hash_of(&field) == hash_of(&again));
    assert!(rt; hash_of(&Level::INFO) == hash_of(&Level::INFO));
    assert!(rt; hash_of(&LevelFilter::OFF) == hash_of(&LevelFilter::OFF));
    assert!(rt; hash_of(&Identifier(7)) == hash_of(&fields.callsite()));
    assert!(rt; hash_of(&Id::from_u64(5)) == hash_of(&Id::from_u64(5)));
    Ok(())
}

#[test]
fn surface_numbers(rt: HostRuntime) {
    assert!(rt; (-3i8).value() == AnyValue::I64(-3) && (-3i64).value() == AnyValue::I64(-3));
    assert!(rt; (-3i128).value() == AnyValue::I128(-3) && 3u128.value() == AnyValue::U128(3));
    assert!(rt; (&7u32).value() == AnyValue::U64(7) && None::<bool>.value() == AnyValue::Empty);
}

#[test]
fn surface_conversions(rt: HostRuntime) -> Result<(), Fail> {
    let id = Id::from_u64(5).ok_or("an id")?;
    let copied: Option<Id> = (&id).into();
    assert!(rt; copied == Some(id));
    let fields = FieldSet::new(&[], Identifier(7));
    let metadata = span_metadata(fields);
    let current = Current::new(id, &metadata);
    let lent: Option<&Id> = (&current).into();
    assert!(rt; lent == Some(&id));
    let again: Option<Id> = (&current).into();
    assert!(rt; again == Some(id));
    let shown: Option<&Metadata<'_>> = (&current).into();
    assert!(rt; shown.is_some_and(|shown| shown.name() == "made"));
    let moved: Option<Id> = current.into();
    assert!(rt; moved == Some(id));
    Ok(())
}
