// What is handed to a subscriber.
use crate::surface_tracing_core::lines::Counted;
use crate::surface_tracing_core::span_metadata;
use crate::{
    AnyValue, Attributes, Current, Event, FieldSet, Id, Identifier, Kind, Level, Metadata, Record,
    metadata,
};
use std::test::Fail;

const NAMES: [&str; 2] = ["message", "count"];

#[test]
fn surface_metadata_in_bodies(rt: HostRuntime) {
    let metadata = metadata! {
        name: "made",
        target: "app",
        level: Level::INFO,
        fields: &NAMES,
        callsite: Identifier(7),
        kind: Kind::SPAN,
    };
    assert!(rt; metadata.name() == "made" && metadata.fields().len() == 2);
    assert!(rt; metadata.is_span() && metadata.callsite() == Identifier(7));
}

#[test]
fn surface_attributes(rt: HostRuntime) -> Result<(), Fail> {
    let fields = FieldSet::new(&NAMES, Identifier(7));
    let metadata = span_metadata(fields);
    let id = Id::from_u64(4).ok_or("an id")?;
    let count = fields.field("count").ok_or("count")?;
    let all = [None, Some(AnyValue::U64(2))];
    let values = fields.value_set_all(&all);
    let made = Attributes::new(&metadata, values);
    let child = Attributes::child_of(id, &metadata, values);
    let mut counted = Counted { seen: 0, limit: 1 };
    assert!(rt; made.is_contextual() && Attributes::new_root(&metadata, values).is_root());
    assert!(rt; child.parent() == Some(&id) && made.metadata() == &metadata);
    assert!(rt; made.contains(&count) && !made.is_empty() && made.values().len() == 2);
    assert!(rt; made.record(&mut counted).is_ok() && made.fields().len() == 2);
    let record = Record::new(values);
    assert!(rt; record.len() == 2 && record.contains(&count) && !record.is_empty());
    assert!(rt; record.record(&mut counted) == Err(1));
    Ok(())
}

#[test]
fn surface_events(rt: HostRuntime) -> Result<(), Fail> {
    let fields = FieldSet::new(&NAMES, Identifier(7));
    let metadata = span_metadata(fields);
    let id = Id::from_u64(4).ok_or("an id")?;
    let all = [None, Some(AnyValue::U64(2))];
    let values = fields.value_set_all(&all);
    let event = Event::new(&metadata, values);
    let child = Event::new_child_of(Some(id), &metadata, values);
    let mut counted = Counted { seen: 0, limit: 1 };
    assert!(rt; event.is_contextual() && !event.is_root() && child.parent() == Some(&id));
    assert!(rt; event.metadata() == &metadata && event.fields().next().is_some());
    assert!(rt; event.record(&mut counted).is_ok());
    Ok(())
}

#[test]
fn surface_current(rt: HostRuntime) -> Result<(), Fail> {
    let fields = FieldSet::new(&NAMES, Identifier(7));
    let metadata = span_metadata(fields);
    let id = Id::from_u64(4).ok_or("an id")?;
    let current = Current::new(id, &metadata);
    let inside: Option<Id> = (&current).into();
    assert!(rt; current.is_known() && current.id() == Some(&id) && inside == Some(id));
    assert!(rt; current.metadata() == Some(&metadata) && Current::none().is_known());
    let Some((kept, of)) = current.into_inner() else {
        panic!(&rt; "no current span");
    };
    assert_eq!(rt; (kept, of.name()), (id, "made"));
    assert!(rt; Id::from_u64(0).is_none() && id.into_u64() == 4);
    assert!(rt; Id::from_non_zero_u64(id.into_non_zero_u64()) == id);
    Ok(())
}
