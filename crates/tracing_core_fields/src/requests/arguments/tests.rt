use crate::requests::{Attributes, Current, Event, Record};
use crate::{AnyValue, DebugText, Field, FieldSet, Id, Identifier, Kind, Level, Metadata, Visit};
use std::fmt;
use std::fmt::Write;
use std::test::Fail;

const NAMES: [&str; 2] = ["message", "count"];

// Writes each field and its value, and refuses once there is no room for another.
#[derive(Drop)]
struct Lines {
    text: String,
    room: usize,
}

impl Visit for Lines {
    type Error = fmt::Error;

    ghost shows = { λ _ _ _ _ _. Unit {0} };

    fn record_debug(&mut self, field: &Field<'_>, value: &DebugText<'_>) -> fmt::Result {
        if self.room == 0 {
            return Err(fmt::Error);
        }
        self.room -= 1;
        let name = field.name();
        write!(self.text, "{name}={value:?};")?;
        Ok(())
    }
}

fn metadata_of(fields: FieldSet<'_>) -> Metadata<'_> {
    Metadata::new(
        "made",
        "app",
        Level::INFO,
        None,
        Some(3),
        None,
        fields,
        Kind::SPAN,
    )
}

#[test]
fn attributes_keep_their_parts(rt: HostRuntime) -> Result<(), Fail> {
    let set = FieldSet::new(&NAMES, Identifier(7));
    let metadata = metadata_of(set);
    let message = set.field("message").ok_or("message")?;
    let count = set.field("count").ok_or("count")?;
    let pairs = [(message, Some(AnyValue::Str("hi"))), (count, None)];
    let id = Id::from_u64(4).ok_or("an id")?;
    let made = Attributes::new(&metadata, set.value_set(&pairs));
    assert!(rt; made.is_contextual() && !made.is_root() && made.parent().is_none());
    assert!(rt; made.contains(&message) && !made.contains(&count) && !made.is_empty());
    assert_eq!(rt;
        (
            made.metadata().name(),
            made.values().len(),
            made.fields().len()
        ),
        ("made", 2, 2)
    );
    let root = Attributes::new_root(&metadata, set.value_set(&pairs[1..]));
    assert!(rt;
        root.is_root() && !root.is_contextual() && root.parent().is_none() && root.is_empty()
    );
    let child = Attributes::child_of(id, &metadata, set.value_set(&pairs));
    assert!(rt; !child.is_root() && !child.is_contextual());
    assert_eq!(rt; child.parent().copied(), Some(id));
    Ok(())
}

#[test]
fn records_keep_their_values(rt: HostRuntime) -> Result<(), Fail> {
    let set = FieldSet::new(&NAMES, Identifier(7));
    let message = set.field("message").ok_or("message")?;
    let count = set.field("count").ok_or("count")?;
    let pairs = [(message, None), (count, Some(AnyValue::U64(2)))];
    let record = Record::new(set.value_set(&pairs));
    assert_eq!(rt; (record.len(), record.is_empty()), (2, false));
    assert!(rt; record.contains(&count) && !record.contains(&message));
    assert!(rt; Record::new(set.value_set(&pairs[..1])).is_empty());
    Ok(())
}

#[test]
fn events_keep_their_parts(rt: HostRuntime) -> Result<(), Fail> {
    let set = FieldSet::new(&NAMES, Identifier(7));
    let metadata = metadata_of(set);
    let all = [Some(AnyValue::Str("hi")), Some(AnyValue::I64(-1))];
    let id = Id::from_u64(4).ok_or("an id")?;
    let event = Event::new(&metadata, set.value_set_all(&all));
    assert!(rt; event.is_contextual() && !event.is_root() && event.parent().is_none());
    assert_eq!(rt; event.metadata().target(), "app");
    let mut seen = 0;
    for (place, field) in event.fields().enumerate() {
        assert_eq!(rt; field.index(), place);
        seen = place + 1;
    }
    assert_eq!(rt; seen, 2);
    let root = Event::new_child_of(None, &metadata, set.value_set_all(&all));
    assert!(rt; root.is_root() && !root.is_contextual() && root.parent().is_none());
    let child = Event::new_child_of(Some(id), &metadata, set.value_set_all(&all));
    assert!(rt; !child.is_root() && !child.is_contextual());
    assert_eq!(rt; child.parent().copied(), Some(id));
    Ok(())
}

#[test]
fn values_are_visited(rt: HostRuntime) -> Result<(), Fail> {
    let set = FieldSet::new(&NAMES, Identifier(7));
    let metadata = metadata_of(set);
    let all = [Some(AnyValue::Bool(true)), Some(AnyValue::I64(-1))];
    let values = set.value_set_all(&all);
    let mut lines = Lines {
        text: String::new(rt.alloc()),
        room: 5,
    };
    assert!(rt;
        Attributes::new(&metadata, values)
            .record(&mut lines)
            .is_ok()
    );
    assert!(rt; Record::new(values).record(&mut lines).is_ok());
    assert!(rt; Event::new(&metadata, values).record(&mut lines).is_err());
    assert_eq!(rt;
        lines.text.as_str(),
        "message=true;count=-1;message=true;count=-1;message=true;"
    );
    Ok(())
}

#[test]
fn current_spans_are_told(rt: HostRuntime) -> Result<(), Fail> {
    let metadata = metadata_of(FieldSet::new(&NAMES, Identifier(7)));
    let id = Id::from_u64(4).ok_or("an id")?;
    let inside = Current::new(id, &metadata);
    assert!(rt; inside.is_known());
    assert_eq!(rt; inside.id().copied(), Some(id));
    let known = inside.metadata().ok_or("its metadata")?;
    assert_eq!(rt; known.name(), "made");
    let Some((kept, of)) = inside.into_inner() else {
        panic!(&rt; "no current span");
    };
    assert_eq!(rt; (kept, of.name()), (id, "made"));
    Ok(())
}

#[test]
fn no_current_span_is_told(rt: HostRuntime) {
    let none = Current::none();
    assert!(rt; none.is_known() && none.id().is_none() && none.metadata().is_none());
    assert!(rt; Current::none().into_inner().is_none());
    let unknown = Current::unknown();
    assert!(rt; !unknown.is_known() && unknown.id().is_none() && unknown.metadata().is_none());
    assert!(rt; Current::unknown().into_inner().is_none());
}

#[test]
fn current_spans_convert(rt: HostRuntime) -> Result<(), Fail> {
    let metadata = metadata_of(FieldSet::new(&NAMES, Identifier(7)));
    let id = Id::from_u64(4).ok_or("an id")?;
    let inside = Current::new(id, &metadata);
    let lent: Option<&Id> = (&inside).into();
    assert_eq!(rt; lent.copied(), Some(id));
    let copied: Option<Id> = (&inside).into();
    assert_eq!(rt; copied, Some(id));
    let known: Option<&Metadata<'_>> = (&inside).into();
    assert_eq!(rt; known.ok_or("its metadata")?.name(), "made");
    let moved: Option<Id> = Current::new(id, &metadata).into();
    assert_eq!(rt; moved, Some(id));
    Ok(())
}
