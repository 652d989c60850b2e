// Requests at callsites that are told by their index.
use crate::tests::hub::at;
use crate::tests::hub::listener::{Listener, Place};
use crate::*;
use std::alloc::Global;
use std::test::Fail;
use tracing_core_fields::{
    AnyValue, FieldSet, Id, Identifier, IndexedValues, Kind, LentValue, Level, Metadata,
};

const NAMES: [&str; 2] = ["n", "m"];

fn metadata<'a>() -> Metadata<'a> {
    let (fields, level) = (FieldSet::new(&NAMES, Identifier(5)), Level::INFO);
    Metadata::new("made", "app", level, None, None, None, fields, Kind::EVENT)
}

/// A value of the field at the place.
fn digit<'a>(field: usize, number: u64) -> LentValue<'a> {
    LentValue {
        field,
        value: AnyValue::U64(number),
    }
}

/// A hub with one subscriber and the callsite, a handle that isn't counted, and the callsite's index.
fn hub_at<'a>(
    alloc: Global,
    metadata: &'a Metadata<'a>,
) -> Result<
    (
        Hub<Listener, DefaultCallsite<'a>>,
        WeakDispatch,
        CallsiteIndex,
    ),
    Fail,
> {
    let mut hub = Hub::new(alloc);
    let first = hub.add(Listener::new()).ok().ok_or("a subscriber")?;
    let _interest = hub
        .register(DefaultCallsite::new(metadata))
        .ok()
        .ok_or("a callsite")?;
    let index = hub.index_of(Identifier(5)).ok_or("an index")?;
    Ok((hub, first.downgrade(), index))
}

/// How often the subscriber was told something, the digits that it was told last, and where.
fn told(
    hub: &Hub<Listener, DefaultCallsite<'_>>,
    dispatch: &WeakDispatch,
) -> Result<(u64, u64, Place), Fail> {
    let listener = hub.subscriber(dispatch).ok_or("a subscriber")?;
    Ok((listener.calls, listener.digits, listener.place))
}

#[test]
fn values_of_an_event_are_told_by_their_fields_places(rt: HostRuntime) -> Result<(), Fail> {
    let metadata = metadata();
    let (mut hub, first, index) = hub_at(rt.alloc(), &metadata)?;
    // The callsite has no third field, so that value is passed over.
    let values = [digit(1, 4), digit(2, 5), digit(0, 6)];
    let parent = RequestParent::Contextual;
    assert_eq!(rt;
        hub.event_at(&first, index, parent, IndexedValues::Lent(&values), at(0)),
        Some(Ok(()))
    );
    assert_eq!(rt; told(&hub, &first)?, (1, 46, Place::Contextual));
    Ok(())
}

#[test]
fn events_stand_where_they_are_told(rt: HostRuntime) -> Result<(), Fail> {
    let metadata = metadata();
    let (mut hub, first, index) = hub_at(rt.alloc(), &metadata)?;
    let id = Id::from_u64(9).ok_or("an id")?;
    let values = [digit(0, 7)];
    assert_eq!(rt;
        hub.event_at(
            &first,
            index,
            RequestParent::Root,
            IndexedValues::Lent(&values),
            at(0)
        ),
        Some(Ok(()))
    );
    assert_eq!(rt; told(&hub, &first)?, (1, 7, Place::Root));
    let parent = RequestParent::Explicit(id);
    assert_eq!(rt;
        hub.event_at(&first, index, parent, IndexedValues::Lent(&[]), at(0)),
        Some(Ok(()))
    );
    assert_eq!(rt; told(&hub, &first)?, (2, 0, Place::Under(id)));
    Ok(())
}

#[test]
fn spans_stand_where_they_are_told(rt: HostRuntime) -> Result<(), Fail> {
    let metadata = metadata();
    let (mut hub, first, index) = hub_at(rt.alloc(), &metadata)?;
    let id = Id::from_u64(9).ok_or("an id")?;
    let made = Some(Ok(Id::from_u64(3)));
    let values = [digit(9, 1), digit(1, 8)];
    for (parent, place) in [
        (RequestParent::Contextual, Place::Contextual),
        (RequestParent::Root, Place::Root),
        (RequestParent::Explicit(id), Place::Under(id)),
    ] {
        assert_eq!(rt;
            hub.new_span_at(&first, index, parent, IndexedValues::Lent(&values), at(0)),
            made
        );
        let (_, digits, was) = told(&hub, &first)?;
        assert_eq!(rt; (digits, was), (8, place));
    }
    Ok(())
}

#[test]
fn values_of_a_span_and_questions_reach_the_subscriber(rt: HostRuntime) -> Result<(), Fail> {
    let metadata = metadata();
    let (mut hub, first, index) = hub_at(rt.alloc(), &metadata)?;
    let id = Id::from_u64(9).ok_or("an id")?;
    let values = [digit(0, 1), digit(1, 2), digit(2, 3)];
    assert_eq!(rt;
        hub.record_at(&first, index, &id, IndexedValues::Lent(&values), at(0)),
        Some(Ok(()))
    );
    assert_eq!(rt; told(&hub, &first)?, (1, 12, Place::Under(id)));
    assert_eq!(rt; hub.enabled_at(&first, index, at(0)), Some(true));
    let nobody = Dispatch::none().downgrade();
    assert_eq!(rt; hub.enabled_at(&nobody, index, at(0)), Some(false));
    assert_eq!(rt;
        hub.record_at(&nobody, index, &id, IndexedValues::Lent(&values), at(0)),
        Some(Ok(()))
    );
    assert_eq!(rt; told(&hub, &first)?, (2, 12, Place::Under(id)));
    Ok(())
}

// A user has an index only from a hub's own `index_of`, which answers none where no callsite stands, and a callsite never
// leaves its hub. So a user meets `None` only by an index that another hub gave.
#[test]
fn an_index_of_another_hub_may_stand_nowhere(rt: HostRuntime) -> Result<(), Fail> {
    let metadata = metadata();
    let (_, _, index) = hub_at(rt.alloc(), &metadata)?;
    let mut hub: Hub<Listener, DefaultCallsite<'_>> = Hub::new(rt.alloc());
    let first = hub.add(Listener::new()).ok().ok_or("a subscriber")?;
    let first = first.downgrade();
    let id = Id::from_u64(9).ok_or("an id")?;
    let parent = RequestParent::Root;
    assert!(rt; hub.enabled_at(&first, index, at(0)).is_none());
    assert!(rt;
        hub.event_at(&first, index, parent, IndexedValues::Lent(&[]), at(0))
            .is_none()
    );
    assert!(rt;
        hub.new_span_at(&first, index, parent, IndexedValues::Lent(&[]), at(0))
            .is_none()
    );
    assert!(rt;
        hub.record_at(&first, index, &id, IndexedValues::Lent(&[]), at(0))
            .is_none()
    );
    assert_eq!(rt; told(&hub, &first)?, (0, 0, Place::Nowhere));
    Ok(())
}
