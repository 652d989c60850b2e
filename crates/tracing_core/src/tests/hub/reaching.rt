// A hub's table, and requests of lanes.
use crate::tests::hub::everything::Everything;
use crate::tests::hub::owned_callsite::OwnedCallsite;
use crate::tests::hub::{add, at, hub_of, metadata_of};
use crate::*;
use std::test::Fail;
use tracing_core_fields::{
    Attributes, CurrentSpan, Event, FieldSet, Id, Identifier, Interest, Level, LevelFilter,
};

#[test]
fn the_table_is_a_copy(rt: HostRuntime) -> Result<(), Fail> {
    let mut hub: Hub<Everything, OwnedCallsite> = Hub::new(rt.alloc());
    let lane = hub.thread()?;
    let other = hub.thread()?;
    let first = add(&mut hub, 1, Interest::always())?;
    assert!(rt; hub.register(OwnedCallsite::new(3, Level::INFO)).is_ok());
    assert!(rt; hub.set_default(lane, &first).is_ok());
    let copy = hub.table()?;
    assert_eq!(rt; copy.handles.len(), 1);
    assert!(rt;
        copy.handles
            .get(0)
            .is_some_and(|count| count.serial == 0 && count.handles == 2)
    );
    assert!(rt; matches!(copy.global, LaneDefault::Unset));
    assert!(rt;
        matches!(
            copy.lanes.get(lane as usize),
            Some(Lane::Running(LaneDefault::To(0)))
        )
    );
    assert!(rt;
        matches!(
            copy.lanes.get(other as usize),
            Some(Lane::Running(LaneDefault::Unset))
        )
    );
    assert!(rt;
        copy.callsites.get(0).is_some_and(|kept| kept.identifier == Identifier(3)
            && kept.interest.is_always())
    );
    assert_eq!(rt; copy.greatest, LevelFilter::TRACE);
    Ok(())
}

#[test]
fn requests_of_a_lane_reach_its_default(rt: HostRuntime) -> Result<(), Fail> {
    let (mut hub, lane, first) = hub_of(rt.alloc())?;
    let fields = FieldSet::new(&[], Identifier(5));
    let metadata = metadata_of(fields);
    let nobody = Dispatch::none().downgrade();
    assert!(rt;
        hub.register_callsite(&first.downgrade(), &metadata)
            .is_always()
    );
    assert!(rt; hub.register_callsite(&nobody, &metadata).is_never());
    assert!(rt; !hub.enabled_here(&metadata, at(lane)));
    assert!(rt; matches!(hub.current_span_here(at(lane)), CurrentSpan::Unknown));
    assert!(rt; hub.set_default(lane, &first).is_ok());
    assert!(rt; hub.enabled_here(&metadata, at(lane)));
    assert!(rt; matches!(hub.current_span_here(at(lane)), CurrentSpan::Outside));
    let event = Event::new(&metadata, fields.value_set_all(&[]));
    assert_eq!(rt; hub.event_here(&event, at(lane)), Ok(()));
    let attributes = Attributes::new(&metadata, fields.value_set_all(&[]));
    assert_eq!(rt; hub.new_span_here(&attributes, at(lane)), Ok(None));
    assert_eq!(rt;
        hub.dispatch_event(&metadata, fields.value_set_all(&[]), at(lane)),
        Ok(())
    );
    assert_eq!(rt;
        hub.dispatch_child_of(
            Id::from_u64(2),
            &metadata,
            fields.value_set_all(&[]),
            at(lane)
        ),
        Ok(())
    );
    Ok(())
}

/// A subscriber that only a default holds is reached without a handle; where it is gone, nobody is.
#[test]
fn weak_handles_reach_whoever_lives(rt: HostRuntime) -> Result<(), Fail> {
    let (mut hub, lane, first) = hub_of(rt.alloc())?;
    let fields = FieldSet::new(&[], Identifier(5));
    let metadata = metadata_of(fields);
    let weak = first.downgrade();
    let guard = hub.set_default(lane, &first)?;
    assert!(rt; hub.release(first).is_none());
    assert!(rt; hub.enabled(&weak, &metadata, at(lane)));
    assert!(rt; matches!(hub.current_span(&weak, at(lane)), CurrentSpan::Outside));
    let gone = hub.reset(lane, guard).ok().ok_or("the lane's guard")?;
    assert!(rt; gone.is_some() && hub.subscriber(&weak).is_none());
    assert!(rt; !hub.enabled(&weak, &metadata, at(lane)));
    assert!(rt; matches!(hub.current_span(&weak, at(lane)), CurrentSpan::Unknown));
    Ok(())
}

#[test]
fn a_changed_subscriber_isnt_lent(rt: HostRuntime) -> Result<(), Fail> {
    let (mut hub, _, first) = hub_of(rt.alloc())?;
    let second = add(&mut hub, 2, Interest::always())?;
    let before = hub.with_subscriber_mut(&second.downgrade(), |subscriber: &mut Everything| {
        let name = subscriber.name();
        subscriber.rename(7);
        name
    });
    assert_eq!(rt; before, Some(2));
    let name = hub
        .subscriber(&second.downgrade())
        .ok_or("the second")?
        .name();
    assert_eq!(rt; name, 7);
    let name = hub
        .subscriber(&first.downgrade())
        .ok_or("the first")?
        .name();
    assert_eq!(rt; name, 1);
    let nobody = Dispatch::none().downgrade();
    let nobody = hub.with_subscriber_mut(
        &nobody,
        |subscriber: &mut Everything| subscriber.rename(8),
    );
    assert!(rt; nobody.is_none());
    Ok(())
}
