// A hub, at one kind of subscriber and at boxes of any.
use crate::surface_tracing_core::{event_metadata, moment, span_metadata};
use crate::{
    At, Attributes, Callsite, CurrentSpan, DefaultCallsite, Dispatch, Event, FieldSet, Hub, Id,
    Identifier, Interest, Kind, LaneDefault, Level, LevelFilter, Metadata, NoSubscriber, Record,
    SetGlobalDefaultError, Subscriber, WrongLane,
};
use std::test::Fail;

#[test]
fn surface_hub_tables(rt: HostRuntime) -> Result<(), Fail> {
    let event = event_metadata(3);
    let mut hub: Hub<NoSubscriber, DefaultCallsite<'_>> = Hub::new(rt.alloc());
    let lane = hub.thread()?;
    let first = hub.add(NoSubscriber::new()).ok().ok_or("memory")?;
    let told = hub
        .register(DefaultCallsite::new(&event))
        .ok()
        .ok_or("memory")?;
    let again = hub
        .register(DefaultCallsite::new(&event))
        .ok()
        .ok_or("memory")?;
    assert!(rt;
        told.is_never() && again.is_never() && hub.gate(Identifier(3), moment(lane)) == Some(false)
    );
    hub.rebuild_interest_cache();
    hub.refresh();
    assert!(rt; hub.max_level() == LevelFilter::TRACE);
    assert_eq!(rt; hub.interest(Identifier(3)), Some(Interest::never()));
    assert!(rt;
        !hub.has_been_set() && hub.set_global_default(&first).is_ok() && hub.has_been_set()
    );
    assert_eq!(rt;
        hub.set_global_default(&first),
        Err(SetGlobalDefaultError::AlreadySet)
    );
    let copy = hub.table()?;
    assert!(rt; matches!(copy.global, LaneDefault::To(0)) && copy.lanes.len() == 1);
    assert!(rt; copy.handles.len() == 1 && copy.callsites.len() == 1);
    let kept = hub.callsites().first().ok_or("a callsite")?;
    assert_eq!(rt; kept.callsite().metadata().callsite(), Identifier(3));
    let added = hub.subscribers().first().ok_or("a subscriber")?;
    assert!(rt; added.serial() == 0 && added.handles() == 2);
    assert!(rt; hub.end_thread(lane)?.is_none() && hub.end_thread(lane).is_err());
    Ok(())
}

#[test]
fn surface_hub_handles(rt: HostRuntime) -> Result<(), Fail> {
    let mut hub: Hub<NoSubscriber, DefaultCallsite<'_>> = Hub::new(rt.alloc());
    let lane = hub.thread()?;
    let first = hub.add(NoSubscriber::new()).ok().ok_or("memory")?;
    let copy = hub.clone(&first)?;
    let weak = hub.downgrade(&first);
    let third = hub.upgrade(&weak)?.ok_or("it lives")?;
    assert!(rt; hub.subscriber(&weak).is_some() && hub.subscribers().len() == 1);
    assert!(rt; hub.subscriber_mut(&weak).is_some());
    let guard = hub.set_default(lane, &first)?;
    assert!(rt; matches!(guard.before(), LaneDefault::Unset) && guard.lane() == lane);
    let Err(WrongLane(guard)) = hub.reset(lane + 1, guard) else {
        panic!(&rt; "another lane took a guard");
    };
    assert!(rt; hub.reset(lane, guard).is_ok() && hub.release(copy).is_none());
    assert!(rt; hub.release(third).is_none() && hub.release(first).is_some());
    let nobody = Dispatch::none().downgrade();
    assert!(rt; hub.upgrade(&weak)?.is_none() && hub.subscriber(&nobody).is_none());
    Ok(())
}

#[test]
fn surface_hub_requests(rt: HostRuntime) -> Result<(), Fail> {
    let mut hub: Hub<NoSubscriber, DefaultCallsite<'_>> = Hub::new(rt.alloc());
    let lane = hub.thread()?;
    let fields = FieldSet::new(&[], Identifier(3));
    let metadata = span_metadata(fields);
    let values = fields.value_set_all(&[]);
    let counted = hub.add(NoSubscriber::new()).ok().ok_or("memory")?;
    let first = counted.downgrade();
    let attributes = Attributes::new(&metadata, values);
    let id = hub
        .new_span(&first, &attributes, moment(lane))?
        .ok_or("an id")?;
    assert!(rt; id.into_u64() == 0xDEAD && !hub.enabled(&first, &metadata, moment(lane)));
    assert!(rt; hub.register_callsite(&first, &metadata).is_never());
    hub.record(&first, &id, &Record::new(values), moment(lane))?;
    hub.record_follows_from(&first, &id, &id, moment(lane))?;
    hub.enter(&first, &id, moment(lane))?;
    assert!(rt; matches!(hub.current_span(&first, moment(lane)), CurrentSpan::Unknown));
    hub.exit(&first, &id, moment(lane));
    let event = Event::new(&metadata, values);
    assert!(rt; hub.event_enabled(&first, &event, moment(lane)));
    hub.event(&first, &event, moment(lane))?;
    let copy = hub.clone_span(&first, &id, moment(lane))?;
    assert!(rt; copy == id && !hub.try_close(&first, id, moment(lane)));
    hub.drop_span(&first, copy, moment(lane));
    Ok(())
}

#[test]
fn surface_hub_lanes(rt: HostRuntime) -> Result<(), Fail> {
    let alloc = rt.alloc();
    let event = event_metadata(3);
    let mut hub: Hub<Box<dyn Subscriber>, DefaultCallsite<'_>> = Hub::new(alloc);
    let lane = hub.thread()?;
    let fields = FieldSet::new(&[], Identifier(3));
    let metadata = span_metadata(fields);
    let values = fields.value_set_all(&[]);
    let none: Box<dyn Subscriber> = Box::new(alloc, NoSubscriber::new())?;
    let first = hub.add(none).ok().ok_or("memory")?;
    assert!(rt; hub.register(DefaultCallsite::new(&event)).is_ok());
    assert!(rt; hub.set_default(lane, &first).is_ok());
    let reached = hub.reached(lane);
    assert!(rt; hub.upgrade(&reached)?.is_some());
    assert!(rt; !hub.enabled_here(&metadata, moment(lane)));
    assert_eq!(rt; hub.gate(Identifier(3), moment(lane)), Some(false));
    hub.event_here(&Event::new(&metadata, values), moment(lane))?;
    let attributes = Attributes::new(&metadata, values);
    let made = hub.new_span_here(&attributes, moment(lane))?;
    assert!(rt; made == Id::from_u64(0xDEAD));
    assert!(rt; matches!(hub.current_span_here(moment(lane)), CurrentSpan::Unknown));
    hub.dispatch_event(&metadata, values, moment(lane))?;
    hub.dispatch_child_of(made, &metadata, values, moment(lane))?;
    Ok(())
}

#[test]
fn surface_hub_scopes(rt: HostRuntime) -> Result<(), Fail> {
    let alloc = rt.alloc();
    let mut hub: Hub<Box<NoSubscriber>, DefaultCallsite<'_>> = Hub::new(alloc);
    let lane = hub.thread()?;
    let boxed = Box::new(alloc, NoSubscriber::new())?;
    let first = hub.add(boxed).ok().ok_or("memory")?;
    let (found, reset) = hub.with_default(lane, &first, |hub| {
        hub.get_default(lane, |hub, dispatch| {
            let found = hub.subscriber(&dispatch.downgrade()).is_some();
            let again = hub.get_default(
                lane,
                |hub, inner| hub.subscriber(&inner.downgrade()).is_some(),
            );
            (found, again, hub.get_current(lane, |_, _| ()).is_some())
        })
    })?;
    assert_eq!(rt; found, (true, false, false));
    assert!(rt; reset.is_ok());
    let outside = hub.get_current(
        lane,
        |hub, dispatch| hub.subscriber(&dispatch.downgrade()).is_some(),
    );
    assert_eq!(rt; outside, Some(false));
    Ok(())
}

#[test]
fn surface_callsites_register(rt: HostRuntime) {
    let metadata = span_metadata(FieldSet::new(&[], Identifier(5)));
    let mut site = DefaultCallsite::new(&metadata);
    let mut hub: Hub<NoSubscriber, DefaultCallsite<'_>> = Hub::new(rt.alloc());
    assert!(rt;
        site.register(&mut hub)
            .is_ok_and(|interest| interest.is_never())
    );
    assert!(rt; site.register(&mut hub).is_ok() && site.interest().is_never());
}

#[test]
fn surface_callsites(rt: HostRuntime) {
    let metadata = span_metadata(FieldSet::new(&[], Identifier(5)));
    let mut site = DefaultCallsite::new(&metadata);
    assert!(rt; site.interest().is_never());
    site.set_interest(Interest::always());
    assert!(rt; site.interest().is_always() && site.metadata() == metadata);
}
