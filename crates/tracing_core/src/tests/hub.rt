use crate::*;
use std::alloc::Global;
use std::test::Fail;
use tracing_core_fields::{FieldSet, Id, Identifier, Kind, Level, LevelFilter, Metadata};

mod asking;
mod everything;
mod indexed;
mod listener;
mod owned_callsite;
mod reaching;
mod registering;
mod running;
mod scoped;

use everything::Everything;
use owned_callsite::OwnedCallsite;
use tracing_core_fields::{
    Attributes, Callsite, CurrentSpan, Event, Interest, NoSubscriber, Record, RequestError,
    Subscriber,
};
use tracing_core_moments::At;

fn at(lane: u64) -> At {
    At {
        lane,
        seconds: 0,
        nanoseconds: 0,
    }
}

/// One more subscriber, by its name and its interest in all callsites.
fn add<C: Callsite>(
    hub: &mut Hub<Everything, C>,
    name: u64,
    interest: Interest,
) -> Result<Dispatch, Fail> {
    Ok(
        hub.add(Everything::new(name, interest))
            .ok()
            .ok_or("a hub")?,
    )
}

/// A hub with a lane and one subscriber, which wants all.
fn hub_of(alloc: Global) -> Result<(Hub<Everything, OwnedCallsite>, u64, Dispatch), Fail> {
    let mut hub = Hub::new(alloc);
    let lane = hub.thread()?;
    let first = add(&mut hub, 1, Interest::always())?;
    Ok((hub, lane, first))
}

#[test]
fn two_subscribers_differ(rt: HostRuntime) -> Result<(), Fail> {
    let mut hub: Hub<Everything, OwnedCallsite> = Hub::new(rt.alloc());
    let lane = hub.thread()?;
    assert_eq!(rt; hub.max_level(), LevelFilter::OFF);
    assert_eq!(rt;
        hub.register(OwnedCallsite::new(3, Level::INFO)).ok(),
        Some(Interest::never())
    );
    let first = add(&mut hub, 1, Interest::always())?;
    assert_eq!(rt; hub.interest(Identifier(3)), Some(Interest::always()));
    assert_eq!(rt; hub.gate(Identifier(3), at(lane)), Some(false));
    let second = add(&mut hub, 2, Interest::never())?;
    assert_eq!(rt; hub.interest(Identifier(3)), Some(Interest::sometimes()));
    assert_eq!(rt; hub.max_level(), LevelFilter::TRACE);
    assert!(rt; hub.release(second).is_some());
    hub.rebuild_interest_cache();
    assert_eq!(rt; hub.interest(Identifier(3)), Some(Interest::always()));
    assert!(rt; hub.release(first).is_some());
    hub.refresh();
    assert_eq!(rt; hub.interest(Identifier(3)), Some(Interest::never()));
    assert_eq!(rt; hub.max_level(), LevelFilter::OFF);
    Ok(())
}

#[test]
fn callsites_register_once(rt: HostRuntime) -> Result<(), Fail> {
    let mut hub: Hub<Everything, OwnedCallsite> = Hub::new(rt.alloc());
    let lane = hub.thread()?;
    assert_eq!(rt;
        hub.register(OwnedCallsite::new(4, Level::WARN)).ok(),
        Some(Interest::never())
    );
    assert_eq!(rt;
        hub.register(OwnedCallsite::new(4, Level::WARN)).ok(),
        Some(Interest::never())
    );
    assert!(rt;
        matches!(
            hub.register(OwnedCallsite::new(4, Level::INFO)),
            Err(RegisterError::Taken(_))
        )
    );
    assert_eq!(rt; hub.gate(Identifier(9), at(lane)), None);
    Ok(())
}

#[test]
fn the_global_default_is_set_once(rt: HostRuntime) -> Result<(), Fail> {
    let (mut hub, lane, first) = hub_of(rt.alloc())?;
    let second = add(&mut hub, 2, Interest::never())?;
    assert_eq!(rt;
        hub.register(OwnedCallsite::new(3, Level::INFO)).ok(),
        Some(Interest::sometimes())
    );
    assert_eq!(rt; hub.gate(Identifier(3), at(lane)), Some(false));
    assert!(rt; !hub.has_been_set());
    assert_eq!(rt; hub.set_global_default(&first), Ok(()));
    assert_eq!(rt;
        hub.set_global_default(&second),
        Err(SetGlobalDefaultError::AlreadySet)
    );
    assert!(rt; hub.has_been_set());
    assert_eq!(rt; hub.gate(Identifier(3), at(lane)), Some(true));
    Ok(())
}

#[test]
fn weak_handles_keep_nobody(rt: HostRuntime) -> Result<(), Fail> {
    let mut hub: Hub<Everything, OwnedCallsite> = Hub::new(rt.alloc());
    let first = add(&mut hub, 2, Interest::never())?;
    let weak = hub.downgrade(&first);
    assert!(rt;
        hub.subscriber(&first.downgrade())
            .is_some_and(|subscriber| subscriber.name() == 2)
    );
    let second = hub.upgrade(&weak)?.ok_or("it lives")?;
    assert!(rt; hub.release(first).is_none());
    assert!(rt;
        hub.release(second)
            .is_some_and(|subscriber| subscriber.name() == 2)
    );
    assert!(rt; hub.upgrade(&weak)?.is_none());
    Ok(())
}

#[test]
fn guards_are_spent_in_any_order(rt: HostRuntime) -> Result<(), Fail> {
    let alloc = rt.alloc();
    let mut hub: Hub<Everything, OwnedCallsite> = Hub::new(alloc);
    let lane = hub.thread()?;
    let other = hub.thread()?;
    let first = add(&mut hub, 1, Interest::always())?;
    let second = add(&mut hub, 2, Interest::never())?;
    let outer = hub.set_default(lane, &first)?;
    let inner = hub.set_default(lane, &second)?;
    assert!(rt; hub.release(first).is_none());
    assert!(rt; hub.release(second).is_none());
    let Err(WrongLane(outer)) = hub.reset(other, outer) else {
        panic!(&rt; "another lane took a guard");
    };
    let gone = hub.reset(lane, outer).ok().ok_or("the lane's guard")?;
    assert!(rt; gone.is_some_and(|subscriber| subscriber.name() == 2));
    assert!(rt; hub.subscriber(&Dispatch::none().downgrade()).is_none());
    let kept = hub.reset(lane, inner).ok().ok_or("the lane's guard")?;
    assert!(rt; kept.is_none());
    let last = hub.end_thread(lane)?;
    assert!(rt; last.is_some_and(|subscriber| subscriber.name() == 1));
    assert!(rt; hub.end_thread(lane).is_err());
    assert!(rt;
        matches!(
            hub.set_default(lane, &Dispatch::none()),
            Err(SetDefaultError::UnknownLane)
        )
    );
    Ok(())
}

#[test]
fn boxes_answer_what_is_in_them(rt: HostRuntime) -> Result<(), Fail> {
    let alloc = rt.alloc();
    let mut hub: Hub<Box<dyn Subscriber>, OwnedCallsite> = Hub::new(alloc);
    let lane = hub.thread()?;
    let every: Box<dyn Subscriber> = Box::new(alloc, Everything::new(1, Interest::always()))?;
    let none: Box<dyn Subscriber> = Box::new(alloc, NoSubscriber::new())?;
    let first = hub.add(every).ok().ok_or("a hub")?;
    assert_eq!(rt;
        hub.register(OwnedCallsite::new(3, Level::INFO)).ok(),
        Some(Interest::always())
    );
    let second = hub.add(none).ok().ok_or("a hub")?;
    hub.refresh();
    assert_eq!(rt; hub.interest(Identifier(3)), Some(Interest::sometimes()));
    let guard = hub.set_default(lane, &second)?;
    assert_eq!(rt; hub.gate(Identifier(3), at(lane)), Some(false));
    assert!(rt; hub.reset(lane, guard).is_ok());
    let copy = hub.clone(&first)?;
    assert!(rt; hub.release(copy).is_none());
    assert!(rt; hub.release(second).is_some());
    assert!(rt; hub.release(first).is_some());
    Ok(())
}

fn metadata_of<'a>(fields: FieldSet<'a>) -> Metadata<'a> {
    let (level, line) = (Level::INFO, Some(7));
    Metadata::new("made", "app", level, None, line, None, fields, Kind::EVENT)
}

#[test]
fn callsites_keep_what_they_are_told(rt: HostRuntime) -> Result<(), Fail> {
    let metadata = metadata_of(FieldSet::new(&[], Identifier(5)));
    let mut site = DefaultCallsite::new(&metadata);
    assert!(rt; site.interest().is_never());
    site.set_interest(Interest::always());
    assert!(rt; site.interest().is_always());
    assert_eq!(rt; site.metadata().line(), Some(7));
    assert!(rt; site.metadata() == metadata);
    Ok(())
}

#[test]
fn requests_reach_the_handle(rt: HostRuntime) -> Result<(), Fail> {
    let (mut hub, lane, first) = hub_of(rt.alloc())?;
    let fields = FieldSet::new(&[], Identifier(5));
    let metadata = metadata_of(fields);
    let first = first.downgrade();
    let nobody = Dispatch::none().downgrade();
    let id = Id::from_u64(4).ok_or("an id")?;
    assert!(rt; hub.enabled(&first, &metadata, at(lane)));
    assert!(rt; !hub.enabled(&nobody, &metadata, at(lane)));
    assert_eq!(rt;
        hub.enter(&first, &id, at(lane)),
        Err(RequestError::UnknownSpan)
    );
    assert_eq!(rt; hub.enter(&nobody, &id, at(lane)), Ok(()));
    hub.exit(&first, &id, at(lane));
    assert_eq!(rt;
        hub.record_follows_from(&first, &id, &id, at(lane)),
        Err(RequestError::UnknownSpan)
    );
    assert_eq!(rt; hub.clone_span(&first, &id, at(lane)), Ok(id));
    assert!(rt; !hub.try_close(&first, id, at(lane)));
    hub.drop_span(&first, id, at(lane));
    assert!(rt; matches!(hub.current_span(&first, at(lane)), CurrentSpan::Outside));
    assert!(rt; matches!(hub.current_span(&nobody, at(lane)), CurrentSpan::Unknown));
    if let Some(subscriber) = hub.subscriber_mut(&first) {
        subscriber.rename(7);
    }
    assert!(rt;
        hub.subscriber(&first)
            .is_some_and(|subscriber| subscriber.name() == 7)
    );
    Ok(())
}

#[test]
fn events_and_spans_reach_the_handle(rt: HostRuntime) -> Result<(), Fail> {
    let mut hub: Hub<Everything, OwnedCallsite> = Hub::new(rt.alloc());
    let fields = FieldSet::new(&[], Identifier(5));
    let metadata = metadata_of(fields);
    let first = add(&mut hub, 1, Interest::always())?;
    let first = first.downgrade();
    let nobody = Dispatch::none().downgrade();
    let id = Id::from_u64(4).ok_or("an id")?;
    let values = fields.value_set_all(&[]);
    let event = Event::new(&metadata, values);
    assert!(rt; hub.event_enabled(&first, &event, at(0)));
    assert_eq!(rt; hub.event(&first, &event, at(0)), Ok(()));
    let record = Record::new(fields.value_set_all(&[]));
    assert_eq!(rt;
        hub.record(&first, &id, &record, at(0)),
        Err(RequestError::UnknownSpan)
    );
    let attributes = Attributes::new(&metadata, fields.value_set_all(&[]));
    assert_eq!(rt; hub.new_span(&first, &attributes, at(0)), Ok(None));
    assert_eq!(rt;
        hub.new_span(&nobody, &attributes, at(0)),
        Ok(Id::from_u64(0xDEAD))
    );
    Ok(())
}
