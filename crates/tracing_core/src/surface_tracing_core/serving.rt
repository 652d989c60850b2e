// A hub of any subscriber, through its bound alone.
use crate::surface_tracing_core::{event_metadata, moment, span_metadata};
use crate::{Attributes, DefaultCallsite, FieldSet, Hub, Id, Identifier, NoSubscriber, Subscriber};
use std::alloc::Global;
use std::test::Fail;

// Whether an event is wanted, and the id of a span, where the lane's default is the subscriber.
fn serve<S: Subscriber>(alloc: Global, subscriber: S) -> Result<(Option<bool>, Option<Id>), Fail> {
    let event = event_metadata(3);
    let mut hub: Hub<S, DefaultCallsite<'_>> = Hub::new(alloc);
    let lane = hub.thread()?;
    let at = moment(lane);
    let handle = hub.add(subscriber).ok().ok_or("memory")?;
    hub.register(DefaultCallsite::new(&event))
        .ok()
        .ok_or("memory")?;
    hub.set_default(lane, &handle).ok().ok_or("a lane")?;
    let wanted = hub.gate(Identifier(3), at);
    let fields = FieldSet::new(&[], Identifier(4));
    let metadata = span_metadata(fields);
    let attributes = Attributes::new(&metadata, fields.value_set_all(&[]));
    let id = hub.new_span_here(&attributes, at).ok().ok_or("a span")?;
    Ok((wanted, id))
}

#[test]
fn surface_of_any_subscriber(rt: HostRuntime) -> Result<(), Fail> {
    let alloc = rt.alloc();
    let stated = (Some(false), Id::from_u64(0xDEAD));
    assert!(rt; serve(alloc, NoSubscriber::new())? == stated);
    let one = Box::new(alloc, NoSubscriber::new())?;
    assert!(rt; serve(alloc, one)? == stated);
    let any: Box<dyn Subscriber> = Box::new(alloc, NoSubscriber::new())?;
    assert!(rt; serve(alloc, any)? == stated);
    Ok(())
}
