// Callsites that are lent their metadata, and boxes of one kind of subscriber.
use crate::tests::hub::everything::Everything;
use crate::tests::hub::owned_callsite::OwnedCallsite;
use crate::tests::hub::{at, hub_of, metadata_of};
use crate::*;
use std::test::Fail;
use tracing_core_fields::{FieldSet, Identifier, Interest, Level};

#[test]
fn a_callsite_is_registered_once(rt: HostRuntime) -> Result<(), Fail> {
    let metadata = metadata_of(FieldSet::new(&[], Identifier(5)));
    let mut site = DefaultCallsite::new(&metadata);
    let mut hub: Hub<Everything, DefaultCallsite<'_>> = Hub::new(rt.alloc());
    assert!(rt;
        site.register(&mut hub)
            .is_ok_and(|interest| interest.is_never())
    );
    assert!(rt; hub.add(Everything::new(1, Interest::always())).is_ok());
    assert!(rt;
        site.register(&mut hub)
            .is_ok_and(|interest| interest.is_always())
    );
    assert!(rt; site.interest().is_always());
    Ok(())
}

#[test]
fn a_box_of_one_kind_answers_what_is_in_it(rt: HostRuntime) -> Result<(), Fail> {
    let alloc = rt.alloc();
    let mut hub: Hub<Box<Everything>, OwnedCallsite> = Hub::new(alloc);
    let boxed = Box::new(alloc, Everything::new(1, Interest::always()))?;
    assert!(rt; hub.add(boxed).is_ok());
    assert_eq!(rt;
        hub.register(OwnedCallsite::new(3, Level::INFO)).ok(),
        Some(Interest::always())
    );
    Ok(())
}

#[test]
fn callsites_stand_at_an_index(rt: HostRuntime) -> Result<(), Fail> {
    let (mut hub, lane, first) = hub_of(rt.alloc())?;
    assert!(rt; hub.set_default(lane, &first).is_ok());
    assert!(rt; hub.index_of(Identifier(3)).is_none());
    assert!(rt; hub.register(OwnedCallsite::new(3, Level::INFO)).is_ok());
    assert!(rt; hub.register(OwnedCallsite::new(9, Level::WARN)).is_ok());
    let index = hub.index_of(Identifier(9)).ok_or("the second")?;
    assert!(rt;
        hub.index_of(Identifier(3))
            .is_some_and(|other| other != index)
    );
    // 9 isn't the number behind 3, so counting doesn't find it.
    assert_eq!(rt;
        hub.counted_index_of(Identifier(3)),
        hub.index_of(Identifier(3))
    );
    assert!(rt; hub.counted_index_of(Identifier(9)).is_none());
    assert!(rt;
        hub.interest_at(index)
            .is_some_and(|interest| interest.is_always())
    );
    let level = *hub.metadata_at(index).ok_or("its metadata")?.level();
    assert_eq!(rt; level, Level::WARN);
    assert_eq!(rt; hub.gate_at(index, at(lane)), Some(true));
    let empty: Hub<Everything, OwnedCallsite> = Hub::new(rt.alloc());
    assert!(rt; empty.interest_at(index).is_none() && empty.metadata_at(index).is_none());
    Ok(())
}
