// Who is asked, and what is kept of the answers.
use crate::tests::hub::everything::Everything;
use crate::tests::hub::owned_callsite::OwnedCallsite;
use crate::tests::hub::{add, at};
use crate::*;
use std::alloc::Global;
use std::test::Fail;
use tracing_core_fields::{Identifier, Interest, Level, LevelFilter};

type TestHub = Hub<Everything, OwnedCallsite>;

/// A hub with two subscribers and the callsites 3 and 4.
fn two_and_two(
    alloc: Global,
    one: Interest,
    other: Interest,
) -> Result<(TestHub, Dispatch, Dispatch), Fail> {
    let mut hub: TestHub = Hub::new(alloc);
    let first = add(&mut hub, 1, one)?;
    let second = add(&mut hub, 2, other)?;
    assert_registered(&mut hub, 3)?;
    assert_registered(&mut hub, 4)?;
    Ok((hub, first, second))
}

fn assert_registered(hub: &mut TestHub, identifier: u64) -> Result<(), Fail> {
    match hub.register(OwnedCallsite::new(identifier, Level::INFO)) {
        Ok(_) => Ok(()),
        Err(_) => Err("not registered".into()),
    }
}

fn questions(hub: &TestHub, dispatch: &Dispatch) -> Result<u64, Fail> {
    Ok(
        hub.subscriber(&dispatch.downgrade())
            .ok_or("it is gone")?
            .questions(),
    )
}

fn change(hub: &mut TestHub, dispatch: &Dispatch, interest: Interest) -> Result<(), Fail> {
    hub.subscriber_mut(&dispatch.downgrade())
        .ok_or("it is gone")?
        .say(interest);
    Ok(())
}

#[test]
fn a_rebuild_asks_everyone(rt: HostRuntime) -> Result<(), Fail> {
    let (mut hub, first, second) = two_and_two(rt.alloc(), Interest::always(), Interest::never())?;
    let before = (questions(&hub, &first)?, questions(&hub, &second)?);
    hub.rebuild_interest_cache();
    // of both callsites, and for the hint
    assert_eq!(rt; questions(&hub, &first)?, before.0 + 3);
    assert_eq!(rt; questions(&hub, &second)?, before.1 + 3);
    Ok(())
}

#[test]
fn a_new_callsite_is_asked_of_once(rt: HostRuntime) -> Result<(), Fail> {
    let (mut hub, first, second) = two_and_two(rt.alloc(), Interest::always(), Interest::never())?;
    let before = (questions(&hub, &first)?, questions(&hub, &second)?);
    assert_registered(&mut hub, 5)?;
    assert_registered(&mut hub, 5)?;
    assert_eq!(rt; questions(&hub, &first)?, before.0 + 1);
    assert_eq!(rt; questions(&hub, &second)?, before.1 + 1);
    Ok(())
}

#[test]
fn a_release_asks_nobody(rt: HostRuntime) -> Result<(), Fail> {
    let (mut hub, first, second) = two_and_two(rt.alloc(), Interest::always(), Interest::never())?;
    let before = questions(&hub, &first)?;
    assert!(rt; hub.release(second).is_some());
    assert_eq!(rt; questions(&hub, &first)?, before);
    assert_eq!(rt; hub.interest(Identifier(3)), Some(Interest::sometimes()));
    assert_eq!(rt; hub.max_level(), LevelFilter::TRACE);
    hub.refresh();
    assert_eq!(rt; hub.interest(Identifier(3)), Some(Interest::always()));
    assert!(rt; hub.release(first).is_some());
    assert_eq!(rt; hub.interest(Identifier(3)), Some(Interest::always()));
    assert_eq!(rt; hub.max_level(), LevelFilter::TRACE);
    Ok(())
}

/// What is kept of the callsites 3 and 4, and the greatest level.
fn kept(hub: &TestHub) -> (Option<Interest>, Option<Interest>, LevelFilter) {
    (
        hub.interest(Identifier(3)),
        hub.interest(Identifier(4)),
        hub.max_level(),
    )
}

/// Swaps the first subscriber, and refreshes. Only the first is asked, of both callsites and for its hint.
fn is_swapped_alone(
    hub: &mut TestHub,
    first: &Dispatch,
    second: &Dispatch,
    interest: Interest,
) -> Result<bool, Fail> {
    change(hub, first, interest)?;
    let before = (questions(hub, first)?, questions(hub, second)?);
    hub.refresh();
    Ok(questions(hub, first)? == before.0.wrapping_add(3) && questions(hub, second)? == before.1)
}

#[test]
fn a_refresh_leaves_what_a_rebuild_does(rt: HostRuntime) -> Result<(), Fail> {
    let (mut hub, first, second) = two_and_two(rt.alloc(), Interest::always(), Interest::never())?;
    assert!(rt; is_swapped_alone(&mut hub, &first, &second, Interest::never())?);
    let refreshed = kept(&hub);
    let never = Some(Interest::never());
    assert_eq!(rt; refreshed, (never, never, LevelFilter::TRACE));
    hub.rebuild_interest_cache();
    assert_eq!(rt; kept(&hub), refreshed);
    assert!(rt; is_swapped_alone(&mut hub, &first, &second, Interest::sometimes())?);
    let refreshed = kept(&hub);
    let sometimes = Some(Interest::sometimes());
    assert_eq!(rt; refreshed, (sometimes, sometimes, LevelFilter::TRACE));
    hub.rebuild_interest_cache();
    assert_eq!(rt; kept(&hub), refreshed);
    Ok(())
}

#[test]
fn a_new_subscriber_is_asked_alone(rt: HostRuntime) -> Result<(), Fail> {
    let (mut hub, first, second) = two_and_two(rt.alloc(), Interest::always(), Interest::always())?;
    let before = (questions(&hub, &first)?, questions(&hub, &second)?);
    assert!(rt; hub.release(second).is_some());
    let third = add(&mut hub, 3, Interest::always())?;
    assert_eq!(rt; questions(&hub, &first)?, before.0);
    assert_eq!(rt; questions(&hub, &third)?, 3);
    // What was kept of the third is of both callsites, and goes on with a callsite more.
    assert_registered(&mut hub, 5)?;
    hub.refresh();
    assert_eq!(rt; questions(&hub, &third)?, 4);
    let always = Some(Interest::always());
    assert_eq!(rt; kept(&hub), (always, always, LevelFilter::TRACE));
    assert_eq!(rt; hub.interest(Identifier(5)), always);
    Ok(())
}

/// What is kept of the first subscriber is right of it as it became, though it was asked before. After a refresh it is right
/// of it too, since whoever was changed without a mark is asked again.
#[test]
fn a_refresh_keeps_right_what_was_right(rt: HostRuntime) -> Result<(), Fail> {
    let (mut hub, first, second) = two_and_two(
        rt.alloc(),
        Interest::never(),
        Interest::sometimes(),
    )?;
    let lane = hub.thread()?;
    assert!(rt; hub.set_default(lane, &first).is_ok());
    let changed = hub.with_subscriber_mut(
        &first.downgrade(),
        |subscriber| subscriber.say(Interest::always()),
    );
    assert!(rt; changed.is_some());
    assert_eq!(rt; hub.gate(Identifier(3), at(lane)), Some(true));
    change(&mut hub, &second, Interest::never())?;
    hub.refresh();
    assert_eq!(rt; hub.interest(Identifier(3)), Some(Interest::sometimes()));
    assert_eq!(rt; hub.gate(Identifier(3), at(lane)), Some(true));
    Ok(())
}
