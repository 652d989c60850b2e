// Calls within a lane's default.
use crate::tests::hub::hub_of;
use std::test::Fail;

#[test]
fn the_default_is_lent_once(rt: HostRuntime) -> Result<(), Fail> {
    let (mut hub, lane, first) = hub_of(rt.alloc())?;
    let done = hub.with_default(lane, &first, |hub| {
        hub.get_default(lane, |hub, dispatch| {
            let name = hub
                .subscriber(&dispatch.downgrade())
                .map(|subscriber| subscriber.name());
            let inner = hub.get_default(
                lane,
                |hub, dispatch| hub.subscriber(&dispatch.downgrade()).is_some(),
            );
            (name, inner, hub.get_current(lane, |_, _| ()).is_some())
        })
    })?;
    assert_eq!(rt; done.0, (Some(1), false, false));
    assert!(rt; done.1.is_ok_and(|released| released.is_none()));
    assert_eq!(rt;
        hub.get_current(
            lane,
            |hub, dispatch| hub.subscriber(&dispatch.downgrade()).is_some()
        ),
        Some(false)
    );
    assert!(rt; hub.with_default(lane + 1, &first, |_| ()).is_err());
    Ok(())
}
