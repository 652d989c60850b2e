// A copy of what decides replies.
use super::*;
use span_tracing_skeleton::DefaultCall;
use tracing_core::{Lane, LaneDefault};

#[test]
fn a_copy_says_what_decides_replies(rt: HostRuntime) -> Result<(), Fail> {
    let mut parts = set_parts(rt.alloc(), None)?;
    let name = made(&mut parts)?;
    assert_eq!(rt; parts.enter(&call_on(Some(name))), Reply::Done);
    let nowhere = DefaultCall {
        lane: 0,
        handle: None,
    };
    assert_eq!(rt; parts.set_default(&nowhere), Reply::Guard(0));
    assert_eq!(rt; parts.clone_handle(0), Reply::Handle(1));
    assert_eq!(rt; parts.release(0), Reply::Done);
    assert_eq!(rt; parts.lane_count(), 2);
    let copy = parts.table()?;
    assert!(rt; copy.given == 1 && copy.outputs.len() == 1 && copy.sinks.len() == 1);
    assert!(rt; matches!(copy.global, LaneDefault::To(0)));
    assert!(rt;
        matches!(
            copy.lanes.as_slice(),
            [
                Lane::Running(LaneDefault::Nothing),
                Lane::Running(LaneDefault::Unset)
            ]
        )
    );
    assert!(rt; matches!(copy.handles.as_slice(), [None, Some(0)]));
    let [Some(guard)] = copy.guards.as_slice() else {
        return Err("a guard".into());
    };
    assert!(rt; guard.lane == 0 && matches!(guard.restores, LaneDefault::Unset));
    let [_, event, _] = copy.callsites.as_slice() else {
        return Err("three callsites".into());
    };
    assert_eq!(rt; event.fields().callsite(), Identifier(EVENT));
    let [stack] = copy.stacks.as_slice() else {
        return Err("a stack".into());
    };
    assert!(rt; stack.number == 0 && stack.holds == 2);
    let [span] = stack.registry.spans.as_slice() else {
        return Err("a span".into());
    };
    assert!(rt; span.kin.id == id_of(name) && stack.registry.lanes.len() == 2);
    Ok(())
}
