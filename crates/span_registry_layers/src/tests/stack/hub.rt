// What a hub keeps of a stack.
use super::*;
use tracing_core::Dispatch;

/// A hub with a stack of two outputs, which pass INFO and DEBUG.
fn hub_of<'a>(alloc: Global) -> Result<(Hub<Stack<Counted>, DefaultCallsite<'a>>, Dispatch), Fail> {
    let mut outputs = Vec::new(alloc);
    push_output(&mut outputs, 1, new_counter(), LevelFilter::INFO)?;
    push_output(&mut outputs, 2, new_counter(), LevelFilter::DEBUG)?;
    let mut hub = Hub::new(alloc);
    let stack = Stack::new(alloc, outputs).ok().ok_or("a stack")?;
    let handle = hub.add(stack).ok().ok_or("a handle")?;
    Ok((hub, handle))
}

#[test]
fn a_hub_keeps_what_a_stack_says(rt: HostRuntime) -> Result<(), Fail> {
    let info = metadata_at(1, "e", "app", Level::INFO, Kind::EVENT);
    let debug = metadata_at(2, "e", "app", Level::DEBUG, Kind::EVENT);
    let trace = metadata_at(3, "e", "app", Level::TRACE, Kind::EVENT);
    let (mut hub, handle) = hub_of(rt.alloc())?;
    let lane = hub.thread()?;
    assert!(rt; hub.set_global_default(&handle).is_ok());
    assert!(rt; hub.max_level() == LevelFilter::DEBUG);
    let low = hub.register(DefaultCallsite::new(&info)).ok();
    let middle = hub.register(DefaultCallsite::new(&debug)).ok();
    let high = hub.register(DefaultCallsite::new(&trace)).ok();
    let (low, middle) = (low.ok_or("room")?, middle.ok_or("room")?);
    let high = high.ok_or("room")?;
    assert!(rt; low.is_always() && middle.is_sometimes() && high.is_never());
    let at = At {
        lane,
        seconds: 0,
        nanoseconds: 0,
    };
    assert_eq!(rt; hub.gate(Identifier(2), at), Some(true));
    assert_eq!(rt; hub.gate(Identifier(3), at), Some(false));
    Ok(())
}

#[test]
fn surface_hubs_of_stacks(rt: HostRuntime) -> Result<(), Fail> {
    let stack = counted(rt.alloc(), LevelFilter::INFO)?;
    let mut hub: Hub<Stack<Counted>, DefaultCallsite> = Hub::new(rt.alloc());
    let handle = hub.add(stack).ok().ok_or("a handle")?;
    // Attached once, and once told that the hub took the stack.
    let stack = hub.subscriber(&handle.downgrade()).ok_or("the stack")?;
    assert!(rt; told(stack) == 2);
    Ok(())
}
