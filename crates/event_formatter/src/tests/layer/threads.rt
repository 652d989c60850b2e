// Threads in lines.
use super::*;

// The same moment on another lane.
fn on_lane(lane: u64) -> At {
    At {
        lane,
        seconds: 0,
        nanoseconds: 0,
    }
}

#[test]
fn names_are_padded_to_the_longest(rt: HostRuntime) -> Result<(), Fail> {
    let alloc = rt.alloc();
    let mut layer = plain(alloc, 1)?.with_thread_names(true);
    layer.thread(Some(String::from_str(alloc, "main")?), 1)?;
    layer.thread(Some(String::from_str(alloc, "worker")?), 2)?;
    layer.thread(None, 3)?;
    let mut tree = over_registry(alloc, layer)?;
    let hi = [Some(AnyValue::Str("hi"))];
    for lane in [0, 1, 0, 2, 3] {
        tell(&mut tree, &hi, on_lane(lane))?;
    }
    assert!(rt;
        has_lines(
            tree.layer(),
            &[
                "fake time main app: hi\n",
                "fake time worker app: hi\n",
                "fake time   main app: hi\n",
                "fake time ThreadId(03) app: hi\n",
                "fake time ThreadId(03) app: hi\n",
            ]
        )
    );
    Ok(())
}
