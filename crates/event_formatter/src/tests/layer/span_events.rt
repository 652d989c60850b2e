// The events of a span itself.
use super::*;

#[test]
fn active_spans_tell_entries_and_exits(rt: HostRuntime) -> Result<(), Fail> {
    let layer = plain(rt.alloc(), 1)?.with_span_events(FmtSpan::ACTIVE);
    let mut tree = over_registry(rt.alloc(), layer)?;
    let span = enter_span(&mut tree, "span1")?;
    tree.exit(&span, moment(0));
    tree.try_close(span, moment(0));
    assert!(rt;
        has_lines(
            tree.layer(),
            &[
                "fake time span1{x=42}: app: enter\n",
                "fake time span1{x=42}: app: exit\n",
            ]
        )
    );
    Ok(())
}

#[test]
fn a_close_tells_busy_and_idle(rt: HostRuntime) -> Result<(), Fail> {
    let layer = plain(rt.alloc(), 1)?.with_span_events(FmtSpan::NEW | FmtSpan::CLOSE);
    let mut tree = over_registry(rt.alloc(), layer)?;
    let span = make(&mut tree, "span1", &[], moment(0))?;
    tree.try_close(span, moment(9_995));
    let span = make(&mut tree, "span2", &[], moment(0))?;
    tree.try_close(span, moment(999_500));
    let span = make(&mut tree, "span3", &[], moment(0))?;
    tree.enter(&span, moment(100))?;
    tree.exit(&span, moment(350));
    let last = At {
        lane: 0,
        seconds: 1000,
        nanoseconds: 500_000_250,
    };
    tree.try_close(span, last);
    assert!(rt;
        has_lines(
            tree.layer(),
            &[
                "fake time span1: app: new\n",
                "fake time span1: app: close time.busy=0.00ns time.idle=10.00µs\n",
                "fake time span2: app: new\n",
                "fake time span2: app: close time.busy=0.00ns time.idle=1000µs\n",
                "fake time span3: app: new\n",
                "fake time span3: app: close time.busy=250ns time.idle=1000s\n",
            ]
        )
    );
    Ok(())
}

#[test]
fn closes_without_a_timer_have_no_times(rt: HostRuntime) -> Result<(), Fail> {
    let layer = plain(rt.alloc(), 1)?
        .with_span_events(FmtSpan::CLOSE)
        .without_time();
    let tree = layer.with_subscriber(Registry::new(rt.alloc()));
    let mut tree = tree.ok().ok_or("room")?;
    let span = enter_span(&mut tree, "span1")?;
    tree.exit(&span, moment(0));
    tree.try_close(span, moment(0));
    let lines = tree.layer().writer().lines.as_slice();
    assert!(rt; lines.len() == 1 && lines[0].as_str() == "span1{x=42}: app: close\n");
    Ok(())
}
