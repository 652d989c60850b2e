//! What the macros compute, and what they leave.

use crate::program::open_trace;
use span_tracing::value::Lend;
use span_tracing::{CallError, Moment, Site, event, span};
use std::cell::Cell;
use std::test::Fail;
use tracing_core::{Level, LevelFilter};

/// 2025-02-17T10:01:00Z.
const MONDAY: Moment = Moment {
    seconds: 1_739_786_460,
    nanoseconds: 0,
};

// Counts how often it is asked, and answers that.
fn next(count: &Cell<u64>) -> u64 {
    count.set(count.get().wrapping_add(1));
    count.get()
}

#[test]
fn no_value_is_computed_where_nobody_is_interested(rt: HostRuntime) -> Result<(), Fail> {
    let opened = open_trace(rt.alloc(), "app", LevelFilter::INFO, MONDAY);
    let mut trace = opened.ok().ok_or("a trace")?;
    let detail = Site::event(&mut trace, "app", "detail", Level::DEBUG, &["n"])?;
    let served = Site::event(&mut trace, "app", "served", Level::INFO, &["n"])?;
    let request = Site::span(&mut trace, "app", "request", Level::DEBUG, &["n"])?;
    let count = Cell::new(0);
    assert_eq!(rt; event!(trace, 0, MONDAY, detail, n = next(&count)), Ok(()));
    // there neither the lane nor the name of a field is looked at
    assert_eq!(rt;
        event!(trace, 9, MONDAY, detail, other = next(&count)),
        Ok(())
    );
    assert_eq!(rt; span!(trace, 0, MONDAY, request, n = next(&count))?, None);
    assert_eq!(rt; count.get(), 0);
    assert_eq!(rt; event!(trace, 0, MONDAY, served, n = next(&count)), Ok(()));
    assert_eq!(rt; count.get(), 1);
    // a name that isn't there is found before the values behind it are computed
    let lost = event!(trace, 0, MONDAY, served, other = 1_u64, n = next(&count));
    assert_eq!(rt; lost, Err(CallError::NoField("other")));
    assert_eq!(rt; count.get(), 1);
    Ok(())
}

#[test]
fn bytes_are_literals(rt: HostRuntime) -> Result<(), Fail> {
    let opened = open_trace(rt.alloc(), "app", LevelFilter::INFO, MONDAY);
    let mut trace = opened.ok().ok_or("a trace")?;
    let served = Site::event(&mut trace, "app", "served", Level::INFO, &["body"])?;
    assert_eq!(rt;
        event!(trace, 0, MONDAY, served, body = b"\x01\xff"),
        Ok(())
    );
    let sink = trace.sink(0).ok_or("a sink")?;
    let files = sink.appender().ok_or("a folder")?.folder().files()?;
    let file = files.first().ok_or("a file")?;
    assert!(rt; file.bytes == b" INFO app: body=[01 ff]\n".as_slice());
    Ok(())
}
