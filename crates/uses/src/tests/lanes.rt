//! Lanes in threads of their own.
ghost use Rattle.std.specs.Prelude.{◌≡◌};

use crate::lanes::{LanesError, run_in_threads};
use crate::program::open_trace;
use span_tracing::{EventCall, FieldValue, Moment, OwnedValue, Parent, Reply, Site, Step};
use std::alloc::{AllocError, AllocGlobal, Global};
use std::marker::Brand;
use std::process::Abort;
use std::sync::Wait;
use std::sync::ledger::{Blank, Ledger};
use std::test::Fail;
use std::thread::Threads;
use tracing_core::{Level, LevelFilter};

const MONDAY: Moment = Moment {
    seconds: 1_739_786_460,
    nanoseconds: 0,
};

/// Events of a lane with numbers from 0.
fn events(alloc: Global, lane: usize, site: Site, count: u64) -> Result<Vec<Step>, AllocError> {
    let mut steps = Vec::new(alloc);
    for number in 0..count {
        let value = FieldValue {
            field: 0,
            value: OwnedValue::U64(number),
        };
        steps.push(Step::Event(EventCall {
            lane,
            moment: MONDAY,
            callsite: site.identifier,
            parent: Parent::Contextual,
            values: vec![in alloc; value]?,
        }))?;
    }
    Ok(steps)
}

fn ran<L: Ledger + Send + Sync, R: Abort + AllocGlobal + Threads + Wait + Sync>(
    rt: &R,
    blank: Blank,
) -> Result<(), Fail>
    requires { (blank.name ≡ L.name) × (blank.parts ≡ L.parts) × (blank.parts ≡ 4) }
{
    let alloc = rt.alloc();
    let mut trace = open_trace(alloc, "app", LevelFilter::INFO, MONDAY)?;
    let _second = trace.thread(None, 2)?;
    let _third = trace.thread(None, 3)?;
    let site = Site::event(&mut trace, "app", "e", Level::INFO, &["n"])?;
    let mut lists = Vec::new(alloc);
    for lane in 0..3usize {
        lists.push(events(alloc, lane, site, 20)?)?;
    }
    let closed = match run_in_threads::<L, R>(rt, blank, 4, trace, lists.as_slice()) {
        Ok(closed) => closed,
        Err(LanesError::OutOfMemory) => return Err("out of memory".into()),
        Err(_) => return Err("a lane didn't run to its end".into()),
    };
    assert_eq!(rt; closed.journal.len(), 60);
    for entry in closed.journal.as_slice() {
        assert_eq!(rt; entry.reply, Reply::Done);
    }
    assert_eq!(rt; closed.trace.lost(0), Some(0));
    Ok(())
}

#[test]
fn three_lanes_log_in_threads(rt: HostRuntime) -> Result<(), Fail> {
    ran::<Brand, HostRuntime>(&rt, Blank::new(4))
}
