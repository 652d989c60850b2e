//! A queue of one line, what waits beside it, and a mark with a line behind it. The texts of the files were written down before.

use crate::{AdmitError, Fate, MarkError, QueuedSink, Waiting};
use std::alloc::{AllocError, Global};
use std::test::Fail;
use tracing_appender_rolling::{Builder, MemoryFolder, Rotation};
use tracing_core_moments::Moment;

/// 2025-02-17T10:01:00Z.
const OPENED: Moment = Moment {
    seconds: 1_739_786_460,
    nanoseconds: 0,
};

/// 2025-02-18T00:00:00Z.
const MIDNIGHT: Moment = Moment {
    seconds: 1_739_836_800,
    nanoseconds: 0,
};

const TODAY: &str = "my_prefix.2025-02-17.log";

const TOMORROW: &str = "my_prefix.2025-02-18.log";

const A: &[u8] = b"fake time app: a\n";

const B: &[u8] = b"fake time app: b\n";

const C: &[u8] = b"fake time app: c\n";

fn sink(alloc: Global, limit: usize, lossy: bool) -> Result<QueuedSink<MemoryFolder>, Fail> {
    let files = Builder::new(alloc)
        .rotation(Rotation::DAILY)
        .filename_prefix("my_prefix")
        .filename_suffix("log")
        .build(alloc, MemoryFolder::new(alloc), OPENED)
        .map_err(|refusal| refusal.error)?;
    Ok(QueuedSink::new(Waiting::new(alloc, limit, lossy)?, files))
}

fn holds(sink: &QueuedSink<MemoryFolder>, name: &str, bytes: &[u8]) -> Result<bool, AllocError> {
    let entries = sink.appender().folder().files()?;
    Ok(
        entries
            .iter()
            .any(|entry| entry.name == name && entry.bytes == bytes),
    )
}

#[test]
fn a_full_lossy_queue_drops(rt: HostRuntime) -> Result<(), Fail> {
    let alloc = rt.alloc();
    let mut sink = sink(alloc, 1, true)?;
    assert_eq!(rt; sink.settle_line(A), Fate::Queued);
    assert_eq!(rt; sink.settle_line(B), Fate::Dropped);
    assert_eq!(rt; sink.work(9, OPENED).taken, 1);
    assert!(rt; holds(&sink, TODAY, A)?);
    assert_eq!(rt; sink.dropped_lines(), 1);
    Ok(())
}

#[test]
fn a_full_waiting_queue_holds(rt: HostRuntime) -> Result<(), Fail> {
    let alloc = rt.alloc();
    let mut sink = sink(alloc, 1, false)?;
    assert_eq!(rt; sink.settle_line(A), Fate::Queued);
    assert_eq!(rt; sink.settle_line(B), Fate::Held);
    assert_eq!(rt; sink.held(), 1);
    assert_eq!(rt; sink.admit(), Err(AdmitError::NoRoom));
    assert_eq!(rt; sink.work(1, OPENED).taken, 1);
    assert_eq!(rt; sink.admit(), Ok(()));
    assert_eq!(rt; sink.held(), 0);
    assert_eq!(rt; sink.work(1, OPENED).taken, 1);
    assert!(rt; holds(&sink, TODAY, b"fake time app: a\nfake time app: b\n")?);
    assert_eq!(rt; sink.dropped_lines(), 0);
    Ok(())
}

#[test]
fn what_stands_behind_the_mark_is_left(rt: HostRuntime) -> Result<(), Fail> {
    let alloc = rt.alloc();
    let mut sink = sink(alloc, 3, true)?;
    assert_eq!(rt; sink.settle_line(A), Fate::Queued);
    assert_eq!(rt; sink.shutdown(), Ok(()));
    assert_eq!(rt; sink.settle_line(B), Fate::Queued);
    assert_eq!(rt; sink.work(5, OPENED).taken, 1);
    assert_eq!(rt; sink.settle_line(C), Fate::Dropped);
    assert!(rt; holds(&sink, TODAY, A)?);
    assert_eq!(rt; sink.queue().accepted(), 2);
    assert_eq!(rt; sink.queue().handed(), 1);
    assert_eq!(rt; sink.queue().left(), 1);
    assert_eq!(rt; sink.dropped_lines(), 1);
    Ok(())
}

#[test]
fn a_closed_waiting_queue_loses(rt: HostRuntime) -> Result<(), Fail> {
    let alloc = rt.alloc();
    let mut sink = sink(alloc, 1, false)?;
    assert_eq!(rt; sink.settle_line(A), Fate::Queued);
    assert_eq!(rt; sink.settle_line(B), Fate::Held);
    assert_eq!(rt; sink.shutdown(), Err(MarkError::NoRoom));
    assert_eq!(rt; sink.work(1, OPENED).taken, 1);
    assert_eq!(rt; sink.shutdown(), Ok(()));
    assert_eq!(rt; sink.admit(), Err(AdmitError::NoRoom));
    assert_eq!(rt; sink.work(0, OPENED).taken, 0);
    assert_eq!(rt; sink.admit(), Err(AdmitError::Closed));
    assert_eq!(rt; sink.settle_line(C), Fate::Lost);
    assert_eq!(rt; sink.shutdown(), Err(MarkError::MarkSent));
    assert_eq!(rt; sink.admit(), Err(AdmitError::NothingHeld));
    assert!(rt; holds(&sink, TODAY, A)?);
    assert_eq!(rt; sink.queue().accepted(), 1);
    assert_eq!(rt; sink.queue().handed(), 1);
    assert_eq!(rt; sink.queue().left(), 0);
    assert_eq!(rt; sink.held(), 0);
    assert_eq!(rt; sink.faults().writes, 1);
    assert_eq!(rt; sink.faults().last, None);
    Ok(())
}

#[test]
fn a_request_of_three_lines_settles(rt: HostRuntime) -> Result<(), Fail> {
    let alloc = rt.alloc();
    let mut sink = sink(alloc, 1, false)?;
    let mut lines = Vec::new(alloc);
    lines.push(Vec::from_slice(alloc, A)?)?;
    lines.push(Vec::from_slice(alloc, B)?)?;
    lines.push(Vec::from_slice(alloc, C)?)?;
    let settled = sink.settle(lines.as_slice());
    assert_eq!(rt; settled.lost, 0);
    assert_eq!(rt; settled.missed, sink.missed());
    assert_eq!(rt; settled.missed + sink.held() + sink.queue().queued(), 3);
    assert_eq!(rt; sink.work(1, OPENED).taken, 1);
    assert_eq!(rt; sink.admit(), Ok(()));
    assert_eq!(rt; sink.work(1, MIDNIGHT).taken, 1);
    assert_eq!(rt; sink.admit(), Ok(()));
    assert_eq!(rt; sink.work(1, OPENED).taken, 1);
    assert!(rt; holds(&sink, TODAY, A)?);
    assert!(rt; holds(&sink, TOMORROW, b"fake time app: b\nfake time app: c\n")?);
    Ok(())
}

/// Rounds of a request with two lines and a step that writes them. The buffers of the first rounds serve the later ones.
#[test]
fn a_queue_in_its_stride(rt: HostRuntime) -> Result<(), Fail> {
    let alloc = rt.alloc();
    let mut sink = sink(alloc, 4, true)?;
    for _ in 0..500 {
        if sink.settle_line(A).is_missed() || sink.settle_line(B).is_missed() {
            return Err("missed".into());
        }
        let step = sink.work(2, OPENED);
        if step.taken != 2 {
            return Err("not taken".into());
        }
    }
    assert_eq!(rt; sink.queue().handed(), 1000);
    Ok(())
}
