//! Steps over a queue and a file.

use crate::worker::{Batched, batch};
use crate::{Offered, QueueState};
use std::alloc::{AllocError, Global};
use std::test::Fail;
use tracing_appender_rolling::{
    Builder, FaultyFolder, MemoryFolder, RollingFileAppender, Rotation, daily,
};
use tracing_core_moments::Moment;

/// 2025-02-17T10:01:00Z.
const MONDAY: Moment = Moment {
    seconds: 1_739_786_460,
    nanoseconds: 0,
};

/// 2025-02-18T00:00:00Z.
const TUESDAY: Moment = Moment {
    seconds: 1_739_836_800,
    nanoseconds: 0,
};

fn offer(alloc: Global, queue: &mut QueueState, line: &str) -> Result<bool, Fail> {
    let bytes = Vec::from_slice(alloc, line.as_bytes())?;
    match queue.offer(bytes)? {
        Offered::Accepted(_) => Ok(true),
        _ => Ok(false),
    }
}

fn holds(folder: &MemoryFolder, name: &str, bytes: &[u8]) -> Result<bool, AllocError> {
    let entries = folder.files()?;
    Ok(
        entries
            .iter()
            .any(|entry| entry.name == name && entry.bytes == bytes),
    )
}

#[test]
fn lines_go_to_the_file_of_the_step(rt: HostRuntime) -> Result<(), Fail> {
    let alloc = rt.alloc();
    let mut queue = QueueState::new(alloc, 10, true)?;
    let mut appender = daily(alloc, MemoryFolder::new(alloc), "p", MONDAY).map_err(
        |refusal| refusal.error,
    )?;
    assert!(rt; offer(alloc, &mut queue, "a\n")?);
    assert!(rt; offer(alloc, &mut queue, "b\n")?);
    let first = batch(&mut queue, &mut appender, 1, TUESDAY);
    assert_eq!(rt;
        first,
        Batched {
            taken: 1,
            missed: 0
        }
    );
    assert_eq!(rt; appender.folder().last_flushed(), Some(1));
    let second = batch(&mut queue, &mut appender, 9, MONDAY);
    assert_eq!(rt; second.taken, 1);
    assert!(rt; holds(appender.folder(), "p.2025-02-17", b"")?);
    assert!(rt; holds(appender.folder(), "p.2025-02-18", b"a\nb\n")?);
    Ok(())
}

#[test]
fn nothing_behind_the_mark_is_taken(rt: HostRuntime) -> Result<(), Fail> {
    let alloc = rt.alloc();
    let mut queue = QueueState::new(alloc, 3, true)?;
    let mut appender = daily(alloc, MemoryFolder::new(alloc), "p", MONDAY).map_err(
        |refusal| refusal.error,
    )?;
    assert!(rt; offer(alloc, &mut queue, "a\n")?);
    queue.mark()?;
    assert!(rt; offer(alloc, &mut queue, "b\n")?);
    let taken = batch(&mut queue, &mut appender, 5, MONDAY);
    assert_eq!(rt; taken.taken, 1);
    assert!(rt; !queue.accepting());
    assert_eq!(rt; queue.handed(), 1);
    assert_eq!(rt; queue.left(), 1);
    assert!(rt; !offer(alloc, &mut queue, "c\n")?);
    assert_eq!(rt; queue.dropped_lines(), 1);
    assert!(rt; holds(appender.folder(), "p.2025-02-17", b"a\n")?);
    Ok(())
}

#[test]
fn a_failing_write_loses_its_rest_alone(rt: HostRuntime) -> Result<(), Fail> {
    let alloc = rt.alloc();
    let mut queue = QueueState::new(alloc, 3, true)?;
    // opened at call 1; the write of the first line takes a byte at call 2 and is refused at call 3
    let refused = Vec::from_slice(alloc, &[3])?;
    let short = Vec::from_slice(alloc, &[2])?;
    let folder = FaultyFolder::new(MemoryFolder::new(alloc), refused).with_short_writes(short, 1);
    let mut appender = RollingFileAppender::new(
        alloc,
        Rotation::DAILY,
        folder,
        "p",
        MONDAY,
    ).map_err(|refusal| refusal.error)?;
    assert!(rt; offer(alloc, &mut queue, "a\n")?);
    assert!(rt; offer(alloc, &mut queue, "b\n")?);
    let taken = batch(&mut queue, &mut appender, 2, MONDAY);
    assert_eq!(rt;
        taken,
        Batched {
            taken: 2,
            missed: 0
        }
    );
    assert_eq!(rt; appender.faults().writes, 1);
    assert_eq!(rt; appender.folder().inner().last_flushed(), Some(0));
    assert!(rt; holds(appender.folder().inner(), "p.2025-02-17", b"ab\n")?);
    Ok(())
}

#[test]
fn a_step_with_a_limit_and_a_link_may_be_cut(rt: HostRuntime) -> Result<(), Fail> {
    let alloc = rt.alloc();
    for first in 0..=2 {
        let mut queue = QueueState::new(alloc, 3, true)?;
        let mut appender = Builder::new(alloc)
            .rotation(Rotation::DAILY)
            .filename_prefix("p")
            .max_log_files(1)
            .latest_symlink("latest")
            .build(alloc, MemoryFolder::new(alloc), MONDAY)
            .map_err(|refusal| refusal.error)?;
        assert!(rt; offer(alloc, &mut queue, "a\n")?);
        assert!(rt; offer(alloc, &mut queue, "b\n")?);
        let one = batch(&mut queue, &mut appender, first, TUESDAY);
        let rest = if first < 2 { 2 - first } else { 0 };
        let two = batch(&mut queue, &mut appender, rest, TUESDAY);
        assert_eq!(rt; one.taken, first);
        assert_eq!(rt; two.taken, rest);
        assert_eq!(rt; appender.folder().files()?.len(), 1);
        assert!(rt; holds(appender.folder(), "p.2025-02-18", b"a\nb\n")?);
        assert_eq!(rt;
            appender.folder().link_target("latest"),
            Some("p.2025-02-18")
        );
    }
    Ok(())
}

#[test]
fn a_step_of_no_lines_takes_the_mark(rt: HostRuntime) -> Result<(), Fail> {
    let alloc = rt.alloc();
    let mut queue = QueueState::new(alloc, 1, false)?;
    let mut appender = Builder::new(alloc)
        .build(alloc, MemoryFolder::new(alloc), MONDAY)
        .map_err(|refusal| refusal.error)?;
    queue.mark()?;
    let taken = batch(&mut queue, &mut appender, 0, MONDAY);
    assert_eq!(rt;
        taken,
        Batched {
            taken: 0,
            missed: 0
        }
    );
    assert!(rt; !queue.accepting());
    Ok(())
}
