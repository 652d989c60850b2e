//! Lines that a sink takes, over folders that keep them and folders that refuse them.

use crate::tests::common::MONDAY;
use span_tracing_outputs::{LineSink, RollingSink};
use std::alloc::{AllocError, Global};
use std::test::Fail;
use tracing_appender_rolling::{
    Entry, FaultyFolder, FileNumber, Folder, FolderError, FolderFault, MemoryFolder,
    RollingFileAppender, Rotation,
};
use tracing_core_fields::Level;
use tracing_core_moments::At;

/// Half a second past the same second.
const ON_MONDAY: At = At {
    lane: 3,
    seconds: 1_739_786_460,
    nanoseconds: 500_000_000,
};

/// 2025-02-18T00:00:00Z.
const ON_TUESDAY: At = At {
    lane: 0,
    seconds: 1_739_836_800,
    nanoseconds: 0,
};

/// The year 9999.
const TOO_LATE: At = At {
    lane: 0,
    seconds: 253_370_764_800,
    nanoseconds: 0,
};

/// A whole second of nanoseconds.
const TOO_MANY_NANOSECONDS: At = At {
    lane: 0,
    seconds: 1_739_786_460,
    nanoseconds: 1_000_000_000,
};

/// A folder whose writes find no memory.
#[derive(Drop)]
struct StarvedFolder {
    alloc: Global,
}

impl Folder for StarvedFolder {
    ghost use Rattle.std.specs.Prelude.{None};

    ghost contents = { λ _. None };

    ghost failed = { λ _. 0 };

    fn open_append(&mut self, _name: &str) -> Result<FileNumber, FolderError> {
        Ok(FileNumber::new(0))
    }

    fn close_file(&mut self, _file: FileNumber) -> Result<(), FolderError> {
        Ok(())
    }

    fn write(&mut self, _file: FileNumber, _bytes: &[u8]) -> Result<usize, FolderError> {
        Err(FolderError::OutOfMemory)
    }

    fn create_dirs(&mut self) -> Result<(), FolderError> {
        Ok(())
    }

    fn flush(&mut self, _file: FileNumber) -> Result<(), FolderError> {
        Ok(())
    }

    fn list(&mut self, _prefix: &str) -> Result<Vec<Entry>, FolderError> {
        Ok(Vec::new(self.alloc))
    }

    fn remove(&mut self, _name: &str) -> Result<(), FolderError> {
        Ok(())
    }

    fn link(&mut self, _name: &str, _target: &str) -> Result<(), FolderError> {
        Ok(())
    }

    fn failures(&self) -> u64 {
        0
    }
}

/// A sink over a file for each day, opened on Monday.
fn opened<D: Folder>(alloc: Global, folder: D) -> Result<RollingSink<D>, Fail> {
    let appender = RollingFileAppender::new(alloc, Rotation::DAILY, folder, "p", MONDAY).map_err(
        |refusal| refusal.error,
    )?;
    Ok(RollingSink::new(appender))
}

/// Hands over a line as a trace does, which knows nothing of the sink but that it takes lines.
fn hand<S: LineSink>(sink: &mut S, at: At, line: &str) {
    sink.take(at, Level::INFO, line.as_bytes());
}

fn holds(folder: &MemoryFolder, name: &str, bytes: &[u8]) -> Result<bool, AllocError> {
    let entries = folder.files()?;
    Ok(
        entries
            .iter()
            .any(|entry| entry.name == name && entry.bytes == bytes),
    )
}

#[test]
fn lines_stand_in_the_file_of_their_day(rt: HostRuntime) -> Result<(), Fail> {
    let alloc = rt.alloc();
    let mut sink = opened(alloc, MemoryFolder::new(alloc))?;
    hand(&mut sink, ON_MONDAY, "one\n");
    hand(&mut sink, ON_MONDAY, "two\n");
    hand(&mut sink, ON_TUESDAY, "three\n");
    assert_eq!(rt; sink.dropped(), 0);
    let folder = sink.appender().folder();
    assert!(rt; holds(folder, "p.2025-02-17", b"one\ntwo\n")?);
    assert!(rt; holds(folder, "p.2025-02-18", b"three\n")?);
    assert_eq!(rt; sink.into_appender().into_folder().files()?.len(), 2);
    Ok(())
}

/// The opening is call 1, and the write of the first line call 2.
#[test]
fn a_fault_of_the_folder_is_no_dropped_line(rt: HostRuntime) -> Result<(), Fail> {
    let alloc = rt.alloc();
    let refused = Vec::from_slice(alloc, &[2])?;
    let mut sink = opened(alloc, FaultyFolder::new(MemoryFolder::new(alloc), refused))?;
    hand(&mut sink, ON_MONDAY, "lost\n");
    hand(&mut sink, ON_MONDAY, "kept\n");
    assert_eq!(rt; sink.dropped(), 0);
    let faults = sink.appender().faults();
    assert_eq!(rt; faults.writes, 1);
    assert_eq!(rt; faults.last, Some(FolderFault::Refused));
    let folder = sink.appender().folder().inner();
    assert!(rt; holds(folder, "p.2025-02-17", b"kept\n")?);
    Ok(())
}

#[test]
fn a_moment_out_of_range_drops_its_line(rt: HostRuntime) -> Result<(), Fail> {
    let alloc = rt.alloc();
    let mut sink = opened(alloc, MemoryFolder::new(alloc))?;
    hand(&mut sink, TOO_LATE, "late\n");
    assert_eq!(rt; sink.dropped(), 1);
    hand(&mut sink, TOO_MANY_NANOSECONDS, "odd\n");
    hand(&mut sink, ON_MONDAY, "kept\n");
    assert_eq!(rt; sink.dropped(), 2);
    assert!(rt; holds(sink.appender().folder(), "p.2025-02-17", b"kept\n")?);
    Ok(())
}

#[test]
fn want_of_memory_drops_a_line(rt: HostRuntime) -> Result<(), Fail> {
    let alloc = rt.alloc();
    let mut sink = opened(alloc, StarvedFolder { alloc })?;
    hand(&mut sink, ON_MONDAY, "one\n");
    hand(&mut sink, ON_TUESDAY, "two\n");
    assert_eq!(rt; sink.dropped(), 2);
    assert_eq!(rt; sink.appender().faults().writes, 0);
    Ok(())
}
