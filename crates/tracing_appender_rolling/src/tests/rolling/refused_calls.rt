//! Folders that refuse a call, or take few bytes.

use super::later;
use crate::folders::{FaultyFolder, Folder, FolderError, FolderFault, MemoryFolder};
use crate::tests::making::{holds, linked, named};
use crate::tests::moments::{FEBRUARY, MONDAY};
use crate::{BuildError, InitContext, InitError, RollingFileAppender, Rotation, daily, hourly};
use std::alloc::{AllocError, Global};
use std::test::Fail;
use tracing_core_moments::Moment;

/// An empty folder that refuses the calls with these numbers.
fn refusing(alloc: Global, numbers: &[u64]) -> Result<FaultyFolder, AllocError> {
    let refused = Vec::from_slice(alloc, numbers)?;
    Ok(FaultyFolder::new(MemoryFolder::new(alloc), refused))
}

/// What the calls of a script told, and what was counted.
#[derive(Clone, Copy, Debug, PartialEq, Eq)]
struct Reported {
    building: bool,
    first: bool,
    second: bool,
    flush: bool,
    switches: usize,
    retentions: usize,
    writes: usize,
}

const NOTHING: Reported = Reported {
    building: false,
    first: false,
    second: false,
    flush: false,
    switches: 0,
    retentions: 0,
    writes: 0,
};

/// Builds with retention and a link, writes twice at one hour's distance, and flushes; the call with the
/// number is refused. Answers the folder's count, and what was told or counted.
fn script(alloc: Global, number: u64) -> Result<(u64, Reported), Fail> {
    let mut inner = MemoryFolder::new(alloc);
    inner.put("t.2020-01-01-00", b"old", None)?;
    let refused = Vec::from_slice(alloc, &[number])?;
    let folder = FaultyFolder::new(inner, refused);
    let builder = linked(alloc, Rotation::HOURLY, "t", "", "latest").max_log_files(1);
    match builder.build(alloc, folder, FEBRUARY) {
        Err(refused) => Ok((
            refused.folder.failures(),
            Reported {
                building: true,
                ..NOTHING
            },
        )),
        Ok(mut appender) => {
            let first = appender.write_all_at(b"a", FEBRUARY).is_err();
            let second = appender.write_all_at(b"b", later(3_600)?).is_err();
            let flush = appender.flush().is_err();
            let faults = appender.faults();
            let told = Reported {
                building: false,
                first,
                second,
                flush,
                switches: faults.switches,
                retentions: faults.retentions,
                writes: faults.writes,
            };
            Ok((appender.folder().failures(), told))
        }
    }
}

/// What is told or counted where the call with that number is refused. A first opening is tried again, and
/// what a close answers is passed over.
fn expected(number: u64) -> Reported {
    match number {
        1 | 2 | 6 | 7 => Reported {
            retentions: 1,
            ..NOTHING
        },
        4 => Reported {
            building: true,
            ..NOTHING
        },
        5 => Reported {
            first: true,
            writes: 1,
            ..NOTHING
        },
        9 => Reported {
            switches: 1,
            ..NOTHING
        },
        11 => Reported {
            second: true,
            writes: 1,
            ..NOTHING
        },
        12 => Reported {
            flush: true,
            ..NOTHING
        },
        _ => NOTHING,
    }
}

#[test]
fn each_call_is_refused_in_turn(rt: HostRuntime) -> Result<(), Fail> {
    let alloc = rt.alloc();
    for number in 1..=12 {
        assert_eq!(rt; script(alloc, number)?, (1, expected(number)));
    }
    assert_eq!(rt; script(alloc, 13)?, (0, NOTHING));
    Ok(())
}

/// A refused opening is tried again after the directories were made, and then only in the next period.
#[test]
fn an_opening_is_tried_twice_in_a_period(rt: HostRuntime) -> Result<(), Fail> {
    let alloc = rt.alloc();
    // opened at call 1; call 2 is the next hour's first opening, call 3 makes the directories, call 4 opens again
    let folder = refusing(alloc, &[2, 4])?;
    let mut appender = hourly(alloc, folder, "t", FEBRUARY).map_err(|refusal| refusal.error)?;
    assert!(rt; !appender.folder().inner().has_dirs());
    appender.write_all_at(b"a", later(3_600)?)?;
    assert!(rt; appender.folder().inner().has_dirs());
    assert_eq!(rt; appender.faults().switches, 1);
    assert_eq!(rt; appender.folder().failures(), 2);
    appender.write_all_at(b"b", later(3_660)?)?;
    assert_eq!(rt; appender.faults().switches, 1);
    appender.write_all_at(b"c", later(7_200)?)?;
    assert_eq!(rt; appender.faults().switches, 1);
    assert_eq!(rt; appender.folder().failures(), 2);
    appender.flush()?;
    let files = appender.folder().inner();
    assert_eq!(rt; files.last_flushed(), Some(1));
    assert_eq!(rt; files.files()?.len(), 2);
    assert!(rt; holds(files, "t.2020-02-01-10", b"ab")?);
    assert!(rt; holds(files, "t.2020-02-01-12", b"c")?);
    Ok(())
}

/// The day whose file was refused leaves its lines in the file of the day before.
#[test]
fn a_refused_day_stays_in_the_file_before(rt: HostRuntime) -> Result<(), Fail> {
    let alloc = rt.alloc();
    // opened at call 1; call 2 is the next day's first opening, call 3 makes the directories, call 4 opens again
    let folder = refusing(alloc, &[2, 4])?;
    let mut appender = daily(alloc, folder, "t", MONDAY).map_err(|refusal| refusal.error)?;
    appender.write_all_at(b"a", Moment::new(1_739_836_800, 0)?)?;
    appender.write_all_at(b"b", Moment::new(1_739_880_000, 0)?)?;
    appender.write_all_at(b"c", Moment::new(1_739_923_200, 0)?)?;
    assert_eq!(rt; appender.faults().switches, 1);
    assert_eq!(rt; appender.faults().retentions, 0);
    assert_eq!(rt; appender.faults().writes, 0);
    let files = appender.folder().inner();
    assert_eq!(rt; files.files()?.len(), 2);
    assert!(rt; holds(files, "t.2025-02-17", b"ab")?);
    assert!(rt; holds(files, "t.2025-02-19", b"c")?);
    Ok(())
}

#[test]
fn a_refused_write_is_told_and_counted(rt: HostRuntime) -> Result<(), Fail> {
    let alloc = rt.alloc();
    let folder = refusing(alloc, &[2])?;
    let mut appender = daily(alloc, folder, "t", FEBRUARY).map_err(|refusal| refusal.error)?;
    let fault = FolderError::Fault(FolderFault::Refused);
    assert_eq!(rt; appender.write_at(b"a", FEBRUARY), Err(fault));
    assert_eq!(rt; appender.faults().writes, 1);
    assert_eq!(rt; appender.folder().failures(), 1);
    assert_eq!(rt; appender.write_at(b"bc", FEBRUARY)?, 2);
    assert_eq!(rt; appender.faults().writes, 1);
    assert!(rt; holds(appender.folder().inner(), "t.2020-02-01", b"bc")?);
    Ok(())
}

#[test]
fn lines_lost_elsewhere_are_counted_beside_failed_ones(rt: HostRuntime) -> Result<(), Fail> {
    let alloc = rt.alloc();
    let folder = refusing(alloc, &[2])?;
    let mut appender = daily(alloc, folder, "t", FEBRUARY).map_err(|refusal| refusal.error)?;
    appender.add_lost_writes(2);
    assert_eq!(rt; appender.faults().writes, 2);
    assert_eq!(rt; appender.faults().last, None);
    assert!(rt; appender.write_all_at(b"a", FEBRUARY).is_err());
    appender.add_lost_writes(1);
    assert_eq!(rt; appender.faults().writes, 4);
    assert_eq!(rt; appender.faults().last, Some(FolderFault::Refused));
    assert_eq!(rt; appender.folder().failures(), 1);
    appender.add_lost_writes(usize::MAX);
    assert_eq!(rt; appender.faults().writes, usize::MAX);
    appender.add_lost_writes(1);
    assert_eq!(rt; appender.faults().writes, usize::MAX);
    Ok(())
}

/// A daily appender over a folder whose writes with the numbers take at most so many bytes. The opening is call 1.
fn slowed(
    alloc: Global,
    short: &[u64],
    most: usize,
) -> Result<RollingFileAppender<FaultyFolder>, Fail> {
    let short = Vec::from_slice(alloc, short)?;
    let inner = MemoryFolder::new(alloc);
    let folder = FaultyFolder::new(inner, Vec::new(alloc)).with_short_writes(short, most);
    Ok(daily(alloc, folder, "t", FEBRUARY).map_err(|refusal| refusal.error)?)
}

#[test]
fn short_writes_go_on_until_one_takes_nothing(rt: HostRuntime) -> Result<(), Fail> {
    let alloc = rt.alloc();
    let mut half = slowed(alloc, &[2, 3], 3)?;
    half.write_all_at(b"abcdefgh", FEBRUARY)?;
    assert!(rt; holds(half.folder().inner(), "t.2020-02-01", b"abcdefgh")?);
    assert_eq!(rt; half.faults().writes, 0);
    let mut none = slowed(alloc, &[3], 0)?;
    none.write_all_at(b"ab", FEBRUARY)?;
    let zero = FolderError::Fault(FolderFault::WriteZero);
    assert_eq!(rt; none.write_all_at(b"cd", FEBRUARY), Err(zero));
    none.write_all_at(b"ef", FEBRUARY)?;
    assert!(rt; holds(none.folder().inner(), "t.2020-02-01", b"abef")?);
    assert_eq!(rt; none.faults().writes, 1);
    assert_eq!(rt; none.faults().last, Some(FolderFault::WriteZero));
    assert_eq!(rt; none.folder().failures(), 0);
    let mut once = slowed(alloc, &[2, 3], 0)?;
    assert_eq!(rt; once.write_at(b"ab", FEBRUARY)?, 0);
    once.write_all_at(b"", FEBRUARY)?;
    assert_eq!(rt; once.faults().writes, 0);
    Ok(())
}

#[test]
fn faults_are_told_as_the_folder_tells_them(rt: HostRuntime) -> Result<(), Fail> {
    let alloc = rt.alloc();
    let folder = refusing(alloc, &[1, 3])?.with_fault(FolderFault::NotFound);
    match named(alloc, Rotation::DAILY, "t", "").build(alloc, folder, FEBRUARY) {
        Ok(_) => return Err("built".into()),
        Err(refusal) => {
            let error = InitError {
                context: InitContext::File,
                source: FolderFault::NotFound,
            };
            assert_eq!(rt; refusal.error, BuildError::Init(error));
            assert_eq!(rt; refusal.folder.failures(), 2);
        }
    }
    let folder = refusing(alloc, &[2])?.with_fault(FolderFault::Unsupported);
    let mut appender = daily(alloc, folder, "t", FEBRUARY).map_err(|refusal| refusal.error)?;
    let fault = FolderError::Fault(FolderFault::Unsupported);
    assert_eq!(rt; appender.write_all_at(b"a", FEBRUARY), Err(fault));
    assert_eq!(rt; appender.faults().last, Some(FolderFault::Unsupported));
    Ok(())
}
