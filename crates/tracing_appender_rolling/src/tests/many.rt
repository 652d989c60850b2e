//! Retention where many files lie in the folder.

use crate::folders::{Entry, FileNumber, Folder, FolderError, MemoryFolder};
use crate::tests::making::named;
use crate::tests::moments::{FEBRUARY, MONDAY};
use crate::{Builder, Rotation};
use std::alloc::Global;
use std::test::Fail;
use tracing_core_moments::Moment;

/// So many files does the folder list.
const FILES: i64 = 100_000;

/// A folder that makes up its listing, and counts its calls. A folder in memory looks for a name among all files
/// at each call, so one of this size would take most of its time for itself.
#[derive(Drop)]
struct CrowdedFolder {
    alloc: Global,
    listings: usize,
    removals: usize,
    newest_removed: usize,
}

/// A moment so many seconds after 2020-02-01T10:01:00Z.
fn made_at(seconds: i64) -> Option<Moment> {
    Some(Moment {
        seconds: FEBRUARY.seconds.saturating_add(seconds),
        nanoseconds: 0,
    })
}

impl Folder for CrowdedFolder {
    ghost use Rattle.std.specs.Prelude.{None};

    ghost contents = { λ _. None };

    ghost failed = { λ _. 0 };

    fn open_append(&mut self, _name: &str) -> Result<FileNumber, FolderError> {
        Ok(FileNumber::new(0))
    }

    fn close_file(&mut self, _file: FileNumber) -> Result<(), FolderError> {
        Ok(())
    }

    fn write(&mut self, _file: FileNumber, bytes: &[u8]) -> Result<usize, FolderError> {
        Ok(bytes.len())
    }

    fn create_dirs(&mut self) -> Result<(), FolderError> {
        Ok(())
    }

    fn flush(&mut self, _file: FileNumber) -> Result<(), FolderError> {
        Ok(())
    }

    /// Each file's name has the second of its making, and no two follow one another in the order of making.
    fn list(&mut self, prefix: &str) -> Result<Vec<Entry>, FolderError> {
        self.listings = self.listings.saturating_add(1);
        let mut all = Vec::new(self.alloc);
        for number in 0..FILES {
            let second = number * 7_919 % FILES;
            all.push(Entry {
                name: format!(in self.alloc; "{prefix}.{second}")?,
                plain: true,
                created: made_at(second),
            })?;
        }
        Ok(all)
    }

    fn remove(&mut self, name: &str) -> Result<(), FolderError> {
        self.removals = self.removals.saturating_add(1);
        if name >= "app.99996" {
            self.newest_removed = self.newest_removed.saturating_add(1);
        }
        Ok(())
    }

    fn link(&mut self, _name: &str, _target: &str) -> Result<(), FolderError> {
        Ok(())
    }

    fn failures(&self) -> u64 {
        0
    }
}

fn five_kept(alloc: Global) -> Builder {
    named(alloc, Rotation::DAILY, "app", "").max_log_files(5)
}

/// The work on so many candidates is a sort. Each compared with each would outlast the time that a test has.
#[test]
fn a_hundred_thousand_files_are_sorted_once(rt: HostRuntime) -> Result<(), Fail> {
    let alloc = rt.alloc();
    let folder = CrowdedFolder {
        alloc,
        listings: 0,
        removals: 0,
        newest_removed: 0,
    };
    let appender = five_kept(alloc)
        .build(alloc, folder, MONDAY)
        .map_err(|refusal| refusal.error)?;
    let folder = appender.folder();
    assert_eq!(rt; folder.listings, 1);
    assert_eq!(rt; folder.removals, 99_996);
    assert_eq!(rt; folder.newest_removed, 0);
    Ok(())
}

#[test]
fn files_without_the_prefix_stay_among_many(rt: HostRuntime) -> Result<(), Fail> {
    let alloc = rt.alloc();
    let mut folder = MemoryFolder::new(alloc);
    for number in 0..1_000 {
        folder.put(
            format!(in alloc; "app.{number}")?.as_str(),
            b"",
            made_at(number),
        )?;
        folder.put(
            format!(in alloc; "other.{number}")?.as_str(),
            b"",
            made_at(number),
        )?;
    }
    let appender = five_kept(alloc)
        .build(alloc, folder, MONDAY)
        .map_err(|refusal| refusal.error)?;
    let entries = appender.folder().files()?;
    assert_eq!(rt; entries.len(), 1_005);
    assert_eq!(rt; entries[0].name, "app.2025-02-17");
    assert_eq!(rt; entries[1].name, "app.996");
    assert_eq!(rt; entries[5].name, "other.0");
    Ok(())
}
