//! Files over a folder of the system.

ghost use Rattle.std.specs.Prelude.{◌≡◌, true};
ghost use Rattle.tracing_core_moments.specs.Moments.{is_moment};

use crate::folders::{DiskFolder, Folder, FolderFault};
use crate::tests::making::named;
use crate::tests::moments::{ELEVEN, FEBRUARY, NOON};
use crate::{BuildError, Builder, InitContext, InitError, Rotation};
use std::alloc::Global;
use std::fs;
use std::test::Fail;
use tracing_core_moments::Moment;

/// Hourly files with the prefix `t`, at most two.
fn hourly_files(alloc: Global) -> Builder {
    named(alloc, Rotation::HOURLY, "t", "").max_log_files(2)
}

#[test]
fn a_folder_of_the_system_rolls(rt: HostRuntime) -> Result<(), Fail> {
    let alloc = rt.alloc();
    fs::create_dir_all(&rt, "rolled")?;
    fs::write(&rt, "rolled/t.2020-02-01-10", b"old\n")?;
    let folder = DiskFolder::new(rt, "rolled");
    let mut appender = hourly_files(alloc)
        .build(alloc, folder, FEBRUARY)
        .map_err(|refusal| refusal.error)?;
    appender.write_all_at(b"a\n", FEBRUARY)?;
    let first = fs::read(&rt, "rolled/t.2020-02-01-10")?;
    assert_eq!(rt; first.as_slice(), b"old\na\n".as_slice());
    appender.write_all_at(b"b\n", ELEVEN)?;
    fs::remove_dir_all(&rt, "rolled")?;
    appender.write_all_at(b"c\n", NOON)?;
    let third = fs::read(&rt, "rolled/t.2020-02-01-12")?;
    assert_eq!(rt; third.as_slice(), b"c\n".as_slice());
    assert_eq!(rt; appender.faults().switches, 0);
    fs::remove_dir_all(&rt, "rolled")?;
    Ok(())
}

#[test]
fn a_folder_of_the_system_makes_no_links(rt: HostRuntime) -> Result<(), Fail> {
    let alloc = rt.alloc();
    let folder = DiskFolder::new(rt, "linked");
    let error = BuildError::Init(InitError {
        context: InitContext::Link,
        source: FolderFault::Unsupported,
    });
    match Builder::new(alloc)
        .latest_symlink("latest")
        .build(alloc, folder, FEBRUARY)
    {
        Ok(_) => return Err("linked".into()),
        Err(refused) => assert_eq!(rt; refused.error, error),
    }
    assert_eq!(rt;
        format!(in alloc; "{error}")?.as_str(),
        "failed to create symlink to latest log file: unsupported"
    );
    fs::remove_dir_all(&rt, "linked")?;
    Ok(())
}

#[test]
fn a_folder_of_the_system_is_pruned(rt: HostRuntime) -> Result<(), Fail> {
    let alloc = rt.alloc();
    fs::create_dir_all(&rt, "pruned")?;
    fs::write(&rt, "pruned/t.2020-02-01-09", b"old\n")?;
    let folder = DiskFolder::new(rt, "pruned");
    let mut appender = hourly_files(alloc)
        .build(alloc, folder, FEBRUARY)
        .map_err(|refusal| refusal.error)?;
    let kept = fs::read(&rt, "pruned/t.2020-02-01-09")?;
    assert_eq!(rt; kept.as_slice(), b"old\n".as_slice());
    appender.write_all_at(b"b\n", ELEVEN)?;
    assert!(rt; fs::read(&rt, "pruned/t.2020-02-01-09").is_err());
    let first = fs::read(&rt, "pruned/t.2020-02-01-10")?;
    assert_eq!(rt; first.len(), 0);
    assert_eq!(rt; appender.faults().retentions, 0);
    fs::remove_dir_all(&rt, "pruned")?;
    Ok(())
}

/// The listing of a directory that isn't there yet is no fault, at the building and at a later look. A listing that the system
/// refuses is one.
#[test]
fn a_folder_that_is_not_there_yet_is_no_fault(rt: HostRuntime) -> Result<(), Fail> {
    let alloc = rt.alloc();
    let mut appender = hourly_files(alloc)
        .build(alloc, DiskFolder::new(rt, "comes/later"), FEBRUARY)
        .map_err(|refusal| refusal.error)?;
    assert_eq!(rt; appender.faults().retentions, 0);
    assert_eq!(rt; appender.faults().last, None);
    fs::remove_dir_all(&rt, "comes")?;
    appender.write_all_at(b"a\n", ELEVEN)?;
    assert_eq!(rt; appender.faults().retentions, 0);
    let bytes = fs::read(&rt, "comes/later/t.2020-02-01-11")?;
    assert_eq!(rt; bytes.as_slice(), b"a\n".as_slice());
    fs::remove_dir_all(&rt, "comes")?;
    Ok(())
}

#[test]
fn a_file_in_the_folders_place_refuses(rt: HostRuntime) -> Result<(), Fail> {
    let alloc = rt.alloc();
    fs::write(&rt, "taken", b"")?;
    let folder = DiskFolder::new(rt, "taken/deep");
    match Builder::new(alloc).build(alloc, folder, FEBRUARY) {
        Ok(_) => return Err("built".into()),
        Err(refused) => match refused.error {
            BuildError::Init(error) => {
                assert_eq!(rt; error.context, InitContext::Directory);
            }
            _ => return Err("another refusal".into()),
        },
    }
    fs::remove_file(&rt, "taken")?;
    Ok(())
}

/// In `/proc` nobody can make a file, root neither, so this is a folder that can only be read.
#[test]
fn a_folder_that_can_only_be_read_refuses(rt: HostRuntime) -> Result<(), Fail> {
    let alloc = rt.alloc();
    let folder = DiskFolder::new(rt, "/proc");
    match hourly_files(alloc).build(alloc, folder, FEBRUARY) {
        Ok(_) => return Err("built".into()),
        Err(refused) => {
            let error = BuildError::Init(InitError {
                context: InitContext::File,
                source: FolderFault::NotFound,
            });
            assert_eq!(rt; refused.error, error);
            // the opening was tried twice, and the directories stood
            assert_eq!(rt; refused.folder.failures(), 2);
        }
    }
    Ok(())
}

/// A file takes the place of the folder, so the next period's file can't be opened: the old one goes on.
#[test]
fn a_folder_that_goes_away_keeps_the_old_file(rt: HostRuntime) -> Result<(), Fail> {
    let alloc = rt.alloc();
    let folder = DiskFolder::new(rt, "moving");
    let mut appender = hourly_files(alloc)
        .build(alloc, folder, FEBRUARY)
        .map_err(|refusal| refusal.error)?;
    fs::rename(&rt, "moving", "moved")?;
    fs::write(&rt, "moving", b"")?;
    appender.write_all_at(b"a\n", ELEVEN)?;
    let faults = appender.faults();
    assert_eq!(rt; faults.switches, 1);
    // a listing was refused too; that of the building, before the folder was made, is no fault
    assert_eq!(rt; faults.retentions, 1);
    fs::remove_file(&rt, "moving")?;
    appender.write_all_at(b"b\n", ELEVEN)?;
    let old = fs::read(&rt, "moved/t.2020-02-01-10")?;
    assert_eq!(rt; old.as_slice(), b"a\nb\n".as_slice());
    appender.write_all_at(b"c\n", NOON)?;
    let third = fs::read(&rt, "moving/t.2020-02-01-12")?;
    assert_eq!(rt; third.as_slice(), b"c\n".as_slice());
    assert_eq!(rt; appender.faults().switches, 1);
    fs::remove_dir_all(&rt, "moving")?;
    fs::remove_dir_all(&rt, "moved")?;
    Ok(())
}
