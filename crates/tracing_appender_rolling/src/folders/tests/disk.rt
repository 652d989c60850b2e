//! A folder of the system, in directories of its own.

use crate::folders::tests::{NOT_FOUND, REFUSED, listed};
use crate::folders::{DiskFolder, Folder, FolderError, FolderFault};
use std::fs;
use std::os::unix::fs::symlink;
use std::test::Fail;

/// Removes what an earlier run left under a name.
fn remove_left(rt: HostRuntime, name: &str) -> Result<(), Fail> {
    match fs::metadata(&rt, name) {
        Ok(metadata) if metadata.is_dir() => fs::remove_dir_all(&rt, name)?,
        Ok(_) => fs::remove_file(&rt, name)?,
        Err(_) => {}
    }
    Ok(())
}

/// A folder whose directory was just made, and is empty.
fn made(rt: HostRuntime, name: &str) -> Result<DiskFolder<HostRuntime>, Fail> {
    remove_left(rt, name)?;
    let mut folder = DiskFolder::new(rt, name);
    folder.create_dirs()?;
    Ok(folder)
}

#[test]
fn a_folder_of_the_system_keeps_files(rt: HostRuntime) -> Result<(), Fail> {
    remove_left(rt, "logs")?;
    let mut folder = DiskFolder::new(rt, "logs/deep");
    assert_eq!(rt; folder.open_append("a"), Err(NOT_FOUND));
    folder.create_dirs()?;
    folder.create_dirs()?;
    let first = folder.open_append("a")?;
    assert_eq!(rt; folder.write(first, b"one\n")?, 4);
    folder.flush(first)?;
    folder.close_file(first)?;
    assert_eq!(rt; folder.write(first, b"lost"), Err(NOT_FOUND));
    let again = folder.open_append("a")?;
    assert_eq!(rt; folder.write(again, b"two\n")?, 4);
    let bytes = fs::read(&rt, "logs/deep/a")?;
    assert_eq!(rt; bytes.as_slice(), b"one\ntwo\n".as_slice());
    let entries = folder.list("")?;
    assert_eq!(rt; entries.len(), 1);
    assert_eq!(rt; listed(entries.as_slice(), "a"), Some(true));
    folder.remove("a")?;
    assert_eq!(rt; folder.remove("a"), Err(NOT_FOUND));
    assert_eq!(rt; folder.write(again, b"three\n")?, 6);
    assert_eq!(rt; folder.list("")?.len(), 0);
    let link = Err(FolderError::Fault(FolderFault::Unsupported));
    assert_eq!(rt; folder.link("latest", "a"), link);
    assert_eq!(rt; folder.failures(), 4);
    fs::remove_dir_all(&rt, "logs")?;
    assert!(rt; folder.list("").is_err());
    folder.create_dirs()?;
    assert_eq!(rt; folder.list("")?.len(), 0);
    fs::remove_dir_all(&rt, "logs")?;
    Ok(())
}

#[test]
fn a_link_is_refused_and_not_followed(rt: HostRuntime) -> Result<(), Fail> {
    let mut folder = made(rt, "holds_links")?;
    fs::write(&rt, "holds_links/file", b"old\n")?;
    symlink(&rt, "file", "holds_links/linked")?;
    symlink(&rt, "nowhere", "holds_links/dangling")?;
    assert_eq!(rt; folder.open_append("linked"), Err(REFUSED));
    assert_eq!(rt; folder.open_append("dangling"), Err(REFUSED));
    assert_eq!(rt; folder.failures(), 2);
    assert!(rt; !fs::exists(&rt, "holds_links/nowhere")?);
    let file = folder.open_append("file")?;
    assert_eq!(rt; folder.write(file, b"new\n")?, 4);
    let bytes = fs::read(&rt, "holds_links/file")?;
    assert_eq!(rt; bytes.as_slice(), b"old\nnew\n".as_slice());
    let entries = folder.list("")?;
    assert_eq!(rt; entries.len(), 3);
    assert_eq!(rt; listed(entries.as_slice(), "linked"), Some(false));
    assert_eq!(rt; listed(entries.as_slice(), "dangling"), Some(false));
    assert_eq!(rt; listed(entries.as_slice(), "file"), Some(true));
    fs::remove_dir_all(&rt, "holds_links")?;
    Ok(())
}

#[test]
fn a_directory_under_a_files_name_is_refused(rt: HostRuntime) -> Result<(), Fail> {
    let mut folder = made(rt, "holds_directories")?;
    fs::create_dir(&rt, "holds_directories/a")?;
    assert_eq!(rt; folder.open_append("a"), Err(REFUSED));
    assert_eq!(rt; folder.remove("a"), Err(REFUSED));
    let entries = folder.list("")?;
    assert_eq!(rt; entries.len(), 1);
    assert_eq!(rt; listed(entries.as_slice(), "a"), Some(false));
    assert_eq!(rt; folder.failures(), 2);
    fs::remove_dir_all(&rt, "holds_directories")?;
    Ok(())
}

#[test]
fn a_file_in_the_directorys_place_is_refused(rt: HostRuntime) -> Result<(), Fail> {
    let mut folder = made(rt, "file_in_place")?;
    fs::remove_dir(&rt, "file_in_place")?;
    fs::write(&rt, "file_in_place", b"kept")?;
    assert_eq!(rt; folder.open_append("a"), Err(REFUSED));
    assert_eq!(rt; folder.create_dirs(), Err(REFUSED));
    assert_eq!(rt; folder.remove("a"), Err(REFUSED));
    assert_eq!(rt; folder.list("").err(), Some(REFUSED));
    assert_eq!(rt; folder.failures(), 4);
    let bytes = fs::read(&rt, "file_in_place")?;
    assert_eq!(rt; bytes.as_slice(), b"kept".as_slice());
    fs::remove_file(&rt, "file_in_place")?;
    Ok(())
}

#[test]
fn a_removed_directory_is_not_found(rt: HostRuntime) -> Result<(), Fail> {
    let mut folder = made(rt, "goes_away")?;
    let file = folder.open_append("a")?;
    fs::remove_dir_all(&rt, "goes_away")?;
    assert_eq!(rt; folder.write(file, b"one")?, 3);
    assert_eq!(rt; folder.open_append("b"), Err(NOT_FOUND));
    assert_eq!(rt; folder.list("").err(), Some(NOT_FOUND));
    assert_eq!(rt; folder.remove("a"), Err(NOT_FOUND));
    assert_eq!(rt; folder.failures(), 3);
    folder.create_dirs()?;
    let next = folder.open_append("b")?;
    assert_eq!(rt; folder.write(next, b"two")?, 3);
    let bytes = fs::read(&rt, "goes_away/b")?;
    assert_eq!(rt; bytes.as_slice(), b"two".as_slice());
    fs::remove_dir_all(&rt, "goes_away")?;
    Ok(())
}

#[test]
fn numbers_of_closed_files_are_used_again(rt: HostRuntime) -> Result<(), Fail> {
    let mut folder = made(rt, "numbered")?;
    let first = folder.open_append("a")?;
    let second = folder.open_append("b")?;
    assert_ne!(rt; first, second);
    folder.close_file(first)?;
    assert_eq!(rt; folder.write(first, b"lost"), Err(NOT_FOUND));
    assert_eq!(rt; folder.flush(first), Err(NOT_FOUND));
    assert_eq!(rt; folder.close_file(first), Err(NOT_FOUND));
    assert_eq!(rt; folder.failures(), 3);
    assert_eq!(rt; folder.open_append("c")?, first);
    assert_eq!(rt; folder.write(second, b"two")?, 3);
    assert_eq!(rt; folder.write(first, b"three")?, 5);
    let bytes = fs::read(&rt, "numbered/c")?;
    assert_eq!(rt; bytes.as_slice(), b"three".as_slice());
    fs::remove_dir_all(&rt, "numbered")?;
    Ok(())
}

#[test]
fn an_empty_path_is_the_current_folder(rt: HostRuntime) -> Result<(), Fail> {
    remove_left(rt, "in_the_current_folder")?;
    let mut folder = DiskFolder::new(rt, "");
    folder.create_dirs()?;
    let file = folder.open_append("in_the_current_folder")?;
    assert_eq!(rt; folder.write(file, b"one")?, 3);
    let bytes = fs::read(&rt, "in_the_current_folder")?;
    assert_eq!(rt; bytes.as_slice(), b"one".as_slice());
    let entries = folder.list("")?;
    let plain = listed(entries.as_slice(), "in_the_current_folder");
    assert_eq!(rt; plain, Some(true));
    folder.remove("in_the_current_folder")?;
    Ok(())
}

/// A path that found no memory is told by each call that needs it, and no fault is counted.
#[test]
fn a_missing_path_is_told_at_each_call(rt: HostRuntime) -> Result<(), Fail> {
    let mut folder = DiskFolder::new(rt, "missing");
    folder.path = None;
    assert_eq!(rt; folder.create_dirs(), Err(FolderError::OutOfMemory));
    assert_eq!(rt; folder.open_append("a"), Err(FolderError::OutOfMemory));
    assert_eq!(rt; folder.list("").err(), Some(FolderError::OutOfMemory));
    assert_eq!(rt; folder.remove("a"), Err(FolderError::OutOfMemory));
    assert_eq!(rt; folder.failures(), 0);
    Ok(())
}

#[test]
fn thousands_of_files_are_listed_by_their_prefix(rt: HostRuntime) -> Result<(), Fail> {
    let alloc = rt.alloc();
    let mut folder = made(rt, "holds_many")?;
    for number in 0..2_000 {
        let first = folder.open_append(format!(in alloc; "app.{number}")?.as_str())?;
        folder.close_file(first)?;
        let second = folder.open_append(format!(in alloc; "other.{number}")?.as_str())?;
        folder.close_file(second)?;
    }
    let entries = folder.list("app.")?;
    assert_eq!(rt; entries.len(), 2_000);
    assert!(rt; entries.iter().all(|entry| entry.plain && entry.name.as_str().starts_with("app.")));
    assert_eq!(rt; folder.list("other.19")?.len(), 111);
    assert_eq!(rt; folder.list("")?.len(), 4_000);
    assert_eq!(rt; folder.failures(), 0);
    fs::remove_dir_all(&rt, "holds_many")?;
    Ok(())
}
