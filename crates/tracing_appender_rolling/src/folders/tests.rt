//! Folders in memory, with faults, and of the system.

mod disk;
mod system;
mod torn;

use crate::folders::{
    Entry, FaultyFolder, FileNumber, Folder, FolderError, FolderFault, MemoryFolder,
};
use std::alloc::{AllocError, Global};
use std::test::Fail;
use tracing_core_moments::{BadMoment, Moment};

const REFUSED: FolderError = FolderError::Fault(FolderFault::Refused);

const NOT_FOUND: FolderError = FolderError::Fault(FolderFault::NotFound);

/// Whether an entry of that name is listed, and whether it is a plain file.
fn listed(entries: &[Entry], name: &str) -> Option<bool> {
    for entry in entries {
        if entry.name.as_str() == name {
            return Some(entry.plain);
        }
    }
    None
}

fn numbers(alloc: Global, list: &[u64]) -> Result<Vec<u64>, AllocError> {
    Vec::from_slice(alloc, list)
}

/// Each call once, where the file was opened; tells how many were refused, and the number of the last one.
fn refusals<D: Folder>(folder: &mut D) -> (usize, u64) {
    let mut refused = 0;
    let mut last = 0;
    if folder.create_dirs().is_err() {
        refused += 1;
        last = 1;
    }
    let Ok(file) = folder.open_append("a") else {
        return (refused + 1, 2);
    };
    if folder.write(file, b"one").is_err() {
        refused += 1;
        last = 3;
    }
    if folder.flush(file).is_err() {
        refused += 1;
        last = 4;
    }
    if folder.link("latest", "a").is_err() {
        refused += 1;
        last = 5;
    }
    if folder.list("").is_err() {
        refused += 1;
        last = 6;
    }
    if folder.close_file(file).is_err() {
        refused += 1;
        last = 7;
    }
    (refused, last)
}

#[test]
fn moments_are_in_range(rt: HostRuntime) -> Result<(), Fail> {
    let first = Moment::new(-62_135_596_800, 0)?;
    assert_eq!(rt; first.seconds, -62_135_596_800);
    assert_eq!(rt; Moment::new(0, 1_000_000_000), Err(BadMoment));
    assert_eq!(rt; Moment::new(253_370_764_800, 0), Err(BadMoment));
    Ok(())
}

#[test]
fn faults_have_texts(rt: HostRuntime) -> Result<(), Fail> {
    let alloc = rt.alloc();
    let texts = format!(in alloc;
        "{REFUSED}, {NOT_FOUND}, {}, {}, {}, {BadMoment}",
        FolderFault::Unsupported,
        FolderFault::WriteZero,
        FolderError::OutOfMemory
    )?;
    assert_eq!(rt;
        texts.as_str(),
        "refused, not found, unsupported, write took no bytes, out of memory, moment out of range"
    );
    Ok(())
}

#[test]
fn a_file_outlives_its_name(rt: HostRuntime) -> Result<(), Fail> {
    let alloc = rt.alloc();
    let mut folder = MemoryFolder::new(alloc);
    let file = folder.open_append("a")?;
    assert_eq!(rt; folder.write(file, b"one")?, 3);
    folder.remove("a")?;
    assert_eq!(rt; folder.write(file, b"two")?, 3);
    assert_eq!(rt; folder.files()?.len(), 0);
    assert_eq!(rt; folder.open_append("a")?, FileNumber::new(1));
    assert_eq!(rt; folder.remove("b"), Err(NOT_FOUND));
    assert_eq!(rt; folder.failures(), 1);
    Ok(())
}

#[test]
fn a_number_that_is_not_open_is_not_found(rt: HostRuntime) -> Result<(), Fail> {
    let alloc = rt.alloc();
    let mut folder = MemoryFolder::new(alloc);
    let file = folder.open_append("a")?;
    assert_eq!(rt; folder.open_append("a")?, file);
    folder.close_file(file)?;
    assert_eq!(rt; folder.write(file, b"one")?, 3);
    folder.close_file(file)?;
    assert_eq!(rt; folder.write(file, b"two"), Err(NOT_FOUND));
    assert_eq!(rt; folder.flush(file), Err(NOT_FOUND));
    assert_eq!(rt; folder.close_file(file), Err(NOT_FOUND));
    assert_eq!(rt; folder.write(FileNumber::new(7), b"three"), Err(NOT_FOUND));
    assert_eq!(rt; folder.failures(), 4);
    let files = folder.files()?;
    assert_eq!(rt; files.len(), 1);
    assert_eq!(rt; files[0].bytes, b"one".as_slice());
    Ok(())
}

#[test]
fn a_refusal_comes_before_a_closed_number(rt: HostRuntime) -> Result<(), Fail> {
    let alloc = rt.alloc();
    let refused = numbers(alloc, &[2])?;
    let mut folder = FaultyFolder::new(MemoryFolder::new(alloc), refused);
    let file = FileNumber::new(0);
    assert_eq!(rt; folder.write(file, b"one"), Err(NOT_FOUND));
    assert_eq!(rt; folder.write(file, b"two"), Err(REFUSED));
    assert_eq!(rt; folder.failures(), 2);
    Ok(())
}

#[test]
fn links_give_way_to_links(rt: HostRuntime) -> Result<(), Fail> {
    let alloc = rt.alloc();
    let mut folder = MemoryFolder::new(alloc);
    folder.put("a", b"1", None)?;
    folder.link("latest", "b")?;
    folder.link("latest", "a")?;
    assert_eq!(rt; folder.link_target("latest"), Some("a"));
    assert_eq!(rt; folder.link_target("a"), None);
    assert_eq!(rt; folder.link("a", "latest"), Err(REFUSED));
    assert!(rt; folder.open_append("latest").is_err());
    let entries = folder.list("")?;
    assert_eq!(rt; entries.len(), 2);
    assert_eq!(rt; listed(entries.as_slice(), "a"), Some(true));
    assert_eq!(rt; listed(entries.as_slice(), "latest"), Some(false));
    assert_eq!(rt; folder.failures(), 2);
    Ok(())
}

/// The names of what a folder lists with a prefix, one in a line.
fn names_with<D: Folder>(
    alloc: Global,
    folder: &mut D,
    prefix: &str,
) -> Result<String, FolderError> {
    let mut names = String::new(alloc);
    for entry in folder.list(prefix)? {
        names.push_str(entry.name.as_str())?;
        names.push('\n')?;
    }
    Ok(names)
}

#[test]
fn names_are_listed_by_their_prefix(rt: HostRuntime) -> Result<(), Fail> {
    let alloc = rt.alloc();
    let mut folder = MemoryFolder::new(alloc);
    for name in ["app.2", "other", "app.1", "ap", "app.3"] {
        folder.put(name, b"", None)?;
    }
    folder.remove("app.1")?;
    folder.link("app.latest", "app.3")?;
    folder.link("latest", "app.3")?;
    assert_eq!(rt;
        names_with(alloc, &mut folder, "app.")?.as_str(),
        "app.2\napp.3\napp.latest\n"
    );
    assert_eq!(rt; names_with(alloc, &mut folder, "app.2.")?.as_str(), "");
    assert_eq!(rt; folder.list("")?.len(), 6);
    let refused = numbers(alloc, &[2])?;
    let mut faulty = FaultyFolder::new(folder, refused);
    assert_eq!(rt; names_with(alloc, &mut faulty, "ot")?.as_str(), "other\n");
    assert_eq!(rt; names_with(alloc, &mut faulty, "ot").err(), Some(REFUSED));
    assert_eq!(rt; names_with(alloc, &mut faulty, "lat")?.as_str(), "latest\n");
    Ok(())
}

#[test]
fn made_directories_and_the_last_flush_are_known(rt: HostRuntime) -> Result<(), Fail> {
    let alloc = rt.alloc();
    let mut folder = MemoryFolder::new(alloc);
    let first = folder.open_append("a")?;
    let second = folder.open_append("b")?;
    assert!(rt; !folder.has_dirs());
    assert_eq!(rt; folder.last_flushed(), None);
    folder.flush(first)?;
    folder.flush(second)?;
    assert_eq!(rt; folder.last_flushed(), Some(second.index()));
    assert!(rt; !folder.has_dirs());
    folder.create_dirs()?;
    assert!(rt; folder.has_dirs());
    let refused = numbers(alloc, &[1, 2])?;
    let mut faulty = FaultyFolder::new(MemoryFolder::new(alloc), refused);
    assert_eq!(rt; faulty.create_dirs(), Err(REFUSED));
    assert_eq!(rt; faulty.flush(first), Err(REFUSED));
    assert!(rt; !faulty.inner().has_dirs());
    assert_eq!(rt; faulty.inner().last_flushed(), None);
    Ok(())
}

#[test]
fn each_call_is_refused_in_turn(rt: HostRuntime) -> Result<(), Fail> {
    let alloc = rt.alloc();
    for number in 1..=7 {
        let refused = numbers(alloc, &[number])?;
        let mut folder = FaultyFolder::new(MemoryFolder::new(alloc), refused);
        assert_eq!(rt; refusals(&mut folder), (1, number));
        assert_eq!(rt; folder.failures(), 1);
    }
    let mut sound = FaultyFolder::new(MemoryFolder::new(alloc), Vec::new(alloc));
    assert_eq!(rt; refusals(&mut sound), (0, 0));
    assert_eq!(rt; sound.failures(), 0);
    let files = sound.inner().files()?;
    assert_eq!(rt; files.len(), 1);
    assert_eq!(rt; files[0].bytes, b"one".as_slice());
    Ok(())
}

#[test]
fn a_short_write_takes_one_byte(rt: HostRuntime) -> Result<(), Fail> {
    let alloc = rt.alloc();
    let refused = numbers(alloc, &[4])?;
    let short = numbers(alloc, &[2])?;
    let mut folder = FaultyFolder::new(MemoryFolder::new(alloc), refused).with_short_writes(
        short, 1,
    );
    let file = folder.open_append("a")?;
    assert_eq!(rt; folder.write(file, b"one")?, 1);
    assert_eq!(rt; folder.write(file, b"two")?, 3);
    assert_eq!(rt; folder.write(file, b"three"), Err(REFUSED));
    assert_eq!(rt; folder.remove("a"), Ok(()));
    assert_eq!(rt; folder.failures(), 1);
    Ok(())
}

#[test]
fn a_write_takes_half_or_nothing(rt: HostRuntime) -> Result<(), Fail> {
    let alloc = rt.alloc();
    let short = numbers(alloc, &[2, 3])?;
    let inner = MemoryFolder::new(alloc);
    let mut half = FaultyFolder::new(inner, Vec::new(alloc)).with_short_writes(short, 3);
    let file = half.open_append("a")?;
    assert_eq!(rt; half.write(file, b"abcdef")?, 3);
    assert_eq!(rt; half.write(file, b"gh")?, 2);
    let files = half.inner().files()?;
    assert_eq!(rt; files.len(), 1);
    assert_eq!(rt; files[0].bytes, b"abcgh".as_slice());
    let short = numbers(alloc, &[2])?;
    let inner = MemoryFolder::new(alloc);
    let mut none = FaultyFolder::new(inner, Vec::new(alloc)).with_short_writes(short, 0);
    let file = none.open_append("a")?;
    assert_eq!(rt; none.write(file, b"abcdef")?, 0);
    assert_eq!(rt; none.write(file, b"gh")?, 2);
    // a write that took nothing is no fault of the folder
    assert_eq!(rt; none.failures(), 0);
    let files = none.inner().files()?;
    assert_eq!(rt; files.len(), 1);
    assert_eq!(rt; files[0].bytes, b"gh".as_slice());
    Ok(())
}

#[test]
fn calls_are_refused_with_the_fault_that_was_set(rt: HostRuntime) -> Result<(), Fail> {
    let alloc = rt.alloc();
    let refused = numbers(alloc, &[1, 3])?;
    let mut folder = FaultyFolder::new(MemoryFolder::new(alloc), refused).with_fault(
        FolderFault::NotFound,
    );
    assert_eq!(rt; folder.open_append("a"), Err(NOT_FOUND));
    let file = folder.open_append("a")?;
    assert_eq!(rt; folder.write(file, b"one"), Err(NOT_FOUND));
    assert_eq!(rt; folder.failures(), 2);
    Ok(())
}
