//! A system whose directories can't be read to their end.

use crate::folders::tests::{REFUSED, listed};
use crate::folders::{DiskFolder, Folder};
use std::alloc::{Allocator, Global};
use std::fs::{self, Metadata, OpenOptions};
use std::io::{self, Error, Read};
use std::rt::Files;
use std::test::Fail;

/// "Input/output error" on Linux.
const EIO: i32 = 5;

/// "File name too long" on Linux.
const ENAMETOOLONG: i32 = 36;

/// Reads these bytes of names, and then answers the error with that code, or that is the end.
#[derive(Drop)]
struct TornDirectory {
    names: &'static [u8],
    end: Option<i32>,
}

impl Read for TornDirectory {
    fn read(&mut self, buffer: &mut [u8]) -> io::Result<usize> {
        let count = self.names.len().min(buffer.len());
        match self.end {
            Some(code) if count == 0 => return Err(Error::from_raw_os_error(code)),
            _ => {}
        }
        buffer[..count].copy_from_slice(&self.names[..count]);
        self.names = &self.names[count..];
        Ok(count)
    }
}

/// The system, but for what its directories list.
#[derive(Clone, Copy)]
struct Torn {
    rt: HostRuntime,
    names: &'static [u8],
    end: Option<i32>,
}

impl Files for Torn {
    type File = fs::File;

    type Dir = TornDirectory;

    fn open_file(&self, how: &OpenOptions, path: &str) -> io::Result<fs::File> {
        self.rt.open_file(how, path)
    }

    fn open_dir(&self, _path: &str) -> io::Result<TornDirectory> {
        Ok(TornDirectory {
            names: self.names,
            end: self.end,
        })
    }

    fn metadata(&self, path: &str) -> io::Result<Metadata> {
        self.rt.metadata(path)
    }

    fn symlink_metadata(&self, path: &str) -> io::Result<Metadata> {
        self.rt.symlink_metadata(path)
    }

    fn copy(&self, from: &str, to: &str) -> io::Result<u64> {
        self.rt.copy(from, to)
    }

    fn rename(&self, from: &str, to: &str) -> io::Result<()> {
        self.rt.rename(from, to)
    }

    fn remove_file(&self, path: &str) -> io::Result<()> {
        self.rt.remove_file(path)
    }

    fn create_dir(&self, path: &str) -> io::Result<()> {
        self.rt.create_dir(path)
    }

    fn remove_dir(&self, path: &str) -> io::Result<()> {
        self.rt.remove_dir(path)
    }

    fn remove_dir_all<B: Allocator>(&self, alloc: B, path: &str) -> io::Result<()> {
        self.rt.remove_dir_all(alloc, path)
    }
}

/// Tests run in a directory where this file is.
fn listed_in(
    rt: HostRuntime,
    names: &'static [u8],
    end: Option<i32>,
) -> Result<DiskFolder<(Torn, Global)>, Fail> {
    let torn = Torn { rt, names, end };
    Ok(DiskFolder::new((torn, rt.alloc()), ""))
}

#[test]
fn a_directory_that_breaks_off_is_refused(rt: HostRuntime) -> Result<(), Fail> {
    // a name that is no UTF-8 has the second one's kind, and is told by no call of the system
    for code in [EIO, ENAMETOOLONG] {
        let mut torn = listed_in(rt, b"first\0", Some(code))?;
        assert_eq!(rt; torn.list("").err(), Some(REFUSED));
        assert_eq!(rt; torn.failures(), 1);
    }
    Ok(())
}

#[test]
fn entries_that_cannot_be_read_are_passed_over(rt: HostRuntime) -> Result<(), Fail> {
    fs::write(&rt, "stands_alone", b"")?;
    let mut folder = listed_in(rt, b"no_such_file\0\xff\0stands_alone\0", None)?;
    let entries = folder.list("")?;
    assert_eq!(rt; entries.len(), 1);
    assert_eq!(rt; listed(entries.as_slice(), "stands_alone"), Some(true));
    assert_eq!(rt; folder.failures(), 0);
    fs::remove_file(&rt, "stands_alone")?;
    Ok(())
}
