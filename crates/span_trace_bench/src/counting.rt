//! A folder that keeps nothing.

use span_tracing::{Entry, FileNumber, Folder, FolderError};
use std::alloc::Global;

/// Counts what is written to it, and keeps none of it.
#[derive(Drop)]
pub(crate) struct CountingFolder {
    alloc: Global,
    pub(crate) bytes: u64,
    pub(crate) writes: u64,
}

impl CountingFolder {
    pub(crate) fn new(alloc: Global) -> CountingFolder {
        CountingFolder {
            alloc,
            bytes: 0,
            writes: 0,
        }
    }
}

impl Folder for CountingFolder {
    ghost use Rattle.std.specs.Prelude.{None};

    ghost contents = { λ _. None };

    ghost failed = { λ _. 0 };

    fn open_append(&mut self, _name: &str) -> Result<FileNumber, FolderError> {
        Ok(FileNumber::new(0))
    }

    fn close_file(&mut self, _file: FileNumber) -> Result<(), FolderError> {
        Ok(())
    }

    fn write(&mut self, _file: FileNumber, bytes: &[u8]) -> Result<usize, FolderError> {
        self.bytes = self.bytes.saturating_add(bytes.len() as u64);
        self.writes = self.writes.saturating_add(1);
        Ok(bytes.len())
    }

    fn create_dirs(&mut self) -> Result<(), FolderError> {
        Ok(())
    }

    fn flush(&mut self, _file: FileNumber) -> Result<(), FolderError> {
        Ok(())
    }

    fn list(&mut self, _prefix: &str) -> Result<Vec<Entry>, FolderError> {
        Ok(Vec::new(self.alloc))
    }

    fn remove(&mut self, _name: &str) -> Result<(), FolderError> {
        Ok(())
    }

    fn link(&mut self, _name: &str, _target: &str) -> Result<(), FolderError> {
        Ok(())
    }

    fn failures(&self) -> u64 {
        0
    }
}
