//! One of two folders.
ghost use Rattle.span_tracing_outputs.specs.files.Either.{contents_of, failures_of};

use tracing_appender_rolling::{Entry, FileNumber, Folder, FolderError};

/// A folder of one of two types, for a trace in which some sinks write to folders of one type and some to folders of the
/// other one.
#[derive(Drop)]
pub enum EitherFolder<A, B> {
    /// A folder of the first type.
    A(A),
    /// A folder of the second type.
    B(B),
}

impl<A: Folder, B: Folder> Folder for EitherFolder<A, B> {
    ghost contents = { contents_of A.contents B.contents };

    ghost failed = { failures_of A.failed B.failed };

    fn open_append(&mut self, name: &str) -> Result<FileNumber, FolderError> {
        match self {
            EitherFolder::A(folder) => folder.open_append(name),
            EitherFolder::B(folder) => folder.open_append(name),
        }
    }

    fn close_file(&mut self, file: FileNumber) -> Result<(), FolderError> {
        match self {
            EitherFolder::A(folder) => folder.close_file(file),
            EitherFolder::B(folder) => folder.close_file(file),
        }
    }

    fn write(&mut self, file: FileNumber, bytes: &[u8]) -> Result<usize, FolderError> {
        match self {
            EitherFolder::A(folder) => folder.write(file, bytes),
            EitherFolder::B(folder) => folder.write(file, bytes),
        }
    }

    fn create_dirs(&mut self) -> Result<(), FolderError> {
        match self {
            EitherFolder::A(folder) => folder.create_dirs(),
            EitherFolder::B(folder) => folder.create_dirs(),
        }
    }

    fn flush(&mut self, file: FileNumber) -> Result<(), FolderError> {
        match self {
            EitherFolder::A(folder) => folder.flush(file),
            EitherFolder::B(folder) => folder.flush(file),
        }
    }

    fn list(&mut self, prefix: &str) -> Result<Vec<Entry>, FolderError> {
        match self {
            EitherFolder::A(folder) => folder.list(prefix),
            EitherFolder::B(folder) => folder.list(prefix),
        }
    }

    fn remove(&mut self, name: &str) -> Result<(), FolderError> {
        match self {
            EitherFolder::A(folder) => folder.remove(name),
            EitherFolder::B(folder) => folder.remove(name),
        }
    }

    fn link(&mut self, name: &str, target: &str) -> Result<(), FolderError> {
        match self {
            EitherFolder::A(folder) => folder.link(name, target),
            EitherFolder::B(folder) => folder.link(name, target),
        }
    }

    fn failures(&self) -> u64 {
        match self {
            EitherFolder::A(folder) => folder.failures(),
            EitherFolder::B(folder) => folder.failures(),
        }
    }
}
