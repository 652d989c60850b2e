//! Why a folder refuses a call.

ghost use Rattle.std.specs.Prelude.{◌≡◌, Some};
ghost use Rattle.tracing_appender_rolling.specs.folders.Contents.{failures_after};
ghost use Rattle.tracing_appender_rolling.specs.Faults.{fault_text};
ghost use Rattle.tracing_appender_rolling.specs.declared.folders.fault.FolderError.TheVariants.{OutOfMemory};

use std::alloc::{AllocError, AllocFailed};
use std::{error, fmt};
use thiserror::Error;
use tracing_core_moments::Moment;

/// A folder's refusal of a call.
#[derive(Clone, Copy, Debug, PartialEq, Eq)]
pub enum FolderFault {
    Refused,
    NotFound,
    Unsupported,
    WriteZero,
}

impl FolderFault {
    /// What it is displayed as.
    pub fn text(self) -> &'static str
        ensures { result.now ≡ fault_text self }
    {
        match self {
            FolderFault::Refused => "refused",
            FolderFault::NotFound => "not found",
            FolderFault::Unsupported => "unsupported",
            FolderFault::WriteZero => "write took no bytes",
        }
    }
}

impl fmt::Display for FolderFault {
    ghost output = { λ fault. Some (fault_text fault) };

    fn fmt<W: fmt::Write>(&self, f: &mut fmt::Formatter<W>) -> fmt::Result {
        f.write_str(self.text())
    }
}

impl error::Error for FolderFault {}

/// What a folder's call answers where it did nothing: a fault, or out of memory.
#[derive(Clone, Copy, Debug, PartialEq, Eq, Error)]
pub enum FolderError {
    #[error("{0}")]
    Fault(FolderFault),
    #[error("out of memory")]
    OutOfMemory,
}

impl From<AllocError> for FolderError {
    ghost from_gives = { λ _ e. e ≡ OutOfMemory };

    fn from(_: AllocError) -> FolderError {
        FolderError::OutOfMemory
    }
}

impl<T: Drop> From<AllocFailed<T>> for FolderError {
    ghost from_gives = { λ _ e. e ≡ OutOfMemory };

    fn from(_: AllocFailed<T>) -> FolderError {
        FolderError::OutOfMemory
    }
}

/// The count of faults after an answer: a fault raises it, up to the greatest number.
pub(crate) fn failures_after<T>(failures: u64, answer: &Result<T, FolderError>) -> u64
    ensures { result ≡ failures_after failures answer.now }
{
    match answer {
        Err(FolderError::Fault(_)) => failures.saturating_add(1),
        Ok(_) | Err(FolderError::OutOfMemory) => failures,
    }
}

/// The number by which a folder knows a file that it opened. A number that isn't open is refused `NotFound`.
#[derive(Clone, Copy, Debug, PartialEq, Eq)]
pub struct FileNumber {
    pub(crate) index: usize,
}

impl FileNumber {
    /// The number with this index, for folders that are written elsewhere.
    pub fn new(index: usize) -> FileNumber
        ensures { result.index ≡ index }
    {
        FileNumber { index }
    }

    /// The index that the folder gave it.
    pub fn index(self) -> usize
        ensures { result ≡ self.index }
    {
        self.index
    }
}

/// A name in a folder.
#[derive(Debug, Drop)]
pub struct Entry {
    pub name: String,
    /// Whether it stands for a plain file.
    pub plain: bool,
    /// When the file was made, where that is known.
    pub created: Option<Moment>,
}
