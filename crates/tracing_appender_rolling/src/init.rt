//! Why a log file could not be opened.

use crate::folders::{FolderError, FolderFault};
use thiserror::Error;

/// What a try to open a log file was doing.
#[derive(Clone, Copy, Debug, PartialEq, Eq, Error)]
pub enum InitContext {
    #[error("failed to create log directory")]
    Directory,
    #[error("failed to create log file")]
    File,
    #[error("failed to create symlink to latest log file")]
    Link,
}

/// Why a log file could not be opened: what the folder refused, and how.
#[derive(Clone, Copy, Debug, PartialEq, Eq, Error)]
#[error("{context}: {source}")]
pub struct InitError {
    pub context: InitContext,
    #[source]
    pub source: FolderFault,
}

/// A try to open a log file that failed, or found no memory.
#[derive(Clone, Copy, Debug, PartialEq, Eq)]
pub struct InitFailure {
    pub context: InitContext,
    pub error: FolderError,
}
