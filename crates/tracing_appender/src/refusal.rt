//! A folder's refusals as errors of input and output.
ghost use Rattle.std.specs.Prelude.{◌≡◌};
ghost use Rattle.std.specs.IoError.{error_kind};
ghost use Rattle.tracing_appender.specs.Refusals.{Tells, kind_of};

use std::io;
use tracing_appender_rolling::FolderError;

fn io_error(error: FolderError) -> io::Error
    ensures { error_kind result ≡ kind_of error }
{
    match error {
        FolderError::OutOfMemory => io::ErrorKind::OutOfMemory.into(),
        FolderError::Fault(fault) => io::Error::other(fault.text()),
    }
}

/// A folder's answer as one of input and output.
pub(crate) fn io_result<T>(answer: Result<T, FolderError>) -> io::Result<T>
    ensures { Tells answer result }
{
    match answer {
        Ok(value) => Ok(value),
        Err(error) => Err(io_error(error)),
    }
}
