//! Why a text could not be written.
ghost use Rattle.std.specs.Prelude.{◌≡◌};

use std::alloc::AllocError;
use thiserror::Error;

/// Why a text could not be written whole.
#[derive(Clone, Copy, Debug, PartialEq, Eq, Error)]
pub enum FormatError {
    /// A value could not be formatted.
    #[error("a value could not be formatted")]
    Failed,
    /// There was no memory for the text.
    #[error("out of memory")]
    OutOfMemory,
}

impl From<AllocError> for FormatError {
    ghost use Rattle.event_formatter_text.specs.declared.error.FormatError.TheVariants.{OutOfMemory};

    ghost from_gives = { λ _ error. error ≡ OutOfMemory };

    fn from(_: AllocError) -> FormatError {
        FormatError::OutOfMemory
    }
}
