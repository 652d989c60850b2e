//! Refusals. A call of them tells the compiler which way is cold, so that pushes on the other way are inlined.
ghost use Rattle.std.specs.Prelude.{◌≡◌};

use crate::error::FormatError;
use std::alloc::AllocError;

/// Out of memory.
#[cold]
pub fn refused() -> AllocError {
    AllocError
}

/// Out of memory, as a refusal of a format.
#[cold]
pub fn out_of_memory() -> FormatError
    ensures { result ≡ FormatError.OutOfMemory }
{
    FormatError::OutOfMemory
}
