//! What the system answers, as a folder tells it.

ghost use Rattle.std.specs.Prelude.{◌≡◌, ◌≤◌, ◌<◌, ◌↔◌, ℕ, None, is_some, IfOk, IfSome, length, true, false};
ghost use Rattle.std.specs.IoError.{error_kind, raw_os_error};
ghost use Rattle.tracing_appender_rolling.specs.folders.Disks.{is_open_at};
ghost use Rattle.tracing_appender_rolling.specs.folders.Attempts.{FirstAnswer};

use crate::folders::attempts::{Attempts, write_tries};
use crate::folders::fault::{FolderError, FolderFault};
use std::io::{Error, ErrorKind};

/// What the system's refusal is called here. Out of memory is ours where this process's allocator refused;
/// where the kernel told it, the system refused the call.
pub(crate) fn fault_of(error: &Error) -> FolderError
    ensures memory { (result ≡ FolderError.OutOfMemory) ↔
        ((error_kind error.now ≡ ErrorKind.OutOfMemory) × (raw_os_error error.now ≡ None)) }
    ensures found { error_kind error.now ≡ ErrorKind.NotFound → result ≡ FolderError.Fault FolderFault.NotFound }
{
    match error.kind() {
        ErrorKind::NotFound => FolderError::Fault(FolderFault::NotFound),
        ErrorKind::Unsupported => FolderError::Fault(FolderFault::Unsupported),
        ErrorKind::OutOfMemory if error.raw_os_error().is_none() => FolderError::OutOfMemory,
        _ => FolderError::Fault(FolderFault::Refused),
    }
}

/// Writes to the file in a slot, where there is one.
pub(crate) fn write_slot<A: Attempts>(
    slot: &mut Option<A>,
    bytes: &[u8],
) -> Result<usize, FolderError>
    ensures bound { IfOk result (λ n. n ≤ length bytes.now) }
    ensures first { IfSome slot.old (λ old. IfSome slot.new (λ new.
        FirstAnswer 1001 (A.coming old) bytes.now result (A.coming new))) }
    ensures found { slot.old ≡ None → result ≡ Err (FolderError.Fault FolderFault.NotFound) }
    ensures same { is_some slot.new ≡ is_some slot.old }
{
    match slot {
        Some(file) => write_tries(file, bytes),
        None => Err(FolderError::Fault(FolderFault::NotFound)),
    }
}

/// The first number that isn't that of an open file.
pub(crate) fn first_free<F>(slots: &[Option<F>]) -> usize
    ensures bound { result ≤ length slots.now }
    ensures before { (n : ℕ) → n < result → is_open_at slots.now n ≡ true }
    ensures free { is_open_at slots.now result ≡ false }
{
    for (index, slot) in slots.iter().enumerate() {
        if slot.is_none() {
            return index;
        }
    }
    slots.len()
}
