//! What the system answers, told as a folder's.

use crate::folders::system::{fault_of, write_slot};
use crate::folders::tests::{NOT_FOUND, REFUSED};
use crate::folders::{FolderError, FolderFault};
use std::io::{self, ErrorKind, Write};
use std::test::Fail;

/// "Interrupted system call" on Linux.
const EINTR: i32 = 4;

/// "Cannot allocate memory" on Linux.
const ENOMEM: i32 = 12;

/// Its first writes are interrupted.
#[derive(Drop)]
struct Interrupted {
    left: u32,
    tries: u32,
}

impl Write for Interrupted {
    fn write(&mut self, bytes: &[u8]) -> io::Result<usize> {
        self.tries = self.tries.saturating_add(1);
        if self.left == 0 {
            return Ok(bytes.len());
        }
        self.left -= 1;
        Err(io::Error::from_raw_os_error(EINTR))
    }

    fn flush(&mut self) -> io::Result<()> {
        Ok(())
    }
}

/// What a write of three bytes answers that is interrupted so often, and how often it was tried.
fn answer_after(left: u32) -> (Result<usize, FolderError>, u32) {
    let mut slot = Some(Interrupted { left, tries: 0 });
    let answer = write_slot(&mut slot, b"one");
    (answer, slot.map_or(0, |file| file.tries))
}

#[test]
fn an_interrupted_write_is_tried_again(rt: HostRuntime) -> Result<(), Fail> {
    assert_eq!(rt; answer_after(0), (Ok(3), 1));
    assert_eq!(rt; answer_after(1), (Ok(3), 2));
    assert_eq!(rt; answer_after(1_000), (Ok(3), 1_001));
    assert_eq!(rt; answer_after(1_001), (Err(REFUSED), 1_001));
    Ok(())
}

#[test]
fn errors_are_told_by_their_kind(rt: HostRuntime) -> Result<(), Fail> {
    let kernel = io::Error::from_raw_os_error(ENOMEM);
    assert_eq!(rt; kernel.kind(), ErrorKind::OutOfMemory);
    assert_eq!(rt; fault_of(&kernel), REFUSED);
    let ours = io::Error::from(ErrorKind::OutOfMemory);
    assert_eq!(rt; fault_of(&ours), FolderError::OutOfMemory);
    let missing = io::Error::from(ErrorKind::NotFound);
    assert_eq!(rt; fault_of(&missing), NOT_FOUND);
    let unsupported = io::Error::from(ErrorKind::Unsupported);
    assert_eq!(rt;
        fault_of(&unsupported),
        FolderError::Fault(FolderFault::Unsupported)
    );
    Ok(())
}
