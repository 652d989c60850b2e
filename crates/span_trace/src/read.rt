//! Input in bounded reads, and its whole lines.

use std::alloc::{AllocError, Global};
use std::io::Read;

/// The greatest number of reads.
const MAX_READS: u32 = 1_048_576;

/// The greatest number of bytes in one read.
const READ_BYTES: usize = 65_536;

/// The bytes that were read, and whether a read showed that the input ends behind them.
#[derive(Debug, Drop)]
pub(crate) struct Input {
    bytes: Vec<u8>,
    is_whole: bool,
}

impl Input {
    /// Reads until the input ends, a read fails, or the greatest number of reads is made.
    pub(crate) fn read<R: Read>(alloc: Global, reader: &mut R) -> Result<Input, AllocError> {
        let mut bytes = Vec::new(alloc);
        let mut buffer = vec![in alloc; 0u8; READ_BYTES]?;
        for _ in 0..MAX_READS {
            match reader.read(buffer.as_mut_slice()) {
                Ok(0) => {
                    return Ok(Input {
                        bytes,
                        is_whole: true,
                    });
                }
                Ok(count) => bytes.extend_from_slice(&buffer[..count])?,
                Err(_) => break,
            }
        }
        Ok(Input {
            bytes,
            is_whole: false,
        })
    }

    /// Whether a read showed that the input ends.
    pub(crate) fn is_whole(&self) -> bool {
        self.is_whole
    }

    /// The whole lines, with a newline between two of them; none where there is no whole line. Of an input
    /// whose end was not seen, what stands behind the last newline is no whole line.
    pub(crate) fn whole_lines(&self) -> Option<&[u8]> {
        let bytes = self.bytes.as_slice();
        if !self.is_whole {
            return before_last_newline(bytes);
        }
        if bytes.is_empty() {
            return None;
        }
        match bytes.split_last() {
            Some((b'\n', before)) => Some(before),
            _ => Some(bytes),
        }
    }
}

/// What stands before the last newline, where there is one.
fn before_last_newline(bytes: &[u8]) -> Option<&[u8]> {
    for place in (0..bytes.len()).rev() {
        if bytes[place] == b'\n' {
            return Some(&bytes[..place]);
        }
    }
    None
}
