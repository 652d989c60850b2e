//! Buffers that come back.

ghost use Rattle.std.specs.Prelude.{◌≡◌, ◌≤◌, max, length, IfOk};

use std::alloc::{AllocError, Global};

// Buffers of lines that are no longer wanted, for the copies of later ones.
#[derive(Drop)]
pub(crate) struct SpareBuffers {
    alloc: Global,
    buffers: Vec<Vec<u8>>,
}

impl SpareBuffers {
    // None yet.
    pub(crate) fn new(alloc: Global) -> SpareBuffers
        ensures { length result.buffers.items ≡ 0 }
    {
        SpareBuffers {
            alloc,
            buffers: Vec::new(alloc),
        }
    }

    // Keeps a buffer, unless there are so many. Where there is no memory to keep it in, it is let go.
    pub(crate) fn keep(&mut self, buffer: Vec<u8>, most: usize)
        ensures { length self.new.buffers.items ≤ max (length self.old.buffers.items) most }
    {
        if self.buffers.len() < most {
            let _ = self.buffers.push(buffer);
        }
    }

    // A copy of a line, in a spare buffer where there is one.
    pub(crate) fn copy(&mut self, line: &[u8]) -> Result<Vec<u8>, AllocError>
        ensures bytes { IfOk result (λ copy. copy.items ≡ line.now) }
        ensures few { length self.new.buffers.items ≤ length self.old.buffers.items }
    {
        let mut copy = match self.buffers.pop() {
            Some(buffer) => buffer,
            None => Vec::new(self.alloc),
        };
        copy.clear();
        match copy.extend_from_slice(line) {
            Ok(()) => Ok(copy),
            Err(failed) => Err(failed),
        }
    }
}
