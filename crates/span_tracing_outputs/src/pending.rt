//! The lines of a request, until they are handed on.
ghost use Rattle.std.specs.Prelude.{◌≡◌, ◌≤◌, [], IsTrue, length, map};
ghost use Rattle.std.specs.Result.{is_ok};
ghost use Rattle.span_tracing_outputs.specs.OutputMachines.{one_more_line};
ghost use Rattle.span_tracing_outputs.specs.BufferedLines.{TakesLine, lines_of, plain_line};

use event_formatter_text::MakeWriter;
use std::alloc::{AllocError, Global};
use std::io;
use std::io::ErrorKind;
use std::marker::Model;
use tracing_core_fields::{Level, Metadata};

/// A line, with the level of its event.
#[derive(Drop)]
pub struct PendingLine {
    /// The level.
    pub level: Level,
    /// The bytes, with the newline.
    pub bytes: Vec<u8>,
}

/// Keeps the lines that it is handed, in order, until they are cleared. Its buffers are used again for later lines.
///
/// A contract sees it as the list of the lines.
#[derive(Drop)]
pub struct PendingLines {
    alloc: Global,
    buffers: Vec<PendingLine>,
    used: usize,
}

impl Model for PendingLines {
    ghost use Rattle.std.specs.Prelude.{List, ◌≤◌, length};
    ghost use Rattle.span_tracing_outputs.specs.OutputMachines.{PlainLine};
    ghost use Rattle.span_tracing_outputs.specs.BufferedLines.{lines_of};

    ghost Value = { List PlainLine };

    ghost view = { λ p. lines_of p.buffers.items p.used };

    ghost invariant = { λ p. p.used ≤ length p.buffers.items };
}

impl PendingLines {
    /// Pending lines of which there are none yet.
    pub fn new(alloc: Global) -> PendingLines
        ensures { result ≡ [] }
    {
        PendingLines {
            alloc,
            buffers: Vec::new(alloc),
            used: 0,
        }
    }

    /// The lines, in the order in which they were handed over.
    pub fn lines(&self) -> &[PendingLine]
        ensures { map plain_line result.now ≡ self.now }
    {
        &self.buffers.as_slice()[..self.used]
    }

    // Whether there is no line.
    pub(crate) fn is_empty(&self) -> bool
        ensures { IsTrue result → self.now ≡ [] }
    {
        self.used == 0
    }

    /// Forgets the lines. Their buffers stay.
    pub fn clear(&mut self)
        ensures { self.new ≡ [] }
    {
        self.used = 0;
    }

    // Keeps a line behind the others.
    fn push(&mut self, level: Level, line: &[u8]) -> Result<(), AllocError>
        ensures { self.new ≡ one_more_line (is_ok result) level line.now self.old }
    {
        if self.used == self.buffers.len() {
            self.buffers.push(PendingLine {
                level,
                bytes: Vec::new(self.alloc),
            })?;
        }
        let buffer = &mut self.buffers[self.used];
        buffer.level = level;
        buffer.bytes.clear();
        buffer.bytes.extend_from_slice(line)?;
        self.used += 1;
        Ok(())
    }
}

impl MakeWriter for PendingLines {
    ghost use Rattle.std.specs.Prelude.{◌≡◌, true};
    ghost use Rattle.span_tracing_outputs.specs.BufferedLines.{TakesLine};

    ghost takes = { λ maker m b. b ≡ true };

    ghost writes = { TakesLine };

    fn writes_for(&self, _metadata: &Metadata<'_>) -> bool {
        true
    }

    fn write_for(&mut self, metadata: &Metadata<'_>, line: &[u8]) -> io::Result<()> {
        match self.push(*metadata.level(), line) {
            Ok(()) => Ok(()),
            Err(_) => Err(io::Error::from(ErrorKind::OutOfMemory)),
        }
    }
}
