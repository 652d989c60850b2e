//! Lines of a formatter.

ghost use Rattle.std.specs.Prelude.{◌≡◌, ◌⊎◌, IfErr, true};
ghost use Rattle.std.specs.IoError.{error_kind};
ghost use Rattle.std.specs.declared.io.ErrorKind.{ErrorKind};

use crate::background::sender::NonBlocking;
use event_formatter_text::MakeWriter;
use std::io;
use std::io::Write;
use std::sync::Wait;
use tracing_core_fields::Metadata;

/// Each line is sent whole, by one `write_all`, whatever its metadata.
impl<R: Wait + Drop> MakeWriter for NonBlocking<R> {
    ghost takes = { λ maker metadata answer. answer ≡ true };

    ghost writes = { λ maker metadata line answer after. (after ≡ maker) ×
        IfErr answer (λ error. (error_kind error ≡ ErrorKind.Other) ⊎ (error_kind error ≡ ErrorKind.OutOfMemory)) };

    fn writes_for(&self, _metadata: &Metadata<'_>) -> bool {
        true
    }

    fn write_for(&mut self, _metadata: &Metadata<'_>, line: &[u8]) -> io::Result<()> {
        self.write_all(line)
    }
}
