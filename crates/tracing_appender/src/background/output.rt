//! What a worker writes to.

ghost use Rattle.std.specs.Prelude.{List, OnOk, Result, ℕ};
ghost use Rattle.std.specs.Io.KnownBytes.{Appends};
ghost use Rattle.std.specs.declared.io.Error.{Error};

use std::io;
use std::io::Write;

/// Takes lines, each by one call. Every writer is one: it writes a line by one `write_all`.
pub(crate) trait LineOutput {
    // What writing a line may answer, and leave.
    ghost writes: { Self → List ℕ → Result (Unit {0}) Error → Self → Type 0 };

    fn write_line(&mut self, line: &[u8]) -> io::Result<()>
        ensures { writes self.old line.now result self.new };
}

impl<W: Write> LineOutput for W {
    ghost writes = { λ old line answer new. OnOk answer (Appends (W.contents old) (W.contents new) line) };

    fn write_line(&mut self, line: &[u8]) -> io::Result<()> {
        self.write_all(line)
    }
}
