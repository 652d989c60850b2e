//! A write that is tried again while it is interrupted.

ghost use Rattle.std.specs.Prelude.{◌≡◌, ◌≢◌, ◌≤◌, ◌↔◌, ℕ, List, Option, IfOk, IfErr, length};
ghost use Rattle.std.specs.IoError.{error_kind};
ghost use Rattle.tracing_appender_rolling.specs.folders.Attempts.{AttemptGives, FirstAnswer, is_within};
ghost use Rattle.tracing_appender_rolling.specs.declared.folders.attempts.Attempt.{Attempt};

use crate::folders::fault::{FolderError, FolderFault};
use crate::folders::system::fault_of;
use std::io::{self, ErrorKind, Write};

/// How often a write is tried in all: once, and again up to 1,000 times while it is interrupted.
const TRIES: u32 = 1_001;

/// What one attempt to write gave.
#[derive(Clone, Copy, Debug)]
pub(crate) enum Attempt {
    Took(usize),
    Interrupted,
    Failed(FolderError),
}

/// What can be tried again and again.
pub(crate) trait Attempts {
    /// What the coming attempts give of the bytes that they are handed, the next one at 0, where that is known.
    /// Of a file of the system nothing is.
    ghost coming: { Self → Option (ℕ → List ℕ → Attempt) };

    fn attempt(&mut self, bytes: &[u8]) -> Attempt
        ensures bound { is_within (length bytes.now) result }
        ensures gives { AttemptGives (coming self.old) bytes.now result (coming self.new) };
}

impl<W: Write> Attempts for W {
    ghost use Rattle.std.specs.Prelude.{None};

    ghost coming = { λ _. None };

    fn attempt(&mut self, bytes: &[u8]) -> Attempt {
        attempt_of(self.write(bytes))
    }
}

/// What the answer of a write is as an attempt.
fn attempt_of(answer: io::Result<usize>) -> Attempt
    ensures took { IfOk answer (λ n. result ≡ Attempt.Took n) }
    ensures interrupted { IfErr answer (λ e. (result ≡ Attempt.Interrupted) ↔ (error_kind e ≡ ErrorKind.Interrupted)) }
    ensures failed { IfErr answer (λ e. (n : ℕ) → result ≢ Attempt.Took n) }
{
    match answer {
        Ok(taken) => Attempt::Took(taken),
        Err(error) if error.kind() == ErrorKind::Interrupted => Attempt::Interrupted,
        Err(error) => Attempt::Failed(fault_of(&error)),
    }
}

/// Writes once, and again while it is interrupted, up to 1,000 times; then it is refused. The first answer that
/// is no interruption is given, and no attempt comes after it.
pub(crate) fn write_tries<A: Attempts>(file: &mut A, bytes: &[u8]) -> Result<usize, FolderError>
    ensures bound { IfOk result (λ n. n ≤ length bytes.now) }
    ensures first { FirstAnswer 1001 (A.coming file.old) bytes.now result (A.coming file.new) }
{
    for _ in 0..TRIES {
        match file.attempt(bytes) {
            Attempt::Took(taken) => return Ok(taken),
            Attempt::Interrupted => {}
            Attempt::Failed(error) => return Err(error),
        }
    }
    Err(FolderError::Fault(FolderFault::Refused))
}
