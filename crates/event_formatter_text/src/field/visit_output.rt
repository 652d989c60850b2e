//! Visitors that can be finished, and visitors that write to a text or to a writer of bytes.
ghost use Rattle.std.specs.Prelude.{◌≡◌, ℕ, List, Result};
ghost use Rattle.event_formatter_text.specs.field.VisitResults.{VisitsAndFinishes};

use crate::RecordFields;
use tracing_core_fields::Visit;

/// A visitor that gives something when it has seen all fields.
pub trait VisitOutput<Out>: Visit + Drop {
    // What it may give at the end.
    ghost finishes: { Self → Out → Type 0 };

    /// What the visit comes to.
    fn finish(self) -> Out
        ensures { finishes self result };

    /// Takes all values of the fields, and gives what the visit comes to.
    ///
    /// # Errors
    ///
    /// The first refusal, which ends the visit.
    fn visit<R: RecordFields>(mut self, fields: &R) -> Result<Out, Self::Error>
    where
        Self: Sized,
        ensures { VisitsAndFinishes Self.shows finishes (R.values fields.now) self result }
    {
        match fields.record(&mut self) {
            Ok(()) => Ok(self.finish()),
            Err(error) => Err(error),
        }
    }
}

/// A visitor that writes to a text, to which others may write between its fields.
pub trait VisitFmt: Visit {
    // What appending a text may answer, and leave.
    ghost appends: { Self → List ℕ → Result (Unit {0}) Self.Error → Self → Type 0 };

    /// Appends a text to what the visitor writes.
    ///
    /// # Errors
    ///
    /// Out of memory, as the visitor tells it.
    fn write_str(&mut self, text: &str) -> Result<(), Self::Error>
        ensures { appends self.old text.now result self.new };
}

/// A visitor that writes bytes, to which others may write between its fields.
pub trait VisitWrite: Visit {
    // What appending bytes may answer, and leave.
    ghost appends_bytes: { Self → List ℕ → Result (Unit {0}) Self.Error → Self → Type 0 };

    /// Appends bytes to what the visitor writes.
    ///
    /// # Errors
    ///
    /// A failure of what the visitor writes to, as the visitor tells it.
    fn write_all(&mut self, bytes: &[u8]) -> Result<(), Self::Error>
        ensures { appends_bytes self.old bytes.now result self.new };
}
