//! What users write of a field.
ghost use Rattle.std.specs.Prelude.{◌≡◌, ℕ, List, Option, Result};
ghost use Rattle.tracing_core_fields.specs.DebugText.{plain_debug};
ghost use Rattle.tracing_core_fields.specs.Field.{plain_field};
ghost use Rattle.tracing_core_fields.specs.PlainDebug.{PlainDebug};
ghost use Rattle.tracing_core_fields.specs.PlainField.{PlainField};
ghost use Rattle.event_formatter_text.specs.Lists.{Formats};
ghost use Rattle.event_formatter_text.specs.Writers.{IsSameWriter, settings_of, written};
ghost use Rattle.event_formatter_text.specs.declared.error.FormatError.{FormatError};
ghost use Rattle.event_formatter_text.specs.declared.settings.Settings.{Settings};

use crate::{FormatError, Writer};
use tracing_core_fields::{DebugText, Field};

/// Writes a field.
pub trait WriteField {
    // What a call may do: how it is to write, the field, the value's debug text, the text that stands before, what it
    // answers, and the text that stands after.
    ghost writes: { Self → Settings → PlainField → PlainDebug → List ℕ → Result (Unit {0}) FormatError → List ℕ
        → Type 0 };

    /// Appends the field to what was written.
    ///
    /// # Errors
    ///
    /// A value that can't be formatted, or out of memory. What was appended before is to be dropped.
    fn write_field(
        &self,
        writer: &mut Writer<'_>,
        field: &Field<'_>,
        value: &DebugText<'_>,
    ) -> Result<(), FormatError>
        ensures same { IsSameWriter writer.old writer.new }
        ensures text { writes self.now (settings_of writer.old) (plain_field field.now) (plain_debug value.now)
            (written writer.old) result (written writer.new) };
}

/// Writes a field, always the same text for the same name and value. Such a function gives a field formatter.
pub trait WritePiece: WriteField {
    // What it writes of a value under a name, where that can be formatted.
    ghost piece: { Self → Settings → List ℕ → PlainDebug → Option (List ℕ) };

    // That is all that it appends.
    ghost writes_piece: { (function : Self) (settings : Settings) (field : PlainField) (value : PlainDebug)
        (before : List ℕ) (answer : Result (Unit {0}) FormatError) (after : List ℕ) →
        Self.writes function settings field value before answer after →
        Formats (piece function settings field.name value) before answer after };
}
