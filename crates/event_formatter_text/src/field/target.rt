//! Fields written one after another to a text that somebody else lent.
ghost use Rattle.std.specs.Prelude.{◌≡◌, ℕ, List, Some};
ghost use Rattle.tracing_core_fields.specs.DebugText.{plain_debug};
ghost use Rattle.tracing_core_fields.specs.Field.{plain_field};
ghost use Rattle.event_formatter_text.specs.Lists.{Formats};
ghost use Rattle.event_formatter_text.specs.Visitors.{Frame, frame_of};
ghost use Rattle.event_formatter_text.specs.Writers.{written};

use crate::field::write_field::WriteField;
use crate::{FormatError, Writer};
use tracing_core_fields::{DebugText, Field};

// What fields are written to. Where it's a type parameter, a visitor can borrow a writer that it doesn't own: the
// lifetime in the writer's type isn't named then.
pub(crate) trait FieldTarget {
    // What was written.
    ghost text: { Self → List ℕ };

    // What stays of it.
    ghost frame: { Self → Frame };

    // Writes the field by the function.
    fn write_by<F: WriteField>(
        &mut self,
        function: &F,
        field: &Field<'_>,
        value: &DebugText<'_>,
    ) -> Result<(), FormatError>
        ensures same { frame self.new ≡ frame self.old }
        ensures text { F.writes function.now (frame self.old).settings (plain_field field.now) (plain_debug value.now)
            (text self.old) result (text self.new) };

    // Appends a text.
    fn write_text(&mut self, piece: &str) -> Result<(), FormatError>
        ensures same { frame self.new ≡ frame self.old }
        ensures text { Formats (Some piece.now) (text self.old) result (text self.new) };
}

impl FieldTarget for Writer<'_> {
    ghost text = { written };

    ghost frame = { frame_of };

    fn write_by<F: WriteField>(
        &mut self,
        function: &F,
        field: &Field<'_>,
        value: &DebugText<'_>,
    ) -> Result<(), FormatError> {
        function.write_field(self, field, value)
    }

    fn write_text(&mut self, piece: &str) -> Result<(), FormatError> {
        self.write_str(piece)?;
        Ok(())
    }
}
