//! What the visitors that write fields come to, and texts between their fields.

use crate::field::visit_output::{VisitFmt, VisitOutput};
use crate::{DefaultVisitor, FormatError, JsonVisitor, PrettyVisitor};

impl VisitOutput<()> for DefaultVisitor<'_> {
    ghost finishes = { λ _ _. Unit {0} };

    fn finish(self) {}
}

impl VisitOutput<()> for PrettyVisitor<'_> {
    ghost finishes = { λ _ _. Unit {0} };

    fn finish(self) {}
}

impl VisitOutput<()> for JsonVisitor<'_> {
    ghost finishes = { λ _ _. Unit {0} };

    fn finish(self) {}
}

impl VisitFmt for DefaultVisitor<'_> {
    ghost use Rattle.event_formatter_text.specs.field.AppendedText.{AppendsByDefault};

    ghost appends = { AppendsByDefault };

    fn write_str(&mut self, text: &str) -> Result<(), FormatError> {
        DefaultVisitor::write_str(self, text)?;
        Ok(())
    }
}

impl VisitFmt for PrettyVisitor<'_> {
    ghost use Rattle.event_formatter_text.specs.field.AppendedText.{AppendsPrettily};

    ghost appends = { AppendsPrettily };

    fn write_str(&mut self, text: &str) -> Result<(), FormatError> {
        PrettyVisitor::write_str(self, text)?;
        Ok(())
    }
}

impl VisitFmt for JsonVisitor<'_> {
    ghost use Rattle.event_formatter_text.specs.field.AppendedText.{AppendsAsJson};

    ghost appends = { AppendsAsJson };

    fn write_str(&mut self, text: &str) -> Result<(), FormatError> {
        JsonVisitor::write_str(self, text)?;
        Ok(())
    }
}
