//! Visitors that write each field by a function.
ghost use Rattle.std.specs.Prelude.{◌≡◌};

use crate::field::make_visitor::MakeVisitor;
use crate::field::visit_output::{VisitFmt, VisitOutput};
use crate::field::write_field::WriteField;
use crate::{FormatError, Writer};
use tracing_core_fields::{DebugText, Field, Visit};

/// Makes visitors that write each field by a function. Its reference is the maker, since the visitors borrow the
/// function.
#[derive(Clone, Copy, Debug)]
pub struct FieldFn<F> {
    pub(crate) function: F,
}

/// Writes each field by the function.
pub fn debug_fn<F: WriteField>(function: F) -> FieldFn<F>
    ensures { result.function ≡ function }
{
    FieldFn { function }
}

/// Writes each field by a function, with nothing between two fields. A refusal of the function ends the visit.
#[derive(Drop)]
pub struct FieldFnVisitor<'f, 'w, F> {
    pub(crate) function: &'f F,
    pub(crate) writer: Writer<'w>,
}

impl<F: WriteField> Visit for FieldFnVisitor<'_, '_, F> {
    ghost use Rattle.event_formatter_text.specs.field.Functions.{ShowsByFunction};

    type Error = FormatError;

    ghost shows = { ShowsByFunction F.writes };

    fn record_debug(
        &mut self,
        field: &Field<'_>,
        value: &DebugText<'_>,
    ) -> Result<(), FormatError> {
        self.function.write_field(&mut self.writer, field, value)
    }
}

impl<F: WriteField> VisitFmt for FieldFnVisitor<'_, '_, F> {
    ghost use Rattle.event_formatter_text.specs.field.Functions.{AppendsText};

    ghost appends = { AppendsText };

    fn write_str(&mut self, text: &str) -> Result<(), FormatError> {
        self.writer.write_str(text)?;
        Ok(())
    }
}

impl<F: WriteField> VisitOutput<()> for FieldFnVisitor<'_, '_, F> {
    ghost finishes = { λ _ _. Unit {0} };

    fn finish(self) {}
}

impl<'f, 'w, F: WriteField> MakeVisitor<Writer<'w>> for &'f FieldFn<F> {
    type Visitor = FieldFnVisitor<'f, 'w, F>;

    ghost makes = { λ maker target visitor. (visitor.function.now ≡ maker.now.function) × (visitor.writer ≡ target) };

    fn make_visitor(&self, target: Writer<'w>) -> FieldFnVisitor<'f, 'w, F> {
        FieldFnVisitor {
            function: &self.function,
            writer: target,
        }
    }
}
