//! Closures that write a field.
ghost use Rattle.std.specs.Prelude.{◌≡◌};

use crate::field::write_field::WriteField;
use crate::{FormatError, Writer};
use std::alloc::Global;
use tracing_core_fields::{DebugText, Field};

/// Appends a field to a text, and gives the text back.
pub type AppendField = Box<
    dyn Fn(String, &Field<'_>, &DebugText<'_>) -> Result<String, FormatError>,
>;

/// Writes a field by a closure.
///
/// In Rust such a closure is handed the writer. Here it is handed an empty text, and what it gives back is written.
#[derive(Drop)]
pub struct FieldClosure {
    pub(crate) alloc: Global,
    pub(crate) closure: AppendField,
    ghost callable: { AppendField.IsAlwaysCallable closure },
}

impl FieldClosure {
    ghost use Rattle.tracing_core_fields.specs.DebugText.{plain_debug};
    ghost use Rattle.tracing_core_fields.specs.Field.{plain_field};
    ghost use Rattle.event_formatter_text.specs.field.Closures.{AppendsField};

    /// Writes by the closure.
    pub fn new(alloc: Global, closure: AppendField) -> FieldClosure
        requires { AppendField.IsAlwaysCallable closure }
        ensures { result.closure ≡ closure }
    {
        FieldClosure { alloc, closure }
    }

    // What the closure makes of the text.
    fn append(
        &self,
        text: String,
        field: &Field<'_>,
        value: &DebugText<'_>,
    ) -> Result<String, FormatError>
        ensures { AppendsField (AppendField.post self.now.closure) (plain_field field.now)
            (plain_debug value.now) text result }
    {
        (self.closure)(text, field, value)
    }
}

impl WriteField for FieldClosure {
    ghost use Rattle.event_formatter_text.specs.field.Closures.{AppendsField, WritesByClosure};

    ghost writes = { λ function _ field value before answer after.
        WritesByClosure (AppendsField (AppendField.post function.closure) field value) before answer after };

    fn write_field(
        &self,
        writer: &mut Writer<'_>,
        field: &Field<'_>,
        value: &DebugText<'_>,
    ) -> Result<(), FormatError> {
        match self.append(String::new(self.alloc), field, value) {
            Ok(text) => {
                writer.write_str(text.as_str())?;
                Ok(())
            }
            Err(error) => Err(error),
        }
    }
}
