//! Fields as members of a JSON object.
ghost use Rattle.std.specs.Prelude.{◌≡◌, ◌++◌, if◌then◌else◌};
ghost use Rattle.std.specs.Result.{is_ok};
ghost use Rattle.tracing_core_fields.specs.DebugText.{plain_debug};
ghost use Rattle.tracing_core_fields.specs.Field.{plain_field};
ghost use Rattle.event_formatter_text.specs.Visitors.{ShowsAsJson};
ghost use Rattle.event_formatter_text.specs.Writers.{IsSameWriter, written};

use crate::error::FormatError;
use crate::writer::Writer;
use std::alloc::AllocError;
use tracing_core_fields::{DebugText, Field, Visit};

/// Writes the values of fields as members of a JSON object, a comma between two, in the order of the visit. A value that
/// can't be formatted ends the visit.
#[derive(Drop)]
pub struct JsonVisitor<'w> {
    writer: Writer<'w>,
    pub(crate) is_empty: bool,
}

impl<'w> JsonVisitor<'w> {
    /// Writes to the writer. Where no member stands before the first field, `is_empty` is true.
    pub fn new(writer: Writer<'w>, is_empty: bool) -> JsonVisitor<'w>
        ensures writer { result.writer ≡ writer.entry }
        ensures empty { result.is_empty ≡ is_empty }
    {
        JsonVisitor { writer, is_empty }
    }

    /// Appends the text as it is.
    ///
    /// # Errors
    ///
    /// Out of memory; nothing was appended then.
    pub fn write_str(&mut self, text: &str) -> Result<(), AllocError>
        ensures same { IsSameWriter self.old.writer self.new.writer }
        ensures empty { self.new.is_empty ≡ self.old.is_empty }
        ensures text { written self.new.writer ≡
            (if is_ok result then written self.old.writer ++ text.now else written self.old.writer) }
    {
        self.writer.write_str(text)
    }

    // Appends a member. It's inlined, so that the kind of a value that is known is not asked again.
    #[inline(always)]
    fn write_member(&mut self, field: &Field<'_>, value: &DebugText<'_>) -> Result<(), FormatError>
        ensures { ShowsAsJson self.old (plain_field field.now) (plain_debug value.now) result self.new }
    {
        let is_first = self.is_empty;
        self.is_empty = false;
        self.writer.write_member(is_first, field.name(), value)
    }
}

impl Visit for JsonVisitor<'_> {
    type Error = FormatError;

    ghost shows = { ShowsAsJson };

    #[inline(always)]
    fn record_i64(&mut self, field: &Field<'_>, value: i64) -> Result<(), FormatError> {
        self.write_member(field, &DebugText::I64(value))
    }

    #[inline(always)]
    fn record_u64(&mut self, field: &Field<'_>, value: u64) -> Result<(), FormatError> {
        self.write_member(field, &DebugText::U64(value))
    }

    #[inline(always)]
    fn record_str(&mut self, field: &Field<'_>, value: &str) -> Result<(), FormatError> {
        self.write_member(field, &DebugText::Str(value))
    }

    // Values of the other kinds are fewer, and share one piece of code.
    #[inline(never)]
    fn record_debug(
        &mut self,
        field: &Field<'_>,
        value: &DebugText<'_>,
    ) -> Result<(), FormatError> {
        self.write_member(field, value)
    }
}
