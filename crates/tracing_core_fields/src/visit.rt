//! What takes the values of fields, one after another, by their debug texts.
ghost use Rattle.std.specs.Prelude.{Result};
ghost use Rattle.tracing_core_fields.specs.DebugText.{plain_debug};
ghost use Rattle.tracing_core_fields.specs.ErrorText.{error_text, source_texts};
ghost use Rattle.tracing_core_fields.specs.Field.{plain_field};
ghost use Rattle.tracing_core_fields.specs.PlainDebug.{PlainDebug, OfSigned, OfUnsigned, OfWideSigned, OfWideUnsigned, OfTruth, OfText};
ghost use Rattle.tracing_core_fields.specs.PlainDebug.{OfBytes, OfError};
ghost use Rattle.tracing_core_fields.specs.PlainField.{PlainField};

use crate::debug_text::DebugText;
use crate::error_text::ErrorText;
use crate::field::Field;

/// Takes the values of fields, one after another.
///
/// Each call may refuse, which ends the visit. A call that a visitor doesn't write hands the value to
/// [`record_debug`](Visit::record_debug), as a debug text that still says which kind of value it is. So a visitor
/// can do other things with a number than with a text that was written before. What it does with a value may not
/// depend on whether the value came by its own call or was handed on; a visitor that has to tell them apart
/// implements [`VisitKinds`](crate::VisitKinds).
pub trait Visit {
    /// What a refusal says.
    type Error: Drop;

    // What a call may do: the visitor that it meets, the field, the value's debug text, what it answers, and the
    // visitor that it leaves.
    ghost shows: { Self → PlainField → PlainDebug → Result (Unit {0}) Self.Error → Self → Type 0 };

    /// Takes a signed number of at most 64 bits.
    fn record_i64(&mut self, field: &Field<'_>, value: i64) -> Result<(), Self::Error>
        ensures { shows self.old (plain_field field.now) (OfSigned value) result self.new }
    {
        self.record_debug(field, &DebugText::I64(value))
    }

    /// Takes an unsigned number of at most 64 bits.
    fn record_u64(&mut self, field: &Field<'_>, value: u64) -> Result<(), Self::Error>
        ensures { shows self.old (plain_field field.now) (OfUnsigned value) result self.new }
    {
        self.record_debug(field, &DebugText::U64(value))
    }

    /// Takes a signed number of 128 bits.
    fn record_i128(&mut self, field: &Field<'_>, value: i128) -> Result<(), Self::Error>
        ensures { shows self.old (plain_field field.now) (OfWideSigned value) result self.new }
    {
        self.record_debug(field, &DebugText::I128(value))
    }

    /// Takes an unsigned number of 128 bits.
    fn record_u128(&mut self, field: &Field<'_>, value: u128) -> Result<(), Self::Error>
        ensures { shows self.old (plain_field field.now) (OfWideUnsigned value) result self.new }
    {
        self.record_debug(field, &DebugText::U128(value))
    }

    /// Takes a bool.
    fn record_bool(&mut self, field: &Field<'_>, value: bool) -> Result<(), Self::Error>
        ensures { shows self.old (plain_field field.now) (OfTruth value) result self.new }
    {
        self.record_debug(field, &DebugText::Bool(value))
    }

    /// Takes a text.
    fn record_str(&mut self, field: &Field<'_>, value: &str) -> Result<(), Self::Error>
        ensures { shows self.old (plain_field field.now) (OfText value.now) result self.new }
    {
        self.record_debug(field, &DebugText::Str(value))
    }

    /// Takes bytes.
    fn record_bytes(&mut self, field: &Field<'_>, value: &[u8]) -> Result<(), Self::Error>
        ensures { shows self.old (plain_field field.now) (OfBytes value.now) result self.new }
    {
        self.record_debug(field, &DebugText::Bytes(value))
    }

    /// Takes an error.
    fn record_error(&mut self, field: &Field<'_>, value: &ErrorText<'_>) -> Result<(), Self::Error>
        ensures { shows self.old (plain_field field.now) (OfError (error_text value.now) (source_texts value.now))
            result self.new }
    {
        self.record_debug(field, &DebugText::Error(*value))
    }

    /// Takes anything else, by its debug text.
    fn record_debug(&mut self, field: &Field<'_>, value: &DebugText<'_>) -> Result<(), Self::Error>
        ensures { shows self.old (plain_field field.now) (plain_debug value.now) result self.new };
}
