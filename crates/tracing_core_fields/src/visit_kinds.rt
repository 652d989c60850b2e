//! What takes the values of fields, each by the call of its kind.
ghost use Rattle.std.specs.Prelude.{Result};
ghost use Rattle.tracing_core_fields.specs.DebugText.{plain_debug};
ghost use Rattle.tracing_core_fields.specs.ErrorText.{error_text, source_texts};
ghost use Rattle.tracing_core_fields.specs.Field.{plain_field};
ghost use Rattle.tracing_core_fields.specs.PlainField.{PlainField};
ghost use Rattle.tracing_core_fields.specs.PlainValue.{PlainValue, Signed, Unsigned, WideSigned, WideUnsigned, Truth, Text, Bytes, Error};
ghost use Rattle.tracing_core_fields.specs.PlainValue.{Debug, debug_of};

use crate::debug_text::DebugText;
use crate::error_text::ErrorText;
use crate::field::Field;
use crate::visit::Visit;

/// Takes the values of fields, one after another, each by the call of its kind.
///
/// Each call may refuse, which ends the visit. No call stands for another one. Each [`Visit`] is one of these.
pub trait VisitKinds {
    /// What a refusal says.
    type Error: Drop;

    // What a call may do: the visitor that it meets, the field, the value, what it answers, and the visitor that
    // it leaves.
    ghost takes: { Self → PlainField → PlainValue → Result (Unit {0}) Self.Error → Self → Type 0 };

    /// Takes a signed number of at most 64 bits.
    fn record_i64(&mut self, field: &Field<'_>, value: i64) -> Result<(), Self::Error>
        ensures { takes self.old (plain_field field.now) (Signed value) result self.new };

    /// Takes an unsigned number of at most 64 bits.
    fn record_u64(&mut self, field: &Field<'_>, value: u64) -> Result<(), Self::Error>
        ensures { takes self.old (plain_field field.now) (Unsigned value) result self.new };

    /// Takes a signed number of 128 bits.
    fn record_i128(&mut self, field: &Field<'_>, value: i128) -> Result<(), Self::Error>
        ensures { takes self.old (plain_field field.now) (WideSigned value) result self.new };

    /// Takes an unsigned number of 128 bits.
    fn record_u128(&mut self, field: &Field<'_>, value: u128) -> Result<(), Self::Error>
        ensures { takes self.old (plain_field field.now) (WideUnsigned value) result self.new };

    /// Takes a bool.
    fn record_bool(&mut self, field: &Field<'_>, value: bool) -> Result<(), Self::Error>
        ensures { takes self.old (plain_field field.now) (Truth value) result self.new };

    /// Takes a text.
    fn record_str(&mut self, field: &Field<'_>, value: &str) -> Result<(), Self::Error>
        ensures { takes self.old (plain_field field.now) (Text value.now) result self.new };

    /// Takes bytes.
    fn record_bytes(&mut self, field: &Field<'_>, value: &[u8]) -> Result<(), Self::Error>
        ensures { takes self.old (plain_field field.now) (Bytes value.now) result self.new };

    /// Takes an error.
    fn record_error(&mut self, field: &Field<'_>, value: &ErrorText<'_>) -> Result<(), Self::Error>
        ensures { takes self.old (plain_field field.now) (Error (error_text value.now) (source_texts value.now))
            result self.new };

    /// Takes anything else, by its debug text.
    fn record_debug(&mut self, field: &Field<'_>, value: &DebugText<'_>) -> Result<(), Self::Error>
        ensures { takes self.old (plain_field field.now) (Debug (plain_debug value.now)) result self.new };
}

impl<V: Visit> VisitKinds for V {
    type Error = V::Error;

    ghost takes = { λ before field value answer after. V.shows before field (debug_of value) answer after };

    #[inline(always)]
    fn record_i64(&mut self, field: &Field<'_>, value: i64) -> Result<(), V::Error> {
        Visit::record_i64(self, field, value)
    }

    #[inline(always)]
    fn record_u64(&mut self, field: &Field<'_>, value: u64) -> Result<(), V::Error> {
        Visit::record_u64(self, field, value)
    }

    #[inline(always)]
    fn record_i128(&mut self, field: &Field<'_>, value: i128) -> Result<(), V::Error> {
        Visit::record_i128(self, field, value)
    }

    #[inline(always)]
    fn record_u128(&mut self, field: &Field<'_>, value: u128) -> Result<(), V::Error> {
        Visit::record_u128(self, field, value)
    }

    #[inline(always)]
    fn record_bool(&mut self, field: &Field<'_>, value: bool) -> Result<(), V::Error> {
        Visit::record_bool(self, field, value)
    }

    #[inline(always)]
    fn record_str(&mut self, field: &Field<'_>, value: &str) -> Result<(), V::Error> {
        Visit::record_str(self, field, value)
    }

    #[inline(always)]
    fn record_bytes(&mut self, field: &Field<'_>, value: &[u8]) -> Result<(), V::Error> {
        Visit::record_bytes(self, field, value)
    }

    #[inline(always)]
    fn record_error(&mut self, field: &Field<'_>, value: &ErrorText<'_>) -> Result<(), V::Error> {
        Visit::record_error(self, field, value)
    }

    #[inline(always)]
    fn record_debug(&mut self, field: &Field<'_>, value: &DebugText<'_>) -> Result<(), V::Error> {
        Visit::record_debug(self, field, value)
    }
}
