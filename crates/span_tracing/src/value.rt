//! What a field can be given, and how the macros lend it to a request.
ghost use Rattle.std.specs.Prelude.{◌≡◌, Some};
ghost use Rattle.tracing_core_fields.specs.PlainValue.{Bytes, Signed, Text, Truth, Unsigned, WideSigned, WideUnsigned, plain_value};

pub use tracing_core_fields::{
    AnyValue, DebugText, DebugValue, DisplayValue, ErrorText, LentValue, Value, debug, display,
};

/// Lends a value to a request. [`event!`](crate::event), [`span!`](crate::span) and [`record!`](crate::record) call its method, so a
/// program that uses them imports it, as `write!` wants `Write`.
pub trait Lend<'v> {
    ghost use Rattle.std.specs.Prelude.{Option};
    ghost use Rattle.tracing_core_fields.specs.PlainValue.{PlainValue};

    // What is lent, or that nothing is.
    ghost lent: { Self → Option PlainValue };

    /// The value. Of a text that is lent already this is the same loan, and no loan of the variable: so a function that hands on a
    /// parameter can be proved.
    fn lend(self) -> AnyValue<'v>
        ensures { plain_value result ≡ lent self };
}

impl<'v, T: Value> Lend<'v> for &'v T {
    ghost lent = { λ value. T.meaning value.now };

    fn lend(self) -> AnyValue<'v> {
        self.value()
    }
}

impl<'v> Lend<'v> for &'v str {
    ghost lent = { λ text. Some (Text text.now) };

    fn lend(self) -> AnyValue<'v> {
        let text: &'v str = self;
        AnyValue::Str(text)
    }
}

/// A literal that a request is given. The macros call it.
pub trait Literal {
    ghost use Rattle.std.specs.Prelude.{Option};
    ghost use Rattle.tracing_core_fields.specs.PlainValue.{PlainValue};

    // What the literal says.
    ghost said: { Self → Option PlainValue };

    /// The value, as long as the mark is lent. A text that lasts for ever can't stand in one list with two loans of other lengths, if the
    /// function is to be proved.
    fn literal<'m>(self, mark: &'m bool) -> AnyValue<'m>
        ensures { plain_value result ≡ said self };
}

impl Literal for &'static str {
    ghost said = { λ text. Some (Text text.now) };

    fn literal<'m>(self, _mark: &'m bool) -> AnyValue<'m> {
        AnyValue::Str(self)
    }
}

impl<const N: usize> Literal for &'static [u8; N] {
    ghost said = { λ bytes. Some (Bytes bytes.now) };

    fn literal<'m>(self, _mark: &'m bool) -> AnyValue<'m> {
        AnyValue::Bytes(self)
    }
}

impl Literal for i8 {
    ghost said = { λ n. Some (Signed n) };

    fn literal<'m>(self, _mark: &'m bool) -> AnyValue<'m> {
        AnyValue::I64(i64::from(self))
    }
}

impl Literal for i16 {
    ghost said = { λ n. Some (Signed n) };

    fn literal<'m>(self, _mark: &'m bool) -> AnyValue<'m> {
        AnyValue::I64(i64::from(self))
    }
}

impl Literal for i32 {
    ghost said = { λ n. Some (Signed n) };

    fn literal<'m>(self, _mark: &'m bool) -> AnyValue<'m> {
        AnyValue::I64(i64::from(self))
    }
}

impl Literal for i64 {
    ghost said = { λ n. Some (Signed n) };

    fn literal<'m>(self, _mark: &'m bool) -> AnyValue<'m> {
        AnyValue::I64(self)
    }
}

impl Literal for isize {
    ghost said = { λ n. Some (Signed n) };

    fn literal<'m>(self, _mark: &'m bool) -> AnyValue<'m> {
        AnyValue::I64(self as i64)
    }
}

impl Literal for i128 {
    ghost said = { λ n. Some (WideSigned n) };

    fn literal<'m>(self, _mark: &'m bool) -> AnyValue<'m> {
        AnyValue::I128(self)
    }
}

impl Literal for u8 {
    ghost said = { λ n. Some (Unsigned n) };

    fn literal<'m>(self, _mark: &'m bool) -> AnyValue<'m> {
        AnyValue::U64(u64::from(self))
    }
}

impl Literal for u16 {
    ghost said = { λ n. Some (Unsigned n) };

    fn literal<'m>(self, _mark: &'m bool) -> AnyValue<'m> {
        AnyValue::U64(u64::from(self))
    }
}

impl Literal for u32 {
    ghost said = { λ n. Some (Unsigned n) };

    fn literal<'m>(self, _mark: &'m bool) -> AnyValue<'m> {
        AnyValue::U64(u64::from(self))
    }
}

impl Literal for u64 {
    ghost said = { λ n. Some (Unsigned n) };

    fn literal<'m>(self, _mark: &'m bool) -> AnyValue<'m> {
        AnyValue::U64(self)
    }
}

impl Literal for usize {
    ghost said = { λ n. Some (Unsigned n) };

    fn literal<'m>(self, _mark: &'m bool) -> AnyValue<'m> {
        AnyValue::U64(self as u64)
    }
}

impl Literal for u128 {
    ghost said = { λ n. Some (WideUnsigned n) };

    fn literal<'m>(self, _mark: &'m bool) -> AnyValue<'m> {
        AnyValue::U128(self)
    }
}

impl Literal for bool {
    ghost said = { λ b. Some (Truth b) };

    fn literal<'m>(self, _mark: &'m bool) -> AnyValue<'m> {
        AnyValue::Bool(self)
    }
}
