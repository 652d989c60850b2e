//! Whole numbers as values: up to 64 bits as such numbers, and those of 128 bits as wide ones.
ghost use Rattle.std.specs.Prelude.{Some};
ghost use Rattle.std.specs.Int.NonZero.{non_zero_i8_get, non_zero_i16_get, non_zero_i32_get, non_zero_i64_get, non_zero_isize_get};
ghost use Rattle.std.specs.Int.NonZero.{non_zero_i128_get, non_zero_u8_get, non_zero_u16_get, non_zero_u32_get, non_zero_u64_get};
ghost use Rattle.std.specs.Int.NonZero.{non_zero_usize_get, non_zero_u128_get};
ghost use Rattle.tracing_core_fields.specs.PlainValue.{Signed, Unsigned, WideSigned, WideUnsigned};

use crate::AnyValue;
use crate::value::Value;
use std::num::{
    NonZeroI8, NonZeroI16, NonZeroI32, NonZeroI64, NonZeroI128, NonZeroIsize, NonZeroU8,
    NonZeroU16, NonZeroU32, NonZeroU64, NonZeroU128, NonZeroUsize,
};

impl Value for i8 {
    ghost meaning = { λ n. Some (Signed n) };

    fn value(&self) -> AnyValue<'_> {
        AnyValue::I64(i64::from(*self))
    }
}

impl Value for i16 {
    ghost meaning = { λ n. Some (Signed n) };

    fn value(&self) -> AnyValue<'_> {
        AnyValue::I64(i64::from(*self))
    }
}

impl Value for i32 {
    ghost meaning = { λ n. Some (Signed n) };

    fn value(&self) -> AnyValue<'_> {
        AnyValue::I64(i64::from(*self))
    }
}

impl Value for i64 {
    ghost meaning = { λ n. Some (Signed n) };

    fn value(&self) -> AnyValue<'_> {
        AnyValue::I64(*self)
    }
}

impl Value for isize {
    ghost meaning = { λ n. Some (Signed n) };

    fn value(&self) -> AnyValue<'_> {
        AnyValue::I64(*self as i64)
    }
}

impl Value for i128 {
    ghost meaning = { λ n. Some (WideSigned n) };

    fn value(&self) -> AnyValue<'_> {
        AnyValue::I128(*self)
    }
}

impl Value for u8 {
    ghost meaning = { λ n. Some (Unsigned n) };

    fn value(&self) -> AnyValue<'_> {
        AnyValue::U64(u64::from(*self))
    }
}

impl Value for u16 {
    ghost meaning = { λ n. Some (Unsigned n) };

    fn value(&self) -> AnyValue<'_> {
        AnyValue::U64(u64::from(*self))
    }
}

impl Value for u32 {
    ghost meaning = { λ n. Some (Unsigned n) };

    fn value(&self) -> AnyValue<'_> {
        AnyValue::U64(u64::from(*self))
    }
}

impl Value for u64 {
    ghost meaning = { λ n. Some (Unsigned n) };

    fn value(&self) -> AnyValue<'_> {
        AnyValue::U64(*self)
    }
}

impl Value for usize {
    ghost meaning = { λ n. Some (Unsigned n) };

    fn value(&self) -> AnyValue<'_> {
        AnyValue::U64(*self as u64)
    }
}

impl Value for u128 {
    ghost meaning = { λ n. Some (WideUnsigned n) };

    fn value(&self) -> AnyValue<'_> {
        AnyValue::U128(*self)
    }
}

impl Value for NonZeroI8 {
    ghost meaning = { λ n. Some (Signed (non_zero_i8_get n)) };

    fn value(&self) -> AnyValue<'_> {
        AnyValue::I64(i64::from(self.get()))
    }
}

impl Value for NonZeroI16 {
    ghost meaning = { λ n. Some (Signed (non_zero_i16_get n)) };

    fn value(&self) -> AnyValue<'_> {
        AnyValue::I64(i64::from(self.get()))
    }
}

impl Value for NonZeroI32 {
    ghost meaning = { λ n. Some (Signed (non_zero_i32_get n)) };

    fn value(&self) -> AnyValue<'_> {
        AnyValue::I64(i64::from(self.get()))
    }
}

impl Value for NonZeroI64 {
    ghost meaning = { λ n. Some (Signed (non_zero_i64_get n)) };

    fn value(&self) -> AnyValue<'_> {
        AnyValue::I64(self.get())
    }
}

impl Value for NonZeroIsize {
    ghost meaning = { λ n. Some (Signed (non_zero_isize_get n)) };

    fn value(&self) -> AnyValue<'_> {
        AnyValue::I64(self.get() as i64)
    }
}

impl Value for NonZeroI128 {
    ghost meaning = { λ n. Some (WideSigned (non_zero_i128_get n)) };

    fn value(&self) -> AnyValue<'_> {
        AnyValue::I128(self.get())
    }
}

impl Value for NonZeroU8 {
    ghost meaning = { λ n. Some (Unsigned (non_zero_u8_get n)) };

    fn value(&self) -> AnyValue<'_> {
        AnyValue::U64(u64::from(self.get()))
    }
}

impl Value for NonZeroU16 {
    ghost meaning = { λ n. Some (Unsigned (non_zero_u16_get n)) };

    fn value(&self) -> AnyValue<'_> {
        AnyValue::U64(u64::from(self.get()))
    }
}

impl Value for NonZeroU32 {
    ghost meaning = { λ n. Some (Unsigned (non_zero_u32_get n)) };

    fn value(&self) -> AnyValue<'_> {
        AnyValue::U64(u64::from(self.get()))
    }
}

impl Value for NonZeroU64 {
    ghost meaning = { λ n. Some (Unsigned (non_zero_u64_get n)) };

    fn value(&self) -> AnyValue<'_> {
        AnyValue::U64(self.get())
    }
}

impl Value for NonZeroUsize {
    ghost meaning = { λ n. Some (Unsigned (non_zero_usize_get n)) };

    fn value(&self) -> AnyValue<'_> {
        AnyValue::U64(self.get() as u64)
    }
}

impl Value for NonZeroU128 {
    ghost meaning = { λ n. Some (WideUnsigned (non_zero_u128_get n)) };

    fn value(&self) -> AnyValue<'_> {
        AnyValue::U128(self.get())
    }
}
