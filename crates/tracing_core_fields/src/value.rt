//! What can be given to a field.
ghost use Rattle.std.specs.Prelude.{◌≡◌, List, Option, Some, None, option_and_then, string_bytes};
ghost use Rattle.tracing_core_fields.specs.DebugText.{plain_debug};
ghost use Rattle.tracing_core_fields.specs.ErrorText.{error_text, source_texts};
ghost use Rattle.tracing_core_fields.specs.PlainValue.{PlainValue, Truth, Text, Bytes, Error, Debug, plain_value};

use crate::{AnyValue, DebugText, ErrorText};
use std::num::Wrapping;

/// What can be given to a field.
pub trait Value {
    ghost use Rattle.tracing_core_fields.specs.PlainValue.{PlainValue};

    // What is given, or that nothing is.
    ghost meaning: { Self → Option PlainValue };

    /// What the field is given.
    fn value(&self) -> AnyValue<'_>
        ensures { plain_value result ≡ meaning self.now };
}

/// Gives a field no value.
#[derive(Clone, Copy, Debug, Default, PartialEq, Eq)]
pub struct Empty;

impl Value for Empty {
    ghost meaning = { λ _. None };

    fn value(&self) -> AnyValue<'_> {
        AnyValue::Empty
    }
}

impl Value for bool {
    ghost meaning = { λ b. Some (Truth b) };

    fn value(&self) -> AnyValue<'_> {
        AnyValue::Bool(*self)
    }
}

impl Value for &str {
    ghost meaning = { λ text. Some (Text text.now) };

    fn value(&self) -> AnyValue<'_> {
        AnyValue::Str(self)
    }
}

impl Value for String {
    ghost meaning = { λ text. Some (Text (string_bytes text)) };

    fn value(&self) -> AnyValue<'_> {
        AnyValue::Str(self.as_str())
    }
}

impl Value for &[u8] {
    ghost meaning = { λ bytes. Some (Bytes bytes.now) };

    fn value(&self) -> AnyValue<'_> {
        AnyValue::Bytes(self)
    }
}

impl Value for ErrorText<'_> {
    ghost meaning = { λ error. Some (Error (error_text error) (source_texts error)) };

    fn value(&self) -> AnyValue<'_> {
        AnyValue::Error(*self)
    }
}

impl Value for DebugText<'_> {
    ghost meaning = { λ text. Some (Debug (plain_debug text)) };

    fn value(&self) -> AnyValue<'_> {
        AnyValue::Debug(*self)
    }
}

/// A missing value gives a field no value.
impl<T: Value> Value for Option<T> {
    ghost meaning = { λ value. option_and_then T.meaning value };

    fn value(&self) -> AnyValue<'_> {
        match self {
            Some(value) => value.value(),
            None => AnyValue::Empty,
        }
    }
}

impl<T: Value> Value for &T {
    ghost meaning = { λ value. T.meaning value.now };

    fn value(&self) -> AnyValue<'_> {
        (**self).value()
    }
}

impl<T: Value> Value for &mut T {
    ghost meaning = { λ value. T.meaning value.now };

    fn value(&self) -> AnyValue<'_> {
        (**self).value()
    }
}

impl<T: Value> Value for Box<T> {
    ghost meaning = { λ boxed. T.meaning boxed.value };

    fn value(&self) -> AnyValue<'_> {
        (**self).value()
    }
}

impl<T: Value> Value for Wrapping<T> {
    ghost meaning = { λ number. T.meaning number.0 };

    fn value(&self) -> AnyValue<'_> {
        self.0.value()
    }
}
