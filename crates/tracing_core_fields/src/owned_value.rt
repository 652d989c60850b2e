//! Values of fields that are owned.
ghost use Rattle.std.specs.Prelude.{◌≡◌};
ghost use Rattle.tracing_core_fields.specs.OwnedValues.{plain_owned};
ghost use Rattle.tracing_core_fields.specs.PlainValue.{plain_value};

use crate::debug_text::DebugText;
use crate::error_text::ErrorText;
use crate::value_set::AnyValue;

/// The value of a field, which can be kept.
#[derive(Debug, Drop)]
pub enum OwnedValue {
    /// A signed number of at most 64 bits.
    I64(i64),
    /// An unsigned number of at most 64 bits.
    U64(u64),
    /// A signed number of 128 bits.
    I128(i128),
    /// An unsigned number of 128 bits.
    U128(u128),
    /// A bool.
    Bool(bool),
    /// A text.
    Text(String),
    /// Bytes that need not be a text.
    Bytes(Vec<u8>),
    /// An error.
    Error {
        /// What it prints.
        text: String,
        /// What its source prints, the source of that, and so on.
        sources: Vec<String>,
    },
    /// Anything else that has Rust's `Debug`, by its texts.
    Debug {
        /// What `{:?}` writes.
        plain: String,
        /// What `{:#?}` writes.
        alternate: String,
    },
    /// A value whose text can't be written: formatting it is an error.
    Failing,
    /// No value: the field is passed over.
    Empty,
}

impl OwnedValue {
    /// The value, lent.
    pub fn lend(&self) -> AnyValue<'_>
        ensures { plain_value result ≡ plain_owned self.now }
    {
        match self {
            OwnedValue::I64(number) => AnyValue::I64(*number),
            OwnedValue::U64(number) => AnyValue::U64(*number),
            OwnedValue::I128(number) => AnyValue::I128(*number),
            OwnedValue::U128(number) => AnyValue::U128(*number),
            OwnedValue::Bool(truth) => AnyValue::Bool(*truth),
            OwnedValue::Text(text) => AnyValue::Str(text.as_str()),
            OwnedValue::Bytes(bytes) => AnyValue::Bytes(bytes.as_slice()),
            OwnedValue::Error { text, sources } => {
                AnyValue::Error(ErrorText::of_strings(text.as_str(), sources.as_slice()))
            }
            OwnedValue::Debug { plain, alternate } => AnyValue::Debug(DebugText::Texts {
                plain: plain.as_str(),
                alternate: alternate.as_str(),
            }),
            OwnedValue::Failing => AnyValue::Debug(DebugText::Failing),
            OwnedValue::Empty => AnyValue::Empty,
        }
    }
}

/// A field, by its index in its set, with its value.
#[derive(Debug, Drop)]
pub struct FieldValue {
    /// The index, from 0. A field past the end of its set is passed over.
    pub field: usize,
    /// The value.
    pub value: OwnedValue,
}
