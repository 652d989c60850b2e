//! Copies of owned values, which may find no memory.
ghost use Rattle.std.specs.Prelude.{◌≡◌};
ghost use Rattle.tracing_core_fields.specs.OwnedCopies.{CopiesField};
ghost use Rattle.tracing_core_fields.specs.OwnedValues.{plain_owned};

use crate::owned_value::{FieldValue, OwnedValue};
use std::alloc::AllocError;

/// A copy says what the value does.
impl Clone for OwnedValue {
    ghost is_clone = { λ value copy. plain_owned copy ≡ plain_owned value };

    #[tactic(auto, using(crate::proofs::OwnedCopies::bytes_copied))]
    fn clone(&self) -> Result<OwnedValue, AllocError> {
        match self {
            OwnedValue::I64(number) => Ok(OwnedValue::I64(*number)),
            OwnedValue::U64(number) => Ok(OwnedValue::U64(*number)),
            OwnedValue::I128(number) => Ok(OwnedValue::I128(*number)),
            OwnedValue::U128(number) => Ok(OwnedValue::U128(*number)),
            OwnedValue::Bool(truth) => Ok(OwnedValue::Bool(*truth)),
            OwnedValue::Text(text) => Ok(OwnedValue::Text(text.clone()?)),
            OwnedValue::Bytes(bytes) => Ok(OwnedValue::Bytes(bytes.clone()?)),
            OwnedValue::Error { text, sources } => Ok(OwnedValue::Error {
                text: text.clone()?,
                sources: sources.clone()?,
            }),
            OwnedValue::Debug { plain, alternate } => Ok(OwnedValue::Debug {
                plain: plain.clone()?,
                alternate: alternate.clone()?,
            }),
            OwnedValue::Failing => Ok(OwnedValue::Failing),
            OwnedValue::Empty => Ok(OwnedValue::Empty),
        }
    }
}

/// A copy is of the same field, and says what the value does.
impl Clone for FieldValue {
    ghost is_clone = { CopiesField };

    fn clone(&self) -> Result<FieldValue, AllocError> {
        Ok(FieldValue {
            field: self.field,
            value: self.value.clone()?,
        })
    }
}
