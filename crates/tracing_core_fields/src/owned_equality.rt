//! Whether owned values say the same. An absent value says nothing.
ghost use Rattle.std.specs.Prelude.{◌≡◌, ◌≤◌, ◌↔◌, IsTrue, None, length, map, string_bytes};
ghost use Rattle.tracing_core_fields.specs.OwnedCopies.{BeginsPresent};
ghost use Rattle.tracing_core_fields.specs.OwnedValues.{owned_entries, plain_owned};

use crate::owned_value::{FieldValue, OwnedValue};

fn is_same_text(one: &String, other: &String) -> bool
    ensures { IsTrue result ↔ string_bytes one.now ≡ string_bytes other.now }
{
    one.as_str() == other.as_str()
}

fn are_same_texts(ones: &[String], others: &[String]) -> bool
    ensures { IsTrue result ↔ map string_bytes ones.now ≡ map string_bytes others.now }
{
    let mut left = ones;
    let mut right = others;
    while let [one, later @ ..] = left {
        let [other, more @ ..] = right else {
            return false;
        };
        if !is_same_text(one, other) {
            return false;
        }
        left = later;
        right = more;
    }
    right.is_empty()
}

impl OwnedValue {
    /// Whether both say the same. Two that are absent do.
    pub fn is_same(&self, other: &OwnedValue) -> bool
        ensures { IsTrue result ↔ plain_owned self.now ≡ plain_owned other.now }
    {
        match (self, other) {
            (OwnedValue::I64(a), OwnedValue::I64(b)) => *a == *b,
            (OwnedValue::U64(a), OwnedValue::U64(b)) => *a == *b,
            (OwnedValue::I128(a), OwnedValue::I128(b)) => *a == *b,
            (OwnedValue::U128(a), OwnedValue::U128(b)) => *a == *b,
            (OwnedValue::Bool(a), OwnedValue::Bool(b)) => *a == *b,
            (OwnedValue::Text(a), OwnedValue::Text(b)) => is_same_text(a, b),
            (OwnedValue::Bytes(a), OwnedValue::Bytes(b)) => a.as_slice() == b.as_slice(),
            (
                OwnedValue::Error {
                    text: a,
                    sources: behind_a,
                },
                OwnedValue::Error {
                    text: b,
                    sources: behind_b,
                },
            ) => is_same_text(a, b) && are_same_texts(behind_a.as_slice(), behind_b.as_slice()),
            (
                OwnedValue::Debug {
                    plain: a,
                    alternate: long_a,
                },
                OwnedValue::Debug {
                    plain: b,
                    alternate: long_b,
                },
            ) => is_same_text(a, b) && is_same_text(long_a, long_b),
            (OwnedValue::Failing, OwnedValue::Failing) => true,
            (OwnedValue::Empty, OwnedValue::Empty) => true,
            _ => false,
        }
    }
}

fn is_absent(given: &FieldValue) -> bool
    ensures { IsTrue result ↔ plain_owned given.now.value ≡ None }
{
    matches!(given.value, OwnedValue::Empty)
}

// From the first present value on.
fn from_present(values: &[FieldValue]) -> &[FieldValue]
    ensures same { owned_entries result.now ≡ owned_entries values.now }
    ensures begins { BeginsPresent result.now }
    ensures shorter { length result.now ≤ length values.now }
{
    let mut left = values;
    while let [given, later @ ..] = left {
        if !is_absent(given) {
            return left;
        }
        left = later;
    }
    left
}

/// Whether two lists give the same fields the same values, in the same order. Absent values are passed over.
pub fn are_same_values(ones: &[FieldValue], others: &[FieldValue]) -> bool
    ensures { IsTrue result ↔ owned_entries ones.now ≡ owned_entries others.now }
{
    let mut left = from_present(ones);
    let mut right = from_present(others);
    while let [one, later @ ..] = left {
        let [other, more @ ..] = right else {
            return false;
        };
        if one.field != other.field || !one.value.is_same(&other.value) {
            return false;
        }
        left = from_present(later);
        right = from_present(more);
    }
    right.is_empty()
}
