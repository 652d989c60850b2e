//! How a visitor takes the entries of a value set.
ghost use Rattle.std.specs.Prelude.{◌≡◌, ◌<◌, ◌≤◌, length};
ghost use Rattle.std.specs.Option.{option_map};
ghost use Rattle.tracing_core_fields.specs.FieldSet.{field_names, set_callsite};
ghost use Rattle.tracing_core_fields.specs.IndexedEntries.{entries_below, indexed_entry};
ghost use Rattle.tracing_core_fields.specs.PlainValue.{plain_value};
ghost use Rattle.tracing_core_fields.specs.ValueSet.{entries_of, fields_of_values};
ghost use Rattle.tracing_core_fields.specs.Values.{given_entry, given_entries, placed_entry, placed_entries};
ghost use Rattle.tracing_core_fields.specs.Visits.{TakesIfThere, Visits};

use crate::field::{Field, FieldSet};
use crate::indexed_values::{IndexedValue, IndexedValues};
use crate::value_set::{AnyValue, ValueSet, Values};
use crate::visit_kinds::VisitKinds;

/// Hands on the value of the field at the index, by the call of its kind. `Empty` is passed over. It stands out of line, for the kinds
/// that are seldom met, and makes the field itself, so that other callers need no room for one.
#[inline(never)]
pub(crate) fn record_value<V: VisitKinds>(
    fields: &FieldSet<'_>,
    index: usize,
    value: &AnyValue<'_>,
    visitor: &mut V,
) -> Result<(), V::Error>
    requires { index < length (field_names fields.now) }
    ensures { TakesIfThere V.takes (set_callsite fields.now) (field_names fields.now)
        (option_map (λ plain. (index, plain)) (plain_value value.now)) visitor.old result visitor.new }
{
    let field = &fields.at(index);
    match value {
        AnyValue::Empty => Ok(()),
        AnyValue::I64(n) => visitor.record_i64(field, *n),
        AnyValue::U64(n) => visitor.record_u64(field, *n),
        AnyValue::I128(n) => visitor.record_i128(field, *n),
        AnyValue::U128(n) => visitor.record_u128(field, *n),
        AnyValue::Bool(b) => visitor.record_bool(field, *b),
        AnyValue::Str(text) => visitor.record_str(field, text),
        AnyValue::Bytes(bytes) => visitor.record_bytes(field, bytes),
        AnyValue::Error(error) => visitor.record_error(field, error),
        AnyValue::Debug(text) => visitor.record_debug(field, text),
    }
}

// Hands on the value of the field, where the set has it.
fn record_entry<'a, V: VisitKinds>(
    fields: &FieldSet<'a>,
    entry: &(Field<'a>, Option<AnyValue<'a>>),
    visitor: &mut V,
) -> Result<(), V::Error>
    ensures { TakesIfThere V.takes (set_callsite fields.now) (field_names fields.now)
        (given_entry fields.now entry.now) visitor.old result visitor.new }
{
    match &entry.1 {
        Some(value) if fields.contains(&entry.0) => {
            record_value(fields, entry.0.index(), value, visitor)
        }
        _ => Ok(()),
    }
}

// Visits the fields of the set that are given with a value.
fn record_given<'a, V: VisitKinds>(
    fields: &FieldSet<'a>,
    entries: &[(Field<'a>, Option<AnyValue<'a>>)],
    visitor: &mut V,
) -> Result<(), V::Error>
    ensures { Visits V.takes (set_callsite fields.now) (field_names fields.now)
        (given_entries fields.now entries.now) visitor.old result visitor.new }
{
    for entry in entries {
        record_entry(fields, entry, visitor)?;
    }
    Ok(())
}

/// Hands on the value of the field at the index. Numbers and texts, which most values are, go by a call of their own, so
/// that the compiler knows their kind.
#[inline(always)]
pub(crate) fn record_usual<V: VisitKinds>(
    fields: &FieldSet<'_>,
    index: usize,
    value: &AnyValue<'_>,
    visitor: &mut V,
) -> Result<(), V::Error>
    requires { index < length (field_names fields.now) }
    ensures { TakesIfThere V.takes (set_callsite fields.now) (field_names fields.now)
        (option_map (λ plain. (index, plain)) (plain_value value.now)) visitor.old result visitor.new }
{
    match value {
        AnyValue::I64(n) => visitor.record_i64(&fields.at(index), *n),
        AnyValue::U64(n) => visitor.record_u64(&fields.at(index), *n),
        AnyValue::Str(text) => visitor.record_str(&fields.at(index), text),
        other => record_value(fields, index, other, visitor),
    }
}

// Hands on the value of the field at the index, where there is one.
#[inline(always)]
fn record_at<V: VisitKinds>(
    fields: &FieldSet<'_>,
    index: usize,
    value: &Option<AnyValue<'_>>,
    visitor: &mut V,
) -> Result<(), V::Error>
    requires { index < length (field_names fields.now) }
    ensures { TakesIfThere V.takes (set_callsite fields.now) (field_names fields.now)
        (placed_entry (index, value.now)) visitor.old result visitor.new }
{
    match value {
        None => Ok(()),
        Some(value) => record_usual(fields, index, value, visitor),
    }
}

// Visits the fields of the set whose values are given in order.
fn record_placed<V: VisitKinds>(
    fields: &FieldSet<'_>,
    values: &[Option<AnyValue<'_>>],
    visitor: &mut V,
) -> Result<(), V::Error>
    requires { length values.now ≤ length (field_names fields.now) }
    ensures { Visits V.takes (set_callsite fields.now) (field_names fields.now)
        (placed_entries values.now) visitor.old result visitor.new }
{
    for (index, value) in values.iter().enumerate() {
        record_at(fields, index, value, visitor)?;
    }
    Ok(())
}

// Hands on the value of the field at the index, where the set has such a field.
#[inline(always)]
fn record_given_at<I: IndexedValue, V: VisitKinds>(
    fields: &FieldSet<'_>,
    given: &I,
    visitor: &mut V,
) -> Result<(), V::Error>
    ensures { TakesIfThere V.takes (set_callsite fields.now) (field_names fields.now)
        (indexed_entry I.place I.meaning (length (field_names fields.now)) given.now) visitor.old result visitor.new }
{
    if given.field() < fields.len() {
        given.record(fields, visitor)
    } else {
        Ok(())
    }
}

// Visits the fields of the set whose values are given by their indices.
fn record_indexed<I: IndexedValue, V: VisitKinds>(
    fields: &FieldSet<'_>,
    values: &[I],
    visitor: &mut V,
) -> Result<(), V::Error>
    ensures { Visits V.takes (set_callsite fields.now) (field_names fields.now)
        (entries_below I.place I.meaning (length (field_names fields.now)) values.now) visitor.old result visitor.new }
{
    for given in values {
        record_given_at(fields, given, visitor)?;
    }
    Ok(())
}

impl ValueSet<'_> {
    /// Hands the values to the visitor, in order, up to its first refusal, which is the answer.
    ///
    /// Each value goes by the call of its kind. Absent values, [`AnyValue::Empty`] and fields that the set
    /// doesn't have are passed over.
    pub fn record<V: VisitKinds>(&self, visitor: &mut V) -> Result<(), V::Error>
        ensures { Visits V.takes (set_callsite (fields_of_values self.now)) (field_names (fields_of_values self.now))
            (entries_of self.now) visitor.old result visitor.new }
    {
        match self.values {
            Values::Explicit(entries) => record_given(&self.fields, entries, visitor),
            Values::All(values) => {
                let count = self.fields.len().min(values.len());
                record_placed(&self.fields, &values[..count], visitor)
            }
            Values::Indexed(IndexedValues::Owned(values)) => {
                record_indexed(&self.fields, values, visitor)
            }
            Values::Indexed(IndexedValues::Lent(values)) => {
                record_indexed(&self.fields, values, visitor)
            }
        }
    }
}
