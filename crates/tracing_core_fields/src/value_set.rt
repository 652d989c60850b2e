//! Values of fields, and the sets that they are recorded in.
ghost use Rattle.std.specs.Prelude.{◌≡◌, ◌↔◌, ◌==◌, IsTrue, List, [], length, min, take, count_by, not};
ghost use Rattle.std.specs.Option.{is_some};
ghost use Rattle.tracing_core_fields.specs.FieldSet.{field_names, set_callsite};
ghost use Rattle.tracing_core_fields.specs.IndexedEntries.{indexed_count, indexed_entries};
ghost use Rattle.tracing_core_fields.specs.PlainValue.{present_value};
ghost use Rattle.tracing_core_fields.specs.ValueSet.{entries_of, entry_count, fields_of_values, has_value};
ghost use Rattle.tracing_core_fields.specs.Values.{is_own, given_entries, placed_entries, has_entry};

use crate::callsite::Identifier;
use crate::debug_text::DebugText;
use crate::error_text::ErrorText;
use crate::field::{Field, FieldSet};
use crate::indexed_values::IndexedValues;

/// The value of a field: a case for each call of [`VisitKinds`](crate::VisitKinds), and `Empty`.
#[derive(Clone, Copy, Debug, PartialEq, Eq)]
pub enum AnyValue<'a> {
    /// A signed number of at most 64 bits.
    I64(i64),
    /// An unsigned number of at most 64 bits.
    U64(u64),
    /// A signed number of 128 bits.
    I128(i128),
    /// An unsigned number of 128 bits.
    U128(u128),
    /// A bool.
    Bool(bool),
    /// A text.
    Str(&'a str),
    /// Bytes that need not be a text.
    Bytes(&'a [u8]),
    /// An error, by its text and the texts of its sources.
    Error(ErrorText<'a>),
    /// Anything else, by what it writes.
    Debug(DebugText<'a>),
    /// No value: the field is passed over.
    Empty,
}

#[derive(Clone, Copy, Debug)]
pub(crate) enum Values<'a> {
    Explicit(&'a [(Field<'a>, Option<AnyValue<'a>>)]),
    All(&'a [Option<AnyValue<'a>>]),
    Indexed(IndexedValues<'a>),
}

/// The values of fields at one callsite.
///
/// Its entries are its own fields that have a value: fields that it doesn't have, absent values and
/// [`AnyValue::Empty`] are passed over.
#[derive(Clone, Copy, Debug)]
pub struct ValueSet<'a> {
    pub(crate) values: Values<'a>,
    pub(crate) fields: FieldSet<'a>,
}

impl<'a> FieldSet<'a> {
    /// The set of these fields with their values. Fields of other callsites, and those whose index lies past
    /// the end, are passed over.
    pub fn value_set(&self, values: &'a [(Field<'a>, Option<AnyValue<'a>>)]) -> ValueSet<'a>
        // Its entries are the present values of the set's own fields, in order.
        ensures entries { entries_of result ≡ given_entries self.now values.now }
        // Its length is how many of the set's own fields are given, with a value or without one.
        ensures count { entry_count result ≡ count_by (is_own self.now) values.now }
        ensures fields { fields_of_values result ≡ self.now }
    {
        ValueSet {
            values: Values::Explicit(values),
            fields: *self,
        }
    }

    /// The set of the fields in order with these values. Where values are fewer, the other fields have
    /// none; where they are more, the surplus is ignored.
    pub fn value_set_all(&self, values: &'a [Option<AnyValue<'a>>]) -> ValueSet<'a>
        ensures entries { entries_of result ≡ placed_entries (take (length (field_names self.now)) values.now) }
        ensures count { entry_count result ≡ min (length (field_names self.now)) (length values.now) }
        ensures fields { fields_of_values result ≡ self.now }
    {
        ValueSet {
            values: Values::All(values),
            fields: *self,
        }
    }

    /// The set of the fields at these indices with their values. An index past the end is passed over.
    pub fn value_set_indexed(&self, values: IndexedValues<'a>) -> ValueSet<'a>
        // Its entries are the present values at indices of this set, in order.
        ensures entries { entries_of result ≡ indexed_entries (length (field_names self.now)) values.entry }
        // Its length is how many of the values have an index of this set.
        ensures count { entry_count result ≡ indexed_count (length (field_names self.now)) values.entry }
        ensures fields { fields_of_values result ≡ self.now }
    {
        ValueSet {
            values: Values::Indexed(values),
            fields: *self,
        }
    }
}

// Whether the value is there, and is not `Empty`.
fn is_present(value: &Option<AnyValue<'_>>) -> bool
    ensures { result ≡ is_some (present_value value.now) }
{
    !matches!(value, None | Some(AnyValue::Empty))
}

// How many of the fields are the set's.
fn count_own(fields: &FieldSet<'_>, entries: &[(Field<'_>, Option<AnyValue<'_>>)]) -> usize
    ensures { result ≡ count_by (is_own fields.now) entries.now }
{
    let mut count = 0;
    for entry in entries {
        if fields.contains(&entry.0) {
            count += 1;
        }
    }
    count
}

// Whether no field of the set has a value.
fn lacks_given(fields: &FieldSet<'_>, entries: &[(Field<'_>, Option<AnyValue<'_>>)]) -> bool
    ensures { result ≡ (length (given_entries fields.now entries.now) == 0) }
{
    for entry in entries {
        if fields.contains(&entry.0) && is_present(&entry.1) {
            return false;
        }
    }
    true
}

// Whether no value is present.
fn lacks_placed(values: &[Option<AnyValue<'_>>]) -> bool
    ensures { result ≡ (length (placed_entries values.now) == 0) }
{
    for value in values {
        if is_present(value) {
            return false;
        }
    }
    true
}

// Whether the set's field at the index has a value.
fn has_given(
    fields: &FieldSet<'_>,
    index: usize,
    entries: &[(Field<'_>, Option<AnyValue<'_>>)],
) -> bool
    ensures { result ≡ has_entry index (given_entries fields.now entries.now) }
{
    for entry in entries {
        if fields.contains(&entry.0) && entry.0.index() == index && is_present(&entry.1) {
            return true;
        }
    }
    false
}

// Whether the value at the index is present.
fn has_placed(index: usize, values: &[Option<AnyValue<'_>>]) -> bool
    ensures { result ≡ has_entry index (placed_entries values.now) }
{
    match values.get(index) {
        Some(value) => is_present(value),
        None => false,
    }
}

impl<'a> ValueSet<'a> {
    /// The fields that the values are of.
    pub fn field_set(&self) -> &FieldSet<'a>
        ensures { result.now ≡ fields_of_values self.now }
    {
        &self.fields
    }

    /// The callsite of the fields.
    pub fn callsite(&self) -> Identifier
        ensures { result.0 ≡ set_callsite (fields_of_values self.now) }
    {
        self.fields.callsite()
    }

    /// How many of its own fields the set was given, with a value or without one.
    pub fn len(&self) -> usize
        ensures { result ≡ entry_count self.now }
    {
        match self.values {
            Values::Explicit(entries) => count_own(&self.fields, entries),
            Values::All(values) => self.fields.len().min(values.len()),
            Values::Indexed(values) => values.count_below(self.fields.len()),
        }
    }

    /// Whether none of its own fields has a value.
    pub fn is_empty(&self) -> bool
        ensures { IsTrue result ↔ (entries_of self.now ≡ []) }
    {
        match self.values {
            Values::Explicit(entries) => lacks_given(&self.fields, entries),
            Values::All(values) => lacks_placed(&values[..self.fields.len().min(values.len())]),
            Values::Indexed(values) => values.lacks_below(self.fields.len()),
        }
    }

    /// Whether the field is one of its own, and has a value.
    pub fn contains(&self, field: &Field<'_>) -> bool
        ensures { result ≡ has_value self.now field.now }
    {
        field.callsite() == self.callsite() && self.has_index(field.index())
    }

    // Whether its own field at the index has a value.
    fn has_index(&self, index: usize) -> bool
        ensures { result ≡ has_entry index (entries_of self.now) }
    {
        match self.values {
            Values::Explicit(entries) => has_given(&self.fields, index, entries),
            Values::All(values) => {
                has_placed(index, &values[..self.fields.len().min(values.len())])
            }
            Values::Indexed(values) => values.has_below(self.fields.len(), index),
        }
    }
}
