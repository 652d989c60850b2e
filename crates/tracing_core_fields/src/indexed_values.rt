//! Values of fields that are told by their index, kept or lent.
ghost use Rattle.std.specs.Prelude.{◌≡◌, ◌<◌, ◌==◌, length};
ghost use Rattle.std.specs.Option.{is_none, option_map};
ghost use Rattle.tracing_core_fields.specs.FieldSet.{field_names, set_callsite};
ghost use Rattle.tracing_core_fields.specs.IndexedEntries.{count_below, entries_below, indexed_count, indexed_entries};
ghost use Rattle.tracing_core_fields.specs.OwnedValues.{plain_owned};
ghost use Rattle.tracing_core_fields.specs.PlainValue.{plain_value};
ghost use Rattle.tracing_core_fields.specs.Values.{has_entry};
ghost use Rattle.tracing_core_fields.specs.Visits.{TakesIfThere};

use crate::field::FieldSet;
use crate::owned_value::{FieldValue, OwnedValue};
use crate::record::{record_usual, record_value};
use crate::value_set::AnyValue;
use crate::visit_kinds::VisitKinds;

/// A field, by its index in its set, with a value that is lent.
#[derive(Clone, Copy, Debug, PartialEq, Eq)]
pub struct LentValue<'a> {
    /// The index, from 0. A field past the end of its set is passed over.
    pub field: usize,
    /// The value.
    pub value: AnyValue<'a>,
}

/// Values of fields that are told by their index.
#[derive(Clone, Copy, Debug)]
pub enum IndexedValues<'a> {
    /// Values that somebody keeps.
    Owned(&'a [FieldValue]),
    /// Values that are lent.
    Lent(&'a [LentValue<'a>]),
}

/// A value with its field's index.
pub(crate) trait IndexedValue {
    ghost use Rattle.std.specs.Prelude.{ℕ, Option};
    ghost use Rattle.tracing_core_fields.specs.PlainValue.{PlainValue};

    // The index.
    ghost place: { Self → ℕ };

    // The value, and none for no value.
    ghost meaning: { Self → Option PlainValue };

    /// The index.
    fn field(&self) -> usize
        ensures { result ≡ place self.now };

    /// Hands the value to the visitor, as that of the field at the index, which the set has.
    fn record<V: VisitKinds>(&self, fields: &FieldSet<'_>, visitor: &mut V) -> Result<(), V::Error>
        requires { place self.now < length (field_names fields.now) }
        ensures { TakesIfThere V.takes (set_callsite fields.now) (field_names fields.now)
            (option_map (λ value. (place self.now, value)) (meaning self.now)) visitor.old result visitor.new };

    /// Whether the value is `Empty`.
    fn is_empty(&self) -> bool
        ensures { result ≡ is_none (meaning self.now) };
}

impl IndexedValue for FieldValue {
    ghost place = { λ given. given.field };

    ghost meaning = { λ given. plain_owned given.value };

    #[inline(always)]
    fn field(&self) -> usize {
        self.field
    }

    // Few requests keep their values, so these go by code that is shared.
    fn record<V: VisitKinds>(
        &self,
        fields: &FieldSet<'_>,
        visitor: &mut V,
    ) -> Result<(), V::Error> {
        record_value(fields, self.field, &self.value.lend(), visitor)
    }

    fn is_empty(&self) -> bool {
        matches!(self.value, OwnedValue::Empty)
    }
}

impl IndexedValue for LentValue<'_> {
    ghost place = { λ given. given.field };

    ghost meaning = { λ given. plain_value given.value };

    #[inline(always)]
    fn field(&self) -> usize {
        self.field
    }

    #[inline(always)]
    fn record<V: VisitKinds>(
        &self,
        fields: &FieldSet<'_>,
        visitor: &mut V,
    ) -> Result<(), V::Error> {
        record_usual(fields, self.field, &self.value, visitor)
    }

    fn is_empty(&self) -> bool {
        matches!(self.value, AnyValue::Empty)
    }
}

// How many of the values are of fields below the count.
fn count_of<I: IndexedValue>(count: usize, values: &[I]) -> usize
    ensures { result ≡ count_below I.place count values.now }
{
    let mut found = 0;
    for given in values {
        if given.field() < count {
            found += 1;
        }
    }
    found
}

// Whether no field below the count has a value.
fn lacks_of<I: IndexedValue>(count: usize, values: &[I]) -> bool
    ensures { result ≡ (length (entries_below I.place I.meaning count values.now) == 0) }
{
    for given in values {
        if given.field() < count && !given.is_empty() {
            return false;
        }
    }
    true
}

// Whether the field at the index, which is below the count, has a value.
fn has_of<I: IndexedValue>(count: usize, index: usize, values: &[I]) -> bool
    ensures { result ≡ has_entry index (entries_below I.place I.meaning count values.now) }
{
    for given in values {
        let is_shown = given.field() < count && !given.is_empty();
        if is_shown && given.field() == index {
            return true;
        }
    }
    false
}

impl IndexedValues<'_> {
    /// How many of the values are of fields below the count.
    pub(crate) fn count_below(&self, count: usize) -> usize
        ensures { result ≡ indexed_count count self.now }
    {
        match self {
            IndexedValues::Owned(values) => count_of(count, values),
            IndexedValues::Lent(values) => count_of(count, values),
        }
    }

    /// Whether no field below the count has a value.
    pub(crate) fn lacks_below(&self, count: usize) -> bool
        ensures { result ≡ (length (indexed_entries count self.now) == 0) }
    {
        match self {
            IndexedValues::Owned(values) => lacks_of(count, values),
            IndexedValues::Lent(values) => lacks_of(count, values),
        }
    }

    /// Whether the field at the index, which is below the count, has a value.
    pub(crate) fn has_below(&self, count: usize, index: usize) -> bool
        ensures { result ≡ has_entry index (indexed_entries count self.now) }
    {
        match self {
            IndexedValues::Owned(values) => has_of(count, index, values),
            IndexedValues::Lent(values) => has_of(count, index, values),
        }
    }
}
