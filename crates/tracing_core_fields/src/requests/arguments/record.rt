//! Values that are given to a span after it was made.
ghost use Rattle.std.specs.Prelude.{◌≡◌, ◌↔◌, IsTrue, []};
ghost use Rattle.tracing_core_fields.specs.ValueSet.{entry_count, has_value};
ghost use Rattle.tracing_core_fields.specs.Visits.{Visits};
ghost use Rattle.tracing_core_fields.specs.requests.PlainRequests.{plain_record, plain_values};
ghost use Rattle.tracing_core_fields.specs.requests.Records.{record_values};

use crate::{Field, ValueSet, VisitKinds};

/// Values that are given to a span after it was made.
#[derive(Clone, Copy, Debug)]
pub struct Record<'v> {
    values: ValueSet<'v>,
}

impl<'v> Record<'v> {
    /// The record of these values.
    pub fn new(values: ValueSet<'v>) -> Record<'v>
        ensures plain { plain_record result ≡ plain_values values.entry }
        ensures values { record_values result ≡ values.entry }
    {
        Record { values }
    }

    /// Hands the values to the visitor, in order, up to its first refusal, which is the answer.
    pub fn record<V: VisitKinds>(&self, visitor: &mut V) -> Result<(), V::Error>
        ensures { let values = plain_record self.now in
            Visits V.takes values.callsite values.names values.entries visitor.old result visitor.new }
    {
        self.values.record(visitor)
    }

    /// How many of their own fields the values were given, with a value or without one.
    pub fn len(&self) -> usize
        ensures { result ≡ entry_count (record_values self.now) }
    {
        self.values.len()
    }

    /// Whether the field is one of the values' fields, and has a value.
    pub fn contains(&self, field: &Field<'_>) -> bool
        ensures { result ≡ has_value (record_values self.now) field.now }
    {
        self.values.contains(field)
    }

    /// Whether no field has a value.
    pub fn is_empty(&self) -> bool
        ensures { IsTrue result ↔ ((plain_record self.now).entries ≡ []) }
    {
        self.values.is_empty()
    }
}
