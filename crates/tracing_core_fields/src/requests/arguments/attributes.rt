//! What is known of a span that is to be made.
ghost use Rattle.std.specs.Prelude.{◌≡◌, ◌↔◌, IsTrue, []};
ghost use Rattle.std.specs.Option.{option_copied};
ghost use Rattle.tracing_core_fields.specs.Metadata.{plain_metadata};
ghost use Rattle.tracing_core_fields.specs.ValueSet.{fields_of_values, has_value};
ghost use Rattle.tracing_core_fields.specs.Visits.{Visits};
ghost use Rattle.tracing_core_fields.specs.requests.PlainRequests.{plain_attributes, plain_request, plain_values, explicit_parent};
ghost use Rattle.tracing_core_fields.specs.requests.Attributes.{attributes_metadata, attributes_values};

use crate::requests::arguments::parent::Parent;
use crate::{Field, FieldSet, Id, Metadata, ValueSet, VisitKinds};

/// What is known of a span that is to be made: its metadata, the values of its fields, and which span
/// it stands under.
#[derive(Clone, Copy, Debug)]
pub struct Attributes<'m, 'v> {
    metadata: &'m Metadata<'m>,
    values: ValueSet<'v>,
    parent: Parent,
}

impl<'m, 'v> Attributes<'m, 'v> {
    /// A span under the current one, where there is one.
    pub fn new(metadata: &'m Metadata<'m>, values: ValueSet<'v>) -> Attributes<'m, 'v>
        ensures plain { plain_attributes result ≡ plain_request metadata.now values.entry Parent.Current }
        ensures metadata { attributes_metadata result ≡ metadata.now }
        ensures values { attributes_values result ≡ values.entry }
    {
        Attributes {
            metadata,
            values,
            parent: Parent::Current,
        }
    }

    /// A span under none.
    pub fn new_root(metadata: &'m Metadata<'m>, values: ValueSet<'v>) -> Attributes<'m, 'v>
        ensures plain { plain_attributes result ≡ plain_request metadata.now values.entry Parent.Root }
        ensures metadata { attributes_metadata result ≡ metadata.now }
        ensures values { attributes_values result ≡ values.entry }
    {
        Attributes {
            metadata,
            values,
            parent: Parent::Root,
        }
    }

    /// A span under this one.
    pub fn child_of(
        parent: Id,
        metadata: &'m Metadata<'m>,
        values: ValueSet<'v>,
    ) -> Attributes<'m, 'v>
        ensures plain { plain_attributes result ≡ plain_request metadata.now values.entry (Parent.Explicit parent) }
        ensures metadata { attributes_metadata result ≡ metadata.now }
        ensures values { attributes_values result ≡ values.entry }
    {
        Attributes {
            metadata,
            values,
            parent: Parent::Explicit(parent),
        }
    }

    /// The metadata of the span.
    pub fn metadata(&self) -> &'m Metadata<'m>
        ensures metadata { result.now ≡ attributes_metadata self.now }
        ensures plain { plain_metadata result.now ≡ (plain_attributes self.now).metadata }
    {
        self.metadata
    }

    /// The values of the fields.
    pub fn values(&self) -> &ValueSet<'v>
        ensures values { result.now ≡ attributes_values self.now }
        ensures plain { plain_values result.now ≡ (plain_attributes self.now).values }
    {
        &self.values
    }

    /// Whether the span is to stand under none.
    pub fn is_root(&self) -> bool
        ensures { IsTrue result ↔ ((plain_attributes self.now).parent ≡ Parent.Root) }
    {
        matches!(self.parent, Parent::Root)
    }

    /// Whether the span is to stand under the current one.
    pub fn is_contextual(&self) -> bool
        ensures { IsTrue result ↔ ((plain_attributes self.now).parent ≡ Parent.Current) }
    {
        matches!(self.parent, Parent::Current)
    }

    /// The span that it is to stand under, where one was named.
    pub fn parent(&self) -> Option<&Id>
        ensures { option_copied result ≡ explicit_parent (plain_attributes self.now).parent }
    {
        self.parent.named()
    }

    /// Hands the values to the visitor, in order, up to its first refusal, which is the answer.
    pub fn record<V: VisitKinds>(&self, visitor: &mut V) -> Result<(), V::Error>
        ensures { let values = (plain_attributes self.now).values in
            Visits V.takes values.callsite values.names values.entries visitor.old result visitor.new }
    {
        self.values.record(visitor)
    }

    /// Whether the field is one of the values' fields, and has a value.
    pub fn contains(&self, field: &Field<'_>) -> bool
        ensures { result ≡ has_value (attributes_values self.now) field.now }
    {
        self.values.contains(field)
    }

    /// Whether no field has a value.
    pub fn is_empty(&self) -> bool
        ensures { IsTrue result ↔ ((plain_attributes self.now).values.entries ≡ []) }
    {
        self.values.is_empty()
    }

    /// The fields that the values are of.
    pub fn fields(&self) -> &FieldSet<'v>
        ensures { result.now ≡ fields_of_values (attributes_values self.now) }
    {
        self.values.field_set()
    }
}
