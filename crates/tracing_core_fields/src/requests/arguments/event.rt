//! What happened, at a moment.
ghost use Rattle.std.specs.Prelude.{◌≡◌, ◌↔◌, IsTrue};
ghost use Rattle.std.specs.Option.{option_copied};
ghost use Rattle.tracing_core_fields.specs.FieldSet.{plain_fields};
ghost use Rattle.tracing_core_fields.specs.Iter.{fields_left};
ghost use Rattle.tracing_core_fields.specs.Metadata.{plain_metadata};
ghost use Rattle.tracing_core_fields.specs.ValueSet.{fields_of_values};
ghost use Rattle.tracing_core_fields.specs.Visits.{Visits};
ghost use Rattle.tracing_core_fields.specs.requests.PlainRequests.{plain_event, plain_request, explicit_parent, child_or_root};
ghost use Rattle.tracing_core_fields.specs.requests.Events.{event_metadata, event_values};

use crate::requests::arguments::parent::Parent;
use crate::{Id, Iter, Metadata, ValueSet, VisitKinds};

/// What happened at a moment: its metadata, the values of its fields, and which span it stands under.
#[derive(Clone, Copy, Debug)]
pub struct Event<'m, 'v> {
    metadata: &'m Metadata<'m>,
    values: ValueSet<'v>,
    parent: Parent,
}

impl<'m, 'v> Event<'m, 'v> {
    /// An event under the current span, where there is one.
    pub fn new(metadata: &'m Metadata<'m>, values: ValueSet<'v>) -> Event<'m, 'v>
        ensures plain { plain_event result ≡ plain_request metadata.now values.entry Parent.Current }
        ensures metadata { event_metadata result ≡ metadata.now }
        ensures values { event_values result ≡ values.entry }
    {
        Event {
            metadata,
            values,
            parent: Parent::Current,
        }
    }

    /// An event under this span, or under none.
    pub fn new_child_of(
        parent: Option<Id>,
        metadata: &'m Metadata<'m>,
        values: ValueSet<'v>,
    ) -> Event<'m, 'v>
        ensures plain { plain_event result ≡ plain_request metadata.now values.entry (child_or_root parent) }
        ensures metadata { event_metadata result ≡ metadata.now }
        ensures values { event_values result ≡ values.entry }
    {
        Event {
            metadata,
            values,
            parent: match parent {
                Some(id) => Parent::Explicit(id),
                None => Parent::Root,
            },
        }
    }

    /// Hands the values to the visitor, in order, up to its first refusal, which is the answer.
    pub fn record<V: VisitKinds>(&self, visitor: &mut V) -> Result<(), V::Error>
        ensures { let values = (plain_event self.now).values in
            Visits V.takes values.callsite values.names values.entries visitor.old result visitor.new }
    {
        self.values.record(visitor)
    }

    /// The fields that the values are of, in order.
    pub fn fields(&self) -> Iter<'v>
        ensures { fields_left result ≡ plain_fields (fields_of_values (event_values self.now)) }
    {
        self.values.field_set().iter()
    }

    /// The metadata of the event.
    pub fn metadata(&self) -> &'m Metadata<'m>
        ensures metadata { result.now ≡ event_metadata self.now }
        ensures plain { plain_metadata result.now ≡ (plain_event self.now).metadata }
    {
        self.metadata
    }

    /// Whether the event stands under no span.
    pub fn is_root(&self) -> bool
        ensures { IsTrue result ↔ ((plain_event self.now).parent ≡ Parent.Root) }
    {
        matches!(self.parent, Parent::Root)
    }

    /// Whether the event stands under the current span.
    pub fn is_contextual(&self) -> bool
        ensures { IsTrue result ↔ ((plain_event self.now).parent ≡ Parent.Current) }
    {
        matches!(self.parent, Parent::Current)
    }

    /// The span that the event stands under, where one was named.
    pub fn parent(&self) -> Option<&Id>
        ensures { option_copied result ≡ explicit_parent (plain_event self.now).parent }
    {
        self.parent.named()
    }
}
