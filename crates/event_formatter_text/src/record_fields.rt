//! What has values of fields to hand out.
ghost use Rattle.std.specs.Prelude.{◌≡◌};
ghost use Rattle.tracing_core_fields.specs.Visits.{Visits};
ghost use Rattle.tracing_core_fields.specs.requests.PlainRequests.{PlainValues, plain_attributes, plain_event, plain_record, plain_values};

use tracing_core_fields::{Attributes, Event, Record, ValueSet, VisitKinds};

/// Hands the values of fields to a visitor.
pub trait RecordFields {
    // The values that it hands out.
    ghost values: { Self → PlainValues };

    /// Hands the values to the visitor, in order, up to its first refusal, which is the answer.
    fn record<V: VisitKinds>(&self, visitor: &mut V) -> Result<(), V::Error>
        ensures { Visits V.takes (values self.now).callsite (values self.now).names (values self.now).entries
            visitor.old result visitor.new };
}

impl RecordFields for Event<'_, '_> {
    ghost values = { λ event. (plain_event event).values };

    fn record<V: VisitKinds>(&self, visitor: &mut V) -> Result<(), V::Error> {
        self.record(visitor)
    }
}

impl RecordFields for Attributes<'_, '_> {
    ghost values = { λ attributes. (plain_attributes attributes).values };

    fn record<V: VisitKinds>(&self, visitor: &mut V) -> Result<(), V::Error> {
        self.record(visitor)
    }
}

impl RecordFields for Record<'_> {
    ghost values = { λ values. plain_record values };

    fn record<V: VisitKinds>(&self, visitor: &mut V) -> Result<(), V::Error> {
        self.record(visitor)
    }
}

impl RecordFields for ValueSet<'_> {
    ghost values = { λ values. plain_values values };

    fn record<V: VisitKinds>(&self, visitor: &mut V) -> Result<(), V::Error> {
        self.record(visitor)
    }
}
