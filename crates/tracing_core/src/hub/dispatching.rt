//! Making an event and handing it over at once.
ghost use Rattle.tracing_core_fields.specs.requests.Calls.{EventDispatched};
ghost use Rattle.tracing_core.specs.Commands.{reached};
ghost use Rattle.tracing_core.specs.HandleCalls.{HubGives};
ghost use Rattle.tracing_core.specs.CachePreservation.{PreservesCaches};
ghost use Rattle.tracing_core_fields.specs.requests.PlainRequests.{child_or_root, plain_request};
ghost use Rattle.tracing_core_fields.specs.declared.requests.arguments.parent.Parent.TheVariants.{Current};

use crate::hub::Hub;
use tracing_core_fields::{Callsite, Event, Id, Metadata, RequestError, Subscriber, ValueSet};
use tracing_core_moments::At;

impl<S: Subscriber, C: Callsite> Hub<S, C> {
    /// Makes an event under the current span, and hands it to the subscriber that the lane reaches.
    pub fn dispatch_event(
        &mut self,
        metadata: &Metadata<'_>,
        values: ValueSet<'_>,
        at: At,
    ) -> Result<(), RequestError>
        ensures gives { HubGives ⟦<S as Subscriber>⟧ (EventDispatched
            (plain_request metadata.now values.entry Current) at) (reached self.old at.lane) self.old result
            self.new }
        ensures keeps { PreservesCaches ⟦<S as Subscriber>⟧ ⟦<C as Callsite>⟧ self.old self.new }
    {
        self.event_here(&Event::new(metadata, values), at)
    }

    /// Makes an event under this span, or under none, and hands it to the subscriber that the lane
    /// reaches.
    pub fn dispatch_child_of(
        &mut self,
        parent: Option<Id>,
        metadata: &Metadata<'_>,
        values: ValueSet<'_>,
        at: At,
    ) -> Result<(), RequestError>
        ensures gives { HubGives ⟦<S as Subscriber>⟧ (EventDispatched
            (plain_request metadata.now values.entry (child_or_root parent)) at) (reached self.old at.lane) self.old
            result self.new }
        ensures keeps { PreservesCaches ⟦<S as Subscriber>⟧ ⟦<C as Callsite>⟧ self.old self.new }
    {
        self.event_here(&Event::new_child_of(parent, metadata, values), at)
    }
}
