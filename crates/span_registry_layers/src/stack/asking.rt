//! Requests of which every filter is asked.
ghost use Rattle.std.specs.Prelude.{◌≡◌};
ghost use Rattle.tracing_core_fields.specs.Metadata.{plain_metadata};
ghost use Rattle.tracing_core_fields.specs.requests.PlainRequests.{plain_attributes, plain_event};
ghost use Rattle.span_registry_layers.specs.Calls.{SpanAsked, SpanByAnswers};
ghost use Rattle.span_registry_layers.specs.CacheValidity.{CacheIsValid};
ghost use Rattle.span_registry_layers.specs.Stacks.{EventAsked, EventByAnswers, PassesAsked, PassesByAnswers, QuestionAsked};
ghost use Rattle.span_registry_layers.specs.Stacks.{QuestionByAnswers, cleared};

use crate::stack::Stack;
use span_registry_layers_layers::{Filter, Filtered, Layer};
use tracing_core_fields::{Attributes, Event, Id, Metadata, RequestError};
use tracing_core_moments::At;

impl<L: Layer, F: Filter> Stack<Filtered<L, F>> {
    /// The same as `enabled`, with every output's filter asked now, in order: what is kept of their answers has no say. So it promises what
    /// `enabled` does, whether what is kept is right or not.
    pub fn enabled_asking(&mut self, metadata: &Metadata<'_>, at: At) -> bool
        ensures exact { PassesByAnswers ⟦<F as Filter>⟧ self.old (plain_metadata metadata.now) at result }
        ensures asking { PassesAsked ⟦<F as Filter>⟧ self.old (plain_metadata metadata.now) at result }
        // What each output's filter answers is marked, and the answer is whether some mark is left.
        ensures marks { QuestionByAnswers ⟦<F as Filter>⟧ (plain_metadata metadata.now) at self.old result self.new }
        // The marks are what each output's filter answers, asked again.
        ensures marked { QuestionAsked ⟦<F as Filter>⟧ (plain_metadata metadata.now) at self.old result self.new }
        // Nothing but marks changes.
        ensures alike { cleared self.new ≡ cleared self.old }
        // A valid cache stays valid.
        ensures kept { CacheIsValid ⟦<F as Filter>⟧ self.old → CacheIsValid ⟦<F as Filter>⟧ self.new }
    {
        self.parts.enabled_unless(false, metadata, at)
    }

    /// The same as `event`, with every output's own filter asked now: what is kept of their answers has no say. So it
    /// promises what `event` does, whether what is kept is right or not.
    ///
    /// # Errors
    ///
    /// `UnknownParent` where a parent is named that is not open, which leaves the stack as it was.
    pub fn event_asking(&mut self, event: &Event<'_, '_>, at: At) -> Result<(), RequestError>
        ensures exact { EventByAnswers ⟦<F as Filter>⟧ ⟦<L as Layer>⟧ (plain_event event.now) at self.old result
            self.new }
        // This goes as if every output's filter were asked, whether the cache is valid or not.
        ensures asking { EventAsked ⟦<F as Filter>⟧ ⟦<L as Layer>⟧ (plain_event event.now) at self.old result self.new }
        // A valid cache stays valid.
        ensures kept { CacheIsValid ⟦<F as Filter>⟧ self.old → CacheIsValid ⟦<F as Filter>⟧ self.new }
    {
        self.parts.event_unless(false, event, at)
    }

    /// The same as `new_span`, with every filter asked now: what is kept of their answers has no say. So it promises
    /// what `new_span` does, whether what is kept is right or not.
    ///
    /// # Errors
    ///
    /// `UnknownParent` where a parent is named that is not open, else, where the span isn't dropped,
    /// `IdsSpent` where all ids were given, else `OutOfMemory`; each leaves the stack as it was.
    pub fn new_span_asking(
        &mut self,
        attributes: &Attributes<'_, '_>,
        at: At,
    ) -> Result<Option<Id>, RequestError>
        ensures exact { SpanByAnswers ⟦<F as Filter>⟧ ⟦<L as Layer>⟧ (plain_attributes attributes.now) at self.old
            result self.new }
        ensures asking { SpanAsked ⟦<F as Filter>⟧ ⟦<L as Layer>⟧ (plain_attributes attributes.now) at self.old result
            self.new }
        // A valid cache stays valid.
        ensures kept { CacheIsValid ⟦<F as Filter>⟧ self.old → CacheIsValid ⟦<F as Filter>⟧ self.new }
    {
        self.parts.new_span_unless(false, attributes, at)
    }
}
