//! Calls on the spans of a stack.
ghost use Rattle.std.specs.Prelude.{◌≡◌};
ghost use Rattle.tracing_core_fields.specs.Metadata.{plain_metadata};
ghost use Rattle.tracing_core_fields.specs.requests.PlainRequests.{plain_attributes, plain_record};
ghost use Rattle.span_registry_layers_store.specs.Registries.{kin_in};
ghost use Rattle.span_registry_layers_store.specs.Spans.{is_open};
ghost use Rattle.span_registry_layers.specs.Calls.{AsksUnless, CloneGives, CloseGives, Closes, ClosesOne, EnterGives, ExitGives};
ghost use Rattle.span_registry_layers.specs.Calls.{FollowsGives, MakesSpan, NewSpanUnless, RecordGives, SpanCached, current_in};
ghost use Rattle.span_registry_layers.specs.Stacks.{plain_stack};

use crate::output_slot::SpanStep;
use crate::output_slots::ask_span;
use crate::parts::StackParts;
use span_registry_layers_layers::{Filter, Filtered, Layer};
use span_registry_layers_store::FilterMap;
use tracing_core_fields::{Attributes, CurrentSpan, Id, Metadata, Record, RequestError};
use tracing_core_moments::At;

impl<O> StackParts<O> {
    // Counts one more handle of a span.
    pub(crate) fn clone_span(&mut self, span: &Id) -> Result<Id, RequestError>
        ensures { CloneGives span.now (plain_stack self.old) result (plain_stack self.new) }
    {
        self.registry.clone_span(span)
    }

    // The span that a lane is in.
    pub(crate) fn current_span(&self, lane: u64) -> CurrentSpan
        ensures { result ≡ current_in (plain_stack self.now) lane }
    {
        match self.registry.current_span(lane) {
            None => CurrentSpan::Outside,
            Some(id) => CurrentSpan::Inside(id),
        }
    }
}

impl<L: Layer, F: Filter> StackParts<Filtered<L, F>> {
    // Records values of a span.
    pub(crate) fn record(
        &mut self,
        span: &Id,
        values: &Record<'_>,
        at: At,
    ) -> Result<(), RequestError>
        ensures { RecordGives ⟦<F as Filter>⟧ ⟦<L as Layer>⟧ span.now (plain_record values.now) at
            (plain_stack self.old) result (plain_stack self.new) }
    {
        self.registry.record(span)?;
        self.tell_record(span, values, at);
        Ok(())
    }

    // A span follows from another one.
    pub(crate) fn record_follows_from(
        &mut self,
        span: &Id,
        follows: &Id,
        at: At,
    ) -> Result<(), RequestError>
        ensures { FollowsGives ⟦<F as Filter>⟧ ⟦<L as Layer>⟧ span.now follows.now at (plain_stack self.old) result
            (plain_stack self.new) }
    {
        self.registry.record_follows_from(span, follows)?;
        self.tell_follows(span, follows, at);
        Ok(())
    }

    // A lane enters a span.
    pub(crate) fn enter(&mut self, span: &Id, at: At) -> Result<(), RequestError>
        ensures { EnterGives ⟦<F as Filter>⟧ ⟦<L as Layer>⟧ span.now at (plain_stack self.old) result
            (plain_stack self.new) }
    {
        self.registry.enter(span, at.lane)?;
        self.tell_step(SpanStep::Entered, span, at);
        Ok(())
    }

    // The next span closes, where one does.
    fn close_next(&mut self, at: At) -> bool
        ensures { ClosesOne ⟦<F as Filter>⟧ ⟦<L as Layer>⟧ at (plain_stack self.old) result (plain_stack self.new) }
    {
        let Some(span) = self.registry.closing() else {
            return false;
        };
        self.tell_step(SpanStep::Closed, &span, at);
        let _span = self.registry.forget();
        true
    }

    // All spans close that nothing keeps open.
    fn close_all(&mut self, at: At)
        ensures { Closes ⟦<F as Filter>⟧ ⟦<L as Layer>⟧ at (plain_stack self.old) (plain_stack self.new) }
    {
        while self.close_next(at) {}
    }

    // A lane leaves a span.
    pub(crate) fn exit(&mut self, span: &Id, at: At)
        ensures { ExitGives ⟦<F as Filter>⟧ ⟦<L as Layer>⟧ span.now at (plain_stack self.old) (plain_stack self.new) }
    {
        self.registry.leave(span, at.lane);
        self.tell_step(SpanStep::Exited, span, at);
        self.close_all(at);
    }

    // Gives up one handle of a span.
    pub(crate) fn try_close(&mut self, span: Id, at: At) -> bool
        ensures { CloseGives ⟦<F as Filter>⟧ ⟦<L as Layer>⟧ span at (plain_stack self.old) result
            (plain_stack self.new) }
    {
        if self.registry.give_up(&span).is_err() {
            return false;
        }
        self.close_all(at);
        !self.registry.is_open(&span)
    }

    // Which filters pass a new span, and whether one does: nobody is asked where it is refused.
    fn ask_span(&mut self, refused: bool, metadata: &Metadata<'_>, at: At) -> (FilterMap, bool)
        ensures asked { AsksUnless ⟦<F as Filter>⟧ ⟦<L as Layer>⟧ refused (plain_metadata metadata.now) at
            (plain_stack self.old) result.0.passed result.1 }
        ensures same { plain_stack self.new ≡ plain_stack self.old }
    {
        if refused {
            (FilterMap::all(), false)
        } else {
            ask_span(&self.rows, metadata, &mut self.registry, at)
        }
    }

    // Makes a span with these verdicts.
    fn make_span(
        &mut self,
        attributes: &Attributes<'_, '_>,
        at: At,
        verdicts: FilterMap,
    ) -> Result<Option<Id>, RequestError>
        ensures { MakesSpan ⟦<F as Filter>⟧ ⟦<L as Layer>⟧ (plain_attributes attributes.now) at verdicts.passed
            (plain_stack self.old) result (plain_stack self.new) }
    {
        let span = self.registry.new_span(attributes, at.lane, verdicts)?;
        self.tell_new_span(attributes, &span, at);
        Ok(Some(span))
    }

    // Makes a span where some filter passes it, and asks nobody where what is kept refuses it.
    pub(crate) fn new_span(
        &mut self,
        attributes: &Attributes<'_, '_>,
        at: At,
    ) -> Result<Option<Id>, RequestError>
        ensures { SpanCached ⟦<F as Filter>⟧ ⟦<L as Layer>⟧ (plain_attributes attributes.now) at
            (plain_stack self.old) result (plain_stack self.new) }
    {
        let refused = self.refuses(attributes.metadata());
        self.new_span_unless(refused, attributes, at)
    }

    // Makes a span where some filter passes it, and asks nobody where it is refused.
    pub(crate) fn new_span_unless(
        &mut self,
        refused: bool,
        attributes: &Attributes<'_, '_>,
        at: At,
    ) -> Result<Option<Id>, RequestError>
        ensures { NewSpanUnless ⟦<F as Filter>⟧ ⟦<L as Layer>⟧ refused (plain_attributes attributes.now) at
            (plain_stack self.old) result (plain_stack self.new) }
    {
        if !self.knows(attributes.parent()) {
            return Err(RequestError::UnknownParent);
        }
        let (verdicts, passes) = self.ask_span(refused, attributes.metadata(), at);
        if !passes {
            self.clear();
            return Ok(None);
        }
        self.make_span(attributes, at, verdicts)
    }
}
