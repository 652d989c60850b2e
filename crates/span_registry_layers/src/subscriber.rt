//! A stack as a subscriber.
use crate::stack::Stack;
use span_registry_layers_layers::{Filter, Filtered, Layer};
use tracing_core_fields::{
    Attributes, CurrentSpan, Event, Id, Interest, LevelFilter, Metadata, Record, RequestError,
    Subscriber, WeakDispatch,
};
use tracing_core_moments::At;

/// A stack whose filters are honest is steady while what it keeps is right. It wants each event whose callsite some
/// filter passes: each output's own filter is asked once, when the event is handed over.
impl<L: Layer, F: Filter> Subscriber for Stack<Filtered<L, F>> {
    ghost use Rattle.std.specs.Prelude.{Some};
    ghost use Rattle.span_registry_layers.specs.CommonAnswers.{CommonInterest, common_hint};
    ghost use Rattle.span_registry_layers.specs.Moves.{Moves};
    ghost use Rattle.span_registry_layers.specs.OutputSlots.{filters_of};
    ghost use Rattle.span_registry_layers.specs.Stacks.{PassesCached};
    ghost use Rattle.span_registry_layers.specs.Questions.{stack_quiet};
    ghost use Rattle.span_registry_layers.specs.Steadiness.{asked_stays, stack_fair, stack_single, stack_stays};
    ghost use Rattle.span_registry_layers.specs.CacheValidity.{CacheIsValid};

    ghost answers = { λ x m at b. PassesCached ⟦<F as Filter>⟧ x m at b };

    ghost says = { λ x m k. CommonInterest ⟦<F as Filter>⟧ m (filters_of x.rows) k };

    ghost hint = { λ x. common_hint ⟦<F as Filter>⟧ (Some 0) (filters_of x.rows) };

    ghost moves = { λ x c r y. Moves ⟦<F as Filter>⟧ ⟦<L as Layer>⟧ x c r y };

    ghost steady = { λ x. CacheIsValid ⟦<F as Filter>⟧ x };

    ghost fair = { λ x k. stack_fair ⟦<F as Filter>⟧ x k };

    ghost single = { λ x m at a b k p q. stack_single ⟦<F as Filter>⟧ x m at a b k p q };

    ghost stays = { λ x c r y moved k. stack_stays ⟦<F as Filter>⟧ ⟦<L as Layer>⟧ x c r y moved k };

    ghost quiet = { λ x m n at now r y b moved k. stack_quiet ⟦<F as Filter>⟧ x y n now b
        (asked_stays ⟦<F as Filter>⟧ ⟦<L as Layer>⟧ x m at r y moved) };

    fn on_register_dispatch(&mut self, dispatch: &WeakDispatch) {
        self.parts.tell_dispatch(dispatch)
    }

    fn register_callsite(&mut self, metadata: &Metadata<'_>) -> Interest {
        self.parts.register(metadata)
    }

    fn enabled(&mut self, metadata: &Metadata<'_>, at: At) -> bool {
        Stack::enabled(self, metadata, at)
    }

    fn max_level_hint(&mut self) -> Option<LevelFilter> {
        self.parts.ask_hint()
    }

    fn new_span(
        &mut self,
        attributes: &Attributes<'_, '_>,
        at: At,
    ) -> Result<Option<Id>, RequestError> {
        Stack::new_span(self, attributes, at)
    }

    fn record(&mut self, span: &Id, values: &Record<'_>, at: At) -> Result<(), RequestError> {
        Stack::record(self, span, values, at)
    }

    fn record_follows_from(&mut self, span: &Id, follows: &Id, at: At) -> Result<(), RequestError> {
        Stack::record_follows_from(self, span, follows, at)
    }

    fn event_enabled(&mut self, _event: &Event<'_, '_>, _at: At) -> bool {
        true
    }

    #[inline(always)]
    fn event(&mut self, event: &Event<'_, '_>, at: At) -> Result<(), RequestError> {
        Stack::event(self, event, at)
    }

    fn enter(&mut self, span: &Id, at: At) -> Result<(), RequestError> {
        Stack::enter(self, span, at)
    }

    fn exit(&mut self, span: &Id, at: At) {
        Stack::exit(self, span, at)
    }

    fn clone_span(&mut self, span: &Id, _at: At) -> Result<Id, RequestError> {
        self.parts.clone_span(span)
    }

    fn drop_span(&mut self, span: Id, at: At) {
        let _closed = Stack::try_close(self, span, at);
    }

    fn try_close(&mut self, span: Id, at: At) -> bool {
        Stack::try_close(self, span, at)
    }

    fn current_span(&mut self, at: At) -> CurrentSpan {
        self.parts.current_span(at.lane)
    }
}
