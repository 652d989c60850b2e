//! Layers over a registry, as a subscriber.
use crate::layer::{Layer, Layered};
use span_registry_layers_store::Registry;
use tracing_core_fields::{
    Attributes, CurrentSpan, Event, Id, Interest, LevelFilter, Metadata, Record, RequestError,
    Subscriber, WeakDispatch,
};
use tracing_core_moments::At;

/// Each layer is told what all filters on the way down to it pass, asked again; of a span what they said when
/// it was made.
///
/// It keeps nothing of its filters' answers: its interest in each callsite is sometimes, and it knows no most verbose
/// level. Where its layers are consistent and veto nothing, it is steady.
impl<L: Layer> Subscriber for Layered<L, Registry> {
    ghost use Rattle.std.specs.Prelude.{◌≡◌, ◌↔◌, None};
    ghost use Rattle.std.proofs.Common.{subst, sym};
    ghost use Rattle.span_registry_layers_layers.specs.TreeConsistency as staying;
    ghost use Rattle.tracing_core_fields.specs.declared.requests.interest.InterestInner.TheVariants.{Sometimes};
    ghost use Rattle.span_registry_layers_layers.specs.Trees as trees;

    ghost answers = { trees.AnswersOf ⟦<L as Layer>⟧ };

    ghost says = { λ x m k. k ≡ Sometimes };

    ghost hint = { λ x. None };

    ghost moves = { trees.Moves ⟦<L as Layer>⟧ };

    ghost steady = { staying.IsSteady ⟦<L as Layer>⟧ };

    ghost fair = { λ x _. staying.tree_fair ⟦<L as Layer>⟧ x };

    ghost single = { λ x m at a b k p q. staying.tree_single ⟦<L as Layer>⟧ x m at a b k p q };

    ghost stays = { λ x c r y moved k. staying.tree_stays ⟦<L as Layer>⟧ x c r y moved k };

    ghost quiet = { λ x m n at place r y b moved _. subst (λ z. trees.AnswersOf ⟦<L as Layer>⟧ x n place b ↔
        trees.AnswersOf ⟦<L as Layer>⟧ z n place b) (sym moved.1) (λ p. p, λ p. p) };

    fn on_register_dispatch(&mut self, dispatch: &WeakDispatch) {
        self.layer.on_register_dispatch(dispatch);
    }

    fn register_callsite(&mut self, _metadata: &Metadata<'_>) -> Interest {
        Interest::sometimes()
    }

    fn enabled(&mut self, metadata: &Metadata<'_>, at: At) -> bool {
        self.makes(metadata, at)
    }

    fn max_level_hint(&mut self) -> Option<LevelFilter> {
        None
    }

    fn new_span(
        &mut self,
        attributes: &Attributes<'_, '_>,
        at: At,
    ) -> Result<Option<Id>, RequestError> {
        self.hand_span(attributes, at)
    }

    fn record(&mut self, span: &Id, values: &Record<'_>, at: At) -> Result<(), RequestError> {
        self.hand_record(span, values, at)
    }

    fn record_follows_from(&mut self, span: &Id, follows: &Id, at: At) -> Result<(), RequestError> {
        self.hand_follows(span, follows, at)
    }

    fn event_enabled(&mut self, _event: &Event<'_, '_>, _at: At) -> bool {
        true
    }

    fn event(&mut self, event: &Event<'_, '_>, at: At) -> Result<(), RequestError> {
        self.hand_event(event, at)
    }

    fn enter(&mut self, span: &Id, at: At) -> Result<(), RequestError> {
        self.hand_enter(span, at)
    }

    fn exit(&mut self, span: &Id, at: At) {
        self.hand_exit(span, at)
    }

    fn clone_span(&mut self, span: &Id, _at: At) -> Result<Id, RequestError> {
        self.inner.clone_span(span)
    }

    fn drop_span(&mut self, span: Id, at: At) {
        let _closed = self.hand_close(span, at);
    }

    fn try_close(&mut self, span: Id, at: At) -> bool {
        self.hand_close(span, at)
    }

    fn current_span(&mut self, at: At) -> CurrentSpan {
        match self.inner.current_span(at.lane) {
            None => CurrentSpan::Outside,
            Some(span) => CurrentSpan::Inside(span),
        }
    }
}
