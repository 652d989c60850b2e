//! A box of a subscriber of a known kind is one.
use crate::requests::arguments::{Attributes, Event, Record};
use crate::requests::current_span::CurrentSpan;
use crate::requests::dispatch::WeakDispatch;
use crate::requests::interest::Interest;
use crate::requests::refusal::RequestError;
use crate::requests::subscriber::Subscriber;
use crate::{Id, LevelFilter, Metadata};
use tracing_core_moments::At;

/// The box answers what the subscriber in it does.
impl<S: Subscriber> Subscriber for Box<S> {
    ghost use Rattle.std.specs.Prelude.{◌≡◌, ◌↔◌};
    ghost use Rattle.std.proofs.Common.{subst, sym};
    ghost use Rattle.tracing_core_fields.specs.requests.Steady.{SameWord};

    ghost answers = { λ b. S.answers b.value };

    ghost says = { λ b. S.says b.value };

    ghost hint = { λ b. S.hint b.value };

    ghost moves = { λ b c r e. (w : S) × S.moves b.value c r w × (e ≡ record b { value = w }) };

    ghost steady = { λ b. S.steady b.value };

    ghost fair = { λ b k. S.fair b.value k };

    ghost single = { λ b. S.single b.value };

    ghost stays = { λ b c r e m k. subst (λ x. S.steady x.value ×
        SameWord (S.says b.value) (S.says x.value) (S.hint b.value) (S.hint x.value)) (sym m.2)
        (S.stays b.value c r m.0 m.1 k) };

    ghost quiet = { λ b m n at now r e a moved k. subst (λ x. S.answers b.value n now a ↔ S.answers x.value n now a)
        (sym moved.2) (S.quiet b.value m n at now r moved.0 a moved.1 k) };

    fn on_register_dispatch(&mut self, dispatch: &WeakDispatch) {
        (**self).on_register_dispatch(dispatch)
    }

    fn register_callsite(&mut self, metadata: &Metadata<'_>) -> Interest {
        (**self).register_callsite(metadata)
    }

    fn enabled(&mut self, metadata: &Metadata<'_>, at: At) -> bool {
        (**self).enabled(metadata, at)
    }

    fn max_level_hint(&mut self) -> Option<LevelFilter> {
        (**self).max_level_hint()
    }

    fn new_span(
        &mut self,
        attributes: &Attributes<'_, '_>,
        at: At,
    ) -> Result<Option<Id>, RequestError> {
        (**self).new_span(attributes, at)
    }

    fn record(&mut self, span: &Id, values: &Record<'_>, at: At) -> Result<(), RequestError> {
        (**self).record(span, values, at)
    }

    fn record_follows_from(&mut self, span: &Id, follows: &Id, at: At) -> Result<(), RequestError> {
        (**self).record_follows_from(span, follows, at)
    }

    fn event_enabled(&mut self, event: &Event<'_, '_>, at: At) -> bool {
        (**self).event_enabled(event, at)
    }

    fn event(&mut self, event: &Event<'_, '_>, at: At) -> Result<(), RequestError> {
        (**self).event(event, at)
    }

    fn enter(&mut self, span: &Id, at: At) -> Result<(), RequestError> {
        (**self).enter(span, at)
    }

    fn exit(&mut self, span: &Id, at: At) {
        (**self).exit(span, at)
    }

    fn clone_span(&mut self, span: &Id, at: At) -> Result<Id, RequestError> {
        (**self).clone_span(span, at)
    }

    fn drop_span(&mut self, span: Id, at: At) {
        (**self).drop_span(span, at)
    }

    fn try_close(&mut self, span: Id, at: At) -> bool {
        (**self).try_close(span, at)
    }

    fn current_span(&mut self, at: At) -> CurrentSpan {
        (**self).current_span(at)
    }
}
