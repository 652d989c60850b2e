//! The subscriber that wants nothing.
ghost use Rattle.std.specs.Prelude.{◌≡◌, Bool, false, None};
ghost use Rattle.tracing_core_fields.specs.requests.NoReplies.{no_reply, is_fair, same_word};
ghost use Rattle.tracing_core_fields.specs.declared.requests.interest.InterestInner.TheVariants.{Never};

use crate::requests::arguments::{Attributes, Event, Record};
use crate::requests::current_span::CurrentSpan;
use crate::requests::dispatch::WeakDispatch;
use crate::requests::interest::Interest;
use crate::requests::refusal::RequestError;
use crate::requests::subscriber::Subscriber;
use crate::{Id, LevelFilter, Metadata};
use tracing_core_moments::At;

/// The subscriber that wants nothing, and does nothing.
#[derive(Clone, Copy, Debug)]
pub struct NoSubscriber(());

impl NoSubscriber {
    /// The subscriber that wants nothing.
    pub const fn new() -> NoSubscriber {
        NoSubscriber(())
    }
}

impl Subscriber for NoSubscriber {
    ghost use Rattle.std.specs.Prelude.{refl};
    ghost use Rattle.std.proofs.Common.{◌∙◌, sym};

    ghost answers = { λ x m at b. b ≡ false };

    ghost says = { λ x m k. k ≡ Never };

    ghost hint = { λ x. None };

    ghost moves = { λ x c r y. (r ≡ no_reply c) × (y ≡ x) };

    ghost steady = { λ x. Unit {0} };

    ghost fair = { λ x k. is_fair };

    ghost single = { λ x m at a b k p q. p ∙ sym q };

    ghost stays = { λ x c r y m k. (k, same_word) };

    ghost quiet = { λ x m n at now r y b moved k. (λ e. e, λ e. e) };

    fn on_register_dispatch(&mut self, _dispatch: &WeakDispatch) {}

    fn register_callsite(&mut self, _metadata: &Metadata<'_>) -> Interest {
        Interest::never()
    }

    fn enabled(&mut self, _metadata: &Metadata<'_>, _at: At) -> bool {
        false
    }

    fn max_level_hint(&mut self) -> Option<LevelFilter> {
        None
    }

    fn new_span(
        &mut self,
        _attributes: &Attributes<'_, '_>,
        _at: At,
    ) -> Result<Option<Id>, RequestError> {
        Ok(Id::from_u64(0xDEAD))
    }

    fn record(&mut self, _span: &Id, _values: &Record<'_>, _at: At) -> Result<(), RequestError> {
        Ok(())
    }

    fn record_follows_from(
        &mut self,
        _span: &Id,
        _follows: &Id,
        _at: At,
    ) -> Result<(), RequestError> {
        Ok(())
    }

    fn event_enabled(&mut self, _event: &Event<'_, '_>, _at: At) -> bool {
        true
    }

    fn event(&mut self, _event: &Event<'_, '_>, _at: At) -> Result<(), RequestError> {
        Ok(())
    }

    fn enter(&mut self, _span: &Id, _at: At) -> Result<(), RequestError> {
        Ok(())
    }

    fn exit(&mut self, _span: &Id, _at: At) {}

    fn clone_span(&mut self, span: &Id, _at: At) -> Result<Id, RequestError> {
        Ok(*span)
    }

    fn drop_span(&mut self, _span: Id, _at: At) {}

    fn try_close(&mut self, _span: Id, _at: At) -> bool {
        false
    }

    fn current_span(&mut self, _at: At) -> CurrentSpan {
        CurrentSpan::Unknown
    }
}
