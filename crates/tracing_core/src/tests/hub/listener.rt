// A subscriber that keeps what it was told last.
ghost use Rattle.std.specs.Prelude.{◌≡◌, None};
ghost use Rattle.tracing_core_fields.specs.declared.requests.interest.InterestInner.TheVariants.{Sometimes};

use tracing_core_fields::{
    Attributes, CurrentSpan, DebugText, Event, Field, Id, Interest, LevelFilter, Metadata, Record,
    RequestError, Subscriber, Visit, WeakDispatch,
};
use tracing_core_moments::At;

// The digits of numbers, in the order in which they are told.
#[derive(Drop)]
struct Digits {
    number: u64,
}

impl Visit for Digits {
    type Error = RequestError;

    ghost shows = { λ before field debug answer after. Unit {0} };

    fn record_debug(
        &mut self,
        _field: &Field<'_>,
        value: &DebugText<'_>,
    ) -> Result<(), RequestError> {
        if let DebugText::U64(digit) = value {
            self.number = self.number.wrapping_mul(10).wrapping_add(*digit);
        }
        Ok(())
    }
}

/// Where a request was told to stand.
#[derive(Clone, Copy, Debug, PartialEq, Eq)]
pub enum Place {
    Nowhere,
    Contextual,
    Root,
    Under(Id),
}

fn place_of(is_root: bool, is_contextual: bool, parent: Option<&Id>) -> Place {
    match parent {
        Some(id) => Place::Under(*id),
        None if is_root => Place::Root,
        None if is_contextual => Place::Contextual,
        None => Place::Nowhere,
    }
}

#[derive(Drop)]
pub struct Listener {
    pub calls: u64,
    pub digits: u64,
    pub place: Place,
}

impl Listener {
    pub fn new() -> Listener {
        Listener {
            calls: 0,
            digits: 0,
            place: Place::Nowhere,
        }
    }

    fn hear(&mut self, digits: Digits, place: Place) {
        self.calls = self.calls.wrapping_add(1);
        self.digits = digits.number;
        self.place = place;
    }
}

impl Subscriber for Listener {
    ghost use Rattle.std.specs.Prelude.{true, refl};
    ghost use Rattle.std.proofs.Common.{sym, subst, ◌∙◌};
    ghost use Rattle.tracing_core_fields.specs.requests.Steady.{InterestFits};

    ghost answers = { λ x m at b. b ≡ true };

    ghost says = { λ x m k. k ≡ Sometimes };

    ghost hint = { λ x. None };

    ghost moves = { λ x c r y. Unit {0} };

    ghost steady = { λ x. Unit {0} };

    ghost fair = { λ x k. record {
      interest = λ m at b j real e n. subst (λ i. InterestFits i b) (sym n) tt;
      below = λ m at b real e. tt;
    } };

    ghost single = { λ x m at a b k one other. one ∙ sym other };

    ghost stays = { λ x c r y moved k. (
      tt,
      record {
        onward = λ m j n. n;
        back = λ m j n. n;
        same_hint = refl;
      },
    ) };

    ghost quiet = { λ x m n at now r y b moved k. (λ e. e, λ e. e) };

    fn on_register_dispatch(&mut self, _dispatch: &WeakDispatch) {}

    fn register_callsite(&mut self, _metadata: &Metadata<'_>) -> Interest {
        Interest::sometimes()
    }

    fn enabled(&mut self, _metadata: &Metadata<'_>, _at: At) -> bool {
        self.calls = self.calls.wrapping_add(1);
        true
    }

    fn max_level_hint(&mut self) -> Option<LevelFilter> {
        None
    }

    fn new_span(
        &mut self,
        attributes: &Attributes<'_, '_>,
        _at: At,
    ) -> Result<Option<Id>, RequestError> {
        let mut digits = Digits { number: 0 };
        attributes.record(&mut digits)?;
        let (root, contextual) = (attributes.is_root(), attributes.is_contextual());
        self.hear(digits, place_of(root, contextual, attributes.parent()));
        Ok(Id::from_u64(3))
    }

    fn record(&mut self, span: &Id, values: &Record<'_>, _at: At) -> Result<(), RequestError> {
        let mut digits = Digits { number: 0 };
        values.record(&mut digits)?;
        self.hear(digits, Place::Under(*span));
        Ok(())
    }

    fn record_follows_from(
        &mut self,
        _span: &Id,
        _follows: &Id,
        _at: At,
    ) -> Result<(), RequestError> {
        Err(RequestError::UnknownSpan)
    }

    fn event_enabled(&mut self, _event: &Event<'_, '_>, _at: At) -> bool {
        true
    }

    fn event(&mut self, event: &Event<'_, '_>, _at: At) -> Result<(), RequestError> {
        let mut digits = Digits { number: 0 };
        event.record(&mut digits)?;
        let (root, contextual) = (event.is_root(), event.is_contextual());
        self.hear(digits, place_of(root, contextual, event.parent()));
        Ok(())
    }

    fn enter(&mut self, _span: &Id, _at: At) -> Result<(), RequestError> {
        Err(RequestError::UnknownSpan)
    }

    fn exit(&mut self, _span: &Id, _at: At) {}

    fn clone_span(&mut self, span: &Id, _at: At) -> Result<Id, RequestError> {
        Ok(*span)
    }

    fn drop_span(&mut self, _span: Id, _at: At) {}

    fn try_close(&mut self, _span: Id, _at: At) -> bool {
        false
    }

    fn current_span(&mut self, _at: At) -> CurrentSpan {
        CurrentSpan::Outside
    }
}
