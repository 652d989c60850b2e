// A subscriber that says and answers always the same, until it is changed.
ghost use Rattle.std.specs.Prelude.{◌≡◌, None};
ghost use Rattle.tracing_core_fields.specs.requests.Interests.{says_always};

use tracing_core_fields::{
    Attributes, CurrentSpan, Event, Id, Interest, LevelFilter, Metadata, Record, RequestError,
    Subscriber, WeakDispatch,
};
use tracing_core_moments::At;

#[derive(Drop)]
pub struct Everything {
    name: u64,
    interest: Interest,
    /// How often it was asked of a callsite or for its hint.
    questions: u64,
}

impl Everything {
    pub fn new(name: u64, interest: Interest) -> Everything {
        Everything {
            name,
            interest,
            questions: 0,
        }
    }

    pub fn rename(&mut self, name: u64) {
        self.name = name;
    }

    pub fn name(&self) -> u64 {
        self.name
    }

    /// Says this of all callsites from now on.
    pub fn say(&mut self, interest: Interest) {
        self.interest = interest;
    }

    pub fn questions(&self) -> u64 {
        self.questions
    }
}

impl Subscriber for Everything {
    ghost use Rattle.std.specs.Prelude.{refl};
    ghost use Rattle.std.proofs.Common.{sym, subst, ap, ◌∙◌};
    ghost use Rattle.tracing_core_fields.specs.requests.Steady.{InterestFits};
    ghost use Rattle.tracing_core_fields.specs.declared.requests.interest.InterestInner.TheVariants.{Never, Sometimes, Always};

    ghost answers = { λ x m at b. b ≡ says_always x.interest };

    ghost says = { λ x m k. k ≡ x.interest };

    ghost hint = { λ x. None };

    ghost moves = { λ x c r y. y.interest ≡ x.interest };

    ghost steady = { λ x. Unit {0} };

    ghost fair = { λ x k. record {
      interest = λ m at b j real e n.
          subst (λ i. InterestFits i b) (sym n) (subst (InterestFits x.interest) (sym e)
          (elim x.interest as (λ i. InterestFits i (says_always i)) [ Never ↦ refl | Sometimes ↦ tt | Always ↦ refl ]));
      below = λ m at b real e. tt;
    } };

    ghost single = { λ x m at a b k one other. one ∙ sym other };

    ghost stays = { λ x c r y moved k. (
      tt,
      record {
        onward = λ m j n. n ∙ sym moved;
        back = λ m j n. n ∙ moved;
        same_hint = refl;
      },
    ) };

    ghost quiet = { λ x m n at now r y b moved k. (
      λ e. e ∙ ap says_always (sym moved),
      λ e. e ∙ ap says_always moved,
    ) };

    fn on_register_dispatch(&mut self, _dispatch: &WeakDispatch) {}

    fn register_callsite(&mut self, _metadata: &Metadata<'_>) -> Interest {
        self.questions = self.questions.wrapping_add(1);
        self.interest
    }

    fn enabled(&mut self, _metadata: &Metadata<'_>, _at: At) -> bool {
        self.interest.is_always()
    }

    fn max_level_hint(&mut self) -> Option<LevelFilter> {
        self.questions = self.questions.wrapping_add(1);
        None
    }

    fn new_span(
        &mut self,
        _attributes: &Attributes<'_, '_>,
        _at: At,
    ) -> Result<Option<Id>, RequestError> {
        Ok(None)
    }

    fn record(&mut self, _span: &Id, _values: &Record<'_>, _at: At) -> Result<(), RequestError> {
        Err(RequestError::UnknownSpan)
    }

    fn record_follows_from(
        &mut self,
        _span: &Id,
        _follows: &Id,
        _at: At,
    ) -> Result<(), RequestError> {
        Err(RequestError::UnknownSpan)
    }

    fn event_enabled(&mut self, _event: &Event<'_, '_>, _at: At) -> bool {
        true
    }

    fn event(&mut self, _event: &Event<'_, '_>, _at: At) -> Result<(), RequestError> {
        Ok(())
    }

    fn enter(&mut self, _span: &Id, _at: At) -> Result<(), RequestError> {
        Err(RequestError::UnknownSpan)
    }

    fn exit(&mut self, _span: &Id, _at: At) {}

    fn clone_span(&mut self, span: &Id, _at: At) -> Result<Id, RequestError> {
        Ok(*span)
    }

    fn drop_span(&mut self, _span: Id, _at: At) {}

    fn try_close(&mut self, _span: Id, _at: At) -> bool {
        false
    }

    fn current_span(&mut self, _at: At) -> CurrentSpan {
        CurrentSpan::Outside
    }
}
