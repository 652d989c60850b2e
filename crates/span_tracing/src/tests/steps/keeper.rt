// A subscriber over a registry, which keeps what it was told last.
ghost use Rattle.std.specs.Prelude.{◌≡◌, None, true};
ghost use Rattle.tracing_core_fields.specs.declared.requests.interest.InterestInner.TheVariants.{Sometimes};

use span_registry_layers_store::{FilterMap, Registry};
use span_tracing_skeleton::{
    HasOutputs, HasRegistry, HasSinks, QueueCall, Refusal, Reply, Setting,
};
use std::alloc::Global;
use tracing_core_fields::{
    Attributes, CurrentSpan, DebugText, Event, Field, Id, Interest, LevelFilter, Metadata, Record,
    RequestError, Subscriber, Visit, WeakDispatch,
};
use tracing_core_moments::At;

// The digits of numbers, in the order in which they are told.
#[derive(Drop)]
struct Digits {
    number: u64,
}

impl Visit for Digits {
    type Error = RequestError;

    ghost shows = { λ before field debug answer after. Unit {0} };

    fn record_debug(
        &mut self,
        _field: &Field<'_>,
        value: &DebugText<'_>,
    ) -> Result<(), RequestError> {
        if let DebugText::U64(digit) = value {
            self.number = self.number.wrapping_mul(10).wrapping_add(*digit);
        }
        Ok(())
    }
}

/// What was told last.
#[derive(Clone, Copy, Debug, PartialEq, Eq)]
pub enum Told {
    Nothing,
    Event(u64),
    Span(u64),
    Values(Id, u64),
    Follows(Id, Id),
    Entered(Id),
    Exited(Id),
    Cloned(Id),
    Closed(Id),
}

#[derive(Drop)]
pub struct Keeper {
    registry: Registry,
    failure: Option<RequestError>,
    /// How many requests it was handed.
    pub calls: u64,
    pub told: Told,
    pub lane: u64,
}

impl Keeper {
    /// A subscriber that answers each new span and each entry with the failure, where there is one.
    pub fn new(alloc: Global, failure: Option<RequestError>) -> Keeper {
        Keeper {
            registry: Registry::new(alloc),
            failure,
            calls: 0,
            told: Told::Nothing,
            lane: 0,
        }
    }

    fn hear(&mut self, told: Told, at: At) {
        self.calls = self.calls.wrapping_add(1);
        self.told = told;
        self.lane = at.lane;
    }
}

impl HasRegistry for Keeper {
    ghost registry_of = { λ x. x.registry };

    fn registry(&self) -> &Registry {
        &self.registry
    }
}

impl HasOutputs for Keeper {
    ghost use Rattle.std.specs.Prelude.{refl};

    ghost outputs_in = { λ x. 1 };

    ghost set = { λ x place setting. x };

    ghost spans_stay = { λ x place setting. refl };

    ghost word_stays = { λ x place setting k. (
      tt,
      record {
        onward = λ m j n. n;
        back = λ m j n. n;
        same_hint = refl;
      },
    ) };

    fn output_count(&self) -> usize {
        1
    }

    fn set(&mut self, _place: usize, _setting: Setting) {}
}

impl HasSinks for Keeper {
    ghost use Rattle.std.specs.Prelude.{◌≡◌, false, refl, ap};
    ghost use Rattle.span_tracing_skeleton.specs.declared.call.Reply.TheVariants.{Refused};
    ghost use Rattle.span_tracing_skeleton.specs.declared.refusal.Refusal.TheVariants.{UnknownSink};

    ghost sinks_in = { λ x. 0 };

    ghost drives = { λ x number call reply y. (reply ≡ Refused UnknownSink) × (y ≡ x) };

    ghost holds = { λ x. false };

    ghost spans_stay = { λ x number call reply y goes. ap (λ k. k.registry) goes.1 };

    ghost word_stays = { λ x number call reply y goes k. (
      tt,
      record {
        onward = λ m j n. n;
        back = λ m j n. n;
        same_hint = refl;
      },
    ) };

    fn sink_count(&self) -> usize {
        0
    }

    fn is_holding(&self) -> bool {
        false
    }

    fn drive(&mut self, _number: usize, _call: QueueCall) -> Reply {
        Reply::Refused(Refusal::UnknownSink)
    }
}

impl Subscriber for Keeper {
    ghost use Rattle.std.specs.Prelude.{refl};
    ghost use Rattle.std.proofs.Common.{sym, subst, ◌∙◌};
    ghost use Rattle.tracing_core_fields.specs.requests.Steady.{InterestFits};

    ghost answers = { λ x m at b. b ≡ true };

    ghost says = { λ x m k. k ≡ Sometimes };

    ghost hint = { λ x. None };

    ghost moves = { λ x c r y. Unit {0} };

    ghost steady = { λ x. Unit {0} };

    ghost fair = { λ x k. record {
      interest = λ m at b j real e n. subst (λ i. InterestFits i b) (sym n) tt;
      below = λ m at b real e. tt;
    } };

    ghost single = { λ x m at a b k one other. one ∙ sym other };

    ghost stays = { λ x c r y moved k. (
      tt,
      record {
        onward = λ m j n. n;
        back = λ m j n. n;
        same_hint = refl;
      },
    ) };

    ghost quiet = { λ x m n at now r y b moved k. (λ e. e, λ e. e) };

    fn on_register_dispatch(&mut self, _dispatch: &WeakDispatch) {}

    fn register_callsite(&mut self, _metadata: &Metadata<'_>) -> Interest {
        Interest::sometimes()
    }

    fn enabled(&mut self, _metadata: &Metadata<'_>, at: At) -> bool {
        self.calls = self.calls.wrapping_add(1);
        self.lane = at.lane;
        true
    }

    fn max_level_hint(&mut self) -> Option<LevelFilter> {
        None
    }

    fn new_span(
        &mut self,
        attributes: &Attributes<'_, '_>,
        at: At,
    ) -> Result<Option<Id>, RequestError> {
        if let Some(error) = self.failure {
            return Err(error);
        }
        let mut digits = Digits { number: 0 };
        attributes.record(&mut digits)?;
        self.hear(Told::Span(digits.number), at);
        let id = self
            .registry
            .new_span(attributes, at.lane, FilterMap::all())?;
        Ok(Some(id))
    }

    fn record(&mut self, span: &Id, values: &Record<'_>, at: At) -> Result<(), RequestError> {
        let mut digits = Digits { number: 0 };
        values.record(&mut digits)?;
        self.hear(Told::Values(*span, digits.number), at);
        Ok(())
    }

    fn record_follows_from(&mut self, span: &Id, follows: &Id, at: At) -> Result<(), RequestError> {
        self.hear(Told::Follows(*span, *follows), at);
        Ok(())
    }

    fn event_enabled(&mut self, _event: &Event<'_, '_>, _at: At) -> bool {
        true
    }

    fn event(&mut self, event: &Event<'_, '_>, at: At) -> Result<(), RequestError> {
        let mut digits = Digits { number: 0 };
        event.record(&mut digits)?;
        self.hear(Told::Event(digits.number), at);
        Ok(())
    }

    fn enter(&mut self, span: &Id, at: At) -> Result<(), RequestError> {
        if let Some(error) = self.failure {
            return Err(error);
        }
        self.hear(Told::Entered(*span), at);
        self.registry.enter(span, at.lane)
    }

    fn exit(&mut self, span: &Id, at: At) {
        self.hear(Told::Exited(*span), at);
        self.registry.exit(span, at.lane);
    }

    fn clone_span(&mut self, span: &Id, at: At) -> Result<Id, RequestError> {
        self.hear(Told::Cloned(*span), at);
        self.registry.clone_span(span)
    }

    fn drop_span(&mut self, span: Id, at: At) {
        let _closed = self.try_close(span, at);
    }

    fn try_close(&mut self, span: Id, at: At) -> bool {
        self.hear(Told::Closed(span), at);
        match self.registry.try_close(span) {
            Ok(closed) => closed,
            Err(_) => false,
        }
    }

    fn current_span(&mut self, _at: At) -> CurrentSpan {
        CurrentSpan::Outside
    }
}
