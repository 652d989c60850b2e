// Layers that pass all, and hand what they are told to an observer.
ghost use Rattle.std.specs.Prelude.{◌≡◌, ℕ, Bool, false};
ghost use Rattle.span_registry_layers.specs.SlotIndependence.{SameButKeys};
ghost use Rattle.span_registry_layers.specs.FilterViews.{SameLoan, left};

use crate::{Context, FilterMap, Layer, Registry, Told};
use std::alloc::Global;
use tracing_core::{Event, Id, Interest, LevelFilter, Metadata, WeakDispatch};

/// What a layer can be told.
#[derive(Clone, Copy, Debug, PartialEq, Eq)]
pub enum Notification {
    Taken,
    Attached,
    Made,
    Recorded,
    Followed,
    Happened,
    Entered,
    Left,
    Closed,
    Renamed,
}

/// Keeps what a layer is told. It may write slots of spans under its keys.
pub trait Observer: Drop {
    // The keys of outputs under which it writes slots.
    ghost keys: { Self → ℕ → Bool } = { λ x key. false };

    /// The layer was attached to a registry, or a hub took its stack.
    fn settle(&mut self, notice: Notification)
        ensures { (key : ℕ) → keys self.new key ≡ keys self.old key };

    /// An event happened in a span or in none, or something was done with a span.
    fn observe(&mut self, notice: Notification, span: Option<&Id>, context: &mut Context<'_>)
        ensures lent { SameLoan context.old context.new }
        ensures own { SameButKeys (keys self.old) (left context.old) (left context.new) }
        ensures keyed { (key : ℕ) → keys self.new key ≡ keys self.old key };
}

/// The id of the span that an event stands in.
fn span_of(event: &Event<'_, '_>, context: &Context<'_>) -> Option<Id> {
    match context.event_span(event) {
        None => None,
        Some(span) => Some(span.id()),
    }
}

/// A layer that passes all, and tells an observer.
#[derive(Drop)]
pub struct Observing<O> {
    pub observer: O,
}

impl<O: Observer> Layer for Observing<O> {
    ghost use Rattle.std.specs.Prelude.{◌≡◌, ℕ, None, true};
    ghost use Rattle.tracing_core.specs.InterestInner.TheVariants.{Always};
    ghost use Rattle.span_registry_layers.specs.Combined.{same_word};
    ghost use Rattle.span_registry_layers.specs.Identities.{idle_fair};
    ghost use Rattle.span_registry_layers.specs.Notices.{WritesUnder};
    ghost use Rattle.span_registry_layers.specs.FilterNumbers.{no_numbers};
    ghost use Rattle.span_registry_layers.specs.Singles.{leaf_once};

    ghost told = { λ x n y. ((key : ℕ) → O.keys y.observer key ≡ O.keys x.observer key) ×
        WritesUnder (O.keys x.observer) n };

    ghost fair = { λ x _. idle_fair };

    ghost stays = { λ x n y t _. (tt, same_word (λ m k. k ≡ Always) None) };

    ghost numbered = { λ x n y t. no_numbers n };

    ghost once = { λ x k. leaf_once };

    ghost keys = { λ x. O.keys x.observer };

    ghost aside = { λ x n y t. t.1 };

    ghost keyed = { λ x n y t. t.0 };

    fn on_register_dispatch(&mut self, _dispatch: &WeakDispatch) {
        self.observer.settle(Notification::Taken);
    }

    fn on_layer(&mut self, _registry: &mut Registry) {
        self.observer.settle(Notification::Attached);
    }

    fn room_left(&self, room: u8) -> Option<u8> {
        Some(room)
    }

    fn ask_span(
        &self,
        _metadata: &Metadata<'_>,
        _context: &mut Context<'_>,
        passes: bool,
        verdicts: FilterMap,
    ) -> (FilterMap, bool) {
        (verdicts, passes)
    }

    fn register_callsite(&self, _metadata: &Metadata<'_>) -> Interest {
        Interest::always()
    }

    fn enabled(&self, _metadata: &Metadata<'_>, _context: &Context<'_>) -> bool {
        true
    }

    fn max_level_hint(&self) -> Option<LevelFilter> {
        None
    }

    fn event_enabled(&self, _event: &Event<'_, '_>, _context: &Context<'_>) -> bool {
        true
    }

    fn hear(&mut self, call: &Told<'_, '_, '_, '_>, context: &mut Context<'_>) {
        match call {
            Told::Event(event) => {
                let span = span_of(event, context);
                self.observer
                    .observe(Notification::Happened, span.as_ref(), context);
            }
            Told::NewSpan(span, _) => self
                .observer
                .observe(Notification::Made, Some(span), context),
            Told::Record(span, _) => {
                self.observer
                    .observe(Notification::Recorded, Some(span), context)
            }
            Told::FollowsFrom(span, _) => {
                self.observer
                    .observe(Notification::Followed, Some(span), context)
            }
            Told::Enter(span) => self
                .observer
                .observe(Notification::Entered, Some(span), context),
            Told::Exit(span) => self
                .observer
                .observe(Notification::Left, Some(span), context),
            Told::Close(span) => self
                .observer
                .observe(Notification::Closed, Some(span), context),
            Told::IdChange(_, new) => self
                .observer
                .observe(Notification::Renamed, Some(new), context),
        }
    }
}

/// Counts what it is told, and some of it by its kind.
#[derive(Clone, Copy, Debug, PartialEq, Eq, Drop)]
pub struct Tally {
    pub told: u64,
    pub events: u64,
    pub inside: u64,
    pub made: u64,
    pub closed: u64,
    pub others: u64,
}

impl Observer for Tally {
    fn settle(&mut self, notice: Notification) {
        self.told = self.told.wrapping_add(1);
        if notice == Notification::Taken {
            self.others = self.others.wrapping_add(1);
        }
    }

    // It counts those events apart for which it sees the lane's span.
    fn observe(&mut self, notice: Notification, _span: Option<&Id>, context: &mut Context<'_>) {
        self.told = self.told.wrapping_add(1);
        match notice {
            Notification::Happened => {
                self.events = self.events.wrapping_add(1);
                if context.lookup_current().is_some() {
                    self.inside = self.inside.wrapping_add(1);
                }
            }
            Notification::Made => self.made = self.made.wrapping_add(1),
            Notification::Closed => self.closed = self.closed.wrapping_add(1),
            Notification::Renamed => {}
            _ => self.others = self.others.wrapping_add(1),
        }
    }
}

/// A layer that counts.
pub type Counter = Observing<Tally>;

/// A layer that counted nothing so far.
pub fn new_counter() -> Counter {
    Observing {
        observer: Tally {
            told: 0,
            events: 0,
            inside: 0,
            made: 0,
            closed: 0,
            others: 0,
        },
    }
}

/// Keeps what it is told in order, each time with the number of the span, and 0 for events.
#[derive(Drop)]
pub struct Journal {
    told: Vec<(Notification, u64)>,
}

impl Journal {
    pub fn is(&self, told: &[(Notification, u64)]) -> bool {
        self.told.as_slice() == told
    }
}

impl Observer for Journal {
    fn settle(&mut self, notice: Notification) {
        if notice == Notification::Taken {
            let _room = self.told.push((notice, 0));
        }
    }

    fn observe(&mut self, notice: Notification, span: Option<&Id>, _context: &mut Context<'_>) {
        let number = match (notice, span) {
            (Notification::Happened, _) | (_, None) => 0,
            (_, Some(span)) => span.into_u64(),
        };
        let _room = self.told.push((notice, number));
    }
}

/// A layer that keeps a journal.
pub type Journaling = Observing<Journal>;

/// A layer with an empty journal.
pub fn new_journal(alloc: Global) -> Journaling {
    Observing {
        observer: Journal {
            told: Vec::new(alloc),
        },
    }
}
