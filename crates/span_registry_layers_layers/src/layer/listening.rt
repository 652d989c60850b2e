//! What only listens, as a layer.
ghost use Rattle.std.specs.Prelude.{◌≡◌};
ghost use Rattle.span_registry_layers_layers.specs.FilterViews.{left, view};
ghost use Rattle.span_registry_layers_layers.specs.Notices.{Notice};
ghost use Rattle.span_registry_layers_layers.specs.LayerNotices.{notice};

use crate::context::Context;
use crate::layer::{Layer, Told};
use span_registry_layers_store::{FilterMap, Registry};
use tracing_core_fields::{Event, Interest, LevelFilter, Metadata, WeakDispatch};

/// What only listens: as a layer it passes all, has no filters, and writes nothing to the registry.
///
/// All that it writes is what it does with what it is told, and by `heard` what that makes of it. It owes no law.
pub trait Listener: Drop {
    // What it may be once it was told of something.
    ghost heard: { Self → Notice → Self → Type 0 } = { λ x n y. y ≡ x };

    /// Becomes one of the values that `heard` allows of it, told this of spans and events.
    fn hear(&mut self, call: &Told<'_, '_, '_, '_>, context: &Context<'_>)
        ensures { heard self.old (notice call.now (view context.now) (left context.now)) self.new };
}

/// A listener as a layer.
///
/// Nothing changes it but what it is told of spans and events, neither that it is attached nor that a hub took its
/// stack.
#[derive(Clone, Copy, Debug, Drop)]
pub struct Listening<T> {
    listener: T,
}

impl<T> Listening<T> {
    /// The listener, as a layer.
    pub fn new(listener: T) -> Listening<T>
        ensures { result.listener ≡ listener }
    {
        Listening { listener }
    }

    /// The listener.
    pub fn listener(&self) -> &T
        ensures { result.now ≡ self.now.listener }
    {
        &self.listener
    }

    /// The listener, as it is now.
    pub fn into_listener(self) -> T
        ensures { result ≡ self.listener }
    {
        let Listening { listener } = self;
        listener
    }
}

impl<T: Listener> Layer for Listening<T> {
    ghost use Rattle.std.specs.Prelude.{◌≡◌, None, false, refl, true};
    ghost use Rattle.tracing_core_fields.specs.declared.requests.interest.InterestInner.TheVariants.{Always};
    ghost use Rattle.span_registry_layers_layers.specs.Combined.{same_word};
    ghost use Rattle.span_registry_layers_layers.specs.Identities.{idle_fair};
    ghost use Rattle.span_registry_layers_layers.specs.ListenerLayer.{Listens};
    ghost use Rattle.span_registry_layers_layers.specs.Notices.{Untouched, untouched_writes};
    ghost use Rattle.span_registry_layers_layers.specs.FilterNumbers.{no_numbers};
    ghost use Rattle.span_registry_layers_layers.specs.Singles.{leaf_once};

    ghost told = { λ x n y. Listens ⟦<T as Listener>⟧ x n y × Untouched n };

    ghost fair = { λ x _. idle_fair };

    ghost stays = { λ x n y t _. (tt, same_word (λ m k. k ≡ Always) None) };

    ghost numbered = { λ x n y t. no_numbers n };

    ghost once = { λ x k. leaf_once };

    ghost aside = { λ x n y t. untouched_writes (λ key. false) n t.1 };

    ghost keyed = { λ x n y t key. refl };

    fn on_register_dispatch(&mut self, _dispatch: &WeakDispatch) {}

    fn on_layer(&mut self, _registry: &mut Registry) {}

    fn room_left(&self, room: u8) -> Option<u8> {
        Some(room)
    }

    fn ask_span(
        &self,
        _metadata: &Metadata<'_>,
        _context: &mut Context<'_>,
        passes: bool,
        verdicts: FilterMap,
    ) -> (FilterMap, bool) {
        (verdicts, passes)
    }

    fn register_callsite(&self, _metadata: &Metadata<'_>) -> Interest {
        Interest::always()
    }

    fn enabled(&self, _metadata: &Metadata<'_>, _context: &Context<'_>) -> bool {
        true
    }

    fn hear(&mut self, call: &Told<'_, '_, '_, '_>, context: &mut Context<'_>) {
        self.listener.hear(call, context);
    }

    fn max_level_hint(&self) -> Option<LevelFilter> {
        None
    }

    fn event_enabled(&self, _event: &Event<'_, '_>, _context: &Context<'_>) -> bool {
        true
    }
}
