//! A layer that does nothing.
ghost use Rattle.std.specs.Prelude.{◌≡◌, None, true, false, refl};
ghost use Rattle.tracing_core_fields.specs.declared.requests.interest.InterestInner.TheVariants.{Always};
ghost use Rattle.span_registry_layers_layers.specs.Combined.{same_word};
ghost use Rattle.span_registry_layers_layers.specs.Identities.{idle_fair};
ghost use Rattle.span_registry_layers_layers.specs.Notices.{untouched_writes};
ghost use Rattle.span_registry_layers_layers.specs.FilterNumbers.{no_numbers};
ghost use Rattle.span_registry_layers_layers.specs.Singles.{leaf_once};

use crate::context::Context;
use crate::layer::{Layer, Told};
use span_registry_layers_store::{FilterMap, Registry};
use tracing_core_fields::{Event, Interest, LevelFilter, Metadata, WeakDispatch};

/// A layer that does nothing with what it is told, and vetoes nothing.
#[derive(Clone, Copy, Debug, Drop)]
pub struct Identity(());

impl Identity {
    /// A layer that does nothing.
    pub fn new() -> Identity {
        Identity(())
    }
}

impl Layer for Identity {
    ghost fair = { λ x _. idle_fair };

    ghost stays = { λ x n y t _. (tt, same_word (λ m k. k ≡ Always) None) };

    ghost numbered = { λ x n y t. no_numbers n };

    ghost once = { λ x k. leaf_once };

    ghost aside = { λ x n y t. untouched_writes (λ key. false) n t.1 };

    ghost keyed = { λ x n y t key. refl };

    fn on_register_dispatch(&mut self, _dispatch: &WeakDispatch) {}

    fn on_layer(&mut self, _registry: &mut Registry) {}

    fn room_left(&self, room: u8) -> Option<u8> {
        Some(room)
    }

    fn ask_span(
        &self,
        _metadata: &Metadata<'_>,
        _context: &mut Context<'_>,
        passes: bool,
        verdicts: FilterMap,
    ) -> (FilterMap, bool) {
        (verdicts, passes)
    }

    fn register_callsite(&self, _metadata: &Metadata<'_>) -> Interest {
        Interest::always()
    }

    fn enabled(&self, _metadata: &Metadata<'_>, _context: &Context<'_>) -> bool {
        true
    }

    fn hear(&mut self, _call: &Told<'_, '_, '_, '_>, _context: &mut Context<'_>) {}

    fn max_level_hint(&self) -> Option<LevelFilter> {
        None
    }

    fn event_enabled(&self, _event: &Event<'_, '_>, _context: &Context<'_>) -> bool {
        true
    }
}
