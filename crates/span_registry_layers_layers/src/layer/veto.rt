//! Filters as layers that veto what they refuse.
ghost use Rattle.std.specs.Prelude.{◌≡◌, false, refl};
ghost use Rattle.span_registry_layers_layers.specs.Honesty.{Fair};
ghost use Rattle.span_registry_layers_layers.specs.Notices.{Untouched, untouched_writes};
ghost use Rattle.span_registry_layers_layers.specs.FilterNumbers.{no_numbers};
ghost use Rattle.span_registry_layers_layers.specs.Singles.{leaf_once};

use crate::context::Context;
use crate::filter::{DynFilterFn, Filter, FilterFn};
use crate::layer::{Layer, Told};
use span_registry_layers_store::{FilterMap, Registry};
use tracing_core_fields::{Event, Interest, LevelFilter, Metadata, WeakDispatch};

/// A filter of this crate that is a layer as well: nobody is told of what it refuses, and no notice changes it.
pub trait Veto: Filter {}

impl Veto for LevelFilter {}

impl Veto for FilterFn {}

impl Veto for DynFilterFn {}

impl<F: Veto> Layer for F {
    ghost use Rattle.span_registry_layers_layers.specs.Veto.{veto_stays};

    ghost answers = { F.answers };

    ghost event_answers = { F.event_answers };

    ghost says = { F.says };

    ghost hint = { F.hint };

    ghost told = { λ x n y. (y ≡ x) × Untouched n };

    ghost honest = { λ x. Fair (F.answers x) (F.says x) (F.hint x) };

    ghost fair = { λ x k. k };

    ghost stays = { λ x n y t k. veto_stays ⟦<F as Filter>⟧ x y t.0 k };

    ghost numbered = { λ x n y t. no_numbers n };

    ghost once = { λ x k. leaf_once };

    ghost aside = { λ x n y t. untouched_writes (λ key. false) n t.1 };

    ghost keyed = { λ x n y t key. refl };

    fn on_register_dispatch(&mut self, _dispatch: &WeakDispatch) {}

    fn on_layer(&mut self, _registry: &mut Registry) {}

    fn room_left(&self, room: u8) -> Option<u8> {
        Some(room)
    }

    fn ask_span(
        &self,
        _metadata: &Metadata<'_>,
        _context: &mut Context<'_>,
        passes: bool,
        verdicts: FilterMap,
    ) -> (FilterMap, bool) {
        (verdicts, passes)
    }

    fn register_callsite(&self, metadata: &Metadata<'_>) -> Interest {
        Filter::callsite_enabled(self, metadata)
    }

    fn enabled(&self, metadata: &Metadata<'_>, context: &Context<'_>) -> bool {
        Filter::enabled(self, metadata, context)
    }

    fn hear(&mut self, _call: &Told<'_, '_, '_, '_>, _context: &mut Context<'_>) {}

    fn max_level_hint(&self) -> Option<LevelFilter> {
        Filter::max_level_hint(self)
    }

    fn event_enabled(&self, event: &Event<'_, '_>, context: &Context<'_>) -> bool {
        Filter::event_enabled(self, event, context)
    }
}
