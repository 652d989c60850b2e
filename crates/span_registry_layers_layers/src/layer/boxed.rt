//! A boxed layer is one.
ghost use Rattle.std.proofs.Common.{subst, sym};
ghost use Rattle.std.specs.Prelude.{◌≡◌};
ghost use Rattle.tracing_core_fields.specs.requests.Steady.{SameWord};
ghost use Rattle.span_registry_layers_layers.specs.FilterNumbers.{NumbersStay};

use crate::context::Context;
use crate::layer::{Layer, Told};
use span_registry_layers_store::{FilterMap, Registry};
use tracing_core_fields::{Event, Interest, LevelFilter, Metadata, WeakDispatch};

/// The box does and answers what the layer in it does.
impl Layer for Box<dyn Layer> {
    ghost answers = { λ b. (Layer-box b).answers b.value };

    ghost event_answers = { λ b. (Layer-box b).event_answers b.value };

    ghost says = { λ b. (Layer-box b).says b.value };

    ghost hint = { λ b. (Layer-box b).hint b.value };

    ghost told = { λ b n c. (v : _) × (Layer-box b).told b.value n v × (c ≡ record b { value = v }) };

    ghost honest = { λ b. (Layer-box b).honest b.value };

    ghost filters = { λ b. (Layer-box b).filters b.value };

    ghost numbers = { λ b. (Layer-box b).numbers b.value };

    ghost kept = { λ b. (Layer-box b).kept b.value };

    ghost keys = { λ b. (Layer-box b).keys b.value };

    ghost fair = { λ b k. (Layer-box b).fair b.value k };

    ghost stays = { λ b n c t k. subst (λ z. (Layer-box z).honest z.value ×
        SameWord ((Layer-box b).says b.value) ((Layer-box z).says z.value) ((Layer-box b).hint b.value)
        ((Layer-box z).hint z.value)) (sym t.2) ((Layer-box b).stays b.value n t.0 t.1 k) };

    ghost numbered = { λ b n c t. subst (λ z. NumbersStay n ((Layer-box b).numbers b.value) ((Layer-box z).numbers z.value))
        (sym t.2) ((Layer-box b).numbered b.value n t.0 t.1) };

    ghost once = { λ b k. (Layer-box b).once b.value k };

    ghost aside = { λ b n c t. (Layer-box b).aside b.value n t.0 t.1 };

    ghost keyed = { λ b n c t key. subst (λ z. (Layer-box z).keys z.value key ≡ (Layer-box b).keys b.value key)
        (sym t.2) ((Layer-box b).keyed b.value n t.0 t.1 key) };

    fn on_register_dispatch(&mut self, dispatch: &WeakDispatch) {
        (**self).on_register_dispatch(dispatch)
    }

    fn on_layer(&mut self, registry: &mut Registry) {
        (**self).on_layer(registry)
    }

    fn room_left(&self, room: u8) -> Option<u8> {
        (**self).room_left(room)
    }

    fn ask_span(
        &self,
        metadata: &Metadata<'_>,
        context: &mut Context<'_>,
        passes: bool,
        verdicts: FilterMap,
    ) -> (FilterMap, bool) {
        (**self).ask_span(metadata, context, passes, verdicts)
    }

    fn register_callsite(&self, metadata: &Metadata<'_>) -> Interest {
        (**self).register_callsite(metadata)
    }

    fn enabled(&self, metadata: &Metadata<'_>, context: &Context<'_>) -> bool {
        (**self).enabled(metadata, context)
    }

    fn hear(&mut self, call: &Told<'_, '_, '_, '_>, context: &mut Context<'_>) {
        (**self).hear(call, context)
    }

    fn max_level_hint(&self) -> Option<LevelFilter> {
        (**self).max_level_hint()
    }

    fn event_enabled(&self, event: &Event<'_, '_>, context: &Context<'_>) -> bool {
        (**self).event_enabled(event, context)
    }
}
