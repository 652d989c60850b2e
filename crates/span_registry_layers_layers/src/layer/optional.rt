//! A layer that may be absent.
use crate::context::Context;
use crate::layer::{Layer, Told};
use span_registry_layers_store::{FilterMap, Registry};
use tracing_core_fields::{Event, Interest, LevelFilter, Metadata, WeakDispatch};

/// Where it is absent it vetoes nothing, but its hint is that it passes nothing: an absent layer doesn't keep its
/// word.
impl<L: Layer> Layer for Option<L> {
    ghost use Rattle.span_registry_layers_layers.specs.OptionalLayer as absent;
    ghost use Rattle.span_registry_layers_layers.specs.OptionalFilter.{AnswersIf, EventAnswersIf, SaysIf};

    ghost answers = { AnswersIf L.answers };

    ghost event_answers = { EventAnswersIf L.event_answers };

    ghost says = { SaysIf L.says };

    ghost hint = { absent.hint_of ⟦<L as Layer>⟧ };

    ghost told = { absent.NotifiedOf ⟦<L as Layer>⟧ };

    ghost honest = { absent.IsHonest ⟦<L as Layer>⟧ };

    ghost filters = { absent.filters_of ⟦<L as Layer>⟧ };

    ghost numbers = { absent.numbers_of ⟦<L as Layer>⟧ };

    ghost kept = { absent.KeptOf ⟦<L as Layer>⟧ };

    ghost keys = { absent.keys_of ⟦<L as Layer>⟧ };

    ghost fair = { absent.absent_fair ⟦<L as Layer>⟧ };

    ghost stays = { absent.absent_stays ⟦<L as Layer>⟧ };

    ghost numbered = { absent.absent_numbered ⟦<L as Layer>⟧ };

    ghost once = { absent.absent_once ⟦<L as Layer>⟧ };

    ghost aside = { absent.absent_aside ⟦<L as Layer>⟧ };

    ghost keyed = { absent.absent_keyed ⟦<L as Layer>⟧ };

    fn on_register_dispatch(&mut self, dispatch: &WeakDispatch) {
        match self {
            None => {}
            Some(layer) => layer.on_register_dispatch(dispatch),
        }
    }

    fn on_layer(&mut self, registry: &mut Registry) {
        match self {
            None => {}
            Some(layer) => layer.on_layer(registry),
        }
    }

    fn room_left(&self, room: u8) -> Option<u8> {
        match self {
            None => Some(room),
            Some(layer) => layer.room_left(room),
        }
    }

    fn ask_span(
        &self,
        metadata: &Metadata<'_>,
        context: &mut Context<'_>,
        passes: bool,
        verdicts: FilterMap,
    ) -> (FilterMap, bool) {
        match self {
            None => (verdicts, false),
            Some(layer) => layer.ask_span(metadata, context, passes, verdicts),
        }
    }

    fn register_callsite(&self, metadata: &Metadata<'_>) -> Interest {
        match self {
            None => Interest::always(),
            Some(layer) => layer.register_callsite(metadata),
        }
    }

    fn enabled(&self, metadata: &Metadata<'_>, context: &Context<'_>) -> bool {
        match self {
            None => true,
            Some(layer) => layer.enabled(metadata, context),
        }
    }

    fn hear(&mut self, call: &Told<'_, '_, '_, '_>, context: &mut Context<'_>) {
        match self {
            None => {}
            Some(layer) => layer.hear(call, context),
        }
    }

    fn max_level_hint(&self) -> Option<LevelFilter> {
        match self {
            None => Some(LevelFilter::OFF),
            Some(layer) => layer.max_level_hint(),
        }
    }

    fn event_enabled(&self, event: &Event<'_, '_>, context: &Context<'_>) -> bool {
        match self {
            None => true,
            Some(layer) => layer.event_enabled(event, context),
        }
    }
}
