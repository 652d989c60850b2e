//! The layer as a layer of a registry.
ghost use Rattle.std.specs.Prelude.{◌≡◌, ◌==◌, None, true};
ghost use Rattle.std.proofs.Common.{ap};
ghost use Rattle.tracing_core_fields.specs.declared.requests.interest.InterestInner.TheVariants.{Always};
ghost use Rattle.span_registry_layers_layers.specs.Combined.{same_word};
ghost use Rattle.span_registry_layers_layers.specs.Identities.{idle_fair};
ghost use Rattle.span_registry_layers_layers.specs.FilterNumbers.{no_numbers};
ghost use Rattle.span_registry_layers_layers.specs.Singles.{leaf_once};
ghost use Rattle.event_formatter.specs.fmt_layer.LayerNotices.{LayerTold};
ghost use Rattle.event_formatter.specs.declared.fmt_layer.layer.Config.{Config};

use crate::fmt_layer::layer::Layer;
use crate::formats::FormatEvent;
use event_formatter_text::{FormatFields, MakeWriter};
use span_registry_layers_layers::{Context, Told};
use span_registry_layers_store::{FilterMap, Registry};
use tracing_core_fields::{Event, Interest, LevelFilter, Metadata, WeakDispatch};

/// It passes all that it is asked of. What it writes of what it is told stands in `told`.
impl<N: FormatFields + Drop, E: FormatEvent, W: MakeWriter> span_registry_layers_layers::Layer
    for Layer<N, E, W> {
    ghost told = { LayerTold ⟦<N as FormatFields>⟧ E.line_of W.writes };

    ghost keys = { λ x key. key == x.config.key.0 };

    ghost fair = { λ x _. idle_fair };

    ghost stays = { λ x n y t _. (tt, same_word (λ m k. k ≡ Always) None) };

    ghost numbered = { λ x n y t. no_numbers n };

    ghost once = { λ x k. leaf_once };

    ghost aside = { λ x n y t. t.1 };

    ghost keyed = { λ x n y t key. ap (λ config. key == config.key.0) t.0 };

    fn on_register_dispatch(&mut self, _dispatch: &WeakDispatch) {}

    fn on_layer(&mut self, _registry: &mut Registry) {}

    fn room_left(&self, room: u8) -> Option<u8> {
        Some(room)
    }

    fn ask_span(
        &self,
        _metadata: &Metadata<'_>,
        _context: &mut Context<'_>,
        passes: bool,
        verdicts: FilterMap,
    ) -> (FilterMap, bool) {
        (verdicts, passes)
    }

    fn register_callsite(&self, _metadata: &Metadata<'_>) -> Interest {
        Interest::always()
    }

    fn enabled(&self, _metadata: &Metadata<'_>, _context: &Context<'_>) -> bool {
        true
    }

    #[inline(always)]
    #[tactic(auto, using(crate::proofs::fmt_layer::Hooks::new_told, crate::proofs::fmt_layer::Hooks::record_told, crate::proofs::fmt_layer::Hooks::enter_told, crate::proofs::fmt_layer::Hooks::exit_told, crate::proofs::fmt_layer::Hooks::close_told, crate::proofs::fmt_layer::Hooks::event_told, crate::proofs::fmt_layer::Hooks::follows_told, crate::proofs::fmt_layer::Hooks::renamed_told))]
    fn hear(&mut self, call: &Told<'_, '_, '_, '_>, context: &mut Context<'_>) {
        match call {
            Told::NewSpan(span, attributes) => self.hear_new(context, span, attributes),
            Told::Record(span, values) => self.hear_record(context, span, values),
            Told::Event(event) => self.tell_event(context, event),
            Told::Enter(span) => self.hear_enter(context, span),
            Told::Exit(span) => self.hear_exit(context, span),
            Told::Close(span) => self.hear_close(context, span),
            Told::FollowsFrom(_, _) | Told::IdChange(_, _) => {}
        }
    }

    fn max_level_hint(&self) -> Option<LevelFilter> {
        None
    }

    fn event_enabled(&self, _event: &Event<'_, '_>, _context: &Context<'_>) -> bool {
        true
    }
}
