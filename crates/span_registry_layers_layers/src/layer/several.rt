//! Several layers as one.
ghost use Rattle.std.specs.Prelude.{◌≡◌, ◌≤◌, ◌+◌, Bool, List, length, Some};
ghost use Rattle.tracing_core_fields.specs.Metadata.{plain_metadata};
ghost use Rattle.tracing_core_fields.specs.requests.PlainRequests.{plain_event};
ghost use Rattle.tracing_core_fields.specs.declared.requests.interest.InterestInner.TheVariants.{Never};
ghost use Rattle.span_registry_layers_layers.specs.FilterViews.{SameLoan, left, view};
ghost use Rattle.span_registry_layers_layers.specs.Notices.{AddsFilters, Attached, Dispatched};
ghost use Rattle.span_registry_layers_layers.specs.Several.{AllAnswer, AllAnswerEvents, EachTold, KeptByEach, SaysFrom, TellsInTurn};
ghost use Rattle.span_registry_layers_layers.specs.Several.{NotifiedEach, filters_of, hint_from, numbers_of};
ghost use Rattle.span_registry_layers_layers.specs.LayerNotices.{notice};
ghost use Rattle.span_registry_layers_layers.specs.FilterNumbers.{AreNumbers, SameBut, SameOf, more_filters, numbers_from, room_after};

use crate::context::Context;
use crate::filter::{either_hint, either_interest};
use crate::layer::{Layer, Told};
use span_registry_layers_store::{FilterMap, Registry};
use tracing_core_fields::{Event, Interest, LevelFilter, Metadata, WeakDispatch};

/// Each layer is told in turn, and where one refuses, nobody is. They are consistent where there is one, and
/// each of them keeps its own and always wants all.
impl<L: Layer> Layer for Vec<L> {
    ghost use Rattle.tracing_core_fields.specs.declared.requests.interest.InterestInner.TheVariants.{Never};
    ghost use Rattle.std.specs.Prelude.{Some};
    ghost use Rattle.span_registry_layers_layers.specs.Several as several;

    ghost answers = { λ v. several.AllAnswer ⟦<L as Layer>⟧ v.items };

    ghost event_answers = { λ v. several.AllAnswerEvents ⟦<L as Layer>⟧ v.items };

    ghost says = { λ v. several.SaysFrom ⟦<L as Layer>⟧ Never v.items };

    ghost hint = { λ v. several.hint_from ⟦<L as Layer>⟧ (Some 0) v.items };

    ghost told = { λ v n w. several.NotifiedEach ⟦<L as Layer>⟧ v.items n w.items };

    ghost honest = { λ v. several.IsHonest ⟦<L as Layer>⟧ v.items };

    ghost filters = { λ v. several.filters_of ⟦<L as Layer>⟧ v.items };

    ghost numbers = { λ v. several.numbers_of ⟦<L as Layer>⟧ v.items };

    ghost kept = { λ v. several.KeptByEach ⟦<L as Layer>⟧ v.items };

    ghost keys = { λ v. several.keys_of ⟦<L as Layer>⟧ v.items };

    ghost fair = { λ v k. several.several_fair ⟦<L as Layer>⟧ v.items k };

    ghost stays = { λ v n w t k. several.several_stay ⟦<L as Layer>⟧ v.items n w.items t k };

    ghost numbered = { λ v n w t. several.each_numbered ⟦<L as Layer>⟧ n v.items w.items t };

    ghost once = { λ v k. several.several_once ⟦<L as Layer>⟧ v.items k };

    ghost aside = { λ v n w t. several.each_aside ⟦<L as Layer>⟧ n v.items w.items t };

    ghost keyed = { λ v n w t key. several.each_keyed ⟦<L as Layer>⟧ n v.items w.items t key };

    fn on_register_dispatch(&mut self, dispatch: &WeakDispatch) {
        tell_dispatch(self.as_mut_slice(), dispatch);
    }

    fn on_layer(&mut self, registry: &mut Registry) {
        attach(self.as_mut_slice(), registry);
    }

    fn room_left(&self, room: u8) -> Option<u8> {
        joined_room(self.as_slice(), room)
    }

    fn ask_span(
        &self,
        metadata: &Metadata<'_>,
        context: &mut Context<'_>,
        passes: bool,
        verdicts: FilterMap,
    ) -> (FilterMap, bool) {
        ask_each(self.as_slice(), metadata, context, passes, verdicts)
    }

    fn register_callsite(&self, metadata: &Metadata<'_>) -> Interest {
        joined_interest(self.as_slice(), metadata)
    }

    fn enabled(&self, metadata: &Metadata<'_>, context: &Context<'_>) -> bool {
        all_enabled(self.as_slice(), metadata, context)
    }

    fn hear(&mut self, call: &Told<'_, '_, '_, '_>, context: &mut Context<'_>) {
        tell_each(self.as_mut_slice(), call, context);
    }

    fn max_level_hint(&self) -> Option<LevelFilter> {
        joined_hint(self.as_slice())
    }

    fn event_enabled(&self, event: &Event<'_, '_>, context: &Context<'_>) -> bool {
        all_event_enabled(self.as_slice(), event, context)
    }
}

// Asks each in turn, until one refuses.
fn all_enabled<L: Layer>(layers: &[L], metadata: &Metadata<'_>, context: &Context<'_>) -> bool
    ensures { AllAnswer ⟦<L as Layer>⟧ layers.now (plain_metadata metadata.now) (view context.now) result }
{
    let mut rest = layers;
    while let [layer, later @ ..] = rest {
        if !layer.enabled(metadata, context) {
            return false;
        }
        rest = later;
    }
    true
}

// Asks each of an event in turn, until one refuses.
fn all_event_enabled<L: Layer>(layers: &[L], event: &Event<'_, '_>, context: &Context<'_>) -> bool
    ensures { AllAnswerEvents ⟦<L as Layer>⟧ layers.now (plain_event event.now) (view context.now) result }
{
    let mut rest = layers;
    while let [layer, later @ ..] = rest {
        if !layer.event_enabled(event, context) {
            return false;
        }
        rest = later;
    }
    true
}

// How much is left of a room for filters once each has taken its own.
fn joined_room<L: Layer>(layers: &[L], room: u8) -> Option<u8>
    ensures { result ≡ room_after room (filters_of ⟦<L as Layer>⟧ layers.now) }
{
    match layers {
        [] => Some(room),
        [layer, later @ ..] => match layer.room_left(room) {
            None => None,
            Some(left) => joined_room(later, left),
        },
    }
}

// Asks the filters of each in turn of a new span.
fn ask_each<L: Layer>(
    layers: &[L],
    metadata: &Metadata<'_>,
    context: &mut Context<'_>,
    passes: bool,
    verdicts: FilterMap,
) -> (FilterMap, bool)
    ensures lent { SameLoan context.old context.new }
    ensures same { left context.new ≡ left context.old }
    ensures room { length result.0.passed ≡ length verdicts.passed }
    ensures others { SameBut (numbers_of ⟦<L as Layer>⟧ layers.now) verdicts.passed result.0.passed }
    ensures kept { (later : List Bool) → AreNumbers (length verdicts.passed) (numbers_of ⟦<L as Layer>⟧ layers.now) →
        SameOf (numbers_of ⟦<L as Layer>⟧ layers.now) result.0.passed later →
        KeptByEach ⟦<L as Layer>⟧ layers.now (plain_metadata metadata.now) (view context.old) passes later result.1 }
{
    match layers {
        [] => (verdicts, false),
        [layer, later @ ..] => {
            let (verdicts, first) = layer.ask_span(metadata, context, passes, verdicts);
            let (verdicts, some) = ask_each(later, metadata, context, passes, verdicts);
            (verdicts, first | some)
        }
    }
}

// The highest interest, and never where there is no layer.
fn joined_interest<L: Layer>(layers: &[L], metadata: &Metadata<'_>) -> Interest
    ensures { SaysFrom ⟦<L as Layer>⟧ Never layers.now (plain_metadata metadata.now) result }
{
    let mut interest = Interest::never();
    let mut rest = layers;
    while let [layer, later @ ..] = rest {
        interest = either_interest(interest, layer.register_callsite(metadata));
        rest = later;
    }
    interest
}

// The highest hint, where all have one.
fn joined_hint<L: Layer>(layers: &[L]) -> Option<LevelFilter>
    ensures { result ≡ hint_from ⟦<L as Layer>⟧ (Some 0) layers.now }
{
    let mut hint = Some(LevelFilter::OFF);
    let mut rest = layers;
    while let [layer, later @ ..] = rest {
        hint = either_hint(hint, layer.max_level_hint());
        rest = later;
    }
    hint
}

fn tell_dispatch<L: Layer>(layers: &mut [L], dispatch: &WeakDispatch)
    ensures { EachTold ⟦<L as Layer>⟧ (Dispatched dispatch.now) layers.old layers.new }
{
    for layer in layers.iter_mut() {
        layer.on_register_dispatch(dispatch);
    }
}

fn attach<L: Layer>(layers: &mut [L], registry: &mut Registry)
    ensures each { NotifiedEach ⟦<L as Layer>⟧ layers.old (Attached registry.old) layers.new }
    ensures filters { AddsFilters registry.old registry.new }
    ensures numbers { registry.old.filters + filters_of ⟦<L as Layer>⟧ layers.old ≤ 64 →
        (registry.new ≡ more_filters (filters_of ⟦<L as Layer>⟧ layers.old) registry.old) ×
        (numbers_of ⟦<L as Layer>⟧ layers.new ≡ numbers_from registry.old.filters
        (filters_of ⟦<L as Layer>⟧ layers.old)) }
{
    for layer in layers.iter_mut() {
        layer.on_layer(registry);
    }
}

fn tell_each<L: Layer>(layers: &mut [L], told: &Told<'_, '_, '_, '_>, context: &mut Context<'_>)
    ensures lent { SameLoan context.old context.new }
    ensures notified { TellsInTurn ⟦<L as Layer>⟧ (notice told.now) (view context.old) layers.old (left context.new)
        layers.new }
{
    for layer in layers.iter_mut() {
        layer.hear(told, context);
    }
}
