//! Two layers as one.
ghost use Rattle.std.specs.Prelude.{◌≡◌};
ghost use Rattle.span_registry_layers_layers.specs.Layereds.{picked_hint, picked_interest};

use crate::context::Context;
use crate::layer::{Layer, Told};
use span_registry_layers_store::{FilterMap, Registry};
use tracing_core_fields::{Event, Interest, LevelFilter, Metadata, WeakDispatch};

/// A layer over an inner one, or over a registry.
///
/// Both layers are told, the inner one first, and the outer one sees what the inner one wrote; the outer one is asked
/// first, and where one refuses, nobody is told.
#[derive(Clone, Copy, Debug, Drop)]
pub struct Layered<L, I> {
    pub(crate) layer: L,
    pub(crate) inner: I,
}

impl<L, I> Layered<L, I> {
    /// The layer over the inner one.
    pub(crate) fn new(layer: L, inner: I) -> Layered<L, I>
        ensures { (result.layer ≡ layer) × (result.inner ≡ inner) }
    {
        Layered { layer, inner }
    }

    /// The outer layer.
    pub fn layer(&self) -> &L
        ensures { result.now ≡ self.now.layer }
    {
        &self.layer
    }

    /// The inner layer, or the registry.
    pub fn inner(&self) -> &I
        ensures { result.now ≡ self.now.inner }
    {
        &self.inner
    }
}

impl<L: Layer, I: Layer> Layer for Layered<L, I> {
    ghost use Rattle.std.specs.Prelude.{◌+◌, ◌++◌};
    ghost use Rattle.span_registry_layers_layers.specs.Combined.{Both, SaysOf};
    ghost use Rattle.span_registry_layers_layers.specs.Layereds as layereds;
    ghost use Rattle.span_registry_layers_layers.specs.Singles.{both_once};
    ghost use Rattle.span_registry_layers_layers.specs.Layereds.{KeptByBoth, layered_fair, picked_hint, picked_interest};

    ghost answers = { λ l m v r. Both (L.answers l.layer m v) (I.answers l.inner m v) r };

    ghost event_answers = { λ l e v r. Both (L.event_answers l.layer e v) (I.event_answers l.inner e v) r };

    ghost says = { λ l m k. SaysOf picked_interest (L.says l.layer m) (I.says l.inner m) k };

    ghost hint = { λ l. picked_hint (L.hint l.layer) (I.hint l.inner) };

    ghost told = { layereds.NotifiedBoth ⟦<L as Layer>⟧ ⟦<I as Layer>⟧ };

    ghost honest = { layereds.BothHonest ⟦<L as Layer>⟧ ⟦<I as Layer>⟧ };

    ghost filters = { λ l. L.filters l.layer + I.filters l.inner };

    ghost numbers = { λ l. L.numbers l.layer ++ I.numbers l.inner };

    ghost kept = { λ l. KeptByBoth (L.kept l.layer) (I.kept l.inner) };

    ghost keys = { layereds.keys_of ⟦<L as Layer>⟧ ⟦<I as Layer>⟧ };

    ghost fair = { λ l k. layered_fair (L.fair l.layer k.0) (I.fair l.inner k.1) };

    ghost stays = { layereds.both_stay ⟦<L as Layer>⟧ ⟦<I as Layer>⟧ };

    ghost numbered = { layereds.both_numbered ⟦<L as Layer>⟧ ⟦<I as Layer>⟧ };

    ghost once = { λ l k. both_once (L.kept l.layer) (I.kept l.inner) (L.once l.layer k.0) (I.once l.inner k.1) };

    ghost aside = { layereds.both_aside ⟦<L as Layer>⟧ ⟦<I as Layer>⟧ };

    ghost keyed = { layereds.both_keyed ⟦<L as Layer>⟧ ⟦<I as Layer>⟧ };

    fn on_register_dispatch(&mut self, dispatch: &WeakDispatch) {
        self.layer.on_register_dispatch(dispatch);
        self.inner.on_register_dispatch(dispatch);
    }

    fn on_layer(&mut self, registry: &mut Registry) {
        self.layer.on_layer(registry);
        self.inner.on_layer(registry);
    }

    fn room_left(&self, room: u8) -> Option<u8> {
        match self.layer.room_left(room) {
            None => None,
            Some(left) => self.inner.room_left(left),
        }
    }

    fn ask_span(
        &self,
        metadata: &Metadata<'_>,
        context: &mut Context<'_>,
        passes: bool,
        verdicts: FilterMap,
    ) -> (FilterMap, bool) {
        let (verdicts, outer) = self.layer.ask_span(metadata, context, passes, verdicts);
        let (verdicts, inner) = self.inner.ask_span(metadata, context, passes, verdicts);
        (verdicts, outer | inner)
    }

    fn register_callsite(&self, metadata: &Metadata<'_>) -> Interest {
        picked_interest(
            self.layer.register_callsite(metadata),
            self.inner.register_callsite(metadata),
        )
    }

    fn enabled(&self, metadata: &Metadata<'_>, context: &Context<'_>) -> bool {
        self.layer.enabled(metadata, context) && self.inner.enabled(metadata, context)
    }

    fn hear(&mut self, call: &Told<'_, '_, '_, '_>, context: &mut Context<'_>) {
        self.inner.hear(call, context);
        self.layer.hear(call, context);
    }

    fn max_level_hint(&self) -> Option<LevelFilter> {
        picked_hint(self.layer.max_level_hint(), self.inner.max_level_hint())
    }

    fn event_enabled(&self, event: &Event<'_, '_>, context: &Context<'_>) -> bool {
        self.layer.event_enabled(event, context) && self.inner.event_enabled(event, context)
    }
}

// What the outer layer always passes is as the inner one says.
fn picked_interest(outer: Interest, inner: Interest) -> Interest
    ensures { result ≡ picked_interest outer inner }
{
    if outer.is_always() { inner } else { outer }
}

// Known where one is, the higher of two.
fn picked_hint(outer: Option<LevelFilter>, inner: Option<LevelFilter>) -> Option<LevelFilter>
    ensures { result ≡ picked_hint outer inner }
{
    match (outer, inner) {
        (Some(a), Some(b)) => Some(if a < b { b } else { a }),
        (Some(a), None) => Some(a),
        (None, known) => known,
    }
}
