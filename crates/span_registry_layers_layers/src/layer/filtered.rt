//! A layer below a filter, as a layer.
ghost use Rattle.std.specs.Prelude.{◌≡◌, ◌&&◌, None, true};
ghost use Rattle.tracing_core_fields.specs.declared.requests.interest.InterestInner.TheVariants.{Always};
ghost use Rattle.tracing_core_fields.specs.requests.PlainRequests.{plain_event};
ghost use Rattle.span_registry_layers_store.specs.Registries.{RegistryValue};
ghost use Rattle.span_registry_layers_layers.specs.Filtereds.{Hears, HearsAt, MayHear, MayPass, heard, is_seen};
ghost use Rattle.span_registry_layers_layers.specs.Identities.{idle_fair};
ghost use Rattle.span_registry_layers_layers.specs.FilterViews.{SameLoan, left, view};
ghost use Rattle.span_registry_layers_layers.specs.LayerNotices.{notice};

use crate::context::Context;
use crate::filter::Filter;
use crate::filtered::Filtered;
use crate::layer::{Layer, Told};
use span_registry_layers_store::{FilterMap, Registry};
use tracing_core_fields::{Event, Id, Interest, LevelFilter, Metadata, Record, WeakDispatch};

/// The layer is told of the events that its filter, asked again, passes, and of calls on the spans that the filter and
/// all filters above it passed when they were made. It vetoes nothing, whatever the layer says.
impl<L: Layer, F: Filter> Layer for Filtered<L, F> {
    ghost use Rattle.span_registry_layers_layers.specs.Filtereds as filtereds;
    ghost use Rattle.span_registry_layers_layers.specs.FilteredWords as words;

    ghost answers = { λ x m v b. b ≡ true };

    ghost event_answers = { λ x e v b. b ≡ true };

    ghost says = { λ x m k. k ≡ Always };

    ghost hint = { λ x. None };

    ghost told = { filtereds.FilteredTold ⟦<F as Filter>⟧ ⟦<L as Layer>⟧ };

    ghost honest = { filtereds.BothKeep ⟦<F as Filter>⟧ ⟦<L as Layer>⟧ };

    ghost filters = { filtereds.filters_in ⟦<F as Filter>⟧ ⟦<L as Layer>⟧ };

    ghost numbers = { filtereds.numbers_in ⟦<F as Filter>⟧ ⟦<L as Layer>⟧ };

    ghost kept = { filtereds.FilteredKept ⟦<F as Filter>⟧ ⟦<L as Layer>⟧ };

    ghost keys = { λ x. L.keys x.layer };

    ghost fair = { λ x _. idle_fair };

    ghost stays = { words.filtered_stays ⟦<F as Filter>⟧ ⟦<L as Layer>⟧ };

    ghost numbered = { words.filtered_numbered ⟦<F as Filter>⟧ ⟦<L as Layer>⟧ };

    ghost once = { words.filtered_once ⟦<F as Filter>⟧ ⟦<L as Layer>⟧ };

    ghost aside = { words.filtered_aside ⟦<F as Filter>⟧ ⟦<L as Layer>⟧ };

    ghost keyed = { words.filtered_keyed ⟦<F as Filter>⟧ ⟦<L as Layer>⟧ };

    fn on_register_dispatch(&mut self, dispatch: &WeakDispatch) {
        self.layer.on_register_dispatch(dispatch);
    }

    fn on_layer(&mut self, registry: &mut Registry) {
        self.id = registry.register_filter().ok();
        self.layer.on_layer(registry);
    }

    fn room_left(&self, room: u8) -> Option<u8> {
        match room.checked_sub(1) {
            None => None,
            Some(left) => self.layer.room_left(left),
        }
    }

    fn ask_span(
        &self,
        metadata: &Metadata<'_>,
        context: &mut Context<'_>,
        passes: bool,
        verdicts: FilterMap,
    ) -> (FilterMap, bool) {
        match self.id {
            None => (verdicts, false),
            Some(filter) => {
                let outer = context.filter;
                context.filter = Some(filter);
                let own = passes && self.filter.enabled(metadata, context);
                let said = self
                    .layer
                    .ask_span(metadata, context, own, verdicts.with(filter, own));
                context.filter = outer;
                said
            }
        }
    }

    fn register_callsite(&self, _metadata: &Metadata<'_>) -> Interest {
        Interest::always()
    }

    fn enabled(&self, _metadata: &Metadata<'_>, _context: &Context<'_>) -> bool {
        true
    }

    fn hear(&mut self, call: &Told<'_, '_, '_, '_>, context: &mut Context<'_>) {
        self.hear_at(call, context);
    }

    fn max_level_hint(&self) -> Option<LevelFilter> {
        None
    }

    fn event_enabled(&self, _event: &Event<'_, '_>, _context: &Context<'_>) -> bool {
        true
    }
}

// Whether both spans are seen.
fn sees_both(span: &Id, follows: &Id, context: &Context<'_>) -> bool
    ensures { result ≡ (is_seen (view context.now) span.now && is_seen (view context.now) follows.now) }
{
    context.exists(span) && context.exists(follows)
}

impl<L: Layer, F: Filter> Filtered<L, F> {
    // Whether the filter passes the event and its callsite.
    fn passes(&self, event: &Event<'_, '_>, context: &Context<'_>) -> bool
        ensures { MayPass ⟦<F as Filter>⟧ self.now.filter (plain_event event.now) (view context.now) result }
    {
        self.filter.enabled(event.metadata(), context) && self.filter.event_enabled(event, context)
    }

    // Tells of a span or an event that the filter sees and passes, where the filter has a number.
    fn hear_at(&mut self, told: &Told<'_, '_, '_, '_>, context: &mut Context<'_>)
        ensures lent { SameLoan context.old context.new }
        ensures notified { HearsAt ⟦<F as Filter>⟧ ⟦<L as Layer>⟧ self.old.id self.old (notice told.now)
            (view context.old) (left context.new) self.new }
    {
        if let Some(filter) = self.id {
            let outer = context.filter;
            context.filter = Some(filter);
            self.hear_under(told, context);
            context.filter = outer;
        }
    }

    // The same over a context under the filter.
    fn hear_under(&mut self, told: &Told<'_, '_, '_, '_>, context: &mut Context<'_>)
        ensures lent { SameLoan context.old context.new }
        ensures notified { Hears ⟦<F as Filter>⟧ ⟦<L as Layer>⟧ self.old (notice told.now) (view context.old)
            (left context.new) self.new }
    {
        if self.hears(told, context) {
            tell_filter(&mut self.filter, told, context);
            self.layer.hear(told, context);
        }
    }

    // Whether the filter passes an event, or sees the spans.
    fn hears(&self, told: &Told<'_, '_, '_, '_>, context: &Context<'_>) -> bool
        ensures { (later : RegistryValue) → MayHear ⟦<F as Filter>⟧ self.now.filter
            (notice told.now (view context.now) later) result }
    {
        match told {
            Told::Event(event) => self.passes(event, context),
            Told::FollowsFrom(span, follows) => sees_both(span, follows, context),
            Told::NewSpan(span, _)
            | Told::Record(span, _)
            | Told::Enter(span)
            | Told::Exit(span)
            | Told::Close(span)
            | Told::IdChange(span, _) => context.exists(span),
        }
    }
}

// Tells a filter of a call on a span.
fn tell_filter<F: Filter>(filter: &mut F, told: &Told<'_, '_, '_, '_>, context: &Context<'_>)
    ensures { (later : RegistryValue) → filter.new ≡ heard ⟦<F as Filter>⟧ filter.old
        (notice told.now (view context.now) later) }
{
    match told {
        Told::NewSpan(span, attributes) => filter.on_new_span(attributes, span, context),
        Told::Record(span, values) => filter.on_record(span, values, context),
        Told::Enter(span) => filter.on_enter(span, context),
        Told::Exit(span) => filter.on_exit(span, context),
        Told::Close(span) => filter.on_close(span, context),
        Told::FollowsFrom(..) | Told::Event(_) | Told::IdChange(..) => {}
    }
}
