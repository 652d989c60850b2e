//! The state of a stack.
ghost use Rattle.std.specs.Prelude.{◌≡◌, IsTrue, Some, true};
ghost use Rattle.std.specs.Option.{option_copied};
ghost use Rattle.tracing_core_fields.specs.Metadata.{plain_metadata};
ghost use Rattle.tracing_core_fields.specs.requests.PlainRequests.{plain_event};
ghost use Rattle.span_registry_layers_store.specs.Registries.{knows};
ghost use Rattle.span_registry_layers.specs.CommonAnswers.{CommonInterest, common_hint};
ghost use Rattle.span_registry_layers.specs.OutputSlots.{filters_of};
ghost use Rattle.span_registry_layers.specs.Stacks.{EventCached, EventUnless, MarksUnless, QuestionCached, QuestionUnless, Registers, TellsAll};
ghost use Rattle.span_registry_layers.specs.Stacks.{cleared, is_above, is_refused, plain_stack, with_hint};

mod new;
mod spans;
mod swapping;
mod telling;

use crate::interest_cache::InterestCache;
use crate::output_slot::OutputSlot;
use crate::output_slots::{are_clear, ask_hint, ask_interest, clear_marks, some_passes};
use span_registry_layers_layers::{Filter, Filtered, Layer};
use span_registry_layers_store::Registry;
use std::alloc::Global;
use tracing_core_fields::{Event, Id, Interest, Level, LevelFilter, Metadata, RequestError};
use tracing_core_moments::At;

/// The outputs in order, the registry of their spans, and what is kept of their filters' answers.
#[derive(Drop)]
pub(crate) struct StackParts<O> {
    pub(crate) alloc: Global,
    pub(crate) registry: Registry,
    pub(crate) rows: Vec<OutputSlot<O>>,
    pub(crate) interest_cache: InterestCache,
    pub(crate) hint: Option<LevelFilter>,
}

fn is_above(hint: Option<LevelFilter>, level: Level) -> bool
    ensures { result ≡ is_above hint level }
{
    match hint {
        None => false,
        Some(top) => !top.passes(level),
    }
}

impl<O> StackParts<O> {
    // Whether a span that is named is open.
    pub(crate) fn knows(&self, span: Option<&Id>) -> bool
        ensures { result ≡ knows self.now.registry (option_copied span.entry) }
    {
        match span {
            None => true,
            Some(span) => self.registry.is_open(span),
        }
    }

    // Whether what is kept refuses the callsite.
    pub(crate) fn refuses(&self, metadata: &Metadata<'_>) -> bool
        ensures { result ≡ is_refused (plain_stack self.now) (plain_metadata metadata.now) }
    {
        is_above(self.hint, *metadata.level()) || self.interest_cache.refuse(metadata)
    }

    // Whether every callsite of this level is refused, and no mark is left that such a request would clear.
    pub(crate) fn ignores(&self, level: Level) -> bool
        ensures { IsTrue result → (is_above (plain_stack self.now).hint level ≡ true)
            × (cleared (plain_stack self.now) ≡ plain_stack self.now) }
    {
        is_above(self.hint, level) && are_clear(&self.rows)
    }

    // No filter passed the last request.
    fn clear(&mut self)
        ensures { plain_stack self.new ≡ cleared (plain_stack self.old) }
    {
        clear_marks(&mut self.rows);
    }
}

impl<L: Layer, F: Filter> StackParts<Filtered<L, F>> {
    // Asks all filters of a callsite, and keeps what they have in common where there is room.
    pub(crate) fn register(&mut self, metadata: &Metadata<'_>) -> Interest
        ensures answer { CommonInterest ⟦<F as Filter>⟧ (plain_metadata metadata.now) (filters_of self.old.rows.items)
            result }
        ensures state { Registers (plain_metadata metadata.now) result (plain_stack self.old) (plain_stack self.new) }
    {
        let interest = ask_interest(&self.rows, metadata);
        let _kept = self.interest_cache.keep(self.alloc, metadata, interest);
        interest
    }

    // Asks all filters for their hint, and keeps it.
    pub(crate) fn ask_hint(&mut self) -> Option<LevelFilter>
        ensures answer { result ≡ common_hint ⟦<F as Filter>⟧ (Some 0) (filters_of self.old.rows.items) }
        ensures state { plain_stack self.new ≡ with_hint result (plain_stack self.old) }
    {
        self.hint = ask_hint(&self.rows);
        self.hint
    }

    // Marks what each filter answers of a callsite, and asks nobody where it is refused.
    fn mark_unless(&mut self, refused: bool, metadata: &Metadata<'_>, at: At)
        ensures { MarksUnless ⟦<F as Filter>⟧ refused (plain_metadata metadata.now) at (plain_stack self.old)
            (plain_stack self.new) }
    {
        if refused {
            self.clear();
        } else {
            self.ask_callsite(metadata, at);
        }
    }

    // Whether some filter passes it; each is asked, and marked, and none where it is refused.
    pub(crate) fn enabled_unless(&mut self, refused: bool, metadata: &Metadata<'_>, at: At) -> bool
        ensures { QuestionUnless ⟦<F as Filter>⟧ refused (plain_metadata metadata.now) at (plain_stack self.old) result
            (plain_stack self.new) }
    {
        self.mark_unless(refused, metadata, at);
        some_passes(&self.rows)
    }

    // Whether some filter passes it; each is asked, and marked, and none where what is kept refuses it.
    pub(crate) fn enabled(&mut self, metadata: &Metadata<'_>, at: At) -> bool
        ensures { QuestionCached ⟦<F as Filter>⟧ (plain_metadata metadata.now) at (plain_stack self.old) result
            (plain_stack self.new) }
    {
        let refused = self.refuses(metadata);
        self.enabled_unless(refused, metadata, at)
    }

    #[inline(always)]
    fn tell(&mut self, event: &Event<'_, '_>, at: At)
        ensures { TellsAll ⟦<F as Filter>⟧ ⟦<L as Layer>⟧ (plain_event event.now) at (plain_stack self.old)
            (plain_stack self.new) }
    {
        self.ask_event(event, at);
        self.tell_event(event, at);
    }

    // Tells each output that passes the event, and asks nobody where it is refused.
    #[inline(always)]
    pub(crate) fn event_unless(
        &mut self,
        refused: bool,
        event: &Event<'_, '_>,
        at: At,
    ) -> Result<(), RequestError>
        ensures { EventUnless ⟦<F as Filter>⟧ ⟦<L as Layer>⟧ refused (plain_event event.now) at (plain_stack self.old)
            result (plain_stack self.new) }
    {
        if !self.knows(event.parent()) {
            return Err(RequestError::UnknownParent);
        }
        if refused {
            self.clear();
        } else {
            self.tell(event, at);
        }
        Ok(())
    }

    // Tells each output that passes the event, and asks nobody where what is kept refuses it.
    #[inline(always)]
    pub(crate) fn event(&mut self, event: &Event<'_, '_>, at: At) -> Result<(), RequestError>
        ensures { EventCached ⟦<F as Filter>⟧ ⟦<L as Layer>⟧ (plain_event event.now) at (plain_stack self.old) result
            (plain_stack self.new) }
    {
        let refused = self.refuses(event.metadata());
        self.event_unless(refused, event, at)
    }
}
