//! A filter that is chosen while the program runs, as an enum of the program's own. One of its cases may keep a
//! closure, which no `Box<dyn Filter>` can hold.

ghost use Rattle.std.specs.Prelude.{◌≡◌, IfOk};
ghost use Rattle.span_registry_layers.specs.CacheValidity.{CacheIsValid};
ghost use Rattle.span_registry_layers.specs.Functions.{IsDetermined};

use crate::filter::stack_under;
use span_registry_layers::{
    Context, Filter, FilterFn, Filtered, Identity, MetadataTest, SpanCall, Stack, StackError,
};
use std::alloc::Global;
use tracing_core::{Event, Interest, LevelFilter, Metadata};

/// One of two filters.
#[derive(Clone, Copy, Debug, Drop)]
pub enum Choice<A, B> {
    /// The first one.
    First(A),
    /// The second one.
    Second(B),
}

/// It answers what the chosen one does.
impl<A: Filter, B: Filter> Filter for Choice<A, B> {
    ghost use Rattle.uses.specs.Choices as choices;

    ghost answers = { choices.Answers ⟦<A as Filter>⟧ ⟦<B as Filter>⟧ };

    ghost event_answers = { choices.EventAnswers ⟦<A as Filter>⟧ ⟦<B as Filter>⟧ };

    ghost says = { choices.Says ⟦<A as Filter>⟧ ⟦<B as Filter>⟧ };

    ghost hint = { choices.hint_of ⟦<A as Filter>⟧ ⟦<B as Filter>⟧ };

    ghost after = { choices.after_of ⟦<A as Filter>⟧ ⟦<B as Filter>⟧ };

    ghost honest = { choices.IsHonest ⟦<A as Filter>⟧ ⟦<B as Filter>⟧ };

    ghost fair = { choices.choice_fair ⟦<A as Filter>⟧ ⟦<B as Filter>⟧ };

    ghost stays = { choices.choice_stays ⟦<A as Filter>⟧ ⟦<B as Filter>⟧ };

    ghost single = { choices.choice_single ⟦<A as Filter>⟧ ⟦<B as Filter>⟧ };

    ghost firm = { choices.choice_firm ⟦<A as Filter>⟧ ⟦<B as Filter>⟧ };

    fn enabled(&self, metadata: &Metadata<'_>, context: &Context<'_>) -> bool {
        match self {
            Choice::First(filter) => filter.enabled(metadata, context),
            Choice::Second(filter) => filter.enabled(metadata, context),
        }
    }

    fn callsite_enabled(&self, metadata: &Metadata<'_>) -> Interest {
        match self {
            Choice::First(filter) => filter.callsite_enabled(metadata),
            Choice::Second(filter) => filter.callsite_enabled(metadata),
        }
    }

    fn event_enabled(&self, event: &Event<'_, '_>, context: &Context<'_>) -> bool {
        match self {
            Choice::First(filter) => filter.event_enabled(event, context),
            Choice::Second(filter) => filter.event_enabled(event, context),
        }
    }

    fn max_level_hint(&self) -> Option<LevelFilter> {
        match self {
            Choice::First(filter) => filter.max_level_hint(),
            Choice::Second(filter) => filter.max_level_hint(),
        }
    }

    fn hear(&mut self, call: &SpanCall<'_, '_, '_, '_>, context: &Context<'_>) {
        match self {
            Choice::First(filter) => filter.hear(call, context),
            Choice::Second(filter) => filter.hear(call, context),
        }
    }
}

/// A level, as a choice.
pub fn by_level(level: LevelFilter) -> Choice<LevelFilter, FilterFn>
    ensures { ⟦<Choice<LevelFilter, FilterFn> as Filter>⟧.honest result }
{
    Choice::First(level)
}

/// A closure whose answer is determined by the metadata, as a choice.
pub fn by_closure(test: MetadataTest) -> Choice<LevelFilter, FilterFn>
    requires callable { MetadataTest.IsAlwaysCallable test }
    requires determined { IsDetermined (MetadataTest.post test) }
    ensures { ⟦<Choice<LevelFilter, FilterFn> as Filter>⟧.honest result }
{
    Choice::Second(FilterFn::new(test))
}

/// A stack under what was chosen.
///
/// # Errors
///
/// Out of memory.
pub fn under_choice(
    alloc: Global,
    choice: Choice<LevelFilter, FilterFn>,
) -> Result<Stack<Filtered<Identity, Choice<LevelFilter, FilterFn>>>, StackError>
    requires { ⟦<Choice<LevelFilter, FilterFn> as Filter>⟧.honest choice }
    ensures { IfOk result (λ stack. CacheIsValid ⟦<Choice<LevelFilter, FilterFn> as Filter>⟧ stack) }
{
    stack_under(alloc, choice)
}
