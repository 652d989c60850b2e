//! Filters in a stack: levels, two combined, a closure, and one of the program's own.

ghost use Rattle.std.specs.Prelude.{◌≡◌, IfOk, Some, nat_le, true};
ghost use Rattle.tracing_core.specs.PlainRequests.{plain_event};
ghost use Rattle.span_registry_layers.specs.Combined.{level_fair, level_interest, same_word};
ghost use Rattle.span_registry_layers.specs.Firms.{level_firm};
ghost use Rattle.span_registry_layers.specs.Functions.{IsDetermined, RefusesAbove};
ghost use Rattle.span_registry_layers.specs.Singles.{function_single};
ghost use Rattle.span_registry_layers.specs.Stacks.{EventAsked};
ghost use Rattle.span_registry_layers.specs.CacheValidity.{CacheIsValid};

use span_registry_layers::{
    Context, Filter, FilterFn, Filtered, Identity, Layer, MetadataTest, Output, OutputKey,
    SpanCall, Stack, StackError,
};
use std::alloc::Global;
use tracing_core::{At, Event, Interest, LevelFilter, Metadata, RequestError};

/// A filter of the program's own: warnings and errors, or all where the program is being debugged.
#[derive(Clone, Copy, Debug, Drop)]
pub struct Verbosity {
    /// The most verbose level that passes.
    pub most: LevelFilter,
}

/// Its ghost members say what it answers, and that these answers fit each other.
impl Filter for Verbosity {
    ghost answers = { λ f m v b. b ≡ nat_le m.level f.most };

    ghost says = { λ f m k. k ≡ level_interest f.most m.level };

    ghost hint = { λ f. Some f.most };

    ghost fair = { λ f _. level_fair f.most };

    ghost stays = { λ f h _. (tt, same_word (λ m k. k ≡ level_interest f.most m.level) (Some f.most)) };

    ghost single = { λ f _. function_single (λ m v. nat_le m.level f.most) };

    ghost firm = { λ f _. level_firm f.most };

    fn enabled(&self, metadata: &Metadata<'_>, _context: &Context<'_>) -> bool {
        self.most.passes(*metadata.level())
    }

    fn callsite_enabled(&self, metadata: &Metadata<'_>) -> Interest {
        if self.most.passes(*metadata.level()) {
            Interest::always()
        } else {
            Interest::never()
        }
    }

    fn event_enabled(&self, _event: &Event<'_, '_>, _context: &Context<'_>) -> bool {
        true
    }

    fn max_level_hint(&self) -> Option<LevelFilter> {
        Some(self.most)
    }

    fn hear(&mut self, _call: &SpanCall<'_, '_, '_, '_>, _context: &Context<'_>) {}
}

/// A stack of one output under a filter that is consistent. What the stack then keeps of the filter's answers is right.
///
/// # Errors
///
/// Out of memory.
pub fn stack_under<F: Filter>(
    alloc: Global,
    filter: F,
) -> Result<Stack<Filtered<Identity, F>>, StackError>
    requires { F.honest filter }
    ensures { IfOk result (λ stack. CacheIsValid ⟦<F as Filter>⟧ stack) }
{
    let mut outputs = Vec::new(alloc);
    let output = Output {
        key: OutputKey(1),
        output: Filtered::new(Identity::new(), filter),
    };
    if outputs.push(output).is_err() {
        return Err(StackError::OutOfMemory);
    }
    match Stack::new(alloc, outputs) {
        Ok(stack) => Ok(stack),
        Err(refused) => Err(refused.error),
    }
}

/// Hands an event to such a stack: the output is told of it exactly where its filter, asked again, passes it.
///
/// # Errors
///
/// The event names a parent that is not open.
pub fn hand<F: Filter>(
    stack: &mut Stack<Filtered<Identity, F>>,
    event: &Event<'_, '_>,
    at: At,
) -> Result<(), RequestError>
    requires { CacheIsValid ⟦<F as Filter>⟧ stack.old }
    ensures asked { EventAsked ⟦<F as Filter>⟧ ⟦<Identity as Layer>⟧ (plain_event event.now) at stack.old result
        stack.new }
    ensures kept { CacheIsValid ⟦<F as Filter>⟧ stack.new }
{
    stack.event(event, at)
}

/// A stack under a level.
///
/// # Errors
///
/// Out of memory.
pub fn under_level(
    alloc: Global,
    level: LevelFilter,
) -> Result<Stack<Filtered<Identity, LevelFilter>>, StackError>
    ensures { IfOk result (λ stack. CacheIsValid ⟦<LevelFilter as Filter>⟧ stack) }
{
    stack_under(alloc, level)
}

/// A stack under the program's own filter.
///
/// # Errors
///
/// Out of memory.
pub fn under_verbosity(
    alloc: Global,
    most: LevelFilter,
) -> Result<Stack<Filtered<Identity, Verbosity>>, StackError>
    ensures { IfOk result (λ stack. CacheIsValid ⟦<Verbosity as Filter>⟧ stack) }
{
    stack_under(alloc, Verbosity { most })
}

/// A stack under a closure whose answer is determined by the metadata, and which refuses what is more verbose
/// than the hint.
///
/// # Errors
///
/// Out of memory.
pub fn under_closure(
    alloc: Global,
    test: MetadataTest,
    hint: LevelFilter,
) -> Result<Stack<Filtered<Identity, FilterFn>>, StackError>
    requires callable { MetadataTest.IsAlwaysCallable test }
    requires determined { IsDetermined (MetadataTest.post test) }
    requires above { RefusesAbove hint (MetadataTest.post test) }
    ensures { IfOk result (λ stack. CacheIsValid ⟦<FilterFn as Filter>⟧ stack) }
{
    stack_under(alloc, FilterFn::new(test).with_max_level_hint(hint))
}
