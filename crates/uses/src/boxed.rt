//! A filter that is chosen while the program runs, in a box. The caller makes the box.

ghost use Rattle.std.specs.Prelude.{◌≡◌, IfOk};
ghost use Rattle.span_registry_layers.specs.Functions.{IsDetermined};
ghost use Rattle.span_registry_layers.specs.CacheValidity.{CacheIsValid};

use crate::filter::stack_under;
use span_registry_layers::{
    And, DynFilterFn, Filter, FilterFn, Filtered, Identity, MetadataTest, Stack, StackError,
};
use std::alloc::Global;
use tracing_core::LevelFilter;

/// A stack under a boxed filter that is consistent.
///
/// # Errors
///
/// Out of memory.
pub fn under_box(
    alloc: Global,
    filter: Box<dyn Filter>,
) -> Result<Stack<Filtered<Identity, Box<dyn Filter>>>, StackError>
    requires { honest filter }
    ensures { IfOk result (λ stack. CacheIsValid ⟦<Box<dyn Filter> as Filter>⟧ stack) }
{
    stack_under(alloc, filter)
}

/// A stack under a closure that may look at the lane's spans too. The caller makes the filter, and shows that
/// it is consistent.
///
/// # Errors
///
/// Out of memory.
pub fn under_context_closure(
    alloc: Global,
    filter: DynFilterFn,
) -> Result<Stack<Filtered<Identity, DynFilterFn>>, StackError>
    requires { ⟦<DynFilterFn as Filter>⟧.honest filter }
    ensures { IfOk result (λ stack. CacheIsValid ⟦<DynFilterFn as Filter>⟧ stack) }
{
    stack_under(alloc, filter)
}

/// A stack whose output is told what both a level and a closure pass.
///
/// # Errors
///
/// Out of memory.
pub fn under_both(
    alloc: Global,
    level: LevelFilter,
    test: MetadataTest,
) -> Result<Stack<Filtered<Identity, And<LevelFilter, FilterFn>>>, StackError>
    requires callable { MetadataTest.IsAlwaysCallable test }
    requires determined { IsDetermined (MetadataTest.post test) }
    ensures { IfOk result (λ stack. CacheIsValid ⟦<And<LevelFilter, FilterFn> as Filter>⟧ stack) }
{
    stack_under(alloc, And::new(level, FilterFn::new(test)))
}
