// Stacks of filters of each kind, whose kept answers are right since their filters are consistent.
ghost use Rattle.std.specs.Prelude.{IfOk};
ghost use Rattle.tracing_core.specs.PlainRequests.{plain_event};
ghost use Rattle.span_registry_layers.specs.Dynamic.{IsDeterminedIn};
ghost use Rattle.span_registry_layers.specs.Functions.{IsDetermined, RefusesAbove};
ghost use Rattle.span_registry_layers.specs.Stacks.{EventAsked};
ghost use Rattle.span_registry_layers.specs.CacheValidity.{CacheIsValid};

use super::super::recording::{Observing, Tally};
use super::*;
use crate::{And, ContextTest, DynFilterFn, FilterFn};

/// A stack of one output. What it keeps is right where the filter is consistent.
fn stack_over<F: Filter>(alloc: Global, filter: F) -> Result<Stack<Filtered<Counter, F>>, Fail>
    requires { F.honest filter }
    ensures { IfOk result (λ s. CacheIsValid ⟦<F as Filter>⟧ s) }
{
    let mut outputs = Vec::new(alloc);
    let output = Output {
        key: OutputKey(1),
        output: Filtered::new(new_counter(), filter),
    };
    if outputs.push(output).is_err() {
        return Err("room".into());
    }
    match Stack::new(alloc, outputs) {
        Ok(stack) => Ok(stack),
        Err(_) => Err("a stack".into()),
    }
}

/// Hands an event over: whatever the stack keeps, each output is told what its filter, asked again, passes.
fn hand<F: Filter>(
    stack: &mut Stack<Filtered<Counter, F>>,
    event: &Event<'_, '_>,
) -> Result<(), RequestError>
    requires { CacheIsValid ⟦<F as Filter>⟧ stack.old }
    ensures asking { EventAsked ⟦<F as Filter>⟧ ⟦<Observing<Tally> as Layer>⟧ (plain_event event.now) PLACE stack.old
        result stack.new }
    ensures kept { CacheIsValid ⟦<F as Filter>⟧ stack.new }
{
    stack.event(event, PLACE)
}

/// How often the output was told, attaching aside, of a WARN and a DEBUG event.
fn heard<F: Filter>(stack: &mut Stack<Filtered<Counter, F>>) -> Result<u64, Fail>
    requires { CacheIsValid ⟦<F as Filter>⟧ stack.old }
{
    for level in [Level::WARN, Level::DEBUG] {
        let metadata = event_metadata("app", level);
        hand(stack, &Event::new(&metadata, no_values(&metadata)))?;
    }
    match stack.output(0) {
        None => Err("an output".into()),
        Some(output) => Ok(output.inner().observer.told.wrapping_sub(1)),
    }
}

/// The same under a closure whose answer is determined by the metadata, and which refuses what is above the hint.
fn heard_by(alloc: Global, test: MetadataTest, hint: LevelFilter) -> Result<u64, Fail>
    requires callable { MetadataTest.IsAlwaysCallable test }
    requires determined { IsDetermined (MetadataTest.post test) }
    requires above { RefusesAbove hint (MetadataTest.post test) }
{
    let filter = FilterFn::new(test).with_max_level_hint(hint);
    let mut stack = stack_over(alloc, filter)?;
    heard(&mut stack)
}

/// The same under a closure whose answer is determined by the metadata and by what the context shows.
fn heard_in(alloc: Global, test: ContextTest) -> Result<u64, Fail>
    requires callable { ContextTest.IsAlwaysCallable test }
    requires determined { IsDeterminedIn (ContextTest.post test) }
{
    let mut stack = stack_over(alloc, DynFilterFn::new(test))?;
    heard(&mut stack)
}

/// The same under a level and a closure.
fn heard_by_both(alloc: Global, level: LevelFilter, test: MetadataTest) -> Result<u64, Fail>
    requires callable { MetadataTest.IsAlwaysCallable test }
    requires determined { IsDetermined (MetadataTest.post test) }
{
    let mut stack = stack_over(alloc, And::new(level, FilterFn::new(test)))?;
    heard(&mut stack)
}

/// The same under a boxed filter that is consistent.
fn heard_by_box(alloc: Global, filter: Box<dyn Filter>) -> Result<u64, Fail>
    requires { honest filter }
{
    let mut stack = stack_over(alloc, filter)?;
    heard(&mut stack)
}

#[test]
fn levels_keep_their_word(rt: HostRuntime) -> Result<(), Fail> {
    let mut stack = stack_over(rt.alloc(), LevelFilter::INFO)?;
    assert!(rt; heard(&mut stack)? == 1);
    Ok(())
}

#[test]
fn boxes_keep_their_word(rt: HostRuntime) -> Result<(), Fail> {
    let boxed: Box<dyn Filter> = Box::new(rt.alloc(), LevelFilter::INFO)?;
    assert!(rt; heard_by_box(rt.alloc(), boxed)? == 1);
    Ok(())
}

#[test]
fn closures_keep_their_word(rt: HostRuntime) -> Result<(), Fail> {
    let quiet: MetadataTest = Box::new(rt.alloc(), is_quiet)?;
    assert!(rt; heard_by(rt.alloc(), quiet, LevelFilter::WARN)? == 1);
    Ok(())
}

#[test]
fn closures_over_contexts_keep_their_word(rt: HostRuntime) -> Result<(), Fail> {
    let quiet: ContextTest = Box::new(rt.alloc(), is_quiet_anywhere)?;
    assert!(rt; heard_in(rt.alloc(), quiet)? == 1);
    Ok(())
}

#[test]
fn levels_and_closures_keep_their_word(rt: HostRuntime) -> Result<(), Fail> {
    let quiet: MetadataTest = Box::new(rt.alloc(), is_quiet)?;
    assert!(rt; heard_by_both(rt.alloc(), LevelFilter::DEBUG, quiet)? == 1);
    Ok(())
}
