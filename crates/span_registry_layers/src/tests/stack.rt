// Each call of a stack, and what its outputs are told.
mod cache_validity;
mod caching;
mod calls;
mod filters;
mod hub;
mod inner_filters;
mod refusals;

use super::recording::{Counter, Journaling, Notification, new_counter, new_journal};
use super::*;
use crate::{
    Filtered, Layer, LayerExt, MetadataTest, Output, OutputKey, SpanCall, Stack, StackError,
    StackRefusal, dropped_events_tell_nobody, dropped_spans_tell_nobody, filter_fn,
    layers_keep_to_keys, numbers_stay, one_output_decides, registry_stands_alone,
    stack_registry_stays_sound, verdicts_are_own,
};
use tracing_core::{CurrentSpan, DefaultCallsite, Hub, LevelFilter, Record};

type Counted = Filtered<Counter, LevelFilter>;

/// One more output with this layer.
fn push_output<L: Layer, F: Filter>(
    outputs: &mut Vec<Output<Filtered<L, F>>>,
    key: u32,
    layer: L,
    filter: F,
) -> Result<(), Fail> {
    let output = Output {
        key: OutputKey(key),
        output: Filtered::new(layer, filter),
    };
    Ok(outputs.push(output).ok().ok_or("room")?)
}

/// A stack of one output that counts.
fn counted(alloc: Global, level: LevelFilter) -> Result<Stack<Counted>, Fail> {
    let mut outputs = Vec::new(alloc);
    push_output(&mut outputs, 1, new_counter(), level)?;
    Ok(Stack::new(alloc, outputs).ok().ok_or("a stack")?)
}

type Journaled<F> = Filtered<Journaling, F>;

/// A stack of two outputs that keep journals.
fn stack_of<F: Filter>(alloc: Global, first: F, second: F) -> Result<Stack<Journaled<F>>, Fail> {
    let mut outputs = Vec::new(alloc);
    push_output(&mut outputs, 1, new_journal(alloc), first)?;
    push_output(&mut outputs, 2, new_journal(alloc), second)?;
    Ok(Stack::new(alloc, outputs).ok().ok_or("a stack")?)
}

/// Hands over an event of this level.
fn tell<L: Layer, F: Filter>(
    stack: &mut Stack<Filtered<L, F>>,
    target: &str,
    level: Level,
) -> Result<(), RequestError> {
    let metadata = event_metadata(target, level);
    stack.event(&Event::new(&metadata, no_values(&metadata)), PLACE)
}

/// Makes a span of this level under the current one.
fn make<L: Layer, F: Filter>(
    stack: &mut Stack<Filtered<L, F>>,
    target: &str,
    level: Level,
) -> Result<Option<Id>, RequestError> {
    let metadata = metadata_at(8, "s", target, level, Kind::SPAN);
    stack.new_span(&Attributes::new(&metadata, no_values(&metadata)), PLACE)
}

/// Whether the output was told just this.
fn was_told<F: Filter>(
    stack: &Stack<Journaled<F>>,
    output: usize,
    told: &[(Notification, u64)],
) -> bool {
    match stack.output(output) {
        None => false,
        Some(output) => output.inner().observer.is(told),
    }
}

/// Answers whether an INFO event would be made, and hands it over.
fn tell_info(stack: &mut Stack<Counted>) -> bool {
    let metadata = event_metadata("app", Level::INFO);
    let event = Event::new(&metadata, no_values(&metadata));
    stack.enabled(&metadata, PLACE) && stack.event(&event, PLACE).is_ok()
}

/// Makes an INFO span, and records on it.
fn make_recorded(stack: &mut Stack<Counted>) -> Option<Id> {
    let metadata = span_metadata("s", Level::INFO);
    let attributes = Attributes::new(&metadata, no_values(&metadata));
    let Ok(Some(span)) = stack.new_span(&attributes, PLACE) else {
        return None;
    };
    let values = Record::new(no_values(&metadata));
    if stack.record(&span, &values, PLACE).is_err() {
        return None;
    }
    Some(span)
}

/// How often the one output was told, and once that it was attached.
fn told(stack: &Stack<Counted>) -> u64 {
    match stack.output(0) {
        None => 0,
        Some(output) => output.inner().observer.told,
    }
}

fn is_in(current: CurrentSpan, span: Id) -> bool {
    match current {
        CurrentSpan::Inside(id) => id.into_u64() == span.into_u64(),
        _ => false,
    }
}

#[test]
fn surface_stack(rt: HostRuntime) -> Result<(), Fail> {
    let mut stack = counted(rt.alloc(), LevelFilter::INFO)?;
    assert!(rt; tell_info(&mut stack) && told(&stack) == 2 && stack.passed(0) == Some(true));
    assert!(rt; stack.told(0) == Some(true) && stack.told(1).is_none() && stack.len() == 1);
    let span = make_recorded(&mut stack).ok_or("a span")?;
    assert!(rt; stack.record_follows_from(&span, &span, PLACE).is_ok());
    assert!(rt; stack.enter(&span, PLACE).is_ok() && is_in(stack.current_span(0), span));
    stack.exit(&span, PLACE);
    assert!(rt; stack.clone_span(&span).is_ok() && !stack.try_close(span, PLACE));
    assert!(rt; stack.registry().is_open(&span) && stack.try_close(span, PLACE));
    assert!(rt; told(&stack) == 8 && stack.table()?.spans.is_empty());
    Ok(())
}

/// A level above the hint is ignored, but for the first such event behind one that was told.
#[test]
fn what_is_above_the_hint_is_ignored(rt: HostRuntime) -> Result<(), Fail> {
    let mut stack = counted(rt.alloc(), LevelFilter::INFO)?;
    let _hint = Subscriber::max_level_hint(&mut stack);
    assert!(rt; stack.ignores(Level::DEBUG) && !stack.ignores(Level::INFO));
    tell(&mut stack, "app", Level::INFO)?;
    assert!(rt; !stack.ignores(Level::DEBUG));
    tell(&mut stack, "app", Level::DEBUG)?;
    assert!(rt; stack.ignores(Level::DEBUG) && told(&stack) == 2);
    Ok(())
}

#[test]
fn surface_swaps(rt: HostRuntime) -> Result<(), Fail> {
    let mut stack = counted(rt.alloc(), LevelFilter::INFO)?;
    let mut other = LevelFilter::WARN;
    assert!(rt; stack.swap_filter(0, &mut other).is_ok() && other == LevelFilter::INFO);
    assert!(rt; stack.swap_filter(1, &mut other).is_err());
    assert!(rt; !tell_info(&mut stack) && told(&stack) == 1);
    let output = stack.stack_mut(0).ok_or("an output")?;
    *output.filter_mut() = LevelFilter::TRACE;
    assert!(rt; tell_info(&mut stack) && told(&stack) == 2);
    let layer = stack.layer_mut(0).ok_or("a layer")?;
    layer.observer.told += 3;
    assert!(rt; stack.layer_mut(1).is_none());
    let mut outputs = stack.into_outputs();
    let only = outputs.next().ok_or("an output")?;
    let (layer, filter) = only.output.into_parts();
    assert!(rt; layer.observer.told == 5 && filter == LevelFilter::TRACE);
    assert!(rt; outputs.next().is_none());
    Ok(())
}

/// Hands an INFO and a DEBUG event over to two outputs, and answers how often each was told anything.
fn tell_both<F: Filter>(alloc: Global, first: F, second: F) -> Result<(u64, u64), Fail> {
    let mut outputs = Vec::new(alloc);
    push_output(&mut outputs, 1, new_counter(), first)?;
    push_output(&mut outputs, 2, new_counter(), second)?;
    let mut stack = Stack::new(alloc, outputs).ok().ok_or("a stack")?;
    tell(&mut stack, "app", Level::INFO)?;
    tell(&mut stack, "app", Level::DEBUG)?;
    match (stack.output(0), stack.output(1)) {
        (Some(first), Some(second)) => Ok((
            first.inner().observer.told,
            second.inner().observer.told,
        )),
        _ => Err("two outputs")?,
    }
}

#[test]
fn surface_stacks_of_boxes_and_closures(rt: HostRuntime) -> Result<(), Fail> {
    let alloc = rt.alloc();
    let all: Box<dyn Filter> = Box::new(alloc, LevelFilter::TRACE)?;
    let some: Box<dyn Filter> = Box::new(alloc, LevelFilter::INFO)?;
    assert!(rt; tell_both(alloc, all, some)? == (3, 2));
    let all: MetadataTest = Box::new(alloc, |_metadata: &Metadata<'_>| -> bool { true })?;
    let none: MetadataTest = Box::new(alloc, |_metadata: &Metadata<'_>| -> bool { false })?;
    assert!(rt; tell_both(alloc, filter_fn(all), filter_fn(none))? == (3, 1));
    Ok(())
}

#[test]
fn surface_laws_of_stacks(_rt: HostRuntime) {
    dropped_events_tell_nobody::<Counter, LevelFilter>();
    dropped_spans_tell_nobody::<Counter, LevelFilter>();
    numbers_stay::<Counter, LevelFilter>();
    layers_keep_to_keys::<Counter, LevelFilter>();
    verdicts_are_own::<Counter, LevelFilter>();
    stack_registry_stays_sound::<Counter, LevelFilter>();
    registry_stands_alone::<Counter, LevelFilter>();
    one_output_decides::<Counter, LevelFilter>();
}
