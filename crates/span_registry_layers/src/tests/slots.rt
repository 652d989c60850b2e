// What a layer keeps with spans, from its hooks.
ghost use Rattle.std.specs.Prelude.{◌≡◌, ◌==◌};
ghost use Rattle.span_registry_layers.specs.SlotIndependence.{SameButKeys};
ghost use Rattle.span_registry_layers.specs.Keys.{WritesUnderOne};
ghost use Rattle.span_registry_layers.specs.FilterViews.{SameLoan, left};

use super::recording::{Notification, Observer, Observing};
use super::*;
use crate::{
    ContextTest, DynFilterFn, Extensions, Filtered, Layer, LayerExt, Output, OutputKey, Slot,
    Stack, Tag, layers_keep_to_keys,
};
use tracing_core::LevelFilter;

/// Counts, in a slot of each span that it sees, how often the span was entered and how many events stood in
/// it, and keeps the count of the span that closed last.
#[derive(Drop)]
struct Entries {
    key: OutputKey,
    closed: u64,
}

/// The number that an output keeps with a span, and 0 where it keeps none.
fn kept(extensions: &Extensions, key: OutputKey) -> u64 {
    match extensions.get(key, Tag::Number) {
        Some(Slot::Number(count)) => *count,
        _ => 0,
    }
}

impl Entries {
    /// One more of what it counts of a span.
    fn count(&self, span: &Id, context: &mut Context<'_>)
        ensures lent { SameLoan context.old context.new }
        ensures own { SameButKeys (λ key. key == self.now.key.0) (left context.old) (left context.new) }
    {
        let key = self.key;
        if let Some(extensions) = context.extensions_mut(span) {
            let count = kept(extensions, key).saturating_add(1);
            let _before = extensions.replace(key, Tag::Number, Slot::Number(count));
        }
    }

    /// Keeps the count of a span that closes.
    fn close(&mut self, span: &Id, context: &mut Context<'_>)
        ensures lent { SameLoan context.old context.new }
        ensures own { SameButKeys (λ key. key == self.old.key.0) (left context.old) (left context.new) }
        ensures key { self.new.key ≡ self.old.key }
    {
        let key = self.key;
        if let Some(extensions) = context.extensions_mut(span) {
            self.closed = kept(extensions, key);
        }
    }
}

impl Observer for Entries {
    ghost use Rattle.std.specs.Prelude.{◌==◌};

    ghost keys = { λ x key. key == x.key.0 };

    fn settle(&mut self, _notice: Notification) {}

    fn observe(&mut self, notice: Notification, span: Option<&Id>, context: &mut Context<'_>) {
        match (notice, span) {
            (Notification::Happened | Notification::Entered, Some(span)) => {
                self.count(span, context);
            }
            (Notification::Closed, Some(span)) => self.close(span, context),
            _ => {}
        }
    }
}

/// It writes slots under its own key alone.
fn keeps_to_its_key(entries: &Observing<Entries>)
    ensures { WritesUnderOne ⟦<Observing<Entries> as Layer>⟧ entries.now entries.now.observer.key.0 }
{}

/// A layer that counts under a key, and counted nothing so far.
fn entries_under(key: u32) -> Observing<Entries> {
    Observing {
        observer: Entries {
            key: OutputKey(key),
            closed: 0,
        },
    }
}

type CountOutput<F> = Filtered<Observing<Entries>, F>;

/// One more output, with this key and this filter.
fn add<F: Filter>(
    outputs: &mut Vec<Output<CountOutput<F>>>,
    key: u32,
    filter: F,
) -> Result<(), Fail> {
    outputs
        .push(Output {
            key: OutputKey(key),
            output: Filtered::new(entries_under(key), filter),
        })
        .ok()
        .ok_or("room")?;
    Ok(())
}

/// Two outputs, with these filters.
fn counts_of<F: Filter>(alloc: Global, first: F, second: F) -> Result<Stack<CountOutput<F>>, Fail> {
    let mut outputs = Vec::new(alloc);
    add(&mut outputs, 0, first)?;
    add(&mut outputs, 1, second)?;
    Ok(Stack::new(alloc, outputs).ok().ok_or("a stack")?)
}

/// A filter that passes nothing in a span of which the first output counted two or more.
fn until_two(alloc: Global) -> Result<DynFilterFn, Fail> {
    let test: ContextTest = Box::new(
        alloc,
        |_metadata: &Metadata<'_>, context: &Context<'_>| -> bool {
            match context.lookup_current() {
                None => true,
                Some(span) => kept(span.extensions(), OutputKey(0)) < 2,
            }
        },
    )?;
    Ok(DynFilterFn::new(test))
}

/// Makes a span of this level, and enters and leaves it so often.
fn passed<S: Subscriber>(stack: &mut S, level: Level, times: u64) -> Result<Id, Fail> {
    let span = make_in(stack, level)?.ok_or("a span")?;
    for _time in 0..times {
        stack.enter(&span, PLACE)?;
        stack.exit(&span, PLACE);
    }
    Ok(span)
}

/// What an output's layer kept of the span that closed last.
fn closed(stack: &Stack<CountOutput<LevelFilter>>, output: usize) -> u64 {
    match stack.output(output) {
        None => 0,
        Some(output) => output.inner().observer.closed,
    }
}

#[test]
fn surface_slots_in_hooks(rt: HostRuntime) -> Result<(), Fail> {
    layers_keep_to_keys::<Observing<Entries>, LevelFilter>();
    keeps_to_its_key(&entries_under(0));
    let mut stack = counts_of(rt.alloc(), LevelFilter::WARN, LevelFilter::DEBUG)?;
    let loud = passed(&mut stack, Level::WARN, 3)?;
    let quiet = passed(&mut stack, Level::INFO, 2)?;
    assert!(rt; stack.try_close(loud, PLACE) && closed(&stack, 0) == 3 && closed(&stack, 1) == 3);
    assert!(rt; stack.try_close(quiet, PLACE) && closed(&stack, 0) == 3 && closed(&stack, 1) == 2);
    Ok(())
}

#[test]
fn filters_see_no_slots_of_the_same_event(rt: HostRuntime) -> Result<(), Fail> {
    let mut stack = counts_of(rt.alloc(), until_two(rt.alloc())?, until_two(rt.alloc())?)?;
    let span = passed(&mut stack, Level::INFO, 0)?;
    stack.enter(&span, PLACE)?;
    tell_in(&mut stack, Level::INFO)?;
    assert!(rt; stack.told(0) == Some(true) && stack.told(1) == Some(true));
    tell_in(&mut stack, Level::INFO)?;
    assert!(rt; stack.told(0) == Some(false) && stack.told(1) == Some(false));
    Ok(())
}

#[test]
fn a_tree_keeps_slots(rt: HostRuntime) -> Result<(), Fail> {
    let mut tree = entries_under(7)
        .with_filter(LevelFilter::INFO)
        .with_subscriber(Registry::new(rt.alloc()))
        .ok()
        .ok_or("room")?;
    let span = passed(&mut tree, Level::INFO, 4)?;
    assert!(rt; tree.try_close(span, PLACE) && tree.layer().inner().observer.closed == 4);
    Ok(())
}

#[test]
fn surface_lent_slots(rt: HostRuntime) -> Result<(), Fail> {
    let mut registry = Registry::new(rt.alloc());
    let filter = registry.register_filter().ok().ok_or("a filter")?;
    let span = make(&mut registry, "s", FilterMap::all().with(filter, false))?;
    let mut masked = Context::new(&mut registry, PLACE, Some(filter));
    assert!(rt; masked.extensions_mut(&span).is_none());
    let mut whole = Context::new(&mut registry, PLACE, None);
    let lent = whole.extensions_mut(&span).ok_or("slots")?;
    assert!(rt;
        lent.insert(OutputKey(1), Tag::Number, Slot::Number(5))
            .is_ok()
    );
    let number = whole
        .span(&span)
        .ok_or("a span")?
        .extensions()
        .get(OutputKey(1), Tag::Number)
        .is_some();
    assert!(rt; number);
    Ok(())
}
