// Layers and what they may look at.
use super::recording::{Counter, new_counter};
use super::*;
use crate::{FilterFn, Filtered, Identity, Layer, LayerExt, Layered, MetadataTest};
use tracing_core::{CurrentSpan, LevelFilter, Record};

/// Tells a layer of each call on spans and of an event, nine notices in all.
fn tell<L: Layer>(layer: &mut L, registry: &mut Registry, span: Id) {
    let metadata = span_metadata("told", Level::INFO);
    let mut context = Context::new(registry, PLACE, None);
    let attributes = Attributes::new(&metadata, no_values(&metadata));
    layer.on_new_span(&attributes, &span, &mut context);
    layer.on_record(&span, &Record::new(no_values(&metadata)), &mut context);
    layer.on_follows_from(&span, &span, &mut context);
    layer.on_event(&Event::new(&metadata, no_values(&metadata)), &mut context);
    layer.on_enter(&span, &mut context);
    layer.on_exit(&span, &mut context);
    layer.on_close(&span, &mut context);
    layer.on_id_change(&span, &span, &mut context);
}

/// Whether a layer lets an INFO event pass, and its interest in it.
fn asked<L: Layer>(layer: &L, registry: &mut Registry) -> (bool, Interest) {
    let metadata = event_metadata("app", Level::INFO);
    let context = Context::new(registry, PLACE, None);
    let event = Event::new(&metadata, no_values(&metadata));
    (
        layer.enabled(&metadata, &context) && layer.event_enabled(&event, &context),
        layer.register_callsite(&metadata),
    )
}

#[test]
fn surface_layers(rt: HostRuntime) -> Result<(), Fail> {
    let (mut registry, outer, _inner) = nested(rt.alloc())?;
    let boxed: Box<dyn Layer> = Box::new(rt.alloc(), new_counter())?;
    let mut tree = boxed
        .and_then(Some(new_counter()))
        .and_then(Identity::new());
    tree.on_layer(&mut registry);
    tell(&mut tree, &mut registry, outer);
    let (passed, interest) = asked(&tree, &mut registry);
    assert!(rt; passed && interest.is_always() && tree.max_level_hint().is_none());
    let mut several = Vec::new(rt.alloc());
    several.push(Identity::new()).ok().ok_or("room")?;
    several.on_layer(&mut registry);
    tell(&mut several, &mut registry, outer);
    let (passed, interest) = asked(&several, &mut registry);
    assert!(rt; passed && interest.is_always() && several.max_level_hint().is_none());
    let mut layer = new_counter();
    tell(&mut layer, &mut registry, outer);
    assert!(rt; layer.observer.told == 8);
    Ok(())
}

#[test]
fn surface_vetoes(rt: HostRuntime) -> Result<(), Fail> {
    let (mut registry, _outer, _inner) = nested(rt.alloc())?;
    let quiet: Layered<LevelFilter, Counter> = new_counter().and_then(LevelFilter::WARN);
    let (passed, interest) = asked(&quiet, &mut registry);
    assert!(rt; !passed && interest.is_never());
    assert!(rt; Layer::max_level_hint(&quiet) == Some(LevelFilter::WARN));
    let of_others: MetadataTest = Box::new(rt.alloc(), |metadata: &Metadata<'_>| -> bool {
        metadata.target() == "other"
    })?;
    let (passed, interest) = asked(&FilterFn::new(of_others), &mut registry);
    assert!(rt; !passed && interest.is_never());
    let absent: Option<Counter> = None;
    let (passed, interest) = asked(&absent, &mut registry);
    assert!(rt; passed && interest.is_always());
    assert!(rt; Layer::max_level_hint(&absent) == Some(LevelFilter::OFF));
    Ok(())
}

#[test]
fn surface_filtered(rt: HostRuntime) {
    let mut filtered: Filtered<Counter, LevelFilter> = new_counter().with_filter(LevelFilter::INFO);
    assert!(rt; *filtered.filter() == LevelFilter::INFO && filtered.inner().observer.told == 0);
    *filtered.filter_mut() = LevelFilter::DEBUG;
    filtered.inner_mut().observer.told = 3;
    assert!(rt; *filtered.filter() == LevelFilter::DEBUG && filtered.inner().observer.told == 3);
}

/// The name of a span, as a context tells it.
fn is_named(context: &Context<'_>, span: &Id, name: &str) -> bool {
    match context.metadata(span) {
        None => false,
        Some(metadata) => metadata.name() == name,
    }
}

/// The number of the span that a lane is in, and 0 where there is none.
fn number_of(current: CurrentSpan) -> u64 {
    match current {
        CurrentSpan::Inside(id) => id.into_u64(),
        _ => 0,
    }
}

/// How many spans an event at the context stands in.
fn depth(context: &Context<'_>) -> u64 {
    let metadata = event_metadata("app", Level::INFO);
    let event = Event::new(&metadata, no_values(&metadata));
    if context.event_span(&event).is_none() {
        return 0;
    }
    let mut count: u64 = 0;
    let Some(scope) = context.event_scope(&event) else {
        return 0;
    };
    for _span in scope {
        count = count.wrapping_add(1);
    }
    count
}

#[test]
fn surface_contexts(rt: HostRuntime) -> Result<(), Fail> {
    let mut registry = Registry::new(rt.alloc());
    let filter = registry.register_filter().ok().ok_or("a filter")?;
    let outer = make(&mut registry, "outer", FilterMap::all())?;
    registry.enter(&outer, 0).ok().ok_or("an entry")?;
    let inner = make(&mut registry, "inner", FilterMap::all().with(filter, false))?;
    registry.enter(&inner, 0).ok().ok_or("an entry")?;
    let whole = Context::new(&mut registry, PLACE, None);
    assert!(rt; number_of(whole.current_span()) == inner.into_u64());
    assert!(rt; whole.exists(&inner) && is_named(&whole, &inner, "inner"));
    assert!(rt; whole.span_scope(&inner).is_some() && depth(&whole) == 2);
    assert!(rt; whole.at().lane == PLACE.lane && whole.at().seconds == PLACE.seconds);
    let masked = Context::new(&mut registry, PLACE, Some(filter));
    assert!(rt; number_of(masked.current_span()) == outer.into_u64());
    assert!(rt; !masked.exists(&inner) && masked.span(&outer).is_some());
    assert!(rt; !is_named(&masked, &inner, "inner") && masked.span_scope(&inner).is_none());
    let current = masked.lookup_current().ok_or("a span")?;
    assert!(rt; current.id() == outer && depth(&masked) == 1);
    Ok(())
}
