// Trees of layers over a registry.
use super::recording::{Counter, new_counter};
use super::*;
use crate::{
    And, Filtered, Layer, LayerExt, Layered, MetadataTest, SubscriberExt, filter_fn,
    joined_registry_stays_sound, tree_registry_stays_sound, trees_stay_attached,
};
use tracing_core::{CurrentSpan, LevelFilter, Record};

type Below = Filtered<Counter, LevelFilter>;

/// Whether an event of this level would be told.
fn asks<S: Subscriber>(tree: &mut S, level: Level) -> bool {
    let metadata = event_metadata("app", level);
    tree.enabled(&metadata, PLACE)
}

/// A layer below a filter of this level.
fn below(level: LevelFilter) -> Below {
    new_counter().with_filter(level)
}

/// Enters and leaves a span, and gives up its handle.
fn pass_through<S: Subscriber>(tree: &mut S, span: Id) -> Result<bool, RequestError> {
    tree.enter(&span, PLACE)?;
    tell_in(tree, Level::ERROR)?;
    tree.exit(&span, PLACE);
    Ok(tree.try_close(span, PLACE))
}

type Inner = Filtered<Layered<Counter, Below>, LevelFilter>;

type Tree = Layered<Layered<Counter, Inner>, Registry>;

/// A layer below INFO, another one beside it, both below DEBUG, and one beside all.
fn two_filters(alloc: Global) -> Result<Tree, Fail> {
    let inner = below(LevelFilter::INFO).and_then(new_counter());
    let tree = inner
        .with_filter(LevelFilter::DEBUG)
        .and_then(new_counter());
    let tree = tree.with_subscriber(Registry::new(alloc));
    Ok(tree.ok().ok_or("room")?)
}

#[test]
fn each_layer_hears_what_its_path_passes(rt: HostRuntime) -> Result<(), Fail> {
    let mut tree = two_filters(rt.alloc())?;
    tell_in(&mut tree, Level::INFO)?;
    tell_in(&mut tree, Level::DEBUG)?;
    tell_in(&mut tree, Level::TRACE)?;
    let whole = tree.layer().layer();
    let outer = tree.layer().inner().inner().layer();
    let both = tree.layer().inner().inner().inner().inner();
    assert!(rt;
        whole.observer.events == 3 && outer.observer.events == 2 && both.observer.events == 1
    );
    Ok(())
}

#[test]
fn a_span_is_told_by_what_its_path_said_when_it_was_made(rt: HostRuntime) -> Result<(), Fail> {
    let mut tree = two_filters(rt.alloc())?;
    let high = make_in(&mut tree, Level::TRACE)?.ok_or("a span")?;
    assert!(rt; pass_through(&mut tree, high)?);
    let middle = make_in(&mut tree, Level::DEBUG)?.ok_or("a span")?;
    assert!(rt; pass_through(&mut tree, middle)?);
    let low = make_in(&mut tree, Level::INFO)?.ok_or("a span")?;
    assert!(rt; pass_through(&mut tree, low)?);
    let whole = tree.layer().layer();
    assert!(rt;
        whole.observer.made == 3
            && whole.observer.inside == 3
            && whole.observer.closed == 3
            && whole.observer.others == 6
    );
    let outer = tree.layer().inner().inner().layer();
    assert!(rt;
        outer.observer.made == 2
            && outer.observer.inside == 2
            && outer.observer.closed == 2
            && outer.observer.others == 4
    );
    let both = tree.layer().inner().inner().inner().inner();
    assert!(rt;
        both.observer.made == 1
            && both.observer.inside == 1
            && both.observer.closed == 1
            && both.observer.others == 2
    );
    assert!(rt; both.observer.events == 3);
    Ok(())
}

#[test]
fn what_no_path_passes_is_dropped_and_a_probe_leaves_no_mark(rt: HostRuntime) -> Result<(), Fail> {
    let tree = Registry::new(rt.alloc()).with(below(LevelFilter::INFO));
    let mut tree = tree.ok().ok_or("room")?;
    assert!(rt; make_in(&mut tree, Level::DEBUG)?.is_none());
    assert!(rt; !asks(&mut tree, Level::DEBUG) && asks(&mut tree, Level::INFO));
    tell_in(&mut tree, Level::INFO)?;
    assert!(rt; !asks(&mut tree, Level::TRACE));
    tell_in(&mut tree, Level::INFO)?;
    assert!(rt;
        tree.layer().inner().observer.events == 2 && tree.layer().inner().observer.made == 0
    );
    Ok(())
}

#[test]
fn lists_boxes_and_absent_layers(rt: HostRuntime) -> Result<(), Fail> {
    let mut several = Vec::new(rt.alloc());
    several.push(below(LevelFilter::INFO)).ok().ok_or("room")?;
    several.push(below(LevelFilter::DEBUG)).ok().ok_or("room")?;
    let boxed: Box<dyn Layer> = Box::new(rt.alloc(), below(LevelFilter::OFF))?;
    let absent: Option<Below> = None;
    let some = Some(below(LevelFilter::ERROR));
    let tree = several.and_then(boxed).and_then(absent).and_then(some);
    let tree = Registry::new(rt.alloc()).with(tree).ok().ok_or("room")?;
    let mut tree = tree.with(below(LevelFilter::WARN)).ok().ok_or("room")?;
    tell_in(&mut tree, Level::ERROR)?;
    tell_in(&mut tree, Level::DEBUG)?;
    let span = make_in(&mut tree, Level::WARN)?.ok_or("a span")?;
    assert!(rt; pass_through(&mut tree, span)?);
    let warn = tree.layer().layer().inner();
    assert!(rt; warn.observer.events == 2 && warn.observer.made == 1);
    let others = tree.layer().inner();
    assert!(rt; events_of(others.layer().as_ref()) == 2);
    let several = others.inner().inner().inner();
    assert!(rt; events_of(several.get(0)) == 2 && events_of(several.get(1)) == 3);
    assert!(rt; spans_of(several.get(0)) == 1 && spans_of(several.get(1)) == 1);
    Ok(())
}

/// How many events a layer was told of.
fn events_of(layer: Option<&Below>) -> u64 {
    match layer {
        None => 0,
        Some(layer) => layer.inner().observer.events,
    }
}

/// How many spans a layer was told of.
fn spans_of(layer: Option<&Below>) -> u64 {
    match layer {
        None => 0,
        Some(layer) => layer.inner().observer.made,
    }
}

/// Whether a layer has this number.
fn has_number(layer: Option<&Below>, number: u8) -> bool {
    match layer {
        None => false,
        Some(layer) => match layer.id() {
            None => false,
            Some(id) => id.index() == number,
        },
    }
}

/// So many layers, each below a filter.
fn many(alloc: Global, count: u64) -> Result<Vec<Below>, Fail> {
    let mut layers = Vec::new(alloc);
    for _ in 0..count {
        layers.push(below(LevelFilter::INFO)).ok().ok_or("room")?;
    }
    Ok(layers)
}

#[test]
fn past_64_filters_both_parts_come_back(rt: HostRuntime) -> Result<(), Fail> {
    let layers = many(rt.alloc(), 65)?;
    let Err(refused) = Registry::new(rt.alloc()).with(layers) else {
        return Err("65 filters".into());
    };
    assert!(rt; refused.layer.len() == 65 && refused.subscriber.filter_room() == 64);
    let layers = many(rt.alloc(), 64)?;
    let mut tree = refused.subscriber.with(layers).ok().ok_or("room")?;
    tell_in(&mut tree, Level::INFO)?;
    assert!(rt; events_of(tree.layer().get(63)) == 1 && has_number(tree.layer().get(63), 63));
    let Err(refused) = tree.with(below(LevelFilter::INFO)) else {
        return Err("one more filter".into());
    };
    assert!(rt; refused.layer.id().is_none() && refused.subscriber.layer().len() == 64);
    Ok(())
}

#[test]
fn a_veto_tells_nobody(rt: HostRuntime) -> Result<(), Fail> {
    let tree = new_counter().and_then(LevelFilter::INFO);
    let mut tree = Registry::new(rt.alloc()).with(tree).ok().ok_or("room")?;
    tell_in(&mut tree, Level::DEBUG)?;
    assert!(rt; make_in(&mut tree, Level::DEBUG)?.is_none() && !asks(&mut tree, Level::DEBUG));
    tell_in(&mut tree, Level::INFO)?;
    assert!(rt;
        tree.layer().inner().observer.events == 1 && tree.layer().inner().observer.made == 0
    );
    Ok(())
}

#[test]
fn calls_on_spans_and_refusals(rt: HostRuntime) -> Result<(), Fail> {
    let tree = Registry::new(rt.alloc()).with(below(LevelFilter::INFO));
    let mut tree = tree.ok().ok_or("room")?;
    let span = make_in(&mut tree, Level::INFO)?.ok_or("a span")?;
    let metadata = span_metadata("s", Level::INFO);
    tree.record(&span, &Record::new(no_values(&metadata)), PLACE)?;
    tree.record_follows_from(&span, &span, PLACE)?;
    tree.enter(&span, PLACE)?;
    assert!(rt; matches!(tree.current_span(PLACE), CurrentSpan::Inside(_)));
    tree.exit(&span, PLACE);
    assert!(rt; matches!(tree.current_span(PLACE), CurrentSpan::Outside));
    assert!(rt; tree.clone_span(&span, PLACE)? == span && !tree.try_close(span, PLACE));
    tree.drop_span(span, PLACE);
    assert!(rt; tree.enter(&span, PLACE) == Err(RequestError::UnknownSpan));
    assert!(rt; !tree.try_close(span, PLACE) && !tree.inner().is_open(&span));
    let heard = tree.layer().inner();
    assert!(rt;
        heard.observer.made == 1 && heard.observer.others == 4 && heard.observer.closed == 1
    );
    Ok(())
}

/// Whether a layer below the filter is told of one INFO event of `app`, and of no TRACE event.
fn hears_info<F: Filter>(alloc: Global, filter: F) -> Result<bool, Fail> {
    let tree = Registry::new(alloc).with(new_counter().with_filter(filter));
    let mut tree = tree.ok().ok_or("room")?;
    tell_in(&mut tree, Level::INFO)?;
    tell_in(&mut tree, Level::TRACE)?;
    let span = make_in(&mut tree, Level::INFO)?.ok_or("a span")?;
    let closed = pass_through(&mut tree, span)?;
    let heard = tree.layer().inner();
    Ok(
        closed
            && heard.observer.events == 2
            && heard.observer.made == 1
            && heard.observer.inside == 1
            && heard.observer.closed == 1,
    )
}

#[test]
fn trees_of_each_kind_of_filter(rt: HostRuntime) -> Result<(), Fail> {
    let alloc = rt.alloc();
    assert!(rt; hears_info(alloc, LevelFilter::INFO)?);
    let app: MetadataTest = Box::new(alloc, |metadata: &Metadata<'_>| -> bool {
        metadata.target() == "app" && *metadata.level() != Level::TRACE
    })?;
    assert!(rt; hears_info(alloc, filter_fn(app))?);
    let app: MetadataTest = Box::new(alloc, |metadata: &Metadata<'_>| -> bool {
        metadata.target() == "app"
    })?;
    assert!(rt; hears_info(alloc, And::new(LevelFilter::DEBUG, filter_fn(app)))?);
    let boxed: Box<dyn Filter> = Box::new(alloc, LevelFilter::DEBUG)?;
    assert!(rt; hears_info(alloc, boxed)?);
    Ok(())
}

/// Hands over an INFO event, and answers whether it would be told.
fn tell<S: Subscriber>(tree: &mut S) -> Result<bool, RequestError> {
    tell_in(tree, Level::INFO)?;
    Ok(asks(tree, Level::INFO))
}

#[test]
fn surface_trees(rt: HostRuntime) -> Result<(), Fail> {
    trees_stay_attached::<Counter>();
    tree_registry_stays_sound::<Counter>();
    joined_registry_stays_sound::<Counter, Counter>();
    let registry = Registry::new(rt.alloc());
    assert!(rt; registry.filter_room() == 64);
    let first = below(LevelFilter::INFO).with_subscriber(registry);
    let tree = first.ok().ok_or("room")?;
    let mut tree = tree.with(below(LevelFilter::WARN)).ok().ok_or("room")?;
    assert!(rt; tell(&mut tree)? && tree.inner().filter_room() == 62);
    let (warn, info) = (tree.layer().layer(), tree.layer().inner());
    assert!(rt; has_number(Some(info), 0) && info.inner().observer.told == 2);
    assert!(rt; has_number(Some(warn), 1) && warn.inner().observer.told == 1);
    let other = Registry::new(rt.alloc()).with(below(LevelFilter::INFO));
    let mut other = other.ok().ok_or("room")?;
    assert!(rt; tell(&mut other)? && other.layer().inner().observer.told == 2);
    Ok(())
}

#[test]
fn a_layer_that_finds_no_room_comes_back(rt: HostRuntime) -> Result<(), Fail> {
    let mut registry = Registry::new(rt.alloc());
    for _ in 0..64 {
        let _filter = registry.register_filter()?;
    }
    let Err(refused) = below(LevelFilter::INFO).with_subscriber(registry) else {
        return Err("a further filter".into());
    };
    assert!(rt; refused.layer.id().is_none() && refused.subscriber.filter_room() == 0);
    let boxed: Box<dyn Layer> = Box::new(rt.alloc(), new_counter())?;
    assert!(rt; refused.subscriber.with(boxed).is_ok());
    Ok(())
}
