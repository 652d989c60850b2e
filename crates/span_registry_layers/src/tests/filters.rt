// Each way to make a filter, and each call of one.
use super::*;
use crate::{
    And, CallsiteTest, ContextTest, DynFilterFn, FilterExt, FilterFn, Filtered, Identity,
    MetadataTest, Not, Or, dynamic_filter_fn, filter_fn,
};
use tracing_core::{LevelFilter, Record};

/// Whether a filter passes an INFO span, and its interest in it.
fn asked<F: Filter>(filter: &F, registry: &mut Registry) -> (bool, Interest) {
    asked_of(filter, registry, &span_metadata("asked", Level::INFO))
}

/// Makes each other call of a filter once, and answers whether it passes an event.
fn told<F: Filter>(filter: &mut F, registry: &mut Registry, span: Id) -> bool {
    let metadata = event_metadata("app", Level::INFO);
    let context = Context::new(registry, PLACE, None);
    let attributes = Attributes::new(&metadata, no_values(&metadata));
    filter.on_new_span(&attributes, &span, &context);
    filter.on_record(&span, &Record::new(no_values(&metadata)), &context);
    filter.on_enter(&span, &context);
    filter.on_exit(&span, &context);
    filter.on_close(&span, &context);
    filter.event_enabled(&Event::new(&metadata, no_values(&metadata)), &context)
}

#[test]
fn surface_combined(rt: HostRuntime) -> Result<(), Fail> {
    let (mut registry, outer, _inner) = nested(rt.alloc())?;
    let (low, high) = (LevelFilter::WARN, LevelFilter::DEBUG);
    let (passed, interest) = asked(&And::new(low, high), &mut registry);
    assert!(rt; !passed && interest.is_never());
    let (passed, interest) = asked(&low.and(high), &mut registry);
    assert!(rt; !passed && interest.is_never());
    let (passed, interest) = asked(&Or::new(low, high), &mut registry);
    assert!(rt; passed && interest.is_always());
    let (passed, interest) = asked(&low.or(high), &mut registry);
    assert!(rt; passed && interest.is_always());
    let (passed, interest) = asked(&Not::new(low), &mut registry);
    assert!(rt; passed && interest.is_always());
    let (passed, interest) = asked(&FilterExt::not(low), &mut registry);
    assert!(rt; passed && interest.is_always());
    assert!(rt; low.and(high).max_level_hint() == Some(low));
    assert!(rt; told(&mut low.and(high), &mut registry, outer));
    let absent: Option<LevelFilter> = None;
    let (passed, interest) = asked(&absent, &mut registry);
    assert!(rt; passed && interest.is_always());
    let mut boxed: Box<dyn Filter> = Box::new(rt.alloc(), high)?;
    let (passed, interest) = asked(&boxed, &mut registry);
    assert!(rt; passed && interest.is_always() && told(&mut boxed, &mut registry, outer));
    Ok(())
}

#[test]
fn surface_closures(rt: HostRuntime) -> Result<(), Fail> {
    let (mut registry, outer, _inner) = nested(rt.alloc())?;
    let of_app: MetadataTest = Box::new(rt.alloc(), |metadata: &Metadata<'_>| -> bool {
        metadata.target() == "app"
    })?;
    let mut filter = FilterFn::new(of_app);
    let (passed, interest) = asked(&filter, &mut registry);
    assert!(rt; passed && interest.is_always() && told(&mut filter, &mut registry, outer));
    let of_others: MetadataTest = Box::new(rt.alloc(), |metadata: &Metadata<'_>| -> bool {
        metadata.target() == "other"
    })?;
    let filter = filter_fn(of_others);
    let (passed, interest) = asked(&filter, &mut registry);
    assert!(rt; !passed && interest.is_never() && filter.max_level_hint().is_none());
    Ok(())
}

#[test]
fn surface_hints(rt: HostRuntime) -> Result<(), Fail> {
    let (mut registry, _outer, _inner) = nested(rt.alloc())?;
    let quiet: MetadataTest = Box::new(rt.alloc(), is_quiet)?;
    let filter = FilterFn::new(quiet).with_max_level_hint(LevelFilter::WARN);
    let (passed, interest) = asked(&filter, &mut registry);
    assert!(rt; !passed && interest.is_never());
    assert!(rt; filter.max_level_hint() == Some(LevelFilter::WARN));
    let quiet: ContextTest = Box::new(rt.alloc(), is_quiet_anywhere)?;
    let filter = DynFilterFn::new(quiet).with_max_level_hint(LevelFilter::WARN);
    let (passed, interest) = asked(&filter, &mut registry);
    assert!(rt; !passed && interest.is_never());
    assert!(rt; filter.max_level_hint() == Some(LevelFilter::WARN));
    Ok(())
}

#[test]
fn surface_dynamic_closures(rt: HostRuntime) -> Result<(), Fail> {
    let (mut registry, outer, _inner) = nested(rt.alloc())?;
    let in_span: ContextTest = Box::new(
        rt.alloc(),
        |_metadata: &Metadata<'_>, context: &Context<'_>| -> bool {
            context.lookup_current().is_some()
        },
    )?;
    let mut filter = dynamic_filter_fn(in_span);
    let (passed, interest) = asked(&filter, &mut registry);
    assert!(rt; passed && interest.is_sometimes() && told(&mut filter, &mut registry, outer));
    let outside: ContextTest = Box::new(
        rt.alloc(),
        |_metadata: &Metadata<'_>, context: &Context<'_>| -> bool {
            context.lookup_current().is_none()
        },
    )?;
    let sometimes: CallsiteTest = Box::new(rt.alloc(), |_metadata: &Metadata<'_>| -> Interest {
        Interest::sometimes()
    })?;
    let filter = DynFilterFn::new(outside).with_callsite_filter(sometimes);
    let (passed, interest) = asked(&filter, &mut registry);
    assert!(rt; !passed && interest.is_sometimes() && filter.max_level_hint().is_none());
    Ok(())
}

#[test]
fn surface_clones(rt: HostRuntime) -> Result<(), Fail> {
    let (mut registry, _outer, _inner) = nested(rt.alloc())?;
    let (low, high) = (LevelFilter::WARN, LevelFilter::DEBUG);
    let both = And::new(low, high);
    let either = Or::new(both.clone()?, Not::new(low).clone()?).clone()?;
    assert!(rt; !asked(&both, &mut registry).0 && asked(&either, &mut registry).0);
    let output = Filtered::new(Identity::new(), low.clone()?);
    let mut other = output.clone()?;
    *other.filter_mut() = high;
    assert!(rt; *output.filter() == low && *other.filter() == high);
    Ok(())
}
