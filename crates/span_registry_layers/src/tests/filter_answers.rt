// What filters answer.
use super::*;
use crate::{And, Context, ContextTest, DynFilterFn, FilterFn, MetadataTest, Not, Or, filter_fn};
use tracing_core::LevelFilter;

/// Whether a filter passes DEBUG events of a target, and its interest in them.
fn asked<F: Filter>(filter: &F, registry: &mut Registry, target: &str) -> (bool, Interest) {
    asked_of(filter, registry, &event_metadata(target, Level::DEBUG))
}

#[test]
fn a_level_filter_passes_what_is_at_most_as_verbose(rt: HostRuntime) {
    let mut registry = Registry::new(rt.alloc());
    let (passed, interest) = asked(&LevelFilter::DEBUG, &mut registry, "app");
    assert!(rt; passed && interest.is_always());
    let (passed, interest) = asked(&LevelFilter::INFO, &mut registry, "app");
    assert!(rt; !passed && interest.is_never());
    assert!(rt; LevelFilter::INFO.max_level_hint() == Some(LevelFilter::INFO));
}

#[test]
fn both_or_either_or_neither(rt: HostRuntime) {
    let mut registry = Registry::new(rt.alloc());
    let (low, high) = (LevelFilter::INFO, LevelFilter::TRACE);
    let both = And::new(low, high);
    let (passed, interest) = asked(&both, &mut registry, "app");
    assert!(rt; !passed && interest.is_never() && both.max_level_hint() == Some(low));
    let either = Or::new(low, high);
    let (passed, interest) = asked(&either, &mut registry, "app");
    assert!(rt; passed && interest.is_always() && either.max_level_hint() == Some(high));
    let turned = Not::new(low);
    let (passed, interest) = asked(&turned, &mut registry, "app");
    assert!(rt; passed && interest.is_always() && turned.max_level_hint().is_none());
}

#[test]
fn an_absent_filter_passes_all(rt: HostRuntime) {
    let mut registry = Registry::new(rt.alloc());
    let absent: Option<LevelFilter> = None;
    let (passed, interest) = asked(&absent, &mut registry, "app");
    assert!(rt; passed && interest.is_always() && absent.max_level_hint().is_none());
    let (passed, interest) = asked(&Some(LevelFilter::OFF), &mut registry, "app");
    assert!(rt; !passed && interest.is_never());
}

#[test]
fn a_closure_decides_by_metadata(rt: HostRuntime) -> Result<(), Fail> {
    let mut registry = Registry::new(rt.alloc());
    let of_app: MetadataTest = Box::new(rt.alloc(), |metadata: &Metadata<'_>| -> bool {
        metadata.target() == "app"
    })?;
    let filter: FilterFn = filter_fn(of_app);
    let (passed, interest) = asked(&filter, &mut registry, "app");
    assert!(rt; passed && interest.is_always() && filter.max_level_hint().is_none());
    let (passed, interest) = asked(&filter, &mut registry, "other");
    assert!(rt; !passed && interest.is_never());
    Ok(())
}

#[test]
fn a_box_answers_what_is_in_it(rt: HostRuntime) -> Result<(), Fail> {
    let mut registry = Registry::new(rt.alloc());
    let boxed: Box<dyn Filter> = Box::new(rt.alloc(), LevelFilter::INFO)?;
    let (passed, interest) = asked(&boxed, &mut registry, "app");
    assert!(rt; !passed && interest.is_never());
    assert!(rt; boxed.max_level_hint() == Some(LevelFilter::INFO));
    Ok(())
}

/// Hands a filter on that may cross threads.
fn sendable<F: Filter + Send>(filter: F) -> F {
    filter
}

#[test]
fn a_box_that_may_be_sent_answers_what_is_in_it(rt: HostRuntime) -> Result<(), Fail> {
    let mut registry = Registry::new(rt.alloc());
    let boxed: Box<dyn Filter + Send> = Box::new(rt.alloc(), LevelFilter::INFO)?;
    let boxed = sendable(boxed);
    let (passed, interest) = asked(&boxed, &mut registry, "app");
    assert!(rt; !passed && interest.is_never());
    assert!(rt; boxed.max_level_hint() == Some(LevelFilter::INFO));
    let open: Box<dyn Filter + Send> = Box::new(rt.alloc(), LevelFilter::TRACE)?;
    let (passed, interest) = asked(&open, &mut registry, "app");
    assert!(rt; passed && interest.is_always());
    Ok(())
}

#[test]
fn a_filter_that_keeps_a_closure_may_be_sent(rt: HostRuntime) -> Result<(), Fail> {
    let mut registry = Registry::new(rt.alloc());
    let of_app: MetadataTest = Box::new(rt.alloc(), |metadata: &Metadata<'_>| -> bool {
        metadata.target() == "app"
    })?;
    let filter = sendable(FilterFn::new(of_app));
    let (passed, _) = asked(&filter, &mut registry, "app");
    assert!(rt; passed);
    let nowhere: ContextTest = Box::new(
        rt.alloc(),
        |_metadata: &Metadata<'_>, _context: &Context<'_>| -> bool { false },
    )?;
    let filter = sendable(DynFilterFn::new(nowhere));
    let (passed, _) = asked(&filter, &mut registry, "app");
    assert!(rt; !passed);
    Ok(())
}
