use super::*;
use event_formatter_lines::timings_at_start;
use span_registry_layers_store::Timings;

// Tells a span of a step at a moment.
fn step(
    registry: &mut Registry,
    span: &Id,
    step: TimingStep,
    seconds: i64,
    nanoseconds: u32,
) -> Option<Timings> {
    let mut context = Context::new(registry, at(seconds, nanoseconds), None);
    step_timings(&mut context, span, KEY, step)
}

// Keeps a span's timings from a moment on.
fn start(alloc: Global, registry: &mut Registry, span: &Id, seconds: i64) -> bool {
    let set = FieldSet::new(&NAMES, Identifier(1));
    let values = set.value_set_all(&ONE);
    let timings = Some(timings_at_start(seconds, 0));
    let mut context = Context::new(registry, at(seconds, 0), None);
    let first = keep_new(
        alloc,
        &mut context,
        span,
        KEY,
        PLAIN,
        &DefaultFields,
        &values,
        timings,
    );
    first.is_whole()
}

#[test]
fn a_span_is_idle_and_busy(rt: HostRuntime) -> Result<(), Fail> {
    let (mut registry, span) = one_span(rt.alloc())?;
    assert!(rt; start(rt.alloc(), &mut registry, &span, 10));
    let entered = step(&mut registry, &span, TimingStep::Enter, 12, 0).ok_or("timings")?;
    assert!(rt; entered.idle == 2_000_000_000 && entered.busy == 0 && entered.depth == 1);
    let left = step(&mut registry, &span, TimingStep::Exit, 12, 5).ok_or("timings")?;
    assert!(rt; left.idle == 2_000_000_000 && left.busy == 5 && left.depth == 0);
    let closed = step(&mut registry, &span, TimingStep::Close, 13, 5).ok_or("timings")?;
    assert!(rt; closed.idle == 3_000_000_000 && closed.busy == 5);
    assert_eq!(rt;
        kept_text(&registry.span(&span).ok_or("a span")?, KEY),
        "n=1"
    );
    Ok(())
}

#[test]
fn a_span_without_timings_gets_none(rt: HostRuntime) -> Result<(), Fail> {
    let (mut registry, span) = one_span(rt.alloc())?;
    assert!(rt; step(&mut registry, &span, TimingStep::Enter, 1, 0).is_none());
    assert!(rt; step(&mut registry, &span, TimingStep::Close, 2, 0).is_none());
    Ok(())
}
