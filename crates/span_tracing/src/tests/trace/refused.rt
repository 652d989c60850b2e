// Calls that are refused.

use crate::Trace;
use crate::tests::common::{MONDAY, TOO_EARLY};
use crate::tests::trace::stage::{
    EVENT_FIELDS, OUTER, WARNING, Written, has_file, made, set_trace, span_name, trace_of_two,
};
use span_tracing_skeleton::{EnabledCall, FollowsCall, Parent, Refusal, Reply, Step};
use std::test::Fail;
use tracing_core_fields::{FieldSet, Identifier, Kind, Level, Metadata};

/// No callsite.
const UNKNOWN: Identifier = Identifier(9);

#[test]
fn unknown_lanes_moments_and_callsites_are_refused(rt: HostRuntime) -> Result<(), Fail> {
    let mut trace = set_trace(&rt, rt.alloc())?;
    let unknown = Reply::Refused(Refusal::UnknownLane);
    assert_eq!(rt; trace.event(2, MONDAY, WARNING, Parent::Root, &[]), unknown);
    assert_eq!(rt; trace.enabled(2, TOO_EARLY, UNKNOWN), unknown);
    let bad = Reply::Refused(Refusal::BadMoment);
    assert_eq!(rt; trace.event(0, TOO_EARLY, UNKNOWN, Parent::Root, &[]), bad);
    assert_eq!(rt; trace.enter(1, TOO_EARLY, None), bad);
    let unknown = Reply::Refused(Refusal::UnknownCallsite);
    assert_eq!(rt; trace.event(0, MONDAY, UNKNOWN, Parent::Root, &[]), unknown);
    assert_eq!(rt; trace.event(0, MONDAY, OUTER, Parent::Root, &[]), unknown);
    assert_eq!(rt;
        trace.new_span(0, MONDAY, WARNING, Parent::Root, &[]),
        unknown
    );
    let call = EnabledCall {
        lane: 0,
        moment: MONDAY,
        callsite: UNKNOWN,
    };
    assert_eq!(rt; trace.step(&Step::Enabled(call)), unknown);
    has_file(&rt, &trace, 0, "lines.2025-02-17", "")
}

#[test]
fn unknown_stacks_and_spans_are_refused(rt: HostRuntime) -> Result<(), Fail> {
    let mut trace = set_trace(&rt, rt.alloc())?;
    let span = Some(made(trace.new_span(0, MONDAY, OUTER, Parent::Root, &[]))?);
    let foreign = span_name(1, 1)?;
    let absent = span_name(0, 9)?;
    let unknown = Reply::Refused(Refusal::UnknownStack);
    assert_eq!(rt; trace.enter(0, MONDAY, Some(foreign)), unknown);
    let under = Parent::Explicit(foreign);
    assert_eq!(rt; trace.event(0, MONDAY, WARNING, under, &[]), unknown);
    assert_eq!(rt;
        trace.record_follows_from(0, MONDAY, Some(absent), Some(foreign)),
        unknown
    );
    let unknown = Reply::Refused(Refusal::UnknownSpan);
    assert_eq!(rt; trace.exit(0, MONDAY, Some(absent)), unknown);
    assert_eq!(rt; trace.clone_span(0, MONDAY, Some(absent)), unknown);
    assert_eq!(rt; trace.try_close(0, MONDAY, Some(absent)), unknown);
    assert_eq!(rt; trace.record(0, MONDAY, Some(absent), &[]), unknown);
    let under = Parent::Explicit(absent);
    assert_eq!(rt; trace.new_span(0, MONDAY, OUTER, under, &[]), unknown);
    let call = FollowsCall {
        lane: 0,
        moment: MONDAY,
        span,
        follows: Some(absent),
    };
    assert_eq!(rt; trace.step(&Step::RecordFollowsFrom(call)), unknown);
    Ok(())
}

#[test]
fn setup_calls_are_refused(rt: HostRuntime) -> Result<(), Fail> {
    let alloc = rt.alloc();
    let mut bare = Trace::<Written>::new(alloc);
    let unknown = Reply::Refused(Refusal::UnknownStack);
    assert_eq!(rt; bare.set_global_default(0), unknown);
    let mut trace = trace_of_two(&rt, alloc)?;
    assert_eq!(rt; trace.set_global_default(1), unknown);
    let foreign = Parent::Explicit(span_name(0, 1)?);
    let refused = Reply::Refused(Refusal::ForeignParent);
    assert_eq!(rt; trace.event(0, MONDAY, WARNING, foreign, &[]), refused);
    assert_eq!(rt; trace.set_global_default(0), Reply::Done);
    let refused = Reply::Refused(Refusal::GlobalSet);
    assert_eq!(rt; trace.set_global_default(0), refused);
    let fields = FieldSet::new(&EVENT_FIELDS, OUTER);
    let level = Level::INFO;
    let other = Metadata::new("other", "app", level, None, None, None, fields, Kind::EVENT);
    let Err(refusal) = trace.register(OUTER, &other) else {
        return Err("one identifier for two callsites")?;
    };
    assert_eq!(rt; refusal, Refusal::Taken);
    Ok(())
}
