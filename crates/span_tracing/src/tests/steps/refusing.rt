// Refusals, each in its order.
ghost use Rattle.span_tracing_steps.specs.TraceInvariant.{IsSound};

use super::*;

fn refused(refusal: Refusal) -> Reply {
    Reply::Refused(refusal)
}

/// What an event and a new span answer.
fn made_at(parts: &mut TraceParts<Keeper>, event: &Request<'_>, span_at: u64) -> (Reply, Reply)
    requires { IsSound parts.old }
    ensures { IsSound parts.new }
{
    let told = parts.event(event);
    let span = Request {
        lane: event.lane,
        moment: event.moment,
        callsite: span_at,
        parent: event.parent,
        values: event.values,
    };
    (told, parts.new_span(&span))
}

/// Both are refused so.
fn both(refusal: Refusal) -> (Reply, Reply) {
    (refused(refusal), refused(refusal))
}

#[test]
fn lanes_and_moments_are_looked_at_before_callsites(rt: HostRuntime) -> Result<(), Fail> {
    let mut parts = parts_of(rt.alloc(), None)?;
    let foreign = Parent::Explicit(span_name(1, 1)?);
    let mut asked = request(9, foreign, &[]);
    asked.lane = 2;
    asked.moment = TOO_EARLY;
    assert_eq!(rt; made_at(&mut parts, &asked, 9), both(Refusal::UnknownLane));
    asked.lane = 1;
    assert_eq!(rt; made_at(&mut parts, &asked, 9), both(Refusal::BadMoment));
    asked.moment = MONDAY;
    let unknown = both(Refusal::UnknownCallsite);
    assert_eq!(rt; made_at(&mut parts, &asked, 9), unknown);
    assert_eq!(rt; heard(&parts)?, (0, Told::Nothing, 0));
    Ok(())
}

#[test]
fn callsites_are_looked_at_before_parents(rt: HostRuntime) -> Result<(), Fail> {
    let mut parts = parts_of(rt.alloc(), None)?;
    let foreign = Parent::Explicit(span_name(1, 1)?);
    let unknown = both(Refusal::UnknownCallsite);
    let asked = request(OUTER, foreign, &[]);
    assert_eq!(rt; made_at(&mut parts, &asked, EVENT), unknown);
    let asked = request(HINT, foreign, &[]);
    assert_eq!(rt; made_at(&mut parts, &asked, HINT), unknown);
    let asked = request(EVENT, foreign, &[]);
    assert_eq!(rt;
        made_at(&mut parts, &asked, OUTER),
        both(Refusal::UnknownStack)
    );
    Ok(())
}

#[test]
fn parents_are_open_spans_of_the_reached_stack(rt: HostRuntime) -> Result<(), Fail> {
    let mut parts = parts_of(rt.alloc(), None)?;
    let asked = request(EVENT, Parent::Explicit(span_name(0, 1)?), &[]);
    assert_eq!(rt;
        made_at(&mut parts, &asked, OUTER),
        both(Refusal::ForeignParent)
    );
    assert_eq!(rt; parts.set_global_default(0), Reply::Done);
    assert_eq!(rt;
        made_at(&mut parts, &asked, OUTER),
        both(Refusal::UnknownSpan)
    );
    assert_eq!(rt; heard(&parts)?, (0, Told::Nothing, 0));
    Ok(())
}

#[test]
fn questions_are_refused_in_order(rt: HostRuntime) -> Result<(), Fail> {
    let mut parts = set_parts(rt.alloc(), None)?;
    let mut call = EnabledCall {
        lane: 2,
        moment: TOO_EARLY,
        callsite: Identifier(9),
    };
    assert_eq!(rt; parts.enabled(&call), refused(Refusal::UnknownLane));
    call.lane = 1;
    assert_eq!(rt; parts.enabled(&call), refused(Refusal::BadMoment));
    call.moment = MONDAY;
    assert_eq!(rt; parts.enabled(&call), refused(Refusal::UnknownCallsite));
    assert_eq!(rt; heard(&parts)?, (0, Told::Nothing, 0));
    Ok(())
}

/// What the calls on a span answer.
fn answers(parts: &mut TraceParts<Keeper>, call: &SpanCall) -> [Reply; 5]
    requires { IsSound parts.old }
    ensures { IsSound parts.new }
{
    let record = RecordRequest {
        lane: call.lane,
        moment: call.moment,
        span: call.span,
        values: IndexedValues::Lent(&[]),
    };
    [
        parts.record(&record),
        parts.enter(call),
        parts.exit(call),
        parts.clone_span(call),
        parts.try_close(call),
    ]
}

/// All are refused so.
fn all(refusal: Refusal) -> [Reply; 5] {
    [
        refused(refusal),
        refused(refusal),
        refused(refusal),
        refused(refusal),
        refused(refusal),
    ]
}

#[test]
fn calls_on_spans_are_refused_in_order(rt: HostRuntime) -> Result<(), Fail> {
    let mut parts = set_parts(rt.alloc(), None)?;
    let mut call = call_on(Some(span_name(1, 1)?));
    call.lane = 2;
    call.moment = TOO_EARLY;
    assert_eq!(rt; answers(&mut parts, &call), all(Refusal::UnknownLane));
    call.lane = 1;
    assert_eq!(rt; answers(&mut parts, &call), all(Refusal::BadMoment));
    call.moment = MONDAY;
    assert_eq!(rt; answers(&mut parts, &call), all(Refusal::UnknownStack));
    let call = call_on(Some(span_name(0, 1)?));
    assert_eq!(rt; answers(&mut parts, &call), all(Refusal::UnknownSpan));
    assert_eq!(rt; heard(&parts)?, (0, Told::Nothing, 0));
    Ok(())
}

#[test]
fn links_are_refused_for_their_lane_and_moment(rt: HostRuntime) -> Result<(), Fail> {
    let mut parts = set_parts(rt.alloc(), None)?;
    let foreign = Some(span_name(1, 1)?);
    let mut call = link(foreign, foreign);
    call.lane = 2;
    call.moment = TOO_EARLY;
    let reply = parts.record_follows_from(&call);
    assert_eq!(rt; reply, refused(Refusal::UnknownLane));
    call.lane = 1;
    let reply = parts.record_follows_from(&call);
    assert_eq!(rt; reply, refused(Refusal::BadMoment));
    Ok(())
}

fn link(span: Option<SpanName>, follows: Option<SpanName>) -> FollowsCall {
    FollowsCall {
        lane: 1,
        moment: MONDAY,
        span,
        follows,
    }
}

#[test]
fn both_stacks_are_looked_at_before_the_spans(rt: HostRuntime) -> Result<(), Fail> {
    let mut parts = set_parts(rt.alloc(), None)?;
    let open = made(&mut parts)?;
    let closed = Some(span_name(0, 9)?);
    let foreign = Some(span_name(1, 1)?);
    let reply = parts.record_follows_from(&link(closed, foreign));
    assert_eq!(rt; reply, refused(Refusal::UnknownStack));
    let reply = parts.record_follows_from(&link(None, foreign));
    assert_eq!(rt; reply, refused(Refusal::UnknownStack));
    let reply = parts.record_follows_from(&link(closed, Some(open)));
    assert_eq!(rt; reply, refused(Refusal::UnknownSpan));
    let reply = parts.record_follows_from(&link(Some(open), closed));
    assert_eq!(rt; reply, refused(Refusal::UnknownSpan));
    assert_eq!(rt; heard(&parts)?, (1, Told::Span(0), 1));
    Ok(())
}

#[test]
fn a_span_without_a_handle_isnt_closed_again(rt: HostRuntime) -> Result<(), Fail> {
    let mut parts = set_parts(rt.alloc(), None)?;
    let call = call_on(Some(made(&mut parts)?));
    assert_eq!(rt; parts.enter(&call), Reply::Done);
    assert_eq!(rt; parts.try_close(&call), Reply::Closed(false));
    let again = parts.try_close(&call);
    assert_eq!(rt; again, refused(Refusal::UnknownSpan));
    Ok(())
}

#[test]
fn the_stacks_want_of_memory_is_told(rt: HostRuntime) -> Result<(), Fail> {
    let alloc = rt.alloc();
    let span = request(OUTER, Parent::Root, &[]);
    let mut starved = set_parts(alloc, Some(RequestError::OutOfMemory))?;
    let reply = starved.new_span(&span);
    assert_eq!(rt; reply, refused(Refusal::OutOfMemory));
    let mut spent = set_parts(alloc, Some(RequestError::IdsSpent))?;
    let reply = spent.new_span(&span);
    assert_eq!(rt; reply, refused(Refusal::IdsSpent));
    Ok(())
}
