// Each step once, with what the stack is told.
use super::*;

#[test]
fn requests_reach_the_default_alone(rt: HostRuntime) -> Result<(), Fail> {
    let mut parts = parts_of(rt.alloc(), None)?;
    let event = request(EVENT, Parent::Root, &[]);
    let question = EnabledCall {
        lane: 1,
        moment: MONDAY,
        callsite: Identifier(HINT),
    };
    assert_eq!(rt; parts.event(&event), Reply::Done);
    let span = request(OUTER, Parent::Root, &[]);
    assert_eq!(rt; parts.new_span(&span), Reply::Span(None));
    assert_eq!(rt; parts.enabled(&question), Reply::Enabled(false));
    assert_eq!(rt; heard(&parts)?, (0, Told::Nothing, 0));
    assert_eq!(rt; parts.set_global_default(0), Reply::Done);
    assert_eq!(rt; parts.event(&event), Reply::Done);
    assert_eq!(rt; heard(&parts)?, (1, Told::Event(0), 1));
    assert_eq!(rt; parts.enabled(&question), Reply::Enabled(true));
    assert_eq!(rt; heard(&parts)?, (2, Told::Event(0), 1));
    Ok(())
}

#[test]
fn values_are_told_by_their_fields_places(rt: HostRuntime) -> Result<(), Fail> {
    let mut parts = set_parts(rt.alloc(), None)?;
    // The callsites have no third field, so that value is passed over.
    let values = [digit(1, 4), digit(2, 5), digit(0, 6)];
    let event = request(EVENT, Parent::Contextual, &values);
    assert_eq!(rt; parts.event(&event), Reply::Done);
    assert_eq!(rt; heard(&parts)?, (1, Told::Event(46), 1));
    let reply = parts.new_span(&request(OUTER, Parent::Contextual, &values));
    let name = span_name(0, 1)?;
    assert_eq!(rt; reply, Reply::Span(Some(name)));
    assert_eq!(rt; heard(&parts)?, (2, Told::Span(46), 1));
    let mut record = RecordRequest {
        lane: 0,
        moment: MONDAY,
        span: Some(name),
        values: IndexedValues::Owned(&values),
    };
    assert_eq!(rt; parts.record(&record), Reply::Done);
    assert_eq!(rt; heard(&parts)?, (3, Told::Values(id_of(name), 46), 0));
    record.span = None;
    assert_eq!(rt; parts.record(&record), Reply::Done);
    let (calls, _, _) = heard(&parts)?;
    assert_eq!(rt; calls, 3);
    Ok(())
}

#[test]
fn spans_are_entered_and_left(rt: HostRuntime) -> Result<(), Fail> {
    let mut parts = set_parts(rt.alloc(), None)?;
    let name = made(&mut parts)?;
    let call = call_on(Some(name));
    assert_eq!(rt; parts.enter(&call), Reply::Done);
    assert_eq!(rt; heard(&parts)?, (2, Told::Entered(id_of(name)), 1));
    // What the span's handle kept open, its entry keeps.
    assert_eq!(rt; parts.try_close(&call), Reply::Closed(false));
    assert_eq!(rt; heard(&parts)?, (3, Told::Closed(id_of(name)), 1));
    let under = request(EVENT, Parent::Explicit(name), &[]);
    assert_eq!(rt; parts.event(&under), Reply::Done);
    assert_eq!(rt; parts.exit(&call), Reply::Done);
    assert_eq!(rt; heard(&parts)?, (5, Told::Exited(id_of(name)), 1));
    let closed = Reply::Refused(Refusal::UnknownSpan);
    assert_eq!(rt; parts.exit(&call), closed);
    assert_eq!(rt; heard(&parts)?, (5, Told::Exited(id_of(name)), 1));
    Ok(())
}

#[test]
fn a_span_closes_with_its_last_handle(rt: HostRuntime) -> Result<(), Fail> {
    let mut parts = set_parts(rt.alloc(), None)?;
    let name = made(&mut parts)?;
    let call = call_on(Some(name));
    assert_eq!(rt; parts.clone_span(&call), Reply::Done);
    assert_eq!(rt; heard(&parts)?, (2, Told::Cloned(id_of(name)), 1));
    assert_eq!(rt; parts.try_close(&call), Reply::Closed(false));
    assert_eq!(rt; parts.try_close(&call), Reply::Closed(true));
    assert_eq!(rt; heard(&parts)?, (4, Told::Closed(id_of(name)), 1));
    Ok(())
}

#[test]
fn a_span_follows_another(rt: HostRuntime) -> Result<(), Fail> {
    let mut parts = set_parts(rt.alloc(), None)?;
    let first = made(&mut parts)?;
    let second = made(&mut parts)?;
    let mut call = FollowsCall {
        lane: 0,
        moment: MONDAY,
        span: Some(second),
        follows: Some(first),
    };
    assert_eq!(rt; parts.record_follows_from(&call), Reply::Done);
    let told = Told::Follows(id_of(second), id_of(first));
    assert_eq!(rt; heard(&parts)?, (3, told, 0));
    call.follows = None;
    assert_eq!(rt; parts.record_follows_from(&call), Reply::Done);
    assert_eq!(rt; heard(&parts)?, (3, told, 0));
    Ok(())
}

#[test]
fn calls_on_no_span_do_nothing(rt: HostRuntime) -> Result<(), Fail> {
    let mut parts = set_parts(rt.alloc(), None)?;
    let call = call_on(None);
    assert_eq!(rt; parts.enter(&call), Reply::Done);
    assert_eq!(rt; parts.exit(&call), Reply::Done);
    assert_eq!(rt; parts.clone_span(&call), Reply::Done);
    assert_eq!(rt; parts.try_close(&call), Reply::Closed(false));
    assert_eq!(rt; heard(&parts)?, (0, Told::Nothing, 0));
    Ok(())
}
