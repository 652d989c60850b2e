// Several stacks: which of them a lane reaches, who holds them, and what is refused once one is released.

use crate::Trace;
use crate::tests::common::{MONDAY, TOO_EARLY, lent_text};
use crate::tests::trace::stage::{
    OUTER, WARNING, Written, has_file_of, made, set_trace, span_name, stack_of_two,
};
use span_tracing_skeleton::{
    DefaultCall, Parent, Refusal, Reply, ResetCall, SpanCall, SpanName, Step,
};
use std::alloc::Global;
use std::process::Abort;
use std::test::Fail;

/// Two stacks of two outputs each. The first is the global default, and no lane has a default of its own.
pub(crate) fn trace_of_both(rt: &impl Abort, alloc: Global) -> Result<Trace<Written>, Fail> {
    let mut trace = set_trace(rt, alloc)?;
    let handle = trace.add_stack(stack_of_two(alloc)?).ok().ok_or("room")?;
    assert_eq!(rt; handle, 1);
    assert_eq!(rt; trace.stack_count(), 2);
    Ok(trace)
}

/// Makes a warning on a lane.
fn warn(rt: &impl Abort, trace: &mut Trace<Written>, lane: usize, text: &str) {
    let message = lent_text(0, text);
    let reply = trace.event(lane, MONDAY, WARNING, Parent::Contextual, &[message]);
    assert_eq!(rt; reply, Reply::Done);
}

/// Compares the lines of a stack's first output.
fn wrote(rt: &impl Abort, trace: &Trace<Written>, stack: usize, lines: &str) -> Result<(), Fail> {
    has_file_of(rt, trace, (stack, 0), "lines.2025-02-17", lines)
}

fn refused(refusal: Refusal) -> Reply {
    Reply::Refused(refusal)
}

#[test]
fn a_lanes_default_goes_before_the_global_one(rt: HostRuntime) -> Result<(), Fail> {
    let mut trace = trace_of_both(&rt, rt.alloc())?;
    assert_eq!(rt; trace.set_default(1, Some(1)), Reply::Guard(0));
    warn(&rt, &mut trace, 0, "first");
    warn(&rt, &mut trace, 1, "second");
    assert_eq!(rt; trace.reset_default(1, 0), Reply::Done);
    warn(&rt, &mut trace, 1, "third");
    let lines = "fake time  WARN app: first\nfake time  WARN app: third\n";
    wrote(&rt, &trace, 0, lines)?;
    wrote(&rt, &trace, 1, "fake time  WARN app: second\n")?;
    let line =
        "{\"timestamp\":\"fake time\",\"level\":\"WARN\",\"fields\":{\"message\":\"second\"},\"target\":\"app\"}\n";
    has_file_of(&rt, &trace, (1, 1), "json.2025-02-17", line)?;
    assert!(rt; trace.sink(4).is_none());
    assert!(rt; trace.stack(2).is_none());
    Ok(())
}

#[test]
fn a_lane_of_no_stack_reaches_nothing(rt: HostRuntime) -> Result<(), Fail> {
    let mut trace = trace_of_both(&rt, rt.alloc())?;
    let span = made(trace.new_span(0, MONDAY, OUTER, Parent::Root, &[]))?;
    assert_eq!(rt; trace.set_default(0, None), Reply::Guard(0));
    warn(&rt, &mut trace, 0, "lost");
    let reply = trace.new_span(0, MONDAY, OUTER, Parent::Contextual, &[]);
    assert_eq!(rt; reply, Reply::Span(None));
    assert_eq!(rt; trace.enabled(0, MONDAY, OUTER), Reply::Enabled(false));
    let under = Parent::Explicit(span);
    let reply = trace.event(0, MONDAY, WARNING, under, &[]);
    assert_eq!(rt; reply, refused(Refusal::ForeignParent));
    // Calls on a span go to its own stack.
    assert_eq!(rt; trace.enter(0, MONDAY, Some(span)), Reply::Done);
    assert_eq!(rt; trace.reset_default(0, 0), Reply::Done);
    warn(&rt, &mut trace, 0, "told");
    wrote(&rt, &trace, 0, "fake time  WARN outer: app: told\n")
}

#[test]
fn guards_give_back_in_any_order(rt: HostRuntime) -> Result<(), Fail> {
    let mut trace = trace_of_both(&rt, rt.alloc())?;
    assert_eq!(rt; trace.set_default(0, Some(1)), Reply::Guard(0));
    assert_eq!(rt; trace.set_default(0, None), Reply::Guard(1));
    let wrong = refused(Refusal::WrongLane);
    assert_eq!(rt; trace.reset_default(1, 0), wrong);
    assert_eq!(rt; trace.reset_default(0, 0), Reply::Done);
    warn(&rt, &mut trace, 0, "a");
    assert_eq!(rt; trace.reset_default(0, 0), wrong);
    assert_eq!(rt; trace.reset_default(0, 1), Reply::Done);
    warn(&rt, &mut trace, 0, "b");
    assert_eq!(rt; trace.reset_default(0, 1), wrong);
    assert_eq!(rt; trace.reset_default(0, 2), wrong);
    wrote(&rt, &trace, 0, "fake time  WARN app: a\n")?;
    wrote(&rt, &trace, 1, "fake time  WARN app: b\n")
}

#[test]
fn a_lanes_default_and_a_guard_hold_a_stack(rt: HostRuntime) -> Result<(), Fail> {
    let mut trace = trace_of_both(&rt, rt.alloc())?;
    assert_eq!(rt; trace.set_default(0, Some(1)), Reply::Guard(0));
    let span = made(trace.new_span(0, MONDAY, OUTER, Parent::Root, &[]))?;
    assert_eq!(rt; span, span_name(1, 1)?);
    assert_eq!(rt; trace.release(1), Reply::Done);
    warn(&rt, &mut trace, 0, "a");
    assert_eq!(rt; trace.set_default(0, Some(0)), Reply::Guard(1));
    // The second guard keeps the second stack.
    assert_eq!(rt; trace.enter(0, MONDAY, Some(span)), Reply::Done);
    assert_eq!(rt; trace.reset_default(0, 1), Reply::Done);
    warn(&rt, &mut trace, 0, "b");
    assert_eq!(rt; trace.reset_default(0, 0), Reply::Done);
    let released = refused(Refusal::ReleasedStack);
    assert_eq!(rt; trace.exit(0, MONDAY, Some(span)), released);
    let lines = "fake time  WARN app: a\nfake time  WARN outer: app: b\n";
    wrote(&rt, &trace, 1, lines)?;
    assert!(rt; trace.stack(1).is_some());
    assert_eq!(rt; (trace.stack_count(), trace.lost(1)), (2, Some(0)));
    Ok(())
}

/// What the calls on a span answer.
fn answers(trace: &mut Trace<Written>, span: SpanName) -> [Reply; 6] {
    let name = Some(span);
    [
        trace.enter(0, MONDAY, name),
        trace.exit(0, MONDAY, name),
        trace.clone_span(0, MONDAY, name),
        trace.try_close(0, MONDAY, name),
        trace.record(0, MONDAY, name, &[]),
        trace.event(0, MONDAY, WARNING, Parent::Explicit(span), &[]),
    ]
}

#[test]
fn spans_of_a_released_stack_are_refused(rt: HostRuntime) -> Result<(), Fail> {
    let mut trace = trace_of_both(&rt, rt.alloc())?;
    assert_eq!(rt; trace.set_default(0, Some(1)), Reply::Guard(0));
    let span = made(trace.new_span(0, MONDAY, OUTER, Parent::Root, &[]))?;
    assert_eq!(rt; trace.reset_default(0, 0), Reply::Done);
    assert_eq!(rt; trace.release(1), Reply::Done);
    let released = refused(Refusal::ReleasedStack);
    assert_eq!(rt; answers(&mut trace, span), [released; 6]);
    // It is told before that the span isn't there, and after that the stack isn't.
    assert_eq!(rt; answers(&mut trace, span_name(1, 9)?), [released; 6]);
    let unknown = refused(Refusal::UnknownStack);
    assert_eq!(rt; answers(&mut trace, span_name(2, 1)?), [unknown; 6]);
    assert_eq!(rt;
        trace.exit(0, TOO_EARLY, Some(span)),
        refused(Refusal::BadMoment)
    );
    Ok(())
}

/// The reply to a span that follows another one.
fn follow(trace: &mut Trace<Written>, span: SpanName, follows: SpanName) -> Reply {
    trace.record_follows_from(0, MONDAY, Some(span), Some(follows))
}

#[test]
fn links_are_refused_by_the_least_number_first(rt: HostRuntime) -> Result<(), Fail> {
    let mut trace = trace_of_both(&rt, rt.alloc())?;
    let here = made(trace.new_span(0, MONDAY, OUTER, Parent::Root, &[]))?;
    assert_eq!(rt; trace.set_default(0, Some(1)), Reply::Guard(0));
    let there = made(trace.new_span(0, MONDAY, OUTER, Parent::Root, &[]))?;
    let foreign = refused(Refusal::ForeignParent);
    assert_eq!(rt; follow(&mut trace, here, there), foreign);
    assert_eq!(rt; follow(&mut trace, span_name(0, 9)?, there), foreign);
    let closed = refused(Refusal::UnknownSpan);
    assert_eq!(rt; follow(&mut trace, there, span_name(1, 9)?), closed);
    assert_eq!(rt; trace.release(1), Reply::Done);
    assert_eq!(rt; follow(&mut trace, there, there), Reply::Done);
    assert_eq!(rt; trace.reset_default(0, 0), Reply::Done);
    let released = refused(Refusal::ReleasedStack);
    assert_eq!(rt; follow(&mut trace, here, there), released);
    assert_eq!(rt; follow(&mut trace, there, here), released);
    let unknown = refused(Refusal::UnknownStack);
    assert_eq!(rt; follow(&mut trace, there, span_name(2, 1)?), unknown);
    Ok(())
}

#[test]
fn each_handle_holds_its_stack(rt: HostRuntime) -> Result<(), Fail> {
    let mut trace = trace_of_both(&rt, rt.alloc())?;
    assert_eq!(rt; trace.clone_handle(1), Reply::Handle(2));
    assert_eq!(rt; trace.release(1), Reply::Done);
    let spent = refused(Refusal::ReleasedStack);
    assert_eq!(rt; trace.clone_handle(1), spent);
    assert_eq!(rt; trace.set_default(0, Some(1)), spent);
    assert_eq!(rt; trace.set_default(0, Some(2)), Reply::Guard(0));
    warn(&rt, &mut trace, 0, "a");
    assert_eq!(rt; trace.reset_default(0, 0), Reply::Done);
    assert_eq!(rt; trace.release(2), Reply::Done);
    assert_eq!(rt; trace.release(2), spent);
    // The global default holds the first stack, though its handle is spent.
    assert_eq!(rt; trace.release(0), Reply::Done);
    warn(&rt, &mut trace, 0, "b");
    wrote(&rt, &trace, 0, "fake time  WARN app: b\n")?;
    wrote(&rt, &trace, 1, "fake time  WARN app: a\n")
}

#[test]
fn holds_are_refused_in_order(rt: HostRuntime) -> Result<(), Fail> {
    let mut trace = trace_of_both(&rt, rt.alloc())?;
    assert_eq!(rt; trace.release(1), Reply::Done);
    let lane = refused(Refusal::UnknownLane);
    let unknown = refused(Refusal::UnknownStack);
    let spent = refused(Refusal::ReleasedStack);
    assert_eq!(rt; trace.set_default(2, Some(9)), lane);
    assert_eq!(rt; trace.set_default(2, Some(1)), lane);
    assert_eq!(rt; trace.set_default(2, None), lane);
    assert_eq!(rt; trace.set_default(0, Some(9)), unknown);
    assert_eq!(rt; trace.set_default(0, Some(1)), spent);
    assert_eq!(rt; trace.reset_default(2, 9), lane);
    assert_eq!(rt; trace.reset_default(0, 9), refused(Refusal::WrongLane));
    assert_eq!(rt; trace.set_global_default(9), unknown);
    assert_eq!(rt; trace.set_global_default(1), spent);
    let set = refused(Refusal::GlobalSet);
    assert_eq!(rt; trace.set_global_default(0), set);
    assert_eq!(rt; [trace.clone_handle(9), trace.release(9)], [unknown; 2]);
    assert_eq!(rt; [trace.clone_handle(1), trace.release(1)], [spent; 2]);
    // None of them gave a number.
    assert_eq!(rt; trace.set_default(0, Some(0)), Reply::Guard(0));
    assert_eq!(rt; trace.clone_handle(0), Reply::Handle(2));
    Ok(())
}

#[test]
fn a_run_takes_steps_on_holds(rt: HostRuntime) -> Result<(), Fail> {
    let alloc = rt.alloc();
    let mut trace = trace_of_both(&rt, alloc)?;
    let call = SpanCall {
        lane: 0,
        moment: MONDAY,
        span: Some(span_name(1, 1)?),
    };
    let to_second = DefaultCall {
        lane: 0,
        handle: Some(1),
    };
    let mut steps = Vec::new(alloc);
    steps.push(Step::SetDefault(to_second))?;
    steps.push(Step::CloneHandle(1))?;
    steps.push(Step::Release(1))?;
    steps.push(Step::Enter(call))?;
    steps.push(Step::ResetDefault(ResetCall { lane: 0, guard: 0 }))?;
    steps.push(Step::Release(2))?;
    steps.push(Step::Enter(call))?;
    let replies = trace.run(steps.as_slice())?;
    let wanted = [
        Reply::Guard(0),
        Reply::Handle(2),
        Reply::Done,
        refused(Refusal::UnknownSpan),
        Reply::Done,
        Reply::Done,
        refused(Refusal::ReleasedStack),
    ];
    assert_eq!(rt; replies.as_slice(), wanted.as_slice());
    Ok(())
}
