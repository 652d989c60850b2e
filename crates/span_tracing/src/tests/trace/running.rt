// What runs and calls write and answer.

use crate::tests::common::{MONDAY, TUESDAY, lent_number, lent_text, number_field, text_field};
use crate::tests::trace::stage::{
    OUTER, WARNING, has_file, made, set_trace, span_name, trace_of_two,
};
use span_tracing_skeleton::{EventCall, NewSpanCall, Parent, Refusal, Reply, SpanCall, Step};
use std::alloc::Global;
use std::test::Fail;

/// What an output with JSON writes of a warning.
const JSON_LINE: &str =
    "{\"timestamp\":\"fake time\",\"level\":\"WARN\",\"fields\":{\"message\":\"hi\",\"n\":3},\"target\":\"app\"}\n";

/// Steps from the making of a span to its close, with a warning in it.
fn steps_of_a_span(alloc: Global) -> Result<Vec<Step>, Fail> {
    let call = SpanCall {
        lane: 0,
        moment: MONDAY,
        span: Some(span_name(0, 1)?),
    };
    let span = NewSpanCall {
        lane: 0,
        moment: MONDAY,
        callsite: OUTER,
        parent: Parent::Contextual,
        values: vec![in alloc; number_field(0, 42)]?,
    };
    let event = EventCall {
        lane: 0,
        moment: MONDAY,
        callsite: WARNING,
        parent: Parent::Contextual,
        values: vec![in alloc; text_field(alloc, 0, "hi")?, number_field(1, 3)]?,
    };
    let mut steps = Vec::new(alloc);
    steps.push(Step::SetGlobalDefault(0))?;
    steps.push(Step::NewSpan(span))?;
    steps.push(Step::Enter(call))?;
    steps.push(Step::Event(event))?;
    steps.push(Step::Exit(call))?;
    steps.push(Step::TryClose(call))?;
    Ok(steps)
}

#[test]
fn a_run_writes_the_lines_of_both_outputs(rt: HostRuntime) -> Result<(), Fail> {
    let alloc = rt.alloc();
    let mut trace = trace_of_two(&rt, alloc)?;
    has_file(&rt, &trace, 0, "lines.2025-02-17", "")?;
    let steps = steps_of_a_span(alloc)?;
    let replies = trace.run(steps.as_slice())?;
    let wanted = [
        Reply::Done,
        Reply::Span(Some(span_name(0, 1)?)),
        Reply::Done,
        Reply::Done,
        Reply::Done,
        Reply::Closed(true),
    ];
    assert_eq!(rt; replies.as_slice(), wanted.as_slice());
    let lines =
        "fake time  WARN outer{x=42}: app: hi n=3\nfake time  INFO outer{x=42}: app: close\n";
    has_file(&rt, &trace, 0, "lines.2025-02-17", lines)?;
    has_file(&rt, &trace, 1, "json.2025-02-17", JSON_LINE)
}

/// The stack is the default already, and the first id is given.
#[test]
fn a_run_goes_on_past_refused_steps(rt: HostRuntime) -> Result<(), Fail> {
    let alloc = rt.alloc();
    let mut trace = set_trace(&rt, alloc)?;
    let first = made(trace.new_span(0, MONDAY, OUTER, Parent::Root, &[]))?;
    assert_eq!(rt;
        trace.try_close(0, MONDAY, Some(first)),
        Reply::Closed(true)
    );
    let steps = steps_of_a_span(alloc)?;
    let replies = trace.run(steps.as_slice())?;
    let wanted = [
        Reply::Refused(Refusal::GlobalSet),
        Reply::Span(Some(span_name(0, 2)?)),
        Reply::Refused(Refusal::UnknownSpan),
        Reply::Done,
        Reply::Refused(Refusal::UnknownSpan),
        Reply::Refused(Refusal::UnknownSpan),
    ];
    assert_eq!(rt; replies.as_slice(), wanted.as_slice());
    let lines = "fake time  INFO outer: app: close\nfake time  WARN app: hi n=3\n";
    has_file(&rt, &trace, 0, "lines.2025-02-17", lines)?;
    has_file(&rt, &trace, 1, "json.2025-02-17", JSON_LINE)
}

/// The span is told no `x` when it is made. What is recorded of it later stands in its lines.
#[test]
fn calls_write_the_lines_of_both_outputs(rt: HostRuntime) -> Result<(), Fail> {
    let alloc = rt.alloc();
    let mut trace = set_trace(&rt, alloc)?;
    let outer = made(trace.new_span(0, MONDAY, OUTER, Parent::Contextual, &[]))?;
    assert_eq!(rt; outer, span_name(0, 1)?);
    let values = [lent_number(0, 42)];
    assert_eq!(rt; trace.record(0, MONDAY, Some(outer), &values), Reply::Done);
    assert_eq!(rt; trace.enter(0, MONDAY, Some(outer)), Reply::Done);
    let hi = [lent_text(0, "hi"), lent_number(1, 3)];
    let here = Parent::Contextual;
    assert_eq!(rt; trace.event(0, MONDAY, WARNING, here, &hi), Reply::Done);
    assert_eq!(rt; trace.event(1, TUESDAY, WARNING, here, &hi), Reply::Done);
    assert_eq!(rt; trace.exit(0, TUESDAY, Some(outer)), Reply::Done);
    assert_eq!(rt;
        trace.try_close(0, TUESDAY, Some(outer)),
        Reply::Closed(true)
    );
    let line = "fake time  WARN outer{x=42}: app: hi n=3\n";
    has_file(&rt, &trace, 0, "lines.2025-02-17", line)?;
    let lines = "fake time  WARN app: hi n=3\nfake time  INFO outer{x=42}: app: close\n";
    has_file(&rt, &trace, 0, "lines.2025-02-18", lines)?;
    has_file(&rt, &trace, 1, "json.2025-02-17", JSON_LINE)?;
    has_file(&rt, &trace, 1, "json.2025-02-18", JSON_LINE)
}

#[test]
fn calls_on_spans_answer(rt: HostRuntime) -> Result<(), Fail> {
    let mut trace = trace_of_two(&rt, rt.alloc())?;
    assert_eq!(rt; trace.enabled(0, MONDAY, OUTER), Reply::Enabled(false));
    let reply = trace.new_span(0, MONDAY, OUTER, Parent::Root, &[]);
    assert_eq!(rt; reply, Reply::Span(None));
    assert_eq!(rt; trace.step(&Step::SetGlobalDefault(0)), Reply::Done);
    assert_eq!(rt; trace.enabled(0, MONDAY, OUTER), Reply::Enabled(true));
    let one = Some(made(trace.new_span(0, MONDAY, OUTER, Parent::Root, &[]))?);
    let two = Some(made(trace.new_span(1, MONDAY, OUTER, Parent::Root, &[]))?);
    assert_eq!(rt; trace.record_follows_from(0, MONDAY, two, one), Reply::Done);
    assert_eq!(rt;
        trace.record_follows_from(0, MONDAY, None, None),
        Reply::Done
    );
    assert_eq!(rt; trace.clone_span(0, MONDAY, one), Reply::Done);
    assert_eq!(rt; trace.try_close(0, MONDAY, one), Reply::Closed(false));
    assert_eq!(rt; trace.try_close(0, MONDAY, one), Reply::Closed(true));
    assert_eq!(rt; trace.try_close(0, MONDAY, None), Reply::Closed(false));
    assert_eq!(rt; trace.record(0, MONDAY, None, &[]), Reply::Done);
    assert_eq!(rt; trace.clone_span(0, MONDAY, None), Reply::Done);
    assert_eq!(rt; trace.enter(0, MONDAY, None), Reply::Done);
    assert_eq!(rt; trace.exit(0, MONDAY, None), Reply::Done);
    Ok(())
}

#[test]
fn a_parent_stands_before_its_child(rt: HostRuntime) -> Result<(), Fail> {
    let alloc = rt.alloc();
    let mut trace = set_trace(&rt, alloc)?;
    let one = made(trace.new_span(0, MONDAY, OUTER, Parent::Root, &[lent_number(0, 1)]))?;
    let under = Parent::Explicit(one);
    let two = made(trace.new_span(0, MONDAY, OUTER, under, &[lent_number(0, 2)]))?;
    let hi = [lent_text(0, "hi")];
    let reply = trace.event(1, MONDAY, WARNING, Parent::Explicit(two), &hi);
    assert_eq!(rt; reply, Reply::Done);
    assert_eq!(rt; trace.enter(0, MONDAY, Some(two)), Reply::Done);
    assert_eq!(rt;
        trace.event(0, MONDAY, WARNING, Parent::Root, &hi),
        Reply::Done
    );
    let lines = "fake time  WARN outer{x=1}:outer{x=2}: app: hi\nfake time  WARN app: hi\n";
    has_file(&rt, &trace, 0, "lines.2025-02-17", lines)
}
