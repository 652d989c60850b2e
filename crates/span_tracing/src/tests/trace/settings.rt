// Settings of outputs that change while a trace runs.

use crate::tests::common::{MONDAY, lent_number, lent_text};
use crate::tests::trace::several::trace_of_both;
use crate::tests::trace::stage::{
    OUTER, WARNING, has_file, has_file_of, made, register_both, set_trace,
};
use event_formatter_lines::FmtSpan;
use span_tracing_skeleton::{
    OutputPlace, Parent, Refusal, Reply, Setting, SettingCall, SpanMoments, Step,
};
use std::test::Fail;
use tracing_core_fields::{Interest, LevelFilter};

#[test]
fn lines_have_styles_from_a_call_on(rt: HostRuntime) -> Result<(), Fail> {
    let mut trace = set_trace(&rt, rt.alloc())?;
    assert_eq!(rt; trace.set_ansi(0, true), Reply::Done);
    let styled = lent_text(0, "styled");
    let reply = trace.event(0, MONDAY, WARNING, Parent::Contextual, &[styled]);
    assert_eq!(rt; reply, Reply::Done);
    let plain = Step::Set(SettingCall {
        output: 0,
        setting: Setting::Ansi(false),
    });
    assert_eq!(rt; trace.step(&plain), Reply::Done);
    let bare = lent_text(0, "bare");
    let reply = trace.event(0, MONDAY, WARNING, Parent::Contextual, &[bare]);
    assert_eq!(rt; reply, Reply::Done);
    let lines =
        "\u{1b}[2mfake time\u{1b}[0m \u{1b}[33m WARN\u{1b}[0m \u{1b}[2mapp\u{1b}[0m\u{1b}[2m:\u{1b}[0m styled\nfake time  WARN app: bare\n";
    has_file(&rt, &trace, 0, "lines.2025-02-17", lines)
}

#[test]
fn spans_have_lines_from_a_call_on(rt: HostRuntime) -> Result<(), Fail> {
    let mut trace = trace_of_both(&rt, rt.alloc())?;
    assert_eq!(rt; trace.set_default(1, Some(1)), Reply::Guard(0));
    let first = made(trace.new_span(1, MONDAY, OUTER, Parent::Root, &[]))?;
    assert_eq!(rt;
        trace.set_span_events(2, FmtSpan::ENTER | FmtSpan::EXIT),
        Reply::Done
    );
    let other = made(trace.new_span(0, MONDAY, OUTER, Parent::Root, &[]))?;
    for (lane, span) in [(0, other), (1, first)] {
        assert_eq!(rt; trace.enter(lane, MONDAY, Some(span)), Reply::Done);
        assert_eq!(rt; trace.exit(lane, MONDAY, Some(span)), Reply::Done);
    }
    has_file(&rt, &trace, 0, "lines.2025-02-17", "")?;
    let lines = "fake time  INFO outer: app: enter\nfake time  INFO outer: app: exit\n";
    has_file_of(&rt, &trace, (1, 0), "lines.2025-02-17", lines)
}

#[test]
fn texts_of_open_spans_keep_their_styles(rt: HostRuntime) -> Result<(), Fail> {
    let mut trace = set_trace(&rt, rt.alloc())?;
    let plain = made(trace.new_span(0, MONDAY, OUTER, Parent::Root, &[lent_number(0, 1)]))?;
    assert_eq!(rt; trace.set_ansi(0, true), Reply::Done);
    let under = Parent::Explicit(plain);
    let styled = made(trace.new_span(0, MONDAY, OUTER, under, &[lent_number(0, 2)]))?;
    assert_eq!(rt; trace.set_ansi(0, false), Reply::Done);
    let text = lent_text(0, "bare");
    let reply = trace.event(0, MONDAY, WARNING, Parent::Explicit(styled), &[text]);
    assert_eq!(rt; reply, Reply::Done);
    let line =
        "fake time  WARN outer{x=1}:outer{\u{1b}[3mx\u{1b}[0m\u{1b}[2m=\u{1b}[0m2}: app: bare\n";
    has_file(&rt, &trace, 0, "lines.2025-02-17", line)
}

#[test]
fn closes_have_lines_while_they_are_asked_for(rt: HostRuntime) -> Result<(), Fail> {
    let mut trace = set_trace(&rt, rt.alloc())?;
    for events in [FmtSpan::CLOSE, FmtSpan::NONE, FmtSpan::CLOSE] {
        assert_eq!(rt; trace.set_span_events(0, events), Reply::Done);
        let span = made(trace.new_span(0, MONDAY, OUTER, Parent::Root, &[]))?;
        assert_eq!(rt; trace.try_close(0, MONDAY, Some(span)), Reply::Closed(true));
    }
    let lines = "fake time  INFO outer: app: close\nfake time  INFO outer: app: close\n";
    has_file(&rt, &trace, 0, "lines.2025-02-17", lines)
}

#[test]
fn settings_are_refused_in_order(rt: HostRuntime) -> Result<(), Fail> {
    let mut trace = trace_of_both(&rt, rt.alloc())?;
    let last = OutputPlace { stack: 1, place: 1 };
    assert_eq!(rt; trace.output_place(3), Some(last));
    assert_eq!(rt; trace.output_place(4), None);
    assert_eq!(rt; trace.set_ansi(3, true), Reply::Done);
    assert_eq!(rt; trace.release(1), Reply::Done);
    assert_eq!(rt;
        trace.set_ansi(3, false),
        Reply::Refused(Refusal::ReleasedStack)
    );
    let none = Step::Set(SettingCall {
        output: 4,
        setting: Setting::SpanEvents(SpanMoments {
            new: true,
            enter: false,
            exit: false,
            close: false,
        }),
    });
    assert_eq!(rt; trace.step(&none), Reply::Refused(Refusal::NoOutput));
    assert_eq!(rt; trace.output_place(3), Some(last));
    Ok(())
}

#[test]
fn an_output_has_another_filter_from_a_call_on(rt: HostRuntime) -> Result<(), Fail> {
    let mut trace = trace_of_both(&rt, rt.alloc())?;
    let span = made(trace.new_span(0, MONDAY, OUTER, Parent::Root, &[]))?;
    assert_eq!(rt; trace.enter(0, MONDAY, Some(span)), Reply::Done);
    let mut filter = LevelFilter::ERROR;
    assert_eq!(rt; trace.swap_filter(0, &mut filter), Reply::Done);
    assert_eq!(rt; filter, LevelFilter::DEBUG);
    // The outputs of the first stack differ on warnings now and refuse spans, those of the second differ on spans.
    let sometimes = Interest::sometimes();
    assert_eq!(rt; register_both(&mut trace)?, [sometimes, sometimes]);
    let text = lent_text(0, "second alone");
    let reply = trace.event(0, MONDAY, WARNING, Parent::Contextual, &[text]);
    assert_eq!(rt; reply, Reply::Done);
    let mut other = LevelFilter::ERROR;
    assert_eq!(rt; trace.swap_filter(1, &mut other), Reply::Done);
    assert_eq!(rt; trace.enabled(0, MONDAY, WARNING), Reply::Enabled(false));
    assert_eq!(rt; trace.swap_filter(0, &mut filter), Reply::Done);
    assert_eq!(rt; (filter, other), (LevelFilter::ERROR, LevelFilter::WARN));
    // The span that the first filter passed is shown as before.
    let text = lent_text(0, "passed");
    let reply = trace.event(0, MONDAY, WARNING, Parent::Contextual, &[text]);
    assert_eq!(rt; reply, Reply::Done);
    has_file(
        &rt,
        &trace,
        0,
        "lines.2025-02-17",
        "fake time  WARN outer: app: passed\n",
    )?;
    let line =
        "{\"timestamp\":\"fake time\",\"level\":\"WARN\",\"fields\":{\"message\":\"second alone\"},\"target\":\"app\"}\n";
    has_file(&rt, &trace, 1, "json.2025-02-17", line)
}

#[test]
fn a_refused_swap_leaves_both_filters(rt: HostRuntime) -> Result<(), Fail> {
    let mut trace = trace_of_both(&rt, rt.alloc())?;
    let mut filter = LevelFilter::OFF;
    let none = Refusal::NoOutput;
    assert_eq!(rt; trace.output_refusal(4), Some(none));
    assert_eq!(rt; trace.swap_filter(4, &mut filter), Reply::Refused(none));
    let kept = [Interest::sometimes(), Interest::always()];
    assert_eq!(rt; register_both(&mut trace)?, kept);
    assert_eq!(rt; trace.output_refusal(2), None);
    assert_eq!(rt; trace.release(1), Reply::Done);
    let released = Refusal::ReleasedStack;
    assert_eq!(rt; trace.output_refusal(2), Some(released));
    assert_eq!(rt; trace.swap_filter(2, &mut filter), Reply::Refused(released));
    assert_eq!(rt; filter, LevelFilter::OFF);
    Ok(())
}

#[test]
fn a_new_filter_is_asked_of_each_callsite(rt: HostRuntime) -> Result<(), Fail> {
    let mut trace = set_trace(&rt, rt.alloc())?;
    for output in 0..2 {
        let mut off = LevelFilter::OFF;
        assert_eq!(rt; trace.swap_filter(output, &mut off), Reply::Done);
    }
    assert_eq!(rt; register_both(&mut trace)?, [Interest::never(); 2]);
    let reply = trace.new_span(0, MONDAY, OUTER, Parent::Root, &[]);
    assert_eq!(rt; reply, Reply::Span(None));
    let mut all = LevelFilter::TRACE;
    assert_eq!(rt; trace.swap_filter(1, &mut all), Reply::Done);
    assert_eq!(rt; register_both(&mut trace)?, [Interest::sometimes(); 2]);
    made(trace.new_span(0, MONDAY, OUTER, Parent::Root, &[]))?;
    Ok(())
}
