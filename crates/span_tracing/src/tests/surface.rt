//! Each public call of a trace once.

use crate::laws::{
    leveled_outputs_are_honest, levels_answer, levels_are_honest, outputs_go_alone,
    sites_stay_ready, traces_start_ready,
};
use crate::tests::common::{MONDAY, event_at, lent_number, output_over, span_at};
use crate::value::Lend;
use crate::{
    AnySink, Builder, EnabledCall, Fields, FileStack, FmtSpan, Format, LineFormat, LineSettings,
    LineSink, Lines, LiveSink, MemoryFolder, NoLive, OutputKey, OutputSpec, Parent, RecordedQueue,
    Refusal, Reply, Route, RoutedSinks, SinkSpec, Site, SpanName, Step, Timer, Trace,
    calls_make_runs, daily_output, open_stack, open_trace,
};
use std::alloc::Global;
use std::process::Abort;
use std::test::Fail;
use tracing_core_fields::{FieldSet, Identifier, Level, LevelFilter};
use tracing_core_moments::At;

type Queued = Trace<FileStack<LevelFilter, MemoryFolder>>;

type Sinks = RoutedSinks<AnySink<MemoryFolder>>;

type Shape = Format<LineFormat, Timer>;

const PARENT: Parent = Parent::Contextual;

/// The sites of a trace, and one in which nobody is interested.
#[derive(Clone, Copy)]
struct Sites {
    span: Site,
    event: Site,
    detail: Site,
}

/// An output whose one sink has a queue.
fn output_of(alloc: Global, key: u32) -> Result<Vec<OutputSpec<LevelFilter, MemoryFolder>>, Fail> {
    let sink = SinkSpec::Queued(Builder::new(alloc), MemoryFolder::new(alloc), 9, true);
    let sinks = vec![in alloc; sink].ok().ok_or("room")?;
    output_over(alloc, key, LineSettings::full(), Route::Sink(0), sinks)
}

/// A trace of two stacks and two lanes.
fn set_up(rt: &impl Abort, alloc: Global) -> Result<Queued, Fail> {
    let mut trace = Trace::new(alloc);
    for key in 0..2u32 {
        let stack = open_stack(alloc, output_of(alloc, key)?, MONDAY)?;
        let handle = trace.add_stack(stack).ok().ok_or("a handle")?;
        assert_eq!(rt; handle, key as usize);
        assert_eq!(rt; trace.thread(None, u64::from(key))?, handle);
    }
    assert_eq!(rt; trace.set_global_default(0), Reply::Done);
    assert_eq!(rt; trace.stack_count(), 2);
    assert!(rt; trace.stack(1).is_some() && trace.stack(2).is_none());
    assert!(rt; trace.sink(1).is_some() && trace.sink(2).is_none());
    assert!(rt; trace.output_place(1).is_some() && trace.output_place(2).is_none());
    assert_eq!(rt; trace.output_refusal(1), None);
    assert_eq!(rt; trace.output_refusal(2), Some(Refusal::NoOutput));
    Ok(trace)
}

fn sites_of(rt: &impl Abort, trace: &mut Queued) -> Result<Sites, Fail> {
    let span = Site::span(trace, "app", "work", Level::INFO, &["n"])?;
    let event = Site::event(trace, "app", "e", Level::INFO, &["n"])?;
    let fields = FieldSet::new(&["n"], Identifier(7));
    let detail = Site::register(trace, &event_at("detail", Level::DEBUG, fields))?;
    let fields = FieldSet::new(&[], Identifier(8));
    trace.register(Identifier(8), &span_at("other", Level::INFO, fields))?;
    assert!(rt; trace.callsite(Identifier(8)).is_some());
    assert!(rt; trace.callsite(Identifier(9)).is_none());
    assert!(rt; trace.is_off(detail.index) && !trace.is_off(event.index));
    assert_eq!(rt; event.field("n"), Ok(0));
    Ok(Sites {
        span,
        event,
        detail,
    })
}

fn new_span(trace: &mut Queued, sites: Sites, n: u64) -> Result<Option<SpanName>, Fail> {
    let site = sites.span.identifier;
    Ok(
        trace
            .new_span(0, MONDAY, site, PARENT, &[lent_number(0, n)])
            .span()?,
    )
}

/// Calls on spans, and events. They leave one line.
fn spans(rt: &impl Abort, trace: &mut Queued, sites: Sites) -> Result<(), Fail> {
    let event = sites.event.identifier;
    assert_eq!(rt; trace.enabled(0, MONDAY, event), Reply::Enabled(true));
    let (one, two) = (new_span(trace, sites, 1)?, new_span(trace, sites, 2)?);
    let values = [lent_number(0, 3)];
    for reply in [
        trace.enter(0, MONDAY, one),
        trace.record(0, MONDAY, one, &values),
        trace.record_follows_from(0, MONDAY, one, two),
        trace.clone_span(0, MONDAY, one),
        trace.event(0, MONDAY, event, PARENT, &values),
        trace.exit(0, MONDAY, one),
    ] {
        assert_eq!(rt; reply, Reply::Done);
    }
    for (span, closes) in [(one, false), (one, true), (two, true)] {
        assert_eq!(rt; trace.try_close(0, MONDAY, span), Reply::Closed(closes));
    }
    Ok(())
}

/// The same by macros. They leave one line.
fn macros(rt: &impl Abort, trace: &mut Queued, sites: Sites) -> Result<(), Fail> {
    let n = 3_u64;
    assert_eq!(rt; crate::event!(trace, 0, MONDAY, sites.event, n = n), Ok(()));
    assert_eq!(rt;
        crate::event!(trace, 0, MONDAY, sites.detail, n = n),
        Ok(())
    );
    let span = crate::span!(trace, 0, MONDAY, sites.span, n = 1)?;
    assert!(rt; span.is_some());
    assert_eq!(rt;
        crate::record!(trace, 0, MONDAY, sites.span, span, n = n),
        Ok(())
    );
    assert_eq!(rt; trace.try_close(0, MONDAY, span), Reply::Closed(true));
    Ok(())
}

/// Steps as values, alone and in runs. They leave nothing.
fn runs(rt: &impl Abort, trace: &mut Queued, sites: Sites) -> Result<(), Fail> {
    let question = Step::Enabled(EnabledCall {
        lane: 0,
        moment: MONDAY,
        callsite: sites.event.identifier,
    });
    let yes = Reply::Enabled(true);
    assert_eq!(rt; trace.step(&question), yes);
    let steps = [question];
    assert!(rt; trace.run(&steps)?.as_slice() == [yes].as_slice());
    assert!(rt; trace.run_asking(&steps)?.as_slice() == [yes].as_slice());
    Ok(())
}

/// Settings, and the filter of an output.
fn outputs(rt: &impl Abort, trace: &mut Queued, sites: Sites) {
    assert_eq!(rt; trace.set_ansi(0, true), Reply::Done);
    assert_eq!(rt; trace.set_span_events(0, FmtSpan::CLOSE), Reply::Done);
    let mut filter = LevelFilter::DEBUG;
    assert_eq!(rt; trace.swap_filter(0, &mut filter), Reply::Done);
    assert_eq!(rt; filter, LevelFilter::INFO);
    trace.rebuild_interest_cache();
    assert!(rt; !trace.is_off(sites.detail.index));
}

/// Stacks by their handles, until the second is taken.
fn handles(rt: &impl Abort, trace: &mut Queued) {
    assert_eq!(rt; trace.set_default(1, Some(1)), Reply::Guard(0));
    assert_eq!(rt; trace.reset_default(1, 0), Reply::Done);
    assert_eq!(rt; trace.clone_handle(1), Reply::Handle(2));
    for handle in 1..3usize {
        assert!(rt; trace.take_retired(1).is_none());
        assert_eq!(rt; trace.release(handle), Reply::Done);
    }
    assert!(rt; trace.take_retired(1).is_some());
}

/// Calls on the queue, in which two lines wait.
fn queues(rt: &impl Abort, trace: &mut Queued) {
    assert!(rt; !trace.is_busy());
    assert_eq!(rt; trace.shutdown(0), Reply::Done);
    assert_eq!(rt; trace.work(0, 9, MONDAY), Reply::Worked(2));
    assert_eq!(rt; trace.admit(0), Reply::Refused(Refusal::NothingHeld));
    assert_eq!(rt; (trace.starved(0), trace.lost(0)), (Some(0), Some(0)));
}

#[test]
fn surface_span_tracing(rt: HostRuntime) -> Result<(), Fail> {
    let alloc = rt.alloc();
    let mut trace = set_up(&rt, alloc)?;
    let sites = sites_of(&rt, &mut trace)?;
    spans(&rt, &mut trace, sites)?;
    macros(&rt, &mut trace, sites)?;
    runs(&rt, &mut trace, sites)?;
    outputs(&rt, &mut trace, sites);
    handles(&rt, &mut trace);
    queues(&rt, &mut trace);
    let opened = open_trace(alloc, output_of(alloc, 1)?, MONDAY)?;
    assert_eq!(rt; opened.stack_count(), 1);
    // no directory is made before an output is opened
    let info = LevelFilter::INFO;
    daily_output(rt, OutputKey(1), info, LineSettings::full(), "logs", "app")?;
    Ok(())
}

#[test]
fn surface_live_sinks(rt: HostRuntime) -> Result<(), Fail> {
    let at = At {
        lane: 0,
        seconds: MONDAY.seconds,
        nanoseconds: 0,
    };
    let mut sink = LiveSink::new(RecordedQueue::new(rt.alloc()));
    sink.take(at, Level::INFO, b"a\n");
    assert!(rt; !sink.is_holding());
    assert_eq!(rt; sink.queue().lines().len(), 1);
    assert_eq!(rt; (sink.missed(), sink.lost()), (0, 0));
    let queue = sink.into_queue();
    assert_eq!(rt; queue.lines().len(), 1);
    assert!(rt; queue.lines()[0].as_slice() == b"a\n".as_slice());
    let mut nowhere = LiveSink::new(NoLive);
    nowhere.take(at, Level::INFO, b"a\n");
    assert_eq!(rt; (nowhere.missed(), nowhere.lost()), (0, 1));
    Ok(())
}

#[test]
fn surface_laws(_rt: HostRuntime) {
    calls_make_runs::<Fields, Shape, LevelFilter, MemoryFolder, NoLive>();
    levels_are_honest::<Lines>();
    leveled_outputs_are_honest::<MemoryFolder, NoLive>();
    traces_start_ready::<Fields, Shape, LevelFilter, Sinks>();
    sites_stay_ready::<Fields, Shape, LevelFilter, Sinks>();
    outputs_go_alone::<Fields>();
    levels_answer::<Fields, Shape, Sinks>();
}
