//! Lanes that share a trace, each in a thread of its own.
ghost use Rattle.std.specs.Prelude.{◌≡◌};

use crate::tests::common::{MONDAY, number_field};
use crate::{
    EventCall, FileStack, LineSettings, MemoryFolder, NewSpanCall, OutputKey, OutputSpec, Parent,
    Reply, Route, SinkSpec, Site, SpanCall, SpanName, Step, Trace, open_trace,
};
use span_tracing_shared::{Closed, Entry, Open, Shared, fits};
use std::alloc::{AllocError, AllocGlobal, Global};
use std::marker::Brand;
use std::process::Abort;
use std::sync::Wait;
use std::sync::ledger::{Blank, Ledger};
use std::test::Fail;
use std::thread::Threads;
use tracing_appender_rolling::{Builder, Rotation};
use tracing_core_fields::{Level, LevelFilter};

type LanesTrace = Trace<FileStack<LevelFilter, MemoryFolder>>;

/// A trace of two lanes and one output, with a callsite of spans and one of events.
fn trace_of_two(alloc: Global) -> Result<(LanesTrace, Site, Site), Fail> {
    let files = Builder::new(alloc)
        .rotation(Rotation::NEVER)
        .filename_prefix("app");
    let lines = LineSettings::full();
    let folder = MemoryFolder::new(alloc);
    let output = OutputSpec::file(alloc, OutputKey(0), LevelFilter::INFO, lines, files, folder)?;
    let mut trace = open_trace(alloc, vec![in alloc; output]?, MONDAY)?;
    let _lane = trace.thread(None, 2)?;
    let span = Site::span(&mut trace, "app", "work", Level::INFO, &["n"])?;
    let event = Site::event(&mut trace, "app", "e", Level::INFO, &["n"])?;
    Ok((trace, span, event))
}

/// What a lane does: it makes a span of its number, in which it tells so many events, and closes it. Spans have the ids 1 and 2, in the
/// order in which the lanes come, so each lane tries both.
fn steps_of(
    alloc: Global,
    lane: usize,
    event: Site,
    name: Option<SpanName>,
    count: u64,
) -> Result<Vec<Step>, AllocError> {
    let call = SpanCall {
        lane,
        moment: MONDAY,
        span: name,
    };
    let mut steps = vec![in alloc; Step::Enter(call)]?;
    for number in 0..count {
        steps.push(Step::Event(EventCall {
            lane,
            moment: MONDAY,
            callsite: event.identifier,
            parent: Parent::Contextual,
            values: vec![in alloc; number_field(0, number)]?,
        }))?;
    }
    steps.push(Step::Exit(call))?;
    steps.push(Step::TryClose(call))?;
    Ok(steps)
}

/// The span of a lane, made with its number.
fn span_of(alloc: Global, lane: usize, site: Site) -> Result<Step, AllocError> {
    Ok(Step::NewSpan(NewSpanCall {
        lane,
        moment: MONDAY,
        callsite: site.identifier,
        parent: Parent::Root,
        values: vec![in alloc; number_field(0, lane as u64)]?,
    }))
}

/// How many entries of a lane a journal has, each of which was done.
fn done_by(lane: usize, journal: &[Entry]) -> usize {
    journal
        .iter()
        .filter(|entry| entry.lane == lane && !matches!(entry.reply, Reply::Refused(_)))
        .count()
}

fn share<L: Ledger + Send + Sync, R: Abort + AllocGlobal + Threads + Wait + Sync>(
    rt: &R,
    blank: Blank,
) -> Result<(), Fail>
    requires { (blank.name ≡ L.name) × (blank.parts ≡ L.parts) × (blank.parts ≡ 3) }
{
    let alloc = rt.alloc();
    let (trace, span, event) = trace_of_two(alloc)?;
    let Ok(shared) = Shared::<L, LanesTrace>::new(alloc, blank, 3, trace) else {
        return Err("out of memory".into());
    };
    let mut seats = Vec::new(alloc);
    let mut lists = Vec::new(alloc);
    for lane in 0..2usize {
        let mut seat = shared.seat(rt, lane).ok().ok_or("a seat")?;
        let Reply::Span(name) = shared.call(rt, &mut seat, &span_of(alloc, lane, span)?)? else {
            return Err("a span".into());
        };
        assert!(rt; name.is_some());
        seats.push(seat)?;
        lists.push(steps_of(alloc, lane, event, name, 50)?)?;
    }
    assert!(rt; fits(seats.as_slice(), lists.as_slice()));
    shared.run_lanes(rt, &Open, seats.as_mut_slice(), lists.as_slice())?;
    let Ok(Closed { trace, journal, .. }) = shared.close(seats) else {
        return Err("torn".into());
    };
    assert_eq!(rt; journal.len(), 2 * 54);
    for lane in 0..2usize {
        assert_eq!(rt; done_by(lane, journal.as_slice()), 54);
    }
    for entry in journal.as_slice() {
        let is_asked = matches!(*entry.step, Step::NewSpan(_) | Step::Event(_));
        assert_eq!(rt; entry.mask.len(), if is_asked { 1 } else { 0 });
        assert!(rt; !is_asked || entry.mask.get(0) == Some(true));
    }
    lines_are_whole(rt, &trace)
}

/// Each lane's events stand in the file as whole lines in its own span, in the lane's order.
fn lines_are_whole<R: Abort + AllocGlobal>(rt: &R, trace: &LanesTrace) -> Result<(), Fail> {
    let stack = trace.stack(0).ok_or("a stack")?;
    let [routed] = stack.sinks() else {
        return Err("an output".into());
    };
    let [sink] = routed.sinks() else {
        return Err("a sink".into());
    };
    let files = sink.appender().ok_or("a folder")?.folder().files()?;
    let [file] = files.as_slice() else {
        return Err("a file".into());
    };
    let text = str::from_utf8(file.bytes).ok().ok_or("a text")?;
    let mut told = [0u64; 2];
    for line in text.lines() {
        let Some(lane) = (0..2usize).find(|lane| {
            let n = told[*lane];
            format!(in rt.alloc();
                "2025-02-17T10:01:00.000000Z  INFO work{{n={lane}}}: app: n={n}"
            ).is_ok_and(|it| it.as_str() == line)
        }) else {
            return Err("a line of no lane".into());
        };
        told[lane] += 1;
    }
    assert_eq!(rt; told, [50, 50]);
    Ok(())
}

#[test]
fn lanes_share_a_trace(rt: HostRuntime) -> Result<(), Fail> {
    share::<Brand, HostRuntime>(&rt, Blank::new(3))
}
