//! Eight lanes that share a trace, whose one sink hands its lines to a worker's thread.
ghost use Rattle.std.specs.Prelude.{◌≡◌};

use event_formatter_text::Route;
use span_tracing::{
    AnySink, Builder, Closed, EventCall, FieldValue, FileStack, FixedClock, LineSettings,
    MemoryFolder, Moment, NonBlocking, NonBlockingBuilder, Open, OutputKey, OutputSpec, OwnedValue,
    Parent, Reply, Rotation, Seat, Shared, SinkSpec, Site, Step, Timer, Trace, fits, open_trace,
};
use std::alloc::{AllocError, AllocGlobal, Global};
use std::marker::Brand;
use std::process::Abort;
use std::sync::Wait;
use std::sync::ledger::{Blank, Ledger};
use std::test::Fail;
use std::thread::Threads;
use tracing_appender::{Clocked, ClockedAppender, WorkerGuard};
use tracing_core::{Level, LevelFilter};

const MONDAY: Moment = Moment {
    seconds: 1_739_786_460,
    nanoseconds: 0,
};

const LANES: usize = 8;

const EVENTS: u64 = 100;

type LiveTrace<R> = Trace<FileStack<LevelFilter, MemoryFolder, NonBlocking<R>>>;

/// What a worker writes to.
type Files = ClockedAppender<MemoryFolder, FixedClock>;

/// A queue as the builder says, and the worker that writes its lines to a file in memory.
fn live<R: AllocGlobal + Threads + Wait + Copy + Send + Drop + 'static>(
    rt: &R,
    builder: NonBlockingBuilder<'_>,
) -> Result<(NonBlocking<R>, WorkerGuard<Files>), Fail> {
    let alloc = rt.alloc();
    let files = Builder::new(alloc)
        .rotation(Rotation::NEVER)
        .filename_prefix("app");
    let opened = files.build(alloc, MemoryFolder::new(alloc), MONDAY);
    let appender = opened.ok().ok_or("a file")?;
    let started = builder.finish(*rt, alloc, appender.clocked(FixedClock::new(MONDAY)));
    Ok(started.ok().ok_or("a worker")?)
}

/// What a worker wrote to its file.
fn file_of(alloc: Global, files: Files) -> Result<String, Fail> {
    let folder = files.into_appender().into_folder();
    let files = folder.files()?;
    let file = files.first().ok_or("a file")?;
    let text = str::from_utf8(file.bytes).ok().ok_or("a text")?;
    Ok(String::from_str(alloc, text)?)
}

/// A trace of eight lanes over this queue, and a callsite of events that tell their lane and a number.
fn trace_over<R: Wait + Drop>(
    alloc: Global,
    queue: NonBlocking<R>,
) -> Result<(LiveTrace<R>, Site), Fail> {
    let mut sinks = Vec::new(alloc);
    sinks.push(SinkSpec::Live(queue)).ok().ok_or("room")?;
    let lines = LineSettings {
        timer: Timer::Empty,
        ..LineSettings::full()
    };
    let spec = OutputSpec::new(
        OutputKey(1),
        LevelFilter::INFO,
        lines,
        Route::Sink(0),
        sinks,
    );
    let mut outputs = Vec::new(alloc);
    outputs
        .push(spec.ok().ok_or("an output")?)
        .ok()
        .ok_or("room")?;
    let mut trace = open_trace(alloc, outputs, MONDAY)?;
    for thread in 2..=LANES as u64 {
        let _lane = trace.thread(None, thread)?;
    }
    let site = Site::event(&mut trace, "app", "told", Level::INFO, &["lane", "n"])?;
    Ok((trace, site))
}

fn number_at(field: usize, number: u64) -> FieldValue {
    FieldValue {
        field,
        value: OwnedValue::U64(number),
    }
}

/// The events of a lane, with numbers from 0.
fn events(alloc: Global, lane: usize, site: Site) -> Result<Vec<Step>, AllocError> {
    let mut steps = Vec::new(alloc);
    for number in 0..EVENTS {
        steps.push(Step::Event(EventCall {
            lane,
            moment: MONDAY,
            callsite: site.identifier,
            parent: Parent::Contextual,
            values: vec![in alloc; number_at(0, lane as u64), number_at(1, number)]?,
        }))?;
    }
    Ok(steps)
}

/// Lets eight lanes tell their events, each in a thread of its own. The seats have the whole journal.
fn told_by_eight<L: Ledger + Send + Sync, R: AllocGlobal + Threads + Wait + Send + Sync + Drop>(
    rt: &R,
    blank: Blank,
    queue: NonBlocking<R>,
) -> Result<Closed<LiveTrace<R>>, Fail>
    requires { (blank.name ≡ L.name) × (blank.parts ≡ L.parts) × (blank.parts ≡ 9) }
{
    let alloc = rt.alloc();
    let (trace, site) = trace_over(alloc, queue)?;
    let Ok(shared) = Shared::<L, LiveTrace<R>>::new(alloc, blank, 9, trace) else {
        return Err("out of memory".into());
    };
    let mut seats: Vec<Seat<L>> = Vec::new(alloc);
    let mut lists = Vec::new(alloc);
    for lane in 0..LANES {
        let seat = shared.seat(rt, lane).ok().ok_or("a seat")?;
        seats.push(seat)?;
        lists.push(events(alloc, lane, site)?)?;
    }
    if !fits(seats.as_slice(), lists.as_slice()) {
        return Err("lists of other lanes".into());
    }
    shared.run_lanes(rt, &Open, seats.as_mut_slice(), lists.as_slice())?;
    Ok(shared.close(seats).ok().ok_or("the whole journal")?)
}

/// How many lines of each lane stand in the text, each whole and in its lane's order.
fn lines_by_lane(alloc: Global, text: &str) -> Result<[u64; LANES], Fail> {
    let mut told = [0u64; LANES];
    for line in text.lines() {
        let Some(lane) = (0..LANES).find(|lane| {
            let n = told[*lane];
            format!(in alloc; " INFO app: lane={lane} n={n}").is_ok_and(|it| it.as_str() == line)
        }) else {
            return Err("a line of no lane".into());
        };
        told[lane] += 1;
    }
    Ok(told)
}

/// Each step was done, the trace lost nothing, and the queue dropped nothing.
fn nothing_is_lost<R: Wait + Drop>(
    rt: &impl Abort,
    closed: &Closed<LiveTrace<R>>,
) -> Result<(), Fail> {
    assert_eq!(rt; closed.journal.len(), 800);
    for entry in closed.journal.as_slice() {
        assert_eq!(rt; entry.reply, Reply::Done);
    }
    let trace = &closed.trace;
    assert_eq!(rt; (trace.starved(0), trace.lost(0)), (Some(0), Some(0)));
    let Some(AnySink::Live(sink)) = trace.sink(0) else {
        return Err("a live sink".into());
    };
    assert_eq!(rt; (sink.missed(), sink.lost()), (0, 0));
    Ok(())
}

/// The worker is waited for, whatever came of the lanes.
fn logged<
    L: Ledger + Send + Sync,
    R: Abort + AllocGlobal + Threads + Wait + Copy + Send + Sync + Drop + 'static,
>(rt: &R, blank: Blank) -> Result<(), Fail>
    requires { (blank.name ≡ L.name) × (blank.parts ≡ L.parts) × (blank.parts ≡ 9) }
{
    let alloc = rt.alloc();
    let (queue, worker) = live(rt, NonBlockingBuilder::default())?;
    let counter = queue.error_counter();
    let came = told_by_eight::<L, R>(rt, blank, queue);
    let files: Files = worker.finish(rt);
    nothing_is_lost(rt, &came?)?;
    assert_eq!(rt; counter?.dropped_lines(), 0);
    let text = file_of(alloc, files)?;
    assert_eq!(rt; lines_by_lane(alloc, text.as_str())?, [EVENTS; LANES]);
    Ok(())
}

/// A lossy queue with room for all drops nothing: all 800 lines stand in the file.
#[test]
fn eight_lanes_log_to_a_live_file(rt: HostRuntime) -> Result<(), Fail> {
    logged::<Brand, HostRuntime>(&rt, Blank::new(9))
}
