//! Folders that refuse some calls or cut a write short, each with what stands in its files afterwards.

use crate::tests::common::{MONDAY, TUESDAY, event_at, lent_number, lent_text, span_at};
use crate::{
    Builder, FaultyFolder, FileStack, FixedText, Folder, LineSettings, MemoryFolder, Moment,
    OutputKey, OutputSpec, Parent, Reply, Rotation, Route, SinkSpec, Timer, Trace, open_trace,
};
use std::alloc::Global;
use std::process::Abort;
use std::test::Fail;
use tracing_core_fields::{FieldSet, Identifier, Level, LevelFilter};

type Faulty = Trace<FileStack<LevelFilter, FaultyFolder>>;

type Specs = Vec<OutputSpec<LevelFilter, FaultyFolder>>;

/// 2025-02-17T23:59:59Z.
const MONDAY_LATE: Moment = Moment {
    seconds: 1_739_836_799,
    nanoseconds: 0,
};

/// 2025-02-19T00:00:00Z.
const WEDNESDAY: Moment = Moment {
    seconds: 1_739_923_200,
    nanoseconds: 0,
};

/// 2025-02-17T11:00:00Z, and a minute later.
const ELEVEN: Moment = Moment {
    seconds: 1_739_790_000,
    nanoseconds: 0,
};

const PAST_ELEVEN: Moment = Moment {
    seconds: 1_739_790_060,
    nanoseconds: 0,
};

const OUTER: Identifier = Identifier(1);

const HAPPENED: Identifier = Identifier(2);

const DETAIL: Identifier = Identifier(3);

/// A file for each day.
fn days(alloc: Global) -> Builder {
    Builder::new(alloc)
        .rotation(Rotation::DAILY)
        .filename_prefix("my_prefix")
        .filename_suffix("log")
}

/// An empty folder that refuses the calls with these numbers.
fn refusing(alloc: Global, numbers: &[u64]) -> Result<FaultyFolder, Fail> {
    let refused = Vec::from_slice(alloc, numbers)?;
    Ok(FaultyFolder::new(MemoryFolder::new(alloc), refused))
}

/// An empty folder that refuses all calls but its first, which opens a file.
fn broken(alloc: Global) -> Result<FaultyFolder, Fail> {
    let mut numbers = Vec::new(alloc);
    for number in 2..100 {
        numbers.push(number)?;
    }
    refusing(alloc, numbers.as_slice())
}

/// Adds an output whose lines go to all of these sinks, of which there are one or two.
fn add_output(
    alloc: Global,
    outputs: &mut Specs,
    filter: LevelFilter,
    lines: LineSettings,
    sinks: Vec<SinkSpec<FaultyFolder>>,
) -> Result<(), Fail> {
    let first = Route::Sink(0);
    let route = if sinks.len() == 1 {
        first
    } else {
        Route::Tee(Box::new(alloc, first)?, Box::new(alloc, Route::Sink(1))?)
    };
    let time = FixedText::new(String::from_str(alloc, "fake time")?);
    let lines = LineSettings {
        timer: Timer::Fixed(time),
        level: false,
        ..lines
    };
    let key = OutputKey(outputs.len() as u32);
    let made = OutputSpec::new(key, filter, lines, route, sinks);
    let output = made.map_err(|refused| refused.error)?;
    outputs.push(output).ok().ok_or("room")?;
    Ok(())
}

/// A trace of these outputs with callsites of a span and two events, the second at DEBUG.
fn trace_of(alloc: Global, outputs: Specs) -> Result<Faulty, Fail> {
    let mut trace = open_trace(alloc, outputs, MONDAY)?;
    let outer = FieldSet::new(&["x"], OUTER);
    trace.register(OUTER, &span_at("outer", Level::INFO, outer))?;
    let happened = FieldSet::new(&["message", "n"], HAPPENED);
    trace.register(HAPPENED, &event_at("e", Level::INFO, happened))?;
    let detail = FieldSet::new(&["message"], DETAIL);
    trace.register(DETAIL, &event_at("d", Level::DEBUG, detail))?;
    Ok(trace)
}

/// A trace of full lines from INFO on to these sinks.
fn trace_over(alloc: Global, sinks: Vec<SinkSpec<FaultyFolder>>) -> Result<Faulty, Fail> {
    let mut outputs = Vec::new(alloc);
    let lines = LineSettings::full();
    add_output(alloc, &mut outputs, LevelFilter::INFO, lines, sinks)?;
    trace_of(alloc, outputs)
}

/// A trace of full lines to one file.
fn trace_to(alloc: Global, builder: Builder, folder: FaultyFolder) -> Result<Faulty, Fail> {
    let mut sinks = Vec::new(alloc);
    let sink = SinkSpec::Direct(builder, folder);
    sinks.push(sink).ok().ok_or("room")?;
    trace_over(alloc, sinks)
}

fn tell(rt: &impl Abort, trace: &mut Faulty, moment: Moment, text: &str) {
    let message = lent_text(0, text);
    let reply = trace.event(0, moment, HAPPENED, Parent::Contextual, &[message]);
    assert_eq!(rt; reply, Reply::Done);
}

fn folder_of(trace: &Faulty, sink: usize) -> Result<&FaultyFolder, Fail> {
    let appender = trace.sink(sink).ok_or("a sink")?.appender();
    Ok(appender.ok_or("files")?.folder())
}

/// Compares the files of a sink with these names and texts.
fn has_files(
    rt: &impl Abort,
    trace: &Faulty,
    sink: usize,
    wanted: &[(&str, &str)],
) -> Result<(), Fail> {
    let files = folder_of(trace, sink)?.inner().files()?;
    assert_eq!(rt; files.len(), wanted.len());
    for (file, (name, text)) in files.iter().zip(wanted) {
        assert_eq!(rt; file.name, *name);
        let shown = str::from_utf8(file.bytes).ok().unwrap_or("not UTF-8");
        assert_eq!(rt; shown, *text, "in {name}");
    }
    Ok(())
}

/// Compares how many changes of files, calls of retention and writes failed at a sink.
fn has_faults(
    rt: &impl Abort,
    trace: &Faulty,
    sink: usize,
    wanted: (usize, usize, usize),
) -> Result<(), Fail> {
    let faults = trace.sink(sink).ok_or("a sink")?.faults();
    assert_eq!(rt; (faults.switches, faults.retentions, faults.writes), wanted);
    Ok(())
}

/// The opening is call 1. The first write takes one byte, and the next one is refused.
#[test]
fn a_line_that_is_cut_short_loses_its_rest_alone(rt: HostRuntime) -> Result<(), Fail> {
    let alloc = rt.alloc();
    let short = Vec::from_slice(alloc, &[2])?;
    let folder = refusing(alloc, &[3])?.with_short_writes(short, 1);
    let mut trace = trace_to(alloc, days(alloc), folder)?;
    tell(&rt, &mut trace, MONDAY, "a");
    tell(&rt, &mut trace, MONDAY, "b");
    let wanted = [("my_prefix.2025-02-17.log", "ffake time app: b\n")];
    has_files(&rt, &trace, 0, &wanted)?;
    has_faults(&rt, &trace, 0, (0, 0, 1))
}

/// The building lists and opens, and the first line is call 3. On Tuesday retention lists and removes Monday's file; the openings are calls
/// 6 and 8.
#[test]
fn lines_go_to_a_removed_file_until_one_is_opened(rt: HostRuntime) -> Result<(), Fail> {
    let alloc = rt.alloc();
    let builder = days(alloc).max_log_files(1);
    let mut trace = trace_to(alloc, builder, refusing(alloc, &[6, 8])?)?;
    tell(&rt, &mut trace, MONDAY, "a");
    has_files(
        &rt,
        &trace,
        0,
        &[("my_prefix.2025-02-17.log", "fake time app: a\n")],
    )?;
    tell(&rt, &mut trace, TUESDAY, "b");
    has_files(&rt, &trace, 0, &[])?;
    tell(&rt, &mut trace, WEDNESDAY, "c");
    let wanted = [("my_prefix.2025-02-19.log", "fake time app: c\n")];
    has_files(&rt, &trace, 0, &wanted)?;
    has_faults(&rt, &trace, 0, (1, 0, 0))
}

/// On Tuesday the listing is call 4.
#[test]
fn files_stay_where_the_listing_is_refused(rt: HostRuntime) -> Result<(), Fail> {
    let alloc = rt.alloc();
    let builder = days(alloc).max_log_files(1);
    let mut trace = trace_to(alloc, builder, refusing(alloc, &[4])?)?;
    tell(&rt, &mut trace, MONDAY, "a");
    tell(&rt, &mut trace, TUESDAY, "b");
    let wanted = [
        ("my_prefix.2025-02-17.log", "fake time app: a\n"),
        ("my_prefix.2025-02-18.log", "fake time app: b\n"),
    ];
    has_files(&rt, &trace, 0, &wanted)?;
    has_faults(&rt, &trace, 0, (0, 1, 0))
}

/// The building opens and links. At eleven the opening is call 3, and the link is call 4. The file that was opened stays empty.
#[test]
fn a_refused_link_keeps_the_old_file_for_the_hour(rt: HostRuntime) -> Result<(), Fail> {
    let alloc = rt.alloc();
    let builder = days(alloc)
        .rotation(Rotation::HOURLY)
        .latest_symlink("latest");
    let mut trace = trace_to(alloc, builder, refusing(alloc, &[4])?)?;
    tell(&rt, &mut trace, ELEVEN, "a");
    tell(&rt, &mut trace, PAST_ELEVEN, "b");
    let wanted = [
        (
            "my_prefix.2025-02-17-10.log",
            "fake time app: a\nfake time app: b\n",
        ),
        ("my_prefix.2025-02-17-11.log", ""),
    ];
    has_files(&rt, &trace, 0, &wanted)?;
    has_faults(&rt, &trace, 0, (1, 0, 0))?;
    let folder = folder_of(&trace, 0)?;
    assert_eq!(rt; folder.failures(), 1);
    let target = folder.inner().link_target("latest");
    assert_eq!(rt; target, Some("my_prefix.2025-02-17-10.log"));
    Ok(())
}

/// Tells a line to two queued sinks, and lets their workers write it on the next day. Answers the replies.
fn told_late(
    rt: &impl Abort,
    alloc: Global,
    first: FaultyFolder,
) -> Result<(Faulty, [Reply; 2]), Fail> {
    let mut sinks = Vec::new(alloc);
    for folder in [first, refusing(alloc, &[])?] {
        let sink = SinkSpec::Queued(days(alloc), folder, 128_000, true);
        sinks.push(sink).ok().ok_or("room")?;
    }
    let mut trace = trace_over(alloc, sinks)?;
    tell(rt, &mut trace, MONDAY_LATE, "late");
    let replies = [trace.work(0, 9, TUESDAY), trace.work(1, 9, TUESDAY)];
    Ok((trace, replies))
}

#[test]
fn a_broken_folder_changes_no_reply_and_no_other_sink(rt: HostRuntime) -> Result<(), Fail> {
    let alloc = rt.alloc();
    let wanted = [
        ("my_prefix.2025-02-17.log", ""),
        ("my_prefix.2025-02-18.log", "fake time app: late\n"),
    ];
    let (whole, replies) = told_late(&rt, alloc, refusing(alloc, &[])?)?;
    assert_eq!(rt; replies, [Reply::Worked(1), Reply::Worked(1)]);
    has_files(&rt, &whole, 0, &wanted)?;
    has_files(&rt, &whole, 1, &wanted)?;
    let (faulty, others) = told_late(&rt, alloc, broken(alloc)?)?;
    assert_eq!(rt; others, replies);
    has_files(&rt, &faulty, 0, &[("my_prefix.2025-02-17.log", "")])?;
    has_files(&rt, &faulty, 1, &wanted)?;
    has_faults(&rt, &faulty, 0, (1, 0, 1))
}

/// A span, an event in it, and an event at DEBUG, under an output with full lines to a file. Another output stands before it.
fn beside(
    rt: &impl Abort,
    alloc: Global,
    filter: LevelFilter,
    other: SinkSpec<FaultyFolder>,
) -> Result<Faulty, Fail> {
    let mut outputs = Vec::new(alloc);
    let (mut first, mut second) = (Vec::new(alloc), Vec::new(alloc));
    first.push(other).ok().ok_or("room")?;
    add_output(alloc, &mut outputs, filter, LineSettings::json(), first)?;
    let sink = SinkSpec::Direct(days(alloc), refusing(alloc, &[])?);
    second.push(sink).ok().ok_or("room")?;
    let lines = LineSettings::full();
    add_output(alloc, &mut outputs, LevelFilter::INFO, lines, second)?;
    let mut trace = trace_of(alloc, outputs)?;
    let here = Parent::Contextual;
    let Reply::Span(Some(span)) = trace.new_span(0, MONDAY, OUTER, here, &[lent_number(0, 42)])
    else {
        return Err("a span".into());
    };
    assert_eq!(rt; trace.enter(0, MONDAY, Some(span)), Reply::Done);
    let hi = [lent_text(0, "hi"), lent_number(1, 3)];
    assert_eq!(rt; trace.event(0, MONDAY, HAPPENED, here, &hi), Reply::Done);
    let no = [lent_text(0, "no")];
    assert_eq!(rt; trace.event(0, MONDAY, DETAIL, here, &no), Reply::Done);
    Ok(trace)
}

/// The other output sees more, has a full queue and a broken folder; or it sees nothing.
#[test]
fn an_outputs_file_is_the_same_beside_any_other_output(rt: HostRuntime) -> Result<(), Fail> {
    let alloc = rt.alloc();
    let wanted = [(
        "my_prefix.2025-02-17.log",
        "fake time outer{x=42}: app: hi n=3\n",
    )];
    let queued = SinkSpec::Queued(days(alloc), broken(alloc)?, 1, true);
    let mut trace = beside(&rt, alloc, LevelFilter::TRACE, queued)?;
    assert_eq!(rt; trace.work(0, 9, MONDAY), Reply::Worked(1));
    has_files(&rt, &trace, 1, &wanted)?;
    has_files(&rt, &trace, 0, &[("my_prefix.2025-02-17.log", "")])?;
    has_faults(&rt, &trace, 0, (0, 0, 1))?;
    let sink = trace.sink(0).ok_or("a sink")?;
    assert_eq!(rt; sink.dropped_lines(), Some(1));
    let direct = SinkSpec::Direct(days(alloc), refusing(alloc, &[])?);
    let trace = beside(&rt, alloc, LevelFilter::OFF, direct)?;
    has_files(&rt, &trace, 1, &wanted)?;
    has_files(&rt, &trace, 0, &[("my_prefix.2025-02-17.log", "")])
}
