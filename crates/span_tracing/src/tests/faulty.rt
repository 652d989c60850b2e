// Folders that refuse, under a trace.

use crate::tests::common::{MONDAY, TUESDAY, event_at, lent_text, output_over};
use crate::{
    Builder, FaultyFolder, FileStack, FolderFault, InitContext, LineSettings, MemoryFolder, Moment,
    OutputKey, Parent, Refusal, Reply, Rotation, Route, SinkSpec, Timer, Trace, open_stack,
};
use std::alloc::Global;
use std::process::Abort;
use std::test::Fail;
use tracing_core_fields::{FieldSet, Identifier, Level, LevelFilter};

type Faulty = Trace<FileStack<LevelFilter, FaultyFolder>>;

/// 2025-02-18T12:00:00Z.
const TUESDAY_NOON: Moment = Moment {
    seconds: 1_739_880_000,
    nanoseconds: 0,
};

/// 2025-02-19T00:00:00Z.
const WEDNESDAY: Moment = Moment {
    seconds: 1_739_923_200,
    nanoseconds: 0,
};

const EVENT: Identifier = Identifier(2);

/// A sink over a file for each day, in a folder that refuses the calls with these numbers.
fn sink_of(alloc: Global, refused: &[u64]) -> Result<SinkSpec<FaultyFolder>, Fail> {
    let files = Builder::new(alloc)
        .rotation(Rotation::DAILY)
        .filename_prefix("app");
    let refused = Vec::from_slice(alloc, refused)?;
    let folder = FaultyFolder::new(MemoryFolder::new(alloc), refused);
    Ok(SinkSpec::Direct(files, folder))
}

fn opened(
    alloc: Global,
    route: Route,
    sinks: Vec<SinkSpec<FaultyFolder>>,
) -> Result<FileStack<LevelFilter, FaultyFolder>, Fail> {
    let lines = LineSettings {
        timer: Timer::Empty,
        level: false,
        ..LineSettings::full()
    };
    let outputs = output_over(alloc, 0, lines, route, sinks)?;
    Ok(open_stack(alloc, outputs, MONDAY)?)
}

/// A trace whose lane 0 reaches one output of these sinks, with a callsite of events.
fn trace_over(
    rt: &impl Abort,
    alloc: Global,
    route: Route,
    sinks: Vec<SinkSpec<FaultyFolder>>,
) -> Result<Faulty, Fail> {
    let mut trace = Trace::new(alloc);
    trace.thread(None, 1)?;
    let stack = opened(alloc, route, sinks)?;
    trace.add_stack(stack).ok().ok_or("a handle")?;
    let names = FieldSet::new(&["message"], EVENT);
    trace.register(EVENT, &event_at("e", Level::INFO, names))?;
    assert_eq!(rt; trace.set_global_default(0), Reply::Done);
    Ok(trace)
}

fn tell(rt: &impl Abort, trace: &mut Faulty, moment: Moment, text: &str) -> Result<(), Fail> {
    let message = lent_text(0, text);
    let reply = trace.event(0, moment, EVENT, Parent::Contextual, &[message]);
    assert_eq!(rt; reply, Reply::Done);
    Ok(())
}

/// Compares the files of a sink with these names and texts.
fn has_files(
    rt: &impl Abort,
    trace: &Faulty,
    sink: usize,
    wanted: &[(&str, &str)],
) -> Result<(), Fail> {
    let sink = trace.sink(sink).ok_or("a sink")?;
    let files = sink.appender().ok_or("a folder")?.folder().inner().files()?;
    assert_eq!(rt; files.len(), wanted.len());
    for (file, (name, text)) in files.iter().zip(wanted) {
        assert_eq!(rt; file.name, *name);
        let shown = str::from_utf8(file.bytes).ok().unwrap_or("not UTF-8");
        assert_eq!(rt; shown, *text, "in {name}");
    }
    Ok(())
}

/// The opening of Tuesday's file is call 2, the making of directories call 3, and the second opening call 4.
#[test]
fn a_failed_switch_is_tried_once_a_day(rt: HostRuntime) -> Result<(), Fail> {
    let alloc = rt.alloc();
    let mut sinks = Vec::new(alloc);
    sinks.push(sink_of(alloc, &[2, 4])?).ok().ok_or("room")?;
    let mut trace = trace_over(&rt, alloc, Route::Sink(0), sinks)?;
    tell(&rt, &mut trace, TUESDAY, "a")?;
    tell(&rt, &mut trace, TUESDAY_NOON, "b")?;
    tell(&rt, &mut trace, WEDNESDAY, "c")?;
    let wanted = [
        ("app.2025-02-17", "app: a\napp: b\n"),
        ("app.2025-02-19", "app: c\n"),
    ];
    has_files(&rt, &trace, 0, &wanted)?;
    let faults = trace.sink(0).ok_or("a sink")?.faults();
    assert_eq!(rt;
        (faults.switches, faults.retentions, faults.writes),
        (1, 0, 0)
    );
    assert_eq!(rt; faults.last, Some(FolderFault::Refused));
    assert_eq!(rt; trace.starved(0), Some(0));
    assert_eq!(rt; trace.starved(1), None);
    assert!(rt; trace.sink(1).is_none());
    Ok(())
}

/// Every call of the first folder is refused but its opening.
#[test]
fn one_sinks_faults_change_no_other_sink(rt: HostRuntime) -> Result<(), Fail> {
    let alloc = rt.alloc();
    let mut sinks = Vec::new(alloc);
    let refused: [u64; 9] = [2, 3, 4, 5, 6, 7, 8, 9, 10];
    sinks.push(sink_of(alloc, &refused)?).ok().ok_or("room")?;
    sinks.push(sink_of(alloc, &[])?).ok().ok_or("room")?;
    let both = Route::Tee(
        Box::new(alloc, Route::Sink(0))?,
        Box::new(alloc, Route::Sink(1))?,
    );
    let mut trace = trace_over(&rt, alloc, both, sinks)?;
    tell(&rt, &mut trace, MONDAY, "a")?;
    tell(&rt, &mut trace, TUESDAY, "b")?;
    has_files(&rt, &trace, 0, &[("app.2025-02-17", "")])?;
    let wanted = [
        ("app.2025-02-17", "app: a\n"),
        ("app.2025-02-18", "app: b\n"),
    ];
    has_files(&rt, &trace, 1, &wanted)?;
    let faults = trace.sink(0).ok_or("a sink")?.faults();
    assert_eq!(rt; (faults.switches, faults.writes), (1, 2));
    let faults = trace.sink(1).ok_or("a sink")?.faults();
    assert_eq!(rt; (faults.switches, faults.writes), (0, 0));
    Ok(())
}

/// The opening is call 1, and the second one, after the directories were made, call 3.
#[test]
fn a_folder_that_opens_no_file_is_refused(rt: HostRuntime) -> Result<(), Fail> {
    let alloc = rt.alloc();
    let mut sinks = Vec::new(alloc);
    sinks.push(sink_of(alloc, &[1, 3])?).ok().ok_or("room")?;
    let outputs = output_over(alloc, 3, LineSettings::full(), Route::Sink(0), sinks)?;
    match open_stack(alloc, outputs, MONDAY) {
        Ok(_) => Err("the folder opened a file".into()),
        Err(refused) => {
            assert_eq!(rt; refused.refusal, Refusal::FolderRefused);
            assert_eq!(rt; refused.output, Some(OutputKey(3)));
            let fault = refused.fault.ok_or("the folder's fault")?;
            assert_eq!(rt; fault.context, InitContext::File);
            Ok(())
        }
    }
}
