//! A service over files in memory, and what its file holds afterwards.

use crate::service::{Service, ServiceError, Sites};
use span_tracing::{
    Builder, FixedClock, LineSettings, MemoryFolder, Moment, OutputKey, OutputSpec, Rotation, Site,
    open_trace,
};
use std::alloc::Global;
use std::test::Fail;
use tracing_core::{Level, LevelFilter};

/// 2025-02-17T10:01:00Z.
const MONDAY: Moment = Moment {
    seconds: 1_739_786_460,
    nanoseconds: 0,
};

/// What two requests log: one that is served, and one under whose number nothing is found.
const LINES: &str = "\
2025-02-17T10:01:00.000000Z  INFO request{number=8}:look{number=8}: app: number=4 looked
2025-02-17T10:01:00.000000Z  INFO request{number=8}: app: found 4 number=8
2025-02-17T10:01:00.000000Z  INFO request{number=7}:look{number=7}: app: looked
";

type MemoryService = Service<LevelFilter, MemoryFolder, FixedClock>;

/// A service whose trace writes to one file in memory.
fn service(alloc: Global) -> Result<MemoryService, Fail> {
    let files = Builder::new(alloc)
        .rotation(Rotation::NEVER)
        .filename_prefix("app");
    let (key, level, lines) = (OutputKey(1), LevelFilter::TRACE, LineSettings::full());
    let folder = MemoryFolder::new(alloc);
    let output = OutputSpec::file(alloc, key, level, lines, files, folder)?;
    let mut outputs = Vec::new(alloc);
    outputs.push(output).ok().ok_or("room")?;
    let mut trace = open_trace(alloc, outputs, MONDAY)?;
    let fields = &["number", "size"];
    let sites = Sites {
        request: Site::span(&mut trace, "app", "request", Level::INFO, fields)?,
        look: Site::span(&mut trace, "app", "look", Level::INFO, &["number"])?,
        told: Site::event(
            &mut trace,
            "app",
            "told",
            Level::INFO,
            &["message", "number"],
        )?,
    };
    let clock = FixedClock::new(MONDAY);
    Ok(Service {
        trace,
        clock,
        sites,
    })
}

#[test]
fn requests_log_inside_their_spans(rt: HostRuntime) -> Result<(), Fail> {
    let alloc = rt.alloc();
    let mut service = service(alloc)?;
    assert_eq!(rt; service.serve(alloc, 8), Ok(4));
    assert_eq!(rt; service.serve(alloc, 7), Err(ServiceError::NotFound));
    let sink = service.trace.sink(0).ok_or("a sink")?;
    let files = sink.appender().ok_or("a folder")?.folder().files()?;
    let file = files.first().ok_or("a file")?;
    let text = str::from_utf8(file.bytes).ok().ok_or("UTF-8")?;
    assert_eq!(rt; text, LINES);
    assert_eq!(rt; service.trace.lost(0), Some(0));
    Ok(())
}
