//! Logs requests, each in a span: as text for people and as JSON for machines, to files in two directories. It prints the files.
use span_tracing::value::Lend;
use span_tracing::{
    CallError, DiskFolder, FileStack, LineSettings, Moment, OpenStackError, OutputKey, Site, Trace,
    daily_output, event, open_trace, span,
};
use std::fs;
use tracing_core::{Level, LevelFilter};

/// A trace whose outputs stand under levels and write to files in directories.
type FileTrace = Trace<FileStack<LevelFilter, DiskFolder<HostRuntime>>>;

/// A trace that writes what is at least INFO, as text and as JSON, to files `app.DAY` in two directories.
fn open(rt: &HostRuntime, now: Moment) -> Result<FileTrace, OpenStackError> {
    let info = LevelFilter::INFO;
    let (text, json) = (LineSettings::full(), LineSettings::json());
    let text = daily_output(*rt, OutputKey(1), info, text, "logs/text", "app")?;
    let json = daily_output(*rt, OutputKey(2), info, json, "logs/json", "app")?;
    open_trace(rt.alloc(), vec![in rt.alloc(); text, json]?, now)
}

/// The callsites of the program.
#[derive(Clone, Copy)]
struct Sites {
    /// Spans with a request's number.
    request: Site,
    /// Events with a message and a status.
    served: Site,
}

/// Registers the callsites.
fn register(trace: &mut FileTrace) -> Result<Sites, OpenStackError> {
    Ok(Sites {
        request: Site::span(trace, "app", "request", Level::INFO, &["number"])?,
        served: Site::event(trace, "app", "served", Level::INFO, &["message", "status"])?,
    })
}

/// Answers a request, and logs its status.
fn answer(trace: &mut FileTrace, sites: Sites, now: Moment) -> Result<(), CallError> {
    event!(
        trace,
        0,
        now,
        sites.served,
        message = "served",
        status = 200
    )
}

/// Serves a request on lane 0, inside a span of its own.
fn serve(trace: &mut FileTrace, sites: Sites, now: Moment, number: u64) -> Result<(), CallError> {
    let request = span!(trace, 0, now, sites.request, number = number)?;
    trace.enter(0, now, request).done()?;
    let answered = answer(trace, sites, now);
    trace.exit(0, now, request).done()?;
    trace.try_close(0, now, request).done()?;
    answered
}

/// Some seconds past 2025-02-17T10:01:00Z. A program with a clock asks `SystemClock`.
fn moment_at(second: u32) -> Moment {
    Moment {
        seconds: 1_739_786_460 + i64::from(second % 60),
        nanoseconds: 0,
    }
}

/// Prints a file under its path.
fn print_file(rt: &HostRuntime, path: &str) -> Result<(), std::io::Error> {
    let text = fs::read_to_string(rt, path)?;
    println!(rt; "{path}:\n{text}")
}

/// Serves both requests, and answers whether no text and no line was lost.
fn serve_all(rt: &HostRuntime) -> Result<bool, OpenStackError> {
    let mut trace = open(rt, moment_at(0))?;
    let sites = register(&mut trace)?;
    let first = serve(&mut trace, sites, moment_at(0), 7);
    let second = serve(&mut trace, sites, moment_at(1), 8);
    let is_whole = trace.lost(0) == Some(0) && trace.lost(1) == Some(0);
    Ok(first == Ok(()) && second == Ok(()) && is_whole)
}

/// Serves two requests, prints the files, and answers whether all went as it has to.
pub(crate) fn run(rt: &HostRuntime) -> bool {
    serve_all(rt) == Ok(true)
        && print_file(rt, "logs/text/app.2025-02-17").is_ok()
        && print_file(rt, "logs/json/app.2025-02-17").is_ok()
}
