//! A service whose threads log through one trace: as text and as JSON, each to a file that a thread of its own writes.
#![tactic(auto)]

mod live;
mod pool;
mod service;
mod stop;

use pool::THREADS;
use service::{Report, run};
use span_tracing::{DiskFolder, EitherFolder, Folder, MemoryFolder};
use std::process::ExitCode;
use std::{env, fs};
use stop::Stop;

/// Where a log file lies: in memory, or in a directory.
type LogFolder = EitherFolder<MemoryFolder, DiskFolder<HostRuntime>>;

/// The jobs of a run.
const JOBS: [u64; 8] = [11, 12, 13, 14, 15, 16, 17, 18];

/// How many lines a text has.
fn lines_in(text: &[u8]) -> usize {
    text.iter().filter(|byte| **byte == b'\n').count()
}

/// How many lines the files of the service in a directory have.
fn lines_on_disk(
    rt: &HostRuntime,
    path: &str,
    folder: &mut DiskFolder<HostRuntime>,
) -> Result<usize, Stop> {
    let mut lines = 0usize;
    for entry in folder.list("service").map_err(|_| Stop::Io)? {
        let path = format!(in rt.alloc(); "{path}/{}", entry.name)?;
        let text = fs::read(rt, path.as_str())?;
        lines = lines.saturating_add(lines_in(text.as_slice()));
    }
    Ok(lines)
}

/// How many lines the files of the service in memory have.
fn lines_in_memory(folder: &MemoryFolder) -> Result<usize, Stop> {
    let mut lines = 0usize;
    for file in folder.files()? {
        lines = lines.saturating_add(lines_in(file.bytes));
    }
    Ok(lines)
}

/// Where a log file lies: in the directory of this path, or in memory where there is none.
fn folder_at(rt: &HostRuntime, path: &Option<String>) -> LogFolder {
    match path {
        Some(path) => EitherFolder::B(DiskFolder::new(*rt, path.as_str())),
        None => EitherFolder::A(MemoryFolder::new(rt.alloc())),
    }
}

/// How many lines the files have that a run left in a folder.
fn lines_of(rt: &HostRuntime, path: &Option<String>, folder: LogFolder) -> Result<usize, Stop> {
    match (folder, path) {
        (EitherFolder::B(mut folder), Some(path)) => lines_on_disk(rt, path.as_str(), &mut folder),
        (EitherFolder::A(folder), _) => lines_in_memory(&folder),
        (EitherFolder::B(_), None) => Err(Stop::Usage),
    }
}

/// Prints what a run left.
fn print(rt: &HostRuntime, paths: &Paths, report: Report<LogFolder>) -> Result<(), Stop> {
    let Report {
        steps,
        lost,
        text,
        json,
    } = report;
    let text = lines_of(rt, &paths.text, text)?;
    let json = lines_of(rt, &paths.json, json)?;
    println!(rt;
        "{} jobs by {THREADS} threads: journal of {steps} steps closed",
        JOBS.len()
    )?;
    println!(rt; "text: {text} lines")?;
    println!(rt; "json: {json} lines")?;
    println!(rt; "{lost} lines lost")?;
    if lost > 0 {
        return Err(Stop::Missing);
    }
    Ok(())
}

/// Where the log files lie: in directories, or in memory where none is told.
#[derive(Drop)]
struct Paths {
    text: Option<String>,
    json: Option<String>,
}

/// What the words behind the program's name say.
fn paths_of(rt: &HostRuntime) -> Result<Paths, Stop> {
    let mut words = env::args(rt)?.skip(1);
    let paths = Paths {
        text: words.next(),
        json: words.next(),
    };
    if paths.text.is_some() != paths.json.is_some() || words.next().is_some() {
        return Err(Stop::Usage);
    }
    Ok(paths)
}

/// The status that a program ends with. Why it stops early is told on standard error.
fn status_of(rt: &HostRuntime, ended: Result<(), Stop>) -> ExitCode {
    match ended {
        Ok(()) => ExitCode::SUCCESS,
        Err(stop) => {
            // Where this can't be written either, the status tells.
            let _written = eprintln!(rt; "{stop}");
            ExitCode::FAILURE
        }
    }
}

fn main(rt: HostRuntime) -> ExitCode {
    let paths = match paths_of(&rt) {
        Ok(paths) => paths,
        Err(stop) => return status_of(&rt, Err(stop)),
    };
    let text = folder_at(&rt, &paths.text);
    let json = folder_at(&rt, &paths.json);
    let ended = match run::<LogFolder, HostRuntime>(&rt, text, json, &JOBS) {
        Ok(report) => print(&rt, &paths, report),
        Err(stop) => Err(stop),
    };
    status_of(&rt, ended)
}
