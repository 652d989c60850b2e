//! The program over memory.

use crate::bench::Bench;
use crate::counting::CountingFolder;
use crate::live::time_live;
use crate::program::{main_with, path_in};
use crate::shared::time_shared;
use crate::timing::counting_stage;
use std::alloc::{AllocError, Global};
use std::process::Abort;
use std::rt::Clock;
use std::sync::Wait;
use std::test::Fail;
use std::thread::Threads;
use tracing_appender_rolling::DiskFolder;

/// More than any run here writes, so that the buffers never grow.
const ROOM: usize = 4_096;

/// What a run gives.
#[derive(Debug, Drop)]
struct Answer {
    status: u8,
    output: Vec<u8>,
    errors: Vec<u8>,
}

fn words_of(alloc: Global, words: &[&str]) -> Result<Vec<String>, AllocError> {
    let mut all = Vec::new(alloc);
    for word in words {
        all.push(String::from_str(alloc, word)?)?;
    }
    Ok(all)
}

fn run<R: Clock + AllocGlobal + Threads + Wait + Sync + Copy + Send + Drop + 'static>(
    rt: &R,
    host: HostRuntime,
    words: &[&str],
) -> Result<Answer, Fail> {
    let alloc = rt.alloc();
    let words = words_of(alloc, words)?;
    let mut output = Vec::with_capacity(alloc, ROOM)?;
    let mut errors = Vec::with_capacity(alloc, ROOM)?;
    let folder = DiskFolder::new(host, path_in(words.as_slice()));
    let status = main_with(rt, words.as_slice(), folder, &mut output, &mut errors);
    Ok(Answer {
        status,
        output,
        errors,
    })
}

#[test]
fn other_words_are_answered_with_the_usage(rt: HostRuntime) -> Result<(), Fail> {
    for words in [
        ["bench", "nothing", "3", "log"].as_slice(),
        ["bench", "never", "many", "log"].as_slice(),
        ["time", "never", "3", "log"].as_slice(),
        ["bench", "never"].as_slice(),
    ] {
        let answer = run(&rt, rt, words)?;
        assert_eq!(rt; answer.status, 2);
        assert!(rt; answer.output.is_empty());
        assert_eq!(rt;
            answer.errors.as_slice(),
            b"span-trace-bench: usage: span-trace-bench bench NAME COUNT FILE\n".as_slice()
        );
    }
    Ok(())
}

#[test]
fn a_bench_has_its_name(rt: HostRuntime) -> Result<(), Fail> {
    assert_eq!(rt; Bench::named("open10k"), Some(Bench::Open10k));
    assert_eq!(rt; Bench::Open10k.name(), "open10k");
    assert_eq!(rt; Bench::named("open"), Some(Bench::Open));
    assert_eq!(rt; Bench::named("opens"), None);
    Ok(())
}

#[test]
fn a_time_is_told(rt: HostRuntime) -> Result<(), Fail> {
    let answer = run(&rt, rt, &["bench", "span_cycle", "5", "log"])?;
    if answer.status == 4 {
        return Err("out of memory".into());
    }
    assert_eq!(rt; answer.status, 0);
    let text = str::from_utf8(answer.output.as_slice()).ok().unwrap_or("");
    assert!(rt; text.starts_with("span_cycle 5 "), "{text}");
    Ok(())
}

#[test]
fn calls_end_before_all_is_done(rt: HostRuntime) -> Result<(), Fail> {
    let alloc = rt.alloc();
    let shared = time_shared(&rt, alloc, 250).map_err(|_| "a time")?;
    assert!(rt; shared.calls <= shared.all);
    for bench in [Bench::Live, Bench::LiveAll] {
        let folder = CountingFolder::new(alloc);
        let timed = time_live(&rt, alloc, bench, 250, folder, "log");
        let (live, files) = timed.map_err(|_| "a time")?;
        assert!(rt; live.calls <= live.all);
        assert_eq!(rt; files.appender().folder().writes, 250);
    }
    Ok(())
}

#[test]
fn a_path_has_a_folder(rt: HostRuntime) -> Result<(), Fail> {
    for (path, folder) in [("log", "."), ("/log", "/"), ("a/b/log", "a/b")] {
        let words = words_of(rt.alloc(), &["bench", "never", "3", path])?;
        assert_eq!(rt; path_in(words.as_slice()), folder);
    }
    assert_eq!(rt; path_in(&[]), ".");
    Ok(())
}
