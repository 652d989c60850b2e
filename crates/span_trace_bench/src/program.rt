//! The program over any runtime and outputs.

ghost use Rattle.std.specs.Prelude.{◌≡◌, ◌≤◌, Err, map, string_bytes, false};
ghost use Rattle.span_trace_bench.specs.Names.{asks_bench};

use crate::bench::Bench;
use crate::fault::Fault;
use crate::sums::write_sums;
use crate::timing::time;
use std::io::Write;
use std::rt::Clock;
use std::sync::Wait;
use std::thread::Threads;
use tracing_appender_rolling::DiskFolder;

/// The folder of a file's path, and the file's name.
fn parts_of(path: &str) -> (&str, &str) {
    match path.rsplit_once('/') {
        Some(("", name)) => ("/", name),
        Some((folder, name)) => (folder, name),
        None => (".", path),
    }
}

/// The path of the folder of the file that the words name. Where they name none, that of the current one.
pub fn path_in(words: &[String]) -> &str {
    match words {
        [_, _, _, file] => parts_of(file.as_str()).0,
        _ => ".",
    }
}

/// Times a bench, and writes its name, the count, and the nanoseconds until the last call came back and until nothing was left to do.
fn write_time<
    R: Clock + AllocGlobal + Threads + Wait + Sync + Copy + Send + Drop + 'static,
    W: Write,
>(
    rt: &R,
    bench: Bench,
    count: u64,
    folder: DiskFolder<HostRuntime>,
    file: &str,
    output: &mut W,
) -> Result<(), Fault> {
    let times = time(rt, bench, count, folder, parts_of(file).1)?;
    let name = bench.name();
    let calls = times.calls;
    let all = times.all;
    writeln!(output, "{name} {count} {calls} {all}")?;
    Ok(())
}

/// Does what the words ask for.
fn answer<R: Clock + AllocGlobal + Threads + Wait + Sync + Copy + Send + Drop + 'static, W: Write>(
    rt: &R,
    words: &[String],
    folder: DiskFolder<HostRuntime>,
    output: &mut W,
) -> Result<(), Fault>
    ensures { asks_bench (map string_bytes words.now) ≡ false → (result ≡ Err Fault.Usage) × (output.new ≡ output.old) }
{
    match words {
        [] => write_sums(rt, output),
        [word, name, count, file] if word.as_str() == "bench" => {
            let Some(bench) = Bench::named(name.as_str()) else {
                return Err(Fault::Usage);
            };
            let Ok(count) = count.as_str().parse::<u64>() else {
                return Err(Fault::Usage);
            };
            write_time(rt, bench, count, folder, file.as_str(), output)
        }
        _ => Err(Fault::Usage),
    }
}

/// Runs the program on its words, and gives its status.
///
/// The words `bench NAME COUNT FILE` time a bench, whose files stand in the folder if it has any: `path_in` says which folder is that of
/// FILE. No words show what each bench hands over, to folders that only count.
///
/// 0: done. 1: the trace refused a call. 2: the words are other ones, or the name is no bench's. 3: a call answered
/// oddly. 4: there was no memory. 5: the clock or the output refused.
pub fn main_with<
    R: Clock + AllocGlobal + Threads + Wait + Sync + Copy + Send + Drop + 'static,
    W: Write,
    E: Write,
>(rt: &R, words: &[String], folder: DiskFolder<HostRuntime>, output: &mut W, errors: &mut E) -> u8
    ensures range { result ≤ 5 }

    // Any words but none, or `bench` with a bench's name, a count and a file, give status 2.
    ensures usage { asks_bench (map string_bytes words.now) ≡ false → result ≡ 2 }
    // With such words nothing is written to the output.
    ensures quiet { asks_bench (map string_bytes words.now) ≡ false → output.new ≡ output.old }
{
    match answer(rt, words, folder, output) {
        Ok(()) => 0,
        Err(fault) => {
            fault.tell(errors);
            fault.status()
        }
    }
}
