//! A bench: it times calls of a trace, of the kind that its argument names, or shows the sums of what they hand over.
#![tactic(auto)]

mod bench;
mod counting;
mod fault;
mod lines;
mod live;
mod program;
mod shared;
mod stack;
mod stage;
mod sums;
mod times;
mod timing;

pub use bench::Bench;
pub use program::{main_with, path_in};

#[cfg(test)]
mod tests;

use std::alloc::AllocError;
use std::io::ErrorKind;
use std::process::ExitCode;
use std::{env, io};
use tracing_appender_rolling::DiskFolder;

/// The words behind the program's name; none where some word is no text.
fn words_of(rt: &HostRuntime) -> Result<Vec<String>, AllocError> {
    let mut words = Vec::new(rt.alloc());
    match env::args(rt) {
        Ok(all) => {
            for word in all.skip(1) {
                words.push(word)?;
            }
        }
        Err(error) if error.kind() == ErrorKind::OutOfMemory => return Err(AllocError),
        Err(_) => {}
    }
    Ok(words)
}

fn main(rt: HostRuntime) -> ExitCode {
    let Ok(words) = words_of(&rt) else {
        return ExitCode::from(4);
    };
    let folder = DiskFolder::new(rt, path_in(words.as_slice()));
    let status = main_with(
        &rt,
        words.as_slice(),
        folder,
        &mut io::writer(&rt),
        &mut rt.stderr(),
    );
    ExitCode::from(status)
}
