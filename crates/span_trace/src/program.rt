//! The program over any input and outputs.

ghost use Rattle.std.specs.Prelude.{◌≡◌, ◌≤◌, ◌⊎◌, false, map, string_bytes};
ghost use Rattle.span_trace.specs.Arguments.{asks_replay};

use crate::fault::Stop;
use crate::lines::{PrintFault, write_files, write_replies};
use crate::read::Input;
use crate::run::run_steps;
use crate::script::Script;
use crate::setup::Stage;
use crate::stack::{LogFolder, LogStack};
use span_tracing::{AnySink, EitherFolder, Reply, RoutedSinks, Trace};
use std::alloc::Global;
use std::io::{Read, Write};
use std::rt::Files;

/// A trace whose steps have run, with the replies.
#[derive(Drop)]
struct Answer<X: Files + AllocGlobal + Clone + Drop> {
    replies: Vec<Reply>,
    trace: Trace<LogStack<X>>,
    folders: Vec<Option<String>>,
}

impl<X: Files + AllocGlobal + Clone + Drop> Answer<X> {
    fn has_refusal(&self) -> bool {
        self.replies
            .iter()
            .any(|reply| matches!(reply, Reply::Refused(_)))
    }

    fn write<W: Write>(&self, alloc: Global, output: &mut W) -> Result<(), PrintFault> {
        write_replies(alloc, self.replies.as_slice(), output)?;
        let mut names = self.folders.as_slice();
        for number in 0..self.trace.stack_count() {
            if let Some(stack) = self.trace.stack(number) {
                names = write_stack(alloc, stack, names, output)?;
            }
        }
        Ok(())
    }
}

/// Writes the files of a stack's outputs in order, and gives the names that are left for later stacks.
fn write_stack<'a, X: Files + AllocGlobal + Clone + Drop, W: Write>(
    alloc: Global,
    stack: &LogStack<X>,
    names: &'a [Option<String>],
    output: &mut W,
) -> Result<&'a [Option<String>], PrintFault> {
    let mut rest = names;
    for routed in stack.sinks() {
        rest = write_output(alloc, routed, rest, output)?;
    }
    Ok(rest)
}

/// Writes the files of an output's sinks, as far as they are in memory, and gives the names that are left for later outputs.
fn write_output<'a, X: Files + AllocGlobal + Clone + Drop, W: Write>(
    alloc: Global,
    routed: &RoutedSinks<AnySink<LogFolder<X>>>,
    names: &'a [Option<String>],
    output: &mut W,
) -> Result<&'a [Option<String>], PrintFault> {
    let mut rest = names;
    for sink in routed.sinks() {
        let [name, later @ ..] = rest else {
            return Ok(rest);
        };
        let folder = sink.appender().map(|appender| appender.folder());
        if let (Some(name), Some(EitherFolder::A(folder))) = (name, folder) {
            write_files(alloc, name.as_str(), folder, output)?;
        }
        rest = later;
    }
    Ok(rest)
}

/// Whether the arguments are the one word `replay`.
fn asks_replay(arguments: &[String]) -> bool
    ensures { result ≡ asks_replay (map string_bytes arguments.now) }
{
    match arguments {
        [word] => word.as_str() == "replay",
        _ => false,
    }
}

/// Reads the whole input, makes its setup calls, and then runs its steps.
fn replay<X: Files + AllocGlobal + Clone + Drop, R: Read>(
    rt: &X,
    input: &mut R,
) -> Result<Answer<X>, Stop> {
    let alloc = rt.alloc();
    let read = Input::read(alloc, input)?;
    let Script { setup, steps } = Script::read(alloc, &read)?;
    let Stage {
        mut trace,
        callsites,
        folders,
        mut shelf,
    } = Stage::<LogStack<X>>::set_up(alloc, rt, setup)?;
    let replies = run_steps(alloc, &mut trace, callsites.as_slice(), &mut shelf, steps)?;
    Ok(Answer {
        replies,
        trace,
        folders,
    })
}

/// Runs the program on one word, `replay`, and an input of JSON lines, and gives its status.
///
/// 0: done. 1: a step was refused; all steps ran. 2: the arguments or a line are not readable, or a setup
/// call was refused. 3: a folder refused a setup call. 4: there was no memory outside a step. 5: the output
/// refused a write.
///
/// The output has a line for each step and then one for each file. With 2 and 3 nothing is written to it.
pub fn main_with<X: Files + AllocGlobal + Clone + Drop, R: Read, W: Write, E: Write>(
    rt: &X,
    arguments: &[String],
    input: &mut R,
    output: &mut W,
    errors: &mut E,
) -> u8
    ensures range { result ≤ 5 }

    // Arguments other than the one word `replay` give status 2.
    ensures usage { asks_replay (map string_bytes arguments.now) ≡ false → result ≡ 2 }
    // With such arguments the input isn't read.
    ensures unread { asks_replay (map string_bytes arguments.now) ≡ false → input.new ≡ input.old }

    // With status 2 or 3 nothing is written to the output.
    ensures quiet { (result ≡ 2) ⊎ (result ≡ 3) → output.new ≡ output.old }
{
    if !asks_replay(arguments) {
        Stop::Usage.tell(errors);
        return Stop::Usage.status();
    }
    match replay(rt, input) {
        Err(stop) => {
            stop.tell(errors);
            stop.status()
        }
        Ok(answer) => match answer.write(rt.alloc(), output) {
            Err(fault) => fault.status(),
            Ok(()) => u8::from(answer.has_refusal()),
        },
    }
}
