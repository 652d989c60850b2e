//! The outputs of a script, with their sinks.

use crate::fault::Fault;
use crate::lines::{FolderLine, OutputLine, QueueLine, SinkLine, StackLine};
use crate::output::settings_of;
use span_tracing::{
    Builder, DiskFolder, EitherFolder, FileStack, MemoryFolder, OutputKey, OutputSpec, Refusal,
    Rotation, SinkSpec, open_stack,
};
use std::alloc::{AllocError, Global};
use std::rt::Files;
use tracing_core::LevelFilter;

/// A folder in memory, or one of the system.
pub(crate) type LogFolder<X> = EitherFolder<MemoryFolder, DiskFolder<X>>;

/// Outputs under levels, whose files are in folders.
pub(crate) type LeveledStack<D> = FileStack<LevelFilter, D>;

/// Outputs under levels, whose files are in such folders.
pub(crate) type LogStack<X> = LeveledStack<LogFolder<X>>;

/// An output under a level, before its files are opened.
type LeveledOutput<X> = OutputSpec<LevelFilter, LogFolder<X>>;

/// Opens stacks for a trace. What calls it needn't know their whole type, in which its proof would take minutes.
pub(crate) trait OpensStacks<T> {
    /// The stack of a line, whose files are opened. For each sink a name is added: that of a folder in memory, and none of a folder of
    /// the system.
    ///
    /// # Errors
    ///
    /// What is refused of an output or of the stack, else out of memory.
    fn open(&self, line: StackLine, names: &mut Vec<Option<String>>) -> Result<T, Fault>;
}

impl<X: Files + AllocGlobal + Clone + Drop> OpensStacks<LogStack<X>> for X {
    fn open(&self, line: StackLine, names: &mut Vec<Option<String>>) -> Result<LogStack<X>, Fault> {
        let outputs = outputs_of(self, line.outputs, names)?;
        match open_stack(self.alloc(), outputs, line.moment) {
            Ok(stack) => Ok(stack),
            Err(refused) => Err(Fault::Refused(refused.refusal)),
        }
    }
}

fn outputs_of<X: Files + AllocGlobal + Clone + Drop>(
    rt: &X,
    lines: Vec<OutputLine>,
    names: &mut Vec<Option<String>>,
) -> Result<Vec<LeveledOutput<X>>, Fault> {
    let mut outputs = Vec::new(rt.alloc());
    for line in lines {
        let output = output_of(rt, line, names).map_err(Fault::Refused)?;
        outputs.push(output)?;
    }
    Ok(outputs)
}

fn output_of<X: Files + AllocGlobal + Clone + Drop>(
    rt: &X,
    line: OutputLine,
    names: &mut Vec<Option<String>>,
) -> Result<LeveledOutput<X>, Refusal> {
    let OutputLine {
        key,
        filter,
        format,
        time,
        show_level,
        span_events,
        route,
        sinks,
    } = line;
    let lines = settings_of(format, time, show_level, span_events.as_slice());
    let sinks = sinks_of(rt, sinks, names).or(Err(Refusal::OutOfMemory))?;
    OutputSpec::new(OutputKey(key), filter, lines, route, sinks).map_err(|refused| refused.error)
}

fn sinks_of<X: Files + AllocGlobal + Clone + Drop>(
    rt: &X,
    lines: Vec<SinkLine>,
    names: &mut Vec<Option<String>>,
) -> Result<Vec<SinkSpec<LogFolder<X>>>, AllocError> {
    let mut sinks = Vec::new(rt.alloc());
    for line in lines {
        let SinkLine {
            folder,
            rotation,
            prefix,
            suffix,
            max_files,
            link,
            queue,
        } = line;
        let builder = builder_of(rt.alloc(), rotation, prefix, suffix, max_files, link);
        let folder = match folder {
            FolderLine::Memory(name) => {
                names.push(Some(name))?;
                EitherFolder::A(MemoryFolder::new(rt.alloc()))
            }
            FolderLine::Disk(path) => {
                names.push(None)?;
                EitherFolder::B(DiskFolder::new(rt.clone()?, path.as_str()))
            }
        };
        let spec = match queue {
            None => SinkSpec::Direct(builder, folder),
            Some(QueueLine { limit, lossy }) => SinkSpec::Queued(builder, folder, limit, lossy),
        };
        sinks.push(spec)?;
    }
    Ok(sinks)
}

fn builder_of(
    alloc: Global,
    rotation: Rotation,
    prefix: Option<String>,
    suffix: Option<String>,
    max_files: Option<usize>,
    link: Option<String>,
) -> Builder {
    let mut builder = Builder::new(alloc).rotation(rotation);
    if let Some(text) = prefix {
        builder = builder.filename_prefix(text.as_str());
    }
    if let Some(text) = suffix {
        builder = builder.filename_suffix(text.as_str());
    }
    if let Some(count) = max_files {
        builder = builder.max_log_files(count);
    }
    if let Some(text) = link {
        builder = builder.latest_symlink(text.as_str());
    }
    builder
}
