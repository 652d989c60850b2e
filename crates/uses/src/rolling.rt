//! A log file that changes by the day, alone: the program writes its own lines.

ghost use Rattle.std.specs.Prelude.{◌≡◌, true, Some, IfOk, ℕ, List};
ghost use Rattle.tracing_appender.specs.PeriodKind.TheVariants.{Day};
ghost use Rattle.tracing_appender.specs.Moments.{is_moment};
ghost use Rattle.tracing_appender.specs.Memory.{memory_contents, nothing_there};
ghost use Rattle.tracing_appender.specs.Entries.{entry_at};
ghost use Rattle.tracing_appender.specs.Builders.{prefixed_names};
ghost use Rattle.tracing_appender.specs.PrunedSinks.{PrunedSink, AgreesSink, LeavesSink, fresh_sink, pruned_text};

use std::alloc::{AllocError, Global};
use tracing_appender::{
    BuildError, FileEntry, FolderError, MemoryFolder, Moment, RollingFileAppender, daily,
};

/// Opens the log of the moment's day in an empty folder in memory. Its files have this prefix and the day in
/// their names.
///
/// # Errors
///
/// `BadName` where the prefix can't stand in a file's name, else `OutOfMemory`.
pub fn open_daily(
    alloc: Global,
    prefix: &str,
    moment: Moment,
) -> Result<RollingFileAppender<MemoryFolder>, BuildError>
    requires { is_moment moment ≡ true }
    ensures { IfOk result (λ log. AgreesSink (λ folder. Some (memory_contents folder)) log
        (fresh_sink (prefixed_names Day prefix.now) moment nothing_there)) }
{
    match daily(alloc, MemoryFolder::new(alloc), prefix, moment) {
        Ok(log) => Ok(log),
        Err(refused) => Err(refused.error),
    }
}

/// Writes a line at a moment, behind what retention removes before it. It goes to the file of the greatest day that the
/// log has seen.
///
/// # Errors
///
/// Out of memory: the line may be missing.
pub fn write_line(
    log: &mut RollingFileAppender<MemoryFolder>,
    line: &str,
    moment: Moment,
) -> Result<(), FolderError>
    requires { is_moment moment ≡ true }
    ensures { (p : PrunedSink) → AgreesSink (λ folder. Some (memory_contents folder)) log.old p →
        LeavesSink (λ folder. Some (memory_contents folder)) p (λ done. line.now) moment
        (memory_contents log.old.folder) log.old result log.new }
{
    log.write_all_at(line.as_bytes(), moment)
}

/// The files of a log that retention left: each holds what the opening found under its name, and then the lines of its
/// day.
///
/// # Errors
///
/// Out of memory.
pub fn files_of(log: &RollingFileAppender<MemoryFolder>) -> Result<Vec<FileEntry<'_>>, AllocError>
    ensures { IfOk result (λ entries. (p : PrunedSink) → AgreesSink (λ folder. Some (memory_contents folder)) log.now p →
        (name : List ℕ) → entry_at entries.items name ≡ pruned_text p name) }
{
    log.folder().files()
}
