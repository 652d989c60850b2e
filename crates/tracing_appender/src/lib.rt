//! An appender that reads a clock at each write; and, re-exported, what applications need of `tracing_appender_rolling`.
//!
//! A builder is told how often the file changes, its prefix and suffix, how many files stay and the name of a link to
//! the latest one. It builds an appender over a folder, and a clocked appender takes that appender and a clock. It is
//! an `io::Write` and takes the lines of a formatter as a `MakeWriter`; each write looks at the clock once, and
//! changes the file where its period is over. To write some bytes to one file whatever time it gets meanwhile, ask it
//! for a writer by `make_writer`.
//!
//! Where a writer is too slow for the threads that log, a worker thread can write for them: `non_blocking` puts a queue of lines
//! before any writer.
#![tactic(auto)]

mod background;
mod clock;
mod clocked;
mod fixed;
mod refusal;
mod system;
mod writer;

pub use background::{
    DEFAULT_BUFFERED_LINES_LIMIT, ErrorCounter, LiveQueue, NoLive, NonBlocking, NonBlockingBuilder,
    RecordedQueue, StartError, StartRefusal, WorkerGuard, non_blocking,
};
pub use clock::Clock;
pub use clocked::{Clocked, ClockedAppender};
pub use fixed::FixedClock;
pub use system::SystemClock;
pub use tracing_appender_queue::{
    Batched, Fate, MarkError, Offered, QueueState, Settled, Taken, Written, ZeroLimit, batch,
    first_lines_are_taken, queue_is_its_lists, steps_have_one_end, steps_may_be_cut,
};
pub use tracing_appender_rolling::{
    BuildError, BuildRefusal, Builder, DiskFolder, Entry, Faults, FaultyFolder, FileEntry,
    FileNumber, Folder, FolderError, FolderFault, InitContext, InitError, MemoryFolder,
    RollingFileAppender, Rotation, daily, files_by_period, files_go_by_tries, files_read_in_order,
    hourly, later_periods_are_due, lines_have_one_end, lines_stand_whole, minutely, names_differ,
    never, retention_spares_others, weekly,
};
pub use tracing_core_moments::{
    BadMoment, Moment, date_text, dates_count_days, names_rise, worked_dates,
};
pub use writer::RollingWriter;

#[cfg(test)]
mod tests;
