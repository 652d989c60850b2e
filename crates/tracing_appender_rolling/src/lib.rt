//! A log file that changes by the period, with retention, and the folders that it may lie in.
#![tactic(auto)]

mod appender;
mod build;
mod builder;
mod faults;
mod folders;
mod init;
mod laws;
mod lines;
mod opening;
mod retention;
mod rotation;

pub use appender::RollingFileAppender;
pub use build::{BuildError, BuildRefusal, daily, hourly, minutely, never, weekly};
pub use builder::Builder;
pub use faults::Faults;
pub use folders::{
    DiskFolder, Entry, FaultyFolder, FileEntry, FileNumber, Folder, FolderError, FolderFault,
    MemoryFolder,
};
pub use init::{InitContext, InitError};
pub use laws::{
    files_by_period, files_go_by_tries, files_read_in_order, later_periods_are_due,
    lines_have_one_end, lines_stand_whole, names_differ, retention_spares_others,
};
pub use rotation::Rotation;

#[cfg(test)]
mod tests;
