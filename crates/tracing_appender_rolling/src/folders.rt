//! Folders of files, as their users see them: one in memory, one that refuses calls, and one of the system.

mod attempts;
mod disk;
mod entries;
mod fault;
mod faulty;
mod folder;
mod memory;
mod system;
#[cfg(test)]
mod tests;

pub use disk::DiskFolder;
pub use fault::{Entry, FileNumber, FolderError, FolderFault};
pub use faulty::FaultyFolder;
pub use folder::Folder;
pub use memory::{FileEntry, MemoryFolder};
