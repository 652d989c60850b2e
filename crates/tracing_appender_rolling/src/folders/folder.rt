//! The folder as its user sees it.

ghost use Rattle.std.specs.Prelude.{◌≡◌, ◌≢◌, ◌≤◌, ℕ, Option, IfOk, IfErr, length};
ghost use Rattle.tracing_appender_rolling.specs.folders.Contents.{Contents, Gives, opened, written, removed, linked, closed, dirs_made};
ghost use Rattle.tracing_appender_rolling.specs.folders.Contents.{flushed, names_listed, failures_after};
ghost use Rattle.tracing_appender_rolling.specs.folders.ListedEntries.{listed_all};

use crate::folders::fault::{Entry, FileNumber, FolderError};

/// Names that stand for files with bytes. An opened file can be written after its name was removed, until it
/// is closed; a number that isn't open is refused `NotFound`. A call that answers an error changed nothing.
pub trait Folder: Drop {
    /// What the folder has, where that is known. Of a folder of the system nothing is.
    ghost contents: { Self → Option Contents };

    /// How many faults it has told; the count stops at the greatest number.
    ghost failed: { Self → ℕ };

    /// Opens the file of that name for appending, and makes it where there is none.
    fn open_append(&mut self, name: &str) -> Result<FileNumber, FolderError>
        ensures gives { Gives (λ c. opened c name.now) (contents self.old) result (contents self.new) }
        ensures failures { failed self.new ≡ failures_after (failed self.old) result };

    /// Closes an opened file: it is open once less. It takes no memory.
    fn close_file(&mut self, file: FileNumber) -> Result<(), FolderError>
        ensures gives { Gives (λ c. closed c file) (contents self.old) result (contents self.new) }
        ensures fed { IfErr result (λ e. e ≢ FolderError.OutOfMemory) }
        ensures failures { failed self.new ≡ failures_after (failed self.old) result };

    /// Appends some first bytes, and answers how many. It may take none of some bytes, which is for the
    /// caller to call a fault.
    fn write(&mut self, file: FileNumber, bytes: &[u8]) -> Result<usize, FolderError>
        ensures bound { IfOk result (λ n. n ≤ length bytes.now) }
        ensures gives { Gives (λ c. written c file bytes.now) (contents self.old) result (contents self.new) }
        ensures failures { failed self.new ≡ failures_after (failed self.old) result };

    /// Makes the folder's directories, where they aren't there.
    fn create_dirs(&mut self) -> Result<(), FolderError>
        ensures gives { Gives dirs_made (contents self.old) result (contents self.new) }
        ensures failures { failed self.new ≡ failures_after (failed self.old) result };

    /// Flushes an opened file. It takes no memory.
    fn flush(&mut self, file: FileNumber) -> Result<(), FolderError>
        ensures gives { Gives (λ c. flushed c file) (contents self.old) result (contents self.new) }
        ensures fed { IfErr result (λ e. e ≢ FolderError.OutOfMemory) }
        ensures failures { failed self.new ≡ failures_after (failed self.old) result };

    /// The names that begin with a prefix, those of links too; with an empty prefix all names. The folders here
    /// copy no other name.
    fn list(&mut self, prefix: &str) -> Result<Vec<Entry>, FolderError>
        ensures gives { Gives (λ c. names_listed c prefix.now) (contents self.old) (listed_all result)
            (contents self.new) }
        ensures failures { failed self.new ≡ failures_after (failed self.old) (listed_all result) };

    /// Removes the name of a file. An opened file can still be written.
    fn remove(&mut self, name: &str) -> Result<(), FolderError>
        ensures gives { Gives (λ c. removed c name.now) (contents self.old) result (contents self.new) }
        ensures failures { failed self.new ≡ failures_after (failed self.old) result };

    /// Makes a link to a name, in place of a link that stood there. A file that stands there refuses.
    fn link(&mut self, name: &str, target: &str) -> Result<(), FolderError>
        ensures gives { Gives (λ c. linked c name.now target.now) (contents self.old) result (contents self.new) }
        ensures failures { failed self.new ≡ failures_after (failed self.old) result };

    /// How many faults the folder has told so far; the count stops at the greatest number.
    fn failures(&self) -> u64
        ensures { result ≡ failed self.now };
}
