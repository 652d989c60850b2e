//! A folder of the system.

ghost use Rattle.std.specs.Prelude.{◌≡◌, ◌≢◌, ◌≤◌, ◌+◌, ◌-◌, ◌^◌, ℕ, true, false, min, length, string_bytes, IfOk, IfErr, IfSome};
ghost use Rattle.std.specs.Prelude.{OnErr, All};
ghost use Rattle.std.specs.Prelude.{Some, None, Err};
ghost use Rattle.std.specs.Option.{option_map};
ghost use Rattle.tracing_appender_rolling.specs.folders.Contents.{Gives, opened, closed, written, removed, flushed, dirs_made};
ghost use Rattle.tracing_appender_rolling.specs.folders.Contents.{names_listed, begins_with};
ghost use Rattle.tracing_appender_rolling.specs.folders.Contents.{failures_after};
ghost use Rattle.tracing_appender_rolling.specs.folders.ListedEntries.{listed_of, listed_all};
ghost use Rattle.tracing_appender_rolling.specs.folders.Disks.{joined, is_open_at, SameOpen, HasRoom, OpensNumber, ClosesNumber};

use crate::folders::fault::{Entry, FileNumber, FolderError, FolderFault, failures_after};
use crate::folders::folder::Folder;
use crate::folders::system::{fault_of, first_free, write_slot};
use std::fs::{self, OpenOptions};
use std::io::{Error, ErrorKind};
use std::rt::Files;

const NOT_FOUND: FolderError = FolderError::Fault(FolderFault::NotFound);

const REFUSED: FolderError = FolderError::Fault(FolderFault::Refused);

/// A folder of the system. Nothing is claimed of what it has; its faults are counted.
///
/// Its listing passes over entries that can't be read and over names that are no UTF-8, and knows no creation
/// moments. A directory that can't be read to its end is refused. It makes no links.
///
/// What stands under a name and is no plain file, as a link, a pipe or a directory, is refused before it is
/// opened, so no link is followed and no pipe is waited for. That holds where nobody else changes the folder
/// between the look at the name and its opening.
///
/// Out of memory is answered where this process's allocator refused. Where the kernel has none, the call is
/// refused. Where there was no memory for the path, each call that needs it answers out of memory.
#[derive(Drop)]
pub struct DiskFolder<R: Files + AllocGlobal + Clone + Drop> {
    rt: R,
    /// None where it found no memory.
    pub(crate) path: Option<String>,
    /// The handle of an open file stands at its number.
    files: Vec<Option<R::File>>,
    failures: u64,
}

impl<R: Files + AllocGlobal + Clone + Drop> DiskFolder<R> {
    /// The folder at a path of the system, which is copied. Nothing is opened or made yet.
    pub fn new(rt: R, path: &str) -> DiskFolder<R>
        ensures failures { result.failures ≡ 0 }
        // The path is the one that was lent, or it found no memory, and none is kept.
        ensures path { IfSome result.path (λ kept. string_bytes kept ≡ path.now) }
        ensures open_files { (n : ℕ) → is_open_at result.files.items n ≡ false }
    {
        let files = Vec::new(rt.alloc());
        let path = String::from_str(rt.alloc(), path).ok();
        DiskFolder {
            rt,
            path,
            files,
            failures: 0,
        }
    }

    /// The path, where it found memory.
    fn kept_path(&self) -> Result<&str, FolderError>
        ensures found { IfOk result (λ path. option_map string_bytes self.now.path ≡ Some path.now) }
        ensures missed { IfErr result (λ e. e ≡ FolderError.OutOfMemory) }
    {
        match &self.path {
            Some(path) => Ok(path.as_str()),
            None => Err(FolderError::OutOfMemory),
        }
    }

    /// The path of a name in the folder.
    fn path_of(&self, name: &str) -> Result<String, FolderError>
        ensures joined { IfOk result (λ path. IfSome self.now.path (λ kept.
            string_bytes path ≡ joined (string_bytes kept) name.now)) }
        ensures missed { IfErr result (λ e. e ≡ FolderError.OutOfMemory) }
        ensures needed { self.now.path ≡ None → result ≡ Err FolderError.OutOfMemory }
    {
        let mut path = String::from_str(self.rt.alloc(), self.kept_path()?)?;
        // An empty path is the current folder, and no root.
        if !path.is_empty() {
            path.push('/')?;
        }
        path.push_str(name)?;
        Ok(path)
    }

    /// Counts the fault, if the answer is one.
    fn counted<T: Drop>(&mut self, answer: Result<T, FolderError>) -> Result<T, FolderError>
        ensures result { result ≡ answer }
        ensures count { self.new.failures ≡ failures_after self.old.failures answer }
        ensures files { self.new.files ≡ self.old.files }
    {
        self.failures = failures_after(self.failures, &answer);
        answer
    }

    /// Refuses what stands at the path and is no plain file.
    fn check_plain(&self, path: &str) -> Result<(), FolderError> {
        match fs::symlink_metadata(&self.rt, path) {
            Ok(metadata) if metadata.is_file() => Ok(()),
            Ok(_) => Err(REFUSED),
            Err(error) if error.kind() == ErrorKind::NotFound => Ok(()),
            Err(error) => Err(fault_of(&error)),
        }
    }

    /// A number that isn't open, with room for its handle.
    fn make_room(&mut self) -> Result<usize, FolderError>
        ensures room { IfOk result (λ index. HasRoom self.old.files.items self.new.files.items index) }
        ensures refused { OnErr result (SameOpen self.old.files.items self.new.files.items) }
        ensures failures { self.new.failures ≡ self.old.failures }
    {
        let index = first_free(self.files.as_slice());
        if index == self.files.len() {
            self.files.push(None)?;
        }
        Ok(index)
    }

    fn open_file(&mut self, name: &str) -> Result<FileNumber, FolderError>
        ensures opened { IfOk result (λ file. OpensNumber self.old.files.items self.new.files.items file.index) }
        ensures refused { OnErr result (SameOpen self.old.files.items self.new.files.items) }
        ensures failures { self.new.failures ≡ self.old.failures }
        ensures needed { self.old.path ≡ None → result ≡ Err FolderError.OutOfMemory }
    {
        let path = self.path_of(name)?;
        self.check_plain(path.as_str())?;
        let index = self.make_room()?;
        let mut options = OpenOptions::new();
        options.append(true).create(true);
        match options.open(&self.rt, path.as_str()) {
            Ok(file) => {
                self.files[index] = Some(file);
                Ok(FileNumber { index })
            }
            Err(error) => Err(fault_of(&error)),
        }
    }

    fn write_some(&mut self, file: FileNumber, bytes: &[u8]) -> Result<usize, FolderError>
        ensures bound { IfOk result (λ n. n ≤ length bytes.now) }
        ensures found { is_open_at self.old.files.items file.index ≡ false →
            result ≡ Err (FolderError.Fault FolderFault.NotFound) }
        ensures open_files { SameOpen self.old.files.items self.new.files.items }
        ensures same { self.new.failures ≡ self.old.failures }
    {
        match self.files.get_mut(file.index) {
            Some(slot) => write_slot(slot, bytes),
            None => Err(NOT_FOUND),
        }
    }

    /// Closes the file, if the number is that of an open one.
    fn shut(&mut self, file: FileNumber) -> Result<(), FolderError>
        ensures closes { ClosesNumber self.old.files.items self.new.files.items file.index result }
        ensures same { self.new.failures ≡ self.old.failures }
    {
        match self.files.get_mut(file.index) {
            Some(slot) if slot.is_some() => {
                *slot = None;
                Ok(())
            }
            _ => Err(NOT_FOUND),
        }
    }

    fn is_open(&self, file: FileNumber) -> bool
        ensures { result ≡ is_open_at self.now.files.items file.index }
    {
        matches!(self.files.get(file.index), Some(Some(_)))
    }

    fn listed_path(&self) -> Result<&str, FolderError>
        ensures { self.now.path ≡ None → result ≡ Err FolderError.OutOfMemory }
    {
        let path = self.kept_path()?;
        Ok(if path.is_empty() { "." } else { path })
    }

    // An entry that can't be read is passed over. An error that ends the reading isn't, since the list would be
    // short. Of a name without the prefix nothing is asked and nothing is copied.
    fn entries(&self, prefix: &str) -> Result<Vec<Entry>, FolderError>
        ensures begins { IfOk result (λ all. All (λ e. begins_with prefix.now (listed_of e) ≡ true) all.items) }
        ensures needed { self.now.path ≡ None → result ≡ Err FolderError.OutOfMemory }
    {
        let alloc = self.rt.alloc();
        let mut all = Vec::new(alloc);
        let entries = match fs::read_dir(&self.rt, self.listed_path()?) {
            Ok(entries) => entries,
            Err(error) => return Err(fault_of(&error)),
        };
        for entry in entries {
            let entry = match entry {
                Ok(entry) => entry,
                Err(error) if is_bad_name(&error) => continue,
                Err(error) => return Err(fault_of(&error)),
            };
            if !entry.file_name().as_bytes().starts_with(prefix.as_bytes()) {
                continue;
            }
            let Ok(kind) = entry.file_type() else {
                continue
            };
            all.push(Entry {
                name: String::from_str(alloc, entry.file_name())?,
                plain: kind.is_file(),
                created: None,
            })?;
        }
        Ok(all)
    }

    fn remove_name(&self, name: &str) -> Result<(), FolderError>
        ensures { self.now.path ≡ None → result ≡ Err FolderError.OutOfMemory }
    {
        let path = self.path_of(name)?;
        match fs::remove_file(&self.rt, path.as_str()) {
            Ok(()) => Ok(()),
            Err(error) => Err(fault_of(&error)),
        }
    }

    fn make_dirs(&self) -> Result<(), FolderError>
        ensures { self.now.path ≡ None → result ≡ Err FolderError.OutOfMemory }
    {
        match fs::create_dir_all(&self.rt, self.kept_path()?) {
            Ok(()) => Ok(()),
            Err(error) => Err(fault_of(&error)),
        }
    }
}

/// Whether an entry's name is no UTF-8: then its error comes from no call of the system.
fn is_bad_name(error: &Error) -> bool {
    error.kind() == ErrorKind::InvalidFilename && error.raw_os_error().is_none()
}

impl<R: Files + AllocGlobal + Clone + Drop> Folder for DiskFolder<R> {
    ghost contents = { λ _. None };

    ghost failed = { λ d. d.failures };

    fn open_append(&mut self, name: &str) -> Result<FileNumber, FolderError>
        ensures gives { Gives (λ c. opened c name.now) None result None }
        ensures failures { self.new.failures ≡ failures_after self.old.failures result }
        ensures opened { IfOk result (λ file. OpensNumber self.old.files.items self.new.files.items file.index) }
        ensures refused { OnErr result (SameOpen self.old.files.items self.new.files.items) }
        // Without a path out of memory is answered, as in each call that needs the path.
        ensures needed { self.old.path ≡ None → result ≡ Err FolderError.OutOfMemory }
    {
        let answer = self.open_file(name);
        self.counted(answer)
    }

    fn close_file(&mut self, file: FileNumber) -> Result<(), FolderError>
        ensures gives { Gives (λ c. closed c file) None result None }
        ensures fed { IfErr result (λ e. e ≢ FolderError.OutOfMemory) }
        ensures failures { self.new.failures ≡ failures_after self.old.failures result }
        ensures closes { ClosesNumber self.old.files.items self.new.files.items file.index result }
    {
        let answer = self.shut(file);
        self.counted(answer)
    }

    fn write(&mut self, file: FileNumber, bytes: &[u8]) -> Result<usize, FolderError>
        ensures bound { IfOk result (λ n. n ≤ length bytes.now) }
        ensures gives { Gives (λ c. written c file bytes.now) None result None }
        ensures failures { self.new.failures ≡ failures_after self.old.failures result }
        ensures found { is_open_at self.old.files.items file.index ≡ false →
            result ≡ Err (FolderError.Fault FolderFault.NotFound) }
        ensures open_files { SameOpen self.old.files.items self.new.files.items }
    {
        let answer = self.write_some(file, bytes);
        self.counted(answer)
    }

    fn create_dirs(&mut self) -> Result<(), FolderError>
        ensures gives { Gives dirs_made None result None }
        ensures failures { self.new.failures ≡ failures_after self.old.failures result }
        ensures needed { self.old.path ≡ None → result ≡ Err FolderError.OutOfMemory }
    {
        let answer = self.make_dirs();
        self.counted(answer)
    }

    /// A file of the system keeps nothing back, so this does nothing to an open file.
    fn flush(&mut self, file: FileNumber) -> Result<(), FolderError>
        ensures gives { Gives (λ c. flushed c file) None result None }
        ensures fed { IfErr result (λ e. e ≢ FolderError.OutOfMemory) }
        ensures failures { self.new.failures ≡ failures_after self.old.failures result }
        ensures found { is_open_at self.old.files.items file.index ≡ false →
            result ≡ Err (FolderError.Fault FolderFault.NotFound) }
        ensures open_files { SameOpen self.old.files.items self.new.files.items }
    {
        if self.is_open(file) {
            Ok(())
        } else {
            self.counted(Err(NOT_FOUND))
        }
    }

    fn list(&mut self, prefix: &str) -> Result<Vec<Entry>, FolderError>
        ensures gives { Gives (λ c. names_listed c prefix.now) None (listed_all result) None }
        ensures failures { self.new.failures ≡ failures_after self.old.failures (listed_all result) }
        ensures begins { IfOk result (λ all. All (λ e. begins_with prefix.now (listed_of e) ≡ true) all.items) }
        ensures needed { self.old.path ≡ None → result ≡ Err FolderError.OutOfMemory }
    {
        let answer = self.entries(prefix);
        self.counted(answer)
    }

    fn remove(&mut self, name: &str) -> Result<(), FolderError>
        ensures gives { Gives (λ c. removed c name.now) None result None }
        ensures failures { self.new.failures ≡ failures_after self.old.failures result }
        ensures needed { self.old.path ≡ None → result ≡ Err FolderError.OutOfMemory }
    {
        let answer = self.remove_name(name);
        self.counted(answer)
    }

    fn link(&mut self, _name: &str, _target: &str) -> Result<(), FolderError> {
        self.counted(Err(FolderError::Fault(FolderFault::Unsupported)))
    }

    fn failures(&self) -> u64 {
        self.failures
    }
}
