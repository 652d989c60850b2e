//! A folder in memory.

ghost use Rattle.std.specs.Prelude.{◌≡◌, ◌==◌, ◌+◌, ◌-◌, ◌^◌, ℕ, List, [], ◌∷◌, ◌++◌, Some, None, true, map, string_bytes, min, OnOk};
ghost use Rattle.std.specs.Prelude.{OnErr, IfOk, IfSome, IfNone, ◌<◌, length, if◌then◌else◌};
ghost use Rattle.std.specs.Str.{bytes_eq};
ghost use Rattle.std.specs.List.{position_from, filter};
ghost use Rattle.tracing_appender_rolling.specs.folders.Contents.{file_named, bytes_at, link_place, is_open, listing, begins_with};
ghost use Rattle.tracing_appender_rolling.specs.folders.ListedEntries.{listed_of};

use crate::folders::entries::add_entry;
use crate::folders::fault::{Entry, FileNumber, FolderError, FolderFault};
use crate::folders::folder::Folder;
use std::alloc::{AllocError, Global};
use tracing_core_moments::Moment;

/// A file that was ever made in a folder in memory.
#[derive(Debug, Drop)]
pub struct MemoryFile {
    name: String,
    stands: bool,
    created: Option<Moment>,
    bytes: Vec<u8>,
}

/// A file's name and bytes.
#[derive(Clone, Copy, Debug)]
pub struct FileEntry<'a> {
    pub name: &'a str,
    pub bytes: &'a [u8],
}

/// A link to a name.
#[derive(Debug, Drop)]
pub struct MemoryLink {
    name: String,
    target: String,
}

/// A folder whose files lie in memory. It refuses to open a link, to remove what isn't there, to put a link
/// in a file's place, and what is asked of a file that isn't open.
#[derive(Debug, Drop)]
pub struct MemoryFolder {
    pub(crate) alloc: Global,
    files: Vec<MemoryFile>,
    links: Vec<MemoryLink>,
    /// The numbers of the files that are open, one for each opening.
    open_files: Vec<usize>,
    /// Whether its directories were made.
    has_dirs: bool,
    /// The number of the file that was flushed last.
    last_flushed: Option<usize>,
    failures: u64,
}

impl MemoryFolder {
    ghost use Rattle.tracing_appender_rolling.specs.folders.Memory.{memory_contents, nothing_there, put_at, target_at};
    ghost use Rattle.tracing_appender_rolling.specs.folders.Entries.{FilesListed};

    /// A folder with no files.
    pub fn new(alloc: Global) -> MemoryFolder
        ensures contents { memory_contents result ≡ nothing_there }
        ensures failures { result.failures ≡ 0 }
    {
        MemoryFolder {
            alloc,
            files: Vec::new(alloc),
            links: Vec::new(alloc),
            open_files: Vec::new(alloc),
            has_dirs: false,
            last_flushed: None,
            failures: 0,
        }
    }

    /// Puts a file under a name, in place of one that stood there. Nothing else changes.
    ///
    /// # Errors
    ///
    /// Out of memory; nothing is changed.
    pub fn put(
        &mut self,
        name: &str,
        bytes: &[u8],
        created: Option<Moment>,
    ) -> Result<(), AllocError>
        // The name has these bytes, and each other name what it had.
        ensures ok { OnOk result ((q : List ℕ) → bytes_at (memory_contents self.new).files q ≡
            (if bytes_eq name.now q then Some bytes.now else bytes_at (memory_contents self.old).files q)) }
        ensures place { OnOk result ((memory_contents self.new).files
            ≡ put_at (memory_contents self.old).files (file_named name.now (memory_contents self.old).files)
            (record { name = name.now; stands = true; created = created; bytes = bytes.now })) }
        ensures err { OnErr result (memory_contents self.new ≡ memory_contents self.old) }
        ensures rest { memory_contents self.new ≡ record (memory_contents self.old) {
          files = (memory_contents self.new).files;
        } }
        ensures failures { self.new.failures ≡ self.old.failures }
    {
        let file = MemoryFile {
            name: String::from_str(self.alloc, name)?,
            stands: true,
            created,
            bytes: Vec::from_slice(self.alloc, bytes)?,
        };
        match self.index_of(name) {
            Some(index) => self.files[index] = file,
            None => self.files.push(file)?,
        }
        Ok(())
    }

    /// The files that stand, in byte order of their names.
    ///
    /// # Errors
    ///
    /// Out of memory.
    pub fn files(&self) -> Result<Vec<FileEntry<'_>>, AllocError>
        ensures { IfOk result (λ entries. FilesListed (memory_contents self.now) entries.items) }
    {
        let mut entries = Vec::new(self.alloc);
        for file in &self.files {
            if file.stands {
                let entry = FileEntry {
                    name: file.name.as_str(),
                    bytes: file.bytes.as_slice(),
                };
                add_entry(&mut entries, entry)?;
            }
        }
        Ok(entries)
    }

    /// The name that a link leads to.
    pub fn link_target(&self, name: &str) -> Option<&str>
        ensures some { IfSome result (λ target. target_at (memory_contents self.now).links name.now ≡ Some target.now) }
        ensures none { IfNone result (target_at (memory_contents self.now).links name.now ≡ None) }
    {
        for link in &self.links {
            if link.name.as_str() == name {
                return Some(link.target.as_str());
            }
        }
        None
    }

    /// Whether its directories were made. It opens files without them too.
    pub fn has_dirs(&self) -> bool
        ensures { result ≡ (memory_contents self.now).has_dirs }
    {
        self.has_dirs
    }

    /// The number of the file that was flushed last.
    pub fn last_flushed(&self) -> Option<usize>
        ensures { result ≡ (memory_contents self.now).last_flushed }
    {
        self.last_flushed
    }

    /// The names of files that stand, and of links, that begin with a prefix.
    fn entries(&self, prefix: &str) -> Result<Vec<Entry>, AllocError>
        ensures { IfOk result (λ all. map listed_of all.items
            ≡ filter (begins_with prefix.now) (listing (memory_contents self.now))) }
    {
        let mut all = Vec::new(self.alloc);
        for file in &self.files {
            if file.stands {
                add_listed(&mut all, prefix, &file.name, true, file.created)?;
            }
        }
        for link in &self.links {
            add_listed(&mut all, prefix, &link.name, false, None)?;
        }
        Ok(all)
    }

    /// Counts a fault.
    fn refuse(&mut self, fault: FolderFault) -> FolderError
        ensures result { result ≡ FolderError.Fault fault }
        ensures same { memory_contents self.new ≡ memory_contents self.old }
        ensures count { self.new.failures ≡ min (self.old.failures + 1) (2 ^ 64 - 1) }
    {
        self.failures = self.failures.saturating_add(1);
        FolderError::Fault(fault)
    }

    /// Where the number stands first among those of the open files.
    fn open_place(&self, file: FileNumber) -> Option<usize>
        ensures first { result ≡ position_from (λ n. n == file.index) 0 self.now.open_files.items }
        ensures within { IfSome result (λ i. i < length self.now.open_files.items) }
    {
        self.open_files
            .iter()
            .position(|number| *number == file.index)
    }

    fn is_open(&self, file: FileNumber) -> bool
        ensures { result ≡ is_open file (memory_contents self.now) }
    {
        self.open_files.iter().any(|number| *number == file.index)
    }

    fn index_of_link(&self, name: &str) -> Option<usize>
        ensures first { result ≡ link_place name.now (memory_contents self.now).links }
        ensures within { IfSome result (λ i. i < length self.now.links.items) }
    {
        self.links
            .iter()
            .position(|link| link.name.as_str() == name)
    }

    fn index_of(&self, name: &str) -> Option<usize>
        ensures first { result ≡ file_named name.now (memory_contents self.now).files }
        ensures within { IfSome result (λ i. i < length self.now.files.items) }
    {
        self.files
            .iter()
            .position(|file| file.stands && file.name.as_str() == name)
    }
}

impl Folder for MemoryFolder {
    ghost use Rattle.std.specs.Prelude.{Some};
    ghost use Rattle.tracing_appender_rolling.specs.folders.Memory.{memory_contents};

    ghost contents = { λ m. Some (memory_contents m) };

    ghost failed = { λ m. m.failures };

    fn open_append(&mut self, name: &str) -> Result<FileNumber, FolderError> {
        if self.index_of_link(name).is_some() {
            return Err(self.refuse(FolderFault::Refused));
        }
        self.open_files.reserve(1)?;
        if let Some(index) = self.index_of(name) {
            self.open_files.push_reserved(index);
            return Ok(FileNumber { index });
        }
        let index = self.files.len();
        self.files.push(MemoryFile {
            name: String::from_str(self.alloc, name)?,
            stands: true,
            created: None,
            bytes: Vec::new(self.alloc),
        })?;
        self.open_files.push_reserved(index);
        Ok(FileNumber { index })
    }

    fn close_file(&mut self, file: FileNumber) -> Result<(), FolderError> {
        match self.open_place(file) {
            Some(place) => {
                self.open_files.remove(place);
                Ok(())
            }
            None => Err(self.refuse(FolderFault::NotFound)),
        }
    }

    fn write(&mut self, file: FileNumber, bytes: &[u8]) -> Result<usize, FolderError> {
        if !self.is_open(file) {
            return Err(self.refuse(FolderFault::NotFound));
        }
        if file.index < self.files.len() {
            self.files[file.index].bytes.extend_from_slice(bytes)?;
        }
        Ok(bytes.len())
    }

    fn create_dirs(&mut self) -> Result<(), FolderError> {
        self.has_dirs = true;
        Ok(())
    }

    fn flush(&mut self, file: FileNumber) -> Result<(), FolderError> {
        if self.is_open(file) {
            self.last_flushed = Some(file.index);
            Ok(())
        } else {
            Err(self.refuse(FolderFault::NotFound))
        }
    }

    fn list(&mut self, prefix: &str) -> Result<Vec<Entry>, FolderError> {
        Ok(self.entries(prefix)?)
    }

    fn remove(&mut self, name: &str) -> Result<(), FolderError> {
        match self.index_of(name) {
            Some(index) => {
                self.files[index].stands = false;
                Ok(())
            }
            None => Err(self.refuse(FolderFault::NotFound)),
        }
    }

    fn link(&mut self, name: &str, target: &str) -> Result<(), FolderError> {
        if self.index_of(name).is_some() {
            return Err(self.refuse(FolderFault::Refused));
        }
        let link = MemoryLink {
            name: String::from_str(self.alloc, name)?,
            target: String::from_str(self.alloc, target)?,
        };
        match self.index_of_link(name) {
            Some(index) => self.links[index] = link,
            None => self.links.push(link)?,
        }
        Ok(())
    }

    fn failures(&self) -> u64 {
        self.failures
    }
}

/// Adds an entry where its name begins with a prefix. No other name is copied.
fn add_listed(
    all: &mut Vec<Entry>,
    prefix: &str,
    name: &String,
    plain: bool,
    created: Option<Moment>,
) -> Result<(), AllocError>
    ensures { OnOk result (map listed_of all.new.items ≡ map listed_of all.old.items
        ++ filter (begins_with prefix.now) ((record { name = string_bytes name.now; plain = plain; created = created })
        ∷ [])) }
{
    if name.as_bytes().starts_with(prefix.as_bytes()) {
        let name = name.clone()?;
        all.push(Entry {
            name,
            plain,
            created,
        })?;
    }
    Ok(())
}
