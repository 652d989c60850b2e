//! A folder in memory that refuses some calls, and cuts some writes short.

ghost use Rattle.std.specs.Prelude.{◌≡◌, [], min, if◌then◌else◌};
ghost use Rattle.tracing_appender_rolling.specs.folders.Contents.{failures_after};
ghost use Rattle.tracing_appender_rolling.specs.folders.Faulty.{has_number};

use crate::folders::fault::{Entry, FileNumber, FolderError, FolderFault, failures_after};
use crate::folders::folder::Folder;
use crate::folders::memory::MemoryFolder;

/// A folder in memory that refuses calls by their numbers, for tests of what a folder's faults leave. All
/// calls of `Folder` but
/// `failures` are numbered, from 1; its faults are `Refused`, unless it is told others.
#[derive(Debug, Drop)]
pub struct FaultyFolder {
    inner: MemoryFolder,
    refused: Vec<u64>,
    fault: FolderFault,
    short: Vec<u64>,
    most: usize,
    calls: u64,
    failures: u64,
}

impl FaultyFolder {
    ghost use Rattle.tracing_appender_rolling.specs.folders.Faulty.{faulty_contents, plan_of, under_plan, number_after, Made};
    ghost use Rattle.tracing_appender_rolling.specs.folders.Memory.{memory_contents};

    /// Refuses the calls with these numbers, over a folder in memory.
    pub fn new(inner: MemoryFolder, refused: Vec<u64>) -> FaultyFolder
        ensures contents { faulty_contents result ≡ under_plan (memory_contents inner)
            (record { refused = refused.items; fault = FolderFault.Refused; short = []; most = 0 }) 0 }
        ensures failures { result.failures ≡ 0 }
    {
        let alloc = inner.alloc;
        FaultyFolder {
            inner,
            refused,
            fault: FolderFault::Refused,
            short: Vec::new(alloc),
            most: 0,
            calls: 0,
            failures: 0,
        }
    }

    /// Refused calls answer this fault.
    pub fn with_fault(self, fault: FolderFault) -> FaultyFolder
        ensures contents { faulty_contents result ≡ under_plan (memory_contents self.inner)
            (record (plan_of self) { fault = fault }) self.calls }
        ensures failures { result.failures ≡ self.failures }
    {
        FaultyFolder { fault, ..self }
    }

    /// A write with one of these numbers takes at most so many bytes, which may be none.
    pub fn with_short_writes(self, short: Vec<u64>, most: usize) -> FaultyFolder
        ensures contents { faulty_contents result ≡ under_plan (memory_contents self.inner)
            (record (plan_of self) { short = short.items; most = most }) self.calls }
        ensures failures { result.failures ≡ self.failures }
    {
        FaultyFolder {
            short,
            most,
            ..self
        }
    }

    /// The folder in memory, as the calls left it.
    pub fn inner(&self) -> &MemoryFolder
        ensures { result.now ≡ self.now.inner }
    {
        &self.inner
    }

    /// The number of the next call.
    fn next_number(&self) -> u64
        ensures { result ≡ number_after self.now.calls 0 }
    {
        self.calls.saturating_add(1)
    }

    /// How many of so many bytes the next call takes, if it is a write and isn't refused.
    fn taken_of(&self, len: usize) -> usize
        ensures { result ≡ (if has_number self.now.short.items (number_after self.now.calls 0) then min self.now.most
            len else len) }
    {
        if has_number(self.short.as_slice(), self.next_number()) {
            len.min(self.most)
        } else {
            len
        }
    }

    /// Counts the fault, if the answer is one.
    fn counted<T: Drop>(&mut self, answer: Result<T, FolderError>) -> Result<T, FolderError>
        ensures result { result ≡ answer }
        ensures count { self.new ≡ record self.old { failures = failures_after self.old.failures answer } }
    {
        self.failures = failures_after(self.failures, &answer);
        answer
    }

    /// Makes the next call on the folder in memory, where the plan doesn't refuse it.
    fn make<T: Drop, F: FnOnce(&mut MemoryFolder) -> Result<T, FolderError>>(
        &mut self,
        call: F,
    ) -> Result<T, FolderError>
        requires { F.IsAlwaysCallable call }
        ensures made { Made F.FnOnce call self.old result self.new }
        ensures count { self.new.failures ≡ failures_after self.old.failures result }
    {
        self.calls = self.next_number();
        if has_number(self.refused.as_slice(), self.calls) {
            return self.counted(Err(FolderError::Fault(self.fault)));
        }
        let answer = call(&mut self.inner);
        self.counted(answer)
    }
}

impl Folder for FaultyFolder {
    ghost use Rattle.std.specs.Prelude.{Some};
    ghost use Rattle.tracing_appender_rolling.specs.folders.Faulty.{faulty_contents};

    ghost contents = { λ f. Some (faulty_contents f) };

    ghost failed = { λ f. f.failures };

    fn open_append(&mut self, name: &str) -> Result<FileNumber, FolderError> {
        self.make(|inner| inner.open_append(name))
    }

    fn close_file(&mut self, file: FileNumber) -> Result<(), FolderError> {
        self.make(|inner| inner.close_file(file))
    }

    fn write(&mut self, file: FileNumber, bytes: &[u8]) -> Result<usize, FolderError> {
        let taken = &bytes[..self.taken_of(bytes.len())];
        self.make(|inner| inner.write(file, taken))
    }

    fn remove(&mut self, name: &str) -> Result<(), FolderError> {
        self.make(|inner| inner.remove(name))
    }

    fn list(&mut self, prefix: &str) -> Result<Vec<Entry>, FolderError> {
        self.make(|inner| inner.list(prefix))
    }

    fn create_dirs(&mut self) -> Result<(), FolderError> {
        self.make(|inner| inner.create_dirs())
    }

    fn flush(&mut self, file: FileNumber) -> Result<(), FolderError> {
        self.make(|inner| inner.flush(file))
    }

    fn link(&mut self, name: &str, target: &str) -> Result<(), FolderError> {
        self.make(|inner| inner.link(name, target))
    }

    fn failures(&self) -> u64 {
        self.failures
    }
}

fn has_number(numbers: &[u64], number: u64) -> bool
    ensures { result ≡ has_number numbers.now number }
{
    numbers.iter().any(|n| *n == number)
}
