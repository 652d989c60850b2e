//! Entries in the order of their names.

ghost use Rattle.std.specs.Prelude.{◌≡◌, ◌≤◌, ◌<◌, ℕ, OnOk, length, slice_index_or, true, false};
ghost use Rattle.std.specs.Str.{bytes_eq};
ghost use Rattle.tracing_appender_rolling.specs.declared.folders.memory.FileEntry.{FileEntry};
ghost use Rattle.tracing_appender_rolling.specs.folders.Entries.{with_entry, comes_before};

use crate::folders::memory::FileEntry;
use std::alloc::AllocError;

/// Adds an entry before those with greater names, where its name isn't there yet.
pub(crate) fn add_entry<'a>(
    entries: &mut Vec<FileEntry<'a>>,
    entry: FileEntry<'a>,
) -> Result<(), AllocError>
    ensures { OnOk result (entries.new.items ≡ with_entry entry.entry entries.old.items) }
{
    let index = index_among(entries.as_slice(), entry.name);
    if has_name_at(entries.as_slice(), index, entry.name) {
        return Ok(());
    }
    entries.insert(index, entry)?;
    Ok(())
}

/// How many first entries come before a name.
fn index_among(entries: &[FileEntry<'_>], name: &str) -> usize
    ensures bound { result ≤ length entries.now }
    ensures before { (k : ℕ) (d : FileEntry) → k < result →
        comes_before (slice_index_or entries.now k d) name.now ≡ true }
    ensures at { (d : FileEntry) → result < length entries.now →
        comes_before (slice_index_or entries.now result d) name.now ≡ false }
{
    for (index, entry) in entries.iter().enumerate() {
        if entry.name >= name {
            return index;
        }
    }
    entries.len()
}

/// Whether an entry stands at the index and has the name.
fn has_name_at(entries: &[FileEntry<'_>], index: usize, name: &str) -> bool
    ensures bound { result ≡ true → index < length entries.now }
    ensures same { (d : FileEntry) → result ≡ true → bytes_eq (slice_index_or entries.now index d).name.now name.now
        ≡ true }
    ensures differs { (d : FileEntry) → result ≡ false → index < length entries.now →
        bytes_eq (slice_index_or entries.now index d).name.now name.now ≡ false }
{
    match entries.get(index) {
        Some(entry) => entry.name == name,
        None => false,
    }
}
