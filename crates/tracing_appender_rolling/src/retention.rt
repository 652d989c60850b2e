//! Which files go where one more is to be opened.

ghost use Rattle.std.specs.Prelude.{◌≡◌, ◌≤◌, [], ◌∷◌, ◌++◌, IfOk, OnOk, map, length, string_bytes};
ghost use Rattle.std.specs.Option.{option_map};
ghost use Rattle.std.specs.Ordering.{is_lt};
ghost use Rattle.std.specs.List.Sorted.{IsPermutation, IsSortedBy};
ghost use Rattle.tracing_appender_rolling.specs.Builders.{builder_names};
ghost use Rattle.tracing_appender_rolling.specs.folders.ListedEntries.{listed_of};
ghost use Rattle.tracing_appender_rolling.specs.Retention.{date_in, made_of, begins, ends, is_before, goes_by};
ghost use Rattle.tracing_appender_rolling.specs.Retention.{GoesBy, candidate_first, candidates_in, candidate_of, asked_prefix};
ghost use Rattle.tracing_appender_rolling.specs.RetentionRemovals.{Removes, RemovesDoomed, Prunes, names_by};
ghost use Rattle.tracing_appender_rolling.specs.FaultReports.{CountsOnly, CountsPruning, CountsRetention};

use crate::builder::Builder;
use crate::faults::Faults;
use crate::folders::{Entry, Folder, FolderError};
use std::alloc::{AllocError, Global};
use std::cmp::Ordering;
use tracing_core_moments::{Moment, read_name};

/// A file that retention may remove, with the moment from which it counts.
#[derive(Clone, Copy, Debug)]
pub(crate) struct Candidate<'a> {
    name: &'a str,
    made: Moment,
}

fn begins_with(name: &[u8], prefix: &Option<String>) -> bool
    ensures { result ≡ begins (option_map string_bytes prefix.now) name.now }
{
    match prefix {
        None => true,
        Some(prefix) => name.starts_with(prefix.as_bytes()),
    }
}

fn ends_with(name: &[u8], suffix: &Option<String>) -> bool
    ensures { result ≡ ends (option_map string_bytes suffix.now) name.now }
{
    match suffix {
        None => true,
        Some(suffix) => name.ends_with(suffix.as_bytes()),
    }
}

/// The moment from which an entry counts: that of its making, else the date in its name; none where it is no candidate.
fn made_at(builder: &Builder, entry: &Entry, date: Option<i64>) -> Option<Moment>
    ensures { result ≡ made_of (builder_names builder.now) (listed_of entry.now) date }
{
    let name = entry.name.as_bytes();
    if !entry.plain || !begins_with(name, &builder.prefix) || !ends_with(name, &builder.suffix) {
        return None;
    }
    if builder.prefix.is_none() && builder.suffix.is_none() && date.is_none() {
        return None;
    }
    match (entry.created, date) {
        (Some(moment), _) => Some(moment),
        (None, Some(seconds)) => Some(Moment {
            seconds,
            nanoseconds: 0,
        }),
        (None, None) => None,
    }
}

/// The date in an entry's name.
fn date_of(builder: &Builder, entry: &Entry) -> Option<i64>
    ensures { result ≡ date_in (builder_names builder.now) (listed_of entry.now).name }
{
    let name = entry.name.as_bytes();
    read_name(builder.rotation.0, &builder.prefix, &builder.suffix, name)
}

/// Adds an entry where it is a candidate.
fn add_candidate<'a>(
    builder: &Builder,
    all: &mut Vec<Candidate<'a>>,
    entry: &'a Entry,
) -> Result<(), AllocError>
    ensures { OnOk result (map candidate_of all.new.items ≡ map candidate_of all.old.items ++
        candidate_first (builder_names builder.now) (listed_of entry.now) []) }
{
    let date = date_of(builder, entry);
    if let Some(made) = made_at(builder, entry, date) {
        let name = entry.name.as_str();
        all.push(Candidate { name, made })?;
    }
    Ok(())
}

/// The files of a listing that retention may remove.
fn candidates<'a>(
    alloc: Global,
    builder: &Builder,
    entries: &'a [Entry],
) -> Result<Vec<Candidate<'a>>, AllocError>
    ensures { IfOk result (λ all. map candidate_of all.items ≡
        candidates_in (builder_names builder.now) (map listed_of entries.now)) }
{
    let mut all = Vec::new(alloc);
    for entry in entries {
        add_candidate(builder, &mut all, entry)?;
    }
    Ok(all)
}

/// Whether one counts from an earlier moment than another, or from an equal one and has the smaller name in byte order.
fn is_before(one: &Candidate<'_>, other: &Candidate<'_>) -> bool
    ensures { result ≡ is_before (candidate_of one.now) (candidate_of other.now) }
{
    one.made.is_earlier(other.made) || !other.made.is_earlier(one.made) && one.name < other.name
}

/// The order in which candidates go.
fn order(one: &Candidate<'_>, other: &Candidate<'_>) -> Ordering
    ensures { is_lt result ≡ is_before (candidate_of one.now) (candidate_of other.now) }
{
    if is_before(one, other) {
        return Ordering::Less;
    }
    if is_before(other, one) {
        return Ordering::Greater;
    }
    Ordering::Equal
}

fn sort_candidates(all: &mut Vec<Candidate<'_>>)
    ensures same { IsPermutation all.old.items all.new.items }
    ensures sorted { IsSortedBy (λ a b. is_before (candidate_of a) (candidate_of b)) all.new.items }
{
    all.sort_unstable_by(|one, other| order(one, other));
}

/// The last candidate that goes, so that a new file has room beside those behind it; none where all go.
fn last_doomed<'a>(
    alloc: Global,
    all: &[Candidate<'a>],
    limit: usize,
) -> Result<Option<Candidate<'a>>, AllocError>
    requires { limit ≤ length all.now }
    ensures { IfOk result (λ last. GoesBy limit (map candidate_of all.now) (option_map candidate_of last)) }
{
    let mut sorted = Vec::from_slice(alloc, all)?;
    sort_candidates(&mut sorted);
    let place = all.len() - limit;
    if place < sorted.len() {
        Ok(Some(sorted[place]))
    } else {
        Ok(None)
    }
}

/// Whether a candidate stands no further behind than the last one that goes.
fn is_doomed(last: &Option<Candidate<'_>>, candidate: &Candidate<'_>) -> bool
    ensures { result ≡ goes_by (option_map candidate_of last.now) (candidate_of candidate.now) }
{
    match last {
        None => true,
        Some(last) => !is_before(last, candidate),
    }
}

/// Removes a file. A fault is counted.
fn remove_file<D: Folder>(folder: &mut D, name: &str, faults: &mut Faults) -> Result<(), AllocError>
    ensures removes { Removes (name.now ∷ []) faults.old (D.contents folder.old) result faults.new
        (D.contents folder.new) }
    // The faults that are counted are exactly those that the folder told, so that a refusal isn't told as out of memory.
    ensures counts { CountsOnly (D.failed folder.old) faults.old faults.new (D.failed folder.new) }
{
    match folder.remove(name) {
        Ok(()) => Ok(()),
        Err(FolderError::OutOfMemory) => Err(AllocError),
        Err(FolderError::Fault(fault)) => {
            *faults = faults.after_retention(fault);
            Ok(())
        }
    }
}

/// Removes a candidate where it goes.
fn remove_if_doomed<D: Folder>(
    folder: &mut D,
    last: &Option<Candidate<'_>>,
    candidate: &Candidate<'_>,
    faults: &mut Faults,
) -> Result<(), AllocError>
    ensures removes { Removes (names_by (goes_by (option_map candidate_of last.now)) (candidate_of candidate.now ∷ []))
        faults.old (D.contents folder.old) result faults.new (D.contents folder.new) }
    ensures counts { CountsOnly (D.failed folder.old) faults.old faults.new (D.failed folder.new) }
{
    if !is_doomed(last, candidate) {
        return Ok(());
    }
    remove_file(folder, candidate.name, faults)?;
    Ok(())
}

/// Removes the candidates that stand up to the last one. A fault is counted, and the work goes on.
fn remove_up_to<D: Folder>(
    folder: &mut D,
    all: &[Candidate<'_>],
    last: &Option<Candidate<'_>>,
    faults: &mut Faults,
) -> Result<(), AllocError>
    ensures removes { Removes (names_by (goes_by (option_map candidate_of last.now)) (map candidate_of all.now))
        faults.old (D.contents folder.old) result faults.new (D.contents folder.new) }
    ensures counts { CountsOnly (D.failed folder.old) faults.old faults.new (D.failed folder.new) }
{
    for candidate in all {
        remove_if_doomed(folder, last, candidate, faults)?;
    }
    Ok(())
}

/// Removes the candidates that go. They are sorted once.
fn remove_doomed<D: Folder>(
    alloc: Global,
    folder: &mut D,
    all: &[Candidate<'_>],
    limit: usize,
    faults: &mut Faults,
) -> Result<(), AllocError>
    ensures removes { RemovesDoomed limit (map candidate_of all.now) faults.old (D.contents folder.old) result
        faults.new (D.contents folder.new) }
    ensures counts { CountsOnly (D.failed folder.old) faults.old faults.new (D.failed folder.new) }
{
    if all.len() < limit {
        return Ok(());
    }
    let last = last_doomed(alloc, all, limit)?;
    remove_up_to(folder, all, &last, faults)?;
    Ok(())
}

/// The prefix of the names that are asked for, which is empty where there is none.
fn asked_prefix(builder: &Builder) -> &str
    ensures { result.now ≡ asked_prefix (builder_names builder.now) }
{
    match &builder.prefix {
        None => "",
        Some(prefix) => prefix.as_str(),
    }
}

/// Removes the files that go where one more is to be opened, where there is a limit. A fault is counted, and
/// the work goes on; out of memory ends it. A directory that isn't there yet has nothing to remove, and is no fault.
pub(crate) fn prune_old_logs<D: Folder>(
    alloc: Global,
    builder: &Builder,
    folder: &mut D,
    faults: &mut Faults,
) -> Result<(), AllocError>
    ensures pruned { Prunes (builder_names builder.now) faults.old (D.contents folder.old) result faults.new
        (D.contents folder.new) }
    // A fault is counted only where the folder told one.
    ensures counts { CountsRetention (D.failed folder.old) faults.old faults.new (D.failed folder.new) }
    // The faults that are counted are exactly those that the folder told, so that a refused listing isn't told as out of memory; but a
    // listing that didn't find its directory is told by the folder, and not counted.
    ensures told { CountsPruning (D.failed folder.old) faults.old result faults.new (D.failed folder.new) }
{
    let Some(limit) = builder.limit else {
        return Ok(());
    };
    match folder.list(asked_prefix(builder)) {
        Ok(entries) => {
            let all = candidates(alloc, builder, entries.as_slice())?;
            remove_doomed(alloc, folder, all.as_slice(), limit, faults)?;
            Ok(())
        }
        Err(FolderError::OutOfMemory) => Err(AllocError),
        Err(FolderError::Fault(fault)) => {
            *faults = faults.after_listing(fault);
            Ok(())
        }
    }
}
