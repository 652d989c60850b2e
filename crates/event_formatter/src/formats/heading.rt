//! The texts of the time and the thread of an event.
ghost use Rattle.std.specs.Prelude.{◌≡◌, ◌++◌, ℕ, ℤ, OnOk, if◌then◌else◌, string_bytes};
ghost use Rattle.event_formatter_lines.specs.times.Threads.{padded_name};
ghost use Rattle.event_formatter.specs.formats.Contexts.{plain_thread};
ghost use Rattle.event_formatter.specs.formats.Headings.{Shows, id_in_place, id_shown, name_shown, time_or_unknown, time_shown};

use crate::formats::cold_path::refused;
use crate::formats::context::CurrentThread;
use crate::formats::parts::Parts;
use event_formatter_lines::{FormatTime, push_thread_id, push_thread_name};
use event_formatter_text::FormatError;
use std::alloc::{AllocError, Global};
use tracing_core_moments::At;

/// Where a time is shown, puts the text of the moment in place of what `out` held. It answers whether one is.
///
/// # Errors
///
/// Out of memory.
pub(crate) fn fill_time<T: FormatTime>(
    alloc: Global,
    out: &mut String,
    parts: Parts,
    timer: &mut T,
    at: At,
) -> Result<bool, AllocError>
    ensures timer { (s : ℤ) (n : ℕ) → T.text_at timer.new s n ≡ T.text_at timer.old s n }
    ensures text { Shows (time_shown parts (T.text_at timer.old at.seconds at.nanoseconds)) result
        (string_bytes out.new) }
{
    if !parts.timestamp {
        return Ok(false);
    }
    fill_moment(alloc, out, timer, at)?;
    Ok(true)
}

/// Puts the text of the moment in place of what `out` held.
///
/// # Errors
///
/// Out of memory.
#[inline(always)]
pub(crate) fn fill_moment<T: FormatTime>(
    alloc: Global,
    out: &mut String,
    timer: &mut T,
    at: At,
) -> Result<(), AllocError>
    ensures timer { (s : ℤ) (n : ℕ) → T.text_at timer.new s n ≡ T.text_at timer.old s n }
    ensures text { OnOk result (string_bytes out.new ≡ time_or_unknown (T.text_at timer.old at.seconds at.nanoseconds)) }
{
    out.clear();
    push_moment(alloc, out, timer, at.seconds, at.nanoseconds)
}

/// Appends the text of the moment, and another one where the timer has none.
///
/// # Errors
///
/// Out of memory.
#[inline(always)]
pub(crate) fn push_moment<T: FormatTime>(
    alloc: Global,
    out: &mut String,
    timer: &mut T,
    seconds: i64,
    nanoseconds: u32,
) -> Result<(), AllocError>
    ensures timer { (s : ℤ) (n : ℕ) → T.text_at timer.new s n ≡ T.text_at timer.old s n }
    ensures text { OnOk result (string_bytes out.new ≡ string_bytes out.old
        ++ time_or_unknown (T.text_at timer.old seconds nanoseconds)) }
{
    match timer.format_time(alloc, out, seconds, nanoseconds) {
        Ok(()) => Ok(()),
        Err(FormatError::Failed) => out.push_str("<unknown time>"),
        Err(FormatError::OutOfMemory) => Err(AllocError),
    }
}

/// Puts the thread's number in place of what `out` held, and answers whether it is shown.
///
/// # Errors
///
/// Out of memory.
pub(crate) fn fill_id(
    out: &mut String,
    is_padded: bool,
    parts: Parts,
    thread: CurrentThread<'_>,
) -> Result<bool, AllocError>
    ensures { Shows (id_shown is_padded parts (plain_thread thread.entry)) result (string_bytes out.new) }
{
    out.clear();
    if !parts.thread_ids {
        return Ok(false);
    }
    push_thread_id(out, thread.id, is_padded)?;
    Ok(true)
}

// Appends a name to an empty text.
fn push_name(
    out: &mut String,
    is_padded: bool,
    name: &str,
    longest: usize,
) -> Result<(), AllocError>
    ensures { OnOk result (string_bytes out.new ≡ string_bytes out.old
        ++ (if is_padded then padded_name longest name.now else name.now)) }
{
    if is_padded {
        push_thread_name(out, name, longest)
    } else {
        out.push_str(name)
    }
}

// Puts the number in the place of a name that there isn't, unless it is shown itself.
fn fill_place(
    out: &mut String,
    is_padded: bool,
    parts: Parts,
    thread: CurrentThread<'_>,
) -> Result<bool, AllocError>
    ensures { Shows (id_in_place is_padded parts (plain_thread thread.entry)) result (string_bytes out.new) }
{
    out.clear();
    if parts.thread_ids {
        return Ok(false);
    }
    push_thread_id(out, thread.id, is_padded)?;
    Ok(true)
}

/// Puts the thread's name, or what stands in its place, in place of what `out` held, and answers whether there is one.
///
/// # Errors
///
/// Out of memory.
pub(crate) fn fill_name(
    out: &mut String,
    is_padded: bool,
    parts: Parts,
    thread: CurrentThread<'_>,
) -> Result<bool, AllocError>
    ensures { Shows (name_shown is_padded parts (plain_thread thread.entry)) result (string_bytes out.new) }
{
    out.clear();
    if !parts.thread_names {
        return Ok(false);
    }
    match thread.name {
        None => fill_place(out, is_padded, parts, thread),
        Some(name) => {
            push_name(out, is_padded, name, thread.longest)?;
            Ok(true)
        }
    }
}
