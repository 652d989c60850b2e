//! The thread that a line is of.
ghost use Rattle.std.specs.Prelude.{◌≡◌, ◌++◌, ◌-◌, OnOk, length, string_bytes};
ghost use Rattle.std.specs.Str.{chars};
ghost use Rattle.std.proofs.Math.ListN.{replicate};
ghost use Rattle.event_formatter_lines.specs.times.Threads.{id_start, padded_name, thread_id_text};

use itoa::Buffer;
use std::alloc::AllocError;

// What stands before a thread's number.
#[tactic(auto, unfolding(crate::specs::times::Threads::id_start))]
fn id_start(id: u64, is_padded: bool) -> &'static str
    ensures { result.now ≡ id_start is_padded id }
{
    if is_padded && id < 10 {
        "ThreadId(0"
    } else {
        "ThreadId("
    }
}

/// Appends a thread's number as `ThreadId(1)`; with two digits at least, as `ThreadId(01)`, where it is padded.
///
/// # Errors
///
/// Out of memory.
pub fn push_thread_id(out: &mut String, id: u64, is_padded: bool) -> Result<(), AllocError>
    ensures { OnOk result (string_bytes out.new ≡ string_bytes out.old ++ thread_id_text is_padded id) }
{
    let mut buffer = Buffer::new();
    out.push_str(id_start(id, is_padded))?;
    out.push_str(buffer.format(id))?;
    out.push(')')
}

// Appends so many spaces.
#[tactic(auto, using(crate::proofs::times::Spaces::one_more))]
fn push_spaces(out: &mut String, count: usize) -> Result<(), AllocError>
    ensures { OnOk result (string_bytes out.new ≡ string_bytes out.old ++ replicate count 32) }
{
    for _ in 0..count {
        out.push(' ')?;
    }
    Ok(())
}

// How many characters a text has.
fn char_count(text: &str) -> usize
    ensures { result ≡ length (chars text.now) }
{
    text.chars().count()
}

/// Appends a thread's name, behind the spaces that bring it to as many characters as the longest name had bytes.
///
/// # Errors
///
/// Out of memory.
pub fn push_thread_name(out: &mut String, name: &str, longest: usize) -> Result<(), AllocError>
    ensures { OnOk result (string_bytes out.new ≡ string_bytes out.old ++ padded_name longest name.now) }
{
    push_spaces(out, longest.saturating_sub(char_count(name)))?;
    out.push_str(name)
}
