//! What tells the time of a line.
ghost use Rattle.std.specs.Prelude.{◌≡◌, ℕ, ℤ, List, Option, Some, string_bytes};
ghost use Rattle.event_formatter_lines.specs.times.Times.{TellsTime};

use event_formatter_text::FormatError;
use std::alloc::Global;

/// Writes the time of a moment.
///
/// A timer is handed the moment of what it is asked for, and reads no clock.
pub trait FormatTime {
    // The text of a moment, where there is one.
    ghost text_at: { Self → ℤ → ℕ → Option (List ℕ) };

    /// Appends the text of the moment, which is given in seconds from 1970-01-01T00:00:00Z and the nanoseconds after these.
    ///
    /// # Errors
    ///
    /// `Failed` for a moment that has no text, where nothing is appended, and out of memory, where what was appended is to
    /// be dropped.
    fn format_time(
        &mut self,
        alloc: Global,
        out: &mut String,
        seconds: i64,
        nanoseconds: u32,
    ) -> Result<(), FormatError>
        // What the timer writes of a moment stays the same, whatever it wrote before.
        ensures timer { (s : ℤ) (n : ℕ) → text_at self.new s n ≡ text_at self.old s n }
        // The moment's text is appended, unless memory runs out. Where it has none, `Failed` is answered, never out of memory, and nothing
        // is appended.
        ensures text { TellsTime (text_at self.old seconds nanoseconds) (string_bytes out.old) result
            (string_bytes out.new) };
}

/// Writes the same text at each moment.
#[derive(Drop)]
pub struct FixedText {
    text: String,
}

impl FixedText {
    /// Writes the text.
    pub fn new(text: String) -> FixedText
        ensures { result.text ≡ text }
    {
        FixedText { text }
    }
}

impl FormatTime for FixedText {
    ghost text_at = { λ timer s n. Some (string_bytes timer.text) };

    #[inline(never)]
    fn format_time(
        &mut self,
        _alloc: Global,
        out: &mut String,
        _seconds: i64,
        _nanoseconds: u32,
    ) -> Result<(), FormatError> {
        out.push_str(self.text.as_str())?;
        Ok(())
    }
}

/// Writes nothing.
impl FormatTime for () {
    ghost use Rattle.std.specs.Prelude.{[]};

    ghost text_at = { λ timer s n. Some [] };

    fn format_time(
        &mut self,
        _alloc: Global,
        _out: &mut String,
        _seconds: i64,
        _nanoseconds: u32,
    ) -> Result<(), FormatError> {
        Ok(())
    }
}
