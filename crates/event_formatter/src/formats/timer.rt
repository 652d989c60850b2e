//! The timers as one type.
ghost use Rattle.std.specs.Prelude.{◌≡◌, ℕ, ℤ, string_bytes};
ghost use Rattle.event_formatter_lines.specs.times.Times.{TellsTime};
ghost use Rattle.event_formatter.specs.formats.Timers.{text_at};

use event_formatter_lines::{FixedText, FormatTime, SystemTime, Uptime};
use event_formatter_text::FormatError;
use std::alloc::Global;

/// One of the timers, for outputs that share one type.
#[derive(Drop)]
pub enum Timer {
    /// Moments as `YYYY-MM-DDTHH:MM:SS.ffffffZ`.
    System(SystemTime),
    /// The time since a start.
    Uptime(Uptime),
    /// The same text at each moment.
    Fixed(FixedText),
    /// No text.
    Empty,
}

impl Timer {
    // Appends the moment by whatever timer it is. It stands out of line, as most timers are of the system's time.
    #[inline(never)]
    fn format_by_kind(
        &mut self,
        alloc: Global,
        out: &mut String,
        seconds: i64,
        nanoseconds: u32,
    ) -> Result<(), FormatError>
        ensures timer { (s : ℤ) (n : ℕ) → text_at self.new s n ≡ text_at self.old s n }
        ensures text { TellsTime (text_at self.old seconds nanoseconds) (string_bytes out.old) result
            (string_bytes out.new) }
    {
        match self {
            Timer::System(timer) => timer.format_time(alloc, out, seconds, nanoseconds),
            Timer::Uptime(timer) => timer.format_time(alloc, out, seconds, nanoseconds),
            Timer::Fixed(timer) => timer.format_time(alloc, out, seconds, nanoseconds),
            Timer::Empty => Ok(()),
        }
    }
}

impl FormatTime for Timer {
    ghost text_at = { text_at };

    #[inline(always)]
    fn format_time(
        &mut self,
        alloc: Global,
        out: &mut String,
        seconds: i64,
        nanoseconds: u32,
    ) -> Result<(), FormatError> {
        // Asked by itself, so that the other kinds take no room where lines are written.
        if let Timer::System(timer) = self {
            return timer.format_time(alloc, out, seconds, nanoseconds);
        }
        self.format_by_kind(alloc, out, seconds, nanoseconds)
    }
}
