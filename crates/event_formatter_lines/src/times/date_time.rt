//! Moments by themselves.
ghost use Rattle.std.specs.Prelude.{◌≡◌, Some, IfOk, string_bytes};
ghost use Rattle.event_formatter_lines.specs.times.Times.{IsText, moment_text};

use crate::times::system_time::SystemTime;
use crate::times::timer::FormatTime;
use event_formatter_text::FormatError;
use std::alloc::Global;

/// A moment: seconds from 1970-01-01T00:00:00Z, and the nanoseconds after these, which are below a second.
#[derive(Clone, Copy, Debug, PartialEq, Eq)]
pub struct DateTime {
    /// The seconds.
    pub seconds: i64,
    /// The nanoseconds after the seconds.
    pub nanoseconds: u32,
}

impl DateTime {
    /// The moment as `YYYY-MM-DDTHH:MM:SS.ffffffZ`, in UTC; parts of a microsecond are cut off.
    ///
    /// # Errors
    ///
    /// A moment outside the years 0 to 9999 or with a second or more of nanoseconds, and out of memory.
    pub fn text(&self, alloc: Global) -> Result<String, FormatError>
        ensures { IsText (moment_text self.now.seconds self.now.nanoseconds) result }
    {
        let mut out = String::new(alloc);
        SystemTime::new().format_time(alloc, &mut out, self.seconds, self.nanoseconds)?;
        Ok(out)
    }
}
