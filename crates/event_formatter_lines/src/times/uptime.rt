//! The time since a start.
ghost use Rattle.std.specs.Prelude.{◌≡◌, ◌<◌, ◌^◌, ◌++◌, ℤ, OnOk, Some, string_bytes};
ghost use Rattle.std.specs.Fmt.{decimal};
ghost use Rattle.event_formatter_lines.specs.times.Times.{in_four_places, since, spaces_before, total, uptime_text};

use crate::times::digits::push_nine;
use crate::times::timer::FormatTime;
use event_formatter_text::FormatError;
use itoa::Buffer;
use std::alloc::{AllocError, Global};

/// The nanoseconds of a moment, from that of second 0.
pub(crate) fn total(seconds: i64, nanoseconds: u32) -> i128
    ensures { result ≡ total seconds nanoseconds }
{
    seconds as i128 * 1_000_000_000 + nanoseconds as i128
}

/// How many nanoseconds a moment lies after another one; 0 where it lies before it.
pub(crate) fn since(start: (i64, u32), end: (i64, u32)) -> u128
    ensures { result ≡ since (total start.0 start.1) (total end.0 end.1) }
{
    let begun = total(start.0, start.1);
    let ended = total(end.0, end.1);
    if begun < ended {
        (ended - begun) as u128
    } else {
        0
    }
}

// The spaces that bring a number to four places.
#[tactic(auto, unfolding(crate::specs::times::Times::spaces_before))]
fn spaces_before(number: u128) -> &'static str
    ensures { result.now ≡ spaces_before number }
{
    if number < 10 {
        "   "
    } else if number < 100 {
        "  "
    } else if number < 1_000 {
        " "
    } else {
        ""
    }
}

// Appends a number in four places at least.
#[tactic(auto, unfolding(crate::specs::times::Times::in_four_places))]
fn push_in_four_places(out: &mut String, number: u128) -> Result<(), AllocError>
    ensures { OnOk result (string_bytes out.new ≡ string_bytes out.old ++ in_four_places number) }
{
    let mut buffer = Buffer::new();
    out.push_str(spaces_before(number))?;
    out.push_str(buffer.format(number))
}

// Appends so many nanoseconds.
fn push_uptime(out: &mut String, ns: u128) -> Result<(), AllocError>
    ensures { OnOk result (string_bytes out.new ≡ string_bytes out.old ++ uptime_text ns) }
{
    push_in_four_places(out, ns / 1_000_000_000)?;
    out.push('.')?;
    push_nine(out, (ns % 1_000_000_000) as u32)?;
    out.push('s')
}

/// Writes the time since a start, as whole seconds in four places at least and nine digits, and an `s`. Before the start
/// it is 0.
#[derive(Clone, Copy, Debug, PartialEq, Eq)]
pub struct Uptime {
    seconds: i64,
    nanoseconds: u32,
}

impl Uptime {
    /// Counts from this moment, which is given in seconds from 1970-01-01T00:00:00Z and the nanoseconds after these.
    pub fn new(seconds: i64, nanoseconds: u32) -> Uptime
        ensures { (result.seconds ≡ seconds) × (result.nanoseconds ≡ nanoseconds) }
    {
        Uptime {
            seconds,
            nanoseconds,
        }
    }
}

impl FormatTime for Uptime {
    ghost text_at = { λ timer s n. Some (uptime_text (since (total timer.seconds timer.nanoseconds) (total s n))) };

    #[inline(never)]
    fn format_time(
        &mut self,
        _alloc: Global,
        out: &mut String,
        seconds: i64,
        nanoseconds: u32,
    ) -> Result<(), FormatError> {
        push_uptime(
            out,
            since((self.seconds, self.nanoseconds), (seconds, nanoseconds)),
        )?;
        Ok(())
    }
}
