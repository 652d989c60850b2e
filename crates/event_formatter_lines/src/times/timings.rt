//! How long a span was busy and idle, from the moments that it is told.
//!
//! A moment is given in seconds from 1970-01-01T00:00:00Z and the nanoseconds after these; the sums are in nanoseconds.
ghost use Rattle.std.specs.Prelude.{◌≡◌};
ghost use Rattle.event_formatter_lines.specs.times.SpanTimings.{at_start, deeper, shallower, until};

use crate::times::uptime::since;
use span_registry_layers_store::Timings;

/// The timings of a span that was made at this moment.
pub fn timings_at_start(seconds: i64, nanoseconds: u32) -> Timings
    ensures { result ≡ at_start seconds nanoseconds }
{
    Timings {
        busy: 0,
        idle: 0,
        depth: 0,
        last_seconds: seconds,
        last_nanoseconds: nanoseconds,
    }
}

// The timings until this moment.
fn timings_until(timings: &Timings, seconds: i64, nanoseconds: u32) -> Timings
    ensures { result ≡ until timings.now seconds nanoseconds }
{
    let last = (timings.last_seconds, timings.last_nanoseconds);
    let passed = since(last, (seconds, nanoseconds));
    let mut until = *timings;
    if 0 < timings.depth {
        until.busy = timings.busy.saturating_add(passed);
    } else {
        until.idle = timings.idle.saturating_add(passed);
    }
    until.last_seconds = seconds;
    until.last_nanoseconds = nanoseconds;
    until
}

/// The timings once the span was entered at this moment.
pub fn timings_after_enter(timings: &Timings, seconds: i64, nanoseconds: u32) -> Timings
    ensures { result ≡ deeper (until timings.now seconds nanoseconds) }
{
    let mut after = timings_until(timings, seconds, nanoseconds);
    after.depth = after.depth.saturating_add(1);
    after
}

/// The timings once the span was left at this moment.
pub fn timings_after_exit(timings: &Timings, seconds: i64, nanoseconds: u32) -> Timings
    ensures { result ≡ shallower (until timings.now seconds nanoseconds) }
{
    let mut after = timings_until(timings, seconds, nanoseconds);
    after.depth = after.depth.saturating_sub(1);
    after
}

/// The timings once the span closed at this moment.
pub fn timings_after_close(timings: &Timings, seconds: i64, nanoseconds: u32) -> Timings
    ensures { result ≡ until timings.now seconds nanoseconds }
{
    timings_until(timings, seconds, nanoseconds)
}
