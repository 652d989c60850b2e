//! The clock of the machine.
ghost use Rattle.std.specs.Prelude.{◌≡◌, Result, Some, true};
ghost use Rattle.tracing_core_moments.specs.Moments.{is_moment};
ghost use Rattle.std.specs.Duration.{as_nanos};
ghost use Rattle.tracing_appender.specs.ClockMoments.{told, nanoseconds_of};
ghost use Rattle.std.specs.declared.io.Error.{Error};
ghost use Rattle.std.specs.declared.time.SystemTime.{SystemTime};

use crate::clock::Clock;
use std::time::{Duration, SystemTime, UNIX_EPOCH};
use std::{io, rt};
use tracing_core_moments::Moment;

/// The clock of the machine, as a runtime reads it. Where it can't be read, or reads a moment before 1970 or after
/// 9998-12-31, the clock answers again what it answered last, at first the moment that it was made with.
#[derive(Drop)]
pub struct SystemClock<R> {
    runtime: R,
    last: Moment,
    ghost in_range: { is_moment last ≡ true },
}

impl<R> SystemClock<R> {
    /// A clock that reads by this runtime, and answers this moment until it could be read.
    pub fn new(runtime: R, first: Moment) -> SystemClock<R>
        requires { is_moment first ≡ true }
        ensures { (result.runtime ≡ runtime) × (result.last ≡ first) }
    {
        SystemClock {
            runtime,
            last: first,
        }
    }
}

/// The moment so long after 1970-01-01T00:00:00Z, where it is in range.
fn moment_after(since_1970: Duration) -> Option<Moment>
    ensures { result ≡ told (Some (as_nanos since_1970)) }
{
    let seconds = i64::try_from(since_1970.as_secs()).ok()?;
    Moment::new(seconds, since_1970.subsec_nanos()).ok()
}

/// What a reading tells, where it succeeded and that is in range.
fn moment_of(reading: io::Result<SystemTime>) -> Option<Moment>
    ensures { result ≡ told (nanoseconds_of reading) }
{
    let since_1970 = reading.ok()?.duration_since(UNIX_EPOCH).ok()?;
    moment_after(since_1970)
}

/// What the machine's clock reads, where it can be read and that is in range.
fn read<R: rt::Clock>(runtime: &R) -> Option<Moment>
    ensures { (reading : Result SystemTime Error) × (result ≡ told (nanoseconds_of reading)) }
{
    moment_of(SystemTime::now(runtime))
}

impl<R: rt::Clock + Drop> Clock for SystemClock<R> {
    ghost use Rattle.tracing_appender.specs.SystemClocks.{ReadsMachine};

    ghost reads = { ReadsMachine };

    fn now(&mut self) -> Moment {
        if let Some(moment) = read(&self.runtime) {
            self.last = moment;
        }
        self.last
    }
}
