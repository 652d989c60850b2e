//! Points in time.

ghost use Rattle.std.specs.Prelude.{◌≡◌, IfOk, OnErr, true, false};
ghost use Rattle.tracing_core_moments.specs.Moments.{is_moment, is_earlier};

use thiserror::Error;

/// A point in time in UTC: seconds since 1970-01-01T00:00:00Z, and nanoseconds.
#[derive(Clone, Copy, Debug, PartialEq, Eq)]
pub struct Moment {
    pub seconds: i64,
    pub nanoseconds: u32,
}

/// A point in time outside the range of moments.
#[derive(Clone, Copy, Debug, PartialEq, Eq, Error)]
#[error("moment out of range")]
pub struct BadMoment;

impl Moment {
    /// 1970-01-01T00:00:00Z.
    pub const EPOCH: Moment = Moment {
        seconds: 0,
        nanoseconds: 0,
    };

    /// The point so many seconds after 1970-01-01T00:00:00Z, and so many nanoseconds later.
    ///
    /// # Errors
    ///
    /// It lies before 0001-01-01 or after 9998-12-31, or the nanoseconds make a second.
    pub fn new(seconds: i64, nanoseconds: u32) -> Result<Moment, BadMoment>
        ensures ok { IfOk result (λ moment. (moment ≡ record { seconds = seconds; nanoseconds = nanoseconds }) ×
            (is_moment moment ≡ true)) }
        ensures err { OnErr result (is_moment (record { seconds = seconds; nanoseconds = nanoseconds }) ≡ false) }
    {
        let moment = Moment {
            seconds,
            nanoseconds,
        };
        if moment.is_in_range() {
            Ok(moment)
        } else {
            Err(BadMoment)
        }
    }

    /// Whether the moment is earlier than another.
    pub fn is_earlier(self, other: Moment) -> bool
        ensures { result ≡ is_earlier self other }
    {
        self.seconds < other.seconds
            || self.seconds == other.seconds && self.nanoseconds < other.nanoseconds
    }

    /// Whether the moment lies from 0001-01-01 to 9998-12-31, with less than a second of nanoseconds.
    pub fn is_in_range(self) -> bool
        ensures { result ≡ is_moment self }
    {
        -62_135_596_800 <= self.seconds
            && self.seconds <= 253_370_764_799
            && self.nanoseconds < 1_000_000_000
    }
}
