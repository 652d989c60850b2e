//! How often a log file changes.

ghost use Rattle.std.specs.Prelude.{◌≡◌, true};
ghost use Rattle.tracing_core_moments.specs.Periods.{first_second};
ghost use Rattle.tracing_core_moments.specs.Moments.{is_moment, period_at, end_of};

use tracing_core_moments::{Moment, PeriodKind};

/// How often a log file changes. Periods are those of UTC time.
#[derive(Clone, Copy, Debug, PartialEq, Eq)]
pub struct Rotation(pub(crate) PeriodKind);

impl Rotation {
    ghost use Rattle.tracing_appender_rolling.specs.Builders.{kind_of};

    /// Each minute.
    pub const MINUTELY: Rotation = Rotation(PeriodKind::Minute);
    /// Each hour.
    pub const HOURLY: Rotation = Rotation(PeriodKind::Hour);
    /// Each day.
    pub const DAILY: Rotation = Rotation(PeriodKind::Day);
    /// Each Sunday.
    pub const WEEKLY: Rotation = Rotation(PeriodKind::Week);
    /// One file for all of time.
    pub const NEVER: Rotation = Rotation(PeriodKind::Whole);

    /// The first second of the period in which a moment lies; none for `NEVER`.
    pub fn period_start(self, moment: Moment) -> Option<i64>
        requires { is_moment moment ≡ true }
        ensures { result ≡ first_second (kind_of self) (period_at (kind_of self) moment) }
    {
        self.0.first_of(moment.seconds)
    }

    /// The first second of the period after the one in which a moment lies, which may lie past the last
    /// moment; none for `NEVER`.
    pub fn next_date(self, moment: Moment) -> Option<i64>
        requires { is_moment moment ≡ true }
        ensures { result ≡ end_of (kind_of self) (period_at (kind_of self) moment) }
    {
        self.0.next_after(moment.seconds)
    }

    /// The moment rounded down to its period, which is `period_start`.
    pub fn round_date(self, moment: Moment) -> Option<i64>
        requires { is_moment moment ≡ true }
        ensures { result ≡ first_second (kind_of self) (period_at (kind_of self) moment) }
    {
        self.period_start(moment)
    }
}
