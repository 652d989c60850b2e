//! Periods of time.

ghost use Rattle.std.specs.Prelude.{◌≡◌, ◌≤ℤ◌, ℤ, pos, negsuc, ◌+ℤ◌, true};
ghost use Rattle.tracing_core_moments.specs.Days.{is_second};

/// How long a period is. Periods are those of UTC time.
#[derive(Clone, Copy, Debug, PartialEq, Eq)]
pub enum PeriodKind {
    Minute,
    Hour,
    Day,
    /// From a Sunday on.
    Week,
    /// All of time.
    Whole,
}

impl PeriodKind {
    ghost use Rattle.tracing_core_moments.specs.Periods.{period_of, first_second};

    /// The number of the period in which a second lies.
    pub fn period_of(self, second: i64) -> i64
        requires { is_second second ≡ true }
        // Periods are minutes, hours, days, weeks from Sunday, or all of time, before 1970 too.
        ensures value { result ≡ period_of self second }
        ensures range { (negsuc 1035593279 ≤ℤ result) × (result ≤ℤ pos 4222846079) }
    {
        match self {
            PeriodKind::Minute => second.div_euclid(60),
            PeriodKind::Hour => second.div_euclid(3600),
            PeriodKind::Day => second.div_euclid(86_400),
            PeriodKind::Week => (second.div_euclid(86_400) + 4).div_euclid(7),
            PeriodKind::Whole => 0,
        }
    }

    /// The first second of the period in which a second lies; none for all of time.
    pub fn first_of(self, second: i64) -> Option<i64>
        requires { is_second second ≡ true }
        ensures { result ≡ first_second self (period_of self second) }
    {
        self.first_second(self.period_of(second))
    }

    /// The first second of the period after the one in which a second lies; none for all of time.
    pub fn next_after(self, second: i64) -> Option<i64>
        requires { is_second second ≡ true }
        ensures { result ≡ first_second self (period_of self second +ℤ pos 1) }
    {
        self.first_second(self.period_of(second) + 1)
    }

    fn first_second(self, period: i64) -> Option<i64>
        requires { (negsuc 1035593279 ≤ℤ period) × (period ≤ℤ pos 4222846080) }
        ensures { result ≡ first_second self period }
    {
        match self {
            PeriodKind::Minute => Some(period * 60),
            PeriodKind::Hour => Some(period * 3600),
            PeriodKind::Day => Some(period * 86_400),
            PeriodKind::Week => Some((period * 7 - 4) * 86_400),
            PeriodKind::Whole => None,
        }
    }
}
