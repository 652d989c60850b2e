//! What tells the time.
ghost use Rattle.std.specs.Prelude.{◌≡◌, true};
ghost use Rattle.tracing_core_moments.specs.declared.moment.Moment.{Moment};
ghost use Rattle.tracing_core_moments.specs.Moments.{is_moment};

use tracing_core_moments::Moment;

/// Tells what moment it is.
pub trait Clock: Drop {
    // Which moment one reading may answer, and what it leaves of the clock.
    ghost reads: { Self → Moment → Self → Type 0 };

    /// The moment that it is now, from 0001-01-01 to 9998-12-31.
    fn now(&mut self) -> Moment
        ensures in_range { is_moment result ≡ true }
        ensures read { reads self.old result self.new };
}
