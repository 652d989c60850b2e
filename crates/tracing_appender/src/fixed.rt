//! A clock that is set by hand.
ghost use Rattle.std.specs.Prelude.{◌≡◌, true};
ghost use Rattle.tracing_core_moments.specs.Moments.{is_moment};

use crate::clock::Clock;
use tracing_core_moments::Moment;

/// A clock that stands at a moment until it is set to another, for tests and for replays.
#[derive(Clone, Copy, Debug, Drop)]
pub struct FixedClock {
    moment: Moment,
    ghost in_range: { is_moment moment ≡ true },
}

impl FixedClock {
    /// A clock that stands at this moment.
    pub fn new(moment: Moment) -> FixedClock
        requires { is_moment moment ≡ true }
        ensures { result.moment ≡ moment }
    {
        FixedClock { moment }
    }

    /// From now on the clock stands at this moment.
    pub fn set(&mut self, moment: Moment)
        requires { is_moment moment ≡ true }
        ensures { self.new.moment ≡ moment }
    {
        self.moment = moment;
    }
}

impl Clock for FixedClock {
    ghost reads = { λ old moment new. (moment ≡ old.moment) × (new.moment ≡ old.moment) };

    fn now(&mut self) -> Moment {
        self.moment
    }
}
