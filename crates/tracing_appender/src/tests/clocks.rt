//! Clocks of the tests, and the machine's.

ghost use Rattle.std.specs.Prelude.{◌≡◌, true};
ghost use Rattle.tracing_core_moments.specs.Moments.{is_moment};

use crate::{Clock, FixedClock, Moment, SystemClock};
use std::cell::Cell;
use std::test::Fail;
use std::time::Duration;
use std::{io, rt};

/// 2020-02-01T10:01:00Z.
pub const FEBRUARY: Moment = Moment {
    seconds: 1_580_551_260,
    nanoseconds: 0,
};

/// A clock that tells 2020-02-01T10:01:00Z first, and an hour later at each further reading, up to the year 9998.
#[derive(Drop)]
pub struct HourClock {
    next: Moment,
    ghost in_range: { is_moment next ≡ true },
}

impl HourClock {
    pub fn new() -> HourClock {
        HourClock { next: FEBRUARY }
    }
}

impl Clock for HourClock {
    ghost reads = { λ _ _ _. Unit {0} };

    fn now(&mut self) -> Moment {
        let now = self.next;
        if let Ok(next) = Moment::new(now.seconds.saturating_add(3_600), 0) {
            self.next = next;
        }
        now
    }
}

/// A machine whose clock tells so many seconds since 1970, or can't be read.
#[derive(Drop)]
struct Machine {
    seconds: Option<u64>,
}

impl rt::Clock for Machine {
    fn monotonic(&self) -> io::Result<Duration> {
        self.since_1970()
    }

    fn since_1970(&self) -> io::Result<Duration> {
        match self.seconds {
            Some(seconds) => Ok(Duration::from_secs(seconds)),
            None => Err(io::Error::other("no clock")),
        }
    }
}

/// A machine whose clock is read at noon first, then at midnight, and then can't be read any more.
#[derive(Drop)]
struct Failing {
    readings: Cell<u64>,
}

impl rt::Clock for Failing {
    fn monotonic(&self) -> io::Result<Duration> {
        self.since_1970()
    }

    fn since_1970(&self) -> io::Result<Duration> {
        let reading = self.readings.get();
        self.readings.set(reading + 1);
        match reading {
            0 => Ok(Duration::from_secs(1_580_558_400)),
            1 => Ok(Duration::from_secs(1_580_515_200)),
            _ => Err(io::Error::other("no clock")),
        }
    }
}

/// What the clock of such a machine tells, where it was made on 2020-02-01 at 10:01.
fn told(seconds: Option<u64>) -> i64 {
    SystemClock::new(Machine { seconds }, FEBRUARY)
        .now()
        .seconds
}

#[test]
fn a_machine_tells_moments_in_range(rt: HostRuntime) -> Result<(), Fail> {
    assert_eq!(rt; told(Some(0)), 0);
    assert_eq!(rt; told(Some(253_370_764_799)), 253_370_764_799);
    assert_eq!(rt; told(Some(253_370_764_800)), FEBRUARY.seconds);
    assert_eq!(rt; told(Some(u64::MAX)), FEBRUARY.seconds);
    assert_eq!(rt; told(None), FEBRUARY.seconds);
    Ok(())
}

/// The clock may go back, and where it can't be read it tells the last reading again.
#[test]
fn a_clock_that_fails_tells_its_last_reading(rt: HostRuntime) -> Result<(), Fail> {
    let machine = Failing {
        readings: Cell::new(0),
    };
    let mut clock = SystemClock::new(machine, FEBRUARY);
    assert_eq!(rt; clock.now().seconds, 1_580_558_400);
    for _ in 0..3 {
        assert_eq!(rt; clock.now().seconds, 1_580_515_200);
    }
    Ok(())
}

#[test]
fn the_machines_clock_is_read(rt: HostRuntime) -> Result<(), Fail> {
    let mut fixed = FixedClock::new(FEBRUARY);
    let first = fixed.now();
    assert_eq!(rt; first, FEBRUARY);
    let mut clock = SystemClock::new(rt, first);
    assert!(rt; first.is_earlier(clock.now()));
    Ok(())
}
