//! The ids of spans.
ghost use Rattle.std.specs.Prelude.{◌≡◌, ◌<◌, MatchOption};
ghost use Rattle.std.specs.Int.NonZero.{non_zero_u64_get};

use std::marker::Model;
use std::num::NonZeroU64;

/// Names a span, within the subscriber that gave the id.
///
/// A contract sees an id as its number, which is not 0.
#[derive(Clone, Copy, Debug, PartialEq, Eq, Hash)]
pub struct Id(u64);

impl Model for Id {
    ghost use Rattle.std.specs.Prelude.{ℕ, ◌<◌};

    ghost Value = { ℕ };

    ghost view = { λ id. id.0 };

    ghost invariant = { λ id. 0 < id.0 };

    ghost inverse = { λ number. record { 0 = number } };
}

impl Id {
    /// The id of the number, or `None` at 0.
    pub fn from_u64(number: u64) -> Option<Id>
        ensures { MatchOption result (number ≡ 0) (λ id. (id ≡ number) × (0 < number)) }
    {
        if number == 0 { None } else { Some(Id(number)) }
    }

    /// The id of the number.
    pub fn from_non_zero_u64(number: NonZeroU64) -> Id
        ensures { result ≡ non_zero_u64_get number }
    {
        Id(number.get())
    }

    /// The number of the id.
    pub fn into_u64(&self) -> u64
        ensures value { result ≡ self.now }
        ensures nonzero { 0 < result }
    {
        self.0
    }

    /// The number of the id.
    pub fn into_non_zero_u64(&self) -> NonZeroU64
        ensures { non_zero_u64_get result ≡ self.now }
    {
        NonZeroU64::new(self.0).unwrap()
    }
}

impl From<&Id> for Option<Id> {
    ghost use Rattle.std.specs.Prelude.{Some};

    ghost from_gives = { λ id answer. answer ≡ Some id.now };

    fn from(id: &Id) -> Option<Id> {
        Some(*id)
    }
}
