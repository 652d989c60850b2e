//! Filters made of a filter.
ghost use Rattle.std.specs.Prelude.{◌≡◌};

use crate::filter::{And, Filter, Not, Or};

/// Filters made of a filter.
pub trait FilterExt: Filter {
    /// Passes what both filters pass.
    fn and<B>(self, other: B) -> And<Self, B>
    where
        Self: Sized,
        ensures { (result.a ≡ self) × (result.b ≡ other) }
    {
        And::new(self, other)
    }

    /// Passes what one of the filters passes.
    fn or<B>(self, other: B) -> Or<Self, B>
    where
        Self: Sized,
        ensures { (result.a ≡ self) × (result.b ≡ other) }
    {
        Or::new(self, other)
    }

    /// Passes what the filter refuses.
    fn not(self) -> Not<Self>
    where
        Self: Sized,
        ensures { result.a ≡ self }
    {
        Not::new(self)
    }
}

impl<F: Filter> FilterExt for F {}
