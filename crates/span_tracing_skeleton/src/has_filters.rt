//! What has outputs whose filters may change.
ghost use Rattle.std.specs.Prelude.{ℕ};

use crate::has_registry::HasRegistry;

/// Has outputs, and lets the filter of each change places with another one of the type `F`.
pub trait HasFilters<F>: HasRegistry {
    // What it and another filter may be once that has changed places with the filter of the output at a place.
    ghost swaps: { Self → ℕ → F → Self → F → Type 0 };

    /// Lets the filter of the output at a place, counted from 0, change places with another one. Where there is no such output, nothing
    /// changes.
    fn swap_filter(&mut self, place: usize, filter: &mut F)
        ensures { swaps self.old place filter.old self.new filter.new };
}
