//! Changing the filters of a stack.
ghost use Rattle.std.specs.Prelude.{◌≡◌, ◌<◌, length};
ghost use Rattle.span_registry_layers.specs.Stacks.{plain_stack};
ghost use Rattle.span_registry_layers.specs.Swaps.{SwapGives, SwapsRow, asked_anew, without_sites};

use crate::interest_cache::InterestCache;
use crate::output::UnknownOutput;
use crate::parts::StackParts;
use span_registry_layers_layers::{Filter, Filtered, Layer};

impl<O> StackParts<O> {
    // Forgets what was kept of callsites.
    fn forget_sites(&mut self)
        ensures { plain_stack self.new ≡ without_sites (plain_stack self.old) }
    {
        self.interest_cache = InterestCache::new(self.alloc);
    }
}

impl<L: Layer, F: Filter> StackParts<Filtered<L, F>> {
    fn swap_at(&mut self, place: usize, filter: &mut F)
        requires { place < length self.old.rows.items }
        ensures { SwapsRow place filter.old (plain_stack self.old) filter.new (plain_stack self.new) }
    {
        self.rows[place].swap_filter(filter);
    }

    fn ask_anew(&mut self)
        ensures { plain_stack self.new ≡ asked_anew ⟦<F as Filter>⟧ (plain_stack self.old) }
    {
        self.forget_sites();
        let _hint = self.ask_hint();
    }

    // The two filters change places, and all is asked anew.
    pub(crate) fn swap_filter(&mut self, place: usize, filter: &mut F) -> Result<(), UnknownOutput>
        ensures { SwapGives ⟦<F as Filter>⟧ place filter.old (plain_stack self.old) result filter.new
            (plain_stack self.new) }
    {
        if place >= self.rows.len() {
            return Err(UnknownOutput(()));
        }
        self.swap_at(place, filter);
        self.ask_anew();
        Ok(())
    }
}
