//! Other filters for the outputs of a stack.
ghost use Rattle.std.specs.Borrow.{sem};
ghost use Rattle.std.specs.Option.{option_map};
ghost use Rattle.std.specs.Prelude.{◌≡◌, IfSome, OnOk, slice_get};
ghost use Rattle.tracing_core_fields.specs.requests.Lists.{Every};
ghost use Rattle.span_registry_layers_layers.specs.declared.filtered.Filtered.{Filtered};
ghost use Rattle.span_registry_layers.specs.Loans.{LendsFiltered, LendsLayerAt, LendsOutput, forgotten, layer_of, put_layer, put_output};
ghost use Rattle.span_registry_layers.specs.OutputSlots.{filters_of, numbers_of};
ghost use Rattle.span_registry_layers.specs.Swaps.{SwapGives, with_rows};
ghost use Rattle.span_registry_layers.specs.CacheValidity.{CacheIsValid};

use crate::interest_cache::InterestCache;
use crate::output::UnknownOutput;
use crate::stack::Stack;
use span_registry_layers_layers::{Filter, Filtered, Layer};

impl<O> Stack<O> {
    // Forgets all that was kept of answers.
    fn forget(&mut self)
        ensures { self.new ≡ forgotten self.old }
    {
        self.parts.interest_cache = InterestCache::new(self.parts.alloc);
        self.parts.hint = None;
    }

    fn lend(&mut self, output: usize) -> Option<&mut O>
        ensures lent { option_map (λ lent. lent.now) result
            ≡ option_map (λ row. row.output) (slice_get self.old.rows output) }
        ensures* ends { sem 𝓛 (LendsOutput O.row self.entry output result) }
    {
        self.forget();
        match self.parts.rows.get_mut(output) {
            None => None,
            Some(row) => Some(&mut row.output),
        }
    }
}

impl<L: Layer, F: Filter> Stack<Filtered<L, F>> {
    /// The filter of the output at this place, counted from 0, changes places with another one. Verdicts of
    /// spans, entries, ids, slots and layers stand; the kept interests are forgotten, and the hint is asked
    /// anew. It takes no memory.
    ///
    /// # Errors
    ///
    /// `UnknownOutput` where there is no such output, which leaves both as they were.
    pub fn swap_filter(&mut self, output: usize, filter: &mut F) -> Result<(), UnknownOutput>
        // The two filters change places, the kept interests are forgotten, and the hint is asked anew; all else stays.
        ensures gives { SwapGives ⟦<F as Filter>⟧ output filter.old self.old result filter.new self.new }
        // Each filter keeps its number.
        ensures numbers { numbers_of ⟦<L as Layer>⟧ self.new.rows ≡ numbers_of ⟦<L as Layer>⟧ self.old.rows }
        // Where the filters are honest afterwards, the cache is valid.
        ensures kept { OnOk result (Every (λ f. F.honest f) (filters_of self.new.rows) →
            CacheIsValid ⟦<F as Filter>⟧ self.new) }
    {
        self.hand_filter(output, filter)
    }

    /// Lends the output at this place, counted from 0, for writing. What was kept of answers is forgotten
    /// first; interests are kept again as callsites are registered, and the hint when it is asked for.
    pub fn stack_mut(&mut self, output: usize) -> Option<&mut Filtered<L, F>>
        ensures lent { option_map (λ lent. lent.now) result
            ≡ option_map (λ row. row.output) (slice_get self.old.rows output) }
        // Whatever the output becomes, the cache is valid where the filters are honest then.
        ensures kept { (w : Filtered L F) → Every (λ f. F.honest f) (filters_of (put_output output w self.old.rows)) →
            CacheIsValid ⟦<F as Filter>⟧ (with_rows (put_output output w self.old.rows) (forgotten self.old)) }
        // Each filter keeps its number, where those in the output's layer do.
        ensures numbers { (w : Filtered L F) → IfSome result (λ lent. L.numbers w.layer ≡ L.numbers lent.now.layer) →
            numbers_of ⟦<L as Layer>⟧ (put_output output w self.old.rows) ≡ numbers_of ⟦<L as Layer>⟧ self.old.rows }
        ensures* ends { sem 𝓛 (LendsFiltered L.row F.row self.entry output result) }
    {
        self.lend(output)
    }

    /// Lends the layer of the output at this place, counted from 0, for writing. What was kept of answers stays, since
    /// no filter changes that it speaks of.
    pub fn layer_mut(&mut self, output: usize) -> Option<&mut L>
        ensures lent { option_map (λ lent. lent.now) result ≡ option_map layer_of (slice_get self.old.rows output) }
        // A valid cache stays valid, whatever the layer becomes.
        ensures kept { (w : L) → CacheIsValid ⟦<F as Filter>⟧ self.old →
            CacheIsValid ⟦<F as Filter>⟧ (put_layer output w self.old) }
        // Each filter keeps its number, where those in the layer do.
        ensures numbers { (w : L) → IfSome result (λ lent. L.numbers w ≡ L.numbers lent.now) →
            numbers_of ⟦<L as Layer>⟧ (put_layer output w self.old).rows ≡ numbers_of ⟦<L as Layer>⟧ self.old.rows }
        ensures* ends { sem 𝓛 (LendsLayerAt L.row F.row self.entry output result) }
    {
        self.lend_layer(output)
    }

    fn lend_layer(&mut self, output: usize) -> Option<&mut L>
        ensures lent { option_map (λ lent. lent.now) result ≡ option_map layer_of (slice_get self.old.rows output) }
        ensures* ends { sem 𝓛 (LendsLayerAt L.row F.row self.entry output result) }
    {
        match self.parts.rows.get_mut(output) {
            None => None,
            Some(row) => Some(row.output.inner_mut()),
        }
    }

    fn hand_filter(&mut self, output: usize, filter: &mut F) -> Result<(), UnknownOutput>
        ensures { SwapGives ⟦<F as Filter>⟧ output filter.old self.old result filter.new self.new }
    {
        self.parts.swap_filter(output, filter)
    }
}
