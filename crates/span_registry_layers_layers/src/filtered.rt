//! A layer with a filter of its own.
ghost use Rattle.std.specs.Borrow.{sem};
ghost use Rattle.std.specs.Prelude.{◌≡◌, None};
ghost use Rattle.span_registry_layers_layers.specs.FilteredLoans.{LendsFilter, LendsLayer};

use span_registry_layers_store::FilterId;

/// A layer that is told what its filter passes.
///
/// As a layer of a tree, or in the layer of an output, it has a number in a registry from when it is
/// attached, and tells nobody before. As an output it has none itself, since the stack keeps that. The layer
/// may have filters of its own: it is told what all filters above it pass.
#[derive(Clone, Copy, Debug, Drop)]
pub struct Filtered<L, F> {
    pub(crate) layer: L,
    pub(crate) filter: F,
    pub(crate) id: Option<FilterId>,
}

impl<L, F> Filtered<L, F> {
    /// The layer, told what the filter passes.
    pub fn new(layer: L, filter: F) -> Filtered<L, F>
        ensures { (result.layer ≡ layer) × (result.filter ≡ filter) × (result.id ≡ None) }
    {
        Filtered {
            layer,
            filter,
            id: None,
        }
    }

    /// The number that the filter has in a registry, where it is attached to one as a layer of a tree or in
    /// the layer of an output. The number of an output's own filter is kept by its stack.
    pub fn id(&self) -> Option<FilterId>
        ensures { result ≡ self.now.id }
    {
        self.id
    }

    /// The filter.
    pub fn filter(&self) -> &F
        ensures { result.now ≡ self.now.filter }
    {
        &self.filter
    }

    /// The filter, to be changed. What was kept of its answers is not asked anew.
    pub fn filter_mut(&mut self) -> &mut F
        ensures lent { result.now ≡ self.old.filter }
        ensures* ends { sem 𝓛 (LendsFilter L.row F.row self.entry result) }
    {
        &mut self.filter
    }

    /// The layer.
    pub fn inner(&self) -> &L
        ensures { result.now ≡ self.now.layer }
    {
        &self.layer
    }

    /// The layer and the filter, as they are now.
    pub fn into_parts(self) -> (L, F)
        ensures { (result.0 ≡ self.layer) × (result.1 ≡ self.filter) }
    {
        let Filtered { layer, filter, .. } = self;
        (layer, filter)
    }

    /// The layer, to be changed.
    pub fn inner_mut(&mut self) -> &mut L
        ensures lent { result.now ≡ self.old.layer }
        ensures* ends { sem 𝓛 (LendsLayer L.row F.row self.entry result) }
    {
        &mut self.layer
    }
}
