//! What is kept of a callsite.
ghost use Rattle.std.specs.Prelude.{◌≡◌};
ghost use Rattle.tracing_core_fields.specs.Metadata.{plain_metadata};
ghost use Rattle.span_registry_layers.specs.InterestCache.{is_of, is_refused_by, plain_cached_interest, renewed};

use tracing_core_fields::{Interest, Metadata, OwnedMetadata};

/// A callsite, and what all filters had in common of it when they were asked.
#[derive(Drop)]
pub(crate) struct CachedInterest {
    pub(crate) metadata: OwnedMetadata,
    pub(crate) interest: Interest,
}

impl CachedInterest {
    pub(crate) fn is_of(&self, metadata: &Metadata<'_>) -> bool
        ensures { result ≡ is_of (plain_metadata metadata.now) (plain_cached_interest self.now) }
    {
        self.metadata.is_same(metadata)
    }

    // Whether it is this callsite, and nobody's interest was kept of it.
    pub(crate) fn refuses(&self, metadata: &Metadata<'_>) -> bool
        ensures { result ≡ is_refused_by (plain_metadata metadata.now) (plain_cached_interest self.now) }
    {
        self.interest.is_never() && self.metadata.is_same(metadata)
    }

    // Keeps another interest, where it is this callsite.
    pub(crate) fn renew(&mut self, metadata: &Metadata<'_>, interest: Interest)
        ensures { plain_cached_interest self.new ≡ renewed (plain_metadata metadata.now) interest
            (plain_cached_interest self.old) }
    {
        if self.metadata.is_same(metadata) {
            self.interest = interest;
        }
    }
}
