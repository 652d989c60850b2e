//! A registered callsite.
ghost use Rattle.std.specs.Prelude.{◌≡◌, IfOk};
ghost use Rattle.tracing_core_fields.specs.Metadata.{plain_metadata};
ghost use Rattle.span_tracing_steps.specs.Callsites.{own_metadata};

use std::alloc::{AllocError, Global};
use tracing_core_fields::{Callsite, Identifier, Interest, Metadata, OwnedMetadata};

/// A copy of a callsite's metadata, with the interest that the hub tells it.
#[derive(Drop)]
pub struct TraceCallsite {
    metadata: OwnedMetadata,
    identifier: Identifier,
    interest: Interest,
}

impl TraceCallsite {
    /// The callsite of an identifier, with a copy of the metadata, whose fields are then this callsite's.
    ///
    /// # Errors
    ///
    /// Out of memory.
    pub fn new(
        alloc: Global,
        identifier: Identifier,
        metadata: &Metadata<'_>,
    ) -> Result<TraceCallsite, AllocError>
        ensures { IfOk result (λ callsite. own_metadata callsite
            ≡ record (plain_metadata metadata.now) { callsite = identifier.0 }) }
    {
        Ok(TraceCallsite {
            metadata: OwnedMetadata::new(alloc, metadata)?,
            identifier,
            interest: Interest::never(),
        })
    }
}

impl Callsite for TraceCallsite {
    ghost use Rattle.span_tracing_steps.specs.Callsites.{own_metadata};

    ghost metadata_of = { λ site. own_metadata site };

    ghost interest_of = { λ site. site.interest };

    fn set_interest(&mut self, interest: Interest) {
        self.interest = interest;
    }

    fn metadata(&self) -> Metadata<'_> {
        self.metadata.metadata_at(self.identifier)
    }
}
