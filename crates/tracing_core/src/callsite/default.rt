//! A callsite that keeps what it is told.
ghost use Rattle.std.specs.Prelude.{◌≡◌};
ghost use Rattle.tracing_core_fields.specs.Metadata.{plain_metadata};
ghost use Rattle.tracing_core.specs.DefaultCallsites.{site_metadata, site_interest};
ghost use Rattle.tracing_core_fields.specs.declared.requests.interest.InterestInner.TheVariants.{Never};

mod registering;

use tracing_core_fields::{Callsite, Interest, InterestInner, Metadata, inner_of, interest_of};

/// A callsite that keeps its metadata, and the interest that it is told.
/// [`Hub::register`](crate::Hub::register) registers it.
#[derive(Debug, Drop)]
pub struct DefaultCallsite<'a> {
    metadata: &'a Metadata<'a>,
    // not an `Interest`: a value that holds a reference beside one can't be handed on
    interest: InterestInner,
}

impl<'a> DefaultCallsite<'a> {
    /// The callsite with this metadata, which is in nobody's interest until it is registered.
    pub fn new(metadata: &'a Metadata<'a>) -> DefaultCallsite<'a>
        ensures metadata { site_metadata result ≡ plain_metadata metadata.now }
        ensures interest { site_interest result ≡ Never }
    {
        DefaultCallsite {
            metadata,
            interest: InterestInner::Never,
        }
    }

    /// The interest that it was told last, by the registering of this very value. A hub keeps callsites by
    /// value and tells its own: what a hub's subscribers want now is answered by
    /// [`Hub::interest`](crate::Hub::interest) and [`Hub::gate`](crate::Hub::gate).
    pub fn interest(&self) -> Interest
        ensures { result ≡ site_interest self.now }
    {
        interest_of(self.interest)
    }
}

impl Callsite for DefaultCallsite<'_> {
    ghost metadata_of = { site_metadata };

    ghost interest_of = { site_interest };

    fn set_interest(&mut self, interest: Interest) {
        self.interest = inner_of(interest);
    }

    fn metadata(&self) -> Metadata<'_> {
        let metadata = self.metadata;
        Metadata::new(
            metadata.name(),
            metadata.target(),
            *metadata.level(),
            metadata.file(),
            metadata.line(),
            metadata.module_path(),
            *metadata.fields(),
            metadata.kind(),
        )
    }
}
