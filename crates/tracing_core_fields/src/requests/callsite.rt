//! What registers with a hub.
ghost use Rattle.std.specs.Prelude.{◌≡◌};
ghost use Rattle.tracing_core_fields.specs.Metadata.{plain_metadata};
ghost use Rattle.tracing_core_fields.specs.PlainMetadata.{PlainMetadata};
ghost use Rattle.tracing_core_fields.specs.requests.Interests.{PlainInterest};

use crate::Metadata;
use crate::requests::interest::Interest;

/// Where spans or events are made: it knows its metadata, and keeps the interest that a hub tells it.
pub trait Callsite: Drop {
    ghost metadata_of: { Self → PlainMetadata };

    ghost interest_of: { Self → PlainInterest };

    /// Keeps the common interest of all subscribers.
    fn set_interest(&mut self, interest: Interest)
        ensures metadata { metadata_of self.new ≡ metadata_of self.old }
        ensures interest { interest_of self.new ≡ interest };

    /// What is known of its spans or events.
    fn metadata(&self) -> Metadata<'_>
        ensures { plain_metadata result ≡ metadata_of self.now };
}
