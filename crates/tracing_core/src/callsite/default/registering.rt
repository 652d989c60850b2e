//! Registering a callsite that stays with its maker.
ghost use Rattle.std.specs.Prelude.{◌≡◌, IfOk, OnErr};
ghost use Rattle.tracing_core.specs.Commands.{RegisterGives};
ghost use Rattle.tracing_core.specs.DefaultCallsites.{site_interest, site_metadata, untold};
ghost use Rattle.tracing_core.specs.CachePreservation.{PreservesCaches};

use crate::callsite::DefaultCallsite;
use crate::hub::Hub;
use crate::refusal::RegisterError;
use tracing_core_fields::{Callsite, Interest, InterestInner, Subscriber, inner_of};

impl<'a> DefaultCallsite<'a> {
    // The same callsite, in nobody's interest.
    fn untold(&self) -> DefaultCallsite<'a>
        ensures { result ≡ untold self.now }
    {
        DefaultCallsite {
            metadata: self.metadata,
            interest: InterestInner::Never,
        }
    }

    /// Registers a copy of the callsite with a hub, as [`Hub::register`] does: where a callsite with the
    /// same metadata is known, nothing changes there. Answers the interest that the hub keeps of it, which
    /// this one keeps too.
    pub fn register<S: Subscriber>(
        &mut self,
        hub: &mut Hub<S, DefaultCallsite<'a>>,
    ) -> Result<Interest, RegisterError<DefaultCallsite<'a>>>
        ensures registered { RegisterGives ⟦<S as Subscriber>⟧ ⟦<DefaultCallsite<'a> as Callsite>⟧ hub.old
            (untold self.old) result hub.new }
        ensures metadata { site_metadata self.new ≡ site_metadata self.old }
        ensures kept { IfOk result (λ interest. site_interest self.new ≡ interest) }
        ensures refused { OnErr result (self.new ≡ self.old) }
        ensures keeps { PreservesCaches ⟦<S as Subscriber>⟧ ⟦<DefaultCallsite<'a> as Callsite>⟧ hub.old hub.new }
    {
        let interest = hub.register(self.untold())?;
        self.interest = inner_of(interest);
        Ok(interest)
    }
}
