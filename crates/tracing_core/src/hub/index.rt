//! Callsites by where they stand in a hub.
ghost use Rattle.std.specs.Prelude.{◌≡◌, IfSome, Some, Bool, slice_get};
ghost use Rattle.std.specs.Option.{option_map};
ghost use Rattle.tracing_core_fields.specs.Metadata.{plain_metadata};
ghost use Rattle.tracing_core.specs.Commands.{GateGivesAt, reached};
ghost use Rattle.tracing_core.specs.TableRows.{KeptCallsite, KeptSubscriber};
ghost use Rattle.tracing_core.specs.CachePreservation.{PreservesCaches};
ghost use Rattle.tracing_core.specs.Indices.{index_of_callsite};
ghost use Rattle.tracing_core.specs.ValidCaches.{HasValidCache};

use crate::hub::Hub;
use crate::hub::parts::RegisteredCallsite;
use tracing_core_fields::{Callsite, Identifier, Interest, Metadata, Subscriber};
use tracing_core_moments::At;

/// Where a callsite stands in a hub: the first that was registered at 0, and each later one behind those
/// before. It stays the same while the hub lives.
#[derive(Clone, Copy, Debug, PartialEq, Eq)]
pub struct CallsiteIndex(pub(crate) usize);

impl<S, C> Hub<S, C> {
    /// The callsites, in order of registration.
    pub fn callsites(&self) -> &[RegisteredCallsite<C>]
        ensures { result.now ≡ self.now.callsites }
    {
        self.callsites.as_slice()
    }

    /// Where the callsite with the identifier stands, for the calls that take its index. It is found in one
    /// step, however many callsites there are.
    pub fn index_of(&self, identifier: Identifier) -> Option<CallsiteIndex>
        ensures { option_map (λ index. index.0) result ≡ index_of_callsite identifier.0 self.now.callsites }
    {
        match self.callsites.index_of(identifier.0) {
            None => None,
            Some(index) => Some(CallsiteIndex(index)),
        }
    }

    /// Where the callsite with the identifier stands, or `None`, which tells nothing. It finds an index that is the identifier
    /// less the first callsite's, in a few comparisons; else [`index_of`](Hub::index_of) looks in a map.
    #[inline(always)]
    pub fn counted_index_of(&self, identifier: Identifier) -> Option<CallsiteIndex>
        ensures { IfSome result (λ index. index_of_callsite identifier.0 self.now.callsites ≡ Some index.0) }
    {
        let index = self.callsites.counted_index(identifier.0)?;
        Some(CallsiteIndex(index))
    }

    /// The common interest that is kept of the callsite at the index, or `None` where none stands there.
    pub fn interest_at(&self, index: CallsiteIndex) -> Option<Interest>
        ensures { result ≡ option_map (λ site. site.interest) (slice_get self.now.callsites index.0) }
    {
        match self.callsites.at(index.0) {
            None => None,
            Some(registered) => Some(registered.interest),
        }
    }
}

impl<S, C: Callsite> Hub<S, C> {
    /// The metadata of the callsite at the index, or `None` where none stands there.
    pub fn metadata_at(&self, index: CallsiteIndex) -> Option<Metadata<'_>>
        ensures { option_map plain_metadata result
            ≡ option_map (λ site. C.metadata_of site.callsite) (slice_get self.now.callsites index.0) }
    {
        match self.callsites.at(index.0) {
            None => None,
            Some(registered) => Some(registered.callsite.metadata()),
        }
    }
}

impl<S: Subscriber, C: Callsite> Hub<S, C> {
    /// The same as [`Hub::gate`] of the callsite at the index, or `None` where none stands there.
    pub fn gate_at(&mut self, index: CallsiteIndex, at: At) -> Option<bool>
        ensures answer { GateGivesAt ⟦<S as Subscriber>⟧ ⟦<C as Callsite>⟧ self.old
            (slice_get self.old.callsites index.0) at result self.new }
        // With a valid cache of the reached subscriber the answer is what that subscriber answers when it is asked.
        ensures asking { (site : KeptCallsite C) (e : KeptSubscriber S) (b : Bool) →
            slice_get self.old.callsites index.0 ≡ Some site → reached self.old at.lane ≡ Some e.serial →
            HasValidCache ⟦<S as Subscriber>⟧ ⟦<C as Callsite>⟧ self.old e →
            S.answers e.subscriber (C.metadata_of site.callsite) at b → result ≡ Some b }
        ensures keeps { PreservesCaches ⟦<S as Subscriber>⟧ ⟦<C as Callsite>⟧ self.old self.new }
    {
        self.look_at(index, at)
    }

    fn look_at(&mut self, index: CallsiteIndex, at: At) -> Option<bool>
        ensures { GateGivesAt ⟦<S as Subscriber>⟧ ⟦<C as Callsite>⟧ self.old (slice_get self.old.callsites index.0) at
            result self.new }
    {
        let serial = self.reached_serial(at.lane);
        match self.callsites.at(index.0) {
            None => None,
            Some(registered) => Some(registered.answer(
                &mut self.subscribers,
                serial,
                self.greatest,
                at,
            )),
        }
    }
}
