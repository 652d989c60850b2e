//! Where callsites stand, and which requests at them are refused.
ghost use Rattle.std.specs.Prelude.{◌≡◌, false, true, if◌then◌else◌, IfSome, None, Ok, Some, is_some};
ghost use Rattle.span_tracing_skeleton.specs.Looking.{if_kind, known, named};
ghost use Rattle.span_tracing_steps.specs.RequestTarget.{FoundFor};
ghost use Rattle.span_tracing_steps.specs.States.{at_index, skeleton_of, value_in};

use crate::action::Request;
use crate::parts::TraceParts;
use span_tracing_skeleton::{HasRegistry, Parent, Refusal};
use tracing_core::CallsiteIndex;
use tracing_core_fields::{Identifier, Subscriber};

impl<T: Subscriber + HasRegistry> TraceParts<T> {
    ghost use Rattle.span_tracing_steps.specs.TraceInvariant.{IsSound};

    /// Where the callsite with the identifier stands.
    #[tactic(auto, using(crate::proofs::Callsites::index_names, crate::proofs::Callsites::index_there))]
    pub(crate) fn find(&self, number: u64) -> Option<CallsiteIndex>
        requires { IsSound self.now }
        ensures names { at_index (skeleton_of T.registry_of (value_in self.now)).callsites result
            ≡ named (skeleton_of T.registry_of (value_in self.now)).callsites number }
        ensures there { is_some result ≡ is_some (named (skeleton_of T.registry_of (value_in self.now)).callsites number) }
    {
        self.hub.index_of(Identifier(number))
    }

    // Whether the callsite at the index is of this kind.
    #[inline(always)]
    fn is_kind(&self, index: CallsiteIndex, is_span: bool) -> bool
        requires { IsSound self.now }
        ensures { if_kind (at_index (skeleton_of T.registry_of (value_in self.now)).callsites (Some index)) is_span
            ≡ (if result then at_index (skeleton_of T.registry_of (value_in self.now)).callsites (Some index) else None) }
    {
        let Some(metadata) = self.hub.metadata_at(index) else {
            return false;
        };
        let kind = metadata.kind();
        if is_span {
            kind.is_span()
        } else {
            kind.is_event()
        }
    }

    /// Where the callsite of this kind with the identifier stands.
    pub(crate) fn known(&self, number: u64, is_span: bool) -> Option<CallsiteIndex>
        requires { IsSound self.now }
        ensures names { at_index (skeleton_of T.registry_of (value_in self.now)).callsites result
            ≡ known (skeleton_of T.registry_of (value_in self.now)) number is_span }
        ensures there { is_some result ≡ is_some (known (skeleton_of T.registry_of (value_in self.now)) number is_span) }
    {
        let index = self.find(number)?;
        if self.is_kind(index, is_span) {
            Some(index)
        } else {
            None
        }
    }

    /// Where the callsite of a request stands, which has to be of this kind, or the first refusal.
    #[inline(always)]
    pub(crate) fn find_for(
        &self,
        request: &Request<'_>,
        is_span: bool,
    ) -> Result<CallsiteIndex, Refusal>
        requires { IsSound self.now }
        ensures { FoundFor T.registry_of (value_in self.now) request.now.lane request.now.moment request.now.callsite
            is_span request.now.parent result }
    {
        if let Some(refusal) = self.place_refusal(request.lane, request.moment) {
            return Err(refusal);
        }
        let Some(index) = self.known(request.callsite, is_span) else {
            return Err(Refusal::UnknownCallsite);
        };
        match self.parent_refusal(request.lane, request.parent) {
            Some(refusal) => Err(refusal),
            None => Ok(index),
        }
    }

    // Where an event's callsite with the identifier stands, where counting finds it. `None` tells nothing.
    #[inline(always)]
    fn counted_event(&self, number: u64) -> Option<CallsiteIndex>
        requires { IsSound self.now }
        ensures { IfSome result (λ index. (at_index (skeleton_of T.registry_of (value_in self.now)).callsites (Some index)
            ≡ known (skeleton_of T.registry_of (value_in self.now)) number false)
            × (is_some (known (skeleton_of T.registry_of (value_in self.now)) number false) ≡ true)) }
    {
        let Some(index) = self.hub.counted_index_of(Identifier(number)) else {
            return None;
        };
        if self.is_kind(index, false) {
            Some(index)
        } else {
            None
        }
    }

    /// Where the callsite of an event stands that nothing refuses. A few looks tell it of an event that names no parent, and whose callsite
    /// is found by counting. `None` tells nothing, not even a refusal.
    #[inline(always)]
    pub(crate) fn found_at_once(&self, event: &Request<'_>) -> Option<CallsiteIndex>
        requires { IsSound self.now }
        ensures { IfSome result (λ index. FoundFor T.registry_of (value_in self.now) event.now.lane event.now.moment
            event.now.callsite false event.now.parent (Ok index)) }
    {
        match event.parent {
            Parent::Explicit(_) => return None,
            Parent::Contextual | Parent::Root => {}
        }
        if let Some(_) = self.place_refusal(event.lane, event.moment) {
            return None;
        }
        // Matched here, the answer costs the caller fewer instructions than where the call is the last expression.
        let Some(index) = self.counted_event(event.callsite) else {
            return None;
        };
        Some(index)
    }
}
