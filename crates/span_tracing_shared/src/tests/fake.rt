//! A trace of one callsite and no stack. It counts the events that it takes, has to wait before each setting, and finds no memory for steps
//! that it doesn't know.
ghost use Rattle.std.specs.Prelude.{◌≡◌, ◌∷◌, [], false, is_some, replicate};
ghost use Rattle.span_tracing_skeleton.specs.Looking.{known, named};
ghost use Rattle.span_tracing_skeleton.specs.Machine.{or_refused};
ghost use Rattle.span_tracing_skeleton.specs.Order.{enabled_refusal, request_refusal};
ghost use Rattle.span_tracing_skeleton.specs.declared.call.Reply.TheVariants.{Done};

use crate::{CarriesOut, Mask};
use span_tracing_skeleton::{EnabledCall, EventCall, Parent, Refusal, Reply, Step};
use std::alloc::{AllocError, Global};
use tracing_core_fields::{Identifier, Metadata, OwnedMetadata};

/// What decides its replies.
#[derive(Drop)]
pub struct FakeStart {
    callsite: OwnedMetadata,
    lanes: usize,
}

/// The trace.
#[derive(Drop)]
pub struct Fake {
    alloc: Global,
    callsite: OwnedMetadata,
    lanes: usize,
    heard: u64,
}

fn or_refusal(refusal: Option<Refusal>, reply: Reply) -> Reply
    ensures { result ≡ or_refused refusal reply }
{
    match refusal {
        None => reply,
        Some(refusal) => Reply::Refused(refusal),
    }
}

impl Fake {
    /// A trace with this callsite and so many lanes.
    pub fn new(alloc: Global, callsite: &Metadata<'_>, lanes: usize) -> Result<Fake, AllocError> {
        Ok(Fake {
            alloc,
            callsite: OwnedMetadata::new(alloc, callsite)?,
            lanes,
            heard: 0,
        })
    }

    /// How many events it took.
    pub fn heard(&self) -> u64 {
        self.heard
    }

    fn is_named(&self, callsite: Identifier) -> bool
        ensures { result ≡ is_some (named (⟦<Fake as CarriesOut>⟧.skeleton self.now).callsites callsite.0) }
    {
        self.callsite.fields().callsite().0 == callsite.0
    }

    fn is_known(&self, callsite: Identifier) -> bool
        ensures { result ≡ is_some (known (⟦<Fake as CarriesOut>⟧.skeleton self.now) callsite.0 false) }
    {
        self.is_named(callsite) && self.callsite.kind().is_event()
    }

    fn event_refusal(&self, event: &EventCall) -> Option<Refusal>
        ensures { result ≡ request_refusal (⟦<Fake as CarriesOut>⟧.skeleton self.now) event.now.lane event.now.moment
            event.now.callsite.0 false event.now.parent }
    {
        if event.lane >= self.lanes {
            return Some(Refusal::UnknownLane);
        }
        if !event.moment.is_in_range() {
            return Some(Refusal::BadMoment);
        }
        if !self.is_known(event.callsite) {
            return Some(Refusal::UnknownCallsite);
        }
        match event.parent {
            Parent::Contextual | Parent::Root => None,
            Parent::Explicit(_) => Some(Refusal::UnknownStack),
        }
    }

    fn question_refusal(&self, call: &EnabledCall) -> Option<Refusal>
        ensures { result ≡ enabled_refusal (⟦<Fake as CarriesOut>⟧.skeleton self.now) call.now }
    {
        if call.lane >= self.lanes {
            return Some(Refusal::UnknownLane);
        }
        if !call.moment.is_in_range() {
            return Some(Refusal::BadMoment);
        }
        if !self.is_named(call.callsite) {
            return Some(Refusal::UnknownCallsite);
        }
        None
    }

    fn event(&mut self, event: &EventCall) -> Reply
        ensures same { (self.new.callsite ≡ self.old.callsite) × (self.new.lanes ≡ self.old.lanes) }
        ensures reply { result ≡ or_refused (request_refusal (⟦<Fake as CarriesOut>⟧.skeleton self.old) event.now.lane
            event.now.moment event.now.callsite.0 false event.now.parent) Done }
    {
        match self.event_refusal(event) {
            None => {
                self.heard = self.heard.saturating_add(1);
                Reply::Done
            }
            Some(refusal) => Reply::Refused(refusal),
        }
    }
}

impl CarriesOut for Fake {
    ghost use Rattle.std.specs.Prelude.{◌∷◌, [], replicate};
    ghost use Rattle.span_tracing_skeleton.specs.Skeleton.{Unset, new_skeleton};
    ghost use Rattle.tracing_core_fields.specs.OwnedMetadatas.{owned_plain};

    type Start = FakeStart;

    ghost skeleton = { λ f. record new_skeleton {
      callsites = owned_plain f.callsite ∷ [];
      lanes = replicate f.lanes Unset;
    } };

    ghost copied = { λ s. record new_skeleton {
      callsites = owned_plain s.callsite ∷ [];
      lanes = replicate s.lanes Unset;
    } };

    ghost ready = { λ f. Unit {0} };

    ghost gives = { λ f step reply mask g. mask ≡ [] };

    fn start(&self) -> Result<FakeStart, AllocError> {
        let metadata = self.callsite.metadata_at(self.callsite.fields().callsite());
        Ok(FakeStart {
            callsite: OwnedMetadata::new(self.alloc, &metadata)?,
            lanes: self.lanes,
        })
    }

    fn lane_count(&self) -> usize {
        self.lanes
    }

    #[tactic(auto, using(crate::proofs::FollowedSteps::answered_so, crate::proofs::FollowedSteps::left_so, crate::proofs::FollowedSteps::stays))]
    fn carry_out(&mut self, step: &Step) -> (Reply, Mask) {
        match step {
            Step::Event(event) => (self.event(event), Mask::none()),
            Step::Enabled(call) => (
                or_refusal(self.question_refusal(call), Reply::Enabled(false)),
                Mask::none(),
            ),
            Step::Set(_) => (Reply::Refused(Refusal::Busy), Mask::none()),
            Step::Queue(_) => (Reply::Refused(Refusal::UnknownSink), Mask::none()),
            _ => (Reply::Refused(Refusal::OutOfMemory), Mask::none()),
        }
    }
}
