//! Copies of steps, which may find no memory. A copy says what the step does.
ghost use Rattle.std.specs.Prelude.{◌≡◌};
ghost use Rattle.span_tracing_skeleton.specs.PlainData.{any_step, event_request, record_request, span_request};

use crate::call::{EventCall, NewSpanCall, RecordCall, Step};
use std::alloc::AllocError;

impl Clone for EventCall {
    ghost is_clone = { λ call copy. event_request copy ≡ event_request call };

    #[tactic(auto, using(tracing_core_fields::proofs::OwnedCopies::entries_copied))]
    fn clone(&self) -> Result<EventCall, AllocError> {
        Ok(EventCall {
            lane: self.lane,
            moment: self.moment,
            callsite: self.callsite,
            parent: self.parent,
            values: self.values.clone()?,
        })
    }
}

impl Clone for NewSpanCall {
    ghost is_clone = { λ call copy. span_request copy ≡ span_request call };

    #[tactic(auto, using(tracing_core_fields::proofs::OwnedCopies::entries_copied))]
    fn clone(&self) -> Result<NewSpanCall, AllocError> {
        Ok(NewSpanCall {
            lane: self.lane,
            moment: self.moment,
            callsite: self.callsite,
            parent: self.parent,
            values: self.values.clone()?,
        })
    }
}

impl Clone for RecordCall {
    ghost is_clone = { λ call copy. record_request copy ≡ record_request call };

    #[tactic(auto, using(tracing_core_fields::proofs::OwnedCopies::entries_copied))]
    fn clone(&self) -> Result<RecordCall, AllocError> {
        Ok(RecordCall {
            lane: self.lane,
            moment: self.moment,
            span: self.span,
            values: self.values.clone()?,
        })
    }
}

impl Clone for Step {
    ghost is_clone = { λ step copy. any_step copy ≡ any_step step };

    fn clone(&self) -> Result<Step, AllocError> {
        Ok(match self {
            Step::SetGlobalDefault(handle) => Step::SetGlobalDefault(*handle),
            Step::Event(event) => Step::Event(event.clone()?),
            Step::Enabled(call) => Step::Enabled(*call),
            Step::NewSpan(span) => Step::NewSpan(span.clone()?),
            Step::Record(given) => Step::Record(given.clone()?),
            Step::RecordFollowsFrom(call) => Step::RecordFollowsFrom(*call),
            Step::Enter(call) => Step::Enter(*call),
            Step::Exit(call) => Step::Exit(*call),
            Step::CloneSpan(call) => Step::CloneSpan(*call),
            Step::TryClose(call) => Step::TryClose(*call),
            Step::SetDefault(call) => Step::SetDefault(*call),
            Step::ResetDefault(call) => Step::ResetDefault(*call),
            Step::CloneHandle(handle) => Step::CloneHandle(*handle),
            Step::Release(handle) => Step::Release(*handle),
            Step::Set(call) => Step::Set(*call),
            Step::Queue(call) => Step::Queue(*call),
        })
    }
}
