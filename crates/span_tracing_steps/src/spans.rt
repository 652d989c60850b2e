//! Calls on spans that are there.
ghost use Rattle.std.specs.Prelude.{◌≡◌, Some};
ghost use Rattle.span_tracing_skeleton.specs.PlainData.{CloneStep, CloseStep, EnterStep, ExitStep, FollowsFromStep, RecordStep};
ghost use Rattle.span_tracing_steps.specs.Actions.{plain_record};
ghost use Rattle.span_tracing_steps.specs.States.{value_in};
ghost use Rattle.span_tracing_steps.specs.Steps.{StepGives};

use crate::action::RecordRequest;
use crate::parts::TraceParts;
use crate::requests::{at_of, id_of};
use span_tracing_skeleton::{
    FollowsCall, HasOutputs, HasRegistry, Refusal, Reply, SpanCall, SpanName,
};
use tracing_core_fields::{Subscriber, WeakDispatch, weak_of};

// What requests of a span's stack are made by.
fn handle_of(name: SpanName) -> WeakDispatch
    ensures { result ≡ Some name.stack }
{
    weak_of(Some(name.stack as u64))
}

impl<T: Subscriber + HasRegistry + HasOutputs> TraceParts<T> {
    ghost use Rattle.span_tracing_steps.specs.TraceInvariant.{IsSound};

    /// Adds values to a span's.
    pub fn record(&mut self, request: &RecordRequest<'_>) -> Reply
        requires { IsSound self.old }
        ensures sound { IsSound self.new }
        // A refused record changes nothing; any other is done, and the stack takes the values by their fields' places, without those
        // of fields that the callsite lacks. A record of no span changes nothing.
        ensures gives { StepGives ⟦<T as Subscriber>⟧ T.registry_of T.set (value_in self.old) (RecordStep
            (plain_record request.now)) result (value_in self.new) }
    {
        if let Some(refusal) = self.values_refusal(request) {
            return Reply::Refused(refusal);
        }
        let Some(name) = request.span else {
            return Reply::Done;
        };
        let Some(index) = self.callsite_of(name) else {
            return Reply::Done;
        };
        let handle = handle_of(name);
        let at = at_of(request.lane, request.moment);
        let _told = self
            .hub
            .record_at(&handle, index, &id_of(name), request.values, at);
        Reply::Done
    }

    /// Records that a span follows from another one.
    pub fn record_follows_from(&mut self, call: &FollowsCall) -> Reply
        requires { IsSound self.old }
        ensures sound { IsSound self.new }
        // A refused link changes nothing; any other is done, and the stack takes it unless one of the spans is none.
        ensures gives { StepGives ⟦<T as Subscriber>⟧ T.registry_of T.set (value_in self.old) (FollowsFromStep
            call.now) result (value_in self.new) }
    {
        if let Some(refusal) = self.follows_refusal(call) {
            return Reply::Refused(refusal);
        }
        let Some(name) = call.span else {
            return Reply::Done;
        };
        let Some(followed) = call.follows else {
            return Reply::Done;
        };
        let handle = handle_of(name);
        let at = at_of(call.lane, call.moment);
        let _told = self
            .hub
            .record_follows_from(&handle, &id_of(name), &id_of(followed), at);
        Reply::Done
    }

    /// Enters a span on a lane.
    pub fn enter(&mut self, call: &SpanCall) -> Reply
        requires { IsSound self.old }
        ensures sound { IsSound self.new }
        // A refused entry changes nothing; else the stack takes it, and where the stack refuses, out of memory is answered. An entry
        // of no span is done, and changes nothing.
        ensures gives { StepGives ⟦<T as Subscriber>⟧ T.registry_of T.set (value_in self.old) (EnterStep call.now)
            result (value_in self.new) }
    {
        if let Some(refusal) = self.call_refusal(call) {
            return Reply::Refused(refusal);
        }
        let Some(name) = call.span else {
            return Reply::Done;
        };
        let handle = handle_of(name);
        match self
            .hub
            .enter(&handle, &id_of(name), at_of(call.lane, call.moment))
        {
            Ok(()) => Reply::Done,
            Err(_) => Reply::Refused(Refusal::OutOfMemory),
        }
    }

    /// Leaves a span on a lane.
    pub fn exit(&mut self, call: &SpanCall) -> Reply
        requires { IsSound self.old }
        ensures sound { IsSound self.new }
        ensures gives { StepGives ⟦<T as Subscriber>⟧ T.registry_of T.set (value_in self.old) (ExitStep call.now)
            result (value_in self.new) }
    {
        if let Some(refusal) = self.call_refusal(call) {
            return Reply::Refused(refusal);
        }
        let Some(name) = call.span else {
            return Reply::Done;
        };
        let handle = handle_of(name);
        self.hub
            .exit(&handle, &id_of(name), at_of(call.lane, call.moment));
        Reply::Done
    }

    /// Takes one more handle of a span.
    pub fn clone_span(&mut self, call: &SpanCall) -> Reply
        requires { IsSound self.old }
        ensures sound { IsSound self.new }
        // A refused call changes nothing; any other is done, and the stack takes it unless the span is none.
        ensures gives { StepGives ⟦<T as Subscriber>⟧ T.registry_of T.set (value_in self.old) (CloneStep call.now)
            result (value_in self.new) }
    {
        if let Some(refusal) = self.clone_refusal(call) {
            return Reply::Refused(refusal);
        }
        let Some(name) = call.span else {
            return Reply::Done;
        };
        let handle = handle_of(name);
        let _same = self
            .hub
            .clone_span(&handle, &id_of(name), at_of(call.lane, call.moment));
        Reply::Done
    }

    /// Gives up one handle of a span; answers whether the span closed.
    pub fn try_close(&mut self, call: &SpanCall) -> Reply
        requires { IsSound self.old }
        ensures sound { IsSound self.new }
        ensures gives { StepGives ⟦<T as Subscriber>⟧ T.registry_of T.set (value_in self.old) (CloseStep call.now)
            result (value_in self.new) }
    {
        if let Some(refusal) = self.close_refusal(call) {
            return Reply::Refused(refusal);
        }
        let Some(name) = call.span else {
            return Reply::Closed(false);
        };
        let handle = handle_of(name);
        Reply::Closed(
            self.hub
                .try_close(&handle, id_of(name), at_of(call.lane, call.moment)),
        )
    }
}
