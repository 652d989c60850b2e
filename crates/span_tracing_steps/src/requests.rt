//! Events, questions and new spans.
ghost use Rattle.std.specs.Prelude.{◌≡◌, IsTrue, None, Ok, Some, false};
ghost use Rattle.tracing_core_fields.specs.IndexedEntries.{plain_entries};
ghost use Rattle.tracing_core.specs.IndexedRequests.{plain_parent};
ghost use Rattle.tracing_core_fields.specs.requests.PlainRequests.{explicit_parent};
ghost use Rattle.span_tracing_skeleton.specs.Acting.{told_parent};
ghost use Rattle.span_tracing_skeleton.specs.Looking.{reach};
ghost use Rattle.span_tracing_skeleton.specs.Machine.{or_refused};
ghost use Rattle.span_tracing_skeleton.specs.declared.call.Reply.TheVariants.{Done};
ghost use Rattle.span_tracing_skeleton.specs.PlainData.{EnabledStep, EventStep, SpanStep};
ghost use Rattle.span_tracing_steps.specs.Actions.{plain_request};
ghost use Rattle.span_tracing_steps.specs.RequestTarget.{FoundFor, GoesTo, StaysAt};
ghost use Rattle.span_tracing_steps.specs.States.{at_index, skeleton_of, value_in};
ghost use Rattle.span_tracing_steps.specs.Steps.{StepGives, span_reply};
ghost use Rattle.span_tracing_steps.specs.StackRequests.{named_as, place_at};

use crate::action::Request;
use crate::parts::TraceParts;
use span_tracing_skeleton::{
    EnabledCall, HasOutputs, HasRegistry, Parent, Refusal, Reply, SpanName,
};
use tracing_core::{CallsiteIndex, RequestParent};
use tracing_core_fields::{Id, IndexedValues, RequestError, Subscriber, serial_of, weak_of};
use tracing_core_moments::{At, Moment};

/// Where and when.
pub(crate) fn at_of(lane: usize, moment: Moment) -> At
    ensures { result ≡ place_at lane moment }
{
    At {
        lane: lane as u64,
        seconds: moment.seconds,
        nanoseconds: moment.nanoseconds,
    }
}

/// The id of a span, within its stack.
#[inline(always)]
pub(crate) fn id_of(name: SpanName) -> Id
    ensures { result ≡ name.id.value }
{
    Id::from_non_zero_u64(name.id)
}

// The parent, as the hub is told of it: its stack was looked at.
fn parent_of(parent: Parent) -> RequestParent
    ensures { plain_parent result ≡ told_parent parent }
{
    match parent {
        Parent::Contextual => RequestParent::Contextual,
        Parent::Root => RequestParent::Root,
        Parent::Explicit(name) => RequestParent::Explicit(id_of(name)),
    }
}

// Whether the request stands under the lane's current span, or under none.
fn names_none(parent: Parent) -> bool
    ensures { IsTrue result → explicit_parent (told_parent parent) ≡ None }
{
    match parent {
        Parent::Contextual | Parent::Root => true,
        Parent::Explicit(_) => false,
    }
}

// The name of the span that a stack made.
fn name_of(stack: usize, id: Option<Id>) -> Option<SpanName>
    ensures { result ≡ named_as stack id }
{
    match id {
        None => None,
        Some(id) => Some(SpanName {
            stack,
            id: id.into_non_zero_u64(),
        }),
    }
}

// A parent was looked for, and that ids are left, so that only out of memory is new.
fn reply_of(stack: usize, made: Result<Option<Id>, RequestError>) -> Reply
    ensures { result ≡ span_reply stack made }
{
    match made {
        Ok(id) => Reply::Span(name_of(stack, id)),
        Err(RequestError::IdsSpent) => Reply::Refused(Refusal::IdsSpent),
        Err(_) => Reply::Refused(Refusal::OutOfMemory),
    }
}

impl<T: Subscriber + HasRegistry + HasOutputs> TraceParts<T> {
    ghost use Rattle.span_tracing_steps.specs.TraceInvariant.{IsSound};

    // The stack that has to be told of an event at the callsite of the index: that which the lane reaches, unless it ignores the event.
    #[inline(always)]
    fn goes_to(&self, lane: usize, index: CallsiteIndex, parent: Parent) -> Option<usize>
        ensures { GoesTo ⟦<T as Subscriber>⟧ T.registry_of (value_in self.now) lane index parent result }
    {
        let handle = self.hub.reached(lane as u64);
        match self.hub.subscriber(&handle) {
            None => None,
            Some(stack) => {
                if self.is_ignored(stack, index, parent) {
                    return None;
                }
                match serial_of(&handle) {
                    None => None,
                    Some(serial) => Some(serial as usize),
                }
            }
        }
    }

    // Whether the stack stays as it is at each event of the callsite at the index under this parent.
    #[inline(always)]
    fn is_ignored(&self, stack: &T, index: CallsiteIndex, parent: Parent) -> bool
        ensures { IsTrue result → StaysAt ⟦<T as Subscriber>⟧ parent
            (at_index (skeleton_of T.registry_of (value_in self.now)).callsites (Some index)) stack.now }
    {
        if !names_none(parent) {
            return false;
        }
        let Some(metadata) = self.hub.metadata_at(index) else {
            return false;
        };
        stack.ignores(*metadata.level())
    }

    // Tells the reached stack of an event that nothing refuses, where there is one and it doesn't ignore it.
    #[inline(always)]
    fn tell(&mut self, index: CallsiteIndex, event: &Request<'_>)
        requires sound { IsSound self.old }
        requires found { FoundFor T.registry_of (value_in self.old) event.now.lane event.now.moment event.now.callsite
            false event.now.parent (Ok index) }
        ensures sound { IsSound self.new }
        ensures gives { StepGives ⟦<T as Subscriber>⟧ T.registry_of T.set (value_in self.old) (EventStep
            (plain_request event.now)) Done (value_in self.new) }
    {
        let Some(stack) = self.goes_to(event.lane, index, event.parent) else {
            return;
        };
        self.hand(
            stack,
            index,
            event.lane,
            event.moment,
            event.callsite,
            event.parent,
            event.values,
        );
    }

    // Hands an event to the stack, which the lane reaches. It stands out of line, so that an event that the stack ignores saves no
    // registers for it.
    #[inline(never)]
    fn hand(
        &mut self,
        stack: usize,
        index: CallsiteIndex,
        lane: usize,
        moment: Moment,
        callsite: u64,
        parent: Parent,
        values: IndexedValues<'_>,
    )
        requires sound { IsSound self.old }
        requires found { FoundFor T.registry_of (value_in self.old) lane moment callsite false parent (Ok index) }
        requires reached { reach (skeleton_of T.registry_of (value_in self.old)) lane ≡ Some stack }
        ensures sound { IsSound self.new }
        ensures gives { StepGives ⟦<T as Subscriber>⟧ T.registry_of T.set (value_in self.old) (EventStep
            (record { lane = lane; moment = moment; callsite = callsite; parent = parent; values = plain_entries values.entry }))
            Done (value_in self.new) }
    {
        // The refusals were looked for, so nothing stands in its way.
        let handle = weak_of(Some(stack as u64));
        let at = at_of(lane, moment);
        let parent = parent_of(parent);
        let _told = self.hub.event_at(&handle, index, parent, values, at);
    }

    // An event, whatever is to be said of it.
    #[inline(never)]
    fn event_apart(
        &mut self,
        lane: usize,
        moment: Moment,
        callsite: u64,
        parent: Parent,
        values: IndexedValues<'_>,
    ) -> Option<Refusal>
        requires { IsSound self.old }
        ensures sound { IsSound self.new }
        ensures gives { StepGives ⟦<T as Subscriber>⟧ T.registry_of T.set (value_in self.old) (EventStep
            (record { lane = lane; moment = moment; callsite = callsite; parent = parent; values = plain_entries values.entry }))
            (or_refused result Done) (value_in self.new) }
    {
        let event = Request {
            lane,
            moment,
            callsite,
            parent,
            values,
        };
        match self.find_for(&event, false) {
            Err(refusal) => Some(refusal),
            Ok(index) => {
                self.tell(index, &event);
                None
            }
        }
    }

    /// Makes an event on a lane.
    #[inline(always)]
    pub fn event(&mut self, event: &Request<'_>) -> Reply
        requires { IsSound self.old }
        ensures sound { IsSound self.new }
        // A refused event changes nothing; any other is done, and the stack that the lane reaches takes it.
        ensures gives { StepGives ⟦<T as Subscriber>⟧ T.registry_of T.set (value_in self.old) (EventStep
            (plain_request event.now)) result (value_in self.new) }
    {
        let refusal = match self.found_at_once(event) {
            None => self.event_apart(
                event.lane,
                event.moment,
                event.callsite,
                event.parent,
                event.values,
            ),
            Some(index) => {
                self.tell(index, event);
                None
            }
        };
        match refusal {
            None => Reply::Done,
            Some(refusal) => Reply::Refused(refusal),
        }
    }

    /// Makes a new span on a lane.
    pub fn new_span(&mut self, span: &Request<'_>) -> Reply
        requires { IsSound self.old }
        ensures sound { IsSound self.new }
        // A refused span changes nothing; else the stack that the lane reaches takes it, and its answer is told, or else it is dropped.
        ensures gives { StepGives ⟦<T as Subscriber>⟧ T.registry_of T.set (value_in self.old) (SpanStep
            (plain_request span.now)) result (value_in self.new) }
    {
        let index = match self.find_for(span, true) {
            Err(refusal) => return Reply::Refused(refusal),
            Ok(index) => index,
        };
        let reached = self.reach(span.lane);
        if let Some(refusal) = self.ids_refusal(reached, span.lane) {
            return Reply::Refused(refusal);
        }
        let Some(stack) = reached else {
            return Reply::Span(None);
        };
        let handle = weak_of(Some(stack as u64));
        let at = at_of(span.lane, span.moment);
        let parent = parent_of(span.parent);
        match self
            .hub
            .new_span_at(&handle, index, parent, span.values, at)
        {
            None => unreachable!(),
            Some(made) => reply_of(stack, made),
        }
    }

    /// Asks whether a request at a callsite would be made.
    pub fn enabled(&mut self, call: &EnabledCall) -> Reply
        requires { IsSound self.old }
        ensures sound { IsSound self.new }
        // A refused question changes nothing; else the reached stack is asked, and where none is, the answer is no.
        ensures gives { StepGives ⟦<T as Subscriber>⟧ T.registry_of T.set (value_in self.old) (EnabledStep
            call.now) result (value_in self.new) }
    {
        let found = self.find(call.callsite.0);
        if let Some(refusal) = self.enabled_refusal(call, found) {
            return Reply::Refused(refusal);
        }
        let Some(stack) = self.reach(call.lane) else {
            return Reply::Enabled(false);
        };
        let Some(index) = found else { unreachable!() };
        let handle = weak_of(Some(stack as u64));
        match self
            .hub
            .enabled_at(&handle, index, at_of(call.lane, call.moment))
        {
            None => unreachable!(),
            Some(wanted) => Reply::Enabled(wanted),
        }
    }
}
