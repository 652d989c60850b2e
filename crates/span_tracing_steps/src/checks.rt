//! Which steps are refused, by reading alone: of lanes, callsites, stacks and spans.
ghost use Rattle.std.specs.Prelude.{◌≡◌, is_some};
ghost use Rattle.std.specs.Option.{option_copied, option_map};
ghost use Rattle.span_registry_layers_store.specs.Registries.{PlainSpan, kin_in};
ghost use Rattle.span_registry_layers_store.specs.Spans.{found};
ghost use Rattle.span_tracing_skeleton.specs.Looking.{callsite_of, handles_in, has_open, is_held, knows_stack, leads_to, named};
ghost use Rattle.span_tracing_skeleton.specs.Looking.{reach, registry_at};
ghost use Rattle.span_tracing_skeleton.specs.Order.{call_refusal, enabled_refusal, follows_refusal, pair_refusal};
ghost use Rattle.span_tracing_skeleton.specs.Refusing.{bare_refusal, closed_refusal, count_refusal, first, foreign_refusal, ids_refusal};
ghost use Rattle.span_tracing_skeleton.specs.Refusing.{lane_refusal, life_refusal, living_refusal, moment_refusal, named_refusal};
ghost use Rattle.span_tracing_skeleton.specs.Refusing.{number_refusal, open_refusal, parent_refusal, span_refusal};
ghost use Rattle.span_tracing_skeleton.specs.PlainData.{on_span};
ghost use Rattle.span_tracing_steps.specs.Actions.{plain_record};
ghost use Rattle.span_tracing_steps.specs.States.{at_index, registry_of_stack, skeleton_of, value_in};

use crate::action::RecordRequest;
use crate::parts::TraceParts;
use crate::requests::id_of;
use span_tracing_skeleton::{
    EnabledCall, FollowsCall, HasRegistry, Parent, Refusal, SpanCall, SpanName,
};
use tracing_core::CallsiteIndex;
use tracing_core_fields::{Subscriber, serial_of};
use tracing_core_moments::Moment;

impl<T: Subscriber + HasRegistry> TraceParts<T> {
    ghost use Rattle.span_tracing_steps.specs.TraceInvariant.{IsSound};

    /// The number of the stack that a lane reaches.
    #[inline(always)]
    pub fn reach(&self, lane: usize) -> Option<usize>
        ensures { result ≡ reach (skeleton_of T.registry_of (value_in self.now)) lane }
    {
        let handle = self.hub.reached(lane as u64);
        match self.hub.subscriber(&handle) {
            None => None,
            Some(_) => match serial_of(&handle) {
                None => None,
                Some(serial) => Some(serial as usize),
            },
        }
    }

    // The stack with a number, where somebody holds it, as the registry of its spans.
    #[inline(always)]
    fn held_at(&self, number: usize) -> Option<&T>
        ensures { registry_of_stack T.registry_of (option_copied result)
            ≡ registry_at (skeleton_of T.registry_of (value_in self.now)) number }
    {
        self.held(number)
    }

    fn knows_stack(&self, number: usize) -> bool
        requires { IsSound self.now }
        ensures { result ≡ knows_stack (skeleton_of T.registry_of (value_in self.now)) number }
    {
        number < self.given()
    }

    fn is_held(&self, number: usize) -> bool
        ensures { result ≡ is_held (skeleton_of T.registry_of (value_in self.now)) number }
    {
        match self.held(number) {
            None => false,
            Some(_) => true,
        }
    }

    /// Whether the span is open.
    #[inline(never)]
    #[tactic(auto, using(crate::proofs::Registries::open_bare))]
    fn is_open(&self, name: SpanName) -> bool
        ensures { result ≡ has_open (skeleton_of T.registry_of (value_in self.now)) name }
    {
        match self.held_at(name.stack) {
            None => false,
            Some(stack) => stack.registry().is_open(&id_of(name)),
        }
    }

    /// How many handles the span has, and 0 where it is not open.
    #[tactic(auto, using(crate::proofs::Registries::handles_bare))]
    fn handles_of(&self, name: SpanName) -> usize
        ensures { result ≡ handles_in (skeleton_of T.registry_of (value_in self.now)) name }
    {
        match self.held_at(name.stack) {
            None => 0,
            Some(stack) => stack.registry().handles_of(&id_of(name)),
        }
    }

    // The identifier of an open span's callsite.
    #[tactic(auto, using(crate::proofs::Registries::number_bare))]
    fn number_of(&self, name: SpanName) -> Option<u64>
        ensures { result ≡ option_map (λ (s : PlainSpan). s.metadata.callsite)
            (found kin_in (registry_at (skeleton_of T.registry_of (value_in self.now)) name.stack).spans name.id.value) }
    {
        match self.held_at(name.stack) {
            None => None,
            Some(stack) => match stack.registry().span(&id_of(name)) {
                None => None,
                Some(span) => Some(span.fields().callsite().0),
            },
        }
    }

    /// Where the callsite of an open span stands.
    pub(crate) fn callsite_of(&self, name: SpanName) -> Option<CallsiteIndex>
        requires { IsSound self.now }
        ensures names { at_index (skeleton_of T.registry_of (value_in self.now)).callsites result
            ≡ callsite_of (skeleton_of T.registry_of (value_in self.now)) name }
        ensures there { is_some result ≡ is_some (callsite_of (skeleton_of T.registry_of (value_in self.now)) name) }
    {
        match self.number_of(name) {
            None => None,
            Some(number) => self.find(number),
        }
    }

    // Why no call goes to the stack of a span: its number was never given.
    fn number_refusal(&self, name: SpanName) -> Option<Refusal>
        requires { IsSound self.now }
        ensures { result ≡ number_refusal (skeleton_of T.registry_of (value_in self.now)) name.stack }
    {
        if self.knows_stack(name.stack) {
            None
        } else {
            Some(Refusal::UnknownStack)
        }
    }

    // Why no call goes to the stack with a number: it was released.
    pub(crate) fn life_refusal(&self, number: usize) -> Option<Refusal>
        ensures { result ≡ life_refusal (skeleton_of T.registry_of (value_in self.now)) number }
    {
        if self.is_held(number) {
            None
        } else {
            Some(Refusal::ReleasedStack)
        }
    }

    fn closed_refusal(&self, name: SpanName) -> Option<Refusal>
        ensures { result ≡ closed_refusal (skeleton_of T.registry_of (value_in self.now)) name }
    {
        if self.is_open(name) {
            None
        } else {
            Some(Refusal::UnknownSpan)
        }
    }

    // Why no call goes to the stack with the span's number.
    fn stack_refusal(&self, name: SpanName) -> Option<Refusal>
        requires { IsSound self.now }
        ensures { result ≡ first (number_refusal (skeleton_of T.registry_of (value_in self.now)) name.stack)
            (life_refusal (skeleton_of T.registry_of (value_in self.now)) name.stack) }
    {
        let refusal = self.number_refusal(name);
        if refusal.is_some() {
            return refusal;
        }
        self.life_refusal(name.stack)
    }

    /// The refusal of a parent of a request on a lane.
    pub(crate) fn parent_refusal(&self, lane: usize, parent: Parent) -> Option<Refusal>
        requires { IsSound self.now }
        ensures { result ≡ parent_refusal (skeleton_of T.registry_of (value_in self.now)) lane parent }
    {
        let Parent::Explicit(name) = parent else {
            return None;
        };
        let refusal = self.stack_refusal(name);
        if refusal.is_some() {
            return refusal;
        }
        if !self.leads_to(lane, name.stack) {
            return Some(Refusal::ForeignParent);
        }
        self.closed_refusal(name)
    }

    // Whether the lane reaches the stack with a number.
    fn leads_to(&self, lane: usize, number: usize) -> bool
        ensures { result ≡ leads_to (reach (skeleton_of T.registry_of (value_in self.now)) lane) number }
    {
        match self.reach(lane) {
            None => false,
            Some(reached) => number == reached,
        }
    }

    /// The refusal of a lane.
    #[tactic(auto, using(crate::proofs::Lanes::lanes_alike))]
    pub(crate) fn lane_refusal(&self, lane: usize) -> Option<Refusal>
        requires { IsSound self.now }
        ensures { result ≡ lane_refusal (skeleton_of T.registry_of (value_in self.now)) lane }
    {
        if self.threads.len() <= lane {
            return Some(Refusal::UnknownLane);
        }
        None
    }

    /// The refusal of a lane, and then of a moment.
    #[inline(always)]
    pub(crate) fn place_refusal(&self, lane: usize, moment: Moment) -> Option<Refusal>
        requires { IsSound self.now }
        ensures { result ≡ first (lane_refusal (skeleton_of T.registry_of (value_in self.now)) lane)
            (moment_refusal moment) }
    {
        let refusal = self.lane_refusal(lane);
        if refusal.is_some() {
            return refusal;
        }
        if !moment.is_in_range() {
            return Some(Refusal::BadMoment);
        }
        None
    }

    /// Why no span is made on a lane: a stack is reached, and all its ids were given.
    pub(crate) fn ids_refusal(&self, reached: Option<usize>, lane: usize) -> Option<Refusal>
        requires { reached ≡ reach (skeleton_of T.registry_of (value_in self.now)) lane }
        ensures { result ≡ ids_refusal (skeleton_of T.registry_of (value_in self.now)) lane }
    {
        let number = reached?;
        match self.held_at(number) {
            None => None,
            Some(stack) => match stack.registry().next_id() {
                None => Some(Refusal::IdsSpent),
                Some(_) => None,
            },
        }
    }

    /// Why a question isn't asked.
    pub(crate) fn enabled_refusal(
        &self,
        call: &EnabledCall,
        callsite: Option<CallsiteIndex>,
    ) -> Option<Refusal>
        requires sound { IsSound self.now }
        requires there { is_some callsite
            ≡ is_some (named (skeleton_of T.registry_of (value_in self.now)).callsites call.now.callsite.0) }
        ensures { result ≡ enabled_refusal (skeleton_of T.registry_of (value_in self.now)) call.now }
    {
        let refusal = self.place_refusal(call.lane, call.moment);
        if refusal.is_some() {
            return refusal;
        }
        match callsite {
            None => Some(Refusal::UnknownCallsite),
            Some(_) => None,
        }
    }

    fn span_refusal(&self, span: Option<SpanName>) -> Option<Refusal>
        requires { IsSound self.now }
        ensures { result ≡ span_refusal (skeleton_of T.registry_of (value_in self.now)) span }
    {
        let name = span?;
        let refusal = self.stack_refusal(name);
        if refusal.is_some() {
            return refusal;
        }
        self.closed_refusal(name)
    }

    /// Why a call on a span isn't made.
    pub(crate) fn call_refusal(&self, call: &SpanCall) -> Option<Refusal>
        requires { IsSound self.now }
        ensures { result ≡ call_refusal (skeleton_of T.registry_of (value_in self.now)) call.now }
    {
        let refusal = self.place_refusal(call.lane, call.moment);
        if refusal.is_some() {
            return refusal;
        }
        self.span_refusal(call.span)
    }

    /// Why values aren't told.
    pub(crate) fn values_refusal(&self, request: &RecordRequest<'_>) -> Option<Refusal>
        requires { IsSound self.now }
        ensures { result ≡ call_refusal (skeleton_of T.registry_of (value_in self.now))
            (on_span (plain_record request.now)) }
    {
        let refusal = self.place_refusal(request.lane, request.moment);
        if refusal.is_some() {
            return refusal;
        }
        self.span_refusal(request.span)
    }

    fn named_refusal(&self, span: Option<SpanName>) -> Option<Refusal>
        requires { IsSound self.now }
        ensures { result ≡ named_refusal (skeleton_of T.registry_of (value_in self.now)) span }
    {
        self.number_refusal(span?)
    }

    fn living_refusal(&self, span: Option<SpanName>) -> Option<Refusal>
        ensures { result ≡ living_refusal (skeleton_of T.registry_of (value_in self.now)) span }
    {
        let name = span?;
        self.life_refusal(name.stack)
    }

    fn open_refusal(&self, span: Option<SpanName>) -> Option<Refusal>
        ensures { result ≡ open_refusal (skeleton_of T.registry_of (value_in self.now)) span }
    {
        self.closed_refusal(span?)
    }

    // A span follows spans of its own stack.
    fn foreign_refusal(&self, span: Option<SpanName>, follows: Option<SpanName>) -> Option<Refusal>
        ensures { result ≡ foreign_refusal span follows }
    {
        let name = span?;
        let followed = follows?;
        if followed.stack == name.stack {
            None
        } else {
            Some(Refusal::ForeignParent)
        }
    }

    // The stacks of both are looked for, and then whether both are held.
    fn stacks_refusal(&self, call: &FollowsCall) -> Option<Refusal>
        requires { IsSound self.now }
        ensures { result ≡ first (named_refusal (skeleton_of T.registry_of (value_in self.now)) call.now.span)
            (first (named_refusal (skeleton_of T.registry_of (value_in self.now)) call.now.follows)
            (first (living_refusal (skeleton_of T.registry_of (value_in self.now)) call.now.span)
            (living_refusal (skeleton_of T.registry_of (value_in self.now)) call.now.follows))) }
    {
        let refusal = self.named_refusal(call.span);
        if refusal.is_some() {
            return refusal;
        }
        let refusal = self.named_refusal(call.follows);
        if refusal.is_some() {
            return refusal;
        }
        let refusal = self.living_refusal(call.span);
        if refusal.is_some() {
            return refusal;
        }
        self.living_refusal(call.follows)
    }

    // After their stacks it is looked whether these are one, and then whether the spans are open.
    #[tactic(auto, using(crate::proofs::Refusals::first_of_four))]
    fn pair_refusal(&self, call: &FollowsCall) -> Option<Refusal>
        requires { IsSound self.now }
        ensures { result ≡ pair_refusal (skeleton_of T.registry_of (value_in self.now)) call.now.span
            call.now.follows }
    {
        let refusal = self.stacks_refusal(call);
        if refusal.is_some() {
            return refusal;
        }
        let refusal = self.foreign_refusal(call.span, call.follows);
        if refusal.is_some() {
            return refusal;
        }
        let refusal = self.open_refusal(call.span);
        if refusal.is_some() {
            return refusal;
        }
        self.open_refusal(call.follows)
    }

    /// Why it isn't told that a span follows another one.
    pub(crate) fn follows_refusal(&self, call: &FollowsCall) -> Option<Refusal>
        requires { IsSound self.now }
        ensures { result ≡ follows_refusal (skeleton_of T.registry_of (value_in self.now)) call.now }
    {
        let refusal = self.place_refusal(call.lane, call.moment);
        if refusal.is_some() {
            return refusal;
        }
        self.pair_refusal(call)
    }

    fn count_refusal(&self, span: Option<SpanName>) -> Option<Refusal>
        ensures { result ≡ count_refusal (skeleton_of T.registry_of (value_in self.now)) span }
    {
        let name = span?;
        if self.handles_of(name) == usize::MAX {
            return Some(Refusal::TooManyHandles);
        }
        None
    }

    fn bare_refusal(&self, span: Option<SpanName>) -> Option<Refusal>
        ensures { result ≡ bare_refusal (skeleton_of T.registry_of (value_in self.now)) span }
    {
        let name = span?;
        if self.handles_of(name) == 0 {
            return Some(Refusal::UnknownSpan);
        }
        None
    }

    /// Why no handle is taken.
    pub(crate) fn clone_refusal(&self, call: &SpanCall) -> Option<Refusal>
        requires { IsSound self.now }
        ensures { result ≡ first (call_refusal (skeleton_of T.registry_of (value_in self.now)) call.now)
            (count_refusal (skeleton_of T.registry_of (value_in self.now)) call.now.span) }
    {
        let refusal = self.call_refusal(call);
        if refusal.is_some() {
            return refusal;
        }
        self.count_refusal(call.span)
    }

    /// Why no handle is given up.
    pub(crate) fn close_refusal(&self, call: &SpanCall) -> Option<Refusal>
        requires { IsSound self.now }
        ensures { result ≡ first (call_refusal (skeleton_of T.registry_of (value_in self.now)) call.now)
            (bare_refusal (skeleton_of T.registry_of (value_in self.now)) call.now.span) }
    {
        let refusal = self.call_refusal(call);
        if refusal.is_some() {
            return refusal;
        }
        self.bare_refusal(call.span)
    }
}
