//! Who holds stacks: handles, lanes' own defaults, guards and the global default.
ghost use Rattle.std.specs.Prelude.{◌≡◌, None, slice_get};
ghost use Rattle.std.specs.Option.{option_copied};
ghost use Rattle.tracing_core.specs.Defaults.{guard_of, locally};
ghost use Rattle.span_tracing_skeleton.specs.Looking.{inner};
ghost use Rattle.span_tracing_skeleton.specs.Order.{chosen_refusal, default_refusal, further_refusal, global_refusal, reset_refusal};
ghost use Rattle.span_tracing_skeleton.specs.Refusing.{guard_refusal, handle_refusal, hold_refusal, lane_refusal};
ghost use Rattle.span_tracing_skeleton.specs.PlainData.{CloneHandleStep, DefaultStep, GlobalStep, ReleaseStep, ResetStep};
ghost use Rattle.span_tracing_steps.specs.States.{behind, skeleton_of, value_in};
ghost use Rattle.span_tracing_steps.specs.FullHandles.{full_by};
ghost use Rattle.span_tracing_steps.specs.Steps.{StepGives, asked_for, put_away};

use crate::parts::TraceParts;
use span_tracing_skeleton::{DefaultCall, HasOutputs, HasRegistry, Refusal, Reply, ResetCall};
use tracing_core::{DefaultGuard, Dispatch, HandleError};
use tracing_core_fields::{Subscriber, WeakDispatch, serial_of};

// The handle with a number, where it was given and isn't spent.
fn handle_at(handles: &[Option<Dispatch>], number: usize) -> Option<&Dispatch>
    ensures { option_copied result ≡ inner (slice_get handles.now number) }
{
    match handles.get(number) {
        Some(Some(handle)) => Some(handle),
        Some(None) | None => None,
    }
}

// Why there can't be a further handle, where it is one of a subscriber that lives.
fn full_refusal(error: Option<HandleError>) -> Option<Refusal>
    ensures { result ≡ full_by error }
{
    match error {
        Some(HandleError::TooMany) => Some(Refusal::TooManyHandles),
        Some(HandleError::Unknown) | None => None,
    }
}

impl<T: Subscriber> TraceParts<T> {
    // What a handle leads to, where it was given and isn't spent.
    fn behind(&self, handle: usize) -> Option<WeakDispatch>
        ensures { result ≡ inner (slice_get (value_in self.now).handles handle) }
    {
        match handle_at(&self.handles, handle) {
            Some(dispatch) => Some(dispatch.downgrade()),
            None => None,
        }
    }

    // Puts a stack that was released in the place of its number.
    fn put_away(&mut self, number: Option<u64>, released: Option<T>)
        ensures { value_in self.new ≡ record (value_in self.old) {
          retired = put_away number released (value_in self.old).retired;
        } }
    {
        let Some(number) = number else {
            return;
        };
        let Some(stack) = released else {
            return;
        };
        if let Some(place) = self.retired.get_mut(number as usize) {
            *place = Some(stack);
        }
    }
}

impl<T: Subscriber + HasRegistry + HasOutputs> TraceParts<T> {
    ghost use Rattle.span_tracing_steps.specs.TraceInvariant.{IsSound};

    // Why a handle leads to no stack.
    fn handle_refusal(&self, handle: usize) -> Option<Refusal>
        ensures { result ≡ handle_refusal (skeleton_of T.registry_of (value_in self.now)) handle }
    {
        if self.handles.len() <= handle {
            return Some(Refusal::UnknownStack);
        }
        let Some(dispatch) = self.behind(handle) else {
            return Some(Refusal::ReleasedStack);
        };
        match serial_of(&dispatch) {
            None => Some(Refusal::ReleasedStack),
            Some(number) => self.life_refusal(number as usize),
        }
    }

    // Why the stack of a handle isn't held once more.
    fn hold_refusal(&self, handle: usize) -> Option<Refusal>
        ensures { result ≡ hold_refusal (skeleton_of T.registry_of (value_in self.now)) handle }
    {
        match self.behind(handle) {
            None => None,
            Some(dispatch) => full_refusal(self.hub.hold_refusal(&dispatch)),
        }
    }

    // Why there is no further hold of what a handle leads to.
    fn further_refusal(&self, handle: usize) -> Option<Refusal>
        ensures { result ≡ further_refusal (skeleton_of T.registry_of (value_in self.now)) handle }
    {
        let refusal = self.handle_refusal(handle);
        if refusal.is_some() {
            return refusal;
        }
        self.hold_refusal(handle)
    }

    // Why the stack with this handle isn't made the global default.
    fn global_refusal(&self, handle: usize) -> Option<Refusal>
        ensures { result ≡ global_refusal (skeleton_of T.registry_of (value_in self.now)) handle }
    {
        let refusal = self.handle_refusal(handle);
        if refusal.is_some() {
            return refusal;
        }
        if self.hub.has_been_set() {
            return Some(Refusal::GlobalSet);
        }
        self.hold_refusal(handle)
    }

    fn chosen_refusal(&self, handle: Option<usize>) -> Option<Refusal>
        ensures { result ≡ chosen_refusal (skeleton_of T.registry_of (value_in self.now)) handle }
    {
        self.further_refusal(handle?)
    }

    // Why a lane gets no default of its own.
    fn default_refusal(&self, call: &DefaultCall) -> Option<Refusal>
        requires { IsSound self.now }
        ensures { result ≡ default_refusal (skeleton_of T.registry_of (value_in self.now)) call.now }
    {
        let refusal = self.lane_refusal(call.lane);
        if refusal.is_some() {
            return refusal;
        }
        self.chosen_refusal(call.handle)
    }

    fn guard_refusal(&self, lane: usize, guard: usize) -> Option<Refusal>
        ensures { result ≡ guard_refusal (skeleton_of T.registry_of (value_in self.now)) lane guard }
    {
        match self.guards.get(guard) {
            Some(Some(guard)) if guard.lane() == lane as u64 => None,
            _ => Some(Refusal::WrongLane),
        }
    }

    // Why a guard doesn't give its default back.
    fn reset_refusal(&self, call: &ResetCall) -> Option<Refusal>
        requires { IsSound self.now }
        ensures { result ≡ reset_refusal (skeleton_of T.registry_of (value_in self.now)) call.now }
    {
        let refusal = self.lane_refusal(call.lane);
        if refusal.is_some() {
            return refusal;
        }
        self.guard_refusal(call.lane, call.guard)
    }

    /// Makes the stack with this handle the one that lanes reach that have no default of their own.
    pub fn set_global_default(&mut self, handle: usize) -> Reply
        requires { IsSound self.old }
        ensures sound { IsSound self.new }
        // A refused call changes nothing; else the stack becomes the global default, which holds it, and nothing else changes.
        ensures gives { StepGives ⟦<T as Subscriber>⟧ T.registry_of T.set (value_in self.old) (GlobalStep handle) result
            (value_in self.new) }
    {
        if let Some(refusal) = self.global_refusal(handle) {
            return Reply::Refused(refusal);
        }
        let Some(dispatch) = handle_at(&self.handles, handle) else {
            unreachable!()
        };
        // It is a handle of a stack that is held, and the first default.
        let _set = self.hub.set_global_default(dispatch);
        Reply::Done
    }

    // Has a lane reach nothing.
    fn choose_nothing(&mut self, lane: usize) -> DefaultGuard
        requires sound { IsSound self.old }
        requires free { lane_refusal (skeleton_of T.registry_of (value_in self.old)) lane ≡ None }
        ensures sound { IsSound self.new }
        ensures room { self.new.guards ≡ self.old.guards }
        ensures guard { result ≡ guard_of (value_in self.old).hub lane }
        ensures state { value_in self.new ≡ record (value_in self.old) { hub = locally (value_in self.old).hub lane None } }
    {
        let Ok(guard) = self.hub.set_default(lane as u64, &Dispatch::none()) else {
            unreachable!()
        };
        guard
    }

    // Has a lane reach the stack of a handle.
    fn choose_stack(&mut self, lane: usize, handle: usize) -> DefaultGuard
        requires sound { IsSound self.old }
        requires free { lane_refusal (skeleton_of T.registry_of (value_in self.old)) lane ≡ None }
        requires held { further_refusal (skeleton_of T.registry_of (value_in self.old)) handle ≡ None }
        ensures sound { IsSound self.new }
        ensures room { self.new.guards ≡ self.old.guards }
        ensures guard { result ≡ guard_of (value_in self.old).hub lane }
        ensures state { value_in self.new ≡ record (value_in self.old) {
          hub = locally (value_in self.old).hub lane (behind (value_in self.old) handle);
        } }
    {
        let Some(dispatch) = handle_at(&self.handles, handle) else {
            unreachable!()
        };
        let Ok(guard) = self.hub.set_default(lane as u64, dispatch) else {
            unreachable!()
        };
        guard
    }

    // Gives a lane a default of its own, which nothing refuses.
    fn choose(&mut self, lane: usize, handle: Option<usize>) -> DefaultGuard
        requires sound { IsSound self.old }
        requires free { lane_refusal (skeleton_of T.registry_of (value_in self.old)) lane ≡ None }
        requires held { chosen_refusal (skeleton_of T.registry_of (value_in self.old)) handle ≡ None }
        ensures sound { IsSound self.new }
        ensures room { self.new.guards ≡ self.old.guards }
        ensures guard { result ≡ guard_of (value_in self.old).hub lane }
        ensures state { value_in self.new ≡ record (value_in self.old) {
          hub = locally (value_in self.old).hub lane (asked_for (value_in self.old) handle);
        } }
    {
        match handle {
            None => self.choose_nothing(lane),
            Some(handle) => self.choose_stack(lane, handle),
        }
    }

    /// Gives a lane a default of its own, and answers the number of a guard that keeps the one before.
    pub fn set_default(&mut self, call: &DefaultCall) -> Reply
        requires { IsSound self.old }
        ensures sound { IsSound self.new }
        // A refused call changes nothing; else the lane has this default, which holds its stack, and there is a guard more; or out of
        // memory is answered, and nothing changes.
        ensures gives { StepGives ⟦<T as Subscriber>⟧ T.registry_of T.set (value_in self.old) (DefaultStep call.now) result
            (value_in self.new) }
    {
        if let Some(refusal) = self.default_refusal(call) {
            return Reply::Refused(refusal);
        }
        if self.guards.reserve(1).is_err() {
            return Reply::Refused(Refusal::OutOfMemory);
        }
        let number = self.guards.len();
        let guard = self.choose(call.lane, call.handle);
        self.guards.push_reserved(Some(guard));
        Reply::Guard(number)
    }

    /// Gives a lane the default back that its guard keeps, and spends the guard.
    pub fn reset_default(&mut self, call: &ResetCall) -> Reply
        requires { IsSound self.old }
        ensures sound { IsSound self.new }
        // A refused call changes nothing; else the lane has what the guard kept, and what it had lets its stack go.
        ensures gives { StepGives ⟦<T as Subscriber>⟧ T.registry_of T.set (value_in self.old) (ResetStep call.now) result
            (value_in self.new) }
    {
        if let Some(refusal) = self.reset_refusal(call) {
            return Reply::Refused(refusal);
        }
        let Some(guard) = self.guards[call.guard].take() else {
            unreachable!()
        };
        let present = serial_of(&self.hub.reached(call.lane as u64));
        match self.hub.reset(call.lane as u64, guard) {
            Ok(released) => self.put_away(present, released),
            Err(_) => unreachable!(),
        }
        Reply::Done
    }

    /// Takes one more handle of the stack with this handle, and answers its number.
    pub fn clone_handle(&mut self, handle: usize) -> Reply
        requires { IsSound self.old }
        ensures sound { IsSound self.new }
        // A refused call changes nothing; else there is a handle more, which holds the stack; or out of memory is answered, and nothing
        // changes.
        ensures gives { StepGives ⟦<T as Subscriber>⟧ T.registry_of T.set (value_in self.old) (CloneHandleStep handle) result
            (value_in self.new) }
    {
        if let Some(refusal) = self.further_refusal(handle) {
            return Reply::Refused(refusal);
        }
        if self.handles.reserve(1).is_err() {
            return Reply::Refused(Refusal::OutOfMemory);
        }
        let number = self.handles.len();
        let Some(dispatch) = handle_at(&self.handles, handle) else {
            unreachable!()
        };
        let Ok(another) = self.hub.clone(dispatch) else {
            unreachable!()
        };
        self.handles.push_reserved(Some(another));
        Reply::Handle(number)
    }

    /// Spends a handle. Where nobody else holds its stack, that is released, and waits to be taken.
    pub fn release(&mut self, handle: usize) -> Reply
        requires { IsSound self.old }
        ensures sound { IsSound self.new }
        // A refused call changes nothing; else the handle is spent, and lets its stack go.
        ensures gives { StepGives ⟦<T as Subscriber>⟧ T.registry_of T.set (value_in self.old) (ReleaseStep handle) result
            (value_in self.new) }
    {
        if let Some(refusal) = self.handle_refusal(handle) {
            return Reply::Refused(refusal);
        }
        let Some(dispatch) = self.handles[handle].take() else {
            unreachable!()
        };
        let number = serial_of(&dispatch.downgrade());
        let released = self.hub.release(dispatch);
        self.put_away(number, released);
        Reply::Done
    }
}
