//! Calls within a lane's default.
ghost use Rattle.std.specs.Prelude.{◌≡◌, slice_set};
ghost use Rattle.tracing_core.specs.CachePreservation.{PreservesCaches, PreservesLivingCaches};
ghost use Rattle.tracing_core.specs.Scopes.{BodyLeaves, CallsLeave, CurrentGives, DefaultGives, WithDefaultGives, is_outside, marked};

use crate::dispatch::Dispatch;
use crate::guard::WrongLane;
use crate::hub::Hub;
use crate::refusal::SetDefaultError;
use tracing_core_fields::{Callsite, Subscriber};

// Sets the mark of a lane, where there is one.
#[tactic(auto, using(crate::proofs::Books::set_past))]
fn set_mark(marks: &mut [bool], lane: u64, mark: bool)
    ensures { marks.new ≡ slice_set marks.old lane mark }
{
    let index = lane as usize;
    if index < marks.len() {
        marks[index] = mark;
    }
}

impl<S, C> Hub<S, C> {
    // Whether the lane is one that was given and is in no `get_default` or `get_current`.
    fn is_outside(&self, lane: u64) -> bool
        ensures { result ≡ is_outside self.now lane }
    {
        match self.entered.get(lane as usize) {
            None => false,
            Some(entered) => !*entered,
        }
    }

    // Marks whether the lane is in a `get_default` or `get_current`.
    fn mark(&mut self, lane: u64, entered: bool)
        ensures { self.new ≡ marked self.old lane entered }
    {
        set_mark(&mut self.entered, lane, entered);
    }

    // Calls f with the hub and a handle to the subscriber that the lane reaches, or to none.
    fn lend_default<T, F: FnOnce(&mut Hub<S, C>, &Dispatch) -> T>(&mut self, lane: u64, f: F) -> T
        requires { F.IsAlwaysCallable f }
        ensures { DefaultGives F.FnOnce f self.old lane result self.new }
    {
        if !self.is_outside(lane) {
            return f(self, &Dispatch::none());
        }
        let dispatch = self.reached_handle(lane);
        self.mark(lane, true);
        let answer = f(self, &dispatch);
        self.mark(lane, false);
        answer
    }

    // Calls f so where the lane's subscriber isn't lent already, and not otherwise.
    fn lend_current<T, F: FnOnce(&mut Hub<S, C>, &Dispatch) -> T>(
        &mut self,
        lane: u64,
        f: F,
    ) -> Option<T>
        requires { F.IsAlwaysCallable f }
        ensures { CurrentGives F.FnOnce f self.old lane result self.new }
    {
        if !self.is_outside(lane) {
            return None;
        }
        let dispatch = self.reached_handle(lane);
        self.mark(lane, true);
        let answer = f(self, &dispatch);
        self.mark(lane, false);
        Some(answer)
    }
}

impl<S: Subscriber, C: Callsite> Hub<S, C> {
    /// Hands the hub and a handle to the subscriber that the lane reaches to `f`, and answers what `f`
    /// does. The handle isn't counted. Within `f` the lane's subscriber isn't reached again: a further call
    /// for the lane gets the handle to no subscriber, as does one for a lane that was never given.
    pub fn get_default<T, F: FnOnce(&mut Hub<S, C>, &Dispatch) -> T>(
        &mut self,
        lane: u64,
        f: F,
    ) -> T
        requires { F.IsAlwaysCallable f }
        ensures gives { DefaultGives F.FnOnce f self.old lane result self.new }
        // Where `f` keeps a sound hub sound and a valid cache valid, so does this.
        ensures keeps { CallsLeave F.FnOnce f (PreservesCaches ⟦<S as Subscriber>⟧ ⟦<C as Callsite>⟧) →
            PreservesCaches ⟦<S as Subscriber>⟧ ⟦<C as Callsite>⟧ self.old self.new }
        ensures living { CallsLeave F.FnOnce f (PreservesLivingCaches ⟦<S as Subscriber>⟧ ⟦<C as Callsite>⟧) →
            PreservesLivingCaches ⟦<S as Subscriber>⟧ ⟦<C as Callsite>⟧ self.old self.new }
    {
        self.lend_default(lane, f)
    }

    /// The same as [`Hub::get_default`], but where the lane's subscriber isn't reached again, `f` isn't
    /// called, and the answer is `None`.
    pub fn get_current<T, F: FnOnce(&mut Hub<S, C>, &Dispatch) -> T>(
        &mut self,
        lane: u64,
        f: F,
    ) -> Option<T>
        requires { F.IsAlwaysCallable f }
        ensures gives { CurrentGives F.FnOnce f self.old lane result self.new }
        // Where `f` keeps a sound hub sound and a valid cache valid, so does this.
        ensures keeps { CallsLeave F.FnOnce f (PreservesCaches ⟦<S as Subscriber>⟧ ⟦<C as Callsite>⟧) →
            PreservesCaches ⟦<S as Subscriber>⟧ ⟦<C as Callsite>⟧ self.old self.new }
        ensures living { CallsLeave F.FnOnce f (PreservesLivingCaches ⟦<S as Subscriber>⟧ ⟦<C as Callsite>⟧) →
            PreservesLivingCaches ⟦<S as Subscriber>⟧ ⟦<C as Callsite>⟧ self.old self.new }
    {
        self.lend_current(lane, f)
    }

    // Sets the default, calls the body, and resets the lane.
    fn give_default<T, F: FnOnce(&mut Hub<S, C>) -> T>(
        &mut self,
        lane: u64,
        dispatch: &Dispatch,
        body: F,
    ) -> Result<(T, Result<Option<S>, WrongLane>), SetDefaultError>
        requires { F.IsAlwaysCallable body }
        ensures { WithDefaultGives F.FnOnce body self.old lane dispatch.now result self.new }
    {
        match self.set_default(lane, dispatch) {
            Ok(guard) => {
                let answer = body(self);
                let reset = self.reset(lane, guard);
                Ok((answer, reset))
            }
            Err(error) => Err(error),
        }
    }

    /// Sets the default of a lane, as [`Hub::set_default`] does, hands the hub to `body`, and resets the
    /// lane, as [`Hub::reset`] does. It answers what `body` and the reset do. Where the default isn't set,
    /// `body` isn't called, and nothing changes.
    pub fn with_default<T, F: FnOnce(&mut Hub<S, C>) -> T>(
        &mut self,
        lane: u64,
        dispatch: &Dispatch,
        body: F,
    ) -> Result<(T, Result<Option<S>, WrongLane>), SetDefaultError>
        requires { F.IsAlwaysCallable body }
        ensures gives { WithDefaultGives F.FnOnce body self.old lane dispatch.now result self.new }
        // Where `body` keeps a sound hub sound, and the cache valid of those who live on, so does this, and the reset may release a
        // subscriber.
        ensures living { BodyLeaves F.FnOnce body (PreservesLivingCaches ⟦<S as Subscriber>⟧ ⟦<C as Callsite>⟧) →
            PreservesLivingCaches ⟦<S as Subscriber>⟧ ⟦<C as Callsite>⟧ self.old self.new }
    {
        self.give_default(lane, dispatch, body)
    }
}
