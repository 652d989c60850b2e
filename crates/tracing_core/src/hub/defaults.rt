//! The defaults: the global one, and those of lanes.
ghost use Rattle.std.specs.Option.{is_some, option_map};
ghost use Rattle.std.specs.Prelude.{◌≡◌, ◌<◌, length, slice_get, IfSome};
ghost use Rattle.tracing_core.specs.Defaults.{was_set, setting_to, global_refusal, globally, default_refusal, guard_of, locally, end_gives};
ghost use Rattle.tracing_core.specs.Defaults.{reset_gives, given_up, running};
ghost use Rattle.tracing_core_fields.specs.requests.Refusals.{or_refused, or_same};
ghost use Rattle.tracing_core.specs.CachePreservation.{PreservesCaches, PreservesLivingCaches};
ghost use Rattle.tracing_core.specs.Table.{chosen};
ghost use Rattle.tracing_core.specs.declared.refusal.SetDefaultError.TheVariants.{Handle};

use crate::dispatch::Dispatch;
use crate::guard::{DefaultGuard, WrongLane};
use crate::hub::Hub;
use crate::hub::lending::hold_refusal;
use crate::hub::parts::{Lane, LaneDefault, lane_at};
use crate::hub::subscribers::{give_back, take_handle};
use crate::refusal::{HandleError, SetDefaultError, SetGlobalDefaultError, UnknownLane};
use tracing_core_fields::{Callsite, Subscriber};

// The default of the lane of the number, where it runs.
fn running_at(lanes: &[Lane], lane: u64) -> Option<LaneDefault>
    ensures value { result ≡ running (slice_get lanes.now lane) }
    ensures bound { IfSome result (λ _. lane < length lanes.now) }
{
    match lane_at(lanes, lane) {
        Some(Lane::Running(setting)) => Some(setting),
        Some(Lane::Ended) => None,
        None => None,
    }
}

// The same refusal, as one of a default.
fn handle_refusal(refusal: Option<HandleError>) -> Option<SetDefaultError>
    ensures { result ≡ option_map Handle refusal }
{
    match refusal {
        None => None,
        Some(error) => Some(SetDefaultError::Handle(error)),
    }
}

impl LaneDefault {
    fn to(dispatch: &Dispatch) -> LaneDefault
        ensures { result ≡ setting_to dispatch.now }
    {
        match dispatch.serial() {
            None => LaneDefault::Nothing,
            Some(serial) => LaneDefault::To(serial),
        }
    }

    fn is_set(self) -> bool
        ensures { result ≡ was_set self }
    {
        !matches!(self, LaneDefault::Unset)
    }

    fn serial(self) -> Option<u64>
        ensures { result ≡ chosen self }
    {
        match self {
            LaneDefault::To(serial) => Some(serial),
            LaneDefault::Unset => None,
            LaneDefault::Nothing => None,
        }
    }
}

impl<S, C> Hub<S, C> {
    /// Whether the global default was set.
    pub fn has_been_set(&self) -> bool
        ensures { result ≡ was_set self.now.global }
    {
        self.global.is_set()
    }

    // Sets the global default, where none was set.
    fn set_global(&mut self, dispatch: &Dispatch) -> Result<(), SetGlobalDefaultError>
        ensures answer { result ≡ or_refused (global_refusal self.old dispatch.now) tt }
        ensures state { self.new ≡ or_same (global_refusal self.old dispatch.now) self.old
            (globally self.old dispatch.now) }
    {
        if self.global.is_set() {
            return Err(SetGlobalDefaultError::AlreadySet);
        }
        match take_handle(&mut self.subscribers, dispatch.serial()) {
            Ok(()) => {
                self.global = LaneDefault::to(dispatch);
                Ok(())
            }
            Err(error) => Err(SetGlobalDefaultError::Handle(error)),
        }
    }

    // Whether the lane was ever given.
    pub(crate) fn was_given(&self, lane: u64) -> bool
        ensures { result ≡ is_some (slice_get self.now.lanes lane) }
    {
        lane_at(&self.lanes, lane).is_some()
    }

    // Whether the lane runs.
    pub(crate) fn is_running(&self, lane: u64) -> bool
        ensures { result ≡ is_some (running (slice_get self.now.lanes lane)) }
    {
        running_at(&self.lanes, lane).is_some()
    }

    // Why the default of a lane isn't set to the subscriber of the handle.
    pub(crate) fn default_refusal(&self, lane: u64, dispatch: &Dispatch) -> Option<SetDefaultError>
        ensures { result ≡ default_refusal self.now lane dispatch.now }
    {
        match running_at(&self.lanes, lane) {
            None => Some(SetDefaultError::UnknownLane),
            Some(_) => handle_refusal(hold_refusal(&self.subscribers, dispatch.serial())),
        }
    }

    // Sets the default of a lane that runs.
    fn set_own(&mut self, lane: u64, dispatch: &Dispatch) -> Result<DefaultGuard, SetDefaultError>
        ensures answer { result ≡ or_refused (default_refusal self.old lane dispatch.now) (guard_of self.old lane) }
        ensures state { self.new ≡ or_same (default_refusal self.old lane dispatch.now) self.old
            (locally self.old lane dispatch.now) }
    {
        let Some(Lane::Running(before)) = lane_at(&self.lanes, lane) else {
            return Err(SetDefaultError::UnknownLane);
        };
        match take_handle(&mut self.subscribers, dispatch.serial()) {
            Ok(()) => {
                self.lanes[lane as usize] = Lane::Running(LaneDefault::to(dispatch));
                Ok(DefaultGuard { lane, before })
            }
            Err(error) => Err(SetDefaultError::Handle(error)),
        }
    }

    // Gives the lane what its guard remembers.
    fn restore(&mut self, lane: u64, guard: DefaultGuard) -> Result<Option<S>, WrongLane>
        ensures { (result, self.new) ≡ reset_gives self.old lane guard }
    {
        if guard.lane != lane {
            return Err(WrongLane(guard));
        }
        match lane_at(&self.lanes, lane) {
            None => Err(WrongLane(guard)),
            Some(Lane::Ended) => Ok(self.give_up(lane, guard.before, Lane::Ended)),
            Some(Lane::Running(present)) => {
                Ok(self.give_up(lane, present, Lane::Running(guard.before)))
            }
        }
    }

    // Ends a lane that runs.
    #[tactic(auto, using(crate::proofs::Defaults::ended))]
    fn end_lane(&mut self, lane: u64) -> Result<Option<S>, UnknownLane>
        ensures { (result, self.new) ≡ end_gives self.old lane }
    {
        match running_at(&self.lanes, lane) {
            None => Err(UnknownLane(())),
            Some(setting) => Ok(self.give_up(lane, setting, Lane::Ended)),
        }
    }

    // Gives up one hold of a default, and gives the lane another value.
    fn give_up(&mut self, lane: u64, setting: LaneDefault, value: Lane) -> Option<S>
        requires { lane < length self.old.lanes }
        ensures { (result, self.new) ≡ given_up self.old lane setting value }
    {
        self.lanes[lane as usize] = value;
        give_back(&mut self.subscribers, setting.serial())
    }
}

impl<S: Subscriber, C: Callsite> Hub<S, C> {
    /// Sets the default of the lanes that have none of their own, once. It holds a handle of its own. It
    /// takes no memory.
    pub fn set_global_default(&mut self, dispatch: &Dispatch) -> Result<(), SetGlobalDefaultError>
        ensures answer { result ≡ or_refused (global_refusal self.old dispatch.now) tt }
        ensures state { self.new ≡ or_same (global_refusal self.old dispatch.now) self.old
            (globally self.old dispatch.now) }
        ensures keeps { PreservesCaches ⟦<S as Subscriber>⟧ ⟦<C as Callsite>⟧ self.old self.new }
    {
        self.set_global(dispatch)
    }

    /// Sets the default of a lane, which holds a handle of its own. The guard remembers the default that
    /// the lane had. It takes no memory.
    pub fn set_default(
        &mut self,
        lane: u64,
        dispatch: &Dispatch,
    ) -> Result<DefaultGuard, SetDefaultError>
        ensures answer { result ≡ or_refused (default_refusal self.old lane dispatch.now) (guard_of self.old lane) }
        ensures state { self.new ≡ or_same (default_refusal self.old lane dispatch.now) self.old
            (locally self.old lane dispatch.now) }
        ensures keeps { PreservesCaches ⟦<S as Subscriber>⟧ ⟦<C as Callsite>⟧ self.old self.new }
    {
        self.set_own(lane, dispatch)
    }

    /// Gives the lane the default that its guard remembers, and gives up the one that it has; a lane that
    /// ended gives up what the guard remembers. The subscriber that this releases comes back. Guards may be
    /// spent in any order. It takes no memory.
    pub fn reset(&mut self, lane: u64, guard: DefaultGuard) -> Result<Option<S>, WrongLane>
        ensures gives { (result, self.new) ≡ reset_gives self.old lane guard }
        ensures keeps { PreservesLivingCaches ⟦<S as Subscriber>⟧ ⟦<C as Callsite>⟧ self.old self.new }
    {
        self.restore(lane, guard)
    }

    /// Ends a lane, which gives up its default. The subscriber that this releases comes back.
    pub fn end_thread(&mut self, lane: u64) -> Result<Option<S>, UnknownLane>
        ensures gives { (result, self.new) ≡ end_gives self.old lane }
        ensures keeps { PreservesLivingCaches ⟦<S as Subscriber>⟧ ⟦<C as Callsite>⟧ self.old self.new }
    {
        self.end_lane(lane)
    }
}
