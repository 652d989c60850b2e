//! Commands on lanes and defaults.
ghost use Rattle.std.specs.Prelude.{◌≡◌};
ghost use Rattle.tracing_core.specs.Defaults.{end_gives};
ghost use Rattle.tracing_core.specs.CachePreservation.{PreservesCaches, PreservesLivingCaches};
ghost use Rattle.tracing_core.specs.CommandReplies.{SetDefaultRuns, LaneRuns, end_reply, global_gives, global_reply, item_of, reset_runs};
ghost use Rattle.tracing_core.specs.CommandReplies.{reset_runs_by, named};

use crate::dispatch::Dispatch;
use crate::guard::{DefaultGuard, WrongLane};
use crate::hub::Hub;
use crate::refusal::{SetDefaultError, SetGlobalDefaultError, UnknownLane};
use crate::run::book::{find_named, keep, put_back, spend};
use crate::run::command::{CommandError, CommandReply};
use tracing_core_fields::{Callsite, Subscriber};

fn end_reply<S, C>(answer: Result<Option<S>, UnknownLane>) -> CommandReply<S, C>
    ensures { result ≡ end_reply answer }
{
    match answer {
        Ok(released) => CommandReply::Released(released),
        Err(_) => CommandReply::Refused(CommandError::UnknownLane),
    }
}

fn global_reply<S, C>(answer: Result<(), SetGlobalDefaultError>) -> CommandReply<S, C>
    ensures { result ≡ global_reply answer }
{
    match answer {
        Ok(()) => CommandReply::Done,
        Err(error) => CommandReply::Refused(CommandError::SetGlobalDefault(error)),
    }
}

impl<S: Subscriber, C: Callsite> Hub<S, C> {
    pub(crate) fn run_lane(&mut self) -> CommandReply<S, C>
        ensures gives { LaneRuns self.old result self.new }
        ensures keeps { PreservesCaches ⟦<S as Subscriber>⟧ ⟦<C as Callsite>⟧ self.old self.new }
    {
        match self.thread() {
            Ok(lane) => CommandReply::Lane(lane),
            Err(_) => CommandReply::Refused(CommandError::OutOfMemory),
        }
    }

    pub(crate) fn run_end_lane(&mut self, lane: u64) -> CommandReply<S, C>
        ensures reply { result ≡ end_reply (end_gives self.old lane).0 }
        ensures state { self.new ≡ (end_gives self.old lane).1 }
        ensures keeps { PreservesLivingCaches ⟦<S as Subscriber>⟧ ⟦<C as Callsite>⟧ self.old self.new }
    {
        end_reply(self.end_thread(lane))
    }

    #[tactic(auto, using(crate::proofs::CachePreservation::itself_keeps))]
    pub(crate) fn run_set_global_default(
        &mut self,
        handles: &[Option<Dispatch>],
        number: Option<u64>,
    ) -> CommandReply<S, C>
        ensures gives { (result, self.new) ≡ global_gives self.old (named handles.now number) }
        ensures keeps { PreservesCaches ⟦<S as Subscriber>⟧ ⟦<C as Callsite>⟧ self.old self.new }
    {
        match find_named(handles, number) {
            None => CommandReply::Refused(CommandError::UnknownHandle),
            Some(dispatch) => global_reply(self.set_global_default(&dispatch)),
        }
    }

    #[tactic(auto, using(crate::proofs::CachePreservation::itself_keeps))]
    pub(crate) fn run_set_default(
        &mut self,
        handles: &[Option<Dispatch>],
        guards: &mut Vec<Option<DefaultGuard>>,
        lane: u64,
        number: Option<u64>,
    ) -> CommandReply<S, C>
        ensures gives { SetDefaultRuns self.old guards.old.items lane (named handles.now number) result self.new
            guards.new.items }
        ensures keeps { PreservesCaches ⟦<S as Subscriber>⟧ ⟦<C as Callsite>⟧ self.old self.new }
    {
        if !self.is_running(lane) {
            return CommandReply::Refused(CommandError::SetDefault(SetDefaultError::UnknownLane));
        }
        let Some(dispatch) = find_named(handles, number) else {
            return CommandReply::Refused(CommandError::UnknownHandle);
        };
        if let Some(error) = self.default_refusal(lane, &dispatch) {
            return CommandReply::Refused(CommandError::SetDefault(error));
        }
        if guards.reserve(1).is_err() {
            return CommandReply::Refused(CommandError::OutOfMemory);
        }
        match self.set_default(lane, &dispatch) {
            Ok(guard) => CommandReply::Guard(keep(guards, Some(guard))),
            Err(error) => CommandReply::Refused(CommandError::SetDefault(error)),
        }
    }

    #[tactic(auto, using(crate::proofs::CachePreservation::itself_living))]
    pub(crate) fn run_reset(
        &mut self,
        guards: &mut [Option<DefaultGuard>],
        lane: u64,
        number: u64,
    ) -> CommandReply<S, C>
        ensures gives { ((result, self.new), guards.new) ≡ reset_runs self.old guards.old lane number }
        ensures keeps { PreservesLivingCaches ⟦<S as Subscriber>⟧ ⟦<C as Callsite>⟧ self.old self.new }
    {
        if self.was_given(lane) {
            self.spend_guard(guards, lane, number)
        } else {
            CommandReply::Refused(CommandError::UnknownLane)
        }
    }

    // Gives a lane the default that the guard of the number remembers, and spends the guard.
    #[tactic(auto, using(crate::proofs::CachePreservation::itself_living))]
    fn spend_guard(
        &mut self,
        guards: &mut [Option<DefaultGuard>],
        lane: u64,
        number: u64,
    ) -> CommandReply<S, C>
        ensures gives { ((result, self.new), guards.new)
            ≡ reset_runs_by self.old guards.old lane number (item_of guards.old number) }
        ensures keeps { PreservesLivingCaches ⟦<S as Subscriber>⟧ ⟦<C as Callsite>⟧ self.old self.new }
    {
        let Some(guard) = spend(guards, number) else {
            return CommandReply::Refused(CommandError::WrongLane);
        };
        match self.reset(lane, guard) {
            Ok(released) => CommandReply::Released(released),
            Err(WrongLane(guard)) => {
                put_back(guards, number, guard);
                CommandReply::Refused(CommandError::WrongLane)
            }
        }
    }
}
