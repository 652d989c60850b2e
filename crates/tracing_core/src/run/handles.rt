//! Commands on handles.
ghost use Rattle.std.specs.Prelude.{◌≡◌};
ghost use Rattle.tracing_core.specs.CachePreservation.{PreservesCaches, PreservesLivingCaches};
ghost use Rattle.tracing_core.specs.CommandReplies.{AddRuns, CloneRuns, DowngradeRuns, UpgradeRuns, release_gives, upgrade_refused};

use crate::dispatch::Dispatch;
use crate::hub::Hub;
use crate::refusal::{AddError, HandleError};
use crate::run::book::{find_handle, keep, spend};
use crate::run::command::{CommandError, CommandReply};
use tracing_core_fields::{Callsite, Subscriber, WeakDispatch, serial_of};

// What is replied where a weak handle doesn't become a handle.
fn upgrade_refused<S, C>(error: HandleError) -> CommandReply<S, C>
    ensures { result ≡ upgrade_refused error }
{
    match error {
        HandleError::Unknown => CommandReply::Gone,
        HandleError::TooMany => CommandReply::Refused(CommandError::TooManyHandles),
    }
}

impl<S: Subscriber, C: Callsite> Hub<S, C> {
    #[tactic(auto, using(crate::proofs::CachePreservation::itself_keeps))]
    pub(crate) fn run_add(
        &mut self,
        handles: &mut Vec<Option<Dispatch>>,
        subscriber: S,
    ) -> CommandReply<S, C>
        ensures gives { AddRuns ⟦<S as Subscriber>⟧ ⟦<C as Callsite>⟧ self.old handles.old.items subscriber result
            self.new handles.new.items }
        ensures keeps { PreservesCaches ⟦<S as Subscriber>⟧ ⟦<C as Callsite>⟧ self.old self.new }
    {
        if self.numbers_are_spent() {
            return CommandReply::Refused(CommandError::Add(AddError::NumbersSpent(subscriber)));
        }
        if handles.reserve(1).is_err() {
            return CommandReply::Refused(CommandError::Add(AddError::OutOfMemory(subscriber)));
        }
        match self.add(subscriber) {
            Ok(dispatch) => CommandReply::Handle(keep(handles, Some(dispatch))),
            Err(error) => CommandReply::Refused(CommandError::Add(error)),
        }
    }

    #[tactic(auto, using(crate::proofs::CachePreservation::itself_keeps))]
    pub(crate) fn run_clone(
        &mut self,
        handles: &mut Vec<Option<Dispatch>>,
        number: u64,
    ) -> CommandReply<S, C>
        ensures gives { CloneRuns self.old handles.old.items number result self.new handles.new.items }
        ensures keeps { PreservesCaches ⟦<S as Subscriber>⟧ ⟦<C as Callsite>⟧ self.old self.new }
    {
        let Some(dispatch) = find_handle(handles, number) else {
            return CommandReply::Refused(CommandError::UnknownHandle);
        };
        if let Some(error) = self.further_refusal(dispatch.serial()) {
            return CommandReply::Refused(CommandError::Handle(error));
        }
        if handles.reserve(1).is_err() {
            return CommandReply::Refused(CommandError::OutOfMemory);
        }
        match self.clone(&dispatch) {
            Ok(copy) => CommandReply::Handle(keep(handles, Some(copy))),
            Err(error) => CommandReply::Refused(CommandError::Handle(error)),
        }
    }

    pub(crate) fn run_downgrade(
        &self,
        handles: &[Option<Dispatch>],
        weak: &mut Vec<WeakDispatch>,
        number: u64,
    ) -> CommandReply<S, C>
        ensures { DowngradeRuns handles.now weak.old.items number result weak.new.items }
    {
        let Some(dispatch) = find_handle(handles, number) else {
            return CommandReply::Refused(CommandError::UnknownHandle);
        };
        if weak.reserve(1).is_err() {
            return CommandReply::Refused(CommandError::OutOfMemory);
        }
        CommandReply::Weak(keep(weak, self.downgrade(&dispatch)))
    }

    #[tactic(auto, using(crate::proofs::CachePreservation::itself_keeps))]
    pub(crate) fn run_upgrade(
        &mut self,
        weak: &[WeakDispatch],
        handles: &mut Vec<Option<Dispatch>>,
        number: u64,
    ) -> CommandReply<S, C>
        ensures gives { UpgradeRuns self.old weak.now handles.old.items number result self.new handles.new.items }
        ensures keeps { PreservesCaches ⟦<S as Subscriber>⟧ ⟦<C as Callsite>⟧ self.old self.new }
    {
        let Some(dispatch) = weak.get(number as usize) else {
            return CommandReply::Refused(CommandError::UnknownWeakHandle);
        };
        if let Some(error) = self.further_refusal(serial_of(dispatch)) {
            return upgrade_refused(error);
        }
        if handles.reserve(1).is_err() {
            return CommandReply::Refused(CommandError::OutOfMemory);
        }
        match self.upgrade(dispatch) {
            Ok(Some(handle)) => CommandReply::Handle(keep(handles, Some(handle))),
            Ok(None) => CommandReply::Gone,
            Err(_) => CommandReply::Refused(CommandError::TooManyHandles),
        }
    }

    #[tactic(auto, using(crate::proofs::CachePreservation::itself_living))]
    pub(crate) fn run_release(
        &mut self,
        handles: &mut [Option<Dispatch>],
        number: u64,
    ) -> CommandReply<S, C>
        ensures gives { ((result, self.new), handles.new) ≡ release_gives self.old handles.old number }
        ensures keeps { PreservesLivingCaches ⟦<S as Subscriber>⟧ ⟦<C as Callsite>⟧ self.old self.new }
    {
        match spend(handles, number) {
            None => CommandReply::Refused(CommandError::UnknownHandle),
            Some(dispatch) => CommandReply::Released(self.release(dispatch)),
        }
    }
}
