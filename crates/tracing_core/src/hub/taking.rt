//! Taking subscribers and callsites, and asking all again.
ghost use Rattle.std.specs.Prelude.{◌≡◌, ◌==◌, ℕ, List, Option, Some, None, [], true, IfOk};
ghost use Rattle.tracing_core.specs.Commands.{AddGives, RegisterGives, TakeGives, kept_alike, callsite_with};
ghost use Rattle.tracing_core.specs.Handles.{subscriber_with, most};
ghost use Rattle.tracing_core.specs.TableRows.{KeptSubscriber};
ghost use Rattle.tracing_core.specs.CachePreservation.{PreservesCaches, IsOff};
ghost use Rattle.tracing_core_fields.specs.requests.Interests.{PlainInterest};
ghost use Rattle.tracing_core_fields.specs.requests.Lists.{Every};
ghost use Rattle.tracing_core.specs.ValidCaches.{IsTrueCallsite, HasValidCache, asked_anew};
ghost use Rattle.tracing_core.specs.CacheRefresh.{Formed, Rebuilt, Refreshed};
ghost use Rattle.tracing_core.specs.HubInvariant.{IsSound};

use crate::dispatch::Dispatch;
use crate::hub::Hub;
use crate::hub::asking::ask_hints;
use crate::hub::parts::RegisteredSubscriber;
use crate::refusal::{AddError, RegisterError};
use std::alloc::AllocError;
use tracing_core_fields::{Callsite, Interest, Subscriber, weak_of};

impl<S: Subscriber, C: Callsite> Hub<S, C> {
    /// Asks all subscribers of each callsite and for their hints, and keeps what they say: the common
    /// interest in each callsite, and the greatest level. Then no subscriber counts as lent.
    pub fn rebuild_interest_cache(&mut self)
        ensures asked { Rebuilt ⟦<S as Subscriber>⟧ ⟦<C as Callsite>⟧ self.old self.new }
        // Afterwards the cache is valid of each consistent subscriber.
        ensures right { (e : KeptSubscriber S) → subscriber_with e.serial self.old.subscribers ≡ Some e →
            S.steady e.subscriber → Every (IsTrueCallsite ⟦<C as Callsite>⟧) self.old.callsites →
            ((z : S) × (interests : List PlainInterest) × (hint : Option (Option ℕ)) ×
            HasValidCache ⟦<S as Subscriber>⟧ ⟦<C as Callsite>⟧ self.new (asked_anew z interests hint e)) }
        ensures keeps { PreservesCaches ⟦<S as Subscriber>⟧ ⟦<C as Callsite>⟧ self.old self.new }
        // Without a subscriber nobody is interested in any callsite afterwards, and the level is `OFF`.
        ensures nobody { self.old.subscribers ≡ [] → IsOff self.new }
    {
        self.form(true)
    }

    // Forms anew what is kept, by whether all are asked.
    fn form(&mut self, all: bool)
        ensures { Formed ⟦<S as Subscriber>⟧ ⟦<C as Callsite>⟧ all self.old self.new }
    {
        self.callsites.ask_each(all, &mut self.subscribers);
        self.greatest = ask_hints(all, &mut self.subscribers);
    }

    /// Asks again whoever was lent since it was last asked, and maybe others, and forms what is kept anew: of
    /// whom it doesn't ask, it takes the kept answers. Then no subscriber counts as lent.
    pub fn refresh(&mut self)
        ensures asked { Refreshed ⟦<S as Subscriber>⟧ ⟦<C as Callsite>⟧ self.old self.new }
        // Afterwards the cache is valid of each consistent subscriber that was lent.
        ensures right { (e : KeptSubscriber S) → subscriber_with e.serial self.old.subscribers ≡ Some e → e.lent ≡ true
            →
            S.steady e.subscriber → Every (IsTrueCallsite ⟦<C as Callsite>⟧) self.old.callsites →
            ((z : S) × (interests : List PlainInterest) × (hint : Option (Option ℕ)) ×
            HasValidCache ⟦<S as Subscriber>⟧ ⟦<C as Callsite>⟧ self.new (asked_anew z interests hint e)) }
        ensures keeps { PreservesCaches ⟦<S as Subscriber>⟧ ⟦<C as Callsite>⟧ self.old self.new }
        // Without a subscriber nobody is interested in any callsite afterwards, and the level is `OFF`.
        ensures nobody { self.old.subscribers ≡ [] → IsOff self.new }
    {
        self.form(false)
    }

    // Whether every number was given.
    pub(crate) fn numbers_are_spent(&self) -> bool
        ensures { result ≡ (self.now.next == most) }
    {
        self.next == u64::MAX
    }

    // Room for an answer of each callsite.
    fn room_for_answers(&self) -> Result<Vec<Interest>, AllocError>
        ensures { IfOk result (λ answers. answers.items ≡ []) }
    {
        let mut answers = Vec::new(*self.subscribers.allocator());
        answers.reserve(self.callsites.as_slice().len())?;
        Ok(answers)
    }

    // Takes a subscriber, and refreshes.
    fn take_in(&mut self, subscriber: S) -> Result<Dispatch, AddError<S>>
        ensures { AddGives ⟦<S as Subscriber>⟧ ⟦<C as Callsite>⟧ self.old subscriber result self.new }
    {
        if self.next == u64::MAX {
            return Err(AddError::NumbersSpent(subscriber));
        }
        if self.subscribers.reserve(1).is_err() {
            return Err(AddError::OutOfMemory(subscriber));
        }
        let Ok(interests) = self.room_for_answers() else {
            return Err(AddError::OutOfMemory(subscriber));
        };
        let serial = self.next;
        let mut subscriber = subscriber;
        subscriber.on_register_dispatch(&weak_of(Some(serial)));
        self.subscribers.push_reserved(RegisteredSubscriber {
            serial,
            handles: 1,
            lent: true,
            unsure: false,
            interests,
            hint: None,
            subscriber,
        });
        self.next = serial + 1;
        self.refresh();
        Ok(Dispatch::new(Some(serial)))
    }

    // Takes a callsite whose identifier isn't known, and asks all of it.
    fn take_callsite(&mut self, callsite: C) -> Result<Interest, RegisterError<C>>
        requires { callsite_with (C.metadata_of callsite).callsite self.old.callsites ≡ None }
        ensures { TakeGives ⟦<S as Subscriber>⟧ ⟦<C as Callsite>⟧ self.old callsite result self.new }
    {
        match self.callsites.take(callsite, &mut self.subscribers) {
            Ok(interest) => return Ok(interest),
            Err(callsite) => return Err(RegisterError::OutOfMemory(callsite)),
        }
    }

    // What is kept of the identifier of the callsite: the interest where the metadata is the same.
    fn kept_alike(&self, callsite: &C) -> Option<Option<Interest>>
        ensures { result ≡ kept_alike ⟦<C as Callsite>⟧ (C.metadata_of callsite.now)
            (callsite_with (C.metadata_of callsite.now).callsite self.now.callsites) }
    {
        let metadata = callsite.metadata();
        match self.callsite_with(metadata.callsite().0) {
            None => None,
            Some(registered) => Some(registered.interest_where(&metadata)),
        }
    }

    // Takes a callsite, where none like it is known.
    fn take_once(&mut self, callsite: C) -> Result<Interest, RegisterError<C>>
        ensures { RegisterGives ⟦<S as Subscriber>⟧ ⟦<C as Callsite>⟧ self.old callsite result self.new }
    {
        match self.kept_alike(&callsite) {
            None => self.take_callsite(callsite),
            Some(None) => Err(RegisterError::Taken(callsite)),
            Some(Some(interest)) => Ok(interest),
        }
    }

    /// Takes a subscriber, tells it its handle, and asks it, and others as [`Hub::refresh`] does. It comes back
    /// where no number is left, or else there is no memory for it; then it wasn't told anything.
    pub fn add(&mut self, subscriber: S) -> Result<Dispatch, AddError<S>>
        ensures gives { AddGives ⟦<S as Subscriber>⟧ ⟦<C as Callsite>⟧ self.old subscriber result self.new }
        // In a hub that was sound the cache is valid of the new subscriber, if it is consistent.
        ensures right { IfOk result (λ dispatch. IsSound ⟦<C as Callsite>⟧ self.old → S.steady subscriber →
            ((e : KeptSubscriber S) × (dispatch ≡ Some e.serial) ×
            HasValidCache ⟦<S as Subscriber>⟧ ⟦<C as Callsite>⟧ self.new e)) }
        // Afterwards the cache is valid of each consistent subscriber that was lent before.
        ensures others { IfOk result (λ _. (e : KeptSubscriber S) →
            subscriber_with e.serial self.old.subscribers ≡ Some e → e.lent ≡ true → S.steady e.subscriber →
            Every (IsTrueCallsite ⟦<C as Callsite>⟧) self.old.callsites →
            ((z : S) × (interests : List PlainInterest) × (hint : Option (Option ℕ)) ×
            HasValidCache ⟦<S as Subscriber>⟧ ⟦<C as Callsite>⟧ self.new (asked_anew z interests hint e))) }
        ensures keeps { PreservesCaches ⟦<S as Subscriber>⟧ ⟦<C as Callsite>⟧ self.old self.new }
    {
        self.take_in(subscriber)
    }

    /// Takes a callsite, asks all subscribers of it, and tells it their common interest, which is never
    /// where there is none. One that is known with the same metadata counts as this one: then nothing
    /// changes, and the kept interest is answered. The callsite comes back where its identifier is known
    /// with other metadata, or there is no memory for it.
    pub fn register(&mut self, callsite: C) -> Result<Interest, RegisterError<C>>
        ensures gives { RegisterGives ⟦<S as Subscriber>⟧ ⟦<C as Callsite>⟧ self.old callsite result self.new }
        ensures keeps { PreservesCaches ⟦<S as Subscriber>⟧ ⟦<C as Callsite>⟧ self.old self.new }
    {
        self.take_once(callsite)
    }
}
