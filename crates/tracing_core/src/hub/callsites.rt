//! The callsites of a hub, found by their identifiers in one step.
ghost use Rattle.std.specs.Prelude.{◌≡◌, [], None, Some, IfSome, IsTrue, slice_get};
ghost use Rattle.std.specs.Option.{option_map};
ghost use Rattle.tracing_core.specs.InterestsAndHints.{CallsitesAsked};
ghost use Rattle.tracing_core.specs.Commands.{callsite_with};
ghost use Rattle.tracing_core.specs.Indices.{TakesCallsite, index_of_callsite};

use crate::hub::asking::{ask_callsites, reserve_answers};
use crate::hub::parts::{RegisteredCallsite, RegisteredSubscriber};
use std::alloc::Global;
use std::collections::HashMap;
use std::marker::Model;
use tracing_core_fields::{Callsite, Interest, Subscriber};

// Callsites in order of registration.
#[derive(Drop)]
pub(crate) struct Callsites<C> {
    callsites: Vec<RegisteredCallsite<C>>,
    // the index of each identifier among them
    indices: HashMap<u64, usize>,
}

impl<C> Model for Callsites<C> {
    ghost use Rattle.std.specs.HashMap.{get};
    ghost use Rattle.std.specs.Prelude.{◌≡◌, ℕ, List, nat_eq};
    ghost use Rattle.tracing_core.specs.Indices.{index_of_callsite};
    ghost use Rattle.tracing_core.specs.TableRows.{KeptCallsite};
    ghost use Rattle.tracing_core.specs.HubInvariant.{AreDistinct, identifiers};

    ghost Value = { List (KeptCallsite C) };

    ghost view = { λ c. c.callsites.items };

    ghost invariant = { λ c. ((n : ℕ) → get nat_eq c.indices n ≡ index_of_callsite n c.callsites.items) ×
        AreDistinct (identifiers c.callsites.items) };
}

impl<C> Callsites<C> {
    pub(crate) fn new(alloc: Global) -> Callsites<C>
        ensures { result ≡ [] }
    {
        Callsites {
            callsites: Vec::new(alloc),
            indices: HashMap::new(alloc),
        }
    }

    pub(crate) fn as_slice(&self) -> &[RegisteredCallsite<C>]
        ensures { result.now ≡ self.now }
    {
        self.callsites.as_slice()
    }

    // Whether the callsite at the index has the identifier.
    fn stands_at(&self, identifier: u64, index: usize) -> bool
        ensures { IsTrue result → option_map (λ site. site.identifier) (slice_get self.now index) ≡ Some identifier }
    {
        match self.at(index) {
            None => false,
            Some(registered) => registered.identifier == identifier,
        }
    }

    // The index of the callsite with the identifier, where that index is the identifier less the first callsite's.
    #[inline(always)]
    pub(crate) fn counted_index(&self, identifier: u64) -> Option<usize>
        ensures { IfSome result (λ index. index_of_callsite identifier self.now ≡ Some index) }
    {
        let first = self.callsites.first()?;
        let index = identifier.wrapping_sub(first.identifier) as usize;
        if self.stands_at(identifier, index) {
            Some(index)
        } else {
            None
        }
    }

    // The index of the callsite with the identifier. Most programs count their identifiers, so that is tried first.
    #[inline(always)]
    pub(crate) fn index_of(&self, identifier: u64) -> Option<usize>
        ensures { result ≡ index_of_callsite identifier self.now }
    {
        match self.counted_index(identifier) {
            None => self.mapped_index(identifier),
            Some(index) => Some(index),
        }
    }

    // The same by the map.
    #[inline(never)]
    fn mapped_index(&self, identifier: u64) -> Option<usize>
        ensures { result ≡ index_of_callsite identifier self.now }
    {
        match self.indices.get(&identifier) {
            None => None,
            Some(index) => Some(*index),
        }
    }

    pub(crate) fn at(&self, index: usize) -> Option<&RegisteredCallsite<C>>
        ensures { option_map (λ site. site.now) result ≡ slice_get self.now index }
    {
        self.callsites.get(index)
    }

    // The callsite with the identifier.
    pub(crate) fn find(&self, identifier: u64) -> Option<&RegisteredCallsite<C>>
        ensures { option_map (λ site. site.now) result ≡ callsite_with identifier self.now }
    {
        match self.index_of(identifier) {
            None => None,
            Some(index) => self.at(index),
        }
    }
}

impl<C: Callsite> Callsites<C> {
    // Forms anew what is kept of each callsite, in order, by whether all are asked.
    pub(crate) fn ask_each<S: Subscriber>(
        &mut self,
        all: bool,
        subscribers: &mut [RegisteredSubscriber<S>],
    )
        ensures { CallsitesAsked ⟦<S as Subscriber>⟧ ⟦<C as Callsite>⟧ all subscribers.old self.old self.new
            subscribers.new }
    {
        ask_callsites(all, subscribers, &mut self.callsites);
    }

    // Takes a callsite whose identifier isn't known, and asks all of it; for lack of memory it comes back.
    pub(crate) fn take<S: Subscriber>(
        &mut self,
        callsite: C,
        subscribers: &mut [RegisteredSubscriber<S>],
    ) -> Result<Interest, C>
        requires { callsite_with (C.metadata_of callsite).callsite self.old ≡ None }
        ensures { TakesCallsite ⟦<S as Subscriber>⟧ ⟦<C as Callsite>⟧ self.old subscribers.old callsite result self.new
            subscribers.new }
    {
        let mut row = RegisteredCallsite::new(callsite);
        if self.callsites.reserve(1).is_err() {
            return Err(row.into_callsite());
        }
        if !reserve_answers(subscribers) {
            return Err(row.into_callsite());
        }
        let index = self.callsites.len();
        let Ok(_) = self.indices.insert(row.identifier(), index) else {
            return Err(row.into_callsite());
        };
        row.ask(true, index, subscribers);
        let interest = row.interest();
        self.callsites.push_reserved(row);
        Ok(interest)
    }
}
