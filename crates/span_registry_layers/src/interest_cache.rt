//! What is kept of all callsites.
ghost use Rattle.std.specs.Prelude.{◌≡◌, IsTrue, [], map, true};
ghost use Rattle.std.specs.List.{list_any};
ghost use Rattle.tracing_core_fields.specs.Metadata.{plain_metadata};
ghost use Rattle.span_registry_layers.specs.OutputSlots.{EachBecomes};
ghost use Rattle.span_registry_layers.specs.InterestCache.{KeepsInterest, Renews, is_of, is_refused_by, plain_cached_interest};

use crate::cached_interest::CachedInterest;
use crate::refusals::Refusals;
use std::alloc::Global;
use std::marker::Model;
use tracing_core_fields::{Interest, Metadata, OwnedMetadata};

// Whether something is kept of the callsite.
fn is_kept(interest_cache: &[CachedInterest], metadata: &Metadata<'_>) -> bool
    ensures { result ≡ list_any (is_of (plain_metadata metadata.now)) (map plain_cached_interest interest_cache.now) }
{
    let mut rest = interest_cache;
    while let [site, later @ ..] = rest {
        if site.is_of(metadata) {
            return true;
        }
        rest = later;
    }
    false
}

// Whether it was kept that nobody is interested in the callsite.
#[inline(never)]
fn refuse(interest_cache: &[CachedInterest], metadata: &Metadata<'_>) -> bool
    ensures { result ≡ list_any (is_refused_by (plain_metadata metadata.now)) (map plain_cached_interest interest_cache.now) }
{
    let mut rest = interest_cache;
    while let [site, later @ ..] = rest {
        if site.refuses(metadata) {
            return true;
        }
        rest = later;
    }
    false
}

// Whether the site at the index says that nobody is interested in the callsite.
#[inline(never)]
fn refuses_at(interest_cache: &[CachedInterest], index: usize, metadata: &Metadata<'_>) -> bool
    ensures { IsTrue result → list_any (is_refused_by (plain_metadata metadata.now))
        (map plain_cached_interest interest_cache.now) ≡ true }
{
    match interest_cache.get(index) {
        Some(site) => site.refuses(metadata),
        None => false,
    }
}

// Keeps another interest of the callsite, where one is kept.
fn renew(interest_cache: &mut [CachedInterest], metadata: &Metadata<'_>, interest: Interest)
    ensures { EachBecomes (Renews (plain_metadata metadata.now) interest) interest_cache.old interest_cache.new }
{
    for site in interest_cache.iter_mut() {
        site.renew(metadata, interest);
    }
}

/// What is kept of callsites, in the order in which they were registered.
#[derive(Drop)]
pub(crate) struct InterestCache {
    interest_cache: Vec<CachedInterest>,
    // So that most requests look at no site, however many there are.
    refusals: Refusals,
}

impl Model for InterestCache {
    ghost use Rattle.std.specs.List.{list_any};
    ghost use Rattle.std.specs.Prelude.{◌≡◌, ℕ, List, false, map};
    ghost use Rattle.span_registry_layers.specs.Refusals.{is_refusal_of, may_refuse};
    ghost use Rattle.span_registry_layers.specs.InterestCache.{PlainCachedInterest, plain_cached_interest};

    ghost Value = { List PlainCachedInterest };

    ghost view = { λ s. map plain_cached_interest s.interest_cache.items };

    ghost invariant = { λ s. (n level : ℕ) → may_refuse s.refusals n level ≡ false →
        list_any (is_refusal_of n level) (map plain_cached_interest s.interest_cache.items) ≡ false };
}

impl InterestCache {
    pub(crate) fn new(alloc: Global) -> InterestCache
        ensures { result ≡ [] }
    {
        InterestCache {
            interest_cache: Vec::new(alloc),
            refusals: Refusals::new(alloc),
        }
    }

    // Whether it was kept that nobody is interested in the callsite.
    #[inline(always)]
    pub(crate) fn refuse(&self, metadata: &Metadata<'_>) -> bool
        ensures { result ≡ list_any (is_refused_by (plain_metadata metadata.now)) self.now }
    {
        if !self.refusals.may_refuse(metadata) {
            return false;
        }
        let index = self.refusals.index_of(metadata.callsite().0);
        refuses_at(&self.interest_cache, index, metadata) || refuse(&self.interest_cache, metadata)
    }

    // Keeps the interest, where there is room, and answers whether it is kept.
    pub(crate) fn keep(
        &mut self,
        alloc: Global,
        metadata: &Metadata<'_>,
        interest: Interest,
    ) -> bool
        ensures { KeepsInterest result (plain_metadata metadata.now) interest self.old self.new }
    {
        if is_kept(&self.interest_cache, metadata) {
            self.refusals.note(metadata, 0, interest);
            renew(&mut self.interest_cache, metadata, interest);
            return true;
        }
        let Ok(copy) = OwnedMetadata::new(alloc, metadata) else {
            return false;
        };
        if self.interest_cache.reserve(1).is_err() {
            return false;
        }
        self.refusals
            .note(metadata, self.interest_cache.len(), interest);
        self.interest_cache.push_reserved(CachedInterest {
            metadata: copy,
            interest,
        });
        true
    }
}
