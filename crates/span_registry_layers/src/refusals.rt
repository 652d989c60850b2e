//! Which callsites may be of interest to nobody.
ghost use Rattle.std.specs.Prelude.{ℕ, ◌≡◌, nat_lt, true, false};
ghost use Rattle.tracing_core_fields.specs.Metadata.{plain_metadata};
ghost use Rattle.tracing_core_fields.specs.requests.Interests.{says_never};
ghost use Rattle.span_registry_layers.specs.Refusals.{is_noted, may_refuse};

use std::alloc::Global;
use std::collections::HashMap;
use tracing_core_fields::{Interest, Level, LevelFilter, Metadata};

/// The identifiers of callsites of which it was kept that nobody is interested.
#[derive(Drop)]
pub(crate) struct Refusals {
    // where one of the identifier stands among what is kept, most likely
    pub(crate) indices: HashMap<u64, usize>,
    // there was no memory for one of them
    pub(crate) lacks_some: bool,
    // none of them is less verbose, so that a look at the level tells most others apart
    pub(crate) least: LevelFilter,
}

impl Refusals {
    pub(crate) fn new(alloc: Global) -> Refusals
        ensures { (n level : ℕ) → may_refuse result n level ≡ false }
    {
        Refusals {
            indices: HashMap::new(alloc),
            lacks_some: false,
            least: LevelFilter::TRACE,
        }
    }

    #[inline(never)]
    fn is_noted(&self, identifier: u64) -> bool
        ensures { result ≡ is_noted self.now identifier }
    {
        self.lacks_some || self.indices.contains_key(&identifier)
    }

    // Whether all of them are more verbose than this level.
    fn is_below(&self, level: Level) -> bool
        ensures { result ≡ nat_lt level self.now.least }
    {
        LevelFilter::from_level(level) < self.least
    }

    // Whether the callsite may be of interest to nobody.
    #[inline(always)]
    pub(crate) fn may_refuse(&self, metadata: &Metadata<'_>) -> bool
        ensures { result ≡ may_refuse self.now (plain_metadata metadata.now).callsite (plain_metadata metadata.now).level }
    {
        !self.is_below(*metadata.level()) && self.is_noted(metadata.callsite().0)
    }

    // Where to look first.
    #[inline(never)]
    pub(crate) fn index_of(&self, identifier: u64) -> usize {
        match self.indices.get(&identifier) {
            None => 0,
            Some(index) => *index,
        }
    }

    fn lower_to(&mut self, level: Level)
        ensures lower { self.new ≡ record self.old { least = self.new.least } }
        ensures least { nat_lt level self.new.least ≡ false }
        ensures stays { (n : ℕ) → nat_lt n self.old.least ≡ false → nat_lt n self.new.least ≡ false }
    {
        if self.is_below(level) {
            self.least = LevelFilter::from_level(level);
        }
    }

    // Where the identifier was noted before, that tells best where to look.
    fn note_identifier(&mut self, identifier: u64, index: usize)
        ensures least { self.new.least ≡ self.old.least }
        ensures noted { is_noted self.new identifier ≡ true }
        ensures stays { (n : ℕ) → is_noted self.old n ≡ true → is_noted self.new n ≡ true }
    {
        if self.is_noted(identifier) {
            return;
        }
        if self.indices.insert(identifier, index).is_err() {
            self.lacks_some = true;
        }
    }

    // Notes that the callsite has this interest.
    #[tactic(auto, using(crate::proofs::NotedRefusals::may_still, crate::proofs::NotedRefusals::may_now))]
    pub(crate) fn note(&mut self, metadata: &Metadata<'_>, index: usize, interest: Interest)
        ensures noted { says_never interest ≡ true →
            may_refuse self.new (plain_metadata metadata.now).callsite (plain_metadata metadata.now).level ≡ true }
        ensures stays { (n level : ℕ) → may_refuse self.old n level ≡ true → may_refuse self.new n level ≡ true }
    {
        if !interest.is_never() || self.may_refuse(metadata) {
            return;
        }
        self.lower_to(*metadata.level());
        self.note_identifier(metadata.callsite().0, index);
    }
}
