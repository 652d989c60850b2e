//! The ranks that levels and filters share.
ghost use Rattle.std.specs.Prelude.{◌≡◌, ◌≤◌};
ghost use Rattle.std.specs.Ordering.{nat_cmp, as_partial_cmp};
ghost use Rattle.tracing_core_fields.specs.LevelFilter.{filter_named, filter_numbered};

use crate::parse::number_in;
use std::cmp::Ordering;
use std::fmt;
use std::hash::{Hash, Hasher};
use std::marker::Model;

// How much is let through: nothing, or the levels up to one. A contract sees it as a number from 0 to 5.
#[derive(Clone, Copy)]
pub(crate) struct Rank(LevelInner);

#[derive(Clone, Copy, Debug)]
enum LevelInner {
    Off,
    Error,
    Warn,
    Info,
    Debug,
    Trace,
}

impl Model for Rank {
    ghost use Rattle.std.specs.Prelude.{ℕ};

    ghost Value = { ℕ };

    ghost use Rattle.std.proofs.Common.{ap};
    ghost use Rattle.tracing_core_fields.specs.LevelInner.{rank_of, inner_of, inner_of-rank_of};

    ghost view = { λ rank. rank_of rank.0 };

    ghost inverse = { λ number. record { 0 = inner_of number } };

    ghost inverse_ok = { λ rank _. ap (λ inner. record { 0 = inner }) (inner_of-rank_of rank.0) };
}

impl Rank {
    pub(crate) const OFF: Rank = Rank(LevelInner::Off);

    pub(crate) const ERROR: Rank = Rank(LevelInner::Error);

    pub(crate) const WARN: Rank = Rank(LevelInner::Warn);

    pub(crate) const INFO: Rank = Rank(LevelInner::Info);

    pub(crate) const DEBUG: Rank = Rank(LevelInner::Debug);

    pub(crate) const TRACE: Rank = Rank(LevelInner::Trace);

    // The number that contracts see.
    pub(crate) fn number(self) -> u8
        ensures value { result ≡ self }
        ensures range { self ≤ 5 }
    {
        self.0 as u8
    }

    // The rank of the name, in any ASCII case.
    pub(crate) fn named(name: &str) -> Option<Rank>
        ensures { result ≡ filter_named name.now }
    {
        if name.eq_ignore_ascii_case("off") {
            Some(Rank::OFF)
        } else if name.eq_ignore_ascii_case("error") {
            Some(Rank::ERROR)
        } else if name.eq_ignore_ascii_case("warn") {
            Some(Rank::WARN)
        } else if name.eq_ignore_ascii_case("info") {
            Some(Rank::INFO)
        } else if name.eq_ignore_ascii_case("debug") {
            Some(Rank::DEBUG)
        } else if name.eq_ignore_ascii_case("trace") {
            Some(Rank::TRACE)
        } else {
            None
        }
    }

    // The rank of the number that the text writes.
    pub(crate) fn numbered(text: &str) -> Option<Rank>
        ensures { result ≡ filter_numbered text.now }
    {
        match number_in(text)? {
            0 => Some(Rank::OFF),
            1 => Some(Rank::ERROR),
            2 => Some(Rank::WARN),
            3 => Some(Rank::INFO),
            4 => Some(Rank::DEBUG),
            5 => Some(Rank::TRACE),
            _ => None,
        }
    }
}

impl fmt::Debug for Rank {
    ghost use Rattle.tracing_core_fields.specs.LevelInner.{inner_of};

    ghost debug_output = { λ rank. ⟦<LevelInner as fmt::Debug>⟧.debug_output (inner_of rank) };

    fn fmt<W: fmt::Write>(&self, f: &mut fmt::Formatter<W>) -> fmt::Result {
        self.0.fmt(f)
    }
}

impl PartialEq for Rank {
    ghost use Rattle.std.specs.Prelude.{◌==◌};
    ghost use Rattle.std.proofs.Common.{rules};
    ghost use Rattle.std.specs.Cmp.Rules.{comparing};

    ghost eq = { λ a b. a == b };

    ghost laws = { Prim.search (comparing, rules) };

    fn eq(&self, other: &Rank) -> bool {
        self.number() == other.number()
    }
}

impl Eq for Rank {
    ghost use Rattle.std.proofs.Common.{rules};
    ghost use Rattle.std.specs.Cmp.Rules.{comparing};

    ghost laws = { Prim.search (comparing, rules) };
}

impl Ord for Rank {
    ghost use Rattle.std.proofs.Common.{rules};
    ghost use Rattle.std.specs.Cmp.Rules.{comparing};

    ghost cmp = { nat_cmp };

    ghost total = { Prim.search (comparing, rules) };

    ghost matches_partial_cmp = { Prim.search (comparing, rules) };

    ghost matches_eq = { Prim.search (comparing, rules) };

    fn cmp(&self, other: &Rank) -> Ordering {
        self.number().cmp(&other.number())
    }
}

impl PartialOrd for Rank {
    ghost use Rattle.std.proofs.Common.{rules};
    ghost use Rattle.std.specs.Cmp.{partial_order_from_own_ties};
    ghost use Rattle.std.specs.Cmp.Rules.{comparing};

    ghost partial_cmp = { as_partial_cmp nat_cmp };

    ghost laws = { partial_order_from_own_ties (Prim.search (comparing, rules)) (Prim.search (comparing, rules)) };

    fn partial_cmp(&self, other: &Rank) -> Option<Ordering> {
        Some(self.cmp(other))
    }
}

impl Hash for Rank {
    ghost use Rattle.std.proofs.Common.{rules};
    ghost use Rattle.std.specs.Hash as fed;

    ghost hash_input = { fed.u8 };

    ghost respects_eq = { Prim.search rules };

    fn hash<H: Hasher>(&self, state: &mut H) {
        state.write_u8(self.number());
    }
}
