//! Filters on levels.
ghost use Rattle.std.specs.Prelude.{◌≡◌, ◌≤◌, Some, nat_le, unwrap_or};
ghost use Rattle.std.specs.Fmt.{padded};
ghost use Rattle.tracing_core_fields.specs.Level.{IsRank, IsParsed};
ghost use Rattle.tracing_core_fields.specs.LevelFilter.{filter_name, filter_debug_name, filter_of_text, highest_level, ReadsItsName};

use crate::level::Level;
use crate::rank::Rank;
use std::fmt;
use std::marker::Model;
use std::str::FromStr;
use thiserror::Error;

/// The most verbose level to let through, or `OFF` for none. A more verbose filter compares greater:
/// `OFF < ERROR < WARN < INFO < DEBUG < TRACE`.
///
/// A contract sees a filter as its rank, from 0 for `OFF` to 5 for `TRACE`.
#[derive(Clone, Copy, PartialEq, Eq, PartialOrd, Ord, Hash)]
pub struct LevelFilter(Rank);

impl Model for LevelFilter {
    ghost use Rattle.std.specs.Prelude.{ℕ};

    ghost Value = { ℕ };

    ghost view = { λ filter. filter.0 };

    ghost inverse = { λ rank. record { 0 = rank } };
}

impl LevelFilter {
    /// Lets nothing through.
    pub const OFF: LevelFilter = LevelFilter(Rank::OFF);
    /// Lets `ERROR` alone through.
    pub const ERROR: LevelFilter = LevelFilter(Rank::ERROR);
    /// Lets `WARN` and the less verbose levels through.
    pub const WARN: LevelFilter = LevelFilter(Rank::WARN);
    /// Lets `INFO` and the less verbose levels through.
    pub const INFO: LevelFilter = LevelFilter(Rank::INFO);
    /// Lets `DEBUG` and the less verbose levels through.
    pub const DEBUG: LevelFilter = LevelFilter(Rank::DEBUG);
    /// Lets every level through.
    pub const TRACE: LevelFilter = LevelFilter(Rank::TRACE);

    /// The filter that lets the level and the less verbose ones through.
    pub fn from_level(level: Level) -> LevelFilter
        ensures value { result ≡ level }
        ensures range { IsRank level }
    {
        LevelFilter(level.rank())
    }

    /// The most verbose level that passes, or `None` at `OFF`.
    pub fn into_level(self) -> Option<Level>
        ensures value { result ≡ highest_level self }
        ensures range { self ≤ 5 }
    {
        Level::of(self.0)
    }

    /// Whether the level passes, which the Rust crate writes `level <= filter`.
    pub fn passes(self, level: Level) -> bool
        ensures { result ≡ nat_le level self }
    {
        level.rank().number() <= self.0.number()
    }

    fn name(self) -> &'static str
        ensures { result.now ≡ filter_name self }
    {
        match self.0.number() {
            0 => "off",
            1 => "error",
            2 => "warn",
            3 => "info",
            4 => "debug",
            _ => "trace",
        }
    }
}

/// Each filter reads what it prints.
pub fn filters_read_their_names()
    ensures { ReadsItsName }
{}

impl From<Level> for LevelFilter {
    ghost from_gives = { λ level filter. filter ≡ level };

    fn from(level: Level) -> LevelFilter {
        LevelFilter::from_level(level)
    }
}

/// No level is `OFF`.
impl From<Option<Level>> for LevelFilter {
    ghost from_gives = { λ level filter. filter ≡ unwrap_or level 0 };

    fn from(level: Option<Level>) -> LevelFilter {
        match level {
            Some(level) => LevelFilter::from_level(level),
            None => LevelFilter::OFF,
        }
    }
}

impl From<LevelFilter> for Option<Level> {
    ghost from_gives = { λ filter level. level ≡ highest_level filter };

    fn from(filter: LevelFilter) -> Option<Level> {
        filter.into_level()
    }
}

/// Reads a filter's name in any ASCII case, a number from 0 to 5 that Rust reads as a `usize`, or the
/// empty text as `ERROR`.
impl FromStr for LevelFilter {
    type Err = ParseLevelFilterError;

    ghost from_str_gives = { λ text r. IsParsed (filter_of_text text) r };

    fn from_str(text: &str) -> Result<LevelFilter, ParseLevelFilterError> {
        if text.is_empty() {
            return Ok(LevelFilter::ERROR);
        }
        Rank::numbered(text)
            .or_else(|| Rank::named(text))
            .map(|rank| LevelFilter(rank))
            .ok_or(ParseLevelFilterError(()))
    }
}

impl fmt::Display for LevelFilter {
    ghost output = { λ filter. Some (filter_name filter) };

    ghost styled_output = { λ filter spec. Some (padded spec (filter_name filter)) };

    fn fmt<W: fmt::Write>(&self, f: &mut fmt::Formatter<W>) -> fmt::Result {
        f.pad(self.name())
    }
}

impl fmt::Debug for LevelFilter {
    ghost debug_output = { λ filter. Some (filter_debug_name filter) };

    fn fmt<W: fmt::Write>(&self, f: &mut fmt::Formatter<W>) -> fmt::Result {
        f.pad(match self.0.number() {
            0 => "LevelFilter::OFF",
            1 => "LevelFilter::ERROR",
            2 => "LevelFilter::WARN",
            3 => "LevelFilter::INFO",
            4 => "LevelFilter::DEBUG",
            _ => "LevelFilter::TRACE",
        })
    }
}

/// The text names no filter.
#[derive(Clone, Debug, Drop, Error)]
#[error("error parsing level filter: expected one of \"off\", \"error\", \"warn\", \"info\", \"debug\", \"trace\", or a number 0-5")]
pub struct ParseLevelFilterError(());
