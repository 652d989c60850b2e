//! Levels of verbosity.
ghost use Rattle.std.specs.Prelude.{◌≡◌, ◌≤◌, Some};
ghost use Rattle.std.specs.Fmt.{padded};
ghost use Rattle.tracing_core_fields.specs.Level.{IsRank, level_name, level_named, level_numbered, level_of_text, IsParsed, ReadsItsName};
ghost use Rattle.tracing_core_fields.specs.LevelFilter.{highest_level};

use crate::rank::Rank;
use std::fmt;
use std::marker::Model;
use std::str::FromStr;
use thiserror::Error;

/// How verbose a span or an event is. A more verbose level compares greater:
/// `ERROR < WARN < INFO < DEBUG < TRACE`.
///
/// A contract sees a level as its rank, from 1 for `ERROR` to 5 for `TRACE`.
#[derive(Clone, Copy, Debug, PartialEq, Eq, PartialOrd, Ord, Hash)]
pub struct Level(Rank);

impl Model for Level {
    ghost use Rattle.std.specs.Prelude.{ℕ, ◌≤◌};

    ghost Value = { ℕ };

    ghost view = { λ level. level.0 };

    ghost invariant = { λ level. 1 ≤ level.0 };

    ghost inverse = { λ rank. record { 0 = rank } };
}

impl Level {
    /// Very serious errors.
    pub const ERROR: Level = Level(Rank::ERROR);
    /// Hazardous situations.
    pub const WARN: Level = Level(Rank::WARN);
    /// Useful information.
    pub const INFO: Level = Level(Rank::INFO);
    /// Lower priority information.
    pub const DEBUG: Level = Level(Rank::DEBUG);
    /// Very low priority, often extremely verbose, information.
    pub const TRACE: Level = Level(Rank::TRACE);

    // The number that contracts see.
    pub(crate) fn rank(self) -> Rank
        ensures value { result ≡ self }
        ensures range { 1 ≤ self }
    {
        self.0
    }

    // The level of the rank, where it is not that of `OFF`.
    pub(crate) fn of(rank: Rank) -> Option<Level>
        ensures { result ≡ highest_level rank }
    {
        match rank.number() {
            0 => None,
            _ => Some(Level(rank)),
        }
    }

    /// The name of the level, in capitals.
    pub fn as_str(&self) -> &'static str
        ensures name { result.now ≡ level_name self.now }
        ensures range { IsRank self.now }
    {
        match self.0.number() {
            1 => "ERROR",
            2 => "WARN",
            3 => "INFO",
            4 => "DEBUG",
            _ => "TRACE",
        }
    }

    // The level of the name, in any ASCII case.
    fn named(name: &str) -> Option<Level>
        ensures { result ≡ level_named name.now }
    {
        Level::of(Rank::named(name)?)
    }

    // The level of the number that the text writes.
    fn numbered(text: &str) -> Option<Level>
        ensures { result ≡ level_numbered text.now }
    {
        Level::of(Rank::numbered(text)?)
    }
}

/// Each level reads what it prints.
pub fn levels_read_their_names()
    ensures { ReadsItsName }
{}

/// Reads a level's name in any ASCII case, or a number from 1 to 5 that Rust reads as a `usize`.
impl FromStr for Level {
    type Err = ParseLevelError;

    ghost from_str_gives = { λ text r. IsParsed (level_of_text text) r };

    fn from_str(text: &str) -> Result<Level, ParseLevelError> {
        Level::numbered(text)
            .or_else(|| Level::named(text))
            .ok_or(ParseLevelError(()))
    }
}

impl fmt::Display for Level {
    ghost output = { λ level. Some (level_name level) };

    ghost styled_output = { λ level spec. Some (padded spec (level_name level)) };

    fn fmt<W: fmt::Write>(&self, f: &mut fmt::Formatter<W>) -> fmt::Result {
        f.pad(self.as_str())
    }
}

/// The text names no level.
#[derive(Clone, Debug, Drop, Error)]
#[error("error parsing level: expected one of \"error\", \"warn\", \"info\", \"debug\", \"trace\", or a number 1-5")]
pub struct ParseLevelError(());
