//! How the files of a sink are named, when they change, and what is kept of them.

ghost use Rattle.std.specs.Prelude.{◌≡◌, ◌≢◌, [], IfOk, IfErr, string_bytes, true, false};
ghost use Rattle.std.specs.Option.{option_map};
ghost use Rattle.tracing_core_moments.specs.Moments.{is_moment, period_at};
ghost use Rattle.tracing_appender_rolling.specs.Names.{text_or_none, count_or_none, has_bad_byte, is_dots_or_none, is_lasting_dots};
ghost use Rattle.tracing_appender_rolling.specs.Names.{file_name};

use crate::rotation::Rotation;
use std::alloc::{AllocError, Global};
use tracing_core_moments::{Moment, PeriodKind, name_text, second_named};

/// The names of a sink's files, when they change, how many are kept, and the link to the latest one.
///
/// A text that is set is copied. Where there is no memory for it, the builder isn't whole, and nothing is built of it.
#[derive(Debug, Drop)]
pub struct Builder {
    pub(crate) alloc: Global,
    pub(crate) rotation: Rotation,
    pub(crate) prefix: Option<String>,
    pub(crate) suffix: Option<String>,
    pub(crate) limit: Option<usize>,
    pub(crate) latest: Option<String>,
    /// Whether each text that was set found memory.
    pub(crate) is_whole: bool,
}

impl Builder {
    ghost use Rattle.tracing_appender_rolling.specs.Builders.{builder_names, plain_names, kind_of, is_whole, SetsText};
    ghost use Rattle.tracing_appender_rolling.specs.Builders.{with_prefix, with_suffix, with_latest};
    ghost use Rattle.tracing_appender_rolling.specs.Names.{is_bad_name, HasBadLink, HasGoodLink};

    /// One file that never changes, with neither prefix nor suffix, no limit and no link.
    pub fn new(alloc: Global) -> Builder
        ensures names { builder_names result ≡ plain_names }
        ensures whole { is_whole result ≡ true }
    {
        Builder {
            alloc,
            rotation: Rotation::NEVER,
            prefix: None,
            suffix: None,
            limit: None,
            latest: None,
            is_whole: true,
        }
    }

    /// With files that change so often.
    pub fn rotation(self, rotation: Rotation) -> Builder
        ensures names { builder_names result ≡ record (builder_names self) { kind = kind_of rotation } }
        ensures whole { is_whole result ≡ is_whole self }
    {
        Builder { rotation, ..self }
    }

    /// With this text and a point before the date; an empty text means none.
    pub fn filename_prefix(self, prefix: &str) -> Builder
        // Where no text is missing, the names are those with this one.
        ensures names { is_whole result ≡ true → builder_names result ≡ with_prefix (builder_names self) prefix.now }
        // The text is set, or, where it isn't empty, it found no memory; then it is missing, and the names stay.
        ensures set { SetsText with_prefix prefix.now self result }
    {
        match copied_text(self.alloc, prefix) {
            Ok(prefix) => Builder { prefix, ..self },
            Err(AllocError) => self.without_memory(),
        }
    }

    /// With a point and this text after the date; an empty text means none.
    pub fn filename_suffix(self, suffix: &str) -> Builder
        // Where no text is missing, the names are those with this one.
        ensures names { is_whole result ≡ true → builder_names result ≡ with_suffix (builder_names self) suffix.now }
        // The text is set, or, where it isn't empty, it found no memory; then it is missing, and the names stay.
        ensures set { SetsText with_suffix suffix.now self result }
    {
        match copied_text(self.alloc, suffix) {
            Ok(suffix) => Builder { suffix, ..self },
            Err(AllocError) => self.without_memory(),
        }
    }

    /// With at most so many files at the opening of one, the new one among them; 0 means no limit.
    pub fn max_log_files(self, n: usize) -> Builder
        ensures names { builder_names result ≡ record (builder_names self) { limit = count_or_none n } }
        ensures whole { is_whole result ≡ is_whole self }
    {
        Builder {
            limit: if n == 0 { None } else { Some(n) },
            ..self
        }
    }

    /// With a link of this name to the latest file; an empty text means none.
    pub fn latest_symlink(self, name: &str) -> Builder
        // Where no text is missing, the names are those with this one.
        ensures names { is_whole result ≡ true → builder_names result ≡ with_latest (builder_names self) name.now }
        // The text is set, or, where it isn't empty, it found no memory; then it is missing, and the names stay.
        ensures set { SetsText with_latest name.now self result }
    {
        match copied_text(self.alloc, name) {
            Ok(latest) => Builder { latest, ..self },
            Err(AllocError) => self.without_memory(),
        }
    }

    /// Some text found no memory.
    fn without_memory(self) -> Builder
        ensures names { builder_names result ≡ builder_names self }
        ensures missed { is_whole result ≡ false }
    {
        Builder {
            is_whole: false,
            ..self
        }
    }

    /// Whether each text that was set found memory.
    pub fn is_whole(&self) -> bool
        ensures { result ≡ is_whole self.now }
    {
        self.is_whole
    }

    /// Whether prefix, suffix or link have a slash or a NUL, or the link or a log file would be named `.` or `..`.
    pub fn has_bad_name(&self) -> bool
        ensures { result ≡ is_bad_name (builder_names self.now) }
    {
        has_bad_byte(&self.prefix)
            || has_bad_byte(&self.suffix)
            || has_bad_byte(&self.latest)
            || is_dots(&self.latest)
            || self.is_lasting_dots()
    }

    /// Whether the link has the name of a log file of some moment.
    pub fn has_bad_link(&self) -> bool
        ensures bad { result ≡ true → HasBadLink (builder_names self.now) }
        ensures good { result ≡ false → HasGoodLink (builder_names self.now) }
    {
        match &self.latest {
            None => false,
            Some(link) => {
                let kind = self.rotation.0;
                second_named(kind, &self.prefix, &self.suffix, link.as_bytes()).is_some()
            }
        }
    }

    /// Whether the one file for all of time would be named `.` or `..`.
    fn is_lasting_dots(&self) -> bool
        ensures { result ≡ is_lasting_dots (kind_of self.now.rotation) (option_map string_bytes self.now.prefix)
            (option_map string_bytes self.now.suffix) }
    {
        match (self.rotation.0, &self.prefix, &self.suffix) {
            (PeriodKind::Whole, Some(_), None) => is_dots(&self.prefix),
            (PeriodKind::Whole, None, Some(_)) => is_dots(&self.suffix),
            _ => false,
        }
    }

    /// The name of the file of a moment's period, where it is the first that is opened.
    pub(crate) fn join_date(&self, alloc: Global, moment: Moment) -> Result<String, AllocError>
        requires { is_moment moment ≡ true }
        ensures { IfOk result (λ name. string_bytes name
            ≡ file_name (builder_names self.now) moment.seconds (period_at (kind_of self.now.rotation) moment)) }
    {
        let name = name_text(
            alloc,
            self.rotation.0,
            &self.prefix,
            &self.suffix,
            moment.seconds,
        )?;
        Ok(name)
    }
}

/// A copy of a text, or none where it is empty.
fn copied_text(alloc: Global, text: &str) -> Result<Option<String>, AllocError>
    ensures copied { IfOk result (λ copy. option_map string_bytes copy ≡ text_or_none text.now) }
    // An empty text wants no memory.
    ensures missed { IfErr result (λ e. text.now ≢ []) }
{
    if text.is_empty() {
        return Ok(None);
    }
    Ok(Some(String::from_str(alloc, text)?))
}

/// Whether a part of a name has a slash or a NUL.
fn has_bad_byte(part: &Option<String>) -> bool
    ensures { result ≡ has_bad_byte (option_map string_bytes part.now) }
{
    match part {
        None => false,
        Some(text) => text
            .as_bytes()
            .iter()
            .any(|byte| *byte == b'/' || *byte == 0),
    }
}

/// Whether a name is `.` or `..`.
fn is_dots(name: &Option<String>) -> bool
    ensures { result ≡ is_dots_or_none (option_map string_bytes name.now) }
{
    match name {
        None => false,
        Some(text) => text.as_str() == "." || text.as_str() == "..",
    }
}
