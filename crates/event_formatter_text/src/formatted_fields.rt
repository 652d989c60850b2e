//! The texts of spans' fields, as they are kept.
ghost use Rattle.std.specs.Prelude.{◌≡◌, ◌++◌, IfOk, Some, false, if◌then◌else◌, map, string_bytes, true};
ghost use Rattle.std.specs.Borrow.{sem};
ghost use Rattle.std.specs.Result.{is_ok};
ghost use Rattle.event_formatter_text.specs.SpanFields.{no_fields, plain_fields, space_behind};
ghost use Rattle.event_formatter_text.specs.Loans.{LendsKept};
ghost use Rattle.event_formatter_text.specs.Writers.{settings_of, written};

use crate::settings::Settings;
use crate::writer::Writer;
use std::alloc::{AllocError, Global};
use std::fmt;

/// What a formatter keeps of the fields of a span: their text, the words that it needs to add to it, and how it was
/// written when the span was made.
#[derive(Drop)]
pub struct FormattedFields {
    pub(crate) text: String,
    pub(crate) words: Vec<String>,
    pub(crate) settings: Settings,
}

impl FormattedFields {
    /// No text and no words.
    pub fn new(alloc: Global, settings: Settings) -> FormattedFields
        ensures { plain_fields result ≡ no_fields settings }
    {
        FormattedFields {
            text: String::new(alloc),
            words: Vec::new(alloc),
            settings,
        }
    }

    /// No text and no words, to be written as a new [`Writer`] writes.
    pub fn default(alloc: Global) -> FormattedFields
        ensures { plain_fields result ≡ no_fields (record { styles = false; sanitizes = true }) }
    {
        let settings = Settings {
            styles: false,
            sanitizes: true,
        };
        FormattedFields::new(alloc, settings)
    }

    /// What was kept before, put together again.
    pub fn from_parts(text: String, words: Vec<String>, settings: Settings) -> FormattedFields
        ensures { plain_fields result ≡ record (no_fields settings) { text = string_bytes text; words = map string_bytes words.items } }
    {
        FormattedFields {
            text,
            words,
            settings,
        }
    }

    /// The text and the words.
    pub fn into_parts(self) -> (String, Vec<String>)
        ensures text { string_bytes result.0 ≡ (plain_fields self).text }
        ensures words { map string_bytes result.1.items ≡ (plain_fields self).words }
    {
        (self.text, self.words)
    }

    /// The text of the fields.
    pub fn text(&self) -> &str
        ensures { result.now ≡ (plain_fields self.now).text }
    {
        self.text.as_str()
    }

    /// A text to which one more list of values is to be appended: the space that stands before it where there is a text.
    ///
    /// # Errors
    ///
    /// Out of memory.
    pub fn begin_more(&self, alloc: Global) -> Result<String, AllocError>
        ensures { IfOk result (λ more. string_bytes more ≡ space_behind (plain_fields self.now).text) }
    {
        if self.text.is_empty() {
            return Ok(String::new(alloc));
        }
        String::from_str(alloc, " ")
    }

    /// Appends to the text. Where there is no memory it stays as it was.
    ///
    /// # Errors
    ///
    /// Out of memory.
    pub fn push_more(&mut self, more: &str) -> Result<(), AllocError>
        ensures { plain_fields self.new ≡ (if is_ok result then (record (plain_fields self.old)
            { text = (plain_fields self.old).text ++ more.now }) else plain_fields self.old) }
    {
        self.text.push_str(more)
    }

    // The same of an owned text. Where there was none, it is kept as it is, without a copy.
    pub(crate) fn add_more(&mut self, more: String) -> Result<(), AllocError>
        ensures { plain_fields self.new ≡ (if is_ok result then (record (plain_fields self.old)
            { text = (plain_fields self.old).text ++ string_bytes more }) else plain_fields self.old) }
    {
        if self.text.is_empty() {
            self.text = more;
            return Ok(());
        }
        self.push_more(more.as_str())
    }

    /// A writer that appends to the text, with its settings.
    pub fn as_writer(&mut self) -> Writer<'_>
        ensures text { written result ≡ (plain_fields self.old).text }
        ensures settings { settings_of result ≡ (plain_fields self.old).settings }
        ensures* ends { sem 𝓛 (LendsKept self.entry result) }
    {
        let settings = self.settings;
        Writer {
            out: &mut self.text,
            settings,
        }
    }

    /// How the text is written.
    pub fn settings(&self) -> Settings
        ensures { result ≡ (plain_fields self.now).settings }
    {
        self.settings
    }
}

impl fmt::Display for FormattedFields {
    ghost output = { λ fields. Some (string_bytes fields.text) };

    fn fmt<W: fmt::Write>(&self, f: &mut fmt::Formatter<W>) -> fmt::Result {
        f.write_str(self.text.as_str())
    }
}
