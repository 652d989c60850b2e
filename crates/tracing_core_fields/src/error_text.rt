//! The texts of errors.
ghost use Rattle.std.specs.Prelude.{◌≡◌, map, string_bytes};
ghost use Rattle.tracing_core_fields.specs.ErrorText.{error_text, source_texts};
ghost use Rattle.tracing_core_fields.specs.Texts.{texts_in};

use crate::texts::Texts;

/// What an error prints, and what its sources print.
#[derive(Clone, Copy, Debug, PartialEq, Eq)]
pub struct ErrorText<'a> {
    text: &'a str,
    sources: Texts<'a>,
}

impl<'a> ErrorText<'a> {
    /// The error that prints the text. The sources' texts begin with that of the error's own source, and
    /// each next one is of the source of the one before it.
    pub const fn new(text: &'a str, sources: &'a [&'a str]) -> ErrorText<'a>
        ensures text { error_text result ≡ text.now }
        ensures sources { source_texts result ≡ map (λ source. source.now) sources.now }
    {
        let sources = Texts::Lent(sources);
        ErrorText { text, sources }
    }

    /// The error that prints the text, with sources whose texts are owned.
    pub const fn of_strings(text: &'a str, sources: &'a [String]) -> ErrorText<'a>
        ensures text { error_text result ≡ text.now }
        ensures sources { source_texts result ≡ map string_bytes sources.now }
    {
        let sources = Texts::Owned(sources);
        ErrorText { text, sources }
    }

    /// What the error prints.
    pub fn text(&self) -> &'a str
        ensures { result.now ≡ error_text self.now }
    {
        self.text
    }

    /// What the error's source prints, the source of that, and so on.
    pub fn sources(&self) -> Texts<'a>
        ensures { texts_in result ≡ source_texts self.now }
    {
        self.sources
    }
}
