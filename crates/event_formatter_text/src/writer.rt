//! What texts are written to.
ghost use Rattle.std.specs.Prelude.{◌≡◌, ◌++◌, codes, encode_utf8, false, OnOk, if◌then◌else◌, string_bytes, true};
ghost use Rattle.std.specs.Borrow.{sem};
ghost use Rattle.std.specs.Fmt.{AppendsText};
ghost use Rattle.std.specs.Option.{option_map};
ghost use Rattle.std.specs.Result.{is_ok};
ghost use Rattle.tracing_core_fields.specs.DebugText.{plain_debug};
ghost use Rattle.event_formatter_text.specs.FieldTexts.{field_piece, separator};
ghost use Rattle.event_formatter_text.specs.JsonTexts.{json_piece};
ghost use Rattle.event_formatter_text.specs.Lists.{FormatsOne, further};
ghost use Rattle.event_formatter_text.specs.Loans.{LendsText};
ghost use Rattle.event_formatter_text.specs.Writers.{IsSameWriter, settings_of, written};

use crate::displayed::push_displayed;
use crate::error::FormatError;
use crate::field_text::{Punctuation, push_field};
use crate::json_text::push_member;
use crate::settings::Settings;
use std::alloc::AllocError;
use std::fmt::Display;
use tracing_core_fields::DebugText;

/// Appends to a text that is lent to it.
#[derive(Drop)]
pub struct Writer<'w> {
    pub(crate) out: &'w mut String,
    pub(crate) settings: Settings,
}

impl<'w> Writer<'w> {
    /// Writes behind the text, without styles, and with characters that steer a terminal written out.
    pub fn new(out: &'w mut String) -> Writer<'w>
        ensures same { result.out.ghost_name ≡ out.entry.ghost_name }
        ensures text { written result ≡ string_bytes out.old }
        ensures settings { settings_of result ≡ record { styles = false; sanitizes = true } }
    {
        Writer {
            out,
            settings: Settings {
                styles: false,
                sanitizes: true,
            },
        }
    }

    /// Writes behind the text with these settings.
    pub fn with_settings(out: &'w mut String, settings: Settings) -> Writer<'w>
        ensures same { result.out.ghost_name ≡ out.entry.ghost_name }
        ensures text { written result ≡ string_bytes out.old }
        ensures settings { settings_of result ≡ settings }
    {
        Writer { out, settings }
    }

    /// A writer behind the same text, with the same settings. It's of use where a writer is taken by value.
    pub fn by_ref(&mut self) -> Writer<'_>
        ensures text { written result ≡ written self.old }
        ensures settings { settings_of result ≡ settings_of self.old }
        ensures* ends { sem 𝓛 (LendsText self.entry result) }
    {
        let settings = self.settings;
        Writer {
            out: &mut *self.out,
            settings,
        }
    }

    /// How it writes.
    pub fn settings(&self) -> Settings
        ensures { result ≡ settings_of self.now }
    {
        self.settings
    }

    /// Whether pieces stand between the ANSI codes of their styles.
    pub fn has_ansi_escapes(&self) -> bool
        ensures { result ≡ (settings_of self.now).styles }
    {
        self.settings.styles
    }

    /// Whether characters that steer a terminal are written out in messages and in the texts of errors.
    pub fn sanitizes_ansi_escapes(&self) -> bool
        ensures { result ≡ (settings_of self.now).sanitizes }
    {
        self.settings.sanitizes
    }

    /// Appends the text as it is.
    ///
    /// # Errors
    ///
    /// Out of memory; nothing was appended then.
    pub fn write_str(&mut self, text: &str) -> Result<(), AllocError>
        ensures same { IsSameWriter self.old self.new }
        ensures text { written self.new ≡ (if is_ok result then written self.old ++ text.now else written self.old) }
    {
        self.out.push_str(text)
    }

    /// Appends the character as it is.
    ///
    /// # Errors
    ///
    /// Out of memory; nothing was appended then.
    pub fn write_char(&mut self, c: char) -> Result<(), AllocError>
        ensures same { IsSameWriter self.old self.new }
        ensures text { written self.new ≡ (if is_ok result then written self.old ++ encode_utf8 c else written self.old) }
    {
        self.out.push(c)
    }

    /// Appends what `write!` is given, as it is.
    ///
    /// # Errors
    ///
    /// `Failed` where the value could not be formatted, and out of memory, as far as the text found none. What was appended before is to
    /// be dropped.
    pub fn write_fmt<D: Display + Drop>(&mut self, value: D) -> Result<(), FormatError>
        ensures same { IsSameWriter self.old self.new }
        ensures text { OnOk result (AppendsText (written self.old) (written self.new) (D.output value)) }
    {
        push_displayed(self.out, value)
    }

    // Appends a field, behind the separator unless it is the first.
    #[inline(always)]
    pub(crate) fn write_field(
        &mut self,
        punctuation: Punctuation,
        is_first: bool,
        name: &str,
        value: &DebugText<'_>,
    ) -> Result<(), FormatError>
        ensures same { IsSameWriter self.old self.new }
        ensures text { FormatsOne (option_map (further (separator punctuation) is_first)
            (field_piece (settings_of self.old) punctuation name.now (plain_debug value.now)))
            (written self.old) result (written self.new) }
    {
        push_field(self.out, self.settings, punctuation, is_first, name, value)
    }

    // Appends a field as a member of a JSON object, behind a comma unless it is the first.
    #[inline(always)]
    pub(crate) fn write_member(
        &mut self,
        is_first: bool,
        name: &str,
        value: &DebugText<'_>,
    ) -> Result<(), FormatError>
        ensures same { IsSameWriter self.old self.new }
        ensures text { FormatsOne (option_map (further (codes ",") is_first) (json_piece name.now (plain_debug value.now)))
            (written self.old) result (written self.new) }
    {
        push_member(self.out, is_first, name, value)
    }
}
