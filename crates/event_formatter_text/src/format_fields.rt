//! Field formatters.
ghost use Rattle.std.specs.Prelude.{◌≡◌, ℕ, List, IfOk, Option};
ghost use Rattle.tracing_core_fields.specs.requests.PlainRequests.{PlainValues};
ghost use Rattle.event_formatter_text.specs.SpanFields.{Adds, PlainFields, plain_fields};
ghost use Rattle.event_formatter_text.specs.Lists.{Formats};
ghost use Rattle.event_formatter_text.specs.Writers.{IsSameWriter, settings_of, written};
ghost use Rattle.event_formatter_text.specs.declared.settings.Settings.{Settings};

use crate::error::FormatError;
use crate::formatted_fields::FormattedFields;
use crate::record_fields::RecordFields;
use crate::settings::Settings;
use crate::writer::Writer;
use std::alloc::{AllocError, Global};

/// Writes the texts of lists of values, and keeps the texts of spans.
///
/// What is kept of a span is what `start` gives, and then what `add_fields` makes of it for the span's first list of
/// values and for each record. A formatter that needs no more than the text gives [`FormattedFields::new`] for the first,
/// and for the second appends to [`FormattedFields::begin_more`] and hands that to [`FormattedFields::push_more`].
pub trait FormatFields {
    // The text of a list of values, where they can be formatted.
    ghost text_of: { Self → Settings → PlainValues → Option (List ℕ) };

    // What is kept of a span before its first list.
    ghost started: { Self → Settings → PlainFields };

    // What one more list makes of it, where that can be formatted.
    ghost added: { Self → PlainFields → PlainValues → Option PlainFields };

    /// Appends the text of the values.
    ///
    /// # Errors
    ///
    /// A value that can't be formatted, or out of memory. What was appended before is to be dropped.
    fn format_fields<R: RecordFields>(
        &self,
        alloc: Global,
        writer: &mut Writer<'_>,
        fields: &R,
    ) -> Result<(), FormatError>
        // The writer is left over the same text and with the same settings.
        ensures same { IsSameWriter writer.old writer.new }
        // The values' text is appended, or, where they can't be formatted, `Failed` is answered, unless memory runs out.
        ensures text { Formats (text_of self.now (settings_of writer.old) (R.values fields.now))
            (written writer.old) result (written writer.new) };

    /// What is kept of a span before its first list of values.
    ///
    /// # Errors
    ///
    /// Out of memory.
    fn start(&self, alloc: Global, settings: Settings) -> Result<FormattedFields, AllocError>
        ensures { IfOk result (λ fields. plain_fields fields ≡ started self.now settings) };

    /// Adds one more list of values to what is kept of a span.
    ///
    /// # Errors
    ///
    /// A value that can't be formatted, or out of memory. What was kept stays as it was.
    fn add_fields<R: RecordFields>(
        &self,
        alloc: Global,
        current: &mut FormattedFields,
        fields: &R,
    ) -> Result<(), FormatError>
        ensures { Adds (added self.now (plain_fields current.old) (R.values fields.now)) (plain_fields current.old)
            result (plain_fields current.new) };
}
