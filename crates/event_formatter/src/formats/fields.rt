//! The field formatters as one type.
ghost use Rattle.event_formatter_text.specs.Lists.{Formats};
ghost use Rattle.event_formatter_text.specs.SpanFields.{no_fields};
ghost use Rattle.event_formatter_text.specs.Writers.{IsSameWriter, settings_of, written};
ghost use Rattle.event_formatter.specs.formats.FieldFormats.{added, started_text, text_of};

use crate::formats::line_format::Pretty;
use event_formatter_text::{
    DefaultFields, FormatError, FormatFields, FormattedFields, JsonFields, PrettyFields,
    RecordFields, Settings, Writer,
};
use std::alloc::{AllocError, Global};

/// One of the field formatters, for outputs that share one type.
#[derive(Clone, Copy, Debug, Drop, PartialEq, Eq)]
pub enum Fields {
    /// `name=value`, a space between two.
    Default,
    /// `name: value`, a comma and a space between two, also between two lists. See [`Pretty`].
    Pretty,
    /// `name: value`, a comma and a space between two, and a space between two lists.
    PrettyFields,
    /// One JSON object.
    Json,
}

impl Fields {
    // Appends the text of the fields by whatever formatter it is. It stands out of line, as most are the default one.
    #[inline(never)]
    fn format_by_kind<R: RecordFields>(
        &self,
        alloc: Global,
        writer: &mut Writer<'_>,
        fields: &R,
    ) -> Result<(), FormatError>
        ensures same { IsSameWriter writer.old writer.new }
        ensures text { Formats (text_of self.now (settings_of writer.old) (R.values fields.now))
            (written writer.old) result (written writer.new) }
    {
        match self {
            Fields::Default => DefaultFields.format_fields(alloc, writer, fields),
            Fields::Pretty => Pretty::new().format_fields(alloc, writer, fields),
            Fields::PrettyFields => PrettyFields.format_fields(alloc, writer, fields),
            Fields::Json => JsonFields.format_fields(alloc, writer, fields),
        }
    }
}

impl FormatFields for Fields {
    ghost text_of = { text_of };

    ghost started = { λ fields settings. record (no_fields settings) { text = started_text fields } };

    ghost added = { added };

    #[inline(always)]
    fn format_fields<R: RecordFields>(
        &self,
        alloc: Global,
        writer: &mut Writer<'_>,
        fields: &R,
    ) -> Result<(), FormatError> {
        if matches!(self, Fields::Default) {
            return DefaultFields.format_fields(alloc, writer, fields);
        }
        self.format_by_kind(alloc, writer, fields)
    }

    fn start(&self, alloc: Global, settings: Settings) -> Result<FormattedFields, AllocError> {
        match self {
            Fields::Default => DefaultFields.start(alloc, settings),
            Fields::Pretty => Pretty::new().start(alloc, settings),
            Fields::PrettyFields => PrettyFields.start(alloc, settings),
            Fields::Json => JsonFields.start(alloc, settings),
        }
    }

    fn add_fields<R: RecordFields>(
        &self,
        alloc: Global,
        current: &mut FormattedFields,
        fields: &R,
    ) -> Result<(), FormatError> {
        match self {
            Fields::Default => DefaultFields.add_fields(alloc, current, fields),
            Fields::Pretty => Pretty::new().add_fields(alloc, current, fields),
            Fields::PrettyFields => PrettyFields.add_fields(alloc, current, fields),
            Fields::Json => JsonFields.add_fields(alloc, current, fields),
        }
    }
}
