//! Fields as the pretty format keeps them with spans.
ghost use Rattle.std.specs.Prelude.{codes, string_bytes};
ghost use Rattle.event_formatter_text.specs.Lists.{Formats, pieces_text};
ghost use Rattle.event_formatter_text.specs.SpanFields.{no_fields};
ghost use Rattle.event_formatter_text.specs.Visitors.{pretty_piece, pretty_text};
ghost use Rattle.event_formatter_text.specs.Writers.{without_styles};
ghost use Rattle.event_formatter.specs.formats.FieldFormats.{behind_comma};

use crate::formats::line_format::Pretty;
use event_formatter_text::{
    FormatError, FormatFields, FormattedFields, PrettyFields, PrettyVisitor, RecordFields,
    Settings, Writer,
};
use std::alloc::{AllocError, Global};

// Appends the text of the values, a comma and a space before each but the first.
fn push_more_values<R: RecordFields>(
    out: &mut String,
    settings: Settings,
    is_first: bool,
    fields: &R,
) -> Result<(), FormatError>
    ensures { let values = R.values fields.now in Formats
        (pieces_text (codes ", ") (pretty_piece (without_styles settings)) is_first values.names values.entries)
        (string_bytes out.old) result (string_bytes out.new) }
{
    let mut visitor = PrettyVisitor::new(Writer::with_settings(out, settings), is_first);
    fields.record(&mut visitor)
}

/// Writes fields as [`PrettyFields`] does, but further lists stand behind a comma and a space, and not behind a space.
impl FormatFields for Pretty {
    ghost text_of = { λ _ settings values. pretty_text settings values };

    ghost started = { λ _ settings. no_fields settings };

    ghost added = { λ _ kept values. behind_comma kept values };

    fn format_fields<R: RecordFields>(
        &self,
        alloc: Global,
        writer: &mut Writer<'_>,
        fields: &R,
    ) -> Result<(), FormatError> {
        PrettyFields.format_fields(alloc, writer, fields)
    }

    fn start(&self, alloc: Global, settings: Settings) -> Result<FormattedFields, AllocError> {
        PrettyFields.start(alloc, settings)
    }

    fn add_fields<R: RecordFields>(
        &self,
        alloc: Global,
        current: &mut FormattedFields,
        fields: &R,
    ) -> Result<(), FormatError> {
        let mut more = String::new(alloc);
        let is_first = current.text().is_empty();
        push_more_values(&mut more, current.settings(), is_first, fields)?;
        current.push_more(more.as_str())?;
        Ok(())
    }
}
