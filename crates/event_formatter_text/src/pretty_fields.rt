//! The formatter of fields as `name: value`.
ghost use Rattle.event_formatter_text.specs.SpanFields.{behind_space, no_fields};
ghost use Rattle.event_formatter_text.specs.Visitors.{pretty_text};

use crate::error::FormatError;
use crate::format_fields::FormatFields;
use crate::formatted_fields::FormattedFields;
use crate::record_fields::RecordFields;
use crate::settings::Settings;
use crate::visitors::pretty::PrettyVisitor;
use crate::writer::Writer;
use std::alloc::{AllocError, Global};

/// Writes fields as `name: value`, a comma and a space between two.
#[derive(Clone, Copy, Debug, Default, PartialEq, Eq)]
pub struct PrettyFields;

impl PrettyFields {
    /// The formatter.
    pub fn new() -> PrettyFields {
        PrettyFields
    }
}

impl FormatFields for PrettyFields {
    ghost text_of = { λ _ settings values. pretty_text settings values };

    ghost started = { λ _ settings. no_fields settings };

    ghost added = { λ _ fields values. behind_space (pretty_text fields.settings values) fields };

    fn format_fields<R: RecordFields>(
        &self,
        _alloc: Global,
        writer: &mut Writer<'_>,
        fields: &R,
    ) -> Result<(), FormatError> {
        let lent = Writer {
            out: &mut *writer.out,
            settings: writer.settings,
        };
        let mut visitor = PrettyVisitor::new(lent, true);
        fields.record(&mut visitor)
    }

    fn start(&self, alloc: Global, settings: Settings) -> Result<FormattedFields, AllocError> {
        Ok(FormattedFields::new(alloc, settings))
    }

    fn add_fields<R: RecordFields>(
        &self,
        alloc: Global,
        current: &mut FormattedFields,
        fields: &R,
    ) -> Result<(), FormatError> {
        let mut more = current.begin_more(alloc)?;
        let mut writer = Writer::with_settings(&mut more, current.settings());
        self.format_fields(alloc, &mut writer, fields)?;
        current.add_more(more)?;
        Ok(())
    }
}
