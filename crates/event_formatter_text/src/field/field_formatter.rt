//! Functions that write a field, as field formatters.
ghost use Rattle.std.specs.Prelude.{◌≡◌, [], false, Some};
ghost use Rattle.event_formatter_text.specs.SpanFields.{Adds, behind_space, no_fields, plain_fields};
ghost use Rattle.event_formatter_text.specs.Lists.{Formats};
ghost use Rattle.event_formatter_text.specs.field.Pieces.{before_field, fields_text};

use crate::field::delimited::Delimited;
use crate::field::field_fn::FieldFn;
use crate::field::target::FieldTarget;
use crate::field::write_field::WritePiece;
use crate::{FormatError, FormatFields, FormattedFields, RecordFields, Settings, Writer};
use std::alloc::{AllocError, Global};
use std::convert::AsStr;
use tracing_core_fields::{DebugText, Field, Visit};

// Writes each field by a function to a target, and the delimiter between each two.
#[derive(Drop)]
struct PieceVisitor<'d, 'f, 't, F, W> {
    delimiter: &'d str,
    function: &'f F,
    is_empty: bool,
    target: &'t mut W,
}

impl<F: WritePiece, W: FieldTarget> PieceVisitor<'_, '_, '_, F, W> {
    ghost use Rattle.event_formatter_text.specs.field.ShownPieces.{standing};

    // Writes the delimiter, unless there was no field before.
    fn delimit(&mut self) -> Result<(), FormatError>
        ensures stands { standing W.frame self.new ≡ standing W.frame self.old }
        ensures later { self.new.is_empty ≡ false }
        ensures text { Formats (Some (before_field self.old.is_empty self.old.delimiter.now))
            (W.text self.old.target.now) result (W.text self.new.target.now) }
    {
        if self.is_empty {
            self.is_empty = false;
            return Ok(());
        }
        self.target.write_text(self.delimiter)
    }
}

impl<F: WritePiece, W: FieldTarget> Visit for PieceVisitor<'_, '_, '_, F, W> {
    ghost use Rattle.event_formatter_text.specs.field.ShownPieces.{ShowsPiece};

    type Error = FormatError;

    ghost shows = { ShowsPiece W.text W.frame F.piece };

    fn record_debug(
        &mut self,
        field: &Field<'_>,
        value: &DebugText<'_>,
    ) -> Result<(), FormatError> {
        match self.delimit() {
            Ok(()) => self.target.write_by(self.function, field, value),
            Err(error) => Err(error),
        }
    }
}

// Writes the fields by the function, and the delimiter between each two.
pub(crate) fn write_fields<F: WritePiece, W: FieldTarget, R: RecordFields>(
    delimiter: &str,
    function: &F,
    target: &mut W,
    fields: &R,
) -> Result<(), FormatError>
    ensures same { W.frame target.new ≡ W.frame target.old }
    ensures text { Formats (fields_text delimiter.now (F.piece function.now (W.frame target.old).settings)
        (R.values fields.now)) (W.text target.old) result (W.text target.new) }
{
    let mut visitor = PieceVisitor {
        delimiter,
        function,
        is_empty: true,
        target: &mut *target,
    };
    fields.record(&mut visitor)
}

// Adds one more list to what is kept of a span.
fn add_fields_to<F: WritePiece, R: RecordFields>(
    delimiter: &str,
    function: &F,
    alloc: Global,
    current: &mut FormattedFields,
    fields: &R,
) -> Result<(), FormatError>
    ensures { Adds (behind_space (fields_text delimiter.now (F.piece function.now (plain_fields current.old).settings)
        (R.values fields.now)) (plain_fields current.old)) (plain_fields current.old)
        result (plain_fields current.new) }
{
    let mut more = current.begin_more(alloc)?;
    let mut writer = Writer::with_settings(&mut more, current.settings());
    write_fields(delimiter, function, &mut writer, fields)?;
    current.push_more(more.as_str())?;
    Ok(())
}

/// Writes each field by the function, with nothing between two.
impl<F: WritePiece> FormatFields for FieldFn<F> {
    ghost text_of = { λ formatter settings values. fields_text [] (F.piece formatter.function settings) values };

    ghost started = { λ _ settings. no_fields settings };

    ghost added = { λ formatter fields values.
        behind_space (fields_text [] (F.piece formatter.function fields.settings) values) fields };

    fn format_fields<R: RecordFields>(
        &self,
        _alloc: Global,
        writer: &mut Writer<'_>,
        fields: &R,
    ) -> Result<(), FormatError> {
        write_fields("", &self.function, writer, fields)
    }

    fn start(&self, alloc: Global, settings: Settings) -> Result<FormattedFields, AllocError> {
        Ok(FormattedFields::new(alloc, settings))
    }

    fn add_fields<R: RecordFields>(
        &self,
        alloc: Global,
        current: &mut FormattedFields,
        fields: &R,
    ) -> Result<(), FormatError> {
        add_fields_to("", &self.function, alloc, current, fields)
    }
}

/// Writes each field by the function, and the delimiter between each two of a list.
impl<D: AsStr, F: WritePiece> FormatFields for Delimited<D, FieldFn<F>> {
    ghost text_of = { λ formatter settings values.
        fields_text (D.text formatter.delimiter) (F.piece formatter.inner.function settings) values };

    ghost started = { λ _ settings. no_fields settings };

    ghost added = { λ formatter fields values. behind_space
        (fields_text (D.text formatter.delimiter) (F.piece formatter.inner.function fields.settings) values) fields };

    fn format_fields<R: RecordFields>(
        &self,
        _alloc: Global,
        writer: &mut Writer<'_>,
        fields: &R,
    ) -> Result<(), FormatError> {
        write_fields(
            self.delimiter.as_str(),
            &self.inner.function,
            writer,
            fields,
        )
    }

    fn start(&self, alloc: Global, settings: Settings) -> Result<FormattedFields, AllocError> {
        self.inner.start(alloc, settings)
    }

    fn add_fields<R: RecordFields>(
        &self,
        alloc: Global,
        current: &mut FormattedFields,
        fields: &R,
    ) -> Result<(), FormatError> {
        let delimiter = self.delimiter.as_str();
        add_fields_to(delimiter, &self.inner.function, alloc, current, fields)
    }
}
