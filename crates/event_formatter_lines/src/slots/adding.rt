//! One more list of values in the fields of a span.
ghost use Rattle.event_formatter_text.specs.SpanFields.{plain_fields};
ghost use Rattle.event_formatter_lines.specs.slots.FieldsAndTimings.{AddsMore};

use event_formatter_text::{FormatError, FormatFields, FormattedFields, RecordFields};
use std::alloc::Global;

/// Adds the values, where they can be formatted, and answers whether that found memory.
pub(crate) fn add_list<F: FormatFields, R: RecordFields>(
    alloc: Global,
    kept: &mut FormattedFields,
    formatter: &F,
    fields: &R,
) -> bool
    ensures { AddsMore (λ more. F.added formatter.now more (R.values fields.now)) (plain_fields kept.old) result
        (plain_fields kept.new) }
{
    match formatter.add_fields(alloc, kept, fields) {
        Ok(()) | Err(FormatError::Failed) => true,
        Err(FormatError::OutOfMemory) => false,
    }
}
