//! The fields of an event in a line.
ghost use Rattle.std.specs.Prelude.{◌≡◌, string_bytes};
ghost use Rattle.event_formatter_text.specs.Lists.{Formats};

use event_formatter_text::{FormatError, FormatFields, RecordFields, Settings, Writer};
use std::alloc::Global;

/// Appends the text of the fields.
#[inline(always)]
pub(crate) fn push_fields<F: FormatFields, R: RecordFields>(
    alloc: Global,
    out: &mut String,
    settings: Settings,
    formatter: &F,
    fields: &R,
) -> Result<(), FormatError>
    ensures { Formats (F.text_of formatter.now settings (R.values fields.now)) (string_bytes out.old) result
        (string_bytes out.new) }
{
    let mut writer = Writer::with_settings(out, settings);
    formatter.format_fields(alloc, &mut writer, fields)
}
