//! Laws of the formats.
ghost use Rattle.std.specs.Prelude.{◌≡◌, false, true};
ghost use Rattle.event_formatter_lines.specs.FmtSpans.{set_of};
ghost use Rattle.event_formatter_lines.specs.HarmlessLines.{CompactLinesAreHarmless, FullLinesAreHarmless, PrettyLinesAreHarmless};
ghost use Rattle.event_formatter_lines.specs.JsonLaws.{JsonIsPrinted, KeepsObjects, LinesAreJson, LinesEndOnce, ObjectsAreKept};
ghost use Rattle.event_formatter_lines.specs.JsonLaws.{SpansExtendObjects};

use crate::fmt_span::FmtSpan;
use event_formatter_text::{
    FormatFields, JsonFields, numbers_are_json, objects_are_json, texts_are_strings,
    values_are_json,
};

/// Where an object is kept of a span's fields, as `JsonFields` keeps it, the JSON format's object of the span is that
/// object with one more member, the name. So it is an object again.
#[tactic(auto, using(crate::proofs::SpanObjects::spans_extend_objects))]
pub fn spans_extend_objects()
    ensures { SpansExtendObjects }
{}

/// Each line of the JSON format is an object of JSON, where an object of JSON is kept of each span, or a text that
/// isn't in braces, and numbers are in the ranges of their types.
pub fn lines_are_json()
    ensures { LinesAreJson }
{
    texts_are_strings();
    objects_are_json();
    values_are_json();
    numbers_are_json();
}

/// What `JsonFields` starts with is an object of JSON, and so is what it makes of an object by one more list of values,
/// where numbers are in the ranges of their types. A span that shows the text of such an object keeps an object, as
/// [`lines_are_json`] asks for.
#[tactic(auto, using(crate::proofs::KeptObjects::objects_are_kept))]
pub fn json_fields_keep_objects()
    ensures objects { KeepsObjects ⟦<JsonFields as FormatFields>⟧ }
    ensures shown { ObjectsAreKept }
{
    values_are_json();
}

/// No byte below 32 stands in JSON as it is written here, and in a line of the JSON format none but the newline at its end.
#[tactic(auto, using(crate::proofs::PrintableJson::json_is_printed, crate::proofs::PrintableJson::lines_end_once))]
pub fn json_lines_end_once()
    ensures printed { JsonIsPrinted }
    ensures line { LinesEndOnce }
{}

/// Which moments each constant of [`FmtSpan`] holds, in this order: the span is made, entered, left, and closed.
pub fn moments_of_constants()
    // `NEW` holds the making of a span alone.
    ensures new { FmtSpan.NEW ≡ set_of true false false false }
    // `ENTER` holds each entry alone.
    ensures enter { FmtSpan.ENTER ≡ set_of false true false false }
    // `EXIT` holds each exit alone.
    ensures exit { FmtSpan.EXIT ≡ set_of false false true false }
    // `CLOSE` holds the close alone.
    ensures close { FmtSpan.CLOSE ≡ set_of false false false true }
    // `NONE` holds no moment.
    ensures none { FmtSpan.NONE ≡ set_of false false false false }
    // `ACTIVE` holds entries and exits.
    ensures active { FmtSpan.ACTIVE ≡ set_of false true true false }
    // `FULL` holds all four.
    ensures full { FmtSpan.FULL ≡ set_of true true true true }
{}

/// Where texts are sanitized and there are no styles, no line for people steers a terminal, where nothing that stands in it as it is does:
/// the texts of the time, the thread, the target, the file and the spans. Of the fields `fields_are_harmless` says the same.
pub fn lines_are_harmless()
    // A full line, with its newline.
    ensures full { FullLinesAreHarmless }
    // A compact line, with its newline.
    ensures compact { CompactLinesAreHarmless }
    // An entry of the pretty format, which never has styles.
    ensures pretty { PrettyLinesAreHarmless }
{}
