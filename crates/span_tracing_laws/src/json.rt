//! Laws of JSON outputs and of their files.
ghost use Rattle.span_tracing_laws.specs.json.Formats.{JsonFormatWritesObjects};
ghost use Rattle.span_tracing_laws.specs.json.Objects.{JsonRuns};
ghost use Rattle.span_tracing_laws.specs.json.Texts.{FilesHoldObjects, LinesGiveObjects};

use event_formatter::{Fields, Format, FormatEvent, LineFormat};
use event_formatter_lines::{
    FormatTime, json_fields_keep_objects, json_lines_end_once, lines_are_json,
};
use event_formatter_text::FormatFields;

/// An output machine of JSON is one whose format writes objects of JSON, whose formatter of fields keeps objects, and that keeps
/// an object with each span of which it keeps fields. It stays one over any notices in which the numbers of values, and of lines
/// in the source, are in the ranges of their types. Each line that it offers then is an object of JSON and a newline, or stands
/// in place of an event that can't be formatted.
///
/// Where the output doesn't tell such events, all its lines are objects. So they are where each event that it hears can be
/// formatted, and its format has a line for each event that can be. The events of spans themselves always have values in range
/// and can be formatted.
pub fn json_outputs_offer_objects<N: FormatFields>()
    ensures { JsonRuns ⟦<N as FormatFields>⟧ }
{
    json_fields_keep_objects();
}

/// An output machine with the JSON formatter of fields that writes lines in the JSON format is an output of JSON, as
/// [`json_outputs_offer_objects`] asks for, where it keeps an object with each span of which it keeps fields. One that keeps
/// nothing yet does. Its format has a line for each event that can be formatted. All this holds whatever the timer is, whatever
/// parts of a line are shown, and whether the event's fields stand in an object of their own.
pub fn json_format_writes_objects<T: FormatTime + Drop>()
    ensures { JsonFormatWritesObjects ⟦<Fields as FormatFields>⟧ ⟦<Format<LineFormat, T> as FormatEvent>⟧.line_of }
{
    json_fields_keep_objects();
    lines_are_json();
}

/// A text that is made up of objects of JSON, each with a newline behind it, holds one object on each line: each line that
/// `str::lines` gives of it is an object, and a newline stands behind each of them.
pub fn lines_give_objects()
    ensures { LinesGiveObjects }
{
    json_lines_end_once();
}

/// Where each line that was handed to a sink is an object of JSON and a newline, or found no memory and has no bytes, each file
/// of the sink is made up of such objects, if the text that its opening found is. An empty text is. [`lines_give_objects`] says
/// that such a file holds one object on each line. This holds of a file by its name, also where retention removes files, and of
/// the file of a period.
#[tactic(auto, using(crate::proofs::json::Texts::files_hold))]
pub fn files_hold_objects()
    ensures { FilesHoldObjects }
{}
