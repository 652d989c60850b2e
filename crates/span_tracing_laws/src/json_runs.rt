//! Laws of the runs of JSON outputs.
ghost use Rattle.span_tracing_laws.specs.json_runs.JsonRuns.{JsonFilesHoldObjects, JsonFormatFilesHoldObjects, JsonOutputsRun};

use crate::json::{
    files_hold_objects, json_format_writes_objects, json_outputs_offer_objects, lines_give_objects,
};
use event_formatter::{Fields, Format, FormatEvent, LineFormat};
use event_formatter_lines::FormatTime;
use event_formatter_text::FormatFields;
use span_registry_layers_layers::Filter;
use tracing_appender_rolling::Folder;

/// Over a run of steps each line of an output machine of JSON is an object of JSON and a newline. The numbers of the values that
/// the steps bring, and of the lines in the source of callsites and open spans, have to be in the ranges of their types. And the
/// output may not tell events that can't be formatted, or each event of the run has to be one that can be, and its format has
/// to have a line for each that can be.
pub fn json_outputs_run<N: FormatFields>()
    ensures { JsonOutputsRun ⟦<N as FormatFields>⟧ }
{
    json_outputs_offer_objects::<N>();
}

/// After a run of steps each file of a sink of a JSON output, cut at newlines, holds one object of JSON on each line. The sink has to
/// have been handed objects alone before, its appender has to agree with a sink before the run (`AgreesSink`), and the contents of its
/// folder have to be known. A direct sink has to have dropped no line in the run. At a queued one no line may have found no memory, and
/// objects alone may wait before the run; then objects alone wait after it, too. What the file's opening found has to be made up of such
/// objects, as an empty file is, or there was no file.
pub fn json_files_hold_objects<N: FormatFields, E: FormatEvent, F: Filter, D: Folder, Q>()
    ensures { JsonFilesHoldObjects Q D.contents D.failed ⟦<N as FormatFields>⟧ E.line_of ⟦<F as Filter>⟧ }
{
    json_outputs_run::<N>();
    files_hold_objects();
    lines_give_objects();
}

/// After a run of steps each file of a sink of an output in the JSON format with the JSON formatter of fields holds one object of
/// JSON on each line, in a trace that agrees with the output's machine, under the same premises as in
/// [`json_files_hold_objects`]. It holds whatever the timer is and whatever parts of a line are shown. Either the output doesn't
/// tell events that can't be formatted, or each event of the run can be formatted. Before the run the machine has to keep an
/// object with each span of which it keeps fields, as one does that keeps nothing yet.
pub fn json_format_files_hold_objects<T: FormatTime + Drop, F: Filter, D: Folder, Q>()
    ensures { JsonFormatFilesHoldObjects Q D.contents D.failed ⟦<Fields as FormatFields>⟧
        ⟦<Format<LineFormat, T> as FormatEvent>⟧.line_of ⟦<F as Filter>⟧ }
{
    json_format_writes_objects::<T>();
    json_files_hold_objects::<Fields, Format<LineFormat, T>, F, D, Q>();
}
