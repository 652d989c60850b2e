//! Laws of texts, lines and files that don't steer a terminal. A text steers one where ESC, BEL, BS, FF, DEL or a character from U+0080 to
//! U+009F stands in it.
ghost use Rattle.span_tracing_laws.specs.harmless.Kept.{KeptTextsAreHarmless};
ghost use Rattle.span_tracing_laws.specs.harmless.Lines.{FormatsWriteHarmlessLines};
ghost use Rattle.span_tracing_laws.specs.harmless.Outputs.{OutputsStayHarmless};
ghost use Rattle.span_tracing_laws.specs.harmless.Runs.{FilesStayHarmless, HarmlessFormatsFillFiles, HarmlessOutputsFillFiles};
ghost use Rattle.span_tracing_laws.specs.harmless.Runs.{HarmlessOutputsRun, HarmlessRunsFillFiles, PassingTextsAreHarmless};
ghost use Rattle.span_tracing_laws.specs.harmless.Timers.{TimersAreHarmless};

use event_formatter::{
    Fields, Format, FormatEvent, LineFormat, Timer, fields_are_harmless, lines_are_harmless,
};
use event_formatter_lines::FormatTime;
use event_formatter_text::FormatFields;
use span_registry_layers_layers::Filter;
use tracing_appender_rolling::Folder;

/// Where texts are sanitized and there are no styles, each formatter of fields but the one of JSON writes texts that don't steer a
/// terminal, and keeps such texts of spans: of a span's first fields, and of each later record. No field's name may steer a terminal,
/// nor may any debug value but a message, and numbers have to be in the ranges of their types.
pub fn kept_texts_are_harmless()
    ensures { KeptTextsAreHarmless ⟦<Fields as FormatFields>⟧ }
{
    fields_are_harmless();
}

/// Where texts are sanitized and there are no styles, the line that the full, the compact or the pretty format writes of an event, with
/// its newline, doesn't steer a terminal, whatever the messages and the texts among the values are. The format may have no styles of
/// its own either. The timer's texts, the thread's name, the names and targets of spans and what is kept of their fields may not steer
/// a terminal, nor may the event's name, target and file, the names of its fields, or a debug value that isn't a message. Its numbers,
/// and that of the line in the source, have to be in the ranges of their types.
pub fn formats_write_harmless_lines<T: FormatTime + Drop>()
    ensures { FormatsWriteHarmlessLines ⟦<T as FormatTime>⟧.text_at ⟦<Format<LineFormat, T> as FormatEvent>⟧.line_of }
{
    fields_are_harmless();
    lines_are_harmless();
}

/// No text of a timer steers a terminal, neither a moment's nor the time since a start, where the text of one that always writes the same
/// doesn't.
#[tactic(auto, using(crate::proofs::harmless::Timers::timers_are))]
pub fn timers_are_harmless()
    ensures { TimersAreHarmless ⟦<Timer as FormatTime>⟧.text_at }
{}

/// A harmless output machine stays one over any notices in which nothing that stands in lines as it is steers a terminal, and each line
/// that it offers then is harmless, also one that stands in place of an event that can't be formatted. An output machine is harmless
/// where its format writes lines that don't steer a terminal, its formatter of fields writes and keeps such texts, its texts are
/// sanitized and without styles, and neither a thread's name nor anything that is kept of spans steers one. In the notices no name,
/// target or file may steer a terminal, nor the name of a field, nor a debug value that isn't a message, and numbers have to be in the
/// ranges of their types.
#[tactic(auto, using(crate::proofs::harmless::Outputs::outputs_stay))]
pub fn outputs_stay_harmless<N: FormatFields>()
    ensures { OutputsStayHarmless ⟦<N as FormatFields>⟧ }
{}

/// Over a run of steps no line of a harmless output machine steers a terminal, whatever the messages and the texts among the values
/// are, where nothing else does that stands in lines as it is. So no name, target or file of the callsites and of the open spans may
/// steer one, nor the name of a field, nor a debug value of an event or a new span that isn't a message. A debug value that is recorded
/// later may not either, unless it is a message for each callsite that is known. Numbers have to be in the ranges of their types, and
/// no step may turn styles on.
pub fn harmless_outputs_run<N: FormatFields>()
    ensures { HarmlessOutputsRun ⟦<N as FormatFields>⟧ }
{
    outputs_stay_harmless::<N>();
}

/// Where no line that was handed to a sink steers a terminal, no file of the sink does, if the text that its opening found doesn't. An
/// empty text doesn't. This holds of a file by its name, also where retention removes files, and of the file of a period.
#[tactic(auto, using(crate::proofs::harmless::Runs::files_stay, crate::proofs::harmless::Runs::texts_are))]
pub fn files_stay_harmless()
    // A file that lines which let pass what stands behind them came to lets it pass, too.
    ensures files { FilesStayHarmless }
    // A text that lets pass what stands behind it steers nothing itself.
    ensures texts { PassingTextsAreHarmless }
{}

/// Where no line of an output over a run steers a terminal, no file of its sinks does after it. The sink has to have been handed
/// harmless lines alone before, its appender has to agree with a sink before the run (`AgreesSink`), and the contents of its folder
/// have to be known. A direct sink has to have dropped no line in the run. At a queued one no line may have found no memory, and
/// harmless lines alone may wait before the run; then harmless lines alone wait after it, too. What the file's opening found may not
/// steer a terminal, as an empty file doesn't, or there was no file.
pub fn harmless_runs_fill_files<N: FormatFields, E: FormatEvent, F: Filter, D: Folder, Q>()
    ensures { HarmlessRunsFillFiles Q D.contents D.failed ⟦<N as FormatFields>⟧ E.line_of ⟦<F as Filter>⟧ }
{
    files_stay_harmless();
}

/// After a run of steps no file of a sink of a harmless output machine steers a terminal, under the premises of
/// [`harmless_outputs_run`] on the steps and those of [`harmless_runs_fill_files`] on the sink.
pub fn harmless_outputs_fill_files<N: FormatFields, E: FormatEvent, F: Filter, D: Folder, Q>()
    ensures { HarmlessOutputsFillFiles Q D.contents D.failed ⟦<N as FormatFields>⟧ E.line_of ⟦<F as Filter>⟧ }
{
    harmless_outputs_run::<N>();
    harmless_runs_fill_files::<N, E, F, D, Q>();
}

/// After a run of steps no file of a sink of an output in the full, the compact or the pretty format steers a terminal, whatever the
/// messages and the texts among the values are, where nothing else does that stands in lines as it is. The trace has to agree with the
/// output's machine, and the premises are those of [`harmless_outputs_fill_files`]. The output has another formatter of fields than
/// that of JSON, its texts are sanitized, and it has no styles, nor has its format. The timer's texts may not steer a terminal, as
/// [`timers_are_harmless`] says of timers, nor may the names of threads, and what was kept of spans before the run may not either, as
/// nothing does in an output that keeps nothing yet.
pub fn harmless_formats_fill_files<T: FormatTime + Drop, F: Filter, D: Folder, Q>()
    ensures { HarmlessFormatsFillFiles Q D.contents D.failed ⟦<Fields as FormatFields>⟧ ⟦<T as FormatTime>⟧.text_at
        ⟦<Format<LineFormat, T> as FormatEvent>⟧.line_of ⟦<F as Filter>⟧ }
{
    kept_texts_are_harmless();
    formats_write_harmless_lines::<T>();
    harmless_outputs_fill_files::<Fields, Format<LineFormat, T>, F, D, Q>();
}
