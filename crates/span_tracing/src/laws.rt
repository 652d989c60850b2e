//! Laws over what a trace does.
ghost use Rattle.std.specs.Prelude.{List};
ghost use Rattle.tracing_core_fields.specs.requests.Lists.{Every};
ghost use Rattle.span_tracing.specs.OutputIndependence.{OutputsGoAlone};
ghost use Rattle.span_tracing.specs.Levels.{LevelsAnswer};
ghost use Rattle.span_tracing.specs.Setup.{SitesStayReady, StartsReady};
ghost use Rattle.span_registry_layers_layers.specs.declared.filtered.Filtered.{Filtered};
ghost use Rattle.span_registry_layers.specs.declared.output.Output.{Output};
ghost use Rattle.span_tracing_outputs.specs.declared.files.output_spec.OutputSpec.{OutputSpec};

use event_formatter::FormatEvent;
use event_formatter_text::FormatFields;
use span_registry_layers_layers::{Filter, Layer};
use span_tracing_laws::setup_follows;
pub use span_tracing_laws::{
    calls_may_change_places, faults_stay_apart, files_stay_harmless, formats_write_harmless_lines,
    harmless_formats_fill_files, harmless_outputs_fill_files, harmless_outputs_run,
    harmless_runs_fill_files, isolated, kept_texts_are_harmless, nothing_is_starved,
    outputs_stay_harmless, queues_count_exactly, timers_are_harmless, work_may_be_cut,
};
use span_tracing_outputs::{LineSink, PendingLines, TraceStack};
use tracing_core_fields::{LevelFilter, Subscriber};

/// Levels are honest filters, in outputs with any layers. So a new stack of them is right in what it keeps of their answers
/// (`Stack::new`).
#[tactic(auto, using(crate::proofs::Levels::every_of_all))]
pub fn levels_are_honest<L: Layer>()
    ensures { (outputs : List (Output (Filtered L LevelFilter))) →
        Every (λ (o : Output (Filtered L LevelFilter)). ⟦<LevelFilter as Filter>⟧.honest o.output.filter) outputs }
{}

/// Levels are honest filters of outputs whose files aren't open yet. So a stack that `open_stack` makes of them is ready.
#[tactic(auto, using(crate::proofs::Levels::every_of_all))]
pub fn leveled_outputs_are_honest<D, Q>()
    ensures { (outputs : List (OutputSpec LevelFilter D Q)) →
        Every (λ (spec : OutputSpec LevelFilter D Q). ⟦<LevelFilter as Filter>⟧.honest spec.filter) outputs }
{}

/// A new trace is ready. A lane leaves a ready trace so, and so does taking a stack that was released. With `setup_follows` a trace is
/// ready for its next step, as long as each stack that is added is ready.
#[tactic(auto, using(crate::proofs::FirstTraces::traces_start_ready))]
pub fn traces_start_ready<N: FormatFields + Drop, E: FormatEvent, F: Filter, S>()
    ensures { StartsReady ⟦<F as Filter>⟧ ⟦<event_formatter::Layer<N, E, PendingLines> as Layer>⟧ S }
{}

/// A trace that is ready stays so where a [`Site`](crate::Site) is registered, and where that is refused.
pub fn sites_stay_ready<N: FormatFields + Drop, E: FormatEvent, F: Filter, S: LineSink>()
    ensures { SitesStayReady ⟦<F as Filter>⟧ ⟦<event_formatter::Layer<N, E, PendingLines> as Layer>⟧
        ⟦<TraceStack<N, E, F, S> as Subscriber>⟧ }
{
    setup_follows::<N, E, F, S>();
}

/// Each output goes its own way: two runs of the same steps, in which all filters answer the same, leave an output's machine the
/// same, and it offers the same lines to its sink, whatever the other outputs' formats and kept texts are, also those of other stacks,
/// and whatever becomes of their texts and lines.
pub fn outputs_go_alone<N: FormatFields>()
    ensures { OutputsGoAlone ⟦<N as FormatFields>⟧ }
{}

/// Where the filters are levels, what they answer of a step that isn't refused is read off the levels and the callsite, and a
/// level stays as it is whatever its output is told.
#[tactic(auto, using(crate::proofs::Answers::levels_answer))]
pub fn levels_answer<N: FormatFields + Drop, E: FormatEvent, S>()
    ensures { LevelsAnswer S ⟦<N as FormatFields>⟧ E.line_of ⟦<LevelFilter as Filter>⟧
        ⟦<event_formatter::Layer<N, E, PendingLines> as Layer>⟧ }
{}
