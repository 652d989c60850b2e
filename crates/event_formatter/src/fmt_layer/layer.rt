//! The layer that writes lines, and what it keeps.
ghost use Rattle.std.specs.Prelude.{◌≡◌, [], string_bytes};
ghost use Rattle.tracing_core_fields.specs.requests.PlainRequests.{plain_event};
ghost use Rattle.span_registry_layers_layers.specs.FilterViews.{view};
ghost use Rattle.event_formatter_text.specs.Lists.{Formats};
ghost use Rattle.event_formatter.specs.fmt_layer.Builders.{with_fields};
ghost use Rattle.event_formatter.specs.fmt_layer.Layers.{SameMaking, TellsEvent, line_in_view};

use crate::fmt_layer::output::Output;
use crate::fmt_layer::threads::Threads;
use crate::formats::cold_path::out_of_memory;
use crate::formats::{FmtContext, FormatEvent, fill_scope};
use event_formatter_lines::FmtSpan;
use event_formatter_text::{FormatError, FormatFields, MakeWriter, Settings};
use span_registry_layers_layers::Context;
use span_registry_layers_store::OutputKey;
use std::alloc::Global;
use tracing_core_fields::{Event, Id};

/// How a layer was made. Nothing that it is told changes this.
#[derive(Drop)]
pub(crate) struct Config<N> {
    pub(crate) key: OutputKey,
    pub(crate) fields: N,
    pub(crate) settings: Settings,
    pub(crate) span_events: FmtSpan,
    pub(crate) has_timer: bool,
    pub(crate) log_internal_errors: bool,
}

impl<N: Drop> Config<N> {
    /// The same with another formatter of fields.
    pub(crate) fn with_fields<M>(self, fields: M) -> Config<M>
        ensures { result ≡ with_fields fields self }
    {
        Config {
            key: self.key,
            fields,
            settings: self.settings,
            span_events: self.span_events,
            has_timer: self.has_timer,
            log_internal_errors: self.log_internal_errors,
        }
    }
}

impl<N> Config<N> {
    /// The same with the formatter of fields that the function makes of this one's.
    pub(crate) fn map_fields<M, F: FnOnce(N) -> M>(self, map: F) -> Config<M>
        requires { F.pre map self.fields }
        ensures fields { F.post map self.fields result.fields }
        ensures rest { result ≡ with_fields result.fields self }
    {
        Config {
            key: self.key,
            fields: map(self.fields),
            settings: self.settings,
            span_events: self.span_events,
            has_timer: self.has_timer,
            log_internal_errors: self.log_internal_errors,
        }
    }
}

/// What is used again from line to line, so that no line needs memory for it once it is there.
#[derive(Drop)]
pub(crate) struct Scratch {
    pub(crate) ids: Vec<Id>,
    pub(crate) busy: String,
    pub(crate) idle: String,
}

/// Writes a line for each event that it is told, and hands it to a maker.
#[derive(Drop)]
pub struct Layer<N, E, W> {
    pub(crate) alloc: Global,
    pub(crate) config: Config<N>,
    pub(crate) format: E,
    pub(crate) threads: Threads,
    pub(crate) output: Output<W>,
    pub(crate) scratch: Scratch,
}

impl<N: FormatFields, E: FormatEvent, W> Layer<N, E, W> {
    // Writes the line of an event.
    fn write_line(
        &mut self,
        context: &Context<'_>,
        event: &Event<'_, '_>,
    ) -> Result<(), FormatError>
        ensures stays { SameMaking E.line_of self.old self.new }
        ensures output { (self.new.threads ≡ self.old.threads) × (self.new.output.maker ≡ self.old.output.maker)
            × (self.new.output.starved ≡ self.old.output.starved) }
        ensures text { Formats (line_in_view N.text_of E.line_of self.old (view context.now) (plain_event event.now)) [] result
            (string_bytes self.new.output.line) }
    {
        let Ok(has_scope) = fill_scope(context, event, &mut self.scratch.ids) else {
            return Err(out_of_memory());
        };
        let thread = self.threads.at(context.at().lane);
        let written = FmtContext::new(
            context,
            &self.config.fields,
            self.config.key,
            thread,
            self.scratch.ids.as_slice(),
            has_scope,
        );
        self.output.line.clear();
        self.format.format_event(
            self.alloc,
            &written,
            &mut self.output.line,
            self.config.settings,
            event,
        )
    }
}

impl<N: FormatFields, E: FormatEvent, W: MakeWriter> Layer<N, E, W> {
    /// Writes the line of an event, and hands it on.
    pub(crate) fn tell_event(&mut self, context: &Context<'_>, event: &Event<'_, '_>)
        ensures { TellsEvent N.text_of E.line_of W.writes self.old (view context.now) (plain_event event.now) self.new }
    {
        self.threads.meet(context.at().lane);
        let metadata = event.metadata();
        match self.write_line(context, event) {
            Ok(()) => self.output.hand_over(metadata),
            Err(FormatError::Failed) => {
                let tells_faults = self.config.log_internal_errors;
                self.output.hand_fault(metadata, tells_faults);
            }
            Err(FormatError::OutOfMemory) => self.output.miss(),
        }
    }
}
