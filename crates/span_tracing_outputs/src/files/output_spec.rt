//! What an output is to be, before its files are opened.
ghost use Rattle.std.specs.Prelude.{◌≡◌};
ghost use Rattle.span_tracing_outputs.specs.files.FileSpecs.{FileGives};
ghost use Rattle.span_tracing_outputs.specs.files.OutputSpecs.{SpecGives};

use crate::files::line_settings::LineSettings;
use crate::files::open_error::OpenStackError;
use event_formatter_text::Route;
use span_registry_layers_store::OutputKey;
use span_tracing_skeleton::Refusal;
use std::alloc::Global;
use tracing_appender::NoLive;
use tracing_appender_rolling::Builder;

/// Where lines go.
#[derive(Drop)]
pub enum SinkSpec<D, Q = NoLive> {
    /// To files of such names in a folder, each line as it comes.
    Direct(Builder, D),
    /// To such files, behind a queue for at most so many lines, from which steps of a worker write them. A line that the queue has no room
    /// for is dropped and counted where the last part is true; else it is held beside the queue.
    Queued(Builder, D, usize, bool),
    /// To a queue whose lines are written elsewhere, as by a worker's thread behind a `NonBlocking`.
    Live(Q),
}

/// What an output is to be: what it lets through, how its lines look, and which of its sinks take a line.
#[derive(Drop)]
pub struct OutputSpec<F, D, Q = NoLive> {
    pub(crate) key: OutputKey,
    pub(crate) filter: F,
    pub(crate) lines: LineSettings,
    pub(crate) route: Route,
    pub(crate) sinks: Vec<SinkSpec<D, Q>>,
}

/// An output that can't be, with what was handed in.
#[derive(Drop)]
pub struct SpecRefusal<F, D, Q = NoLive> {
    /// `BadRoute` or `JsonFieldsNeeded`.
    pub error: Refusal,
    /// The filter.
    pub filter: F,
    /// How the lines were to look.
    pub lines: LineSettings,
    /// The route.
    pub route: Route,
    /// The sinks.
    pub sinks: Vec<SinkSpec<D, Q>>,
}

impl<F, D, Q> OutputSpec<F, D, Q> {
    /// An output under a filter. Its key names it among the outputs of a stack. The route says by a line's level which sinks take it; each
    /// sink goes by its place.
    ///
    /// # Errors
    ///
    /// `BadRoute` where the route names a sink that isn't there, or one twice, or asks no bound where it has to, as `Route::check`
    /// says. Then `JsonFieldsNeeded` where lines are JSON and fields are not. All comes back.
    pub fn new(
        key: OutputKey,
        filter: F,
        lines: LineSettings,
        route: Route,
        sinks: Vec<SinkSpec<D, Q>>,
    ) -> Result<OutputSpec<F, D, Q>, SpecRefusal<F, D, Q>>
        ensures { SpecGives key filter lines route sinks.items result }
    {
        let error = if route.check(sinks.len()).is_err() {
            Some(Refusal::BadRoute)
        } else if lines.needs_json_fields() {
            Some(Refusal::JsonFieldsNeeded)
        } else {
            None
        };
        match error {
            Some(error) => Err(SpecRefusal {
                error,
                filter,
                lines,
                route,
                sinks,
            }),
            None => Ok(OutputSpec {
                key,
                filter,
                lines,
                route,
                sinks,
            }),
        }
    }
}

impl<F: Drop, D: Drop> OutputSpec<F, D> {
    /// An output under a filter that writes its lines to files of such names in a folder. It has one sink, which takes each line.
    ///
    /// # Errors
    ///
    /// `JsonFieldsNeeded` where lines are JSON and fields are not, and out of memory, both with the output's key. What was handed in is
    /// let go.
    pub fn file(
        alloc: Global,
        key: OutputKey,
        filter: F,
        lines: LineSettings,
        builder: Builder,
        folder: D,
    ) -> Result<OutputSpec<F, D>, OpenStackError>
        ensures { FileGives key filter lines builder folder result }
    {
        let mut sinks = Vec::new(alloc);
        let Ok(()) = sinks.push(SinkSpec::Direct(builder, folder)) else {
            return Err(OpenStackError::at_output(key, Refusal::OutOfMemory));
        };
        match OutputSpec::new(key, filter, lines, Route::Sink(0), sinks) {
            Ok(spec) => Ok(spec),
            Err(refused) => Err(OpenStackError::at_output(key, refused.error)),
        }
    }
}
