//! How the lines of an output look.
ghost use Rattle.std.specs.Prelude.{◌≡◌, IfOk, true, false, [], map};
ghost use Rattle.span_tracing_outputs.specs.files.Settings.{DescribesLayer, HasUsualParts, IsTimed, IsUsualJson, IsUsualPretty, ShowsPlace};
ghost use Rattle.span_tracing_outputs.specs.files.Settings.{asks_time, needs_json};
ghost use Rattle.span_tracing_outputs.specs.files.Threads.{lane_of};

use crate::PendingLines;
use crate::files::lane_thread::{LaneThread, tell_threads};
use event_formatter::{Fields, Format, Full, Json, Layer, LineFormat, Pretty, Timer};
use event_formatter_lines::{FmtSpan, SystemTime};
use event_formatter_text::DefaultFields;
use span_registry_layers_store::OutputKey;
use std::alloc::{AllocError, Global};

/// A layer that writes lines of any format.
pub type Lines = Layer<Fields, Format<LineFormat, Timer>, PendingLines>;

/// How the lines of an output look. It is told part by part, over the usual settings:
/// `LineSettings { level: false, ..LineSettings::full() }`.
#[derive(Drop)]
pub struct LineSettings {
    /// The order of a line's parts.
    pub format: LineFormat,
    /// How the fields of events and spans are written. Lines of JSON need `Fields::Json`.
    pub fields: Fields,
    /// The time. With `Timer::Empty` lines have none, and spans no timings.
    pub timer: Timer,
    /// Whether the level is shown.
    pub level: bool,
    /// Whether the target is shown.
    pub target: bool,
    /// Whether the name of the thread is shown, where [`open_stack_with_threads`](crate::files::open_stack_with_threads) was told it.
    pub thread_names: bool,
    /// Whether the number of the thread is shown or, of a lane whose thread wasn't told, the lane's.
    pub thread_ids: bool,
    /// Whether the source file is shown.
    pub file: bool,
    /// Whether the line in the source file is shown.
    pub line_number: bool,
    /// Whether lines have styles, for a terminal.
    pub ansi: bool,
    /// Whether ESC, BEL, BS, FF, DEL and U+0080 to U+009F of messages and errors are written as escapes. Without it a message can change
    /// what a terminal shows.
    pub ansi_sanitization: bool,
    /// Whether an event that can't be formatted leaves a line that says so. Without it nothing is written of it.
    pub log_internal_errors: bool,
    /// At which moments of a span a line is written for it.
    pub span_events: FmtSpan,
}

impl LineSettings {
    /// The full format, with the moment's time, level and target. Characters that steer a terminal are
    /// escaped, and events that can't be formatted are told of.
    pub fn full() -> LineSettings
        ensures shape { (result.format ≡ LineFormat.Full) × (result.fields ≡ Fields.Default) }
        ensures parts { HasUsualParts result }
        ensures place { ShowsPlace false result }
    {
        LineSettings {
            format: LineFormat::Full,
            fields: Fields::Default,
            timer: Timer::System(SystemTime::new()),
            level: true,
            target: true,
            thread_names: false,
            thread_ids: false,
            file: false,
            line_number: false,
            ansi: false,
            ansi_sanitization: true,
            log_internal_errors: true,
            span_events: FmtSpan::NONE,
        }
    }

    /// The compact format, with the moment's time, level and target.
    pub fn compact() -> LineSettings
        ensures shape { (result.format ≡ LineFormat.Compact) × (result.fields ≡ Fields.Default) }
        ensures parts { HasUsualParts result }
        ensures place { ShowsPlace false result }
    {
        LineSettings {
            format: LineFormat::Compact,
            ..LineSettings::full()
        }
    }

    /// The pretty format, over several rows, with the moment's time, level and target, and with the source file and
    /// its line.
    pub fn pretty() -> LineSettings
        ensures shape { IsUsualPretty result.format × (result.fields ≡ Fields.Pretty) }
        ensures parts { HasUsualParts result }
        ensures place { ShowsPlace true result }
    {
        LineSettings {
            format: LineFormat::Pretty(Pretty::new()),
            fields: Fields::Pretty,
            file: true,
            line_number: true,
            ..LineSettings::full()
        }
    }

    /// The JSON format, a line for each event, with the moment's time, level and target.
    pub fn json() -> LineSettings
        ensures shape { IsUsualJson result.format × (result.fields ≡ Fields.Json) }
        ensures parts { HasUsualParts result }
        ensures place { ShowsPlace false result }
    {
        LineSettings {
            format: LineFormat::Json(Json::new()),
            fields: Fields::Json,
            ..LineSettings::full()
        }
    }

    /// Whether lines are to be JSON and fields are not.
    pub(crate) fn needs_json_fields(&self) -> bool
        ensures { result ≡ needs_json self.now }
    {
        matches!(&self.format, LineFormat::Json(_)) && self.fields != Fields::Json
    }

    /// The layer that writes such lines, and knows these threads of lanes. What it knows of spans it keeps under the key.
    ///
    /// # Errors
    ///
    /// Out of memory.
    pub(crate) fn into_layer(
        self,
        alloc: Global,
        key: OutputKey,
        threads: &[LaneThread<'_>],
    ) -> Result<Lines, AllocError>
        ensures { IfOk result (λ layer. DescribesLayer self key (map lane_of threads.now) layer) }
    {
        let mut layer = self.into_layer_without_threads(alloc, key);
        tell_threads(alloc, &mut layer, threads)?;
        Ok(layer)
    }

    fn into_layer_without_threads(self, alloc: Global, key: OutputKey) -> Lines
        ensures { DescribesLayer self key [] result }
    {
        let layer = timed(alloc, key, self.timer);
        let format = self.format;
        layer
            .map_event_format(|shown| shown.with_shape(format))
            .fmt_fields(self.fields)
            .with_level(self.level)
            .with_target(self.target)
            .with_thread_names(self.thread_names)
            .with_thread_ids(self.thread_ids)
            .with_file(self.file)
            .with_line_number(self.line_number)
            .with_ansi(self.ansi)
            .with_ansi_sanitization(self.ansi_sanitization)
            .log_internal_errors(self.log_internal_errors)
            .with_span_events(self.span_events)
    }
}

/// The usual layer with this timer.
fn timed(
    alloc: Global,
    key: OutputKey,
    timer: Timer,
) -> Layer<DefaultFields, Format<Full, Timer>, PendingLines>
    ensures { IsTimed timer key result }
{
    let plain = Layer::new(alloc, key, PendingLines::new(alloc));
    match timer {
        Timer::Empty => plain.without_time().with_timer(Timer::Empty),
        timer => plain.with_timer(timer),
    }
}
