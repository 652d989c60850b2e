//! What is timed, by name.

ghost use Rattle.std.specs.Prelude.{◌≡◌, IfSome};
ghost use Rattle.std.specs.Option.{option_map};
ghost use Rattle.span_trace_bench.specs.Names.{name_of, bench_named};

use crate::fault::Fault;
use crate::stage::{DETAIL, EVENT, NOISE, Stage};
use event_formatter::{Json, LineFormat, Pretty};
use span_tracing::{Folder, LiveQueue};

/// A bench.
#[derive(Clone, Copy, Debug, PartialEq, Eq)]
pub enum Bench {
    /// Events in a span, to a folder that only counts.
    DirectMemory,
    /// The same through `event!`, with a lent text of 20 bytes.
    EventText,
    /// Events in a span, to a folder of the system.
    DirectFile,
    /// Events in a span, to a live queue with room for 128,000 lines, which drops what comes when it is full.
    Live,
    /// Events in a span, to a live queue with room for all of them.
    LiveAll,
    /// Events in a span, as steps of a trace that keeps a journal of its steps.
    Shared,
    /// Events in a span, through two outputs in the full format, each to a folder that only counts.
    TwoOutputs,
    /// Events in a span, in JSON, to a folder that only counts.
    JsonMemory,
    /// Events in a span, to a queue, from which a worker's step writes 100 lines behind each 100 events.
    Queued,
    /// Events of a callsite in which nobody is interested.
    Never,
    /// The same through `event!`, which makes no request there.
    NeverSkipped,
    /// Events of a callsite that the filter refuses.
    Refused,
    /// Events in 64 spans, each inside the one before.
    Depth64,
    /// Events in a span, with 10,000 other spans open, or fewer where no time is taken.
    Open10k,
    /// Events in a span, with 1,000 other callsites registered, or fewer where no time is taken.
    Callsites1k,
    /// A span opened, entered, left and closed.
    SpanCycle,
    /// The same with 10,000 other spans open.
    SpanCycle10k,
    /// The oldest of 10,000 open spans closes, and another one is opened.
    CloseOldest10k,
    /// A span opened, entered, left and closed, while 64 other lanes are in a span each.
    Entered64,
    /// Spans opened and left open.
    Open,
    /// Events in a span of a stack by itself, written in the full format for a maker that only counts.
    FormatFull,
    /// The same in the compact format.
    FormatCompact,
    /// The same in the pretty format.
    FormatPretty,
    /// The same in JSON.
    FormatJson,
}

/// The benches whose sums are shown: all but the one that differs from another by its folder alone.
pub(crate) const SHOWN: [Bench; 23] = [
    Bench::DirectMemory,
    Bench::EventText,
    Bench::Live,
    Bench::LiveAll,
    Bench::Shared,
    Bench::TwoOutputs,
    Bench::JsonMemory,
    Bench::Queued,
    Bench::Never,
    Bench::NeverSkipped,
    Bench::Refused,
    Bench::Depth64,
    Bench::Open10k,
    Bench::Callsites1k,
    Bench::SpanCycle,
    Bench::SpanCycle10k,
    Bench::CloseOldest10k,
    Bench::Entered64,
    Bench::Open,
    Bench::FormatFull,
    Bench::FormatCompact,
    Bench::FormatPretty,
    Bench::FormatJson,
];

impl Bench {
    /// The bench of a name.
    pub fn named(name: &str) -> Option<Bench>
        ensures { result ≡ bench_named name.now }
    {
        match name {
            "direct_memory" => Some(Bench::DirectMemory),
            "event_text" => Some(Bench::EventText),
            "direct_file" => Some(Bench::DirectFile),
            "live" => Some(Bench::Live),
            "live_all" => Some(Bench::LiveAll),
            "shared" => Some(Bench::Shared),
            "two_outputs" => Some(Bench::TwoOutputs),
            "json_memory" => Some(Bench::JsonMemory),
            "queued" => Some(Bench::Queued),
            "never" => Some(Bench::Never),
            "never_skipped" => Some(Bench::NeverSkipped),
            "refused" => Some(Bench::Refused),
            "depth64" => Some(Bench::Depth64),
            "open10k" => Some(Bench::Open10k),
            "callsites1k" => Some(Bench::Callsites1k),
            "span_cycle" => Some(Bench::SpanCycle),
            "span_cycle10k" => Some(Bench::SpanCycle10k),
            "close_oldest10k" => Some(Bench::CloseOldest10k),
            "entered64" => Some(Bench::Entered64),
            "open" => Some(Bench::Open),
            "format_full" => Some(Bench::FormatFull),
            "format_compact" => Some(Bench::FormatCompact),
            "format_pretty" => Some(Bench::FormatPretty),
            "format_json" => Some(Bench::FormatJson),
            _ => None,
        }
    }

    /// The bench's name.
    pub fn name(self) -> &'static str
        ensures { result.now ≡ name_of self }
    {
        match self {
            Bench::DirectMemory => "direct_memory",
            Bench::EventText => "event_text",
            Bench::DirectFile => "direct_file",
            Bench::Live => "live",
            Bench::LiveAll => "live_all",
            Bench::Shared => "shared",
            Bench::TwoOutputs => "two_outputs",
            Bench::JsonMemory => "json_memory",
            Bench::Queued => "queued",
            Bench::Never => "never",
            Bench::NeverSkipped => "never_skipped",
            Bench::Refused => "refused",
            Bench::Depth64 => "depth64",
            Bench::Open10k => "open10k",
            Bench::Callsites1k => "callsites1k",
            Bench::SpanCycle => "span_cycle",
            Bench::SpanCycle10k => "span_cycle10k",
            Bench::CloseOldest10k => "close_oldest10k",
            Bench::Entered64 => "entered64",
            Bench::Open => "open",
            Bench::FormatFull => "format_full",
            Bench::FormatCompact => "format_compact",
            Bench::FormatPretty => "format_pretty",
            Bench::FormatJson => "format_json",
        }
    }

    /// The format whose lines are timed, where they are those of a stack by itself and no trace's.
    pub(crate) fn line_format(self) -> Option<LineFormat> {
        match self {
            Bench::FormatFull => Some(LineFormat::Full),
            Bench::FormatCompact => Some(LineFormat::Compact),
            Bench::FormatPretty => Some(LineFormat::Pretty(Pretty::new())),
            Bench::FormatJson => Some(LineFormat::Json(Json::new())),
            _ => None,
        }
    }

    /// The format of a trace's lines.
    pub(crate) fn trace_format(self) -> LineFormat {
        match self {
            Bench::JsonMemory => LineFormat::Json(Json::new()),
            _ => LineFormat::Full,
        }
    }

    /// Whether a trace's lines wait in a queue.
    pub(crate) fn is_queued(self) -> bool {
        matches!(self, Bench::Queued)
    }

    /// How many outputs a trace has.
    pub(crate) fn output_count(self) -> u64 {
        match self {
            Bench::TwoOutputs => 2,
            _ => 1,
        }
    }

    /// Opens the spans that are open before the time begins: `many` beside the others, where the bench has many.
    pub(crate) fn prepare<D: Folder, Q: LiveQueue>(
        self,
        stage: &mut Stage<D, Q>,
        many: u64,
    ) -> Result<(), Fault> {
        match self {
            Bench::Depth64 => stage.nest(64),
            Bench::Open10k => {
                stage.scatter(many)?;
                stage.nest(1)
            }
            Bench::Callsites1k => {
                stage.register_others(many / 10)?;
                stage.nest(1)
            }
            Bench::SpanCycle10k => stage.scatter(many),
            Bench::CloseOldest10k => stage.scatter(many),
            Bench::Entered64 => stage.occupy(64),
            Bench::SpanCycle => Ok(()),
            Bench::Open => Ok(()),
            _ => stage.nest(1),
        }
    }

    /// Makes the calls that are timed.
    pub(crate) fn run<D: Folder, Q: LiveQueue>(
        self,
        stage: &mut Stage<D, Q>,
        count: u64,
    ) -> Result<(), Fault> {
        match self {
            Bench::Never => stage.tell(DETAIL, count),
            Bench::NeverSkipped => stage.skip(DETAIL, count),
            Bench::Refused => stage.tell(NOISE, count),
            Bench::EventText => stage.tell_text("twenty bytes of text", count),
            Bench::SpanCycle => stage.cycle(count),
            Bench::SpanCycle10k => stage.cycle(count),
            Bench::CloseOldest10k => stage.replace_oldest(count),
            Bench::Entered64 => stage.cycle(count),
            Bench::Open => stage.scatter(count),
            Bench::Queued => stage.tell_queued(count),
            _ => stage.tell(EVENT, count),
        }
    }
}
