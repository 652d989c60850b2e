//! An output of the formatter in a stack of its own, whose lines are timed.

use crate::counting::CountingFolder;
use crate::fault::Fault;
use event_formatter::{Fields, Format, Layer, LineFormat, MakeWriter, Timer, format, layer, time};
use span_registry_layers::{Filtered, Output, OutputKey, Stack};
use std::alloc::Global;
use std::io;
use tracing_core::{
    AnyValue, At, Attributes, Event, FieldSet, Identifier, Kind, Level, LevelFilter, Metadata,
};

const KEY: OutputKey = OutputKey(0);

/// What is counted of the lines that were handed over. Nothing of them is kept.
#[derive(Clone, Copy, Debug, Drop)]
pub(crate) struct Counter {
    pub(crate) bytes: u64,
    pub(crate) lines: u64,
}

impl Counter {
    /// Counts what came to a folder too, where each line is a write.
    pub(crate) fn add(&mut self, folder: &CountingFolder) {
        self.bytes = self.bytes.saturating_add(folder.bytes);
        self.lines = self.lines.saturating_add(folder.writes);
    }
}

impl MakeWriter for Counter {
    ghost use Rattle.std.specs.Prelude.{◌≡◌, true};

    ghost takes = { λ maker m b. b ≡ true };

    ghost writes = { λ maker m line answer after. Unit {0} };

    fn writes_for(&self, _metadata: &Metadata<'_>) -> bool {
        true
    }

    fn write_for(&mut self, _metadata: &Metadata<'_>, line: &[u8]) -> io::Result<()> {
        self.bytes = self.bytes.saturating_add(line.len() as u64);
        self.lines = self.lines.saturating_add(1);
        Ok(())
    }
}

type Lined = Filtered<Layer<Fields, Format<LineFormat, Timer>, Counter>, LevelFilter>;

/// A stack of one output, with level and the system's time, and the span that its events stand in.
#[derive(Drop)]
pub(crate) struct Lines {
    stack: Stack<Lined>,
}

/// The place of a call: the moment i microseconds behind 2025-02-17T10:01:00Z, or as many as are left of whole seconds.
fn place(i: u64) -> At {
    At {
        lane: 0,
        seconds: 1_739_786_460,
        nanoseconds: (i % 1_000_000) as u32 * 1_000,
    }
}

/// The field formatter that goes with the format.
pub(crate) fn fields_of(shape: LineFormat) -> Fields {
    match shape {
        LineFormat::Pretty(_) => Fields::Pretty,
        LineFormat::Json(_) => Fields::Json,
        _ => Fields::Default,
    }
}

fn output_in(alloc: Global, shape: LineFormat) -> Output<Lined> {
    let counter = Counter { bytes: 0, lines: 0 };
    let format = format(alloc)
        .with_timer(Timer::System(time()))
        .with_shape(shape);
    let layer = layer(alloc, KEY, counter)
        .event_format(format)
        .fmt_fields(fields_of(shape));
    Output {
        key: KEY,
        output: Filtered::new(layer, LevelFilter::INFO),
    }
}

impl Lines {
    /// A stack of one output in this format, in a span `outer` with a field `x`.
    pub(crate) fn new(alloc: Global, shape: LineFormat) -> Result<Lines, Fault> {
        let mut outputs = Vec::with_capacity(alloc, 1)?;
        outputs.push_reserved(output_in(alloc, shape));
        let Ok(stack) = Stack::new(alloc, outputs) else {
            return Err(Fault::OutOfMemory);
        };
        let mut lines = Lines { stack };
        lines.enter_span()?;
        Ok(lines)
    }

    fn enter_span(&mut self) -> Result<(), Fault> {
        let names = ["x"];
        let fields = FieldSet::new(&names, Identifier(1));
        let metadata = Metadata::new(
            "outer",
            "app",
            Level::INFO,
            None,
            None,
            None,
            fields,
            Kind::SPAN,
        );
        let values = [Some(AnyValue::U64(42))];
        let attributes = Attributes::new(&metadata, fields.value_set_all(&values));
        let Ok(Some(span)) = self.stack.new_span(&attributes, place(0)) else {
            return Err(Fault::OddReply);
        };
        let _ = self.stack.enter(&span, place(0));
        Ok(())
    }

    /// Tells of events, whose second field is their number mod 10.
    pub(crate) fn tell(&mut self, count: u64) -> Result<(), Fault> {
        let names = ["message", "n"];
        let fields = FieldSet::new(&names, Identifier(2));
        let metadata = Metadata::new(
            "event",
            "app",
            Level::INFO,
            None,
            None,
            None,
            fields,
            Kind::EVENT,
        );
        for i in 0..count {
            let values = [Some(AnyValue::Str("hi")), Some(AnyValue::U64(i % 10))];
            let event = Event::new(&metadata, fields.value_set_all(&values));
            let Ok(()) = self.stack.event(&event, place(i)) else {
                return Err(Fault::OddReply);
            };
        }
        Ok(())
    }

    /// What was handed over.
    pub(crate) fn counted(&self) -> Result<Counter, Fault> {
        match self.stack.output(0) {
            Some(output) => Ok(*output.inner().writer()),
            None => Err(Fault::OddReply),
        }
    }
}
