//! The lines of an event, and what they leave out.

mod fmt_span;
mod full;
mod json;
mod json_in_span;
mod pretty;

ghost use Rattle.std.specs.Prelude.{◌≡◌, map};
ghost use Rattle.event_formatter_lines.specs.Shown.{plain_shown};

use super::common::{ONE_AND_FAILING, PLAIN, STYLED};
use event_formatter_lines::*;
use event_formatter_text::{FormatError, FormatFields, Settings};
use std::alloc::Global;
use tracing_core_fields::{AnyValue, FieldSet, Identifier, Level, ValueSet};

const NAMES: [&str; 2] = ["message", "n"];

// An event of which nothing is shown but its fields.
const BARE: Head<'static> = Head {
    time: None,
    level: None,
    thread_name: None,
    thread_id: None,
    target: None,
    file: None,
    line: None,
};

// An event with a time and a target.
fn timed(level: Option<Level>) -> Head<'static> {
    Head {
        time: Some("fake time"),
        level,
        target: Some("app"),
        ..BARE
    }
}

// A span of the target `app`.
fn row(name: &'static str, text: &'static str) -> ShownSpan<'static> {
    ShownSpan {
        name,
        target: "app",
        text,
    }
}

// The spans of a test, from the root on.
#[derive(Drop)]
struct Rows<'a> {
    rows: &'a [ShownSpan<'static>],
}

impl ShownSpans for Rows<'_> {
    ghost spans = { λ it. map plain_shown it.rows.now };

    fn count(&self) -> usize {
        self.rows.len()
    }

    fn span(&self, index: usize) -> ShownSpan<'_> {
        self.rows[index]
    }
}

fn hi_and_three() -> [Option<AnyValue<'static>>; 2] {
    [Some(AnyValue::Str("hi")), Some(AnyValue::I64(3))]
}

fn fields_of<'a>(values: &'a [Option<AnyValue<'a>>]) -> ValueSet<'a> {
    FieldSet::new(&NAMES, Identifier(1)).value_set_all(values)
}
