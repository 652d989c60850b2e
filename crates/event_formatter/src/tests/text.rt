//! What field formatters write, and where they refuse.

mod formatting;
mod keeping;
mod writing;

use super::common::{ONE_AND_FAILING, PLAIN};
use event_formatter_text::*;
use std::alloc::Global;
use tracing_core_fields::{AnyValue, DebugText, ErrorText, FieldSet, Identifier};

const NAMES: [&str; 7] = ["message", "r#n", "d", "e", "wide", "yes", "raw"];

const STYLED: Settings = Settings {
    styles: true,
    sanitizes: false,
};

const TEXT: DebugText<'static> = DebugText::Texts {
    plain: "3",
    alternate: "three",
};

fn all_values() -> [Option<AnyValue<'static>>; 7] {
    [
        Some(AnyValue::Str("hi\u{1b}")),
        Some(AnyValue::I64(-3)),
        Some(AnyValue::Debug(TEXT)),
        Some(AnyValue::Error(ErrorText::new("boom", &["a", "b"]))),
        Some(AnyValue::U128(7)),
        Some(AnyValue::Bool(true)),
        Some(AnyValue::Bytes(b"\x01\xff")),
    ]
}

// What the formatter writes of the values, or its refusal.
fn text_of<F: FormatFields>(
    alloc: Global,
    formatter: &F,
    settings: Settings,
    values: &[Option<AnyValue<'_>>],
) -> Result<String, FormatError> {
    let mut out = String::new(alloc);
    let set = FieldSet::new(&NAMES, Identifier(1));
    let mut writer = Writer::with_settings(&mut out, settings);
    formatter.format_fields(alloc, &mut writer, &set.value_set_all(values))?;
    Ok(out)
}
