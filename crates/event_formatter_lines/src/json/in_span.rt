//! The JSON line of an event in one span, with no other part than time, level and target.
//!
//! What stands between two of its values is one text. A refusal calls a cold function, so that the compiler inlines the pushes on the
//! other way.
ghost use Rattle.std.specs.Prelude.{◌≡◌, ◌++◌, [], ◌∷◌, OnOk, codes, string_bytes};
ghost use Rattle.tracing_core_fields.specs.Level.{level_name};
ghost use Rattle.event_formatter_text.specs.Escapes.{json_string};
ghost use Rattle.event_formatter_text.specs.Lists.{Formats};
ghost use Rattle.event_formatter_lines.specs.Json.{behind_fields, before_fields, default_shape, json_line, key_text, span_object};
ghost use Rattle.event_formatter_lines.specs.Heads.{usual_head};
ghost use Rattle.event_formatter_lines.specs.Shown.{plain_shown};

use super::members::push_later_level;
use super::spans::{begun_object, push_span};
use crate::head::refused;
use crate::shown::ShownSpan;
use event_formatter_text::{
    FormatError, RecordFields, is_plain_json, push_json_inside, push_json_members,
};
use std::alloc::AllocError;
use tracing_core_fields::Level;

// Ends the text of the time, and appends the level and the key of the fields with their brace.
#[inline(never)]
fn push_level_out_of_line(out: &mut String, level: Level) -> Result<(), AllocError>
    ensures { OnOk result (string_bytes out.new ≡ string_bytes out.old ++ (codes "\"" ++ (codes ","
        ++ (key_text (codes "level") ++ json_string (level_name level))) ++ codes ",\"fields\":{")) }
{
    out.push_str("\"")?;
    push_later_level(out, level)?;
    out.push_str(",\"fields\":{")
}

// The same, which is one text for the level that most events have.
#[inline(always)]
fn push_level(out: &mut String, level: Level) -> Result<(), AllocError>
    ensures { OnOk result (string_bytes out.new ≡ string_bytes out.old ++ (codes "\"" ++ (codes ","
        ++ (key_text (codes "level") ++ json_string (level_name level))) ++ codes ",\"fields\":{")) }
{
    if level == Level::INFO {
        return out.push_str("\",\"level\":\"INFO\",\"fields\":{");
    }
    push_level_out_of_line(out, level)
}

// Begins the line, up to its first field.
#[inline(always)]
fn begin(out: &mut String, time: &str, level: Level) -> Result<(), AllocError>
    ensures { OnOk result (string_bytes out.new ≡ string_bytes out.old ++ before_fields time.now level) }
{
    let Ok(()) = out.push_str("{\"timestamp\":\"") else {
        return Err(refused());
    };
    let Ok(()) = push_json_inside(out, time) else {
        return Err(refused());
    };
    push_level(out, level)
}

// Ends the text of the target, appends the object of any span twice, and ends the line.
#[inline(never)]
fn push_span_apart(out: &mut String, span: &ShownSpan<'_>) -> Result<(), AllocError>
    ensures { OnOk result (string_bytes out.new ≡ string_bytes out.old ++ (codes "\",\"span\":" ++ span_object (plain_shown span.now)
        ++ codes ",\"spans\":[" ++ span_object (plain_shown span.now) ++ codes "]}\n")) }
{
    out.push_str("\",\"span\":")?;
    push_span(out, span)?;
    out.push_str(",\"spans\":[")?;
    push_span(out, span)?;
    out.push_str("]}\n")
}

// Appends what begins an object, and a name that needs no escapes.
#[inline(always)]
fn push_begun(out: &mut String, begun: &str, name: &str) -> Result<(), AllocError>
    ensures { OnOk result (string_bytes out.new ≡ string_bytes out.old ++ (begun.now ++ codes ",\"name\":\"" ++ name.now)) }
{
    let Ok(()) = out.push_str(begun) else {
        return Err(refused());
    };
    let Ok(()) = out.push_str(",\"name\":\"") else {
        return Err(refused());
    };
    out.push_str(name)
}

// Does what `push_span_apart` does, for a span that keeps its fields as members and whose name needs no escapes.
#[inline(always)]
fn push_members_twice(out: &mut String, begun: &str, name: &str) -> Result<(), AllocError>
    ensures { OnOk result (string_bytes out.new ≡ string_bytes out.old ++ (codes "\",\"span\":"
        ++ (begun.now ++ codes ",\"name\":\"" ++ name.now) ++ codes "\"},\"spans\":["
        ++ (begun.now ++ codes ",\"name\":\"" ++ name.now) ++ codes "\"}]}\n")) }
{
    let Ok(()) = out.push_str("\",\"span\":") else {
        return Err(refused());
    };
    let Ok(()) = push_begun(out, begun, name) else {
        return Err(refused());
    };
    let Ok(()) = out.push_str("\"},\"spans\":[") else {
        return Err(refused());
    };
    let Ok(()) = push_begun(out, begun, name) else {
        return Err(refused());
    };
    out.push_str("\"}]}\n")
}

// Ends the text of the target, appends the span's object as the innermost one and as the list of all, and ends the line.
#[inline(always)]
fn push_span_twice(out: &mut String, span: &ShownSpan<'_>) -> Result<(), AllocError>
    ensures { OnOk result (string_bytes out.new ≡ string_bytes out.old ++ (codes "\",\"span\":" ++ span_object (plain_shown span.now)
        ++ codes ",\"spans\":[" ++ span_object (plain_shown span.now) ++ codes "]}\n")) }
{
    let Some(begun) = begun_object(span.text) else {
        return push_span_apart(out, span);
    };
    // A lone brace is that of a span without fields: no comma stands before its name.
    if begun.len() == 1 || !is_plain_json(span.name) {
        return push_span_apart(out, span);
    }
    push_members_twice(out, begun, span.name)
}

// Ends the object of the fields and the line, with the target and the span.
#[inline(always)]
fn end(out: &mut String, target: &str, span: &ShownSpan<'_>) -> Result<(), AllocError>
    ensures { OnOk result (string_bytes out.new ≡ string_bytes out.old ++ behind_fields target.now (plain_shown span.now)) }
{
    let Ok(()) = out.push_str("},\"target\":\"") else {
        return Err(refused());
    };
    let Ok(()) = push_json_inside(out, target) else {
        return Err(refused());
    };
    push_span_twice(out, span)
}

// Answers the refusal as it is. It is cold, which tells the compiler that this way is cold.
#[cold]
fn refused_with(error: FormatError) -> FormatError
    ensures { result ≡ error }
{
    error
}

/// Appends the line of the JSON format that an event has in one span, with no other part than time, level and target. It's the line
/// that [`push_json_line`](crate::push_json_line) appends of them, in fewer steps.
///
/// # Errors
///
/// A value that can't be formatted, or out of memory. What was appended before is to be dropped.
#[inline(never)]
pub fn push_json_line_in_span<R: RecordFields>(
    out: &mut String,
    time: &str,
    level: Level,
    target: &str,
    span: &ShownSpan<'_>,
    fields: &R,
) -> Result<(), FormatError>
    ensures { Formats (json_line default_shape (usual_head time.now level target.now) (plain_shown span.now ∷ [])
        (R.values fields.now)) (string_bytes out.old) result (string_bytes out.new) }
{
    let Ok(()) = begin(out, time, level) else {
        return Err(refused_with(FormatError::OutOfMemory));
    };
    if let Err(error) = push_json_members(out, true, fields) {
        return Err(refused_with(error));
    }
    let Ok(()) = end(out, target, span) else {
        return Err(refused_with(FormatError::OutOfMemory));
    };
    Ok(())
}
