//! Values as JSON.
ghost use Rattle.std.specs.Prelude.{◌≡◌, ◌++◌, [], OnOk, codes, string_bytes, unwrap_or};
ghost use Rattle.std.specs.Option.{option_map};
ghost use Rattle.tracing_core_fields.specs.DebugText.{plain_debug};
ghost use Rattle.event_formatter_text.specs.Escapes.{json_string};
ghost use Rattle.event_formatter_text.specs.FieldTexts.{plain_name};
ghost use Rattle.event_formatter_text.specs.JsonTexts.{json_piece, json_value, later_numbers, numbers_inside};
ghost use Rattle.event_formatter_text.specs.Lists.{FormatsOne, further};

use crate::error::FormatError;
use crate::escape::{push_json_rest, push_json_string};
use crate::field_text::{is_message, plain_name, push_bool, push_number, push_unsigned};
use itoa::Integer;
use std::alloc::AllocError;
use tracing_core_fields::DebugText;

// Appends numbers, a comma before each.
fn push_later_numbers(out: &mut String, numbers: &[u8]) -> Result<(), AllocError>
    ensures { OnOk result (string_bytes out.new ≡ string_bytes out.old ++ later_numbers numbers.now) }
{
    for number in numbers {
        out.push(',')?;
        push_number(out, *number)?;
    }
    Ok(())
}

// Appends numbers, a comma between each two.
fn push_numbers(out: &mut String, numbers: &[u8]) -> Result<(), AllocError>
    ensures { OnOk result (string_bytes out.new ≡ string_bytes out.old ++ numbers_inside numbers.now) }
{
    let [first, later @ ..] = numbers else {
        return Ok(());
    };
    push_number(out, *first)?;
    push_later_numbers(out, later)
}

// Appends an array of numbers.
#[inline(never)]
fn push_array(out: &mut String, numbers: &[u8]) -> Result<(), AllocError>
    ensures { OnOk result (string_bytes out.new ≡ string_bytes out.old
        ++ (codes "[" ++ numbers_inside numbers.now ++ codes "]")) }
{
    out.push('[')?;
    push_numbers(out, numbers)?;
    out.push(']')
}

// Appends a number between quotes.
#[inline(never)]
fn push_quoted_number<I: Integer>(out: &mut String, number: I) -> Result<(), AllocError>
    ensures { OnOk result (string_bytes out.new ≡ string_bytes out.old
        ++ (codes "\"" ++ I.text number ++ codes "\"")) }
{
    out.push('"')?;
    push_number(out, number)?;
    out.push('"')
}

/// Appends what stands for a value; nothing for one that can't be formatted.
#[inline(always)]
pub(crate) fn push_json_value(out: &mut String, value: &DebugText<'_>) -> Result<(), AllocError>
    ensures { OnOk result (string_bytes out.new ≡ string_bytes out.old
        ++ unwrap_or (json_value (plain_debug value.now)) []) }
{
    match value {
        DebugText::Texts { plain, .. } => push_json_string(out, plain),
        DebugText::Failing => Ok(()),
        DebugText::I64(number) => push_number(out, *number),
        DebugText::U64(number) => push_unsigned(out, *number),
        DebugText::I128(number) => push_quoted_number(out, *number),
        DebugText::U128(number) => push_quoted_number(out, *number),
        DebugText::Bool(truth) => push_bool(out, *truth),
        DebugText::Str(text) => push_json_string(out, text),
        DebugText::Bytes(bytes) => push_array(out, bytes),
        DebugText::Error(error) => push_json_string(out, error.text()),
    }
}

// Appends a field's name as a key and a colon, behind a comma unless it is the first.
#[inline(always)]
#[tactic(auto, unfolding(crate::specs::Escapes::json_string))]
fn push_key(out: &mut String, is_first: bool, name: &str) -> Result<(), AllocError>
    ensures { OnOk result (string_bytes out.new ≡ string_bytes out.old
        ++ further (codes ",") is_first (json_string (plain_name name.now) ++ codes ":")) }
{
    if is_first {
        out.push('"')?;
    } else {
        out.push_str(",\"")?;
    }
    push_json_rest(out, plain_name(name))?;
    out.push(':')
}

// Appends the key of a message, a colon, and the quote that begins its text.
#[inline(always)]
fn push_message_key(out: &mut String, is_first: bool) -> Result<(), AllocError>
    ensures { OnOk result (string_bytes out.new ≡ string_bytes out.old
        ++ further (codes ",") is_first (codes "\"message\":\"")) }
{
    if is_first {
        out.push_str("\"message\":\"")
    } else {
        out.push_str(",\"message\":\"")
    }
}

// Appends a key, a colon, and the quote that begins a text. For a message, which most events have, they are one text.
#[inline(always)]
fn push_text_key(out: &mut String, is_first: bool, name: &str) -> Result<(), AllocError>
    ensures { OnOk result (string_bytes out.new ≡ string_bytes out.old
        ++ further (codes ",") is_first (json_string (plain_name name.now) ++ codes ":\"")) }
{
    if is_message(name) {
        return push_message_key(out, is_first);
    }
    push_key(out, is_first, name)?;
    out.push('"')
}

// Appends a field with a text as a member.
#[inline(always)]
fn push_text_member(
    out: &mut String,
    is_first: bool,
    name: &str,
    text: &str,
) -> Result<(), AllocError>
    ensures { OnOk result (string_bytes out.new ≡ string_bytes out.old
        ++ further (codes ",") is_first (json_string (plain_name name.now) ++ codes ":" ++ json_string text.now)) }
{
    push_text_key(out, is_first, name)?;
    push_json_rest(out, text)
}

/// Appends a field as a member, behind a comma unless it is the first; nothing of one that can't be formatted.
#[inline(always)]
pub(crate) fn push_member(
    out: &mut String,
    is_first: bool,
    name: &str,
    value: &DebugText<'_>,
) -> Result<(), FormatError>
    ensures { FormatsOne (option_map (further (codes ",") is_first) (json_piece name.now (plain_debug value.now)))
        (string_bytes out.old) result (string_bytes out.new) }
{
    if matches!(value, DebugText::Failing) {
        return Err(FormatError::Failed);
    }
    if let DebugText::Str(text) = value {
        push_text_member(out, is_first, name, text)?;
        return Ok(());
    }
    push_key(out, is_first, name)?;
    push_json_value(out, value)?;
    Ok(())
}
