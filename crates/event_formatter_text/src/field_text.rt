//! The texts of single fields.
ghost use Rattle.std.specs.Prelude.{◌≡◌, ◌++◌, [], OnOk, codes, if◌then◌else◌, map, string_bytes, unwrap_or};
ghost use Rattle.tracing_core_fields.specs.DebugText.{plain_debug};
ghost use Rattle.tracing_core_fields.specs.ErrorText.{error_text, source_texts};
ghost use Rattle.tracing_core_fields.specs.PlainDebug.{bytes_text};
ghost use Rattle.tracing_core_fields.specs.Quoted.{quoted};
ghost use Rattle.tracing_core_fields.specs.Texts.{texts_in};
ghost use Rattle.std.specs.Fmt.{decimal};
ghost use Rattle.std.specs.Option.{option_map};
ghost use Rattle.event_formatter_text.specs.FieldTexts.{field_piece, is_message, label, mark, plain_name, separator, shown, shown_later};
ghost use Rattle.event_formatter_text.specs.FieldTexts.{shown_list, sources_label, sources_text, truth_text, value_text};
ghost use Rattle.event_formatter_text.specs.Lists.{FormatsOne, further};
ghost use Rattle.event_formatter_text.specs.Styles.{dimmed};

use crate::cold_path::{out_of_memory, refused};
use crate::error::FormatError;
use crate::escape::{Escape, has_special, push_each, push_quoted};
use crate::settings::Settings;
use crate::style::{push_dimmed, push_italic};
use itoa::{Buffer, Integer};
use std::alloc::AllocError;
use std::convert::AsStr;
use tracing_core_fields::{DebugText, ErrorText, Texts};

/// How fields are told apart in a text.
#[derive(Clone, Copy, Debug, PartialEq, Eq)]
pub(crate) enum Punctuation {
    /// `name=value`, a space between two fields.
    Default,
    /// `name: value`, a comma and a space between two fields.
    Pretty,
}

// Appends what stands between two fields. Each text is pushed by itself, which is cheaper than one of an unknown length.
#[inline(always)]
fn push_separator(out: &mut String, punctuation: Punctuation) -> Result<(), AllocError>
    ensures { OnOk result (string_bytes out.new ≡ string_bytes out.old ++ separator punctuation) }
{
    match punctuation {
        Punctuation::Default => out.push(' '),
        Punctuation::Pretty => out.push_str(", "),
    }
}

// Appends what stands between a field's name and its value.
#[inline(always)]
#[tactic(auto, unfolding(crate::specs::Styles::styled))]
fn push_mark(
    out: &mut String,
    settings: Settings,
    punctuation: Punctuation,
) -> Result<(), AllocError>
    ensures { OnOk result (string_bytes out.new ≡ string_bytes out.old ++ dimmed settings (mark punctuation)) }
{
    match punctuation {
        Punctuation::Default => {
            if settings.styles {
                return push_dimmed(out, settings, "=");
            }
            out.push('=')
        }
        Punctuation::Pretty => push_dimmed(out, settings, ": "),
    }
}

/// Whether it is the name of a message. Its bytes are compared in place, and by one branch, since each field is asked.
#[inline(always)]
pub(crate) fn is_message(name: &str) -> bool
    ensures { result ≡ is_message name.now }
{
    let bytes = name.as_bytes();
    bytes.len() == 7
        && (bytes[0] == b'm')
            & (bytes[1] == b'e')
            & (bytes[2] == b's')
            & (bytes[3] == b's')
            & (bytes[4] == b'a')
            & (bytes[5] == b'g')
            & (bytes[6] == b'e')
}

/// The name without a leading `r#`.
#[tactic(auto, unfolding(crate::specs::FieldTexts::plain_name))]
pub(crate) fn plain_name(name: &str) -> &str
    ensures { result.now ≡ plain_name name.now }
{
    match name.strip_prefix("r#") {
        Some(rest) => rest,
        None => name,
    }
}

/// Appends a number in decimal digits.
#[inline(never)]
pub(crate) fn push_number<I: Integer>(out: &mut String, number: I) -> Result<(), AllocError>
    ensures { OnOk result (string_bytes out.new ≡ string_bytes out.old ++ I.text number) }
{
    let mut buffer = Buffer::new();
    out.push_str(buffer.format(number))
}

/// Appends a number in decimal digits. One that is a single digit is pushed as that.
#[inline(always)]
pub(crate) fn push_unsigned(out: &mut String, number: u64) -> Result<(), AllocError>
    ensures { OnOk result (string_bytes out.new ≡ string_bytes out.old ++ decimal number) }
{
    if number < 10 {
        return out.push((b'0' + number as u8) as char);
    }
    push_number(out, number)
}

/// Appends `true` or `false`.
pub(crate) fn push_bool(out: &mut String, truth: bool) -> Result<(), AllocError>
    ensures { OnOk result (string_bytes out.new ≡ string_bytes out.old ++ truth_text truth) }
{
    out.push_str(if truth { "true" } else { "false" })
}

/// Appends a text as a message or an error shows it.
#[inline(always)]
#[tactic(auto, unfolding(crate::specs::FieldTexts::shown))]
pub(crate) fn push_shown(out: &mut String, settings: Settings, text: &str) -> Result<(), AllocError>
    ensures { OnOk result (string_bytes out.new ≡ string_bytes out.old ++ shown settings text.now) }
{
    if settings.sanitizes && has_special(Escape::Sanitized, text.as_bytes()) {
        return push_each(out, Escape::Sanitized, text);
    }
    out.push_str(text)
}

// Appends the texts, `, ` before each.
fn push_shown_later<S: AsStr>(
    out: &mut String,
    settings: Settings,
    texts: &[S],
) -> Result<(), AllocError>
    ensures { OnOk result (string_bytes out.new ≡ string_bytes out.old
        ++ shown_later settings (map S.text texts.now)) }
{
    for text in texts {
        out.push_str(", ")?;
        push_shown(out, settings, text.as_str())?;
    }
    Ok(())
}

// Appends the texts, `, ` between each two.
fn push_shown_list<S: AsStr>(
    out: &mut String,
    settings: Settings,
    texts: &[S],
) -> Result<(), AllocError>
    ensures { OnOk result (string_bytes out.new ≡ string_bytes out.old
        ++ shown_list settings (map S.text texts.now)) }
{
    let [first, later @ ..] = texts else {
        return Ok(());
    };
    push_shown(out, settings, first.as_str())?;
    push_shown_later(out, settings, later)
}

// Appends the texts, `, ` between each two, however they are lent.
fn push_shown_texts(
    out: &mut String,
    settings: Settings,
    texts: &Texts<'_>,
) -> Result<(), AllocError>
    ensures { OnOk result (string_bytes out.new ≡ string_bytes out.old ++ shown_list settings (texts_in texts.now)) }
{
    match texts {
        Texts::Lent(texts) => push_shown_list(out, settings, texts),
        Texts::Owned(texts) => push_shown_list(out, settings, texts),
    }
}

// Appends what stands before a field's value. Whether the field is the message is asked once, by whoever calls.
#[inline(always)]
fn push_label(
    out: &mut String,
    settings: Settings,
    punctuation: Punctuation,
    in_message: bool,
    name: &str,
) -> Result<(), AllocError>
    requires { in_message ≡ is_message name.now }
    ensures { OnOk result (string_bytes out.new ≡ string_bytes out.old ++ label settings punctuation name.now) }
{
    if in_message {
        return Ok(());
    }
    let Ok(()) = push_italic(out, settings, plain_name(name)) else {
        return Err(refused());
    };
    push_mark(out, settings, punctuation)
}

// Appends a text that was written before.
#[inline(always)]
fn push_own(
    out: &mut String,
    settings: Settings,
    in_message: bool,
    text: &str,
) -> Result<(), AllocError>
    ensures { OnOk result (string_bytes out.new ≡ string_bytes out.old
        ++ (if in_message then shown settings text.now else text.now)) }
{
    if in_message {
        push_shown(out, settings, text)
    } else {
        out.push_str(text)
    }
}

// Appends a text: itself in a message, else between quotes.
#[inline(always)]
fn push_text(
    out: &mut String,
    settings: Settings,
    in_message: bool,
    text: &str,
) -> Result<(), AllocError>
    ensures { OnOk result (string_bytes out.new ≡ string_bytes out.old
        ++ (if in_message then shown settings text.now else quoted text.now)) }
{
    if in_message {
        push_shown(out, settings, text)
    } else {
        push_quoted(out, text)
    }
}

// Appends what stands before the texts of an error's sources.
fn push_sources_label(
    out: &mut String,
    settings: Settings,
    punctuation: Punctuation,
    name: &str,
) -> Result<(), AllocError>
    ensures { OnOk result (string_bytes out.new ≡ string_bytes out.old
        ++ sources_label settings punctuation name.now) }
{
    push_italic(out, settings, plain_name(name))?;
    push_italic(out, settings, ".sources")?;
    push_mark(out, settings, punctuation)
}

// Appends what stands behind an error's text.
fn push_sources(
    out: &mut String,
    settings: Settings,
    punctuation: Punctuation,
    name: &str,
    sources: &Texts<'_>,
) -> Result<(), AllocError>
    ensures { OnOk result (string_bytes out.new ≡ string_bytes out.old
        ++ sources_text settings punctuation name.now (texts_in sources.now)) }
{
    if sources.is_empty() {
        return Ok(());
    }
    push_separator(out, punctuation)?;
    push_sources_label(out, settings, punctuation, name)?;
    out.push('[')?;
    push_shown_texts(out, settings, sources)?;
    out.push(']')
}

// Appends an error's text, and those of its sources.
#[inline(never)]
fn push_error(
    out: &mut String,
    settings: Settings,
    punctuation: Punctuation,
    name: &str,
    error: &ErrorText<'_>,
) -> Result<(), AllocError>
    ensures { OnOk result (string_bytes out.new ≡ string_bytes out.old ++ (shown settings (error_text error.now)
        ++ sources_text settings punctuation name.now (source_texts error.now))) }
{
    push_shown(out, settings, error.text())?;
    push_sources(out, settings, punctuation, name, &error.sources())
}

// Appends bytes in brackets.
#[inline(never)]
fn push_bytes(out: &mut String, bytes: &[u8]) -> Result<(), AllocError>
    ensures { OnOk result (string_bytes out.new ≡ string_bytes out.old ++ bytes_text bytes.now) }
{
    write!(out, "{:?}", DebugText::Bytes(bytes))
}

// Appends what stands for a value; nothing for one that can't be formatted.
#[inline(never)]
fn push_any_value(
    out: &mut String,
    settings: Settings,
    punctuation: Punctuation,
    in_message: bool,
    name: &str,
    value: &DebugText<'_>,
) -> Result<(), AllocError>
    requires { in_message ≡ is_message name.now }
    ensures { OnOk result (string_bytes out.new ≡ string_bytes out.old
        ++ unwrap_or (value_text settings punctuation name.now (plain_debug value.now)) []) }
{
    match value {
        DebugText::Texts { plain, .. } => push_own(out, settings, in_message, plain),
        DebugText::Failing => Ok(()),
        DebugText::I64(number) => push_number(out, *number),
        DebugText::U64(number) => push_number(out, *number),
        DebugText::I128(number) => push_number(out, *number),
        DebugText::U128(number) => push_number(out, *number),
        DebugText::Bool(truth) => push_bool(out, *truth),
        DebugText::Str(text) => push_text(out, settings, in_message, text),
        DebugText::Bytes(bytes) => push_bytes(out, bytes),
        DebugText::Error(error) => push_error(out, settings, punctuation, name, error),
    }
}

// The same. What most values are is inlined where it is asked for, and all else stands out of line.
#[inline(always)]
fn push_value(
    out: &mut String,
    settings: Settings,
    punctuation: Punctuation,
    in_message: bool,
    name: &str,
    value: &DebugText<'_>,
) -> Result<(), AllocError>
    requires { in_message ≡ is_message name.now }
    ensures { OnOk result (string_bytes out.new ≡ string_bytes out.old
        ++ unwrap_or (value_text settings punctuation name.now (plain_debug value.now)) []) }
{
    match value {
        DebugText::U64(number) => push_unsigned(out, *number),
        DebugText::Str(text) => push_text(out, settings, in_message, text),
        other => push_any_value(out, settings, punctuation, in_message, name, other),
    }
}

/// Appends a field, behind the separator unless it is the first; nothing of one that can't be formatted.
#[inline(always)]
pub(crate) fn push_field(
    out: &mut String,
    settings: Settings,
    punctuation: Punctuation,
    is_first: bool,
    name: &str,
    value: &DebugText<'_>,
) -> Result<(), FormatError>
    ensures { FormatsOne (option_map (further (separator punctuation) is_first)
        (field_piece settings punctuation name.now (plain_debug value.now)))
        (string_bytes out.old) result (string_bytes out.new) }
{
    if matches!(value, DebugText::Failing) {
        return Err(FormatError::Failed);
    }
    if !is_first {
        let Ok(()) = push_separator(out, punctuation) else {
            return Err(out_of_memory());
        };
    }
    let in_message = is_message(name);
    let Ok(()) = push_label(out, settings, punctuation, in_message, name) else {
        return Err(out_of_memory());
    };
    let Ok(()) = push_value(out, settings, punctuation, in_message, name, value) else {
        return Err(out_of_memory());
    };
    Ok(())
}
