//! The full format: spans with their texts, and then the event.
ghost use Rattle.std.specs.Prelude.{◌≡◌, ◌<◌, ◌++◌, OnOk, codes, length, string_bytes};
ghost use Rattle.std.specs.Fmt.{decimal};
ghost use Rattle.std.specs.List.{flat_map};
ghost use Rattle.std.specs.Option.{is_some, option_map};
ghost use Rattle.event_formatter_text.specs.Lists.{Formats};
ghost use Rattle.event_formatter_text.specs.Styles.{dimmed};
ghost use Rattle.event_formatter_lines.specs.Full.{braced, file_piece, full_head, full_line, line_piece, span_piece, spans_text};
ghost use Rattle.event_formatter_lines.specs.Full.{target_piece};
ghost use Rattle.event_formatter_lines.specs.Heads.{plain_head};
ghost use Rattle.event_formatter_lines.specs.Shown.{span_at};

use crate::fields::push_fields;
use crate::head::{Head, push_level, push_plain, push_time, refused};
use crate::shown::{ShownSpans, push_name_in_chain};
use event_formatter_text::{
    FormatError, FormatFields, RecordFields, Settings, push_bold, push_dimmed,
};
use itoa::Buffer;
use std::alloc::{AllocError, Global};

// Appends a span's text between braces, where it isn't empty.
fn push_braced(out: &mut String, settings: Settings, text: &str) -> Result<(), AllocError>
    ensures { OnOk result (string_bytes out.new ≡ string_bytes out.old ++ braced settings text.now) }
{
    if text.is_empty() {
        return Ok(());
    }
    push_bold(out, settings, "{")?;
    out.push_str(text)?;
    push_bold(out, settings, "}")
}

// Appends a span's text between braces, where it isn't empty, and a colon. Without styles the last brace and the colon are
// one text.
#[inline(always)]
#[tactic(auto, unfolding(event_formatter_text::specs::Styles::styled))]
fn push_text(out: &mut String, settings: Settings, text: &str) -> Result<(), AllocError>
    ensures { OnOk result (string_bytes out.new ≡ string_bytes out.old
        ++ (braced settings text.now ++ dimmed settings (codes ":"))) }
{
    if settings.styles {
        push_braced(out, settings, text)?;
        return push_dimmed(out, settings, ":");
    }
    if text.is_empty() {
        return out.push(':');
    }
    let Ok(()) = out.push('{') else {
        return Err(refused());
    };
    let Ok(()) = out.push_str(text) else {
        return Err(refused());
    };
    let Ok(()) = out.push('}') else {
        return Err(refused());
    };
    out.push(':')
}

// Appends a span: its name, its text and a colon.
#[tactic(auto, unfolding(crate::specs::Full::span_piece))]
fn push_span<S: ShownSpans>(
    out: &mut String,
    settings: Settings,
    spans: &S,
    index: usize,
) -> Result<(), AllocError>
    requires { index < length (S.spans spans.now) }
    ensures { OnOk result (string_bytes out.new ≡ string_bytes out.old
        ++ span_piece settings (span_at (S.spans spans.now) index)) }
{
    let span = spans.span(index);
    push_name_in_chain(out, settings, &span)?;
    push_text(out, settings, span.text)
}

// Appends each of the spans.
fn push_each_span<S: ShownSpans>(
    out: &mut String,
    settings: Settings,
    spans: &S,
) -> Result<(), AllocError>
    ensures { OnOk result (string_bytes out.new ≡ string_bytes out.old
        ++ flat_map (span_piece settings) (S.spans spans.now)) }
{
    for index in 0..spans.count() {
        push_span(out, settings, spans, index)?;
    }
    Ok(())
}

/// Appends the spans, and a space where there are any.
///
/// # Errors
///
/// Out of memory. What was appended before is to be dropped.
#[inline(always)]
pub fn push_spans<S: ShownSpans>(
    out: &mut String,
    settings: Settings,
    spans: &S,
) -> Result<(), AllocError>
    ensures { OnOk result (string_bytes out.new ≡ string_bytes out.old ++ spans_text settings (S.spans spans.now)) }
{
    if spans.count() == 0 {
        return Ok(());
    }
    push_each_span(out, settings, spans)?;
    out.push(' ')
}

// Appends the target, a colon and a space.
#[inline(always)]
fn push_plain_target(out: &mut String, target: &str) -> Result<(), AllocError>
    ensures { OnOk result (string_bytes out.new ≡ string_bytes out.old ++ (target.now ++ (codes ":" ++ codes " "))) }
{
    let Ok(()) = out.push_str(target) else {
        return Err(refused());
    };
    let Ok(()) = out.push(':') else {
        return Err(refused());
    };
    out.push(' ')
}

// Appends the target, a colon and a space, in their styles.
#[inline(never)]
fn push_target_in_style(
    out: &mut String,
    settings: Settings,
    target: &str,
) -> Result<(), AllocError>
    ensures { OnOk result (string_bytes out.new ≡ string_bytes out.old
        ++ (dimmed settings target.now ++ (dimmed settings (codes ":") ++ codes " "))) }
{
    push_dimmed(out, settings, target)?;
    push_dimmed(out, settings, ":")?;
    out.push(' ')
}

/// Appends the target, where there is one, a colon and a space.
///
/// # Errors
///
/// Out of memory. What was appended before is to be dropped.
#[inline(always)]
#[tactic(auto, unfolding(event_formatter_text::specs::Styles::styled))]
pub fn push_target(
    out: &mut String,
    settings: Settings,
    target: Option<&str>,
) -> Result<(), AllocError>
    ensures { OnOk result (string_bytes out.new ≡ string_bytes out.old
        ++ target_piece settings (option_map (λ text. text.now) target.entry)) }
{
    let Some(target) = target else {
        return Ok(());
    };
    if settings.styles {
        return push_target_in_style(out, settings, target);
    }
    push_plain_target(out, target)
}

// Appends the file, and a space where no line's number follows.
#[inline(always)]
fn push_file(
    out: &mut String,
    settings: Settings,
    file: Option<&str>,
    has_line: bool,
) -> Result<(), AllocError>
    ensures { OnOk result (string_bytes out.new ≡ string_bytes out.old
        ++ file_piece settings has_line (option_map (λ text. text.now) file.entry)) }
{
    let Some(file) = file else {
        return Ok(());
    };
    push_dimmed(out, settings, file)?;
    push_dimmed(out, settings, ":")?;
    if has_line {
        return Ok(());
    }
    out.push(' ')
}

// Appends the line's number with a colon.
fn push_number(out: &mut String, line: u32) -> Result<(), AllocError>
    ensures { OnOk result (string_bytes out.new ≡ string_bytes out.old ++ (decimal line ++ codes ":")) }
{
    let mut buffer = Buffer::new();
    out.push_str(buffer.format(line))?;
    out.push(':')
}

// Appends the line's number with a colon, which are one piece.
#[tactic(auto, unfolding(event_formatter_text::specs::Styles::styled))]
fn push_dimmed_number(out: &mut String, settings: Settings, line: u32) -> Result<(), AllocError>
    ensures { OnOk result (string_bytes out.new ≡ string_bytes out.old
        ++ dimmed settings (decimal line ++ codes ":")) }
{
    if !settings.styles {
        return push_number(out, line);
    }
    out.push_str("\u{1b}[2m")?;
    push_number(out, line)?;
    out.push_str("\u{1b}[0m")
}

// Appends the line's number, where it is known, and a space.
#[inline(always)]
fn push_line(out: &mut String, settings: Settings, line: Option<u32>) -> Result<(), AllocError>
    ensures { OnOk result (string_bytes out.new ≡ string_bytes out.old ++ line_piece settings line) }
{
    let Some(line) = line else {
        return Ok(());
    };
    push_dimmed_number(out, settings, line)?;
    out.push(' ')
}

/// Appends the file and the line's number, where they are known, and a space.
///
/// # Errors
///
/// Out of memory. What was appended before is to be dropped.
pub fn push_place(
    out: &mut String,
    settings: Settings,
    file: Option<&str>,
    line: Option<u32>,
) -> Result<(), AllocError>
    ensures { OnOk result (string_bytes out.new ≡ string_bytes out.old
        ++ (file_piece settings (is_some line) (option_map (λ text. text.now) file.entry) ++ line_piece settings line)) }
{
    push_file(out, settings, file, line.is_some())?;
    push_line(out, settings, line)
}

/// Appends what stands before an event's fields: time, level, thread, the spans with their texts, target, file and line.
///
/// # Errors
///
/// Out of memory. What was appended before is to be dropped.
pub fn push_full_head<S: ShownSpans>(
    out: &mut String,
    settings: Settings,
    head: &Head<'_>,
    spans: &S,
) -> Result<(), AllocError>
    ensures { OnOk result (string_bytes out.new ≡ string_bytes out.old
        ++ full_head settings (plain_head head.now) (S.spans spans.now)) }
{
    push_time(out, settings, head.time)?;
    push_level(out, settings, head.level)?;
    push_plain(out, head.thread_name)?;
    push_plain(out, head.thread_id)?;
    push_spans(out, settings, spans)?;
    push_target(out, settings, head.target)?;
    push_file(out, settings, head.file, head.line.is_some())?;
    push_line(out, settings, head.line)
}

/// Appends a line of the full format.
///
/// # Errors
///
/// A value that can't be formatted, or out of memory. What was appended before is to be dropped.
#[tactic(auto, using(crate::proofs::Frames::framed, crate::proofs::Frames::refused))]
pub fn push_full_line<S: ShownSpans, F: FormatFields, R: RecordFields>(
    alloc: Global,
    out: &mut String,
    settings: Settings,
    head: &Head<'_>,
    spans: &S,
    formatter: &F,
    fields: &R,
) -> Result<(), FormatError>
    ensures { Formats (full_line settings (plain_head head.now) (S.spans spans.now)
        (F.text_of formatter.now settings (R.values fields.now))) (string_bytes out.old) result (string_bytes out.new) }
{
    push_full_head(out, settings, head, spans)?;
    push_fields(alloc, out, settings, formatter, fields)?;
    out.push('\n')?;
    Ok(())
}
