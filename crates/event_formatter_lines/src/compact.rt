//! The compact format: the spans' names, the event, and then the spans' texts.
ghost use Rattle.std.specs.Prelude.{◌≡◌, ◌<◌, ◌++◌, OnOk, length, string_bytes};
ghost use Rattle.std.specs.List.{flat_map};
ghost use Rattle.std.specs.Option.{option_map};
ghost use Rattle.event_formatter_text.specs.Lists.{Formats};
ghost use Rattle.event_formatter_lines.specs.Compact.{behind_space, compact_head, compact_line, compact_tail, file_text, line_text};
ghost use Rattle.event_formatter_lines.specs.Compact.{name_piece, names_text, places_text, shows_place, space_if, text_piece, with_colon};
ghost use Rattle.event_formatter_lines.specs.Heads.{plain_head};
ghost use Rattle.event_formatter_lines.specs.Shown.{span_at};

use crate::fields::push_fields;
use crate::head::{Head, push_level, push_plain, push_time};
use crate::shown::{ShownSpans, push_name_in_chain};
use event_formatter_text::{FormatError, FormatFields, RecordFields, Settings, push_dimmed};
use itoa::Buffer;
use std::alloc::{AllocError, Global};

// Appends a span's name and a colon.
#[tactic(auto, unfolding(crate::specs::Compact::name_piece))]
fn push_name<S: ShownSpans>(
    out: &mut String,
    settings: Settings,
    spans: &S,
    index: usize,
) -> Result<(), AllocError>
    requires { index < length (S.spans spans.now) }
    ensures { OnOk result (string_bytes out.new ≡ string_bytes out.old
        ++ name_piece settings (span_at (S.spans spans.now) index)) }
{
    let span = spans.span(index);
    push_name_in_chain(out, settings, &span)?;
    out.push(':')
}

// Appends the name of each of the spans.
fn push_each_name<S: ShownSpans>(
    out: &mut String,
    settings: Settings,
    spans: &S,
) -> Result<(), AllocError>
    ensures { OnOk result (string_bytes out.new ≡ string_bytes out.old
        ++ flat_map (name_piece settings) (S.spans spans.now)) }
{
    for index in 0..spans.count() {
        push_name(out, settings, spans, index)?;
    }
    Ok(())
}

// Appends the names of the spans, and a space where there are any.
fn push_names<S: ShownSpans>(
    out: &mut String,
    settings: Settings,
    spans: &S,
) -> Result<(), AllocError>
    ensures { OnOk result (string_bytes out.new ≡ string_bytes out.old ++ names_text settings (S.spans spans.now)) }
{
    if spans.count() == 0 {
        return Ok(());
    }
    push_each_name(out, settings, spans)?;
    out.push(' ')
}

// Appends a text and a colon, where there is one.
fn push_with_colon(
    out: &mut String,
    settings: Settings,
    text: Option<&str>,
) -> Result<(), AllocError>
    ensures { OnOk result (string_bytes out.new ≡ string_bytes out.old
        ++ with_colon settings (option_map (λ text. text.now) text.entry)) }
{
    let Some(text) = text else {
        return Ok(());
    };
    push_dimmed(out, settings, text)?;
    push_dimmed(out, settings, ":")
}

fn push_space_if(out: &mut String, is_due: bool) -> Result<(), AllocError>
    ensures { OnOk result (string_bytes out.new ≡ string_bytes out.old ++ space_if is_due) }
{
    if !is_due {
        return Ok(());
    }
    out.push(' ')
}

// Appends the file, behind a space where the target is shown.
fn push_file(
    out: &mut String,
    settings: Settings,
    file: Option<&str>,
    has_target: bool,
) -> Result<(), AllocError>
    ensures { OnOk result (string_bytes out.new ≡ string_bytes out.old
        ++ file_text settings has_target (option_map (λ text. text.now) file.entry)) }
{
    let Some(file) = file else {
        return Ok(());
    };
    push_space_if(out, has_target)?;
    push_with_colon(out, settings, Some(file))
}

// Appends the line's number, where it is known.
fn push_line(out: &mut String, settings: Settings, line: Option<u32>) -> Result<(), AllocError>
    ensures { OnOk result (string_bytes out.new ≡ string_bytes out.old ++ line_text settings line) }
{
    let Some(line) = line else {
        return Ok(());
    };
    let mut buffer = Buffer::new();
    push_dimmed(out, settings, buffer.format(line))?;
    push_dimmed(out, settings, ":")
}

// Whether the target, the file or the line is shown.
fn shows_place(head: &Head<'_>) -> bool
    ensures { result ≡ shows_place (plain_head head.now) }
{
    head.target.is_some() || head.file.is_some() || head.line.is_some()
}

// Appends target, file and line, and a space where one of them is shown.
#[tactic(auto, unfolding(crate::specs::Compact::places_text))]
fn push_places(out: &mut String, settings: Settings, head: &Head<'_>) -> Result<(), AllocError>
    ensures { OnOk result (string_bytes out.new ≡ string_bytes out.old
        ++ places_text settings (plain_head head.now)) }
{
    push_with_colon(out, settings, head.target)?;
    push_file(out, settings, head.file, head.target.is_some())?;
    push_line(out, settings, head.line)?;
    push_space_if(out, shows_place(head))
}

/// Appends what stands before an event's fields: time, level, thread, the spans' names, target, file and line.
///
/// # Errors
///
/// Out of memory. What was appended before is to be dropped.
pub fn push_compact_head<S: ShownSpans>(
    out: &mut String,
    settings: Settings,
    head: &Head<'_>,
    spans: &S,
) -> Result<(), AllocError>
    ensures { OnOk result (string_bytes out.new ≡ string_bytes out.old
        ++ compact_head settings (plain_head head.now) (S.spans spans.now)) }
{
    push_time(out, settings, head.time)?;
    push_level(out, settings, head.level)?;
    push_plain(out, head.thread_name)?;
    push_plain(out, head.thread_id)?;
    push_names(out, settings, spans)?;
    push_places(out, settings, head)
}

// Appends a span's text behind a space, where it isn't empty.
fn push_behind_space(out: &mut String, settings: Settings, text: &str) -> Result<(), AllocError>
    ensures { OnOk result (string_bytes out.new ≡ string_bytes out.old ++ behind_space settings text.now) }
{
    if text.is_empty() {
        return Ok(());
    }
    out.push(' ')?;
    push_dimmed(out, settings, text)
}

// Appends a span's text.
#[tactic(auto, unfolding(crate::specs::Compact::text_piece))]
fn push_text<S: ShownSpans>(
    out: &mut String,
    settings: Settings,
    spans: &S,
    index: usize,
) -> Result<(), AllocError>
    requires { index < length (S.spans spans.now) }
    ensures { OnOk result (string_bytes out.new ≡ string_bytes out.old
        ++ text_piece settings (span_at (S.spans spans.now) index)) }
{
    push_behind_space(out, settings, spans.span(index).text)
}

// Appends the text of each of the spans.
fn push_each_text<S: ShownSpans>(
    out: &mut String,
    settings: Settings,
    spans: &S,
) -> Result<(), AllocError>
    ensures { OnOk result (string_bytes out.new ≡ string_bytes out.old
        ++ flat_map (text_piece settings) (S.spans spans.now)) }
{
    for index in 0..spans.count() {
        push_text(out, settings, spans, index)?;
    }
    Ok(())
}

// Appends the texts of the spans, and the line's end.
fn push_tail<S: ShownSpans>(
    out: &mut String,
    settings: Settings,
    spans: &S,
) -> Result<(), AllocError>
    ensures { OnOk result (string_bytes out.new ≡ string_bytes out.old ++ compact_tail settings (S.spans spans.now)) }
{
    push_each_text(out, settings, spans)?;
    out.push('\n')
}

/// Appends a line of the compact format. It names the spans of `loose`, and shows the texts of those of `strict`.
///
/// # Errors
///
/// A value that can't be formatted, or out of memory. What was appended before is to be dropped.
pub fn push_compact_line<S: ShownSpans, F: FormatFields, R: RecordFields>(
    alloc: Global,
    out: &mut String,
    settings: Settings,
    head: &Head<'_>,
    loose: &S,
    strict: &S,
    formatter: &F,
    fields: &R,
) -> Result<(), FormatError>
    ensures { Formats (compact_line settings (plain_head head.now) (S.spans loose.now) (S.spans strict.now)
        (F.text_of formatter.now settings (R.values fields.now))) (string_bytes out.old) result (string_bytes out.new) }
{
    push_compact_head(out, settings, head, loose)?;
    push_fields(alloc, out, settings, formatter, fields)?;
    push_tail(out, settings, strict)?;
    Ok(())
}
