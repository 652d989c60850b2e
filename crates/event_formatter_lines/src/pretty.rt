//! The pretty format: several lines for an event, without styles.
ghost use Rattle.std.specs.Prelude.{◌≡◌, ◌<◌, ◌||◌, ◌++◌, OnOk, codes, length, string_bytes};
ghost use Rattle.std.specs.Fmt.{decimal};
ghost use Rattle.std.specs.Option.{option_map};
ghost use Rattle.event_formatter_text.specs.Lists.{Formats};
ghost use Rattle.event_formatter_lines.specs.Heads.{plain_head};
ghost use Rattle.event_formatter_lines.specs.Pretty.{file_part, from_leaf, id_part, level_part, line_part, name_part, newline_if};
ghost use Rattle.event_formatter_lines.specs.Pretty.{number_part, path_part, place_text, plain_place, plain_thread, pretty_head};
ghost use Rattle.event_formatter_lines.specs.Pretty.{pretty_line, pretty_tail, space_before_id, span_line, target_part, thread_part};
ghost use Rattle.event_formatter_lines.specs.Pretty.{thread_start, with_part};
ghost use Rattle.event_formatter_lines.specs.Shown.{span_at};

use crate::fields::push_fields;
use crate::head::{Head, in_five_places, push_plain};
use crate::place::{Place, Thread};
use crate::shown::ShownSpans;
use event_formatter_text::{FormatError, FormatFields, RecordFields, Settings};
use itoa::Buffer;
use std::alloc::{AllocError, Global};
use tracing_core_fields::Level;

// Appends the level, where there is one, and a space.
fn push_level(out: &mut String, level: Option<Level>) -> Result<(), AllocError>
    ensures { OnOk result (string_bytes out.new ≡ string_bytes out.old ++ level_part level) }
{
    let Some(level) = level else {
        return Ok(());
    };
    out.push_str(in_five_places(level))?;
    out.push(' ')
}

// Appends the target, where there is one, and a colon.
fn push_target(out: &mut String, target: Option<&str>) -> Result<(), AllocError>
    ensures { OnOk result (string_bytes out.new ≡ string_bytes out.old
        ++ target_part (option_map (λ text. text.now) target.entry)) }
{
    let Some(target) = target else {
        return Ok(());
    };
    out.push_str(target)?;
    out.push(':')
}

// Appends the line's number, where it stands before the fields, and a colon.
fn push_number(out: &mut String, line: Option<u32>) -> Result<(), AllocError>
    ensures { OnOk result (string_bytes out.new ≡ string_bytes out.old ++ number_part line) }
{
    let Some(line) = line else {
        return Ok(());
    };
    let mut buffer = Buffer::new();
    out.push_str(buffer.format(line))?;
    out.push(':')
}

// Appends what stands before the fields.
fn push_head(out: &mut String, head: &Head<'_>) -> Result<(), AllocError>
    ensures { OnOk result (string_bytes out.new ≡ string_bytes out.old ++ pretty_head (plain_head head.now)) }
{
    out.push_str("  ")?;
    push_plain(out, head.time)?;
    push_level(out, head.level)?;
    push_target(out, head.target)?;
    push_number(out, head.line)?;
    out.push(' ')
}

// Appends the line's number behind its file, where it is known.
fn push_line(out: &mut String, line: Option<u32>) -> Result<(), AllocError>
    ensures { OnOk result (string_bytes out.new ≡ string_bytes out.old ++ line_part line) }
{
    let Some(line) = line else {
        return Ok(());
    };
    let mut buffer = Buffer::new();
    out.push(':')?;
    out.push_str(buffer.format(line))
}

// Appends the file, where it is known, and the line's number.
fn push_file(out: &mut String, file: Option<&str>, line: Option<u32>) -> Result<(), AllocError>
    ensures { OnOk result (string_bytes out.new ≡ string_bytes out.old
        ++ file_part (option_map (λ text. text.now) file.entry) line) }
{
    let Some(file) = file else {
        return Ok(());
    };
    out.push_str("    at ")?;
    out.push_str(file)?;
    push_line(out, line)
}

// What begins a thread.
fn thread_start(has_file: bool) -> &'static str
    ensures { result.now ≡ thread_start has_file }
{
    if has_file { " on " } else { "    on " }
}

// Appends a space where the thread's number follows.
fn push_space_before_id(out: &mut String, has_id: bool) -> Result<(), AllocError>
    ensures { OnOk result (string_bytes out.new ≡ string_bytes out.old ++ space_before_id has_id) }
{
    if !has_id {
        return Ok(());
    }
    out.push(' ')
}

// Appends the thread's name, where there is one.
fn push_name(out: &mut String, name: Option<&str>, has_id: bool) -> Result<(), AllocError>
    ensures { OnOk result (string_bytes out.new ≡ string_bytes out.old
        ++ name_part has_id (option_map (λ text. text.now) name.entry)) }
{
    let Some(name) = name else {
        return Ok(());
    };
    out.push_str(name)?;
    push_space_before_id(out, has_id)
}

// Appends the thread's number, where it is shown.
fn push_id(out: &mut String, id: Option<&str>) -> Result<(), AllocError>
    ensures { OnOk result (string_bytes out.new ≡ string_bytes out.old
        ++ id_part (option_map (λ text. text.now) id.entry)) }
{
    let Some(id) = id else {
        return Ok(());
    };
    out.push_str(id)
}

// Appends the thread, where it is shown.
fn push_thread(
    out: &mut String,
    has_file: bool,
    thread: Option<Thread<'_>>,
) -> Result<(), AllocError>
    ensures { OnOk result (string_bytes out.new ≡ string_bytes out.old
        ++ thread_part has_file (option_map plain_thread thread.entry)) }
{
    let Some(thread) = thread else {
        return Ok(());
    };
    out.push_str(thread_start(has_file))?;
    push_name(out, thread.name, thread.id.is_some())?;
    push_id(out, thread.id)
}

// Ends the line of the file and the thread, where it was begun.
fn push_newline_if(out: &mut String, is_begun: bool) -> Result<(), AllocError>
    ensures { OnOk result (string_bytes out.new ≡ string_bytes out.old ++ newline_if is_begun) }
{
    if !is_begun {
        return Ok(());
    }
    out.push('\n')
}

// Appends the line of the file and the thread.
fn push_place(out: &mut String, place: &Place<'_>) -> Result<(), AllocError>
    ensures { OnOk result (string_bytes out.new ≡ string_bytes out.old ++ place_text (plain_place place.now)) }
{
    push_file(out, place.file, place.line)?;
    push_thread(out, place.file.is_some(), place.thread)?;
    push_newline_if(out, place.file.is_some() || place.thread.is_some())
}

// Appends a span's target before its name, where targets are shown.
fn push_path(out: &mut String, shows_target: bool, target: &str) -> Result<(), AllocError>
    ensures { OnOk result (string_bytes out.new ≡ string_bytes out.old ++ path_part shows_target target.now) }
{
    if !shows_target {
        return Ok(());
    }
    out.push_str(target)?;
    out.push_str("::")
}

// Appends a span's text, where it isn't empty.
fn push_with(out: &mut String, text: &str) -> Result<(), AllocError>
    ensures { OnOk result (string_bytes out.new ≡ string_bytes out.old ++ with_part text.now) }
{
    if text.is_empty() {
        return Ok(());
    }
    out.push_str(" with ")?;
    out.push_str(text)
}

// Appends the line of a span.
#[tactic(auto, unfolding(crate::specs::Pretty::span_line))]
fn push_span<S: ShownSpans>(
    out: &mut String,
    shows_target: bool,
    spans: &S,
    index: usize,
) -> Result<(), AllocError>
    requires { index < length (S.spans spans.now) }
    ensures { OnOk result (string_bytes out.new ≡ string_bytes out.old
        ++ span_line shows_target (span_at (S.spans spans.now) index)) }
{
    let span = spans.span(index);
    out.push_str("    in ")?;
    push_path(out, shows_target, span.target)?;
    out.push_str(span.name)?;
    push_with(out, span.text)?;
    out.push('\n')
}

// Appends the line of each of the spans, from the leaf to the root.
#[tactic(auto, using(crate::proofs::LeafFirst::begun, crate::proofs::LeafFirst::turned))]
fn push_each_span<S: ShownSpans>(
    out: &mut String,
    shows_target: bool,
    spans: &S,
) -> Result<(), AllocError>
    ensures { OnOk result (string_bytes out.new ≡ string_bytes out.old
        ++ from_leaf shows_target (S.spans spans.now)) }
{
    for index in (0..spans.count()).rev() {
        push_span(out, shows_target, spans, index)?;
    }
    Ok(())
}

// Appends what stands behind the fields.
fn push_tail<S: ShownSpans>(
    out: &mut String,
    place: &Place<'_>,
    shows_target: bool,
    spans: &S,
) -> Result<(), AllocError>
    ensures { OnOk result (string_bytes out.new ≡ string_bytes out.old
        ++ pretty_tail (plain_place place.now) shows_target (S.spans spans.now)) }
{
    out.push('\n')?;
    push_place(out, place)?;
    push_each_span(out, shows_target, spans)?;
    out.push('\n')
}

/// Appends the lines of the pretty format. Of the head it shows the time, the level, the target and the line's number,
/// which the caller gives where the number is shown and the file isn't. The settings reach the fields alone.
///
/// # Errors
///
/// A value that can't be formatted, or out of memory. What was appended before is to be dropped.
#[tactic(auto, using(crate::proofs::Frames::framed, crate::proofs::Frames::refused))]
pub fn push_pretty_line<S: ShownSpans, F: FormatFields, R: RecordFields>(
    alloc: Global,
    out: &mut String,
    settings: Settings,
    head: &Head<'_>,
    place: &Place<'_>,
    shows_target: bool,
    loose: &S,
    formatter: &F,
    fields: &R,
) -> Result<(), FormatError>
    ensures { Formats (pretty_line (plain_head head.now) (plain_place place.now) shows_target (S.spans loose.now)
        (F.text_of formatter.now settings (R.values fields.now))) (string_bytes out.old) result (string_bytes out.new) }
{
    push_head(out, head)?;
    push_fields(alloc, out, settings, formatter, fields)?;
    push_tail(out, place, shows_target, loose)?;
    Ok(())
}
