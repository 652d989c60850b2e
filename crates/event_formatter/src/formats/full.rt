//! The usual line of the full format, with time, level and target and without styles, whose pieces go straight into the line.
//!
//! The pieces are inlined, and so are the pushes in them, since the way of a refusal is marked as cold.

ghost use Rattle.std.specs.Prelude.{◌≡◌, ◌++◌, ℕ, ℤ, OnOk, Some, codes, false, map, string_bytes};
ghost use Rattle.std.specs.Option.{option_map};
ghost use Rattle.tracing_core_fields.specs.Level.{level_name};
ghost use Rattle.tracing_core_fields.specs.Metadata.{plain_metadata};
ghost use Rattle.tracing_core_fields.specs.requests.PlainRequests.{plain_event};
ghost use Rattle.span_registry_layers_layers.specs.FilterViews.{view};
ghost use Rattle.event_formatter_text.specs.Lists.{Formats};
ghost use Rattle.event_formatter_lines.specs.Full.{full_head, full_line, span_piece, spans_text};
ghost use Rattle.event_formatter_lines.specs.Heads.{in_five_places, level_piece, time_piece, usual_head};
ghost use Rattle.event_formatter_lines.specs.Shown.{plain_shown};
ghost use Rattle.event_formatter.specs.formats.Contexts.{plain_context, spans_in};
ghost use Rattle.event_formatter.specs.formats.Headings.{time_or_unknown};
ghost use Rattle.event_formatter.specs.formats.Scopes.{shown_at};

use crate::formats::cold_path::{out_of_memory, refused};
use crate::formats::context::FmtContext;
use crate::formats::heading::push_moment;
use crate::formats::scope::ScopedSpans;
use event_formatter_lines::{FormatTime, ShownSpan, ShownSpans, push_spans, push_target};
use event_formatter_text::{FormatError, FormatFields, Settings, Writer};
use span_registry_layers_layers::Context;
use span_registry_layers_store::OutputKey;
use std::alloc::{AllocError, Global};
use tracing_core_fields::{Event, Id, Level, Metadata};
use tracing_core_moments::At;

// A level's name in five places between two spaces. All of them are of one length.
#[inline(always)]
#[tactic(auto, unfolding(event_formatter_lines::specs::Heads::in_five_places))]
fn level_between_spaces(level: Level) -> &'static str
    ensures { result.now ≡ codes " " ++ (in_five_places (level_name level) ++ codes " ") }
{
    if level == Level::ERROR {
        " ERROR "
    } else if level == Level::WARN {
        "  WARN "
    } else if level == Level::INFO {
        "  INFO "
    } else if level == Level::DEBUG {
        " DEBUG "
    } else {
        // The proof sees by this call that no other level is left.
        let _name = level.as_str();
        " TRACE "
    }
}

// Appends the time and the level. What stands behind the time is one text.
#[inline(always)]
#[tactic(auto, unfolding(event_formatter_text::specs::Styles::styled))]
fn push_time_and_level<T: FormatTime>(
    alloc: Global,
    out: &mut String,
    settings: Settings,
    timer: &mut T,
    at: At,
    metadata: &Metadata<'_>,
) -> Result<(), AllocError>
    requires { settings.styles ≡ false }
    ensures timer { (s : ℤ) (n : ℕ) → T.text_at timer.new s n ≡ T.text_at timer.old s n }
    ensures text { OnOk result (string_bytes out.new ≡ string_bytes out.old
        ++ (time_piece settings (Some (time_or_unknown (T.text_at timer.old at.seconds at.nanoseconds)))
        ++ level_piece settings (Some (plain_metadata metadata.now).level))) }
{
    let Ok(()) = push_moment(alloc, out, timer, at.seconds, at.nanoseconds) else {
        return Err(refused());
    };
    out.push_str(level_between_spaces(*metadata.level()))
}

// Appends the spans and a space. It stands out of line, and makes the spans anew, so that a lone span is read from registers.
#[inline(never)]
fn push_scope_out_of_line(
    out: &mut String,
    settings: Settings,
    context: &Context<'_>,
    key: OutputKey,
    ids: &[Id],
) -> Result<(), AllocError>
    ensures { OnOk result (string_bytes out.new ≡ string_bytes out.old
        ++ spans_text settings (map (shown_at (view context.now) key.0) ids.now)) }
{
    push_spans(out, settings, &ScopedSpans { context, key, ids })
}

// Appends a span without styles, and a space. What stands behind the span's text is one text.
#[inline(always)]
#[tactic(auto, unfolding(event_formatter_lines::specs::Full::span_piece, event_formatter_text::specs::Styles::styled))]
fn push_lone_span(
    out: &mut String,
    settings: Settings,
    span: &ShownSpan<'_>,
) -> Result<(), AllocError>
    requires { settings.styles ≡ false }
    ensures { OnOk result (string_bytes out.new ≡ string_bytes out.old
        ++ (span_piece settings (plain_shown span.now) ++ codes " ")) }
{
    let Ok(()) = out.push_str(span.name) else {
        return Err(refused());
    };
    if span.text.is_empty() {
        return out.push_str(": ");
    }
    let Ok(()) = out.push('{') else {
        return Err(refused());
    };
    let Ok(()) = out.push_str(span.text) else {
        return Err(refused());
    };
    out.push_str("}: ")
}

// Appends the spans and a space, where there are any. Most lines have none or a single one.
#[inline(always)]
fn push_scope(
    out: &mut String,
    settings: Settings,
    spans: &ScopedSpans<'_, '_>,
) -> Result<(), AllocError>
    requires { settings.styles ≡ false }
    ensures { OnOk result (string_bytes out.new ≡ string_bytes out.old ++ spans_text settings (spans_in spans.now)) }
{
    let count = spans.count();
    if count == 0 {
        return Ok(());
    }
    if count == 1 {
        return push_lone_span(out, settings, &spans.span(0));
    }
    push_scope_out_of_line(out, settings, spans.context, spans.key, spans.ids)
}

// Appends what stands before the fields: time, level, spans and target.
#[inline(always)]
fn push_head<N: FormatFields, T: FormatTime>(
    alloc: Global,
    out: &mut String,
    settings: Settings,
    timer: &mut T,
    context: &FmtContext<'_, '_, N>,
    metadata: &Metadata<'_>,
) -> Result<(), AllocError>
    requires { settings.styles ≡ false }
    ensures timer { (s : ℤ) (n : ℕ) → T.text_at timer.new s n ≡ T.text_at timer.old s n }
    ensures text { let c = plain_context N.text_of context.now in let m = plain_metadata metadata.now in
        let time = time_or_unknown (T.text_at timer.old c.seconds c.nanoseconds) in
        OnOk result (string_bytes out.new ≡ string_bytes out.old
        ++ full_head settings (usual_head time m.level m.target) c.strict) }
{
    let at = context.at();
    let Ok(()) = push_time_and_level(alloc, out, settings, timer, at, metadata) else {
        return Err(refused());
    };
    let Ok(()) = push_scope(out, settings, &context.strict_spans()) else {
        return Err(refused());
    };
    push_target(out, settings, Some(metadata.target()))?;
    Ok(())
}

// Appends the text of the fields, and ends the line.
#[inline(always)]
fn push_values<N: FormatFields>(
    alloc: Global,
    out: &mut String,
    settings: Settings,
    fields: &N,
    event: &Event<'_, '_>,
) -> Result<(), FormatError>
    ensures { Formats (option_map (λ text. text ++ codes "\n")
        (N.text_of fields.now settings (plain_event event.now).values)) (string_bytes out.old) result
        (string_bytes out.new) }
{
    let mut writer = Writer::with_settings(out, settings);
    fields.format_fields(alloc, &mut writer, event)?;
    out.push('\n')?;
    Ok(())
}

/// Appends the line of an event in the full format, with time, level and target and nothing else, where styles are off.
///
/// # Errors
///
/// A value that can't be formatted, or out of memory. What was appended before is to be dropped.
#[inline(always)]
pub(crate) fn push_usual<N: FormatFields, T: FormatTime>(
    alloc: Global,
    out: &mut String,
    settings: Settings,
    timer: &mut T,
    context: &FmtContext<'_, '_, N>,
    event: &Event<'_, '_>,
) -> Result<(), FormatError>
    requires { settings.styles ≡ false }
    ensures timer { (s : ℤ) (n : ℕ) → T.text_at timer.new s n ≡ T.text_at timer.old s n }
    ensures text { let c = plain_context N.text_of context.now in let e = plain_event event.now in
        let time = time_or_unknown (T.text_at timer.old c.seconds c.nanoseconds) in
        Formats (full_line settings (usual_head time e.metadata.level e.metadata.target) c.strict (c.text_of settings e.values))
        (string_bytes out.old) result (string_bytes out.new) }
{
    let Ok(()) = push_head(alloc, out, settings, timer, context, event.metadata()) else {
        return Err(out_of_memory());
    };
    push_values(alloc, out, settings, context.fields, event)
}
