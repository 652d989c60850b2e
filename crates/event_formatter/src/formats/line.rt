//! The line of an event, put together from what is shown of it.
ghost use Rattle.std.specs.Prelude.{◌≡◌, Some, string_bytes};
ghost use Rattle.std.specs.Option.{option_copied};
ghost use Rattle.tracing_core_fields.specs.Metadata.{plain_metadata};
ghost use Rattle.tracing_core_fields.specs.requests.PlainRequests.{plain_event};
ghost use Rattle.event_formatter_text.specs.Lists.{Formats};
ghost use Rattle.event_formatter_lines.specs.Heads.{plain_head};
ghost use Rattle.event_formatter_lines.specs.Pretty.{plain_place};
ghost use Rattle.event_formatter.specs.formats.Contexts.{plain_context};
ghost use Rattle.event_formatter.specs.formats.Lines.{asked, head_with, line_behind};
ghost use Rattle.event_formatter.specs.formats.Lines.{pretty_heading, pretty_place, with_styles};

use crate::formats::context::FmtContext;
use crate::formats::line_format::{LineFormat, Pretty};
use crate::formats::parts::Parts;
use event_formatter_lines::{
    Head, Place, Thread, push_compact_line, push_full_line, push_json_line, push_pretty_line,
};
use event_formatter_text::{FormatError, FormatFields, PrettyFields, Settings};
use std::alloc::Global;
use tracing_core_fields::{Event, Metadata};

/// A text, where it is shown.
pub(crate) fn shown(is_shown: bool, text: &str) -> Option<&str>
    ensures { option_copied result ≡ asked is_shown (Some text.now) }
{
    if is_shown { Some(text) } else { None }
}

/// What a line shows of an event beside its fields and spans, with these texts of the time and the thread.
pub(crate) fn head_with<'a>(
    parts: Parts,
    time: Option<&'a str>,
    thread_name: Option<&'a str>,
    thread_id: Option<&'a str>,
    metadata: &'a Metadata<'a>,
) -> Head<'a>
    ensures { plain_head result ≡ head_with parts (option_copied time.entry) (option_copied thread_name.entry)
        (option_copied thread_id.entry) (plain_metadata metadata.now) }
{
    Head {
        time,
        level: if parts.level {
            Some(*metadata.level())
        } else {
            None
        },
        thread_name,
        thread_id,
        target: shown(parts.target, metadata.target()),
        file: if parts.file { metadata.file() } else { None },
        line: if parts.line_number {
            metadata.line()
        } else {
            None
        },
    }
}

/// The settings, but for styles where the format has its own word on them.
pub(crate) fn with_styles(ansi: Option<bool>, settings: Settings) -> Settings
    ensures { result ≡ with_styles ansi settings }
{
    Settings {
        styles: ansi.unwrap_or(settings.styles),
        ..settings
    }
}

// The head of a pretty line: the line's number stands in it where the location is shown without a file.
fn pretty_heading<'a>(pretty: Pretty, parts: Parts, head: &Head<'a>) -> Head<'a>
    ensures { plain_head result ≡ pretty_heading pretty parts (plain_head head.now) }
{
    let shows_line = pretty.display_location && !parts.file;
    Head {
        time: head.time,
        level: head.level,
        thread_name: head.thread_name,
        thread_id: head.thread_id,
        target: head.target,
        file: head.file,
        line: if shows_line { head.line } else { None },
    }
}

// What stands behind the fields of a pretty line.
fn pretty_place<'a>(
    pretty: Pretty,
    parts: Parts,
    name: Option<&'a str>,
    head: &Head<'a>,
) -> Place<'a>
    ensures { plain_place result ≡ pretty_place pretty parts (option_copied name.entry) (plain_head head.now) }
{
    let thread = Thread {
        name: if parts.thread_names { name } else { None },
        id: head.thread_id,
    };
    Place {
        file: if pretty.display_location {
            head.file
        } else {
            None
        },
        line: head.line,
        thread: if parts.thread_names || parts.thread_ids {
            Some(thread)
        } else {
            None
        },
    }
}

// Appends the line of an event in the compact format.
#[inline(always)]
fn push_compact<N: FormatFields>(
    alloc: Global,
    out: &mut String,
    settings: Settings,
    parts: Parts,
    head: &Head<'_>,
    context: &FmtContext<'_, '_, N>,
    event: &Event<'_, '_>,
) -> Result<(), FormatError>
    ensures { Formats (line_behind LineFormat.Compact parts settings (plain_head head.now) (plain_context N.text_of context.now)
        (plain_event event.now).values) (string_bytes out.old) result (string_bytes out.new) }
{
    let loose = context.loose_spans();
    let strict = context.strict_spans();
    let fields = context.field_format();
    push_compact_line(alloc, out, settings, head, &loose, &strict, fields, event)
}

// Appends the line of an event in the pretty format.
#[inline(always)]
fn push_pretty<N: FormatFields>(
    alloc: Global,
    out: &mut String,
    settings: Settings,
    pretty: Pretty,
    parts: Parts,
    head: &Head<'_>,
    context: &FmtContext<'_, '_, N>,
    event: &Event<'_, '_>,
) -> Result<(), FormatError>
    ensures { Formats (line_behind (LineFormat.Pretty pretty) parts settings (plain_head head.now) (plain_context N.text_of context.now)
        (plain_event event.now).values) (string_bytes out.old) result (string_bytes out.new) }
{
    let heading = pretty_heading(pretty, parts, head);
    let place = pretty_place(pretty, parts, context.thread().name, head);
    let loose = context.loose_spans();
    push_pretty_line(
        alloc,
        out,
        settings,
        &heading,
        &place,
        parts.target,
        &loose,
        &PrettyFields,
        event,
    )
}

/// Appends the line of an event, with this head.
///
/// # Errors
///
/// A value that can't be formatted, or out of memory. What was appended before is to be dropped.
#[inline(always)]
pub(crate) fn push_line<N: FormatFields>(
    alloc: Global,
    out: &mut String,
    settings: Settings,
    shape: LineFormat,
    parts: Parts,
    head: &Head<'_>,
    context: &FmtContext<'_, '_, N>,
    event: &Event<'_, '_>,
) -> Result<(), FormatError>
    ensures { Formats (line_behind shape parts settings (plain_head head.now) (plain_context N.text_of context.now)
        (plain_event event.now).values) (string_bytes out.old) result (string_bytes out.new) }
{
    match shape {
        // A `Format` writes the usual full lines by `push_usual`, piece by piece; this is any other.
        LineFormat::Full => {
            let spans = context.strict_spans();
            let fields = context.field_format();
            push_full_line(alloc, out, settings, head, &spans, fields, event)
        }
        LineFormat::Compact => push_compact(alloc, out, settings, parts, head, context, event),
        LineFormat::Pretty(pretty) => {
            push_pretty(alloc, out, settings, pretty, parts, head, context, event)
        }
        LineFormat::Json(json) => {
            let loose = context.loose_spans();
            push_json_line(out, json.shape, head, &loose, event)
        }
    }
}
