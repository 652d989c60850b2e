//! The JSON format: an event as an object on a line of its own.

mod in_span;
mod key;
mod members;
mod spans;

ghost use Rattle.std.specs.Prelude.{◌≡◌, ◌++◌, IfOk, OnOk, codes, string_bytes};
ghost use Rattle.event_formatter_text.specs.MemberChains.{Extends, ExtendsWhole};
ghost use Rattle.event_formatter_text.specs.Lists.{Formats, further};
ghost use Rattle.event_formatter_lines.specs.Heads.{plain_head};
ghost use Rattle.event_formatter_lines.specs.Json.{field_members, json_line, key_text, last_members};

use crate::head::Head;
use crate::shown::ShownSpans;
use event_formatter_text::{FormatError, RecordFields, push_json_members};
pub use in_span::push_json_line_in_span;
use members::{begin_with_first_members, push_place_members, push_thread_members};
use spans::push_span_members;
use std::alloc::AllocError;

/// Where a line of the JSON format has the event's fields, and which of the spans it has.
#[derive(Clone, Copy, Debug, PartialEq, Eq)]
pub struct JsonShape {
    /// Whether the fields are members of the line's object, and not of one of their own under `fields`.
    pub flatten_event: bool,
    /// Whether the last of the spans is a member, `span`.
    pub current_span: bool,
    /// Whether all spans are a member, `spans`.
    pub span_list: bool,
}

impl Default for JsonShape {
    ghost use Rattle.event_formatter_lines.specs.Json.{default_shape};

    ghost is_default = { λ shape. shape ≡ default_shape };

    fn default() -> JsonShape {
        JsonShape {
            flatten_event: false,
            current_span: true,
            span_list: true,
        }
    }
}

// Begins the object of the fields as a member. Its key and its brace are one text.
#[inline(always)]
#[tactic(auto, unfolding(crate::specs::Json::key_text))]
fn begin_fields(out: &mut String, is_first: bool) -> Result<(), AllocError>
    ensures { OnOk result (string_bytes out.new ≡ string_bytes out.old
        ++ further (codes ",") is_first (key_text (codes "fields")) ++ codes "{") }
{
    if is_first {
        out.push_str("\"fields\":{")
    } else {
        out.push_str(",\"fields\":{")
    }
}

// Appends the members of the fields, in an object of their own or not. It answers whether the next member is the first.
#[tactic(auto, using(crate::proofs::Lines::nested, crate::proofs::Lines::nested_refused))]
fn push_field_members<R: RecordFields>(
    out: &mut String,
    is_first: bool,
    flatten_event: bool,
    fields: &R,
) -> Result<bool, FormatError>
    ensures { ExtendsWhole (field_members flatten_event (R.values fields.now)) is_first (string_bytes out.old) result
        (string_bytes out.new) }
{
    if flatten_event {
        return push_json_members(out, is_first, fields);
    }
    begin_fields(out, is_first)?;
    push_json_members(out, true, fields)?;
    out.push('}')?;
    Ok(false)
}

// Appends the members behind the fields: where the event happened, the spans, and the thread.
fn push_last_members<S: ShownSpans>(
    out: &mut String,
    is_first: bool,
    shape: JsonShape,
    head: &Head<'_>,
    loose: &S,
) -> Result<bool, AllocError>
    ensures { IfOk result (λ is_still. Extends (last_members shape (plain_head head.now) (S.spans loose.now)) is_first
        (string_bytes out.old) is_still (string_bytes out.new)) }
{
    let is_first = push_place_members(out, is_first, head)?;
    let is_first = push_span_members(out, is_first, shape, loose)?;
    let is_first = push_thread_members(out, is_first, head)?;
    Ok(is_first)
}

// Ends the object and its line. It stands out of line, so that both of its pushes are inlined.
#[inline(never)]
fn end_line(out: &mut String) -> Result<(), AllocError>
    ensures { OnOk result (string_bytes out.new ≡ string_bytes out.old ++ codes "}\n") }
{
    out.push('}')?;
    out.push('\n')
}

/// Appends a line of the JSON format. A span's kept text that isn't in braces stands as a string under the key `field`;
/// one that is in braces is taken for an object, as `JsonFields` writes it.
///
/// # Errors
///
/// A value that can't be formatted, or out of memory. What was appended before is to be dropped.
#[tactic(auto, using(crate::proofs::Lines::written, crate::proofs::Lines::refused))]
pub fn push_json_line<S: ShownSpans, R: RecordFields>(
    out: &mut String,
    shape: JsonShape,
    head: &Head<'_>,
    loose: &S,
    fields: &R,
) -> Result<(), FormatError>
    ensures { Formats (json_line shape (plain_head head.now) (S.spans loose.now) (R.values fields.now))
        (string_bytes out.old) result (string_bytes out.new) }
{
    let is_first = begin_with_first_members(out, head)?;
    let is_first = push_field_members(out, is_first, shape.flatten_event, fields)?;
    push_last_members(out, is_first, shape, head, loose)?;
    end_line(out)?;
    Ok(())
}
