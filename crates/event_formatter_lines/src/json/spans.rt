//! Spans as objects.
ghost use Rattle.std.specs.Prelude.{◌≡◌, ◌+◌, ◌≤◌, ◌++◌, IfOk, List, ℕ, OnOk, Some, codes, length, string_bytes, take, true};
ghost use Rattle.std.specs.List.{join_by};
ghost use Rattle.std.specs.Option.{option_map};
ghost use Rattle.event_formatter_text.specs.MemberChains.{Extends};
ghost use Rattle.event_formatter_text.specs.Lists.{further};
ghost use Rattle.event_formatter_lines.specs.Json.{field_as_kept, inside_braces, kept_members, key_text, member_if, members_as_kept};
ghost use Rattle.event_formatter_lines.specs.Json.{span_members, span_object, where_asked};
ghost use Rattle.event_formatter_lines.specs.Shown.{plain_shown, span_at};

use super::JsonShape;
use super::key::{Key, TextKey};
use super::members::{push_key, push_text_member};
use crate::shown::{ShownSpan, ShownSpans};
use std::alloc::AllocError;

/// The text without its last brace, where it begins and ends with braces. Each is one byte, so that no character has to be read.
pub(super) fn begun_object(text: &str) -> Option<&str>
    ensures { option_map (λ begun. begun.now) result ≡ option_map (λ members. codes "{" ++ members) (inside_braces text.now) }
{
    match text.as_bytes() {
        [b'{', .., b'}'] => Some(&text[..text.len() - 1]),
        _ => None,
    }
}

// Begins an object with the members that stand in the text behind its brace, where there are any.
#[tactic(auto, using(crate::proofs::Members::whole, crate::proofs::Members::nothing))]
fn begin_inner(out: &mut String, begun: &str) -> Result<bool, AllocError>
    ensures { (members : List ℕ) → begun.now ≡ codes "{" ++ members → IfOk result (λ is_still.
        Extends (members_as_kept members) true (string_bytes out.old ++ codes "{") is_still (string_bytes out.new)) }
{
    out.push_str(begun)?;
    Ok(begun.len() == 1)
}

// Begins an object with a text that isn't one as its member, where it isn't empty.
#[tactic(auto, using(crate::proofs::Members::nothing))]
fn begin_field(out: &mut String, text: &str) -> Result<bool, AllocError>
    ensures { IfOk result (λ is_still. Extends (field_as_kept text.now) true (string_bytes out.old ++ codes "{") is_still
        (string_bytes out.new)) }
{
    out.push('{')?;
    if text.is_empty() {
        return Ok(true);
    }
    push_text_member(out, true, TextKey::Field, Some(text))
}

// Begins an object with what is kept of a span's fields. Kept members come with their brace, as one text.
#[inline(always)]
fn begin_object(out: &mut String, text: &str) -> Result<bool, AllocError>
    ensures { IfOk result (λ is_still. Extends (kept_members text.now) true (string_bytes out.old ++ codes "{") is_still
        (string_bytes out.new)) }
{
    match begun_object(text) {
        Some(begun) => begin_inner(out, begun),
        None => begin_field(out, text),
    }
}

/// Appends the object of a span.
#[tactic(auto, using(crate::proofs::Members::object), unfolding(crate::specs::Json::span_object))]
pub(super) fn push_span(out: &mut String, span: &ShownSpan<'_>) -> Result<(), AllocError>
    ensures { OnOk result (string_bytes out.new ≡ string_bytes out.old ++ span_object (plain_shown span.now)) }
{
    let is_first = begin_object(out, span.text)?;
    push_text_member(out, is_first, TextKey::Name, Some(span.name))?;
    out.push('}')
}

// Appends the object of a span, behind a comma unless it is the first of its array.
fn push_listed_span(
    out: &mut String,
    is_first: bool,
    span: &ShownSpan<'_>,
) -> Result<(), AllocError>
    ensures { OnOk result (string_bytes out.new ≡ string_bytes out.old
        ++ further (codes ",") is_first (span_object (plain_shown span.now))) }
{
    if !is_first {
        out.push(',')?;
    }
    push_span(out, span)
}

// Appends the objects of so many spans from the root on, a comma between each two.
fn push_first_spans<S: ShownSpans>(
    out: &mut String,
    spans: &S,
    count: usize,
) -> Result<(), AllocError>
    requires { count ≤ length (S.spans spans.now) }
    ensures { OnOk result (string_bytes out.new ≡ string_bytes out.old
        ++ join_by span_object (codes ",") (take count (S.spans spans.now))) }
{
    for index in 0..count {
        let span = spans.span(index);
        push_listed_span(out, index == 0, &span)?;
    }
    Ok(())
}

// Begins the array of the spans as a member. Its key and its bracket are one text.
#[inline(always)]
#[tactic(auto, unfolding(crate::specs::Json::key_text))]
fn begin_list(out: &mut String, is_first: bool) -> Result<(), AllocError>
    ensures { OnOk result (string_bytes out.new ≡ string_bytes out.old
        ++ further (codes ",") is_first (key_text (codes "spans")) ++ codes "[") }
{
    if is_first {
        out.push_str("\"spans\":[")
    } else {
        out.push_str(",\"spans\":[")
    }
}

// Appends the spans of an array and ends it. The last one is at hand.
fn push_listed<S: ShownSpans>(
    out: &mut String,
    spans: &S,
    place: usize,
    last: &ShownSpan<'_>,
) -> Result<(), AllocError>
    requires place { place + 1 ≡ length (S.spans spans.now) }
    requires last { plain_shown last.now ≡ span_at (S.spans spans.now) place }
    ensures { OnOk result (string_bytes out.new ≡ string_bytes out.old
        ++ (join_by span_object (codes ",") (S.spans spans.now) ++ codes "]")) }
{
    push_first_spans(out, spans, place)?;
    push_listed_span(out, place == 0, last)?;
    out.push(']')
}

// Appends the last of the spans as a member, where it is asked for.
#[tactic(auto, using(crate::proofs::Members::one, crate::proofs::Members::nothing))]
fn push_current_span(
    out: &mut String,
    is_first: bool,
    is_asked: bool,
    last: &ShownSpan<'_>,
) -> Result<bool, AllocError>
    ensures { IfOk result (λ is_still. Extends (member_if (codes "span") (where_asked is_asked
        (Some (span_object (plain_shown last.now))))) is_first (string_bytes out.old) is_still (string_bytes out.new)) }
{
    if !is_asked {
        return Ok(is_first);
    }
    push_key(out, is_first, Key::Span)?;
    push_span(out, last)?;
    Ok(false)
}

// Appends the spans as a member, where they are asked for. The last one is at hand.
#[tactic(auto, using(crate::proofs::Members::one_array, crate::proofs::Members::nothing))]
fn push_span_list<S: ShownSpans>(
    out: &mut String,
    is_first: bool,
    is_asked: bool,
    spans: &S,
    place: usize,
    last: &ShownSpan<'_>,
) -> Result<bool, AllocError>
    requires place { place + 1 ≡ length (S.spans spans.now) }
    requires last { plain_shown last.now ≡ span_at (S.spans spans.now) place }
    ensures { IfOk result (λ is_still. Extends (member_if (codes "spans") (where_asked is_asked
        (Some (codes "[" ++ join_by span_object (codes ",") (S.spans spans.now) ++ codes "]")))) is_first
        (string_bytes out.old) is_still (string_bytes out.new)) }
{
    if !is_asked {
        return Ok(is_first);
    }
    begin_list(out, is_first)?;
    push_listed(out, spans, place, last)?;
    Ok(false)
}

/// Appends the members of the spans: the last one, and all of them. It answers whether the next member is the first of
/// its object.
#[tactic(auto, using(crate::proofs::Members::nothing))]
pub(super) fn push_span_members<S: ShownSpans>(
    out: &mut String,
    is_first: bool,
    shape: JsonShape,
    spans: &S,
) -> Result<bool, AllocError>
    ensures { IfOk result (λ is_still. Extends (span_members shape (S.spans spans.now)) is_first
        (string_bytes out.old) is_still (string_bytes out.new)) }
{
    let count = spans.count();
    if count == 0 {
        return Ok(is_first);
    }
    let place = count - 1;
    let last = spans.span(place);
    let is_first = push_current_span(out, is_first, shape.current_span, &last)?;
    let is_first = push_span_list(out, is_first, shape.span_list, spans, place, &last)?;
    Ok(is_first)
}
