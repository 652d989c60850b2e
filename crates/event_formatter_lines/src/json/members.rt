//! Members of an object, one after the other.
ghost use Rattle.std.specs.Prelude.{◌≡◌, ◌++◌, IfOk, OnOk, codes, string_bytes, true};
ghost use Rattle.std.specs.Fmt.{decimal};
ghost use Rattle.std.specs.Option.{option_map};
ghost use Rattle.tracing_core_fields.specs.Level.{level_name};
ghost use Rattle.event_formatter_text.specs.MemberChains.{Extends};
ghost use Rattle.event_formatter_text.specs.Escapes.{json_string};
ghost use Rattle.event_formatter_text.specs.Lists.{further};
ghost use Rattle.event_formatter_lines.specs.Heads.{plain_head};
ghost use Rattle.event_formatter_lines.specs.Json.{first_members, key_text, member_if, place_members, text_member, thread_members};
ghost use Rattle.event_formatter_lines.specs.Keys.{key_name, text_key_name};

use super::key::{Key, TextKey};
use crate::head::Head;
use event_formatter_text::{push_json_rest, push_json_string};
use itoa::Buffer;
use std::alloc::AllocError;
use tracing_core_fields::Level;

/// Appends a key and a colon, behind a comma unless it is the first of its object. Inlined, so that each key is one text
/// of a length that the compiler knows.
#[inline(always)]
pub(super) fn push_key(out: &mut String, is_first: bool, key: Key) -> Result<(), AllocError>
    ensures { OnOk result (string_bytes out.new ≡ string_bytes out.old
        ++ further (codes ",") is_first (key_text (key_name key))) }
{
    if is_first {
        out.push_str(key.first())
    } else {
        out.push_str(key.later())
    }
}

// Appends a key, a colon and the quote that begins its text, behind a comma unless it is the first of its object.
#[inline(always)]
fn push_text_key(out: &mut String, is_first: bool, key: TextKey) -> Result<(), AllocError>
    ensures { OnOk result (string_bytes out.new ≡ string_bytes out.old
        ++ further (codes ",") is_first (key_text (text_key_name key) ++ codes "\"")) }
{
    if is_first {
        out.push_str(key.first())
    } else {
        out.push_str(key.later())
    }
}

/// Appends a text as a member, where there is one. It answers whether the next member is the first of its object.
#[inline(always)]
#[tactic(auto, using(crate::proofs::Members::one_text, crate::proofs::Members::nothing))]
pub(super) fn push_text_member(
    out: &mut String,
    is_first: bool,
    key: TextKey,
    text: Option<&str>,
) -> Result<bool, AllocError>
    ensures { IfOk result (λ is_still. Extends (text_member (text_key_name key) (option_map (λ text. text.now) text.entry)) is_first
        (string_bytes out.old) is_still (string_bytes out.new)) }
{
    let Some(text) = text else {
        return Ok(is_first);
    };
    push_text_key(out, is_first, key)?;
    push_json_rest(out, text)?;
    Ok(false)
}

/// Appends the line's number as a member, where it is known.
#[tactic(auto, using(crate::proofs::Members::one, crate::proofs::Members::nothing))]
pub(super) fn push_line_number(
    out: &mut String,
    is_first: bool,
    line: Option<u32>,
) -> Result<bool, AllocError>
    ensures { IfOk result (λ is_still. Extends (member_if (codes "line_number") (option_map decimal line)) is_first
        (string_bytes out.old) is_still (string_bytes out.new)) }
{
    let Some(line) = line else {
        return Ok(is_first);
    };
    let mut buffer = Buffer::new();
    push_key(out, is_first, Key::LineNumber)?;
    out.push_str(buffer.format(line))?;
    Ok(false)
}

/// Appends the level behind another member. The key and the name of most levels are one text.
#[inline(always)]
pub(super) fn push_later_level(out: &mut String, level: Level) -> Result<(), AllocError>
    ensures { OnOk result (string_bytes out.new ≡ string_bytes out.old
        ++ (codes "," ++ (key_text (codes "level") ++ json_string (level_name level)))) }
{
    if level == Level::INFO {
        out.push_str(",\"level\":\"INFO\"")
    } else if level == Level::WARN {
        out.push_str(",\"level\":\"WARN\"")
    } else if level == Level::ERROR {
        out.push_str(",\"level\":\"ERROR\"")
    } else if level == Level::DEBUG {
        out.push_str(",\"level\":\"DEBUG\"")
    } else {
        push_key(out, false, Key::Level)?;
        push_json_string(out, level.as_str())
    }
}

// Appends the level as the first member. It stands out of line, as a line mostly begins with its time.
#[inline(never)]
fn push_first_level(out: &mut String, level: Level) -> Result<(), AllocError>
    ensures { OnOk result (string_bytes out.new ≡ string_bytes out.old
        ++ (key_text (codes "level") ++ json_string (level_name level))) }
{
    push_key(out, true, Key::Level)?;
    push_json_string(out, level.as_str())
}

// Appends the level as a member, where there is one.
#[inline(always)]
#[tactic(auto, using(crate::proofs::Members::one, crate::proofs::Members::nothing))]
fn push_level(out: &mut String, is_first: bool, level: Option<Level>) -> Result<bool, AllocError>
    ensures { IfOk result (λ is_still. Extends (text_member (codes "level") (option_map level_name level)) is_first
        (string_bytes out.old) is_still (string_bytes out.new)) }
{
    let Some(level) = level else {
        return Ok(is_first);
    };
    if is_first {
        push_first_level(out, level)?;
    } else {
        push_later_level(out, level)?;
    }
    Ok(false)
}

// Begins an object, with the time as a member where there is one. The brace and the time's key are one text.
#[inline(always)]
#[tactic(auto, using(crate::proofs::Members::nothing))]
fn begin_with_time(out: &mut String, time: Option<&str>) -> Result<bool, AllocError>
    ensures { IfOk result (λ is_still. Extends (text_member (codes "timestamp") (option_map (λ text. text.now) time.entry)) true
        (string_bytes out.old ++ codes "{") is_still (string_bytes out.new)) }
{
    let Some(time) = time else {
        out.push('{')?;
        return Ok(true);
    };
    out.push_str("{\"timestamp\":\"")?;
    push_json_rest(out, time)?;
    Ok(false)
}

/// Begins the object of a line, with the members before the fields: time and level.
#[tactic(auto, using(crate::proofs::Members::chained))]
pub(super) fn begin_with_first_members(
    out: &mut String,
    head: &Head<'_>,
) -> Result<bool, AllocError>
    ensures { IfOk result (λ is_still. Extends (first_members (plain_head head.now)) true
        (string_bytes out.old ++ codes "{") is_still (string_bytes out.new)) }
{
    let is_first = begin_with_time(out, head.time)?;
    let is_first = push_level(out, is_first, head.level)?;
    Ok(is_first)
}

/// Appends target, file and line.
#[tactic(auto, using(crate::proofs::Members::chained))]
pub(super) fn push_place_members(
    out: &mut String,
    is_first: bool,
    head: &Head<'_>,
) -> Result<bool, AllocError>
    ensures { IfOk result (λ is_still. Extends (place_members (plain_head head.now)) is_first
        (string_bytes out.old) is_still (string_bytes out.new)) }
{
    let is_first = push_text_member(out, is_first, TextKey::Target, head.target)?;
    let is_first = push_text_member(out, is_first, TextKey::Filename, head.file)?;
    let is_first = push_line_number(out, is_first, head.line)?;
    Ok(is_first)
}

/// Appends the thread's name and number.
#[tactic(auto, using(crate::proofs::Members::chained))]
pub(super) fn push_thread_members(
    out: &mut String,
    is_first: bool,
    head: &Head<'_>,
) -> Result<bool, AllocError>
    ensures { IfOk result (λ is_still. Extends (thread_members (plain_head head.now)) is_first
        (string_bytes out.old) is_still (string_bytes out.new)) }
{
    let is_first = push_text_member(out, is_first, TextKey::ThreadName, head.thread_name)?;
    let is_first = push_text_member(out, is_first, TextKey::ThreadId, head.thread_id)?;
    Ok(is_first)
}
