//! Texts with some of their characters written out.
//!
//! Most texts have no such character. So their bytes are looked at first, those of a longer text by blocks, and a text that has none is
//! appended as it is.
ghost use Rattle.std.specs.Prelude.{◌≡◌, ◌+◌, ◌≤◌, ◌++◌, IsTrue, OnOk, codes, length, not, string_bytes};
ghost use Rattle.std.specs.List.{list_any};
ghost use Rattle.tracing_core_fields.specs.Quoted.{quoted, quoted_char};
ghost use Rattle.event_formatter_text.specs.Escapes.{escaped, is_special, json_char, json_string, sanitized_char, written_char};
ghost use Rattle.event_formatter_text.specs.declared.escape.Escape.TheVariants.{Sanitized, Json, Quoted};
ghost use Rattle.event_formatter_text.specs.Blocks.{IsPlainBetween};

use std::alloc::AllocError;
use std::simd::prelude::*;

/// Which characters of a text are written out.
#[derive(Clone, Copy, PartialEq, Eq)]
pub(crate) enum Escape {
    /// Those that steer a terminal.
    Sanitized,
    /// Those that a JSON string doesn't hold as they are.
    Json,
    /// Those that debug text doesn't hold as they are.
    Quoted,
}

// How many bytes of a text are looked at at once. One of fewer bytes is looked at byte by byte.
const BLOCK: usize = 16;

// Whether a byte may be part of a character that is written out.
#[inline(always)]
fn is_special(escape: Escape, byte: u8) -> bool
    ensures { result ≡ is_special escape byte }
{
    match escape {
        Escape::Sanitized => byte < 0x20 || byte == 0x7f || byte == 0xc2,
        Escape::Json => byte < 0x20 || byte == b'"' || byte == b'\\',
        Escape::Quoted => {
            byte < 0x20 || byte == b'"' || byte == b'\\' || byte == 0x7f || byte == 0xc2
        }
    }
}

// The same by as few questions as most bytes need, for a loop that looks at one byte after the other.
#[inline(always)]
fn is_special_byte(escape: Escape, byte: u8) -> bool
    ensures { result ≡ is_special escape byte }
{
    match escape {
        Escape::Sanitized if byte < 0x7f => byte < 0x20,
        Escape::Sanitized => byte == 0x7f || byte == 0xc2,
        Escape::Json if byte > b'\\' => false,
        Escape::Json => byte == b'\\' || byte < 0x20 || byte == b'"',
        Escape::Quoted if byte <= b'"' => byte < 0x20 || byte == b'"',
        Escape::Quoted => byte == b'\\' || byte == 0x7f || byte == 0xc2,
    }
}

// The same of a short text, two bytes at a time, up to the first such byte.
#[inline(always)]
fn has_special_near(escape: Escape, bytes: &[u8]) -> bool
    ensures { result ≡ list_any (is_special escape) bytes.now }
{
    let mut rest = bytes;
    while let [first, second, later @ ..] = rest {
        if is_special_byte(escape, *first) || is_special_byte(escape, *second) {
            return true;
        }
        rest = later;
    }
    match rest {
        [last, ..] => is_special_byte(escape, *last),
        [] => false,
    }
}

// The same of a long text. It stands out of line, as it is asked only where the blocks have such a byte.
#[inline(never)]
#[cold]
fn has_special_far(escape: Escape, bytes: &[u8]) -> bool
    ensures { result ≡ list_any (is_special escape) bytes.now }
{
    let mut found = false;
    for byte in bytes {
        found |= is_special(escape, *byte);
    }
    found
}

// Whether no byte of the block at the place may be part of a character that is written out, for a terminal.
#[inline(always)]
fn is_sanitized_block(bytes: &[u8], at: usize) -> bool
    requires { at + 16 ≤ length bytes.now }
    ensures { IsTrue result → IsPlainBetween Sanitized bytes.now at (at + 16) }
{
    let block = u8x16::from_slice(&bytes[at..]);
    (block.simd_lt(u8x16::splat(0x20))
        | block.simd_eq(u8x16::splat(0xc2))
        | block.simd_eq(u8x16::splat(0x7f))).to_bitmask()
        == 0
}

// The same for JSON.
#[inline(always)]
fn is_json_block(bytes: &[u8], at: usize) -> bool
    requires { at + 16 ≤ length bytes.now }
    ensures { IsTrue result → IsPlainBetween Json bytes.now at (at + 16) }
{
    let block = u8x16::from_slice(&bytes[at..]);
    (block.simd_lt(u8x16::splat(0x20))
        | block.simd_eq(u8x16::splat(b'"'))
        | block.simd_eq(u8x16::splat(b'\\'))).to_bitmask()
        == 0
}

// The same for debug text.
#[inline(always)]
fn is_quoted_block(bytes: &[u8], at: usize) -> bool
    requires { at + 16 ≤ length bytes.now }
    ensures { IsTrue result → IsPlainBetween Quoted bytes.now at (at + 16) }
{
    let block = u8x16::from_slice(&bytes[at..]);
    (block.simd_lt(u8x16::splat(0x20))
        | block.simd_eq(u8x16::splat(b'"'))
        | block.simd_eq(u8x16::splat(b'\\'))
        | block.simd_eq(u8x16::splat(0x7f))
        | block.simd_eq(u8x16::splat(0xc2))).to_bitmask()
        == 0
}

// The same for any escape.
#[inline(always)]
fn is_plain_block(escape: Escape, bytes: &[u8], at: usize) -> bool
    requires { at + 16 ≤ length bytes.now }
    ensures { IsTrue result → IsPlainBetween escape bytes.now at (at + 16) }
{
    match escape {
        Escape::Sanitized => is_sanitized_block(bytes, at),
        Escape::Json => is_json_block(bytes, at),
        Escape::Quoted => is_quoted_block(bytes, at),
    }
}

// Whether no byte of a long text is part of such a character. The last block may overlap the one before.
#[inline(always)]
fn is_plain_far(escape: Escape, bytes: &[u8]) -> bool
    requires { 16 ≤ length bytes.now }
    ensures { IsTrue result → IsPlainBetween escape bytes.now 0 (length bytes.now) }
{
    let mut at = 0;
    while bytes.len() - at > BLOCK {
        if !is_plain_block(escape, bytes, at) {
            return false;
        }
        at += BLOCK;
    }
    is_plain_block(escape, bytes, bytes.len() - BLOCK)
}

// The same of a text of a block or more.
#[inline(never)]
fn has_special_in_blocks(escape: Escape, bytes: &[u8]) -> bool
    requires { 16 ≤ length bytes.now }
    ensures { result ≡ list_any (is_special escape) bytes.now }
{
    if is_plain_far(escape, bytes) {
        return false;
    }
    has_special_far(escape, bytes)
}

/// Whether some byte may be part of a character that is written out.
#[inline(always)]
pub(crate) fn has_special(escape: Escape, bytes: &[u8]) -> bool
    ensures { result ≡ list_any (is_special escape) bytes.now }
{
    if bytes.len() < BLOCK {
        return has_special_near(escape, bytes);
    }
    has_special_in_blocks(escape, bytes)
}

#[tactic(auto, unfolding(crate::specs::Escapes::sanitized_char))]
fn push_sanitized_char(out: &mut String, c: char) -> Result<(), AllocError>
    ensures { OnOk result (string_bytes out.new ≡ string_bytes out.old ++ sanitized_char c) }
{
    match c {
        '\u{1b}' => out.push_str("\\x1b"),
        '\u{7}' => out.push_str("\\x07"),
        '\u{8}' => out.push_str("\\x08"),
        '\u{c}' => out.push_str("\\x0c"),
        '\u{7f}' => out.push_str("\\x7f"),
        '\u{80}'..='\u{9f}' => {
            let code = c as u32;
            write!(out, "\\u{{{code:x}}}")
        }
        other => out.push(other),
    }
}

#[tactic(auto, unfolding(crate::specs::Escapes::json_char))]
fn push_json_char(out: &mut String, c: char) -> Result<(), AllocError>
    ensures { OnOk result (string_bytes out.new ≡ string_bytes out.old ++ json_char c) }
{
    match c {
        '"' => out.push_str("\\\""),
        '\\' => out.push_str("\\\\"),
        '\u{8}' => out.push_str("\\b"),
        '\u{c}' => out.push_str("\\f"),
        '\n' => out.push_str("\\n"),
        '\r' => out.push_str("\\r"),
        '\t' => out.push_str("\\t"),
        '\0'..='\u{1f}' => {
            let code = c as u32;
            let (high, low) = (code / 16, code % 16);
            write!(out, "\\u00{high:x}{low:x}")
        }
        other => out.push(other),
    }
}

#[tactic(auto, unfolding(tracing_core_fields::specs::Quoted::quoted_char))]
fn push_quoted_char(out: &mut String, c: char) -> Result<(), AllocError>
    ensures { OnOk result (string_bytes out.new ≡ string_bytes out.old ++ quoted_char c) }
{
    match c {
        '"' => out.push_str("\\\""),
        '\\' => out.push_str("\\\\"),
        '\n' => out.push_str("\\n"),
        '\r' => out.push_str("\\r"),
        '\t' => out.push_str("\\t"),
        '\0' => out.push_str("\\0"),
        '\u{1}'..='\u{1f}' | '\u{7f}'..='\u{9f}' => {
            let code = c as u32;
            write!(out, "\\u{{{code:x}}}")
        }
        other => out.push(other),
    }
}

fn push_char(out: &mut String, escape: Escape, c: char) -> Result<(), AllocError>
    ensures { OnOk result (string_bytes out.new ≡ string_bytes out.old ++ written_char escape c) }
{
    match escape {
        Escape::Sanitized => push_sanitized_char(out, c),
        Escape::Json => push_json_char(out, c),
        Escape::Quoted => push_quoted_char(out, c),
    }
}

/// Appends the text character by character. It is marked as cold, so that the push of a text that stands as it is is inlined.
#[inline(never)]
#[cold]
pub(crate) fn push_each(out: &mut String, escape: Escape, text: &str) -> Result<(), AllocError>
    ensures { OnOk result (string_bytes out.new ≡ string_bytes out.old ++ escaped (written_char escape) text.now) }
{
    for c in text.chars() {
        push_char(out, escape, c)?;
    }
    Ok(())
}

/// Appends the text with the characters of the escape written out.
#[inline(always)]
pub(crate) fn push_escaped(out: &mut String, escape: Escape, text: &str) -> Result<(), AllocError>
    ensures { OnOk result (string_bytes out.new ≡ string_bytes out.old ++ escaped (written_char escape) text.now) }
{
    if has_special(escape, text.as_bytes()) {
        push_each(out, escape, text)
    } else {
        out.push_str(text)
    }
}

/// Whether nothing of the text is written out in a JSON string, so that it stands there as it is.
#[inline(always)]
pub fn is_plain_json(text: &str) -> bool
    ensures bytes { result ≡ not (list_any (is_special Json) text.now) }
    ensures plain { IsTrue result → escaped json_char text.now ≡ text.now }
{
    !has_special(Escape::Json, text.as_bytes())
}

/// Appends what stands between the quotes of the text as a JSON string.
///
/// # Errors
///
/// Out of memory. What was appended before is to be dropped.
#[inline(always)]
pub fn push_json_inside(out: &mut String, text: &str) -> Result<(), AllocError>
    ensures { OnOk result (string_bytes out.new ≡ string_bytes out.old ++ escaped json_char text.now) }
{
    push_escaped(out, Escape::Json, text)
}

/// Appends what stands behind the first quote of the text as a JSON string, up to the last quote.
///
/// # Errors
///
/// Out of memory. What was appended before is to be dropped.
#[inline(always)]
pub fn push_json_rest(out: &mut String, text: &str) -> Result<(), AllocError>
    ensures { OnOk result (string_bytes out.new ≡ string_bytes out.old
        ++ (escaped json_char text.now ++ codes "\"")) }
{
    push_json_inside(out, text)?;
    out.push('"')
}

/// Appends the text as a JSON string.
///
/// # Errors
///
/// Out of memory. What was appended before is to be dropped.
#[tactic(auto, unfolding(crate::specs::Escapes::json_string))]
pub fn push_json_string(out: &mut String, text: &str) -> Result<(), AllocError>
    ensures { OnOk result (string_bytes out.new ≡ string_bytes out.old ++ json_string text.now) }
{
    out.push('"')?;
    push_json_rest(out, text)
}

/// Appends the text between quotes, as debug text shows it.
#[tactic(auto, unfolding(tracing_core_fields::specs::Quoted::quoted, crate::specs::Escapes::escaped))]
pub(crate) fn push_quoted(out: &mut String, text: &str) -> Result<(), AllocError>
    ensures { OnOk result (string_bytes out.new ≡ string_bytes out.old ++ quoted text.now) }
{
    out.push('"')?;
    push_escaped(out, Escape::Quoted, text)?;
    out.push('"')
}
