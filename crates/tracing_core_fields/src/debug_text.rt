//! What is written for values that no other call of a visitor fits.
ghost use Rattle.std.specs.Prelude.{◌≡◌, ◌∷◌, ◌-◌, ◌^◌, [], IsErr};
ghost use Rattle.std.specs.Fmt.{DisplaysOnOk, DisplaysStyledOnOk, WritesStyledOnOk, format_spec, formatter_spec};
ghost use Rattle.std.specs.List.{flat_map};
ghost use Rattle.tracing_core_fields.specs.DebugText.{plain_debug};
ghost use Rattle.tracing_core_fields.specs.Options.{alternate_output, output_under};
ghost use Rattle.tracing_core_fields.specs.PlainDebug.{Unwritable, plain_output, bytes_text, hex_pair};

use crate::error_text::ErrorText;
use crate::hex::write_byte;
use crate::quoted::write_quoted;
use std::fmt;

/// Stands for a value that has Rust's `Debug`: it writes a plain or an alternate text, or fails.
///
/// `{:?}` writes the plain text, and `{:#?}` the alternate one. Anything else writes the same in both; a
/// number or a bool takes the width, the fill and the sign that are asked for.
#[derive(Clone, Copy, PartialEq, Eq)]
pub enum DebugText<'a> {
    /// Texts that were written before.
    Texts {
        /// What `{:?}` writes.
        plain: &'a str,
        /// What `{:#?}` writes.
        alternate: &'a str,
    },
    /// A value whose text can't be written: formatting it is an error.
    Failing,
    /// A signed number of at most 64 bits.
    I64(i64),
    /// An unsigned number of at most 64 bits.
    U64(u64),
    /// A signed number of 128 bits.
    I128(i128),
    /// An unsigned number of 128 bits.
    U128(u128),
    /// A bool.
    Bool(bool),
    /// A text, written between quotes and with escapes.
    Str(&'a str),
    /// Bytes, written in brackets as two lower-case hexadecimal digits each, with a space between.
    Bytes(&'a [u8]),
    /// An error: it writes the error's text, without its sources.
    Error(ErrorText<'a>),
}

// Writes a space and the byte.
#[tactic(auto, using(crate::proofs::StyledLemmas::put_two_styled))]
fn write_later_byte<W: fmt::Write>(byte: u8, f: &mut fmt::Formatter<W>) -> fmt::Result
    ensures { WritesStyledOnOk W.write_str_gives f.old result (32 ∷ hex_pair byte) f.new }
{
    f.write_str(" ")?;
    write_byte(byte, f)
}

// Writes a space before each of the bytes.
fn write_later_bytes<W: fmt::Write>(bytes: &[u8], f: &mut fmt::Formatter<W>) -> fmt::Result
    ensures { WritesStyledOnOk W.write_str_gives f.old result (flat_map (λ byte. 32 ∷ hex_pair byte) bytes.now) f.new }
{
    for &byte in bytes {
        write_later_byte(byte, f)?;
    }
    Ok(())
}

// Writes the bytes in brackets.
fn write_bytes<W: fmt::Write>(bytes: &[u8], f: &mut fmt::Formatter<W>) -> fmt::Result
    ensures { WritesStyledOnOk W.write_str_gives f.old result (bytes_text bytes.now) f.new }
{
    let [first, later @ ..] = bytes else {
        return f.write_str("[]");
    };
    f.write_str("[")?;
    write_byte(*first, f)?;
    write_later_bytes(later, f)?;
    f.write_str("]")
}

// Writes the text under the options of the formatter.
fn write_under<W: fmt::Write>(text: &DebugText<'_>, f: &mut fmt::Formatter<W>) -> fmt::Result
    ensures options { DisplaysStyledOnOk W.write_str_gives f.old result (output_under f.old (plain_debug text.now))
        f.new }
    ensures failing { plain_debug text.now ≡ Unwritable → IsErr result }
{
    match text {
        DebugText::Texts { plain, alternate } => {
            f.write_str(if f.alternate() { alternate } else { plain })
        }
        DebugText::Failing => Err(fmt::Error),
        DebugText::I64(n) => fmt::Display::fmt(n, f),
        DebugText::U64(n) => fmt::Display::fmt(n, f),
        DebugText::I128(n) => fmt::Display::fmt(n, f),
        DebugText::U128(n) => fmt::Display::fmt(n, f),
        DebugText::Bool(b) => fmt::Display::fmt(b, f),
        DebugText::Str(text) => write_quoted(text, f),
        DebugText::Bytes(bytes) => write_bytes(bytes, f),
        DebugText::Error(error) => f.write_str(error.text()),
    }
}

impl fmt::Debug for DebugText<'_> {
    ghost debug_output = { λ text. plain_output (plain_debug text) };

    #[tactic(auto, using(crate::proofs::OptionLemmas::writes_plain, crate::proofs::OptionLemmas::writes_alternate))]
    fn fmt<W: fmt::Write>(&self, f: &mut fmt::Formatter<W>) -> fmt::Result
        ensures writes { DisplaysOnOk W.write_str_gives f.old result (plain_output (plain_debug self.now)) f.new }
        ensures alternate { formatter_spec f.old ≡ format_spec 32 0 2 0 (2 ^ 64 - 1) →
            DisplaysStyledOnOk W.write_str_gives f.old result (alternate_output (plain_debug self.now)) f.new }
        ensures options { DisplaysStyledOnOk W.write_str_gives f.old result
            (output_under f.old (plain_debug self.now)) f.new }
        ensures failing { plain_debug self.now ≡ Unwritable → IsErr result }
    {
        write_under(self, f)
    }
}
