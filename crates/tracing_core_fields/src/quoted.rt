//! Texts between quotes.
ghost use Rattle.std.specs.Prelude.{◌≡◌, ◌++◌, ◌<◌, false, codes};
ghost use Rattle.std.specs.Fmt.{WritesStyledOnOk, digits};
ghost use Rattle.tracing_core_fields.specs.Quoted.{is_control, quoted, quoted_char};

use crate::hex::write_hex;
use std::fmt;

// Whether the character is a control of ASCII, DEL, or one of those from U+0080 on.
fn is_control(c: char) -> bool
    ensures { result ≡ is_control c }
{
    let code = c as u32;
    code < 32 || (127 <= code && code <= 159)
}

// Writes the number of a control.
#[tactic(auto, using(crate::proofs::StyledLemmas::put_three_styled))]
fn write_code<W: fmt::Write>(code: u8, f: &mut fmt::Formatter<W>) -> fmt::Result
    ensures { WritesStyledOnOk W.write_str_gives f.old result (codes "\\u{" ++ (digits 16 false code ++ codes "}"))
        f.new }
{
    f.write_str("\\u{")?;
    write_hex(code, f)?;
    f.write_str("}")
}

// Writes the character as it stands between quotes.
#[tactic(auto, unfolding(crate::specs::Quoted::quoted_char))]
fn write_quoted_char<W: fmt::Write>(c: char, f: &mut fmt::Formatter<W>) -> fmt::Result
    ensures { WritesStyledOnOk W.write_str_gives f.old result (quoted_char c) f.new }
{
    match c {
        '"' => f.write_str("\\\""),
        '\\' => f.write_str("\\\\"),
        '\n' => f.write_str("\\n"),
        '\r' => f.write_str("\\r"),
        '\t' => f.write_str("\\t"),
        '\0' => f.write_str("\\0"),
        other if is_control(other) => {
            let code = other as u32;
            write_code(code as u8, f)
        }
        other => f.write_char(other),
    }
}

/// Writes the text between quotes, with escapes.
#[tactic(auto, unfolding(crate::specs::Quoted::quoted))]
pub(crate) fn write_quoted<W: fmt::Write>(text: &str, f: &mut fmt::Formatter<W>) -> fmt::Result
    ensures { WritesStyledOnOk W.write_str_gives f.old result (quoted text.now) f.new }
{
    f.write_str("\"")?;
    for c in text.chars() {
        write_quoted_char(c, f)?;
    }
    f.write_str("\"")
}
