//! Hexadecimal digits.
ghost use Rattle.std.specs.Prelude.{◌≡◌, ◌<◌, ◌∷◌, [], false};
ghost use Rattle.std.specs.Fmt.{WritesStyledOnOk, digit_glyph, digits};
ghost use Rattle.tracing_core_fields.specs.PlainDebug.{hex_pair};

use std::fmt;

// Writes the digit.
#[tactic(auto, using(std::proofs::lemmas::Str::encode_ascii))]
fn write_digit<W: fmt::Write>(digit: u8, f: &mut fmt::Formatter<W>) -> fmt::Result
    requires { digit < 16 }
    ensures { WritesStyledOnOk W.write_str_gives f.old result (digit_glyph false digit ∷ []) f.new }
{
    let code = if digit < 10 {
        b'0' + digit
    } else {
        b'a' + (digit - 10)
    };
    f.write_char(char::from(code))
}

/// Writes the byte in two digits.
#[tactic(auto, using(crate::proofs::StyledLemmas::put_two_styled))]
pub(crate) fn write_byte<W: fmt::Write>(byte: u8, f: &mut fmt::Formatter<W>) -> fmt::Result
    ensures { WritesStyledOnOk W.write_str_gives f.old result (hex_pair byte) f.new }
{
    write_digit(byte / 16, f)?;
    write_digit(byte % 16, f)
}

/// Writes the number in as few digits as it takes.
#[tactic(auto, using(std::proofs::lemmas::Fmt::hex_one_digit, std::proofs::lemmas::Fmt::hex_two_digits))]
pub(crate) fn write_hex<W: fmt::Write>(number: u8, f: &mut fmt::Formatter<W>) -> fmt::Result
    ensures { WritesStyledOnOk W.write_str_gives f.old result (digits 16 false number) f.new }
{
    if number < 16 {
        write_digit(number, f)
    } else {
        write_byte(number, f)
    }
}
