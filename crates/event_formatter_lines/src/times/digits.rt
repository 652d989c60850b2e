//! Numbers in a fixed count of digits.
ghost use Rattle.std.specs.Prelude.{◌≡◌, ◌<◌, ◌++◌, OnOk, string_bytes};
ghost use Rattle.tracing_core_moments.specs.Calendar.{two_digits};
ghost use Rattle.event_formatter_lines.specs.times.Digits.{digit, nine_digits, six_digits, three_digits};

use itoa::Buffer;
use std::alloc::AllocError;

/// Appends a number below 10.
#[inline(always)]
pub(crate) fn push_digit(out: &mut String, number: u32) -> Result<(), AllocError>
    requires { number < 10 }
    ensures { OnOk result (string_bytes out.new ≡ string_bytes out.old ++ digit number) }
{
    out.push((b'0' + number as u8) as char)
}

/// Appends a number below 100 in two digits.
#[inline(always)]
pub(crate) fn push_two(out: &mut String, number: u32) -> Result<(), AllocError>
    requires { number < 100 }
    ensures { OnOk result (string_bytes out.new ≡ string_bytes out.old ++ two_digits number) }
{
    push_digit(out, number / 10)?;
    push_digit(out, number % 10)
}

/// Appends a number below 1,000 in three digits.
#[inline(always)]
pub(crate) fn push_three(out: &mut String, number: u32) -> Result<(), AllocError>
    requires { number < 1000 }
    ensures { OnOk result (string_bytes out.new ≡ string_bytes out.old ++ three_digits number) }
{
    push_digit(out, number / 100)?;
    push_two(out, number % 100)
}

/// Appends a number below 1,000,000 in six digits. A million is added, and the digits behind the first are taken: so they are one text,
/// whose length the compiler knows.
#[inline(always)]
pub(crate) fn push_six(out: &mut String, number: u32) -> Result<(), AllocError>
    requires { number < 1000000 }
    ensures { OnOk result (string_bytes out.new ≡ string_bytes out.old ++ six_digits number) }
{
    let mut buffer = Buffer::new();
    let behind_one = buffer.format(1_000_000 + number);
    out.push_str(&behind_one[1..7])
}

/// Appends a number below 1,000,000,000 in nine digits.
#[tactic(auto, unfolding(crate::specs::times::Digits::nine_digits))]
pub(crate) fn push_nine(out: &mut String, number: u32) -> Result<(), AllocError>
    requires { number < 1000000000 }
    ensures { OnOk result (string_bytes out.new ≡ string_bytes out.old ++ nine_digits number) }
{
    push_three(out, number / 1_000_000)?;
    push_six(out, number % 1_000_000)
}
