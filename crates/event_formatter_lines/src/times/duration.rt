//! Durations in the unit that suits them.
ghost use Rattle.std.specs.Prelude.{◌≡◌, ◌<◌, ◌≤◌, ◌+◌, ◌*◌, ◌/◌, ◌^◌, ◌++◌, OnOk, codes, string_bytes};
ghost use Rattle.std.specs.Fmt.{decimal};
ghost use Rattle.event_formatter_lines.specs.times.Durations.{duration_text, hundredths_text, in_unit, rounded, tenths_text};

use crate::times::digits::{push_digit, push_two};
use itoa::Buffer;
use std::alloc::AllocError;

// The whole number nearest to a quotient, the even one of two that are equally near.
#[tactic(auto, unfolding(crate::specs::times::Durations::rounded))]
fn rounded(number: u128, divisor: u128) -> u128
    requires positive { 0 < divisor }
    requires small { divisor ≤ 1000000000 }
    ensures { result ≡ rounded number divisor }
{
    let whole = number / divisor;
    let rest = 2 * (number % divisor);
    if rest < divisor {
        whole
    } else if divisor < rest {
        whole + 1
    } else {
        whole + whole % 2
    }
}

fn push_number(out: &mut String, number: u128) -> Result<(), AllocError>
    ensures { OnOk result (string_bytes out.new ≡ string_bytes out.old ++ decimal number) }
{
    let mut buffer = Buffer::new();
    out.push_str(buffer.format(number))
}

// Appends a number of hundredths.
fn push_hundredths(out: &mut String, number: u128) -> Result<(), AllocError>
    ensures { OnOk result (string_bytes out.new ≡ string_bytes out.old ++ hundredths_text number) }
{
    push_number(out, number / 100)?;
    out.push('.')?;
    push_two(out, (number % 100) as u32)
}

// Appends a number of tenths.
fn push_tenths(out: &mut String, number: u128) -> Result<(), AllocError>
    ensures { OnOk result (string_bytes out.new ≡ string_bytes out.old ++ tenths_text number) }
{
    push_number(out, number / 10)?;
    out.push('.')?;
    push_digit(out, (number % 10) as u32)
}

// Appends the duration in the unit.
fn push_in_unit(out: &mut String, ns: u128, size: u128, unit: &str) -> Result<(), AllocError>
    requires positive { 0 < size }
    requires small { size ≤ 1000000000 }
    ensures { OnOk result (string_bytes out.new ≡ string_bytes out.old ++ in_unit ns size unit.now) }
{
    if ns < 10 * size {
        push_hundredths(out, rounded(100 * ns, size))?;
    } else if ns < 100 * size {
        push_tenths(out, rounded(10 * ns, size))?;
    } else {
        push_number(out, rounded(ns, size))?;
    }
    out.push_str(unit)
}

/// Appends a duration of so many nanoseconds in the first of the units `ns`, `µs`, `ms` and `s` that makes it less than
/// 1000, with two decimals below 10 and one below 100, else in whole seconds. It is rounded half to even.
///
/// # Errors
///
/// Out of memory.
pub fn push_duration(out: &mut String, ns: u128) -> Result<(), AllocError>
    ensures { OnOk result (string_bytes out.new ≡ string_bytes out.old ++ duration_text ns) }
{
    if ns < 1_000 {
        push_in_unit(out, ns, 1, "ns")
    } else if ns < 1_000_000 {
        push_in_unit(out, ns, 1_000, "µs")
    } else if ns < 1_000_000_000 {
        push_in_unit(out, ns, 1_000_000, "ms")
    } else {
        push_in_unit(out, ns, 1_000_000_000, "s")
    }
}
