//! Texts of dates.

ghost use Rattle.std.specs.Prelude.{◌≡◌, ◌<◌, ◌+◌, ◌++◌, ◌∷◌, [], IfOk, OnOk, string_bytes, true};
ghost use Rattle.jiff.specs.Words.{epoch_day, IsEpochDay};
ghost use Rattle.tracing_core_moments.specs.Days.{is_date, day_at};
ghost use Rattle.tracing_core_moments.specs.Calendar.{date_text, two_digits};
ghost use Rattle.tracing_core_moments.specs.Stamps.{stamp, clock_text, clock_at, hour_text};

use crate::period::PeriodKind;
use jiff::civil::{Date, date};
use std::alloc::{AllocError, Global};

/// The date with that day number.
pub(crate) fn date_of_day(day: i64) -> Date
    requires { IsEpochDay day }
    ensures { epoch_day result ≡ day }
{
    Date::from_plain(date(1970, 1, 1).to_plain().checked_add(day).unwrap())
}

/// The date text `YYYY-MM-DD` of a day's number. Day 0 is 1970-01-01.
///
/// # Errors
///
/// Out of memory.
pub fn date_text(alloc: Global, day: i64) -> Result<String, AllocError>
    requires { is_date day ≡ true }
    ensures { IfOk result (λ text. string_bytes text ≡ date_text day) }
{
    let date = date_of_day(day);
    format!(in alloc; "{date}")
}

/// The date text `YYYY-MM-DD` of a second's day, with `-HH` behind it for `Hour`, and `-HH-MM` for `Minute`.
///
/// # Errors
///
/// Out of memory.
pub fn stamp_text(alloc: Global, kind: PeriodKind, second: i64) -> Result<String, AllocError>
    requires { is_date (day_at second) ≡ true }
    ensures { IfOk result (λ text. string_bytes text ≡ stamp kind second) }
{
    let mut text = date_text(alloc, second.div_euclid(86_400))?;
    push_clock(&mut text, kind, second)?;
    Ok(text)
}

/// Writes the hour, and the minute, where the kind has them.
fn push_clock(text: &mut String, kind: PeriodKind, second: i64) -> Result<(), AllocError>
    ensures { OnOk result (string_bytes text.new ≡ string_bytes text.old ++ clock_text kind second) }
{
    let clock = second_of_day(second);
    match kind {
        PeriodKind::Minute => {
            push_number(text, clock / 3600)?;
            push_number(text, clock % 3600 / 60)?;
        }
        PeriodKind::Hour => push_number(text, clock / 3600)?,
        PeriodKind::Day | PeriodKind::Week | PeriodKind::Whole => {}
    }
    Ok(())
}

/// The second of the day.
fn second_of_day(second: i64) -> u32
    ensures value { result ≡ clock_at second }
    ensures bound { result < 86400 }
{
    second.rem_euclid(86_400) as u32
}

/// Writes a dash and two digits.
fn push_number(text: &mut String, number: u32) -> Result<(), AllocError>
    requires { number < 100 }
    ensures { OnOk result (string_bytes text.new ≡ string_bytes text.old ++ hour_text number) }
{
    text.push('-')?;
    push_digit(text, number / 10)?;
    push_digit(text, number % 10)?;
    Ok(())
}

fn push_digit(text: &mut String, digit: u32) -> Result<(), AllocError>
    requires { digit < 10 }
    ensures { OnOk result (string_bytes text.new ≡ string_bytes text.old ++ (48 + digit) ∷ []) }
{
    text.push((b'0' + digit as u8) as char)?;
    Ok(())
}
