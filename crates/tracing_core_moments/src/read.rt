//! Strict reading of dates and of names with dates.

ghost use Rattle.std.specs.Prelude.{◌≡◌, ◌≢◌, ◌<◌, ◌+◌, ◌++◌, ◌*◌, ◌/◌, ◌%◌, ℕ, ℤ, List, IfSome, IfNone, true, string_bytes};
ghost use Rattle.std.specs.Option.{option_map};
ghost use Rattle.tracing_core_moments.specs.Days.{is_date, day_at};
ghost use Rattle.tracing_core_moments.specs.Calendar.{date_text, civil_text, two_digits};
ghost use Rattle.tracing_core_moments.specs.Stamps.{stamp, stamped, hour_text, clock_part, told_part};
ghost use Rattle.tracing_core_moments.specs.Names.{around, before_date, after_date};

use crate::period::PeriodKind;
use jiff::civil::Date;

/// The second that a date text tells, where it is one. It is `YYYY-MM-DD`, with `-HH` for `Hour` and `-HH-MM` for
/// `Minute`, of a year from 0000 to 9999. Nothing may stand before or after it.
pub fn read_stamp(kind: PeriodKind, bytes: &[u8]) -> Option<i64>
    // The text is exactly what is printed of the answered second, which is the first of its day, hour or minute.
    ensures some { IfSome result (λ second. (is_date (day_at second) ≡ true) × (stamped kind second ≡ second) ×
        (bytes.now ≡ stamp kind second)) }
    ensures none { IfNone result ((second : ℤ) → is_date (day_at second) ≡ true → bytes.now ≢ stamp kind second) }
{
    let Some((day, rest)) = take_date(bytes) else {
        return None;
    };
    let Some(clock) = read_clock(kind, rest) else {
        return None;
    };
    Some(day * 86_400 + clock as i64)
}

/// The second that the date in a name tells: the name is the prefix, the date and the suffix, with a point between two.
pub fn read_name(
    kind: PeriodKind,
    prefix: &Option<String>,
    suffix: &Option<String>,
    name: &[u8],
) -> Option<i64>
    ensures some { IfSome result (λ second. (is_date (day_at second) ≡ true) × (stamped kind second ≡ second) ×
        (name.now ≡ around (option_map string_bytes prefix.now) (stamp kind second)
        (option_map string_bytes suffix.now))) }
    ensures none { IfNone result ((second : ℤ) → is_date (day_at second) ≡ true →
        name.now ≢ around (option_map string_bytes prefix.now) (stamp kind second)
        (option_map string_bytes suffix.now)) }
{
    let Some(rest) = without_prefix(prefix, name) else {
        return None;
    };
    let Some(date) = without_suffix(suffix, rest) else {
        return None;
    };
    let Some(second) = read_stamp(kind, date) else {
        return None;
    };
    Some(second)
}

/// What stands behind a prefix and a point.
pub(crate) fn without_prefix<'a>(prefix: &Option<String>, name: &'a [u8]) -> Option<&'a [u8]>
    ensures some { IfSome result (λ rest. name.now ≡ before_date (option_map string_bytes prefix.now) ++ rest.now) }
    ensures none { IfNone result ((rest : List ℕ) → name.now ≢ before_date (option_map string_bytes prefix.now)
        ++ rest) }
{
    match prefix {
        None => Some(name),
        Some(prefix) => {
            let Some(rest) = behind(prefix.as_bytes(), name) else {
                return None;
            };
            let Some(date) = behind(b".", rest) else {
                return None;
            };
            Some(date)
        }
    }
}

/// What stands before a point and a suffix.
fn without_suffix<'a>(suffix: &Option<String>, name: &'a [u8]) -> Option<&'a [u8]>
    ensures some { IfSome result (λ rest. name.now ≡ rest.now ++ after_date (option_map string_bytes suffix.now)) }
    ensures none { IfNone result ((rest : List ℕ) → name.now ≢ rest
        ++ after_date (option_map string_bytes suffix.now)) }
{
    match suffix {
        None => Some(name),
        Some(suffix) => {
            let Some(rest) = before(suffix.as_bytes(), name) else {
                return None;
            };
            let Some(date) = before(b".", rest) else {
                return None;
            };
            Some(date)
        }
    }
}

/// What stands behind these first bytes.
fn behind<'a>(first: &[u8], bytes: &'a [u8]) -> Option<&'a [u8]>
    ensures some { IfSome result (λ rest. bytes.now ≡ first.now ++ rest.now) }
    ensures none { IfNone result ((rest : List ℕ) → bytes.now ≢ first.now ++ rest) }
{
    let Some(rest) = bytes.strip_prefix(first) else {
        return None;
    };
    Some(rest)
}

/// What stands before these last bytes.
fn before<'a>(last: &[u8], bytes: &'a [u8]) -> Option<&'a [u8]>
    ensures some { IfSome result (λ rest. bytes.now ≡ rest.now ++ last.now) }
    ensures none { IfNone result ((rest : List ℕ) → bytes.now ≢ rest ++ last.now) }
{
    let Some(rest) = bytes.strip_suffix(last) else {
        return None;
    };
    Some(rest)
}

/// The day of a date in front, and what stands behind it.
fn take_date(bytes: &[u8]) -> Option<(i64, &[u8])>
    ensures some { IfSome result (λ taken. (is_date taken.0 ≡ true) × (bytes.now ≡ date_text taken.0 ++ taken.1.now)) }
    ensures none { IfNone result ((day : ℤ) (rest : List ℕ) → is_date day ≡ true → bytes.now ≢ date_text day ++ rest) }
{
    let Some((century, after_century)) = take_two(bytes) else {
        return None;
    };
    let Some((year, after_year)) = take_two(after_century) else {
        return None;
    };
    let Some((month, after_month)) = take_field(after_year) else {
        return None;
    };
    let Some((day, after_day)) = take_field(after_month) else {
        return None;
    };
    let Some(number) = day_of_date(century * 100 + year, month, day) else {
        return None;
    };
    Some((number, after_day))
}

/// The number of a day of the calendar.
fn day_of_date(year: u32, month: u32, day: u32) -> Option<i64>
    requires { (year < 10000) × (month < 100) × (day < 100) }
    ensures some { IfSome result (λ number. (is_date number ≡ true) ×
        (date_text number ≡ civil_text (record { year = year; month = month; day = day }))) }
    ensures none { IfNone result ((number : ℤ) → is_date number ≡ true →
        date_text number ≢ civil_text (record { year = year; month = month; day = day })) }
{
    match Date::new(year as i16, month as i8, day as i8) {
        Ok(date) => Some(date.to_plain().to_unix_epoch_day() as i64),
        Err(_) => None,
    }
}

/// The second of the day that the hour and the minute tell; 0 for kinds that have neither.
fn read_clock(kind: PeriodKind, bytes: &[u8]) -> Option<u32>
    ensures some { IfSome result (λ clock. (clock < 86400) × (told_part kind clock ≡ clock) ×
        (bytes.now ≡ clock_part kind clock)) }
    ensures none { IfNone result ((clock : ℕ) → clock < 86400 → bytes.now ≢ clock_part kind clock) }
{
    match kind {
        PeriodKind::Minute => read_minute(bytes),
        PeriodKind::Hour => read_hour(bytes),
        PeriodKind::Day | PeriodKind::Week | PeriodKind::Whole => {
            if bytes.is_empty() { Some(0) } else { None }
        }
    }
}

fn read_hour(bytes: &[u8]) -> Option<u32>
    ensures some { IfSome result (λ clock. (clock < 86400) × (clock / 3600 * 3600 ≡ clock) ×
        (bytes.now ≡ hour_text (clock / 3600))) }
    ensures none { IfNone result ((clock : ℕ) → clock < 86400 → bytes.now ≢ hour_text (clock / 3600)) }
{
    match take_field(bytes)? {
        (hour, []) if hour < 24 => Some(hour * 3600),
        _ => None,
    }
}

fn read_minute(bytes: &[u8]) -> Option<u32>
    ensures some { IfSome result (λ clock. (clock < 86400) × (clock / 60 * 60 ≡ clock) ×
        (bytes.now ≡ hour_text (clock / 3600) ++ hour_text (clock % 3600 / 60))) }
    ensures none { IfNone result ((clock : ℕ) → clock < 86400 →
        bytes.now ≢ hour_text (clock / 3600) ++ hour_text (clock % 3600 / 60)) }
{
    let (hour, rest) = take_field(bytes)?;
    match take_field(rest)? {
        (minute, []) if hour < 24 && minute < 60 => Some(hour * 3600 + minute * 60),
        _ => None,
    }
}

/// A dash and two digits in front, and what stands behind them.
fn take_field(bytes: &[u8]) -> Option<(u32, &[u8])>
    ensures some { IfSome result (λ taken. (taken.0 < 100) × (bytes.now ≡ hour_text taken.0 ++ taken.1.now)) }
    ensures none { IfNone result ((number : ℕ) (rest : List ℕ) → number < 100 → bytes.now ≢ hour_text number ++ rest) }
{
    match bytes {
        [b'-', digits @ ..] => {
            let Some((number, rest)) = take_two(digits) else {
                return None;
            };
            Some((number, rest))
        }
        _ => None,
    }
}

/// Two digits in front, and what stands behind them.
fn take_two(bytes: &[u8]) -> Option<(u32, &[u8])>
    ensures some { IfSome result (λ taken. (taken.0 < 100) × (bytes.now ≡ two_digits taken.0 ++ taken.1.now)) }
    ensures none { IfNone result ((number : ℕ) (rest : List ℕ) → number < 100 → bytes.now ≢ two_digits number ++ rest) }
{
    match bytes {
        [tens, ones, rest @ ..] => {
            let Some(tens) = digit_of(*tens) else {
                return None;
            };
            let Some(ones) = digit_of(*ones) else {
                return None;
            };
            Some((tens * 10 + ones, rest))
        }
        _ => None,
    }
}

/// The number of a digit.
fn digit_of(byte: u8) -> Option<u32>
    ensures some { IfSome result (λ digit. (digit < 10) × (byte ≡ 48 + digit)) }
    ensures none { IfNone result ((digit : ℕ) → digit < 10 → byte ≢ 48 + digit) }
{
    if b'0' <= byte && byte <= b'9' {
        Some((byte - b'0') as u32)
    } else {
        None
    }
}
