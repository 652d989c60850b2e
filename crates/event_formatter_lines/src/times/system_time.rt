//! Moments as `YYYY-MM-DDTHH:MM:SS.ffffffZ`.
ghost use Rattle.std.specs.Prelude.{◌≡◌, ◌<◌, ◌++◌, ◌/◌, IfOk, OnOk, codes, string_bytes, true};
ghost use Rattle.tracing_core_moments.specs.Days.{day_at, is_date};
ghost use Rattle.tracing_core_moments.specs.Stamps.{clock_at};
ghost use Rattle.event_formatter_lines.specs.times.Digits.{six_digits};
ghost use Rattle.event_formatter_lines.specs.times.Times.{TellsTime, clock_text, moment_text, second_start, second_text};

use crate::times::digits::{push_six, push_two};
use crate::times::timer::FormatTime;
use event_formatter_text::FormatError;
use std::alloc::{AllocError, Global};
use tracing_core_moments::date_text;

// The days of the years 0 to 9999, from 1970-01-01 on.
const FIRST_DAY: i64 = -719_528;

const LAST_DAY: i64 = 2_932_896;

// How many bytes `YYYY-MM-DDTHH:MM:SS.` has.
const START_LEN: usize = 20;

// How many bytes `ffffffZ` has.
const FRACTION_LEN: usize = 7;

// A second of the years 0 to 9999 with its text and a point, kept since the next line is mostly of the same second.
#[derive(Drop)]
struct LastSecond {
    second: i64,
    text: String,
    ghost dated: { is_date (day_at second) ≡ true },
    ghost right: { string_bytes text ≡ second_text second ++ codes "." },
}

/// Writes moments as `YYYY-MM-DDTHH:MM:SS.ffffffZ`, in UTC; parts of a microsecond are cut off. A moment outside the
/// years 0 to 9999, or one with a second or more of nanoseconds, has no text.
#[derive(Drop)]
pub struct SystemTime {
    last: Option<LastSecond>,
}

// The same error. A call of it tells the compiler which way is cold, so that pushes on the other way are inlined.
#[cold]
fn cold<E>(error: E) -> E
    ensures { result ≡ error }
{
    error
}

// Whether the day is of the years 0 to 9999.
fn is_date_day(day: i64) -> bool
    ensures { result ≡ is_date day }
{
    FIRST_DAY <= day && day <= LAST_DAY
}

// Appends HH:MM:SS of a second of the day.
fn push_clock(out: &mut String, clock: u32) -> Result<(), AllocError>
    requires { clock < 86400 }
    ensures { OnOk result (string_bytes out.new ≡ string_bytes out.old ++ clock_text clock) }
{
    push_two(out, clock / 3600)?;
    out.push(':')?;
    push_two(out, clock % 3600 / 60)?;
    out.push(':')?;
    push_two(out, clock % 60)
}

// The second of the day.
fn clock_of(second: i64) -> u32
    ensures value { result ≡ clock_at second }
    ensures bound { result < 86400 }
{
    second.rem_euclid(86_400) as u32
}

// The second with its text and a point.
#[tactic(auto, unfolding(crate::specs::times::Times::second_text))]
fn second_with_text(alloc: Global, second: i64) -> Result<LastSecond, AllocError>
    requires { is_date (day_at second) ≡ true }
    ensures { IfOk result (λ last. last.second ≡ second) }
{
    let mut text = date_text(alloc, second.div_euclid(86_400))?;
    text.push('T')?;
    push_clock(&mut text, clock_of(second))?;
    text.push('.')?;
    Ok(LastSecond { second, text })
}

// Appends the microseconds and the sign of UTC.
#[inline(always)]
fn push_micros(out: &mut String, microseconds: u32) -> Result<(), AllocError>
    requires { microseconds < 1000000 }
    ensures { OnOk result (string_bytes out.new ≡ string_bytes out.old ++ (six_digits microseconds ++ codes "Z")) }
{
    let Ok(()) = push_six(out, microseconds) else {
        return Err(cold(AllocError));
    };
    out.push('Z')
}

// The same where there is too little room, so that some is made.
#[cold]
#[inline(never)]
fn push_micros_out_of_line(out: &mut String, microseconds: u32) -> Result<(), AllocError>
    requires { microseconds < 1000000 }
    ensures { OnOk result (string_bytes out.new ≡ string_bytes out.old ++ (six_digits microseconds ++ codes "Z")) }
{
    push_micros(out, microseconds)
}

// Appends the microseconds of so many nanoseconds, and the sign of UTC. Room is looked for before the digits are made: the compiler then
// holds none of them while it looks, and copies two at a time.
#[inline(always)]
fn push_fraction(out: &mut String, nanoseconds: u32) -> Result<(), AllocError>
    requires { nanoseconds < 1000000000 }
    ensures { OnOk result (string_bytes out.new ≡ string_bytes out.old ++ (six_digits (nanoseconds / 1000) ++ codes "Z")) }
{
    if out.capacity() - out.len() < FRACTION_LEN {
        return push_micros_out_of_line(out, nanoseconds / 1000);
    }
    push_micros(out, nanoseconds / 1000)
}

impl SystemTime {
    /// A timer that has written nothing yet.
    pub fn new() -> SystemTime {
        SystemTime { last: None }
    }

    // Appends the text of a second that isn't the last one, and a point, and keeps both. It isn't inlined, as few lines need
    // it.
    #[cold]
    #[inline(never)]
    fn push_next_second(
        &mut self,
        alloc: Global,
        out: &mut String,
        second: i64,
    ) -> Result<(), FormatError>
        ensures { TellsTime (second_start second) (string_bytes out.old) result (string_bytes out.new) }
    {
        if !is_date_day(second.div_euclid(86_400)) {
            return Err(FormatError::Failed);
        }
        let next = second_with_text(alloc, second)?;
        out.push_str(next.text.as_str())?;
        self.last = Some(next);
        Ok(())
    }

    // Appends the text of the second and a point: the last one's where it is the same. Its length, which is always the same, is asked, so
    // that the compiler knows it and copies the text by moves, without a call.
    #[inline(always)]
    fn push_second(
        &mut self,
        alloc: Global,
        out: &mut String,
        second: i64,
    ) -> Result<(), FormatError>
        ensures { TellsTime (second_start second) (string_bytes out.old) result (string_bytes out.new) }
    {
        match &self.last {
            Some(last) if last.second == second && last.text.len() == START_LEN => {
                let Ok(()) = out.push_str(last.text.as_str()) else {
                    return Err(cold(FormatError::OutOfMemory));
                };
                Ok(())
            }
            _ => self.push_next_second(alloc, out, second),
        }
    }
}

impl FormatTime for SystemTime {
    ghost text_at = { λ timer s n. moment_text s n };

    #[inline(always)]
    fn format_time(
        &mut self,
        alloc: Global,
        out: &mut String,
        seconds: i64,
        nanoseconds: u32,
    ) -> Result<(), FormatError> {
        if nanoseconds >= 1_000_000_000 {
            return Err(cold(FormatError::Failed));
        }
        if let Err(error) = self.push_second(alloc, out, seconds) {
            return Err(cold(error));
        }
        let Ok(()) = push_fraction(out, nanoseconds) else {
            return Err(cold(FormatError::OutOfMemory));
        };
        Ok(())
    }
}
