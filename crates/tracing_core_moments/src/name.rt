//! The names of log files.

ghost use Rattle.std.specs.Prelude.{◌≡◌, IfOk, string_bytes, true};
ghost use Rattle.std.specs.Option.{option_map};
ghost use Rattle.tracing_core_moments.specs.Days.{is_second};
ghost use Rattle.tracing_core_moments.specs.Names.{name_at, around, lasting_name};
ghost use Rattle.tracing_core_moments.specs.Stamps.{stamp, named_second};

use crate::date::stamp_text;
use crate::period::PeriodKind;
use std::alloc::{AllocError, Global};

/// The name of the file of a second's period: the prefix, the date of the period's first second, and the
/// suffix, with a point between two. The one file for all of time has a date only where it has neither prefix
/// nor suffix.
///
/// # Errors
///
/// Out of memory.
pub fn name_text(
    alloc: Global,
    kind: PeriodKind,
    prefix: &Option<String>,
    suffix: &Option<String>,
    second: i64,
) -> Result<String, AllocError>
    requires { is_second second ≡ true }
    ensures { IfOk result (λ name. string_bytes name ≡
        name_at kind (option_map string_bytes prefix.now) (option_map string_bytes suffix.now) second) }
{
    let date = stamp_text(alloc, kind, named_second(kind, second))?;
    match kind {
        PeriodKind::Whole => lasting_name(alloc, prefix, date, suffix),
        PeriodKind::Minute | PeriodKind::Hour | PeriodKind::Day | PeriodKind::Week => {
            around(alloc, prefix, date, suffix)
        }
    }
}

/// The second whose date a file's name has.
fn named_second(kind: PeriodKind, second: i64) -> i64
    requires { is_second second ≡ true }
    ensures { result ≡ named_second kind second }
{
    match kind.first_of(second) {
        Some(first) => first,
        None => second,
    }
}

/// The prefix, the date and the suffix, with a point between two.
fn around(
    alloc: Global,
    prefix: &Option<String>,
    date: String,
    suffix: &Option<String>,
) -> Result<String, AllocError>
    ensures { IfOk result (λ name. string_bytes name ≡
        around (option_map string_bytes prefix.now) (string_bytes date) (option_map string_bytes suffix.now)) }
{
    match (prefix, suffix) {
        (Some(prefix), Some(suffix)) => format!(in alloc; "{prefix}.{date}.{suffix}"),
        (Some(prefix), None) => format!(in alloc; "{prefix}.{date}"),
        (None, Some(suffix)) => format!(in alloc; "{date}.{suffix}"),
        (None, None) => Ok(date),
    }
}

/// The prefix and the suffix with a point between them; the date where there is neither.
fn lasting_name(
    alloc: Global,
    prefix: &Option<String>,
    date: String,
    suffix: &Option<String>,
) -> Result<String, AllocError>
    ensures { IfOk result (λ name. string_bytes name ≡
        lasting_name (option_map string_bytes prefix.now) (string_bytes date) (option_map string_bytes suffix.now)) }
{
    match (prefix, suffix) {
        (Some(prefix), Some(suffix)) => format!(in alloc; "{prefix}.{suffix}"),
        (Some(prefix), None) => prefix.clone(),
        (None, Some(suffix)) => suffix.clone(),
        (None, None) => Ok(date),
    }
}
