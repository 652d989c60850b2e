//! Whether some period's file has a name.

ghost use Rattle.std.specs.Prelude.{◌≡◌, ◌≢◌, ◌++◌, ◌∷◌, ℤ, IfSome, IfNone, Some, true, false, string_bytes};
ghost use Rattle.std.specs.Option.{option_map};
ghost use Rattle.tracing_core_moments.specs.Days.{is_second};
ghost use Rattle.tracing_core_moments.specs.Periods.{period_of, first_second};
ghost use Rattle.tracing_core_moments.specs.Stamps.{stamp};
ghost use Rattle.tracing_core_moments.specs.Names.{around, lasting_name, name_at, HasName};

use crate::period::PeriodKind;
use crate::read::{read_name, read_stamp, without_prefix};

/// A second of moments whose period's file has that name; none where no file of the kind has it.
pub fn second_named(
    kind: PeriodKind,
    prefix: &Option<String>,
    suffix: &Option<String>,
    name: &[u8],
) -> Option<i64>
    ensures some { IfSome result (λ second. (is_second second ≡ true) ×
        (name.now ≡ name_at kind (option_map string_bytes prefix.now) (option_map string_bytes suffix.now) second)) }
    ensures none { IfNone result ((second : ℤ) → is_second second ≡ true →
        name.now ≢ name_at kind (option_map string_bytes prefix.now) (option_map string_bytes suffix.now) second) }
{
    match kind {
        PeriodKind::Whole => lasting_named(prefix, suffix, name),
        PeriodKind::Minute | PeriodKind::Hour | PeriodKind::Day | PeriodKind::Week => {
            dated_named(kind, prefix, suffix, name)
        }
    }
}

/// The same where a name has the date of its period's first second.
fn dated_named(
    kind: PeriodKind,
    prefix: &Option<String>,
    suffix: &Option<String>,
    name: &[u8],
) -> Option<i64>
    ensures some { IfSome result (λ second. (is_second second ≡ true) ×
        HasName kind (option_map string_bytes prefix.now) (option_map string_bytes suffix.now) name.now second) }
    ensures none { IfNone result ((second first : ℤ) → is_second second ≡ true →
        first_second kind (period_of kind second) ≡ Some first →
        name.now ≢ around (option_map string_bytes prefix.now) (stamp kind first)
        (option_map string_bytes suffix.now)) }
{
    let Some(first) = read_name(kind, prefix, suffix, name) else {
        return None;
    };
    let Some(second) = starting_at(kind, first) else {
        return None;
    };
    Some(second)
}

/// A second of moments whose period begins at a second.
fn starting_at(kind: PeriodKind, first: i64) -> Option<i64>
    ensures some { IfSome result (λ second. (is_second second ≡ true) ×
        (first_second kind (period_of kind second) ≡ Some first)) }
    ensures none { IfNone result ((second : ℤ) → is_second second ≡ true →
        first_second kind (period_of kind second) ≢ Some first) }
{
    let second = first.max(-62_135_596_800);
    if second <= 253_370_764_799 && kind.first_of(second) == Some(first) {
        Some(second)
    } else {
        None
    }
}

/// The same of the one file for all of time.
fn lasting_named(prefix: &Option<String>, suffix: &Option<String>, name: &[u8]) -> Option<i64>
    ensures some { IfSome result (λ second. (is_second second ≡ true) ×
        (name.now ≡ lasting_name (option_map string_bytes prefix.now) (stamp PeriodKind.Whole second)
        (option_map string_bytes suffix.now))) }
    ensures none { IfNone result ((second : ℤ) → is_second second ≡ true →
        name.now ≢ lasting_name (option_map string_bytes prefix.now) (stamp PeriodKind.Whole second)
        (option_map string_bytes suffix.now)) }
{
    match (prefix, suffix) {
        (Some(_), Some(last)) => {
            let Some(rest) = without_prefix(prefix, name) else {
                return None;
            };
            zero_if(rest == last.as_bytes())
        }
        (Some(text), None) => zero_if(name == text.as_bytes()),
        (None, Some(text)) => zero_if(name == text.as_bytes()),
        (None, None) => day_named(name),
    }
}

fn zero_if(holds: bool) -> Option<i64>
    ensures some { IfSome result (λ second. (holds ≡ true) × (is_second second ≡ true)) }
    ensures none { IfNone result (holds ≡ false) }
{
    if holds { Some(0) } else { None }
}

/// The second of moments whose day has that date.
fn day_named(name: &[u8]) -> Option<i64>
    ensures some { IfSome result (λ second. (is_second second ≡ true) × (name.now ≡ stamp PeriodKind.Whole second)) }
    ensures none { IfNone result ((second : ℤ) → is_second second ≡ true → name.now ≢ stamp PeriodKind.Whole second) }
{
    let Some(second) = read_stamp(PeriodKind::Whole, name) else {
        return None;
    };
    if -62_135_596_800 <= second && second <= 253_370_764_799 {
        Some(second)
    } else {
        None
    }
}
