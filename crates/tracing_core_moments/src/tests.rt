//! Names of all kinds, periods at both ends, and dates that are read.

ghost use Rattle.std.specs.Prelude.{◌≡◌, true};
ghost use Rattle.tracing_core_moments.specs.Days.{is_second};

use crate::{PeriodKind, date_text, name_text, read_name, read_stamp, second_named, stamp_text};
use std::alloc::{AllocError, Global};
use std::test::Fail;

/// 2020-02-01T10:01:00Z.
const FEBRUARY: i64 = 1_580_551_260;

/// 0001-01-01T00:00:00Z.
const FIRST: i64 = -62_135_596_800;

/// 9998-12-31T23:59:59Z.
const LAST: i64 = 253_370_764_799;

/// A text, or none where it is empty.
fn part(alloc: Global, text: &str) -> Result<Option<String>, AllocError> {
    if text.is_empty() {
        return Ok(None);
    }
    Ok(Some(String::from_str(alloc, text)?))
}

fn name(
    alloc: Global,
    kind: PeriodKind,
    prefix: &str,
    suffix: &str,
    second: i64,
) -> Result<String, AllocError>
    requires { is_second second ≡ true }
{
    let prefix = part(alloc, prefix)?;
    let suffix = part(alloc, suffix)?;
    name_text(alloc, kind, &prefix, &suffix, second)
}

/// The date in a name with the prefix `app` and the suffix `log`.
fn read(alloc: Global, kind: PeriodKind, name: &str) -> Result<Option<i64>, AllocError> {
    let prefix = part(alloc, "app")?;
    let suffix = part(alloc, "log")?;
    Ok(read_name(kind, &prefix, &suffix, name.as_bytes()))
}

#[test]
fn names_have_their_parts(rt: HostRuntime) -> Result<(), Fail> {
    let alloc = rt.alloc();
    for (kind, prefix, suffix, text) in [
        (
            PeriodKind::Minute,
            "app.log",
            "",
            "app.log.2020-02-01-10-01",
        ),
        (PeriodKind::Hour, "app.log", "", "app.log.2020-02-01-10"),
        (PeriodKind::Day, "app.log", "", "app.log.2020-02-01"),
        (PeriodKind::Whole, "app.log", "", "app.log"),
        (PeriodKind::Minute, "", "log", "2020-02-01-10-01.log"),
        (PeriodKind::Hour, "", "log", "2020-02-01-10.log"),
        (PeriodKind::Day, "", "log", "2020-02-01.log"),
        (PeriodKind::Whole, "", "log", "log"),
    ] {
        let made = name(alloc, kind, prefix, suffix, FEBRUARY)?;
        assert_eq!(rt; made.as_str(), text);
    }
    Ok(())
}

#[test]
fn the_ends_have_names(rt: HostRuntime) -> Result<(), Fail> {
    let alloc = rt.alloc();
    let first = name(alloc, PeriodKind::Day, "my_prefix", "log", FIRST)?;
    assert_eq!(rt; first.as_str(), "my_prefix.0001-01-01.log");
    let last = name(alloc, PeriodKind::Day, "my_prefix", "log", LAST)?;
    assert_eq!(rt; last.as_str(), "my_prefix.9998-12-31.log");
    let week = name(alloc, PeriodKind::Week, "my_prefix", "log", FIRST)?;
    assert_eq!(rt; week.as_str(), "my_prefix.0000-12-31.log");
    assert_eq!(rt; date_text(alloc, -1)?.as_str(), "1969-12-31");
    let before = stamp_text(alloc, PeriodKind::Minute, -1)?;
    assert_eq!(rt; before.as_str(), "1969-12-31-23-59");
    Ok(())
}

#[test]
fn periods_have_ends(rt: HostRuntime) -> Result<(), Fail> {
    assert_eq!(rt; PeriodKind::Day.next_after(LAST), Some(253_370_764_800));
    assert_eq!(rt; PeriodKind::Day.first_of(-1), Some(-86_400));
    assert_eq!(rt; PeriodKind::Hour.next_after(-1), Some(0));
    assert_eq!(rt; PeriodKind::Minute.first_of(FEBRUARY + 59), Some(FEBRUARY));
    assert_eq!(rt; PeriodKind::Week.first_of(FIRST), Some(FIRST - 86_400));
    assert_eq!(rt; PeriodKind::Week.period_of(FIRST), -102_737);
    assert_eq!(rt; PeriodKind::Whole.first_of(0), None);
    assert_eq!(rt; PeriodKind::Whole.next_after(0), None);
    Ok(())
}

#[test]
fn dates_are_read(rt: HostRuntime) -> Result<(), Fail> {
    let alloc = rt.alloc();
    for (kind, name, second) in [
        (PeriodKind::Day, "app.2020-02-01.log", Some(1_580_515_200)),
        (
            PeriodKind::Hour,
            "app.2020-02-01-10.log",
            Some(1_580_551_200),
        ),
        (
            PeriodKind::Minute,
            "app.2020-02-01-10-01.log",
            Some(FEBRUARY),
        ),
        (PeriodKind::Day, "app.2019-02-29.log", None),
        (PeriodKind::Hour, "app.2020-02-01-24.log", None),
        (PeriodKind::Hour, "app.2020-02-01.log", None),
        (PeriodKind::Day, "app2020-02-01.log", None),
        (PeriodKind::Day, "app.2020-02-01log", None),
        (PeriodKind::Day, "app.log", None),
    ] {
        assert_eq!(rt; read(alloc, kind, name)?, second, "of {name}");
    }
    for (kind, stamp, second) in [
        (PeriodKind::Day, "0000-01-01", Some(-62_167_219_200)),
        (PeriodKind::Week, "9999-12-31", Some(253_402_214_400)),
        (PeriodKind::Whole, "+999-12-31", None),
        (PeriodKind::Day, "2020-2-01", None),
        (PeriodKind::Minute, "2020-02-01-10-60", None),
    ] {
        assert_eq!(rt; read_stamp(kind, stamp.as_bytes()), second, "of {stamp}");
    }
    assert_eq!(rt;
        read_name(PeriodKind::Day, &None, &None, b"2020-02-01"),
        Some(1_580_515_200)
    );
    Ok(())
}

#[test]
fn some_period_has_the_name(rt: HostRuntime) -> Result<(), Fail> {
    let alloc = rt.alloc();
    let prefix = part(alloc, "p")?;
    for (kind, name, second) in [
        (PeriodKind::Week, "p.0000-12-31", Some(FIRST)),
        (PeriodKind::Day, "p.0000-12-31", None),
        (PeriodKind::Week, "p.2025-02-17", None),
        (PeriodKind::Whole, "p", Some(0)),
    ] {
        let found = second_named(kind, &prefix, &None, name.as_bytes());
        assert_eq!(rt; found, second, "of {name}");
    }
    assert_eq!(rt;
        second_named(PeriodKind::Whole, &None, &None, b"9999-01-01"),
        None
    );
    Ok(())
}
