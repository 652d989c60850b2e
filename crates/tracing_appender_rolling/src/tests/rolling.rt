//! Rotations, retention, links, and builders that are refused.

ghost use Rattle.std.specs.Prelude.{◌≡◌, IfOk, true};
ghost use Rattle.tracing_core_moments.specs.Moments.{is_moment};

mod refused_calls;

use crate::folders::MemoryFolder;
use crate::tests::making::{first_name, fresh, holds, linked, named};
use crate::tests::moments::{ELEVEN, FEBRUARY, FIRST, LAST, MONDAY};
use crate::{
    BuildError, BuildRefusal, Builder, RollingFileAppender, Rotation, daily, hourly, minutely,
    never, weekly,
};
use std::alloc::Global;
use std::process::Abort;
use std::test::Fail;
use tracing_core_moments::Moment;

/// So many seconds after 2020-02-01T10:01:00Z.
fn later(seconds: i64) -> Result<Moment, Fail>
    ensures { IfOk result (λ moment. is_moment moment ≡ true) }
{
    match FEBRUARY.seconds.checked_add(seconds) {
        Some(seconds) => Ok(Moment::new(seconds, 0)?),
        None => Err("too late".into()),
    }
}

/// Each rotation, with a prefix and a suffix, gives a fresh file the name in its row.
fn have_names(
    rt: &impl Abort,
    alloc: Global,
    moment: Moment,
    rows: &[(Rotation, &str, &str, &str)],
) -> Result<(), Fail>
    requires { is_moment moment ≡ true }
{
    for (rotation, prefix, suffix, name) in rows {
        let file = first_name(alloc, named(alloc, *rotation, prefix, suffix), moment)?;
        assert_eq!(rt; file.as_str(), *name);
    }
    Ok(())
}

#[test]
fn all_rotations_have_names(rt: HostRuntime) -> Result<(), Fail> {
    let alloc = rt.alloc();
    let rows = [
        (
            Rotation::WEEKLY,
            "my_prefix",
            "log",
            "my_prefix.2025-02-16.log",
        ),
        (
            Rotation::HOURLY,
            "my_prefix",
            "log",
            "my_prefix.2025-02-17-10.log",
        ),
        (
            Rotation::MINUTELY,
            "my_prefix",
            "log",
            "my_prefix.2025-02-17-10-01.log",
        ),
        (Rotation::NEVER, "my_prefix", "log", "my_prefix.log"),
    ];
    have_names(&rt, alloc, MONDAY, &rows)?;
    let alone = first_name(alloc, Builder::new(alloc), MONDAY)?;
    assert_eq!(rt; alone.as_str(), "2025-02-17");
    let halves = [
        (Rotation::NEVER, "app.log", "", "app.log"),
        (Rotation::NEVER, "", "log", "log"),
    ];
    have_names(&rt, alloc, FEBRUARY, &halves)
}

#[test]
fn a_prefix_or_a_suffix_stands_alone(rt: HostRuntime) -> Result<(), Fail> {
    let rows = [
        (Rotation::DAILY, "my_prefix", "", "my_prefix.2025-02-17"),
        (Rotation::DAILY, "", "log", "2025-02-17.log"),
        (Rotation::MINUTELY, "", "log", "2025-02-17-10-01.log"),
    ];
    have_names(&rt, rt.alloc(), MONDAY, &rows)
}

#[test]
fn each_rotation_names_its_file(rt: HostRuntime) -> Result<(), Fail> {
    let rows = [
        (
            Rotation::MINUTELY,
            "app.log",
            "",
            "app.log.2020-02-01-10-01",
        ),
        (Rotation::HOURLY, "app.log", "", "app.log.2020-02-01-10"),
        (Rotation::DAILY, "app.log", "", "app.log.2020-02-01"),
        (Rotation::NEVER, "app.log", "", "app.log"),
        (Rotation::MINUTELY, "", "log", "2020-02-01-10-01.log"),
        (Rotation::HOURLY, "", "log", "2020-02-01-10.log"),
        (Rotation::DAILY, "", "log", "2020-02-01.log"),
        (Rotation::NEVER, "", "log", "log"),
        (Rotation::MINUTELY, "app", "log", "app.2020-02-01-10-01.log"),
        (Rotation::HOURLY, "app", "log", "app.2020-02-01-10.log"),
        (Rotation::DAILY, "app", "log", "app.2020-02-01.log"),
        (Rotation::NEVER, "app", "log", "app.log"),
    ];
    have_names(&rt, rt.alloc(), FEBRUARY, &rows)
}

#[test]
fn a_builder_starts_without_a_link(rt: HostRuntime) -> Result<(), Fail> {
    let alloc = rt.alloc();
    let builder = RollingFileAppender::<MemoryFolder>::builder(alloc);
    assert!(rt; !builder.has_bad_name());
    assert!(rt; !builder.has_bad_link());
    let name = first_name(alloc, builder, MONDAY)?;
    assert_eq!(rt; name.as_str(), "2025-02-17");
    let hour = linked(alloc, Rotation::HOURLY, "p", "", "p.2020-02-01-10");
    assert!(rt; hour.has_bad_link());
    let day = hour.rotation(Rotation::DAILY);
    assert!(rt; !day.has_bad_link());
    Ok(())
}

#[test]
fn names_at_both_ends(rt: HostRuntime) -> Result<(), Fail> {
    let alloc = rt.alloc();
    let first = [
        (
            Rotation::DAILY,
            "my_prefix",
            "log",
            "my_prefix.0001-01-01.log",
        ),
        (
            Rotation::WEEKLY,
            "my_prefix",
            "log",
            "my_prefix.0000-12-31.log",
        ),
    ];
    have_names(&rt, alloc, FIRST, &first)?;
    let last = [(
        Rotation::DAILY,
        "my_prefix",
        "log",
        "my_prefix.9998-12-31.log",
    )];
    have_names(&rt, alloc, LAST, &last)?;
    assert_eq!(rt; Rotation::DAILY.next_date(LAST), Some(253_370_764_800));
    assert_eq!(rt; Rotation::WEEKLY.round_date(MONDAY), Some(1_739_664_000));
    assert_eq!(rt; Rotation::HOURLY.period_start(MONDAY), Some(1_739_786_400));
    assert_eq!(rt; Rotation::MINUTELY.next_date(MONDAY), Some(1_739_786_520));
    assert_eq!(rt; Rotation::NEVER.next_date(MONDAY), None);
    assert_eq!(rt; Rotation::NEVER.round_date(MONDAY), None);
    Ok(())
}

/// Whether a line goes to the file with the name, of an appender with the prefix `p.log`.
fn writes_to(
    made: Result<RollingFileAppender<MemoryFolder>, BuildRefusal<MemoryFolder>>,
    name: &str,
) -> Result<bool, Fail> {
    let mut appender = made.map_err(|refusal| refusal.error)?;
    appender.write_all_at(b"Hello", FEBRUARY)?;
    Ok(holds(appender.folder(), name, b"Hello")?)
}

#[test]
fn each_rotation_writes_one_file(rt: HostRuntime) -> Result<(), Fail> {
    let alloc = rt.alloc();
    let by_minute = minutely(alloc, MemoryFolder::new(alloc), "p.log", FEBRUARY);
    assert!(rt; writes_to(by_minute, "p.log.2020-02-01-10-01")?);
    let by_hour = hourly(alloc, MemoryFolder::new(alloc), "p.log", FEBRUARY);
    assert!(rt; writes_to(by_hour, "p.log.2020-02-01-10")?);
    let by_day = daily(alloc, MemoryFolder::new(alloc), "p.log", FEBRUARY);
    assert!(rt; writes_to(by_day, "p.log.2020-02-01")?);
    let by_week = weekly(alloc, MemoryFolder::new(alloc), "p.log", FEBRUARY);
    assert!(rt; writes_to(by_week, "p.log.2020-01-26")?);
    let mut appender = never(alloc, MemoryFolder::new(alloc), "p.log", FEBRUARY).map_err(
        |refusal| refusal.error,
    )?;
    appender.write_all_at(b"Hel", FEBRUARY)?;
    assert_eq!(rt; appender.write_at(b"lo", LAST)?, 2);
    appender.flush()?;
    assert!(rt; holds(appender.folder(), "p.log", b"Hello")?);
    assert_eq!(rt; appender.into_folder().files()?.len(), 1);
    Ok(())
}

#[test]
fn old_files_go(rt: HostRuntime) -> Result<(), Fail> {
    let alloc = rt.alloc();
    let builder = named(alloc, Rotation::HOURLY, "t", "").max_log_files(2);
    let mut appender = fresh(alloc, builder, FEBRUARY)?;
    appender.write_all_at(b"a", later(1)?)?;
    appender.write_all_at(b"b", later(3_601)?)?;
    appender.write_all_at(b"c", later(7_202)?)?;
    assert_eq!(rt; appender.faults().retentions, 0);
    let folder = appender.into_folder();
    assert_eq!(rt; folder.files()?.len(), 2);
    assert!(rt; holds(&folder, "t.2020-02-01-11", b"b")?);
    assert!(rt; holds(&folder, "t.2020-02-01-12", b"c")?);
    Ok(())
}

#[test]
fn candidates_count_from_their_making(rt: HostRuntime) -> Result<(), Fail> {
    let alloc = rt.alloc();
    let mut folder = MemoryFolder::new(alloc);
    folder.put("t.b", b"1", Some(FEBRUARY))?;
    folder.put("t.a", b"2", Some(FEBRUARY))?;
    folder.put("t.2019-01-01", b"3", None)?;
    folder.put("t.2019-02-29", b"no date", None)?;
    folder.put("u.2019-01-01", b"other", None)?;
    folder.put("t.new", b"4", Some(MONDAY))?;
    let appender = named(alloc, Rotation::DAILY, "t", "")
        .max_log_files(3)
        .build(alloc, folder, FEBRUARY)
        .map_err(|refusal| refusal.error)?;
    let folder = appender.into_folder();
    assert!(rt; !holds(&folder, "t.2019-01-01", b"3")?);
    assert!(rt; !holds(&folder, "t.a", b"2")?);
    assert!(rt; holds(&folder, "t.b", b"1")?);
    assert!(rt; holds(&folder, "t.new", b"4")?);
    assert!(rt; holds(&folder, "t.2019-02-29", b"no date")?);
    assert!(rt; holds(&folder, "u.2019-01-01", b"other")?);
    assert!(rt; holds(&folder, "t.2020-02-01", b"")?);
    Ok(())
}

#[test]
fn a_link_leads_to_the_latest_file(rt: HostRuntime) -> Result<(), Fail> {
    let alloc = rt.alloc();
    let builder = linked(alloc, Rotation::HOURLY, "t", "", "latest.log");
    let mut appender = fresh(alloc, builder, FEBRUARY)?;
    assert_eq!(rt;
        appender.folder().link_target("latest.log"),
        Some("t.2020-02-01-10")
    );
    appender.write_all_at(b"test\n", later(3_540)?)?;
    assert_eq!(rt;
        appender.folder().link_target("latest.log"),
        Some("t.2020-02-01-11")
    );
    assert!(rt; holds(appender.folder(), "t.2020-02-01-11", b"test\n")?);
    // no other file is opened at 11:01:00
    appender.write_all_at(b"again\n", ELEVEN)?;
    assert_eq!(rt;
        appender.folder().link_target("latest.log"),
        Some("t.2020-02-01-11")
    );
    assert!(rt; holds(appender.folder(), "t.2020-02-01-11", b"test\nagain\n")?);
    Ok(())
}

#[test]
fn a_link_moves_in_the_next_hour(rt: HostRuntime) -> Result<(), Fail> {
    let alloc = rt.alloc();
    let builder = linked(alloc, Rotation::HOURLY, "t", "", "latest.log");
    let mut appender = fresh(alloc, builder, FEBRUARY)?;
    appender.write_all_at(b"late\n", ELEVEN)?;
    assert_eq!(rt;
        appender.folder().link_target("latest.log"),
        Some("t.2020-02-01-11")
    );
    assert!(rt; holds(appender.folder(), "t.2020-02-01-10", b"")?);
    assert!(rt; holds(appender.folder(), "t.2020-02-01-11", b"late\n")?);
    Ok(())
}

/// What building over an empty folder in memory is refused for.
fn refusal(alloc: Global, builder: Builder) -> Option<BuildError> {
    match builder.build(alloc, MemoryFolder::new(alloc), FEBRUARY) {
        Ok(_) => None,
        Err(refused) => Some(refused.error),
    }
}

#[test]
fn bad_names_and_links_are_refused(rt: HostRuntime) -> Result<(), Fail> {
    let alloc = rt.alloc();
    let slash = named(alloc, Rotation::HOURLY, "a/b", "");
    assert_eq!(rt; refusal(alloc, slash), Some(BuildError::BadName));
    let dots = named(alloc, Rotation::NEVER, "..", "");
    assert_eq!(rt; refusal(alloc, dots), Some(BuildError::BadName));
    let dots = named(alloc, Rotation::DAILY, "..", "");
    assert_eq!(rt; refusal(alloc, dots), None);
    for (rotation, suffix, link, refused) in [
        (Rotation::HOURLY, "", ".", Some(BuildError::BadName)),
        (
            Rotation::HOURLY,
            "",
            "p.2020-02-01-10",
            Some(BuildError::BadLinkName),
        ),
        (
            Rotation::WEEKLY,
            "",
            "p.2025-02-16",
            Some(BuildError::BadLinkName),
        ),
        (Rotation::WEEKLY, "", "p.2025-02-17", None),
        (
            Rotation::NEVER,
            "log",
            "p.log",
            Some(BuildError::BadLinkName),
        ),
    ] {
        let builder = linked(alloc, rotation, "p", suffix, link);
        assert_eq!(rt; refusal(alloc, builder), refused, "of {link}");
    }
    Ok(())
}
