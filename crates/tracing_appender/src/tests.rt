//! Lines by a clock that is set, by one that runs, and by the machine's.

ghost use Rattle.std.specs.Prelude.{◌≡◌, IfOk, true};
ghost use Rattle.tracing_core_moments.specs.Moments.{is_moment};

mod clocks;
mod refused;
mod settling;
mod surface;
mod threads;

use crate::{
    Builder, Clock, Clocked, ClockedAppender, FaultyFolder, FixedClock, Folder, MemoryFolder,
    Moment, RollingFileAppender, Rotation, non_blocking,
};
use clocks::{FEBRUARY, HourClock};
use event_formatter_text::MakeWriter;
use std::alloc::{AllocError, Global};
use std::io;
use std::io::Write;
use std::test::Fail;
use tracing_core_fields::{FieldSet, Identifier, Kind, Level, Metadata};

/// So many seconds after 2020-02-01T10:01:00Z.
fn later(seconds: i64) -> Result<Moment, Fail>
    ensures { IfOk result (λ moment. is_moment moment ≡ true) }
{
    match FEBRUARY.seconds.checked_add(seconds) {
        Some(seconds) => Ok(Moment::new(seconds, 0)?),
        None => Err("too late".into()),
    }
}

/// An appender whose file changes each hour, opened on 2020-02-01 at 10:01.
fn hourly_files<D: Folder>(alloc: Global, folder: D) -> Result<RollingFileAppender<D>, Fail> {
    let appender = Builder::new(alloc)
        .rotation(Rotation::HOURLY)
        .filename_prefix("test_make_writer")
        .build(alloc, folder, FEBRUARY)
        .map_err(|refusal| refusal.error)?;
    Ok(appender)
}

/// Hands a line over as a formatter does, which knows nothing of the maker but that it takes lines.
fn hand<M: MakeWriter>(maker: &mut M, line: &[u8]) -> io::Result<()> {
    let fields = FieldSet::new(&[], Identifier(1));
    let level = Level::INFO;
    let metadata = Metadata::new("n", "app", level, None, None, None, fields, Kind::EVENT);
    maker.write_for(&metadata, line)
}

/// Writes a line as any writer's user does.
fn put<W: Write>(writer: &mut W, line: &[u8]) -> io::Result<()> {
    writer.write_all(line)?;
    writer.flush()
}

/// Whether the folder has the file with these bytes.
fn holds(folder: &MemoryFolder, name: &str, bytes: &[u8]) -> Result<bool, AllocError> {
    let entries = folder.files()?;
    Ok(
        entries
            .iter()
            .any(|entry| entry.name == name && entry.bytes == bytes),
    )
}

/// Whether two lines stand in the file of each hour.
fn has_two_hours(folder: &MemoryFolder) -> Result<bool, AllocError> {
    Ok(
        holds(
            folder,
            "test_make_writer.2020-02-01-10",
            b"file 1\nfile 1\n",
        )? && holds(
            folder,
            "test_make_writer.2020-02-01-11",
            b"file 2\nfile 2\n",
        )?,
    )
}

#[test]
fn lines_go_to_the_file_of_their_hour(rt: HostRuntime) -> Result<(), Fail> {
    let alloc = rt.alloc();
    let appender = hourly_files(alloc, MemoryFolder::new(alloc))?;
    let mut clocked = appender.clocked(FixedClock::new(later(0)?));
    hand(&mut clocked, b"file 1\n")?;
    clocked.clock_mut().set(later(1)?);
    hand(&mut clocked, b"file 1\n")?;
    clocked.clock_mut().set(later(3_601)?);
    hand(&mut clocked, b"file 2\n")?;
    clocked.clock_mut().set(later(3_602)?);
    hand(&mut clocked, b"file 2\n")?;
    assert!(rt; has_two_hours(clocked.appender().folder())?);
    assert_eq!(rt; clocked.into_appender().into_folder().files()?.len(), 2);
    Ok(())
}

#[test]
fn bytes_go_to_the_file_of_their_hour(rt: HostRuntime) -> Result<(), Fail> {
    let alloc = rt.alloc();
    let appender = hourly_files(alloc, MemoryFolder::new(alloc))?;
    let mut clocked = ClockedAppender::new(appender, FixedClock::new(later(0)?));
    put(&mut clocked, b"file 1\n")?;
    clocked.clock_mut().set(later(1)?);
    put(&mut clocked, b"file 1\n")?;
    clocked.clock_mut().set(later(3_601)?);
    put(&mut clocked, b"file 2\n")?;
    clocked.clock_mut().set(later(3_602)?);
    assert_eq!(rt; clocked.write(b"file 2\n")?, 7);
    assert!(rt; has_two_hours(clocked.appender().folder())?);
    Ok(())
}

/// A clock that goes back, even behind the opening, changes no file. The hours that come again later have no second file.
#[test]
fn a_clock_that_goes_back_changes_no_file(rt: HostRuntime) -> Result<(), Fail> {
    let alloc = rt.alloc();
    let appender = hourly_files(alloc, MemoryFolder::new(alloc))?;
    let mut clocked = appender.clocked(FixedClock::new(later(0)?));
    for (second, line) in [
        (3_600, b"a\n"),
        (0, b"b\n"),
        (-86_400, b"c\n"),
        (3_700, b"d\n"),
        (7_200, b"e\n"),
        (3_600, b"f\n"),
    ] {
        clocked.clock_mut().set(later(second)?);
        hand(&mut clocked, line)?;
    }
    let mut writer = clocked.make_writer();
    put(&mut writer, b"g\n")?;
    let folder = clocked.appender().folder();
    assert_eq!(rt; folder.files()?.len(), 3);
    assert!(rt; holds(folder, "test_make_writer.2020-02-01-10", b"")?);
    let eleven = b"a\nb\nc\nd\n";
    assert!(rt; holds(folder, "test_make_writer.2020-02-01-11", eleven)?);
    assert!(rt; holds(folder, "test_make_writer.2020-02-01-12", b"e\nf\ng\n")?);
    Ok(())
}

/// The clock goes on by an hour at each reading.
#[test]
fn a_writer_stays_with_its_file(rt: HostRuntime) -> Result<(), Fail> {
    let alloc = rt.alloc();
    let appender = hourly_files(alloc, MemoryFolder::new(alloc))?;
    let mut clocked = ClockedAppender::new(appender, HourClock::new());
    let mut writer = clocked.make_writer();
    put(&mut writer, b"file 1\n")?;
    assert_eq!(rt; writer.write(b"file 1\n")?, 7);
    let mut writer = clocked.make_writer();
    put(&mut writer, b"file 2\n")?;
    put(&mut writer, b"file 2\n")?;
    assert!(rt; has_two_hours(clocked.appender().folder())?);
    assert_eq!(rt; clocked.into_appender().into_folder().files()?.len(), 2);
    Ok(())
}

#[test]
fn a_worker_writes_lines_of_a_formatter_to_a_file(rt: HostRuntime) -> Result<(), Fail> {
    let alloc = rt.alloc();
    let appender = hourly_files(alloc, MemoryFolder::new(alloc))?;
    let files = appender.clocked(FixedClock::new(later(0)?));
    let (mut sender, guard) = threads::started(non_blocking(rt, alloc, files))?;
    let first = hand(&mut sender, b"file 1\n");
    let second = put(&mut sender, b"file 1\n");
    let files = guard.finish(&rt);
    first?;
    second?;
    let folder = files.appender().folder();
    assert!(rt;
        holds(
            folder,
            "test_make_writer.2020-02-01-10",
            b"file 1\nfile 1\n"
        )?
    );
    Ok(())
}
