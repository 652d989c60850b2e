//! Names, days, a folder that fails, and each call once.

ghost use Rattle.std.specs.Prelude.{◌≡◌, true};
ghost use Rattle.tracing_core_moments.specs.Moments.{is_moment};

mod making;
mod many;
mod moments;
mod rolling;
mod system;

use crate::folders::{Entry, FileNumber, Folder, FolderError, FolderFault, MemoryFolder};
use crate::{BuildError, Builder, InitContext, InitError, Rotation};
use making::{first_name, fresh, has_files, named};
use moments::{MONDAY_MIDNIGHT, TUESDAY_MIDNIGHT};
use std::alloc::{AllocError, Global};
use std::test::Fail;
use tracing_core_moments::{Moment, date_text};

/// A folder that opens so many files and lists so many times, with no memory after that, and takes one byte at a
/// write.
#[derive(Drop)]
struct SlowFolder {
    alloc: Global,
    openings: usize,
    listings: usize,
    written: Vec<(usize, u8)>,
    failures: u64,
}

impl SlowFolder {
    fn new(alloc: Global, openings: usize) -> SlowFolder {
        SlowFolder {
            alloc,
            openings,
            listings: 1,
            written: Vec::new(alloc),
            failures: 0,
        }
    }
}

impl Folder for SlowFolder {
    ghost use Rattle.std.specs.Prelude.{None};

    ghost contents = { λ _. None };

    ghost failed = { λ f. f.failures };

    fn open_append(&mut self, _name: &str) -> Result<FileNumber, FolderError> {
        if self.openings == 0 {
            self.failures = self.failures.saturating_add(1);
            return Err(FolderError::Fault(FolderFault::Refused));
        }
        self.openings -= 1;
        Ok(FileNumber::new(self.openings))
    }

    fn close_file(&mut self, _file: FileNumber) -> Result<(), FolderError> {
        Ok(())
    }

    fn write(&mut self, file: FileNumber, bytes: &[u8]) -> Result<usize, FolderError> {
        match bytes.first() {
            Some(byte) => {
                self.written.push((file.index(), *byte))?;
                Ok(1)
            }
            None => Ok(0),
        }
    }

    fn create_dirs(&mut self) -> Result<(), FolderError> {
        Ok(())
    }

    fn flush(&mut self, _file: FileNumber) -> Result<(), FolderError> {
        Ok(())
    }

    fn list(&mut self, _prefix: &str) -> Result<Vec<Entry>, FolderError> {
        if self.listings == 0 {
            return Err(FolderError::OutOfMemory);
        }
        self.listings -= 1;
        Ok(Vec::new(self.alloc))
    }

    fn remove(&mut self, _name: &str) -> Result<(), FolderError> {
        Ok(())
    }

    fn link(&mut self, _name: &str, _target: &str) -> Result<(), FolderError> {
        Ok(())
    }

    fn failures(&self) -> u64 {
        self.failures
    }
}

fn builder(alloc: Global, prefix: &str, suffix: &str) -> Builder {
    named(alloc, Rotation::DAILY, prefix, suffix)
}

#[test]
fn names_have_their_parts(rt: HostRuntime) -> Result<(), Fail> {
    let alloc = rt.alloc();
    for (prefix, suffix, name) in [
        ("my_prefix", "log", "my_prefix.2025-02-17.log"),
        ("my_prefix", "", "my_prefix.2025-02-17"),
        ("", "log", "2025-02-17.log"),
        ("", "", "2025-02-17"),
    ] {
        let file = first_name(alloc, builder(alloc, prefix, suffix), MONDAY_MIDNIGHT)?;
        assert_eq!(rt; file.as_str(), name);
    }
    Ok(())
}

#[test]
fn bad_names_are_told(rt: HostRuntime) -> Result<(), Fail> {
    let alloc = rt.alloc();
    assert!(rt; !builder(alloc, "app", "log").has_bad_name());
    assert!(rt; builder(alloc, "logs/app", "log").has_bad_name());
    assert!(rt; builder(alloc, "app", "l\0g").has_bad_name());
    Ok(())
}

#[test]
fn days_have_dates(rt: HostRuntime) -> Result<(), Fail> {
    let alloc = rt.alloc();
    let first = Moment {
        seconds: -62_135_596_800,
        nanoseconds: 0,
    };
    let before = Moment {
        seconds: -1,
        nanoseconds: 999_999_999,
    };
    let last = Moment {
        seconds: 253_370_764_799,
        nanoseconds: 999_999_999,
    };
    let past = Moment {
        seconds: 253_370_764_800,
        nanoseconds: 0,
    };
    assert!(rt; first.is_in_range() && before.is_in_range() && last.is_in_range());
    assert!(rt; !past.is_in_range());
    assert_eq!(rt; Rotation::DAILY.period_start(before), Some(-86_400));
    assert_eq!(rt; Rotation::DAILY.next_date(last), Some(253_370_764_800));
    assert_eq!(rt; date_text(alloc, -719_162)?.as_str(), "0001-01-01");
    assert_eq!(rt; date_text(alloc, 2_932_531)?.as_str(), "9998-12-31");
    Ok(())
}

#[test]
fn a_late_line_stays_with_the_later_day(rt: HostRuntime) -> Result<(), Fail> {
    let alloc = rt.alloc();
    let mut folder = MemoryFolder::new(alloc);
    folder.put("app.2025-02-17", b"old\n", Some(MONDAY_MIDNIGHT))?;
    folder.put("app.2025-02-18", b"gone\n", None)?;
    folder.put("app.2025-02-18", b"found\n", None)?;
    let mut appender = builder(alloc, "app", "")
        .build(alloc, folder, MONDAY_MIDNIGHT)
        .map_err(|refusal| refusal.error)?;
    appender.write_all_at(b"one\n", MONDAY_MIDNIGHT)?;
    appender.write_all_at(b"two\n", TUESDAY_MIDNIGHT)?;
    appender.write_all_at(b"late\n", MONDAY_MIDNIGHT)?;
    assert_eq!(rt; appender.faults().switches, 0);
    let folder = appender.into_folder();
    assert_eq!(rt; folder.failures(), 0);
    let files = [
        ("app.2025-02-17", b"old\none\n".as_slice()),
        ("app.2025-02-18", b"found\ntwo\nlate\n".as_slice()),
    ];
    has_files(&rt, &folder, &files)?;
    Ok(())
}

#[test]
fn an_appender_comes_apart(rt: HostRuntime) -> Result<(), Fail> {
    let alloc = rt.alloc();
    let appender = fresh(alloc, builder(alloc, "app", ""), MONDAY_MIDNIGHT)?;
    let (builder, folder) = appender.into_parts();
    assert_eq!(rt; folder.files()?[0].name, "app.2025-02-17");
    assert!(rt; builder.latest_symlink("app.2025-02-18").has_bad_link());
    Ok(())
}

#[test]
fn files_are_in_order(rt: HostRuntime) -> Result<(), Fail> {
    let alloc = rt.alloc();
    let mut folder = MemoryFolder::new(alloc);
    folder.put("b", b"2", None)?;
    folder.put("a", b"1", None)?;
    folder.put("ab", b"3", None)?;
    let files = [
        ("a", b"1".as_slice()),
        ("ab", b"3".as_slice()),
        ("b", b"2".as_slice()),
    ];
    has_files(&rt, &folder, &files)?;
    Ok(())
}

#[test]
fn a_failed_switch_keeps_the_old_file(rt: HostRuntime) -> Result<(), Fail> {
    let alloc = rt.alloc();
    let folder = SlowFolder::new(alloc, 1);
    let mut appender = builder(alloc, "app", "")
        .build(alloc, folder, MONDAY_MIDNIGHT)
        .map_err(|refusal| refusal.error)?;
    appender.write_all_at(b"ab", MONDAY_MIDNIGHT)?;
    appender.write_all_at(b"", TUESDAY_MIDNIGHT)?;
    appender.write_all_at(b"c", TUESDAY_MIDNIGHT)?;
    let faults = appender.faults();
    assert_eq!(rt; faults.switches, 1);
    assert_eq!(rt; faults.writes, 0);
    assert_eq!(rt; faults.last, Some(FolderFault::Refused));
    let written = appender.folder().written.as_slice();
    assert_eq!(rt; written, [(0, b'a'), (0, b'b'), (0, b'c')].as_slice());
    Ok(())
}

/// The look of the first line of a period finds no memory for its listing. The next lines go to the old file and
/// list no more.
#[test]
fn a_look_without_memory_is_made_once(rt: HostRuntime) -> Result<(), Fail> {
    let alloc = rt.alloc();
    let mut appender = builder(alloc, "app", "")
        .max_log_files(2)
        .build(alloc, SlowFolder::new(alloc, 2), MONDAY_MIDNIGHT)
        .map_err(|refusal| refusal.error)?;
    assert_eq!(rt;
        appender.write_all_at(b"a", TUESDAY_MIDNIGHT),
        Err(FolderError::OutOfMemory)
    );
    appender.write_all_at(b"b", TUESDAY_MIDNIGHT)?;
    assert_eq!(rt; appender.write_at(b"c", TUESDAY_MIDNIGHT)?, 1);
    assert_eq!(rt; appender.faults().switches, 0);
    assert_eq!(rt; appender.faults().retentions, 0);
    let written = appender.folder().written.as_slice();
    assert_eq!(rt; written, [(1, b'b'), (1, b'c')].as_slice());
    Ok(())
}

#[test]
fn a_refused_folder_comes_back(rt: HostRuntime) -> Result<(), Fail> {
    let alloc = rt.alloc();
    let folder = SlowFolder::new(alloc, 0);
    match builder(alloc, "app", "").build(alloc, folder, MONDAY_MIDNIGHT) {
        Ok(_) => Err("built".into()),
        Err(refusal) => {
            let error = InitError {
                context: InitContext::File,
                source: FolderFault::Refused,
            };
            assert_eq!(rt; refusal.error, BuildError::Init(error));
            assert!(rt;
                refusal
                    .builder
                    .latest_symlink("app.2025-02-17")
                    .has_bad_link()
            );
            assert_eq!(rt; refusal.folder.failures(), 2);
            Ok(())
        }
    }
}

/// A text that found no memory is told when the appender is built, behind the names that are bad. The folder is asked nothing.
#[test]
fn a_missing_text_is_told_at_the_building(rt: HostRuntime) -> Result<(), Fail> {
    let alloc = rt.alloc();
    for (prefix, error) in [
        ("app", BuildError::OutOfMemory),
        ("a/b", BuildError::BadName),
    ] {
        let whole = builder(alloc, prefix, "log");
        assert!(rt; whole.is_whole());
        let missing = Builder {
            is_whole: false,
            ..whole
        };
        let missing = missing
            .rotation(Rotation::HOURLY)
            .max_log_files(1)
            .filename_suffix("txt");
        assert!(rt; !missing.is_whole());
        match missing.build(alloc, SlowFolder::new(alloc, 0), MONDAY_MIDNIGHT) {
            Ok(_) => return Err("built".into()),
            Err(refusal) => {
                assert_eq!(rt; refusal.error, error);
                assert!(rt; !refusal.builder.is_whole());
                assert_eq!(rt; refusal.folder.failures(), 0);
            }
        }
    }
    Ok(())
}

/// What a try that failed so prints.
fn init_text(
    alloc: Global,
    context: InitContext,
    source: FolderFault,
) -> Result<String, AllocError> {
    let error = InitError { context, source };
    format!(in alloc; "{error}")
}

#[test]
fn refused_openings_have_texts(rt: HostRuntime) -> Result<(), Fail> {
    let alloc = rt.alloc();
    assert_eq!(rt;
        init_text(alloc, InitContext::Directory, FolderFault::NotFound)?.as_str(),
        "failed to create log directory: not found"
    );
    assert_eq!(rt;
        init_text(alloc, InitContext::File, FolderFault::Refused)?.as_str(),
        "failed to create log file: refused"
    );
    assert_eq!(rt;
        init_text(alloc, InitContext::Link, FolderFault::Unsupported)?.as_str(),
        "failed to create symlink to latest log file: unsupported"
    );
    let error = BuildError::Init(InitError {
        context: InitContext::File,
        source: FolderFault::WriteZero,
    });
    assert_eq!(rt;
        format!(in alloc; "{error}")?.as_str(),
        "failed to create log file: write took no bytes"
    );
    Ok(())
}

#[test]
fn faults_have_texts(rt: HostRuntime) -> Result<(), Fail> {
    let alloc = rt.alloc();
    let fault = FolderError::Fault(FolderFault::WriteZero);
    assert_eq!(rt;
        format!(in alloc; "{fault}")?.as_str(),
        "write took no bytes"
    );
    let memory = FolderError::from(AllocError);
    assert_eq!(rt; format!(in alloc; "{memory}")?.as_str(), "out of memory");
    Ok(())
}
