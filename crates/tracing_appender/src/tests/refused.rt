//! Folders that refuse calls.

use super::{hourly_files, put};
use crate::refusal::io_result;
use crate::tests::clocks::FEBRUARY;
use crate::{ClockedAppender, FaultyFolder, FixedClock, FolderError, FolderFault, MemoryFolder};
use std::io;
use std::io::Write;
use std::test::Fail;

/// The opening is call 1, and the writes come after it.
#[test]
fn a_refused_write_is_another_error(rt: HostRuntime) -> Result<(), Fail> {
    let alloc = rt.alloc();
    let refused = Vec::from_slice(alloc, &[2, 3])?;
    let folder = FaultyFolder::new(MemoryFolder::new(alloc), refused);
    let appender = hourly_files(alloc, folder)?;
    let mut clocked = ClockedAppender::new(appender, FixedClock::new(FEBRUARY));
    let kind = put(&mut clocked, b"lost\n").map_err(|error| error.kind());
    assert_eq!(rt; kind, Err(io::ErrorKind::Other));
    let mut writer = clocked.make_writer();
    let kind = put(&mut writer, b"lost\n").map_err(|error| error.kind());
    assert_eq!(rt; kind, Err(io::ErrorKind::Other));
    put(&mut writer, b"kept\n")?;
    assert_eq!(rt; clocked.appender().faults().writes, 2);
    Ok(())
}

#[test]
fn a_write_answers_how_much_was_taken(rt: HostRuntime) -> Result<(), Fail> {
    let alloc = rt.alloc();
    let short = Vec::from_slice(alloc, &[2, 3])?;
    let folder = FaultyFolder::new(MemoryFolder::new(alloc), Vec::new(alloc));
    let appender = hourly_files(alloc, folder.with_short_writes(short, 3))?;
    let mut clocked = ClockedAppender::new(appender, FixedClock::new(FEBRUARY));
    assert_eq!(rt; clocked.write(b"line\n")?, 3);
    assert_eq!(rt; clocked.make_writer().write(b"line\n")?, 3);
    assert_eq!(rt; clocked.write(b"line\n")?, 5);
    Ok(())
}

#[test]
fn refusals_have_kinds_and_texts(rt: HostRuntime) -> Result<(), Fail> {
    let alloc = rt.alloc();
    let faults = [
        FolderFault::Refused,
        FolderFault::NotFound,
        FolderFault::Unsupported,
        FolderFault::WriteZero,
    ];
    for fault in faults {
        let text = format!(in alloc; "{fault}")?;
        let told = io_result::<()>(Err(FolderError::Fault(fault))).map_err(|error| error.kind());
        assert_eq!(rt; told, Err(io::ErrorKind::Other));
        match io_result::<()>(Err(FolderError::Fault(fault))) {
            Ok(()) => return Err("no error".into()),
            Err(error) => assert_eq!(rt; format!(in alloc; "{error}")?, text),
        }
    }
    let told = io_result::<()>(Err(FolderError::OutOfMemory)).map_err(|error| error.kind());
    assert_eq!(rt; told, Err(io::ErrorKind::OutOfMemory));
    Ok(())
}
