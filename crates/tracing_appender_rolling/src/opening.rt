//! A try to open a file and to link it.

ghost use Rattle.std.specs.Prelude.{◌≡◌, string_bytes};
ghost use Rattle.std.specs.Option.{option_map};
ghost use Rattle.tracing_appender_rolling.specs.Tries.{Tries, TriesFile, Unlinked, made_again, opened_twice, linked_to};
ghost use Rattle.tracing_appender_rolling.specs.FaultReports.{ReportsTry};
ghost use Rattle.tracing_appender_rolling.specs.Writes.{Fruitless};

use crate::folders::{FileNumber, Folder, FolderError};
use crate::init::{InitContext, InitFailure};

/// Opens a file. Where that is refused, the directories are made and it is tried once more.
fn open_twice<D: Folder>(folder: &mut D, name: &str) -> Result<FileNumber, InitFailure>
    ensures tries { Tries Fruitless (opened_twice name.now) (D.contents folder.old) result (D.contents folder.new) }
    ensures error { ReportsTry (D.failed folder.old) result (D.failed folder.new) }
{
    match folder.open_append(name) {
        Ok(file) => Ok(file),
        Err(FolderError::Fault(_)) => open_made(folder, name),
        Err(FolderError::OutOfMemory) => Err(InitFailure {
            context: InitContext::File,
            error: FolderError::OutOfMemory,
        }),
    }
}

/// Makes the directories and opens a file.
fn open_made<D: Folder>(folder: &mut D, name: &str) -> Result<FileNumber, InitFailure>
    ensures tries { Tries Fruitless (made_again name.now) (D.contents folder.old) result (D.contents folder.new) }
    ensures error { ReportsTry (D.failed folder.old) result (D.failed folder.new) }
{
    if let Err(error) = folder.create_dirs() {
        return Err(InitFailure {
            context: InitContext::Directory,
            error,
        });
    }
    match folder.open_append(name) {
        Ok(file) => Ok(file),
        Err(error) => Err(InitFailure {
            context: InitContext::File,
            error,
        }),
    }
}

/// Links a name to an opened file, or closes the file, whatever that answers.
fn link_file<D: Folder>(
    folder: &mut D,
    file: FileNumber,
    link: &str,
    name: &str,
) -> Result<FileNumber, InitFailure>
    ensures tries { Tries (Unlinked file) (linked_to link.now name.now file) (D.contents folder.old) result
        (D.contents folder.new) }
    ensures error { ReportsTry (D.failed folder.old) result (D.failed folder.new) }
{
    match folder.link(link, name) {
        Ok(()) => Ok(file),
        Err(error) => {
            let _ = folder.close_file(file);
            Err(InitFailure {
                context: InitContext::Link,
                error,
            })
        }
    }
}

/// Opens a file, and links the name of the latest one to it where there is such a name.
pub(crate) fn create_writer<D: Folder>(
    folder: &mut D,
    name: &str,
    latest: &Option<String>,
) -> Result<FileNumber, InitFailure>
    ensures tries { TriesFile (option_map string_bytes latest.now) name.now (D.contents folder.old) result
        (D.contents folder.new) }
    ensures error { ReportsTry (D.failed folder.old) result (D.failed folder.new) }
{
    match open_twice(folder, name) {
        Ok(file) => match latest {
            None => Ok(file),
            Some(link) => link_file(folder, file, link.as_str(), name),
        },
        Err(failure) => Err(failure),
    }
}
