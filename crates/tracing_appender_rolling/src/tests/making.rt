//! Builders, fresh appenders, and what their folders hold.

ghost use Rattle.std.specs.Prelude.{◌≡◌, true};
ghost use Rattle.tracing_core_moments.specs.Moments.{is_moment};

use crate::folders::MemoryFolder;
use crate::{Builder, RollingFileAppender, Rotation};
use std::alloc::{AllocError, Global};
use std::process::Abort;
use std::test::Fail;
use tracing_core_moments::Moment;

pub fn named(alloc: Global, rotation: Rotation, prefix: &str, suffix: &str) -> Builder {
    Builder::new(alloc)
        .rotation(rotation)
        .filename_prefix(prefix)
        .filename_suffix(suffix)
}

/// A builder that keeps a link to its latest file.
pub fn linked(
    alloc: Global,
    rotation: Rotation,
    prefix: &str,
    suffix: &str,
    link: &str,
) -> Builder {
    named(alloc, rotation, prefix, suffix).latest_symlink(link)
}

/// An appender over an empty folder in memory.
pub fn fresh(
    alloc: Global,
    builder: Builder,
    moment: Moment,
) -> Result<RollingFileAppender<MemoryFolder>, Fail>
    requires { is_moment moment ≡ true }
{
    let made = builder.build(alloc, MemoryFolder::new(alloc), moment);
    Ok(made.map_err(|refusal| refusal.error)?)
}

/// The name of the only file of a fresh appender.
pub fn first_name(alloc: Global, builder: Builder, moment: Moment) -> Result<String, Fail>
    requires { is_moment moment ≡ true }
{
    let appender = fresh(alloc, builder, moment)?;
    let entries = appender.folder().files()?;
    let entry = entries.first().ok_or("no file")?;
    Ok(String::from_str(alloc, entry.name)?)
}

/// Whether the folder has the file with these bytes.
pub fn holds(folder: &MemoryFolder, name: &str, bytes: &[u8]) -> Result<bool, AllocError> {
    let entries = folder.files()?;
    Ok(
        entries
            .iter()
            .any(|entry| entry.name == name && entry.bytes == bytes),
    )
}

/// The folder has just these files, in this order.
pub fn has_files(
    rt: &impl Abort,
    folder: &MemoryFolder,
    files: &[(&str, &[u8])],
) -> Result<(), AllocError> {
    let entries = folder.files()?;
    assert_eq!(rt; entries.len(), files.len());
    for (entry, (name, bytes)) in entries.iter().zip(files) {
        assert_eq!(rt; entry.name, *name);
        assert_eq!(rt; entry.bytes, *bytes, "in {name}");
    }
    Ok(())
}
