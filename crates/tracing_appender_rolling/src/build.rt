//! Building an appender.

ghost use Rattle.std.specs.Prelude.{◌≡◌, true, false};
ghost use Rattle.tracing_core_moments.specs.declared.period.PeriodKind.TheVariants.{Minute, Hour, Day, Week, Whole};
ghost use Rattle.tracing_core_moments.specs.Moments.{is_moment};
ghost use Rattle.tracing_appender_rolling.specs.Builders.{builder_names, is_whole, plain_names, kind_of};
ghost use Rattle.tracing_appender_rolling.specs.Names.{is_bad_name, HasGoodLink};
ghost use Rattle.tracing_appender_rolling.specs.Builds.{Builds, BuildsPrefixed, MissesText, KeepsBuilder, build_error};

use crate::appender::{OpenRefusal, RollingFileAppender};
use crate::builder::Builder;
use crate::folders::{Folder, FolderError};
use crate::init::{InitContext, InitError};
use crate::rotation::Rotation;
use std::alloc::Global;
use thiserror::Error;
use tracing_core_moments::Moment;

/// Why an appender was not built.
#[derive(Clone, Copy, Debug, PartialEq, Eq, Error)]
pub enum BuildError {
    /// A prefix, a suffix or a link with a slash or a NUL, or a log file or link named `.` or `..`.
    #[error("bad file name")]
    BadName,
    /// A link with the name of a log file.
    #[error("bad link name")]
    BadLinkName,
    /// A folder's fault.
    #[error("{0}")]
    Init(InitError),
    #[error("out of memory")]
    OutOfMemory,
}

/// An appender that was not built, with what was handed in: the folder as the calls until then left it.
#[derive(Drop)]
pub struct BuildRefusal<D> {
    pub error: BuildError,
    pub builder: Builder,
    pub folder: D,
}

fn build_error(context: InitContext, error: FolderError) -> BuildError
    ensures { result ≡ build_error context error }
{
    match error {
        FolderError::OutOfMemory => BuildError::OutOfMemory,
        FolderError::Fault(source) => BuildError::Init(InitError { context, source }),
    }
}

impl Builder {
    /// Builds an appender: retention runs, and the file of the moment's period is opened and linked.
    ///
    /// # Errors
    ///
    /// `BadName`, then `BadLinkName`, then `OutOfMemory` where the builder isn't whole, all before the folder is asked; then the
    /// folder's fault, or `OutOfMemory`. Builder and folder come back.
    pub fn build<D: Folder>(
        self,
        alloc: Global,
        folder: D,
        moment: Moment,
    ) -> Result<RollingFileAppender<D>, BuildRefusal<D>>
        requires { is_moment moment ≡ true }
        ensures builds { Builds D.contents D.failed (builder_names self) folder moment result }
        // Where a text is missing and no name is bad, out of memory is answered, and the folder is asked nothing.
        ensures missed { is_whole self ≡ false → is_bad_name (builder_names self) ≡ false →
            HasGoodLink (builder_names self) → MissesText folder result }
        ensures kept { KeepsBuilder self result }
    {
        if self.has_bad_name() {
            return Err(BuildRefusal {
                error: BuildError::BadName,
                builder: self,
                folder,
            });
        }
        if self.has_bad_link() {
            return Err(BuildRefusal {
                error: BuildError::BadLinkName,
                builder: self,
                folder,
            });
        }
        if !self.is_whole {
            return Err(BuildRefusal {
                error: BuildError::OutOfMemory,
                builder: self,
                folder,
            });
        }
        match RollingFileAppender::open(alloc, self, folder, moment) {
            Ok(appender) => Ok(appender),
            Err(refused) => Err(BuildRefusal {
                error: build_error(refused.context, refused.error),
                builder: refused.builder,
                folder: refused.folder,
            }),
        }
    }
}

impl<D: Folder> RollingFileAppender<D> {
    /// A builder with its defaults.
    pub fn builder(alloc: Global) -> Builder
        ensures names { builder_names result ≡ plain_names }
        ensures whole { is_whole result ≡ true }
    {
        Builder::new(alloc)
    }

    /// An appender whose files change so often and have this prefix.
    ///
    /// # Errors
    ///
    /// As `Builder::build`.
    pub fn new(
        alloc: Global,
        rotation: Rotation,
        folder: D,
        prefix: &str,
        moment: Moment,
    ) -> Result<RollingFileAppender<D>, BuildRefusal<D>>
        requires { is_moment moment ≡ true }
        ensures { BuildsPrefixed D.contents D.failed (kind_of rotation) prefix.now folder moment result }
    {
        Builder::new(alloc)
            .rotation(rotation)
            .filename_prefix(prefix)
            .build(alloc, folder, moment)
    }
}

/// An appender whose files change each minute and have this prefix.
///
/// # Errors
///
/// As `Builder::build`.
pub fn minutely<D: Folder>(
    alloc: Global,
    folder: D,
    prefix: &str,
    moment: Moment,
) -> Result<RollingFileAppender<D>, BuildRefusal<D>>
    requires { is_moment moment ≡ true }
    ensures { BuildsPrefixed D.contents D.failed Minute prefix.now folder moment result }
{
    RollingFileAppender::new(alloc, Rotation::MINUTELY, folder, prefix, moment)
}

/// An appender whose files change each hour and have this prefix.
///
/// # Errors
///
/// As `Builder::build`.
pub fn hourly<D: Folder>(
    alloc: Global,
    folder: D,
    prefix: &str,
    moment: Moment,
) -> Result<RollingFileAppender<D>, BuildRefusal<D>>
    requires { is_moment moment ≡ true }
    ensures { BuildsPrefixed D.contents D.failed Hour prefix.now folder moment result }
{
    RollingFileAppender::new(alloc, Rotation::HOURLY, folder, prefix, moment)
}

/// An appender whose files change each day and have this prefix.
///
/// # Errors
///
/// As `Builder::build`.
pub fn daily<D: Folder>(
    alloc: Global,
    folder: D,
    prefix: &str,
    moment: Moment,
) -> Result<RollingFileAppender<D>, BuildRefusal<D>>
    requires { is_moment moment ≡ true }
    ensures { BuildsPrefixed D.contents D.failed Day prefix.now folder moment result }
{
    RollingFileAppender::new(alloc, Rotation::DAILY, folder, prefix, moment)
}

/// An appender whose files change each Sunday and have this prefix.
///
/// # Errors
///
/// As `Builder::build`.
pub fn weekly<D: Folder>(
    alloc: Global,
    folder: D,
    prefix: &str,
    moment: Moment,
) -> Result<RollingFileAppender<D>, BuildRefusal<D>>
    requires { is_moment moment ≡ true }
    ensures { BuildsPrefixed D.contents D.failed Week prefix.now folder moment result }
{
    RollingFileAppender::new(alloc, Rotation::WEEKLY, folder, prefix, moment)
}

/// An appender with one file for all of time, of this name.
///
/// # Errors
///
/// As `Builder::build`.
pub fn never<D: Folder>(
    alloc: Global,
    folder: D,
    prefix: &str,
    moment: Moment,
) -> Result<RollingFileAppender<D>, BuildRefusal<D>>
    requires { is_moment moment ≡ true }
    ensures { BuildsPrefixed D.contents D.failed Whole prefix.now folder moment result }
{
    RollingFileAppender::new(alloc, Rotation::NEVER, folder, prefix, moment)
}
