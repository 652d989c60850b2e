//! An appender that knows the time.
ghost use Rattle.std.specs.Prelude.{◌≡◌, None, OnOk, true};
ghost use Rattle.std.specs.Io.{WritesAtMost};
ghost use Rattle.std.specs.Io.KnownBytes.{Appends, Keeps, WriteAppends};
ghost use Rattle.std.specs.Borrow.{sem};
ghost use Rattle.tracing_appender_rolling.specs.declared.appender.RollingFileAppender.{RollingFileAppender};
ghost use Rattle.tracing_appender.specs.Clocked.{Flushed, LendsClock, WroteLine, WroteOnce};

use crate::clock::Clock;
use crate::refusal::io_result;
use event_formatter_text::MakeWriter;
use std::io;
use std::io::Write;
use tracing_appender_rolling::{Folder, RollingFileAppender};
use tracing_core_fields::Metadata;

/// A rolling file with the clock that says when it changes. It is written as any writer is, and takes the lines of a
/// formatter.
#[derive(Drop)]
pub struct ClockedAppender<D, C> {
    pub(crate) appender: RollingFileAppender<D>,
    pub(crate) clock: C,
}

impl<D: Folder, C: Clock> ClockedAppender<D, C> {
    /// Writes to the appender's files at the moments that the clock tells.
    pub fn new(appender: RollingFileAppender<D>, clock: C) -> ClockedAppender<D, C>
        ensures { result ≡ record { appender = appender; clock = clock } }
    {
        ClockedAppender { appender, clock }
    }

    /// The rolling file.
    pub fn appender(&self) -> &RollingFileAppender<D>
        ensures { result.now ≡ self.now.appender }
    {
        &self.appender
    }

    /// The clock, to be set.
    pub fn clock_mut(&mut self) -> &mut C
        // The appender has afterwards the clock as the loan left it, and is else as it was.
        ensures* lends { sem 𝓛 (LendsClock D.row C.row self.entry result) }
        ensures clock { result.now ≡ self.old.clock }
    {
        &mut self.clock
    }

    /// The rolling file, once no more is written by the clock.
    pub fn into_appender(self) -> RollingFileAppender<D>
        ensures { result ≡ self.appender }
    {
        self.appender
    }
}

/// What takes a clock that says when its file changes.
pub trait Clocked<D> {
    // The rolling file.
    ghost file: { Self → RollingFileAppender D };

    /// The same as [`ClockedAppender::new`], behind what makes the rolling file: `daily(..)?.clocked(clock)`.
    fn clocked<C: Clock>(self, clock: C) -> ClockedAppender<D, C>
        ensures { result ≡ record { appender = file self; clock = clock } };
}

impl<D: Folder> Clocked<D> for RollingFileAppender<D> {
    ghost file = { λ appender. appender };

    fn clocked<C: Clock>(self, clock: C) -> ClockedAppender<D, C>
        ensures { result ≡ record { appender = self; clock = clock } }
    {
        ClockedAppender::new(self, clock)
    }
}

/// A fault of the folder is an error of the kind `Other`, and out of memory one of the kind `OutOfMemory`. What the
/// appender's own calls promise of each holds here at the moment that the clock told.
impl<D: Folder, C: Clock> Write for ClockedAppender<D, C> {
    /// Looks at the clock once, then as `RollingFileAppender::write_at` at the moment that it tells.
    fn write(&mut self, buf: &[u8]) -> io::Result<usize>
        ensures bound { WritesAtMost result buf.now }
        ensures bytes { WriteAppends None None result buf.now }
        ensures written { WroteOnce D.contents D.failed C.reads buf.now result self.old self.new }
    {
        let moment = self.clock.now();
        io_result(self.appender.write_at(buf, moment))
    }

    /// Flushes the current file. The clock isn't read.
    fn flush(&mut self) -> io::Result<()>
        ensures bytes { Keeps None None }
        ensures flushed { Flushed D.contents D.failed C.reads result self.old self.new }
    {
        io_result(self.appender.flush())
    }

    /// Looks at the clock once, then as `RollingFileAppender::write_all_at` at the moment that it tells.
    fn write_all(&mut self, buf: &[u8]) -> io::Result<()>
        ensures bytes { OnOk result (Appends None None buf.now) }
        ensures written { WroteLine D.contents D.failed C.reads buf.now result self.old self.new }
    {
        let moment = self.clock.now();
        io_result(self.appender.write_all_at(buf, moment))
    }
}

/// Each line is written whole, by one `write_all`, whatever its metadata.
impl<D: Folder, C: Clock> MakeWriter for ClockedAppender<D, C> {
    ghost takes = { λ maker metadata answer. answer ≡ true };

    ghost writes = { λ maker metadata line answer after.
        WroteLine D.contents D.failed C.reads line answer maker after };

    fn writes_for(&self, _metadata: &Metadata<'_>) -> bool {
        true
    }

    fn write_for(&mut self, _metadata: &Metadata<'_>, line: &[u8]) -> io::Result<()> {
        self.write_all(line)
    }
}
