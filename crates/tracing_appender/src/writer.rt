//! A writer to one file of an appender.
ghost use Rattle.std.specs.Prelude.{◌≡◌, None, OnOk, false, true};
ghost use Rattle.std.specs.Io.{WritesAtMost};
ghost use Rattle.std.specs.Io.KnownBytes.{Appends, Keeps, WriteAppends};
ghost use Rattle.tracing_core_moments.specs.Moments.{is_due, is_moment};
ghost use Rattle.tracing_appender.specs.CurrentFileWrites.{KeptFlush, KeptLine, KeptOnce, LookedAt};

use crate::clock::Clock;
use crate::clocked::ClockedAppender;
use crate::refusal::io_result;
use std::io;
use std::io::Write;
use tracing_appender_rolling::{Folder, RollingFileAppender};
use tracing_core_moments::Moment;

/// A writer to the file that was current when it was lent. It never changes the file, whatever the time gets to
/// meanwhile, and reads no clock.
#[derive(Drop)]
pub struct RollingWriter<'a, D, C> {
    pub(crate) clocked: &'a mut ClockedAppender<D, C>,
    /// When the writer was lent. Until the end of this moment's period no look changes the file.
    pub(crate) moment: Moment,
    ghost in_range: { is_moment moment ≡ true },
    ghost in_period: { is_due clocked.now.appender.boundary moment.seconds ≡ false },
}

/// Looks at a moment. At that moment the appender doesn't change its file again.
fn look<D: Folder>(appender: &mut RollingFileAppender<D>, moment: Moment)
    requires { is_moment moment ≡ true }
    ensures { LookedAt D.contents D.failed appender.old appender.new moment }
{
    // The file stays where the look fails, and the appender counts what was lost.
    let _ = appender.write_all_at(&[], moment);
}

impl<D: Folder, C: Clock> ClockedAppender<D, C> {
    ghost use Rattle.tracing_appender.specs.Writers.{IsLoanOf};

    /// Looks at the clock once, changes the file where its period is over, and lends a writer to the current file.
    ///
    /// Where that fails the writer writes to the file before, as lines do until the period of that moment ends. A
    /// folder's fault is counted then, and out of memory isn't.
    pub fn make_writer(&mut self) -> RollingWriter<'_, D, C>
        // The writer holds this loan, so that what it leaves is the appender's afterwards.
        ensures loan { IsLoanOf self.entry result }
        // The clock was read, and told the writer's moment.
        ensures read { C.reads self.old.clock result.moment result.clocked.now.clock }
        // The appender looked at that moment as for a line of no bytes, and the period of its file is not over then.
        ensures looked { LookedAt D.contents D.failed self.old.appender result.clocked.now.appender result.moment }
    {
        let moment = self.clock.now();
        look(&mut self.appender, moment);
        RollingWriter {
            clocked: self,
            moment,
        }
    }
}

/// Each write and flush goes to the current file of the appender that was lent, and answers the errors that a clocked
/// appender's does.
impl<D: Folder, C: Clock> Write for RollingWriter<'_, D, C> {
    ghost use Rattle.tracing_appender.specs.Writers.{IsSameWriter};

    /// As `RollingFileAppender::write_at` at the moment when the writer was lent.
    #[tactic(auto, using(crate::proofs::CurrentFileWrites::write_to_file))]
    fn write(&mut self, buf: &[u8]) -> io::Result<usize>
        ensures bound { WritesAtMost result buf.now }
        ensures bytes { WriteAppends None None result buf.now }
        ensures same { IsSameWriter self.old self.new }
        ensures written { KeptOnce D.contents D.failed self.old.clocked.now.appender self.new.clocked.now.appender
            self.old.moment buf.now result }
    {
        io_result(self.clocked.appender.write_at(buf, self.moment))
    }

    /// Flushes the current file.
    fn flush(&mut self) -> io::Result<()>
        ensures bytes { Keeps None None }
        ensures same { IsSameWriter self.old self.new }
        ensures flushed { KeptFlush D.contents D.failed self.old.clocked.now.appender self.new.clocked.now.appender
            result }
    {
        io_result(self.clocked.appender.flush())
    }

    /// As `RollingFileAppender::write_all_at` at the moment when the writer was lent.
    #[tactic(auto, using(crate::proofs::CurrentFileWrites::line_to_file))]
    fn write_all(&mut self, buf: &[u8]) -> io::Result<()>
        ensures bytes { OnOk result (Appends None None buf.now) }
        ensures same { IsSameWriter self.old self.new }
        ensures written { KeptLine D.contents D.failed self.old.clocked.now.appender self.new.clocked.now.appender
            self.old.moment buf.now result }
    {
        io_result(self.clocked.appender.write_all_at(buf, self.moment))
    }
}
