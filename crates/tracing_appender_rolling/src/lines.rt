//! Lines that are handed over at moments.

ghost use Rattle.std.specs.Prelude.{◌≡◌, ◌≢◌, ◌≤◌, Some, IfOk, IfErr, true, length, take};
ghost use Rattle.tracing_core_moments.specs.Moments.{is_moment};
ghost use Rattle.tracing_appender_rolling.specs.Builders.{builder_names};
ghost use Rattle.tracing_appender_rolling.specs.folders.Contents.{Contents, Gives, failures_after, flushed, written};
ghost use Rattle.tracing_appender_rolling.specs.Faults.{after_write, unit_of};
ghost use Rattle.tracing_appender_rolling.specs.FaultReports.{ReportsCall, ReportsWrites};

use crate::appender::RollingFileAppender;
use crate::folders::{Folder, FolderError};
use tracing_core_moments::Moment;

impl<D: Folder> RollingFileAppender<D> {
    ghost use Rattle.tracing_appender_rolling.specs.Appenders.{Holds};
    ghost use Rattle.tracing_appender_rolling.specs.Looks.{Held};
    ghost use Rattle.tracing_appender_rolling.specs.AnyFolder.{LineAnywhere, WriteAnywhere};
    ghost use Rattle.tracing_appender_rolling.specs.PrunedSinks.{PrunedSink, AgreesSink, LeavesSink, WritesSink};
    ghost use Rattle.tracing_appender_rolling.specs.LineHandover.{HandsLine, WritesOnce};

    /// Looks at the moment, also for no bytes, and writes until all bytes are taken. A fault loses the rest,
    /// and is counted.
    ///
    /// # Errors
    ///
    /// The fault of a write, or out of memory, which is no fault. A failed switch is only counted. Behind a look
    /// that found no memory nothing is written; the next lines of the period go to the old file.
    pub fn write_all_at(&mut self, bytes: &[u8], moment: Moment) -> Result<(), FolderError>
        requires { is_moment moment ≡ true }
        // Over known contents, whatever the folder refuses, there was a look at the moment and then these writes, or memory ran out
        // in one of them.
        ensures handed { (h : Held) → Holds D.contents self.old h →
            HandsLine D.contents (builder_names self.old.builder) moment h bytes.now result self.new }
        // Where the appender agreed with a model of its files, there is no fault, and with memory it agrees afterwards with that
        // model and this line.
        ensures state { (c : Contents) (p : PrunedSink) → D.contents self.old.folder ≡ Some c →
            AgreesSink D.contents self.old p →
            LeavesSink D.contents p (λ done. bytes.now) moment c self.old result self.new }
        ensures names { builder_names self.new.builder ≡ builder_names self.old.builder }
        // A fault is told only where the folder's count of faults rose, or stands at the greatest number, or a write of some bytes
        // took none.
        ensures error { ReportsWrites (D.failed self.old.folder) result (length bytes.now) (D.failed self.new.folder) }
        // Over any folder the end of the period, the current file and the counts of faults are what a look and these writes leave.
        ensures anywhere { LineAnywhere D.failed moment (length bytes.now) result self.old self.new }
    {
        self.roll(moment)?;
        self.push(bytes)
    }

    /// Looks at the moment, and writes once; answers how many first bytes were taken. A fault is counted.
    ///
    /// # Errors
    ///
    /// As `write_all_at`.
    pub fn write_at(&mut self, bytes: &[u8], moment: Moment) -> Result<usize, FolderError>
        requires { is_moment moment ≡ true }
        ensures bound { IfOk result (λ n. n ≤ length bytes.now) }
        // Over known contents, whatever the folder refuses, there was a look at the moment and then one write, or memory ran out in
        // one of them.
        ensures written { (h : Held) → Holds D.contents self.old h →
            WritesOnce D.contents (builder_names self.old.builder) moment h bytes.now result self.new }
        // Where the appender agreed with a model of its files, there is no fault, and with memory it agrees afterwards with that
        // model and the bytes that were taken.
        ensures state { (c : Contents) (p : PrunedSink) → D.contents self.old.folder ≡ Some c →
            AgreesSink D.contents self.old p →
            LeavesSink D.contents p (λ n. take n bytes.now) moment c self.old result self.new }
        ensures names { builder_names self.new.builder ≡ builder_names self.old.builder }
        // A fault is told only where the folder's count of faults rose, or stands at the greatest number.
        ensures error { ReportsCall (D.failed self.old.folder) result (D.failed self.new.folder) }
        // Over any folder the end of the period, the current file and the counts of faults are what a look and one write leave.
        ensures anywhere { WriteAnywhere D.failed moment result self.old self.new }
    {
        self.roll(moment)?;
        self.write_once(bytes)
    }

    /// Writes once to the current file. A fault is counted.
    fn write_once(&mut self, bytes: &[u8]) -> Result<usize, FolderError>
        ensures bound { IfOk result (λ n. n ≤ length bytes.now) }
        ensures gives { Gives (λ c. written c self.old.current bytes.now) (D.contents self.old.folder) result
            (D.contents self.new.folder) }
        ensures faults { self.new.faults ≡ after_write self.old.faults (unit_of result) }
        ensures failures { D.failed self.new.folder ≡ failures_after (D.failed self.old.folder) result }
        // Where the appender agreed with a model of its files, there is no fault, and the bytes that were taken stand there, or none
        // where memory ran out.
        ensures state { WritesSink (builder_names self.old.builder) self.old.boundary self.old.current
            (λ n. take n bytes.now) result (D.contents self.old.folder) (D.contents self.new.folder) }
        ensures still { self.new ≡ record self.old { folder = self.new.folder; faults = self.new.faults } }
        ensures error { ReportsCall (D.failed self.old.folder) result (D.failed self.new.folder) }
    {
        match self.folder.write(self.current, bytes) {
            Ok(taken) => Ok(taken),
            Err(error) => {
                self.faults = self.faults.after_write(Err(error));
                Err(error)
            }
        }
    }

    /// Flushes the current file.
    ///
    /// # Errors
    ///
    /// The folder's fault, which isn't counted.
    pub fn flush(&mut self) -> Result<(), FolderError>
        // Over known contents this is one flush of the current file, with the folder's answer.
        ensures gives { Gives (λ c. flushed c self.old.current) (D.contents self.old.folder) result
            (D.contents self.new.folder) }
        // Out of memory is never answered.
        ensures fed { IfErr result (λ e. e ≢ FolderError.OutOfMemory) }
        // Only the folder changes, so the appender doesn't count a fault of a flush.
        ensures still { self.new ≡ record self.old { folder = self.new.folder } }
        ensures counted { D.failed self.new.folder ≡ failures_after (D.failed self.old.folder) result }
        // The appender agrees afterwards with each model of its files that it agreed with before.
        ensures state { (p : PrunedSink) → AgreesSink D.contents self.old p → AgreesSink D.contents self.new p }
    {
        self.folder.flush(self.current)
    }
}
