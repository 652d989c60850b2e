//! A sink whose lines wait in a queue until worker steps write them to rolling files.

ghost use Rattle.std.specs.Prelude.{◌≡◌, ◌≤◌, ◌<◌, ℕ, true, false, Some, List, length, OnErr, OnOk, IsErrOf, ◌↔◌};
ghost use Rattle.tracing_appender_rolling.specs.folders.Contents.{Contents};
ghost use Rattle.tracing_core_moments.specs.Moments.{is_moment};
ghost use Rattle.tracing_appender_rolling.specs.Builders.{builder_names};
ghost use Rattle.tracing_appender_rolling.specs.Looks.{Held as HeldFile};
ghost use Rattle.tracing_appender_rolling.specs.Appenders.{Holds};
ghost use Rattle.tracing_appender_rolling.specs.PrunedSinks.{PrunedSink, AgreesSink};
ghost use Rattle.tracing_appender_queue.specs.Queue.{accepted, after_mark};
ghost use Rattle.tracing_appender_queue.specs.worker.Batches.{lines_in};
ghost use Rattle.tracing_appender_queue.specs.worker.Steps.{LinesAnywhere};
ghost use Rattle.tracing_appender_queue.specs.queued.WaitingView.{bytes_of};
ghost use Rattle.tracing_appender_queue.specs.queued.LineFates.{SettlesLine, SettlesAll, lost_in, missed_in};
ghost use Rattle.tracing_appender_queue.specs.queued.HeldLines.{Admits, is_some_line, worked};
ghost use Rattle.tracing_appender_queue.specs.queued.QueuedWork.{WorksFrom, LinesLeft, with_lost};

use crate::queued::fate::{AdmitError, Fate, Settlement};
use crate::queued::waiting::Waiting;
use crate::{Batched, MarkError, QueueState};
use tracing_appender_rolling::{Faults, Folder, RollingFileAppender};
use tracing_core_moments::Moment;

/// Rolling files behind a queue, in a replay: lines settle in the queue or beside it, and a step of a worker writes the first of
/// them.
pub struct QueuedSink<D> {
    waiting: Waiting,
    appender: RollingFileAppender<D>,
}

/// It is written down, so that whoever lets a sink go needs no proof of his own for each of its parts.
impl<D: Drop> Drop for QueuedSink<D> {
    fn drop(self) {
        let QueuedSink {
            waiting: _waiting,
            appender: _appender,
        } = self;
    }
}

impl<D: Folder> QueuedSink<D> {
    /// A sink over these files, for which these lines wait.
    pub fn new(waiting: Waiting, appender: RollingFileAppender<D>) -> QueuedSink<D>
        ensures { result ≡ record { waiting = waiting; appender = appender } }
    {
        QueuedSink { waiting, appender }
    }

    /// A line comes to the queue. It is copied only where it is kept; nothing is written.
    pub fn settle_line(&mut self, line: &[u8]) -> Fate
        ensures settles { SettlesLine self.old.waiting line.now result self.new.waiting }
        ensures files { self.new.appender ≡ self.old.appender }
    {
        self.waiting.settle_line(line)
    }

    /// The lines of a request come to the queue, in order. Nothing is written.
    pub fn settle(&mut self, lines: &[Vec<u8>]) -> Settlement
        ensures settles { (fates : List Fate) × SettlesAll self.old.waiting (bytes_of lines.now) fates self.new.waiting
            × (result.lost ≡ lost_in fates) × (result.missed ≡ missed_in fates) }
        ensures files { self.new.appender ≡ self.old.appender }
    {
        self.waiting.settle(lines)
    }

    /// A step of a worker: the first so many queued lines, or all before the mark, go to the files at the moment.
    pub fn work(&mut self, lines: usize, moment: Moment) -> Batched
        requires { is_moment moment ≡ true }
        ensures waiting { self.new.waiting ≡ worked lines result.missed self.old.waiting }
        ensures taken { result.taken ≡ length (lines_in lines self.old.waiting.queue) }
        ensures missed { result.missed ≤ result.taken }
        ensures names { builder_names self.new.appender.builder ≡ builder_names self.old.appender.builder }
        // over a folder of known contents, whatever it refuses
        ensures files { (h : HeldFile) → Holds D.contents self.old.appender h →
            WorksFrom D.contents lines moment h result self.old self.new }
        // over a folder that refuses nothing: which bytes stand in which file
        ensures left { result.missed ≡ 0 → (c : Contents) (p : PrunedSink) →
            D.contents self.old.appender.folder ≡ Some c → AgreesSink D.contents self.old.appender p →
            LinesLeft D.contents (lines_in lines self.old.waiting.queue) moment c p self.old.appender
            self.new.appender }
        // over any folder
        ensures anywhere { LinesAnywhere D.failed moment (lines_in lines self.old.waiting.queue) result.missed
            self.old.appender self.new.appender }
    {
        self.waiting.work(&mut self.appender, lines, moment)
    }

    /// Offers the first held line to the queue.
    ///
    /// # Errors
    ///
    /// Nothing is held; or else the queue is closed, and the line is given up; or it has no room, or there is no memory.
    pub fn admit(&mut self) -> Result<(), AdmitError>
        ensures admits { Admits self.old.waiting result self.new.waiting }
        ensures files { self.new.appender ≡ self.old.appender }
    {
        self.waiting.admit()
    }

    /// Puts the mark behind the lines that are queued now. It takes no memory.
    ///
    /// # Errors
    ///
    /// The mark was put before, or else there is no room for it; nothing is changed.
    pub fn shutdown(&mut self) -> Result<(), MarkError>
        ensures ok { OnOk result (self.new.waiting ≡ record self.old.waiting {
          queue = after_mark self.old.waiting.queue;
        }) }
        ensures err { OnErr result (self.new.waiting ≡ self.old.waiting) }
        ensures sent { IsErrOf result MarkError.MarkSent ↔ (self.old.waiting.queue.sent ≡ true) }
        ensures full { IsErrOf result MarkError.NoRoom → (self.old.waiting.queue.sent ≡ false) ×
            (self.old.waiting.queue.limit ≤ length self.old.waiting.queue.queued) }
        ensures put { OnOk result ((self.old.waiting.queue.sent ≡ false) ×
            (length self.old.waiting.queue.queued < self.old.waiting.queue.limit)) }
        ensures files { self.new.appender ≡ self.old.appender }
    {
        self.waiting.shutdown()
    }

    /// Whether lines are held.
    pub fn is_holding(&self) -> bool
        ensures { result ≡ is_some_line self.now.waiting.held }
    {
        self.waiting.is_holding()
    }

    /// How many lines are held.
    pub fn held(&self) -> usize
        ensures { result ≡ length self.now.waiting.held }
    {
        self.waiting.held()
    }

    /// The queue, for its counts.
    pub fn queue(&self) -> &QueueState
        ensures { result.now ≡ self.now.waiting.queue }
    {
        self.waiting.queue()
    }

    /// How many lines a lossy queue dropped.
    pub fn dropped_lines(&self) -> usize
        ensures { result ≡ self.now.waiting.queue.dropped }
    {
        self.waiting.queue().dropped_lines()
    }

    /// How many lines found no memory, in the queue, beside it or on their way to the files.
    pub fn missed(&self) -> usize
        ensures { result ≡ self.now.waiting.missed }
    {
        self.waiting.missed()
    }

    /// What was lost to the folder's faults. The lines that a closed waiting queue lost are among the writes; the last fault is
    /// the folder's.
    pub fn faults(&self) -> Faults
        ensures { result ≡ with_lost self.now.waiting.lost self.now.appender.faults }
    {
        let faults = self.appender.faults();
        Faults {
            writes: faults.writes.saturating_add(self.waiting.lost()),
            ..faults
        }
    }

    /// The rolling file.
    pub fn appender(&self) -> &RollingFileAppender<D>
        ensures { result.now ≡ self.now.appender }
    {
        &self.appender
    }

    /// The rolling file, once the sink takes no more lines.
    pub fn into_appender(self) -> RollingFileAppender<D>
        ensures { result ≡ self.appender }
    {
        let QueuedSink {
            waiting: _,
            appender,
        } = self;
        appender
    }
}
