//! A queue, with the lines that are held beside it.

ghost use Rattle.std.specs.Prelude.{◌≡◌, ◌≤◌, ◌<◌, ◌++◌, ◌∷◌, ℕ, Some, true, false, length, map, List, [], IfOk, OnErr, OnOk, IsErrOf, ◌↔◌};
ghost use Rattle.std.specs.Prelude.{if◌then◌else◌};
ghost use Rattle.tracing_appender_rolling.specs.folders.Contents.{Contents};
ghost use Rattle.tracing_core_moments.specs.Moments.{is_moment};
ghost use Rattle.tracing_appender_rolling.specs.Builders.{builder_names};
ghost use Rattle.tracing_appender_rolling.specs.Looks.{Held as HeldFile};
ghost use Rattle.tracing_appender_rolling.specs.Appenders.{Holds};
ghost use Rattle.tracing_appender_rolling.specs.PrunedSinks.{PrunedSink, AgreesSink};
ghost use Rattle.tracing_appender_queue.specs.Queue.{new_queue, accepted, after_mark};
ghost use Rattle.tracing_appender_queue.specs.worker.Batches.{lines_in};
ghost use Rattle.tracing_appender_queue.specs.worker.Steps.{HandsAll, LinesSink, LinesAnywhere};
ghost use Rattle.tracing_appender_queue.specs.queued.WaitingView.{bytes_of};
ghost use Rattle.tracing_appender_queue.specs.queued.LineFates.{ComesTo, SettlesLine, SettlesAll, fate_behind, queue_as, held_as, is_lost};
ghost use Rattle.tracing_appender_queue.specs.queued.LineFates.{is_missed, lost_in, missed_in};
ghost use Rattle.tracing_appender_queue.specs.queued.HeldLines.{Admits, is_some_line, nothing_at, worked};

use crate::queued::fate::{AdmitError, Fate, Settlement, more_if, one_if};
use crate::{Batched, MarkError, QueueState, Settled, ZeroLimit, batch};
use std::alloc::Global;
use std::collections::VecDeque;
use std::marker::Model;
use tracing_appender_rolling::{Folder, RollingFileAppender};
use tracing_core_moments::Moment;

/// A queue in a replay, where nobody waits for room: lines that a waiting queue has no room for are held beside it, in order.
///
/// A contract sees it as a `WaitingLines`.
#[derive(Drop)]
pub struct Waiting {
    queue: QueueState,
    held: VecDeque<Vec<u8>>,
    lost: usize,
    missed: usize,
}

impl Model for Waiting {
    ghost use Rattle.tracing_appender_queue.specs.queued.LineFates.{WaitingLines};

    ghost Value = { WaitingLines };

    ghost use Rattle.tracing_appender_queue.specs.queued.WaitingView.{waiting_of, IsWaiting};

    ghost view = { waiting_of };

    ghost invariant = { IsWaiting };
}

// Holds a line behind the others, in a buffer of the queue's where one is spare.
fn hold(queue: &mut QueueState, held: &mut VecDeque<Vec<u8>>, line: &[u8]) -> Fate
    ensures queue { queue.new ≡ queue.old }
    ensures fate { ComesTo Fate.Held result }
    ensures held { bytes_of held.new.items ≡ held_as result line.now (bytes_of held.old.items) }
{
    let Ok(copy) = queue.copy(line) else {
        return Fate::Missed;
    };
    match held.push_back(copy) {
        Ok(()) => Fate::Held,
        Err(failed) => {
            queue.give_back(failed.value);
            Fate::Missed
        }
    }
}

// Offers a line to the queue, or holds it.
fn settle_in(queue: &mut QueueState, held: &mut VecDeque<Vec<u8>>, line: &[u8]) -> Fate
    ensures fate { ComesTo (fate_behind (bytes_of held.old.items) queue.old) result }
    ensures queue { queue.new ≡ queue_as result line.now queue.old }
    ensures held { bytes_of held.new.items ≡ held_as result line.now (bytes_of held.old.items) }
    // a lossy queue that holds no line holds none after it
    ensures lossy { queue.old.lossy ≡ true → held.old.items ≡ [] → held.new.items ≡ [] }
    ensures same { queue.new.lossy ≡ queue.old.lossy }
{
    if !held.is_empty() {
        return hold(queue, held, line);
    }
    match queue.settle(line) {
        Ok(Settled::Accepted(_)) => Fate::Queued,
        Ok(Settled::Dropped) => Fate::Dropped,
        Ok(Settled::NoRoom) => hold(queue, held, line),
        Ok(Settled::Closed) => Fate::Lost,
        Err(_) => Fate::Missed,
    }
}

impl Waiting {
    /// No line waits.
    ///
    /// # Errors
    ///
    /// The limit is 0.
    pub fn new(alloc: Global, limit: usize, lossy: bool) -> Result<Waiting, ZeroLimit>
        ensures ok { IfOk result (λ made. made ≡ nothing_at (new_queue limit lossy)) }
        ensures err { OnErr result (limit ≡ 0) }
        ensures some { OnOk result (0 < limit) }
    {
        let queue = QueueState::new(alloc, limit, lossy)?;
        Ok(Waiting {
            queue,
            held: VecDeque::new(alloc),
            lost: 0,
            missed: 0,
        })
    }

    /// A line comes to the queue. It is copied only where it is kept.
    pub fn settle_line(&mut self, line: &[u8]) -> Fate
        ensures { SettlesLine self.old line.now result self.new }
    {
        let fate = settle_in(&mut self.queue, &mut self.held, line);
        self.lost = more_if(fate.is_lost(), self.lost);
        self.missed = more_if(fate.is_missed(), self.missed);
        fate
    }

    /// The lines of a request come to the queue, in order.
    pub fn settle(&mut self, lines: &[Vec<u8>]) -> Settlement
        ensures { (fates : List Fate) × SettlesAll self.old (bytes_of lines.now) fates self.new
            × (result.lost ≡ lost_in fates) × (result.missed ≡ missed_in fates) }
    {
        let mut lost = 0;
        let mut missed = 0;
        let mut rest = lines;
        while let [line, later @ ..] = rest {
            let fate = self.settle_line(line.as_slice());
            lost += one_if(fate.is_lost());
            missed += one_if(fate.is_missed());
            rest = later;
        }
        Settlement { lost, missed }
    }

    /// Offers the first held line to the queue.
    ///
    /// # Errors
    ///
    /// Nothing is held; or else the queue is closed, and the line is given up; or it has no room, or there is no memory.
    pub fn admit(&mut self) -> Result<(), AdmitError>
        ensures { Admits self.old result self.new }
    {
        if self.held.is_empty() {
            return Err(AdmitError::NothingHeld);
        }
        if !self.queue.accepting() {
            if let Some(line) = self.held.pop_front() {
                self.queue.give_back(line);
            }
            return Err(AdmitError::Closed);
        }
        if !self.queue.has_room() {
            return Err(AdmitError::NoRoom);
        }
        let Some(line) = self.held.pop_front() else {
            return Err(AdmitError::NothingHeld);
        };
        match self.queue.offer(line) {
            Ok(_) => Ok(()),
            Err(failed) => {
                self.held.push_front_reserved(failed.value);
                Err(AdmitError::OutOfMemory)
            }
        }
    }

    /// Puts the mark behind the lines that are queued now. It takes no memory.
    ///
    /// # Errors
    ///
    /// The mark was put before, or else there is no room for it; nothing is changed.
    pub fn shutdown(&mut self) -> Result<(), MarkError>
        ensures ok { OnOk result (self.new ≡ record self.old { queue = after_mark self.old.queue }) }
        ensures err { OnErr result (self.new ≡ self.old) }
        ensures sent { IsErrOf result MarkError.MarkSent ↔ (self.old.queue.sent ≡ true) }
        ensures full { IsErrOf result MarkError.NoRoom → (self.old.queue.sent ≡ false) ×
            (self.old.queue.limit ≤ length self.old.queue.queued) }
        ensures put { OnOk result ((self.old.queue.sent ≡ false) ×
            (length self.old.queue.queued < self.old.queue.limit)) }
    {
        self.queue.mark()
    }

    /// A step of a worker: the first so many lines, or all before the mark, go to the file at the moment.
    pub fn work<D: Folder>(
        &mut self,
        appender: &mut RollingFileAppender<D>,
        lines: usize,
        moment: Moment,
    ) -> Batched
        requires { is_moment moment ≡ true }
        ensures next { self.new ≡ worked lines result.missed self.old }
        ensures taken { result.taken ≡ length (lines_in lines self.old.queue) }
        ensures missed { result.missed ≤ result.taken }
        ensures names { builder_names appender.new.builder ≡ builder_names appender.old.builder }
        ensures handed { (h : HeldFile) → Holds D.contents appender.old h →
            HandsAll D.contents (builder_names appender.old.builder) moment h (lines_in lines self.old.queue)
            result.missed appender.new }
        ensures state { result.missed ≡ 0 → (c : Contents) (p : PrunedSink) →
            D.contents appender.old.folder ≡ Some c → AgreesSink D.contents appender.old p →
            LinesSink D.contents p (lines_in lines self.old.queue) moment c appender.old appender.new }
        ensures anywhere { LinesAnywhere D.failed moment (lines_in lines self.old.queue) result.missed appender.old
            appender.new }
    {
        let batched = batch(&mut self.queue, appender, lines, moment);
        self.missed = self.missed.saturating_add(batched.missed);
        batched
    }

    /// Whether lines are held.
    pub fn is_holding(&self) -> bool
        ensures { result ≡ is_some_line self.now.held }
    {
        !self.held.is_empty()
    }

    /// How many lines are held.
    pub fn held(&self) -> usize
        ensures { result ≡ length self.now.held }
    {
        self.held.len()
    }

    /// How many lines a closed waiting queue lost. The count stops at the greatest number.
    pub fn lost(&self) -> usize
        ensures { result ≡ self.now.lost }
    {
        self.lost
    }

    /// How many lines found no memory. The count stops at the greatest number.
    pub fn missed(&self) -> usize
        ensures { result ≡ self.now.missed }
    {
        self.missed
    }

    /// The queue, for its counts.
    pub fn queue(&self) -> &QueueState
        ensures { result.now ≡ self.now.queue }
    {
        &self.queue
    }
}
