//! A queue that threads share.

ghost use Rattle.std.specs.Prelude.{◌≡◌, ◌≢◌, ◌+◌, ◌≤◌, if◌then◌else◌, List, false, length, map, true};
ghost use Rattle.std.specs.Sync.Mutex.{mutex_guard_value};
ghost use Rattle.tracing_appender_queue.specs.queued.LineFates.{ComesTo, fate_at, lost_in, missed_in, queue_as};
ghost use Rattle.tracing_appender_queue.specs.Queue.{Queue, after_mark};
ghost use Rattle.tracing_appender.specs.background.Working.{is_idle};
ghost use Rattle.tracing_appender.specs.background.Sending.{SendsAll, SendsLine, WaitsUntil, must_wait};

use crate::background::worker::{give_back, is_idle, take_lines};
use std::sync::atomic::{AtomicUsize, Ordering};
use std::sync::{Condvar, Mutex, MutexGuard, Wait};
use tracing_appender_queue::{Fate, MarkError, QueueState, Settled, Settlement};

/// A queue under its lock, and what wakes the threads that wait for it.
#[derive(Drop)]
pub(crate) struct Channel {
    pub(crate) queue: Mutex<QueueState>,
    /// Here the worker waits for a line or the mark.
    filled: Condvar,
    /// Here senders and the guard wait for room.
    emptied: Condvar,
    /// The queue's count of dropped lines, which is stored under its lock and read without it.
    dropped: AtomicUsize,
}

/// Whether a sender has to wait for room.
fn must_wait(queue: &QueueState) -> bool
    ensures { result ≡ must_wait queue.now }
{
    !queue.lossy() && queue.accepting() && !queue.has_room()
}

/// Whether the mark still waits for room: it is put here where there is some.
fn lacks_mark(queue: &mut QueueState) -> bool
    ensures put { queue.new ≡ after_mark queue.old }
    ensures sent { result ≡ false → queue.new.sent ≡ true }
{
    matches!(queue.mark(), Err(MarkError::NoRoom))
}

/// Offers a line to the queue, which copies it where it takes it in.
fn offer(queue: &mut QueueState, line: &[u8]) -> Fate
    ensures came { ComesTo (fate_at queue.old) result }
    ensures left { queue.new ≡ queue_as result line.now queue.old }
{
    match queue.settle(line) {
        Ok(Settled::Accepted(_)) => Fate::Queued,
        Ok(Settled::Dropped) => Fate::Dropped,
        Ok(Settled::NoRoom) => Fate::Held,
        Ok(Settled::Closed) => Fate::Lost,
        Err(_) => Fate::Missed,
    }
}

impl Channel {
    pub(crate) fn new(queue: QueueState) -> Channel {
        Channel {
            queue: Mutex::new(queue),
            filled: Condvar::new(),
            emptied: Condvar::new(),
            dropped: AtomicUsize::new(0),
        }
    }

    /// How many lines were dropped, as it was stored last. No lock is taken.
    pub(crate) fn dropped_lines(&self) -> usize {
        self.dropped.load(Ordering::SeqCst)
    }

    /// Waits until a line needn't wait. The worker is woken before, since it may not know yet of this sender's last lines.
    fn until_ready<'a, R: Wait>(
        &'a self,
        rt: &R,
        queue: MutexGuard<'a, QueueState>,
    ) -> MutexGuard<'a, QueueState>
        ensures { WaitsUntil (mutex_guard_value queue.entry) (mutex_guard_value result) }
    {
        if !must_wait(&queue) {
            return queue;
        }
        self.filled.notify_one();
        self.emptied.wait_while(rt, queue, |queue| must_wait(queue))
    }

    /// Sends a line in this hold of the lock; a waiting sender gives the lock up while there is no room.
    fn send_line<'a, R: Wait>(
        &'a self,
        rt: &R,
        queue: MutexGuard<'a, QueueState>,
        line: &[u8],
    ) -> (MutexGuard<'a, QueueState>, Fate)
        ensures { SendsLine (mutex_guard_value queue.entry) line.now result.1 (mutex_guard_value result.0) }
    {
        let mut queue = self.until_ready(rt, queue);
        let fate = offer(&mut queue, line);
        (queue, fate)
    }

    /// Sends lines, in order.
    fn send_lines<'a, R: Wait>(
        &'a self,
        rt: &R,
        queue: MutexGuard<'a, QueueState>,
        lines: &[Vec<u8>],
    ) -> (MutexGuard<'a, QueueState>, Settlement)
        ensures few { result.1.lost + result.1.missed ≤ length lines.now }
        ensures sent { (fates : List Fate)
            × SendsAll (mutex_guard_value queue.entry) (map (λ line. line.items) lines.now) fates (mutex_guard_value result.0)
            × (result.1.lost ≡ lost_in fates) × (result.1.missed ≡ missed_in fates) }
    {
        let mut queue = queue;
        let mut lost = 0;
        let mut missed = 0;
        let mut rest = lines;
        while let [line, later @ ..] = rest {
            let (next, fate) = self.send_line(rt, queue, line.as_slice());
            queue = next;
            lost += one_if(fate.is_lost());
            missed += one_if(fate.is_missed());
            rest = later;
        }
        (queue, Settlement { lost, missed })
    }

    /// Lets the lock go, once the count of dropped lines is stored, and wakes the worker.
    fn leave(&self, queue: MutexGuard<'_, QueueState>) {
        let dropped = queue.dropped_lines();
        if self.dropped.load(Ordering::SeqCst) != dropped {
            self.dropped.store(dropped, Ordering::SeqCst);
        }
        drop(queue);
        self.filled.notify_one();
    }

    /// Sends lines, in order, in one hold of the lock, but where a waiting sender waits.
    pub(crate) fn settle<R: Wait>(&self, rt: &R, lines: &[Vec<u8>]) -> Settlement
        ensures { result.lost + result.missed ≤ length lines.now }
    {
        let queue = self.queue.lock(rt);
        let (queue, settlement) = self.send_lines(rt, queue, lines);
        self.leave(queue);
        settlement
    }

    /// Sends one line.
    pub(crate) fn send<R: Wait>(&self, rt: &R, line: &[u8]) -> Fate
        ensures { result ≢ Fate.Held }
    {
        let queue = self.queue.lock(rt);
        let (queue, fate) = self.send_line(rt, queue, line);
        self.leave(queue);
        fate
    }

    /// Waits until there is room for the mark, and puts it.
    fn until_marked<'a, R: Wait>(
        &'a self,
        rt: &R,
        queue: MutexGuard<'a, QueueState>,
    ) -> MutexGuard<'a, QueueState>
        ensures put { (q : Queue) × (mutex_guard_value result ≡ after_mark q) }
        ensures sent { (mutex_guard_value result).sent ≡ true }
    {
        self.emptied
            .wait_while(rt, queue, |queue| lacks_mark(queue))
    }

    /// Puts the mark, once there is room for it.
    pub(crate) fn mark<R: Wait>(&self, rt: &R) {
        let queue = self.queue.lock(rt);
        let queue = self.until_marked(rt, queue);
        drop(queue);
        self.filled.notify_one();
    }

    /// Waits until there is something for the worker.
    fn until_filled<'a, R: Wait>(
        &'a self,
        rt: &R,
        queue: MutexGuard<'a, QueueState>,
    ) -> MutexGuard<'a, QueueState>
        ensures { is_idle (mutex_guard_value result) ≡ false }
    {
        self.filled.wait_while(rt, queue, |queue| is_idle(queue))
    }

    /// Waits for the next lines or the mark, and takes them, in one hold of the lock. Says whether the mark was taken. The buffers
    /// of the lines so far go back to the queue before.
    pub(crate) fn take_first<R: Wait>(&self, rt: &R, lines: &mut Vec<Vec<u8>>) -> bool {
        let mut queue = self.queue.lock(rt);
        give_back(&mut queue, lines);
        let mut queue = self.until_filled(rt, queue);
        let ends = take_lines(&mut queue, lines);
        drop(queue);
        self.emptied.notify_all();
        ends
    }

    /// The same of what is there now: there may be nothing.
    pub(crate) fn take_next<R: Wait>(&self, rt: &R, lines: &mut Vec<Vec<u8>>) -> bool {
        let mut queue = self.queue.lock(rt);
        give_back(&mut queue, lines);
        let ends = take_lines(&mut queue, lines);
        drop(queue);
        self.emptied.notify_all();
        ends
    }
}

fn one_if(counts: bool) -> usize
    ensures { result ≡ (if counts then 1 else 0) }
{
    if counts { 1 } else { 0 }
}
