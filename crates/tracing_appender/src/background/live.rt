//! Queues whose lines are written elsewhere, while the caller goes on.

ghost use Rattle.std.specs.Prelude.{◌≡◌, ◌≢◌, ◌++◌, ◌∷◌, ℕ, List, [], if◌then◌else◌, map};
ghost use Rattle.tracing_appender_queue.specs.declared.queued.fate.Fate.{Fate};
ghost use Rattle.tracing_appender.specs.background.Live.{Records, recorded};

use crate::background::sender::NonBlocking;
use std::alloc::Global;
use std::sync::Wait;
use tracing_appender_queue::Fate;

/// A queue whose lines are written elsewhere, most often by a thread of its own. A sink of a trace may hand its lines to one.
pub trait LiveQueue: Drop {
    // What may become of a line, and of the queue.
    ghost settles: { Self → List ℕ → Fate → Self → Type 0 };

    /// Takes a line, and answers what became of it. It may wait for room. No line is held beside the queue.
    fn settle_line(&mut self, line: &[u8]) -> Fate
        ensures settles { settles self.old line.now result self.new }
        ensures not_held { result ≢ Fate.Held };
}

/// A line is sent to the worker. Where a waiting queue is full, the caller waits for room.
impl<R: Wait + Drop> LiveQueue for NonBlocking<R> {
    ghost settles = { λ old line fate new. new ≡ old };

    fn settle_line(&mut self, line: &[u8]) -> Fate {
        self.channel.send(&self.rt, line)
    }
}

/// The queue of a trace that has none. It keeps no line: each is lost, and told so.
#[derive(Clone, Copy, Debug)]
pub struct NoLive;

impl LiveQueue for NoLive {
    ghost settles = { λ old line fate new. fate ≡ Fate.Lost };

    fn settle_line(&mut self, _line: &[u8]) -> Fate {
        Fate::Lost
    }
}

/// A queue that nobody empties, to see what came to it.
#[derive(Drop)]
pub struct RecordedQueue {
    alloc: Global,
    lines: Vec<Vec<u8>>,
}

impl RecordedQueue {
    /// A queue to which no line came yet.
    pub fn new(alloc: Global) -> RecordedQueue
        ensures { recorded result ≡ [] }
    {
        RecordedQueue {
            alloc,
            lines: Vec::new(alloc),
        }
    }

    /// The lines that came, in order. Lines that found no memory are missing.
    pub fn lines(&self) -> &[Vec<u8>]
        ensures { map (λ line. line.items) result.now ≡ recorded self.now }
    {
        self.lines.as_slice()
    }

    // Keeps a copy of a line behind the others. Where there is no memory, nothing changes.
    fn keep(&mut self, line: &[u8]) -> bool
        ensures { Records self.old line.now (if result then Fate.Queued else Fate.Missed) self.new }
    {
        let mut copy = Vec::new(self.alloc);
        if copy.extend_from_slice(line).is_err() {
            return false;
        }
        self.lines.push(copy).is_ok()
    }
}

/// A line is kept behind the others, or finds no memory.
impl LiveQueue for RecordedQueue {
    ghost settles = { λ old line fate new. Records old line fate new };

    fn settle_line(&mut self, line: &[u8]) -> Fate {
        if self.keep(line) {
            Fate::Queued
        } else {
            Fate::Missed
        }
    }
}
