//! A sink whose lines are written elsewhere, while the trace goes on.
ghost use Rattle.std.specs.Prelude.{◌≡◌};
ghost use Rattle.tracing_appender_queue.specs.queued.LineFates.{is_lost, is_missed};
ghost use Rattle.span_tracing_outputs.specs.sinks.Takes.{dropped_after};

use crate::LineSink;
use tracing_appender::LiveQueue;
use tracing_appender_queue::Fate;
use tracing_core_fields::Level;
use tracing_core_moments::At;

/// Hands its lines to a live queue, each once. A line that finds no memory is counted as missed, and one that a closed waiting queue
/// loses as lost. What a lossy queue drops the queue counts.
pub struct LiveSink<Q> {
    queue: Q,
    missed: usize,
    lost: usize,
}

/// It is written down, so that whoever lets a sink go needs no proof of his own for each of its parts.
impl<Q: Drop> Drop for LiveSink<Q> {
    fn drop(self) {
        let LiveSink {
            queue: _queue,
            missed: _missed,
            lost: _lost,
        } = self;
    }
}

// One more, where it is to be counted. The count stops at the greatest number.
fn counted(counts: bool, count: usize) -> usize
    ensures { result ≡ dropped_after counts count }
{
    if counts {
        count.saturating_add(1)
    } else {
        count
    }
}

impl<Q> LiveSink<Q> {
    /// A sink of which no line was missed or lost yet.
    pub fn new(queue: Q) -> LiveSink<Q>
        ensures { result ≡ record { queue = queue; missed = 0; lost = 0 } }
    {
        LiveSink {
            queue,
            missed: 0,
            lost: 0,
        }
    }

    /// The queue.
    pub fn queue(&self) -> &Q
        ensures { result.now ≡ self.now.queue }
    {
        &self.queue
    }

    /// The queue, once the sink takes no more lines.
    pub fn into_queue(self) -> Q
    where
        Q: Drop,
        ensures { result ≡ self.queue }
    {
        let LiveSink {
            queue,
            missed: _,
            lost: _,
        } = self;
        queue
    }

    /// How many lines found no memory. The count stops at the greatest number.
    pub fn missed(&self) -> usize
        ensures { result ≡ self.now.missed }
    {
        self.missed
    }

    /// How many lines a closed waiting queue lost. The count stops at the greatest number.
    pub fn lost(&self) -> usize
        ensures { result ≡ self.now.lost }
    {
        self.lost
    }

    fn count(&mut self, fate: Fate)
        ensures { self.new ≡ record self.old {
          missed = dropped_after (is_missed fate) self.old.missed;
          lost = dropped_after (is_lost fate) self.old.lost;
        } }
    {
        self.missed = counted(fate.is_missed(), self.missed);
        self.lost = counted(fate.is_lost(), self.lost);
    }
}

impl<Q: LiveQueue> LineSink for LiveSink<Q> {
    ghost use Rattle.std.specs.Prelude.{false};
    ghost use Rattle.span_tracing_outputs.specs.sinks.LiveSinks.{TakesLive};

    ghost takes = { λ old at line new. TakesLive Q.settles old line.bytes new };

    ghost holds = { λ _. false };

    fn take(&mut self, _at: At, _level: Level, line: &[u8]) {
        let fate = self.queue.settle_line(line);
        self.count(fate);
    }

    fn is_holding(&self) -> bool {
        false
    }
}
