//! Laws of calls on the queues of sinks.
ghost use Rattle.span_tracing_laws.specs.queue_steps.CallTurns.{TraceCallsMayChangePlaces};
ghost use Rattle.span_tracing_laws.specs.queue_steps.QueueCounts.{QueuesCount};
ghost use Rattle.span_tracing_laws.specs.queue_steps.WorkCuts.{TraceWorkMayBeCut};

use tracing_appender_rolling::Folder;

/// Neighbouring calls on the queues of two sinks of a trace may change places, steps of workers each with its own moment: each call is
/// answered as before, and both leave the same trace.
pub fn calls_may_change_places<N, E, F, D: Folder, Q>()
    ensures { TraceCallsMayChangePlaces N E F Q D.contents D.failed }
{}

/// A step of a worker over a sink of a trace may be cut in two at its moment, where the sink's folder refuses nothing and takes each write
/// whole, and no line finds no memory. The two steps leave of the queue and its files what one step of as many lines leaves, and the
/// numbers of lines that they took add up to its number; everything else in the trace stays as it was.
pub fn work_may_be_cut<N, E, F, D: Folder, Q>()
    ensures { TraceWorkMayBeCut N E F Q D.contents D.failed }
{
    tracing_appender_queue::work_may_be_cut();
}

/// Through any lines and calls that come to it, as `files_follow` tells them of each queued sink of a run, a queue's counts rise by just
/// the lines that it drops or loses. A waiting queue drops none. A lossy one that holds no line holds none and loses none.
pub fn queues_count_exactly<D: Folder>()
    ensures { QueuesCount D.contents D.failed }
{
    tracing_appender_queue::drops_are_exact();
}
