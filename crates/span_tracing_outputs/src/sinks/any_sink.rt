//! A sink, direct, queued or live.
ghost use Rattle.std.specs.Prelude.{◌≡◌};
ghost use Rattle.std.specs.Option.{option_copied};
ghost use Rattle.tracing_core_moments.specs.Moments.{is_moment};
ghost use Rattle.span_tracing_skeleton.specs.declared.queue_call.QueueCall.TheVariants.{Admit, Shutdown};
ghost use Rattle.span_tracing_outputs.specs.sinks.AnySinks.{CallsAny, CallsQueue, WorksIf, admit_reply, appender_of};
ghost use Rattle.span_tracing_outputs.specs.sinks.AnySinks.{dropped_by_queue, faults_of, held_by, live_of, lost_lines, missed_by};
ghost use Rattle.span_tracing_outputs.specs.sinks.AnySinks.{shutdown_reply};

use crate::LineSink;
use crate::sinks::live::LiveSink;
use crate::sinks::sink::RollingSink;
use span_tracing_skeleton::{QueueCall, Refusal, Reply};
use tracing_appender::{LiveQueue, NoLive};
use tracing_appender_queue::{AdmitError, MarkError, QueuedSink};
use tracing_appender_rolling::{Faults, Folder, RollingFileAppender};
use tracing_core_fields::Level;
use tracing_core_moments::{At, Moment};

/// A sink that writes lines as they come, or one whose lines wait in a queue, or go to one that is emptied elsewhere.
#[derive(Drop)]
pub enum AnySink<D, Q = NoLive> {
    /// Lines are written as they come.
    Direct(RollingSink<D>),
    /// Lines wait in a queue until a step of a worker writes them.
    Queued(QueuedSink<D>),
    /// Lines go to a queue whose lines are written elsewhere, most often by a thread of its own.
    Live(LiveSink<Q>),
}

fn admit_reply(answer: Result<(), AdmitError>) -> Reply
    ensures { result ≡ admit_reply answer }
{
    match answer {
        Ok(()) => Reply::Done,
        Err(AdmitError::NothingHeld) => Reply::Refused(Refusal::NothingHeld),
        Err(AdmitError::Closed) => Reply::Refused(Refusal::Closed),
        Err(AdmitError::NoRoom) => Reply::Refused(Refusal::NoRoom),
        Err(AdmitError::OutOfMemory) => Reply::Refused(Refusal::OutOfMemory),
    }
}

fn shutdown_reply(answer: Result<(), MarkError>) -> Reply
    ensures { result ≡ shutdown_reply answer }
{
    match answer {
        Ok(()) => Reply::Done,
        Err(MarkError::MarkSent) => Reply::Refused(Refusal::MarkSent),
        Err(MarkError::NoRoom) => Reply::Refused(Refusal::NoRoom),
    }
}

// A step of a worker.
fn work<D: Folder>(sink: &mut QueuedSink<D>, lines: usize, moment: Moment) -> Reply
    ensures { WorksIf D.contents D.failed (is_moment moment) lines moment sink.old result sink.new }
{
    if !moment.is_in_range() {
        return Reply::Refused(Refusal::BadMoment);
    }
    let batched = sink.work(lines, moment);
    Reply::Worked(batched.taken)
}

fn admit<D: Folder>(sink: &mut QueuedSink<D>) -> Reply
    ensures { CallsQueue D.contents D.failed Admit sink.old result sink.new }
{
    admit_reply(sink.admit())
}

fn shutdown<D: Folder>(sink: &mut QueuedSink<D>) -> Reply
    ensures { CallsQueue D.contents D.failed Shutdown sink.old result sink.new }
{
    shutdown_reply(sink.shutdown())
}

// What is told of a sink that has no folder of its own.
fn lost_lines(lost: usize) -> Faults
    ensures { result ≡ lost_lines lost }
{
    Faults {
        switches: 0,
        retentions: 0,
        writes: lost,
        last: None,
    }
}

impl<D: Folder, Q: LiveQueue> AnySink<D, Q> {
    /// Does this to its queue. A direct sink refuses it, and so does a live one (`NotQueued`).
    ///
    /// A step of a worker is refused at a moment out of range (`BadMoment`); else it answers how many lines it took. The first held line is
    /// refused where none is held (`NothingHeld`), where the queue is closed (`Closed`; the line is given up then), where it has no room
    /// (`NoRoom`), and where there is no memory. The mark is refused where it was put before (`MarkSent`) or finds no room (`NoRoom`).
    pub fn drive(&mut self, call: QueueCall) -> Reply
        ensures { CallsAny D.contents D.failed self.old call result self.new }
    {
        match self {
            AnySink::Direct(_) | AnySink::Live(_) => Reply::Refused(Refusal::NotQueued),
            AnySink::Queued(sink) => match call {
                QueueCall::Work(lines, moment) => work(sink, lines, moment),
                QueueCall::Admit => admit(sink),
                QueueCall::Shutdown => shutdown(sink),
            },
        }
    }

    /// How many lines found no memory at it. The count stops at the greatest number.
    pub fn missed(&self) -> usize
        ensures { result ≡ missed_by self.now }
    {
        match self {
            AnySink::Direct(sink) => sink.dropped(),
            AnySink::Queued(sink) => sink.missed(),
            AnySink::Live(sink) => sink.missed(),
        }
    }

    /// How many lines are held beside its queue, where it is queued.
    pub fn held(&self) -> Option<usize>
        ensures { result ≡ held_by self.now }
    {
        match self {
            AnySink::Direct(_) | AnySink::Live(_) => None,
            AnySink::Queued(sink) => Some(sink.held()),
        }
    }

    /// How many lines its queue dropped, where it is queued. The count stops at the greatest number. What a live queue drops it counts
    /// itself.
    pub fn dropped_lines(&self) -> Option<usize>
        ensures { result ≡ dropped_by_queue self.now }
    {
        match self {
            AnySink::Direct(_) | AnySink::Live(_) => None,
            AnySink::Queued(sink) => Some(sink.dropped_lines()),
        }
    }

    /// What was lost to its folder's faults. Lines that came to a closed waiting queue are lost, too, and are among the writes. Of a live
    /// sink these alone are told: what its folder lost, whoever writes there has to ask.
    pub fn faults(&self) -> Faults
        ensures { result ≡ faults_of self.now }
    {
        match self {
            AnySink::Direct(sink) => sink.appender().faults(),
            AnySink::Queued(sink) => sink.faults(),
            AnySink::Live(sink) => lost_lines(sink.lost()),
        }
    }

    /// The rolling file that its lines go to, where it isn't live. Its faults leave out lines that a closed queue lost; see
    /// [`faults`](AnySink::faults).
    pub fn appender(&self) -> Option<&RollingFileAppender<D>>
        ensures { option_copied result ≡ appender_of self.now }
    {
        match self {
            AnySink::Direct(sink) => Some(sink.appender()),
            AnySink::Queued(sink) => Some(sink.appender()),
            AnySink::Live(_) => None,
        }
    }

    /// The live queue that its lines go to, where it has one.
    pub fn live_queue(&self) -> Option<&Q>
        ensures { option_copied result ≡ live_of self.now }
    {
        match self {
            AnySink::Direct(_) | AnySink::Queued(_) => None,
            AnySink::Live(sink) => Some(sink.queue()),
        }
    }
}

impl<D: Folder, Q: LiveQueue> LineSink for AnySink<D, Q> {
    ghost use Rattle.span_tracing_outputs.specs.sinks.AnySinks.{TakesAny, holds_line};

    ghost takes = { TakesAny D.contents D.failed Q.settles };

    ghost holds = { λ s. holds_line s };

    fn take(&mut self, at: At, level: Level, line: &[u8]) {
        match self {
            AnySink::Direct(sink) => sink.take(at, level, line),
            AnySink::Queued(sink) => {
                let _fate = sink.settle_line(line);
            }
            AnySink::Live(sink) => sink.take(at, level, line),
        }
    }

    fn is_holding(&self) -> bool {
        match self {
            AnySink::Direct(_) | AnySink::Live(_) => false,
            AnySink::Queued(sink) => sink.is_holding(),
        }
    }
}
