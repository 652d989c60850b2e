//! A worker step.

ghost use Rattle.std.specs.Prelude.{◌≡◌, ◌≤◌, ℕ, List, Some, true, false, length};
ghost use Rattle.tracing_appender_rolling.specs.folders.Contents.{Contents};
ghost use Rattle.tracing_core_moments.specs.Moments.{is_moment};
ghost use Rattle.tracing_appender_rolling.specs.Builders.{builder_names};
ghost use Rattle.tracing_appender_rolling.specs.Looks.{Held};
ghost use Rattle.tracing_appender_rolling.specs.Appenders.{Holds};
ghost use Rattle.tracing_appender_rolling.specs.PrunedSinks.{PrunedSink, AgreesSink, HandsSink, IsOpenIn};
ghost use Rattle.tracing_appender_rolling.specs.AnyFolder.{LineAnywhere, seen_of};
ghost use Rattle.tracing_appender_queue.specs.worker.Batches.{lines_in, queue_in, close_if, Next};
ghost use Rattle.tracing_appender_queue.specs.worker.Steps.{answer_of, is_missed, is_whole, FlushedAt, HandsOne, HandsAll, HoldsFlushed};
ghost use Rattle.tracing_appender_queue.specs.worker.Steps.{LinesSink, LinesAnywhere};

use crate::{QueueState, Taken};
use tracing_appender_rolling::{Folder, FolderError, FolderFault, RollingFileAppender};
use tracing_core_moments::Moment;

/// How many lines a step took, and how many of these found no memory.
#[derive(Clone, Copy, Debug, PartialEq, Eq)]
pub struct Batched {
    pub taken: usize,
    pub missed: usize,
}

/// What became of a line of a step.
#[derive(Clone, Copy, Debug, PartialEq, Eq)]
pub enum Written {
    /// Its writes took all of it.
    Whole,
    /// This fault ended its writes.
    Failed(FolderFault),
    /// It found no memory.
    Missed,
}

impl Written {
    fn is_missed(self) -> bool
        ensures { result ≡ is_missed self }
    {
        match self {
            Written::Whole | Written::Failed(_) => false,
            Written::Missed => true,
        }
    }

    fn is_whole(self) -> bool
        ensures { result ≡ is_whole self }
    {
        match self {
            Written::Whole => true,
            Written::Failed(_) | Written::Missed => false,
        }
    }
}

/// The next line before the mark.
fn next_line(queue: &mut QueueState) -> Option<Vec<u8>>
    ensures { Next queue.old result queue.new }
{
    if queue.is_mark_next() {
        return None;
    }
    match queue.take() {
        Some(Taken::Line(_, line)) => Some(line),
        Some(Taken::Mark) | None => None,
    }
}

/// Takes the mark where it stands at the head.
fn close_at_mark(queue: &mut QueueState)
    ensures { queue.new ≡ close_if queue.old }
{
    if queue.is_mark_next() {
        let _ = queue.take();
    }
}

fn write_line<D: Folder>(
    appender: &mut RollingFileAppender<D>,
    line: &[u8],
    moment: Moment,
) -> Written
    requires { is_moment moment ≡ true }
    ensures handed { (h : Held) → Holds D.contents appender.old h →
        HandsOne D.contents (builder_names appender.old.builder) moment h line.now result appender.new }
    ensures state { is_missed result ≡ false → (c : Contents) (p : PrunedSink) →
        D.contents appender.old.folder ≡ Some c → AgreesSink D.contents appender.old p →
        HandsSink D.contents p line.now moment c appender.old appender.new }
    ensures anywhere { LineAnywhere D.failed moment (length line.now) (answer_of result) appender.old appender.new }
    ensures names { builder_names appender.new.builder ≡ builder_names appender.old.builder }
{
    match appender.write_all_at(line, moment) {
        Ok(()) => Written::Whole,
        Err(FolderError::Fault(fault)) => Written::Failed(fault),
        Err(FolderError::OutOfMemory) => Written::Missed,
    }
}

fn flush_if<D: Folder>(appender: &mut RollingFileAppender<D>, whole: bool)
    ensures state { (p : PrunedSink) → AgreesSink D.contents appender.old p → AgreesSink D.contents appender.new p }
    ensures faults { appender.new.faults ≡ appender.old.faults }
    ensures current { appender.new.current ≡ appender.old.current }
    ensures anywhere { FlushedAt (seen_of D.failed appender.old) (seen_of D.failed appender.new) }
    ensures opens { (files : List ℕ) → IsOpenIn (D.contents appender.old.folder) files →
        IsOpenIn (D.contents appender.new.folder) files }
    ensures names { builder_names appender.new.builder ≡ builder_names appender.old.builder }
    ensures flushed { (h : Held) → Holds D.contents appender.old h → HoldsFlushed D.contents whole h appender.new }
{
    if whole {
        let _ = appender.flush();
    }
}

/// Takes the first `k` lines, or all before the mark, and writes each at the moment; a mark that then stands
/// at the head is taken too. A failing write loses its line's rest alone. After a last line that was written
/// whole the file is flushed; what that answers is passed over.
pub fn batch<D: Folder>(
    queue: &mut QueueState,
    appender: &mut RollingFileAppender<D>,
    k: usize,
    moment: Moment,
) -> Batched
    requires { is_moment moment ≡ true }
    // The first `k` lines are taken from the queue, or all before the mark, and a mark that then stands at the head too.
    ensures queue { queue.new ≡ queue_in k queue.old }
    ensures taken { result.taken ≡ length (lines_in k queue.old) }
    ensures missed { result.missed ≤ result.taken }
    ensures names { builder_names appender.new.builder ≡ builder_names appender.old.builder }
    // Over known contents, whatever the folder refuses, each line in turn was written whole, failed by a fault, or found no memory,
    // and the file was flushed after a last line that was whole.
    ensures handed { (h : Held) → Holds D.contents appender.old h →
        HandsAll D.contents (builder_names appender.old.builder) moment h (lines_in k queue.old) result.missed
        appender.new }
    // Where the appender agreed with a model of its files and each line found memory, it agrees afterwards with that model and these
    // lines, and no fault is counted.
    ensures state { result.missed ≡ 0 → (c : Contents) (p : PrunedSink) → D.contents appender.old.folder ≡ Some c →
        AgreesSink D.contents appender.old p → LinesSink D.contents p (lines_in k queue.old) moment c appender.old
        appender.new }
    // Over any folder the end of the period, the current file and the counts of faults are what these lines leave, one after another.
    ensures anywhere { LinesAnywhere D.failed moment (lines_in k queue.old) result.missed appender.old appender.new }
{
    let mut taken = 0;
    let mut missed = 0;
    let mut whole = false;
    while taken < k {
        let Some(line) = next_line(queue) else {
            break;
        };
        let fate = write_line(appender, line.as_slice(), moment);
        queue.give_back(line);
        if fate.is_missed() {
            missed += 1;
        }
        whole = fate.is_whole();
        taken += 1;
    }
    close_at_mark(queue);
    flush_if(appender, whole);
    Batched { taken, missed }
}
