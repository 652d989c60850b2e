//! The worker.

ghost use Rattle.std.specs.Prelude.{◌≡◌, [], length, map, vec_capacity, vec_len};
ghost use Rattle.tracing_appender_queue.specs.worker.Batches.{Next, close_if, lines_in, queue_in};
ghost use Rattle.tracing_appender.specs.background.Working.{Ends, WritesLines, is_idle};

use crate::background::channel::Channel;
use crate::background::output::LineOutput;
use std::io::Write;
use std::sync::Wait;
use tracing_appender_queue::{QueueState, Taken};

/// Whether there is nothing to take, and the mark is still to come.
pub(crate) fn is_idle(queue: &QueueState) -> bool
    ensures { result ≡ is_idle queue.now }
{
    queue.queued() == 0 && !queue.is_mark_next() && queue.accepting()
}

/// The next line before the mark.
fn next_line(queue: &mut QueueState) -> Option<Vec<u8>>
    ensures next { Next queue.old result queue.new }
    ensures accepting { queue.new.accepting ≡ queue.old.accepting }
{
    if queue.is_mark_next() {
        return None;
    }
    match queue.take() {
        Some(Taken::Line(_, line)) => Some(line),
        Some(Taken::Mark) | None => None,
    }
}

/// Takes the mark where it is next, and says whether it was.
fn take_mark(queue: &mut QueueState) -> bool
    ensures queue { queue.new ≡ close_if queue.old }
    ensures taken { Ends queue.old result queue.new }
{
    let is_next = queue.is_mark_next();
    if is_next {
        let _ = queue.take();
    }
    is_next
}

/// Takes the next lines, in order: as many as there is room for, or all before the mark. A mark that is next then is taken too.
/// Says whether it was.
pub(crate) fn take_lines(queue: &mut QueueState, lines: &mut Vec<Vec<u8>>) -> bool
    requires { lines.old.items ≡ [] }
    ensures queue { queue.new ≡ queue_in (vec_capacity lines.old) queue.old }
    ensures lines { map (λ line. line.items) lines.new.items ≡ lines_in (vec_capacity lines.old) queue.old }
    ensures ends { Ends queue.old result queue.new }
    ensures room { vec_capacity lines.new ≡ vec_capacity lines.old }
{
    let room = lines.capacity();
    while lines.len() < room {
        let Some(line) = next_line(queue) else {
            break;
        };
        lines.push_reserved(line);
    }
    take_mark(queue)
}

/// Hands the buffers of lines to the queue, for the copies of later ones.
pub(crate) fn give_back(queue: &mut QueueState, lines: &mut Vec<Vec<u8>>)
    ensures queue { queue.new ≡ queue.old }
    ensures lines { lines.new.items ≡ [] }
    ensures room { vec_capacity lines.new ≡ vec_capacity lines.old }
{
    while let Some(line) = lines.pop() {
        queue.give_back(line);
    }
}

/// Writes the lines, each once and in order, whatever became of those before.
fn write_lines<W: LineOutput>(writer: &mut W, lines: &[Vec<u8>])
    ensures { WritesLines W.writes (map (λ line. line.items) lines.now) writer.old writer.new }
{
    let mut rest = lines;
    while let [line, later @ ..] = rest {
        let _ = writer.write_line(line.as_slice());
        rest = later;
    }
}

/// Waits for a line, writes all lines that are there, and says whether the mark came behind them.
fn drain<R: Wait, W: Write>(
    rt: &R,
    channel: &Channel,
    writer: &mut W,
    lines: &mut Vec<Vec<u8>>,
) -> bool {
    let mut ends = channel.take_first(rt, lines);
    for _ in rt.forever() {
        write_lines(writer, lines.as_slice());
        if ends || lines.is_empty() {
            break;
        }
        ends = channel.take_next(rt, lines);
    }
    ends
}

/// Writes lines as they come, and flushes where there are none, until the mark. Hands the writer back.
pub(crate) fn work<R: Wait, W: Write>(
    rt: &R,
    channel: &Channel,
    writer: W,
    lines: Vec<Vec<u8>>,
) -> W {
    let mut writer = writer;
    let mut lines = lines;
    for _ in rt.forever() {
        let ends = drain(rt, channel, &mut writer, &mut lines);
        let _ = writer.flush();
        if ends {
            return writer;
        }
    }
    unreachable!()
}
