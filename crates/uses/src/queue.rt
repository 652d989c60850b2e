//! A queue of lines alone: one part of a program puts lines in, another takes them out.

ghost use Rattle.std.specs.Prelude.{◌≡◌, ◌<◌, true, false, None, Some, IfOk, OnOk, OnErr, slice_get};
ghost use Rattle.std.specs.Option.{option_map};
ghost use Rattle.tracing_appender.specs.Queue.{new_queue, accepts, after_offer, after_take, after_mark, mark_next};

use std::alloc::{AllocError, Global};
use tracing_appender::{MarkError, QueueState, Settled, Taken, ZeroLimit};

/// A queue that drops lines rather than let the program wait for room. Its limit is at least one line.
pub fn dropping_queue(alloc: Global, limit: usize) -> QueueState
    requires { 0 < limit }
    ensures { result ≡ new_queue limit true }
{
    match QueueState::new(alloc, limit, true) {
        Ok(queue) => queue,
        Err(ZeroLimit) => unreachable!(),
    }
}

/// Puts a copy of a text into the queue, and tells whether it was taken in. A text that isn't is not copied.
///
/// # Errors
///
/// Out of memory; the queue is as it was.
pub fn offer_text(queue: &mut QueueState, text: &str) -> Result<bool, AllocError>
    ensures taken { IfOk result (λ taken. taken ≡ accepts queue.old) }
    ensures next { OnOk result (queue.new ≡ after_offer queue.old text.now) }
    ensures err { OnErr result (queue.new ≡ queue.old) }
{
    match queue.settle(text.as_bytes())? {
        Settled::Accepted(_) => Ok(true),
        Settled::Dropped | Settled::NoRoom | Settled::Closed => Ok(false),
    }
}

/// The next line, where one stands before the mark. The mark is left where it is.
pub fn next_line(queue: &mut QueueState) -> Option<Vec<u8>>
    ensures line { mark_next queue.old ≡ false → option_map (λ line. line.items) result ≡ slice_get queue.old.queued 0 }
    ensures rest { mark_next queue.old ≡ false → queue.new ≡ after_take queue.old }
    ensures mark { mark_next queue.old ≡ true → (result ≡ None) × (queue.new ≡ queue.old) }
{
    if queue.is_mark_next() {
        return None;
    }
    match queue.take() {
        Some(Taken::Line(_, line)) => Some(line),
        _ => None,
    }
}

/// What comes out of a queue of two lines after two texts were put in: the same texts, in order.
///
/// # Errors
///
/// Out of memory.
pub fn two_in_order(
    alloc: Global,
    first: &str,
    second: &str,
) -> Result<(Option<Vec<u8>>, Option<Vec<u8>>), AllocError>
    ensures first { IfOk result (λ lines. option_map (λ line. line.items) lines.0 ≡ Some first.now) }
    ensures second { IfOk result (λ lines. option_map (λ line. line.items) lines.1 ≡ Some second.now) }
{
    let mut queue = dropping_queue(alloc, 2);
    offer_text(&mut queue, first)?;
    offer_text(&mut queue, second)?;
    let one = next_line(&mut queue);
    let two = next_line(&mut queue);
    Ok((one, two))
}

/// Closes a queue behind the lines that are in it now: once these are taken, no line is taken in any more.
///
/// # Errors
///
/// It was closed so before, or else there is no room for the mark; the queue is as it was.
pub fn close_behind(queue: &mut QueueState) -> Result<(), MarkError>
    ensures ok { OnOk result (queue.new ≡ after_mark queue.old) }
    ensures err { OnErr result (queue.new ≡ queue.old) }
{
    queue.mark()
}
