//! Lines that a worker thread writes. No test says what the threads do first: each ends by itself, whatever they do.

ghost use Rattle.std.specs.Prelude.{◌≡◌, ◌≤◌, length};

use crate::background::Channel;
use crate::{
    DEFAULT_BUFFERED_LINES_LIMIT, NonBlocking, NonBlockingBuilder, StartError, StartRefusal,
    WorkerGuard, non_blocking,
};
use std::alloc::{AllocError, Global};
use std::io::Write;
use std::sync::{Arc, Mutex, Wait};
use std::test::Fail;
use std::thread::Threads;
use std::{io, thread};
use tracing_appender_queue::{Fate, QueueState};

/// Waits at each write until the door is open.
#[derive(Drop)]
struct DoorWriter<R: Wait> {
    rt: R,
    door: Arc<Mutex<u8>, Global>,
    bytes: Vec<u8>,
}

impl<R: Wait> Write for DoorWriter<R> {
    fn write(&mut self, buf: &[u8]) -> io::Result<usize> {
        let mut writes = self.door.lock(&self.rt);
        *writes = writes.saturating_add(1);
        drop(writes);
        self.bytes.write(buf)
    }

    fn flush(&mut self) -> io::Result<()> {
        Ok(())
    }
}

/// Refuses the lines of this text, and keeps the others apart until it is flushed.
#[derive(Drop)]
struct PickyWriter {
    refused: &'static [u8],
    pending: Vec<u8>,
    flushed: Vec<u8>,
}

impl PickyWriter {
    fn new(alloc: Global, refused: &'static [u8]) -> PickyWriter {
        PickyWriter {
            refused,
            pending: Vec::new(alloc),
            flushed: Vec::new(alloc),
        }
    }
}

impl Write for PickyWriter {
    fn write(&mut self, buf: &[u8]) -> io::Result<usize> {
        if buf == self.refused {
            return Err(io::Error::other("refused"));
        }
        self.pending.write(buf)
    }

    fn flush(&mut self) -> io::Result<()> {
        self.flushed.extend_from_slice(self.pending.as_slice())?;
        self.pending.clear();
        Ok(())
    }
}

/// A sender and a guard, or what was refused as a failure of the test.
pub(super) fn started<R: Wait, W: Drop>(
    both: Result<(NonBlocking<R>, WorkerGuard<W>), StartRefusal<W>>,
) -> Result<(NonBlocking<R>, WorkerGuard<W>), Fail> {
    match both {
        Ok(both) => Ok(both),
        Err(refused) => Err(Fail::from(refused.error)),
    }
}

/// The line of a thread that has this number.
fn line_of(thread: usize, number: usize) -> [u8; 4] {
    [letter(thread), letter(number / 10), letter(number), b'\n']
}

fn letter(number: usize) -> u8 {
    b'a' + (number % 10) as u8
}

/// A sender of a thread, and how many of its lines were refused.
#[derive(Drop)]
struct Sending<R> {
    sender: NonBlocking<R>,
    refused: usize,
}

/// Sends a hundred lines of this thread.
fn send_hundred<R: Wait>(sending: &mut Sending<R>, thread: usize) {
    for number in 0..100 {
        if sending.sender.write_all(&line_of(thread, number)).is_err() {
            sending.refused = sending.refused.saturating_add(1);
        }
    }
}

/// Ten threads send a hundred lines each. Answers how many of these were refused.
fn send_from_ten<R: Threads + Wait + Copy + Send + Sync + Drop + 'static>(
    rt: &R,
    alloc: Global,
    sender: &NonBlocking<R>,
) -> Result<usize, AllocError> {
    let mut all = Vec::new(alloc);
    for _ in 0..10 {
        all.push(Sending {
            sender: sender.clone()?,
            refused: 0,
        })?;
    }
    thread::for_each_mut(
        rt,
        all.as_mut_slice(),
        10,
        &|thread, sending| {
            send_hundred(sending, thread);
        },
    );
    let mut refused = 0usize;
    for sending in &all {
        refused = refused.saturating_add(sending.refused);
    }
    Ok(refused)
}

/// How many lines of each thread stand there, or None where one isn't whole or comes before an earlier one of its thread.
fn lines_by_thread(bytes: &[u8]) -> Option<[usize; 10]> {
    let mut found = [0; 10];
    for line in bytes.chunks(4) {
        let thread = usize::from(line.first()?.checked_sub(b'a')?);
        let number = found.get_mut(thread)?;
        if line != line_of(thread, *number).as_slice() {
            return None;
        }
        *number = number.saturating_add(1);
    }
    Some(found)
}

/// The writer that came back, where no worker was started for this reason.
fn refused_with<R: Threads + Wait + Drop, W: Drop>(
    both: Result<(NonBlocking<R>, WorkerGuard<W>), StartRefusal<W>>,
    rt: &R,
    error: StartError,
) -> Result<W, Fail> {
    match both {
        Err(refused) if refused.error == error => Ok(refused.writer),
        Err(refused) => Err(Fail::from(refused.error)),
        Ok((_sender, guard)) => {
            guard.finish(rt);
            Err("a worker was started".into())
        }
    }
}

#[test]
fn lines_of_ten_threads_arrive_whole(rt: HostRuntime) -> Result<(), Fail> {
    let alloc = rt.alloc();
    let (sender, guard) = started(non_blocking(rt, alloc, Vec::<u8>::new(alloc)))?;
    let refused = send_from_ten(&rt, alloc, &sender);
    let written = guard.finish(&rt);
    assert_eq!(rt; refused?, 0);
    assert_eq!(rt; sender.error_counter()?.dropped_lines(), 0);
    assert_eq!(rt; lines_by_thread(written.as_slice()), Some([100; 10]));
    Ok(())
}

#[test]
fn a_waiting_queue_of_one_place_loses_none(rt: HostRuntime) -> Result<(), Fail> {
    let alloc = rt.alloc();
    let builder = NonBlockingBuilder::default()
        .buffered_lines_limit(1)
        .lossy(false);
    let (sender, guard) = started(builder.finish(rt, alloc, Vec::<u8>::new(alloc)))?;
    let refused = send_from_ten(&rt, alloc, &sender);
    let written = guard.finish(&rt);
    assert_eq!(rt; refused?, 0);
    assert_eq!(rt; lines_by_thread(written.as_slice()), Some([100; 10]));
    Ok(())
}

#[test]
fn dropped_lines_are_counted(rt: HostRuntime) -> Result<(), Fail> {
    let alloc = rt.alloc();
    let door = Arc::new(alloc, Mutex::new(0))?;
    let writer = DoorWriter {
        rt,
        door: Arc::try_clone(&door)?,
        bytes: Vec::new(alloc),
    };
    let builder = NonBlockingBuilder::default().buffered_lines_limit(1);
    let (sender, guard) = started(builder.finish(rt, alloc, writer))?;
    let closed_door = door.lock(&rt);
    let refused = send_from_ten(&rt, alloc, &sender);
    let dropped = sender
        .error_counter()
        .map(|counter| counter.dropped_lines());
    drop(closed_door);
    let writer = guard.finish(&rt);
    assert_eq!(rt; refused?, 0);
    let arrived = writer.bytes.len() / 4;
    assert!(rt; arrived == 1 || arrived == 2);
    assert_eq!(rt; arrived.saturating_add(dropped?), 1_000);
    assert_eq!(rt;
        arrived.saturating_add(sender.error_counter()?.dropped_lines()),
        1_000
    );
    Ok(())
}

#[test]
fn a_refused_line_stops_no_other(rt: HostRuntime) -> Result<(), Fail> {
    let alloc = rt.alloc();
    let mut lines = Vec::new(alloc);
    for text in ["a\n", "b\n", "c\n", "b\n", "d\n"] {
        lines.push(Vec::from_slice(alloc, text.as_bytes())?)?;
    }
    let (mut sender, guard) = started(NonBlocking::new(
        rt,
        alloc,
        PickyWriter::new(alloc, b"b\n"),
    ))?;
    let settlement = sender.settle(lines.as_slice());
    let writer = guard.finish(&rt);
    assert_eq!(rt; (settlement.lost, settlement.missed), (0, 0));
    assert_eq!(rt; writer.flushed.as_slice(), b"a\nc\nd\n".as_slice());
    assert!(rt; writer.pending.is_empty());
    Ok(())
}

#[test]
fn a_closed_queue_drops_or_refuses(rt: HostRuntime) -> Result<(), Fail> {
    let alloc = rt.alloc();
    let (mut lossy, guard) = started(non_blocking(rt, alloc, Vec::<u8>::new(alloc)))?;
    let written = guard.finish(&rt);
    assert!(rt; written.is_empty());
    assert_eq!(rt; lossy.write(b"Hello")?, 5);
    lossy.flush()?;
    assert_eq!(rt; lossy.error_counter()?.dropped_lines(), 1);
    let builder = NonBlockingBuilder::default().lossy(false);
    let (mut waiting, guard) = started(builder.finish(rt, alloc, Vec::<u8>::new(alloc)))?;
    let written = guard.finish(&rt);
    assert!(rt; written.is_empty());
    match waiting.write_all(b"Hello") {
        Ok(()) => return Err("a closed queue took a line".into()),
        Err(error) => assert_eq!(rt; error.kind(), io::ErrorKind::Other),
    }
    let hello = [
        Vec::from_slice(alloc, b"Hello")?,
        Vec::from_slice(alloc, b"Hello")?,
    ];
    let settlement = waiting.settle(&hello);
    assert_eq!(rt; (settlement.lost, settlement.missed), (2, 0));
    assert_eq!(rt; waiting.error_counter()?.dropped_lines(), 0);
    Ok(())
}

#[test]
fn a_guard_finishes_beside_senders(rt: HostRuntime) -> Result<(), Fail> {
    for lossy in [true, false] {
        let alloc = rt.alloc();
        let builder = NonBlockingBuilder::default()
            .buffered_lines_limit(2)
            .lossy(lossy);
        let (sender, guard) = started(builder.finish(rt, alloc, Vec::<u8>::new(alloc)))?;
        let counter = sender.error_counter();
        let sending = thread::spawn(&rt, move || send_from_ten(&rt, alloc, &sender));
        let written = guard.finish(&rt);
        let Ok(sending) = sending else {
            return Err("no thread".into());
        };
        let refused = sending.join(&rt)?;
        let dropped = counter?.dropped_lines();
        assert!(rt; written.len() % 4 == 0);
        let told = refused.saturating_add(dropped);
        assert!(rt; told.saturating_add(written.len() / 4) <= 1_000);
        assert!(rt; if lossy { refused == 0 } else { dropped == 0 });
    }
    Ok(())
}

/// A queue with one place, in which the mark stands.
fn marked_channel<R: Wait>(rt: &R, alloc: Global, lossy: bool) -> Result<Channel, Fail> {
    let channel = Channel::new(QueueState::new(alloc, 1, lossy)?);
    channel.mark(rt);
    Ok(channel)
}

#[test]
fn a_sender_stops_waiting_as_the_queue_closes(rt: HostRuntime) -> Result<(), Fail> {
    let alloc = rt.alloc();
    let channel = marked_channel(&rt, alloc, false)?;
    let mut lines = Vec::with_capacity(alloc, 1)?;
    let (fate, ends) = thread::join(
        &rt,
        || channel.send(&rt, b"Hello"),
        || channel.take_first(&rt, &mut lines),
    );
    assert_eq!(rt; fate, Fate::Lost);
    assert!(rt; ends);
    assert_eq!(rt; channel.dropped_lines(), 0);
    Ok(())
}

#[test]
fn the_count_of_dropped_lines_takes_no_lock(rt: HostRuntime) -> Result<(), Fail> {
    let alloc = rt.alloc();
    let (sender, guard) = started(non_blocking(rt, alloc, Vec::<u8>::new(alloc)))?;
    let written = guard.finish(&rt);
    let mut late = sender.clone()?;
    late.write_all(b"Hello")?;
    let counter = late.error_counter()?;
    let held = sender.channel.queue.lock(&rt);
    assert_eq!(rt; counter.dropped_lines(), 1);
    drop(held);
    assert!(rt; written.is_empty());
    Ok(())
}

#[test]
fn a_worker_that_is_not_started_hands_the_writer_back(rt: HostRuntime) -> Result<(), Fail> {
    let alloc = rt.alloc();
    let writer = Vec::from_slice(alloc, b"kept")?;
    let none = NonBlockingBuilder::default().buffered_lines_limit(0);
    let writer = refused_with(none.finish(rt, alloc, writer), &rt, StartError::ZeroLimit)?;
    let named = NonBlockingBuilder::default().thread_name("a\0b");
    let writer = refused_with(named.finish(rt, alloc, writer), &rt, StartError::NoThread)?;
    assert_eq!(rt; writer.as_slice(), b"kept".as_slice());
    assert_eq!(rt; DEFAULT_BUFFERED_LINES_LIMIT, 128_000);
    Ok(())
}
