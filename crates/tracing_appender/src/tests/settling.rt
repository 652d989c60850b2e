//! Lines that several threads send in groups. No test says what the threads do first: each ends by itself, whatever they do.

use super::threads::started;
use crate::{NonBlocking, NonBlockingBuilder};
use std::alloc::{AllocError, Global};
use std::sync::Wait;
use std::sync::atomic::{AtomicUsize, Ordering};
use std::test::Fail;
use std::thread;
use std::thread::Threads;

const SENDERS: usize = 3;

/// How many groups each sender has.
const GROUPS: usize = 100;

/// How many lines each group has.
const LINES: usize = 30;

const ALL: usize = 9_000;

fn letter(number: usize) -> u8 {
    b'a' + (number % 10) as u8
}

/// A line of a sender's group.
fn line_of(sender: usize, group: usize, number: usize) -> [u8; 6] {
    [
        letter(sender),
        letter(group / 10),
        letter(group),
        letter(number / 10),
        letter(number),
        b'\n',
    ]
}

/// A sender of a thread, the groups that it is to send, and how many lines its calls told as lost or missed.
#[derive(Drop)]
struct Settling<R> {
    sender: NonBlocking<R>,
    groups: Vec<Vec<Vec<u8>>>,
    told: usize,
}

fn groups_of(alloc: Global, sender: usize) -> Result<Vec<Vec<Vec<u8>>>, AllocError> {
    let mut groups = Vec::new(alloc);
    for group in 0..GROUPS {
        let mut lines = Vec::new(alloc);
        for number in 0..LINES {
            lines.push(Vec::from_slice(alloc, &line_of(sender, group, number))?)?;
        }
        groups.push(lines)?;
    }
    Ok(groups)
}

/// Waits until all senders came here, as long as it takes a bounded number of looks.
fn meet(came: &AtomicUsize) {
    came.fetch_add(1, Ordering::SeqCst);
    for _ in 0..100_000 {
        if came.load(Ordering::SeqCst) >= SENDERS {
            return;
        }
        thread::yield_now();
    }
}

/// Sends the groups, each by one call.
fn settle_groups<R: Wait>(settling: &mut Settling<R>) {
    let Settling {
        sender,
        groups,
        told,
    } = settling;
    for group in groups.as_slice() {
        let settlement = sender.settle(group.as_slice());
        *told = told
            .saturating_add(settlement.lost)
            .saturating_add(settlement.missed);
    }
}

/// Three threads send their groups. Answers how many lines they were told as lost or missed.
fn settle_from_three<R: Threads + Wait + Copy + Send + Sync + Drop + 'static>(
    rt: &R,
    alloc: Global,
    sender: &NonBlocking<R>,
) -> Result<usize, AllocError> {
    let mut all = Vec::new(alloc);
    for number in 0..SENDERS {
        all.push(Settling {
            sender: sender.clone()?,
            groups: groups_of(alloc, number)?,
            told: 0,
        })?;
    }
    let came = AtomicUsize::new(0);
    thread::for_each_mut(
        rt,
        all.as_mut_slice(),
        SENDERS,
        &|_, settling| {
            meet(&came);
            settle_groups(settling);
        },
    );
    let mut told = 0usize;
    for settling in &all {
        told = told.saturating_add(settling.told);
    }
    Ok(told)
}

/// What was written, how many lines the senders were told as lost or missed, and how many were dropped.
fn settled<R: Threads + Wait + Copy + Send + Sync + Drop + 'static>(
    rt: &R,
    alloc: Global,
    builder: NonBlockingBuilder<'_>,
) -> Result<(Vec<u8>, usize, usize), Fail> {
    let (sender, guard) = started(builder.finish(*rt, alloc, Vec::<u8>::new(alloc)))?;
    let told = settle_from_three(rt, alloc, &sender);
    let written = guard.finish(rt);
    let dropped = sender.error_counter()?.dropped_lines();
    Ok((written, told?, dropped))
}

/// How many groups of each sender stand there, or None where one isn't whole, or comes before an earlier one of its sender, or another
/// sender's lines stand in it.
fn groups_by_sender(bytes: &[u8]) -> Option<[usize; SENDERS]> {
    let mut found = [0; SENDERS];
    for group in bytes.chunks(LINES.saturating_mul(6)) {
        let sender = usize::from(group.first()?.checked_sub(b'a')?);
        let next = found.get_mut(sender)?;
        let mut number = 0usize;
        for line in group.chunks(6) {
            if line != line_of(sender, *next, number).as_slice() {
                return None;
            }
            number = number.saturating_add(1);
        }
        if number != LINES {
            return None;
        }
        *next = next.saturating_add(1);
    }
    Some(found)
}

/// How many lines of each sender stand there, or None where one isn't whole or comes before an earlier one of its sender.
fn lines_by_sender(bytes: &[u8]) -> Option<[usize; SENDERS]> {
    let mut found = [0usize; SENDERS];
    for line in bytes.chunks(6) {
        let sender = usize::from(line.first()?.checked_sub(b'a')?);
        let next = found.get_mut(sender)?;
        if line != line_of(sender, *next / LINES, *next % LINES).as_slice() {
            return None;
        }
        *next = next.saturating_add(1);
    }
    Some(found)
}

#[test]
fn lines_of_one_call_stand_together(rt: HostRuntime) -> Result<(), Fail> {
    let builder = NonBlockingBuilder::default().buffered_lines_limit(ALL);
    let (written, told, dropped) = settled(&rt, rt.alloc(), builder)?;
    assert_eq!(rt; (told, dropped), (0, 0));
    assert_eq!(rt; written.len() / 6, ALL);
    assert_eq!(rt;
        groups_by_sender(written.as_slice()),
        Some([GROUPS; SENDERS])
    );
    Ok(())
}

#[test]
fn calls_wait_for_room_again_and_again(rt: HostRuntime) -> Result<(), Fail> {
    let builder = NonBlockingBuilder::default()
        .buffered_lines_limit(1)
        .lossy(false);
    let (written, told, dropped) = settled(&rt, rt.alloc(), builder)?;
    assert_eq!(rt; (told, dropped), (0, 0));
    assert_eq!(rt;
        lines_by_sender(written.as_slice()),
        Some([GROUPS * LINES; SENDERS])
    );
    Ok(())
}

#[test]
fn each_line_of_a_call_is_written_or_counted(rt: HostRuntime) -> Result<(), Fail> {
    let builder = NonBlockingBuilder::default().buffered_lines_limit(7);
    let (written, told, dropped) = settled(&rt, rt.alloc(), builder)?;
    assert_eq!(rt; (told, written.len() % 6), (0, 0));
    assert_eq!(rt; dropped.saturating_add(written.len() / 6), ALL);
    Ok(())
}
