//! Lanes that wait for all others at each call.

use crate::Gate;
use std::sync::atomic::{AtomicBool, AtomicUsize, Ordering};
use std::thread;
use std::time::{Clock, Duration};

/// No lane makes its call of a number before all lanes came to theirs of that number. So all run at the same time, or a wait is missed: each
/// is of a bounded number of looks, and once one is missed nobody waits.
#[derive(Drop)]
pub struct Crowd<'a, R> {
    rt: &'a R,
    lanes: usize,
    came: AtomicUsize,
    missed: AtomicBool,
}

impl<'a, R: Clock> Crowd<'a, R> {
    /// Nobody came yet, of so many lanes.
    pub fn new(rt: &'a R, lanes: usize) -> Crowd<'a, R> {
        Crowd {
            rt,
            lanes,
            came: AtomicUsize::new(0),
            missed: AtomicBool::new(false),
        }
    }

    /// Whether somebody waited in vain.
    pub fn is_missed(&self) -> bool {
        self.missed.load(Ordering::SeqCst)
    }

    fn look_for(&self, count: usize) {
        for _ in 0..10_000 {
            if self.came.load(Ordering::SeqCst) >= count || self.is_missed() {
                return;
            }
            thread::sleep(self.rt, Duration::from_millis(1));
        }
        self.missed.store(true, Ordering::SeqCst);
    }
}

impl<R: Clock> Gate for Crowd<'_, R> {
    fn before(&self, _lane: usize, n: usize) {
        self.came.fetch_add(1, Ordering::SeqCst);
        self.look_for(n.saturating_add(1).saturating_mul(self.lanes));
    }

    fn after(&self, _lane: usize, _n: usize) {}
}

/// Counts how often it was asked before a call and behind it, and whether each time at its turn.
#[derive(Drop)]
pub struct Turns {
    asked: AtomicUsize,
    lost: AtomicBool,
}

impl Turns {
    /// It wasn't asked yet.
    pub fn new() -> Turns {
        Turns {
            asked: AtomicUsize::new(0),
            lost: AtomicBool::new(false),
        }
    }

    /// How often it was asked, if each time at its turn.
    pub fn asked(&self) -> Option<usize> {
        if self.lost.load(Ordering::SeqCst) {
            return None;
        }
        Some(self.asked.load(Ordering::SeqCst))
    }

    fn ask(&self, turn: usize) {
        if self.asked.fetch_add(1, Ordering::SeqCst) != turn {
            self.lost.store(true, Ordering::SeqCst);
        }
    }
}

impl Gate for Turns {
    fn before(&self, _lane: usize, n: usize) {
        self.ask(n.saturating_mul(2));
    }

    fn after(&self, _lane: usize, n: usize) {
        self.ask(n.saturating_mul(2).saturating_add(1));
    }
}
