//! Two lanes that wait for one another.

use crate::Gate;
use std::sync::atomic::{AtomicBool, Ordering};
use std::thread;
use std::time::{Clock, Duration};

/// Before its first call each lane waits for the other to come there, and lane 0 for lane 1's first answer too. Lane 1's second call waits
/// for lane 0's first answer. So both run at the same time, or a wait is missed: each is of a bounded number of turns.
#[derive(Drop)]
pub struct Meeting<'a, R> {
    rt: &'a R,
    here: [AtomicBool; 2],
    answered: [AtomicBool; 2],
    missed: AtomicBool,
}

impl<'a, R: Clock> Meeting<'a, R> {
    /// Nobody is here yet.
    pub fn new(rt: &'a R) -> Meeting<'a, R> {
        Meeting {
            rt,
            here: [AtomicBool::new(false), AtomicBool::new(false)],
            answered: [AtomicBool::new(false), AtomicBool::new(false)],
            missed: AtomicBool::new(false),
        }
    }

    /// Whether somebody waited in vain.
    pub fn is_missed(&self) -> bool {
        self.missed.load(Ordering::SeqCst)
    }

    fn look_for(&self, flag: &AtomicBool) {
        for _ in 0..1000 {
            if flag.load(Ordering::SeqCst) {
                return;
            }
            thread::sleep(self.rt, Duration::from_millis(1));
        }
        self.missed.store(true, Ordering::SeqCst);
    }
}

impl<R: Clock> Gate for Meeting<'_, R> {
    fn before(&self, lane: usize, n: usize) {
        match (lane, n) {
            (0, 0) => {
                self.here[0].store(true, Ordering::SeqCst);
                self.look_for(&self.here[1]);
                self.look_for(&self.answered[1]);
            }
            (1, 0) => {
                self.here[1].store(true, Ordering::SeqCst);
                self.look_for(&self.here[0]);
            }
            (1, 1) => self.look_for(&self.answered[0]),
            _ => {}
        }
    }

    fn after(&self, lane: usize, n: usize) {
        match (lane, n) {
            (0, 0) => self.answered[0].store(true, Ordering::SeqCst),
            (1, 0) => self.answered[1].store(true, Ordering::SeqCst),
            _ => {}
        }
    }
}
