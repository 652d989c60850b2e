//! The end of a worker.

use crate::background::channel::Channel;
use std::alloc::Global;
use std::sync::{Arc, Wait};
use std::thread::{JoinHandle, Threads};

/// The worker's thread. It isn't let go: `finish` spends it.
pub struct WorkerGuard<W> {
    pub(crate) channel: Arc<Channel, Global>,
    pub(crate) thread: JoinHandle<W>,
}

impl<W> WorkerGuard<W> {
    /// Puts the mark behind the lines that are queued now, waits until the worker wrote these and ended, and hands the
    /// writer back. Where the queue is full the mark waits for room. What is sent later is lost: a lossy queue counts it as
    /// dropped, a waiting one answers an error.
    pub fn finish<R: Threads + Wait>(self, rt: &R) -> W {
        let WorkerGuard { channel, thread } = self;
        channel.mark(rt);
        drop(channel);
        thread.join(rt)
    }
}
