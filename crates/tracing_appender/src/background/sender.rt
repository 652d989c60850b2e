//! The senders' end of a queue with a worker.

ghost use Rattle.std.specs.Prelude.{◌≡◌, ◌+◌, ◌≤◌, ◌⊎◌, ◌≢◌, IfErr, IfOk, IsOk, None, OnOk, length};
ghost use Rattle.std.specs.Io.{WritesAtMost};
ghost use Rattle.std.specs.Io.KnownBytes.{Appends, Keeps, WriteAppends};
ghost use Rattle.std.specs.IoError.{error_kind};
ghost use Rattle.std.specs.declared.io.ErrorKind.{ErrorKind};
ghost use Rattle.tracing_appender.specs.background.Sending.{TellsFate};

use crate::background::builder::{NonBlockingBuilder, StartError, StartRefusal};
use crate::background::channel::Channel;
use crate::background::counter::ErrorCounter;
use crate::background::guard::WorkerGuard;
use std::alloc::{AllocError, Global};
use std::io;
use std::io::{ErrorKind, Write};
use std::sync::{Arc, Wait};
use std::thread::Threads;
use tracing_appender_queue::{Fate, Settlement};

/// Sends lines to a worker, which writes them in a thread of its own. Each write is a line.
///
/// Any number of these send to one worker. A lossy queue that has no room drops a line and counts it, and the write answers as if it
/// had been taken in; a waiting one lets the sender wait for room.
#[derive(Drop)]
pub struct NonBlocking<R> {
    pub(crate) rt: R,
    pub(crate) channel: Arc<Channel, Global>,
}

/// What a write of so many bytes answers.
fn told(fate: Fate, len: usize) -> io::Result<usize>
    requires { fate ≢ Fate.Held }
    ensures { TellsFate len fate result }
{
    match fate {
        Fate::Queued | Fate::Dropped | Fate::Held => Ok(len),
        Fate::Lost => Err(io::Error::other("the queue is closed")),
        Fate::Missed => Err(ErrorKind::OutOfMemory.into()),
    }
}

impl<R: Threads + Wait + Copy + Send + Drop + 'static> NonBlocking<R> {
    /// The same as [`NonBlockingBuilder::finish`] of a builder that nothing was told.
    ///
    /// # Errors
    ///
    /// As those of `finish`; but for a limit of 0.
    pub fn new<W: Write + Send + Drop + 'static>(
        rt: R,
        alloc: Global,
        writer: W,
    ) -> Result<(NonBlocking<R>, WorkerGuard<W>), StartRefusal<W>>
        ensures rt { IfOk result (λ started. started.0.rt ≡ rt) }
        // Where no worker was started the writer that was handed in comes back, and the reason isn't a limit of 0.
        ensures writer { IfErr result (λ refused. refused.writer ≡ writer) }
        ensures some { IfErr result (λ refused. refused.error ≢ StartError.ZeroLimit) }
    {
        NonBlockingBuilder::default().finish(rt, alloc, writer)
    }
}

impl<R> NonBlocking<R> {
    /// Another sender to the same worker.
    ///
    /// # Errors
    ///
    /// There are too many.
    pub fn clone(&self) -> Result<NonBlocking<R>, AllocError>
    where
        R: Copy,
        // It waits by the same runtime.
        ensures { IfOk result (λ sender. sender.rt ≡ self.now.rt) }
    {
        Ok(NonBlocking {
            rt: self.rt,
            channel: Arc::try_clone(&self.channel)?,
        })
    }

    /// What tells how many lines were dropped.
    ///
    /// # Errors
    ///
    /// There are too many.
    pub fn error_counter(&self) -> Result<ErrorCounter, AllocError> {
        Ok(ErrorCounter {
            channel: Arc::try_clone(&self.channel)?,
        })
    }
}

impl<R: Wait> NonBlocking<R> {
    /// Sends lines, in order. Those of other senders don't come between, but where a waiting sender waits. Answers how many
    /// a closed waiting queue lost, and how many found no memory.
    pub fn settle(&mut self, lines: &[Vec<u8>]) -> Settlement
        // No more lines are told as lost or missed than were sent.
        ensures few { result.lost + result.missed ≤ length lines.now }
        ensures same { self.new ≡ self.old }
    {
        self.channel.settle(&self.rt, lines)
    }
}

impl<R: Wait> Write for NonBlocking<R> {
    /// Sends a line. One that a lossy queue drops is told as written.
    ///
    /// # Errors
    ///
    /// Of the kind `Other` where a waiting queue is closed, of the kind `OutOfMemory` where there is no memory for the line.
    fn write(&mut self, buf: &[u8]) -> io::Result<usize>
        ensures bound { WritesAtMost result buf.now }
        ensures bytes { WriteAppends None None result buf.now }
        // It answers the whole length, or an error of the kind `Other` or `OutOfMemory`.
        ensures whole { IfOk result (λ n. n ≡ length buf.now) }
        ensures kind { IfErr result (λ error. (error_kind error ≡ ErrorKind.Other) ⊎
            (error_kind error ≡ ErrorKind.OutOfMemory)) }
        ensures same { self.new ≡ self.old }
    {
        let fate = self.channel.send(&self.rt, buf);
        told(fate, buf.len())
    }

    /// Does nothing: the worker flushes.
    fn flush(&mut self) -> io::Result<()>
        ensures bytes { Keeps None None }
        // It succeeds, and changes nothing.
        ensures ok { IsOk result }
        ensures same { self.new ≡ self.old }
    {
        Ok(())
    }

    /// The same as one `write`.
    fn write_all(&mut self, buf: &[u8]) -> io::Result<()>
        ensures bytes { OnOk result (Appends None None buf.now) }
        // An error is of the kind `Other` or `OutOfMemory`.
        ensures kind { IfErr result (λ error. (error_kind error ≡ ErrorKind.Other) ⊎
            (error_kind error ≡ ErrorKind.OutOfMemory)) }
        ensures same { self.new ≡ self.old }
    {
        self.write(buf)?;
        Ok(())
    }
}
