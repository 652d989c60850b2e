// A slow model of a sink, direct or behind a queue: lines wait in lists.

use super::slow_files::{Plan, SinkPlan, SlowFiles};
use crate::{Refusal, Reply};
use std::alloc::Global;
use std::test::Fail;

#[derive(Drop)]
pub(crate) struct SlowSink {
    /// The key of its output.
    pub(crate) key: usize,
    pub(crate) queue: Option<(usize, bool)>,
    pub(crate) files: SlowFiles,
    pub(crate) queued: Vec<String>,
    pub(crate) held: Vec<String>,
    /// How many lines stand before the mark, where it is put and not taken.
    before_mark: Option<usize>,
    is_sent: bool,
    pub(crate) is_closed: bool,
    pub(crate) dropped: usize,
}

impl SlowSink {
    pub(crate) fn new(
        alloc: Global,
        key: usize,
        sink: SinkPlan,
        plan: Plan,
    ) -> Result<SlowSink, Fail> {
        Ok(SlowSink {
            key,
            queue: sink.queue,
            files: SlowFiles::new(alloc, sink, plan)?,
            queued: Vec::new(alloc),
            held: Vec::new(alloc),
            before_mark: None,
            is_sent: false,
            is_closed: false,
            dropped: 0,
        })
    }

    fn has_room(&self, limit: usize) -> bool {
        self.queued.len() + usize::from(self.before_mark.is_some()) < limit
    }

    /// Takes a line of a request: a direct sink writes it, and a queue takes it in, holds, drops or loses it.
    pub(crate) fn take(&mut self, line: &String, second: i64) -> Result<(), Fail> {
        let Some((limit, lossy)) = self.queue else {
            self.files.hand(line.as_str(), second)?;
            return Ok(());
        };
        if !self.is_closed && self.has_room(limit) {
            self.queued.push(line.clone()?)?;
        } else if lossy {
            self.dropped += 1;
        } else if self.is_closed {
            self.files.lose();
        } else {
            self.held.push(line.clone()?)?;
        }
        Ok(())
    }

    /// Writes the first lines, or all before the mark, and flushes behind a last one that was whole.
    pub(crate) fn work(&mut self, lines: usize, second: i64) -> Result<Reply, Fail> {
        let most = self.before_mark.unwrap_or(self.queued.len()).min(lines);
        let mut is_whole = false;
        for _ in 0..most {
            let line = self.queued.remove(0);
            is_whole = self.files.hand(line.as_str(), second)?;
        }
        if is_whole {
            self.files.flush();
        }
        self.before_mark = self.before_mark.map(|before| before - most);
        if self.before_mark == Some(0) {
            self.before_mark = None;
            self.is_closed = true;
            self.queued.clear();
        }
        Ok(Reply::Worked(most))
    }

    /// Moves the first held line into the queue.
    pub(crate) fn admit(&mut self) -> Result<Reply, Fail> {
        if self.held.is_empty() {
            return Ok(Reply::Refused(Refusal::NothingHeld));
        }
        if self.is_closed {
            let _given_up = self.held.remove(0);
            return Ok(Reply::Refused(Refusal::Closed));
        }
        if !self.has_room(self.queue.map_or(0, |(limit, _)| limit)) {
            return Ok(Reply::Refused(Refusal::NoRoom));
        }
        let line = self.held.remove(0);
        self.queued.push(line)?;
        Ok(Reply::Done)
    }

    /// Puts the mark.
    pub(crate) fn shutdown(&mut self) -> Reply {
        let limit = self.queue.map_or(0, |(limit, _)| limit);
        if self.is_sent {
            return Reply::Refused(Refusal::MarkSent);
        }
        if self.queued.len() >= limit {
            return Reply::Refused(Refusal::NoRoom);
        }
        self.is_sent = true;
        self.before_mark = Some(self.queued.len());
        Reply::Done
    }
}
