//! The threads that a layer was told of.
ghost use Rattle.std.specs.Prelude.{◌≡◌, ◌++◌, ◌∷◌, [], if◌then◌else◌};
ghost use Rattle.std.specs.Result.{is_ok};
ghost use Rattle.event_formatter.specs.formats.Contexts.{plain_thread};
ghost use Rattle.event_formatter.specs.fmt_layer.Threads.{longest_with, plain_lane, plain_lanes, thread_at};

use crate::formats::CurrentThread;
use std::alloc::{AllocError, Global};

/// A thread: its name, where it has one, and its number.
#[derive(Drop)]
pub(crate) struct LaneThread {
    pub(crate) name: Option<String>,
    pub(crate) id: u64,
}

/// The threads of the lanes, by the lane's number, and how many bytes the longest name has that was met so far.
#[derive(Drop)]
pub(crate) struct Threads {
    pub(crate) lanes: Vec<LaneThread>,
    pub(crate) longest: usize,
}

impl LaneThread {
    // The thread, beside the longest name.
    fn as_current(&self, longest: usize) -> CurrentThread<'_>
        ensures { plain_thread result ≡ record { name = (plain_lane self.now).name; id = self.now.id; longest = longest } }
    {
        let name = match &self.name {
            None => None,
            Some(name) => Some(name.as_str()),
        };
        CurrentThread {
            name,
            id: self.id,
            longest,
        }
    }
}

impl Threads {
    /// No thread is known yet.
    pub(crate) fn new(alloc: Global) -> Threads
        ensures { (plain_lanes result ≡ []) × (result.longest ≡ 0) }
    {
        Threads {
            lanes: Vec::new(alloc),
            longest: 0,
        }
    }

    /// The thread of the next lane.
    ///
    /// # Errors
    ///
    /// Out of memory, which changes nothing.
    pub(crate) fn add(&mut self, name: Option<String>, id: u64) -> Result<(), AllocError>
        ensures lanes { plain_lanes self.new ≡ (if is_ok result then plain_lanes self.old
            ++ (plain_lane (record { name = name; id = id }) ∷ []) else plain_lanes self.old) }
        ensures longest { self.new.longest ≡ self.old.longest }
    {
        self.lanes.push(LaneThread { name, id })?;
        Ok(())
    }

    /// The thread of the lane. One that wasn't told has no name, and the lane's number in place of its own.
    pub(crate) fn at(&self, lane: u64) -> CurrentThread<'_>
        ensures { plain_thread result ≡ thread_at (plain_lanes self.now) self.now.longest lane }
    {
        match self.lanes.get(lane as usize) {
            None => CurrentThread {
                name: None,
                id: lane,
                longest: self.longest,
            },
            Some(thread) => thread.as_current(self.longest),
        }
    }

    /// Notes the name of the lane's thread among those that were met.
    pub(crate) fn meet(&mut self, lane: u64)
        ensures lanes { plain_lanes self.new ≡ plain_lanes self.old }
        ensures longest { self.new.longest ≡ longest_with (plain_lanes self.old) self.old.longest lane }
    {
        if let Some(name) = self.at(lane).name {
            self.longest = self.longest.max(name.len());
        }
    }
}
