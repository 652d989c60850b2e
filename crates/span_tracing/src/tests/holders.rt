// A slow model of who holds stacks: each time it looks through all handles, defaults and guards.

use crate::{Parent, Refusal, Reply, SpanName};
use std::alloc::{AllocError, Global};

/// Where a default leads.
#[derive(Clone, Copy, Debug, PartialEq, Eq)]
enum Leads {
    Unset,
    Nowhere,
    To(usize),
}

#[derive(Clone, Copy, Debug)]
struct ModelGuard {
    lane: usize,
    restores: Leads,
}

#[derive(Drop)]
pub(crate) struct Holders {
    /// How many stacks were given.
    pub(crate) stacks: usize,
    handles: Vec<Option<usize>>,
    guards: Vec<Option<ModelGuard>>,
    lanes: Vec<Leads>,
    global: Leads,
}

impl Holders {
    /// No stack, and so many lanes.
    pub(crate) fn new(alloc: Global, lanes: usize) -> Result<Holders, AllocError> {
        let mut holders = Holders {
            stacks: 0,
            handles: Vec::new(alloc),
            guards: Vec::new(alloc),
            lanes: Vec::new(alloc),
            global: Leads::Unset,
        };
        for _ in 0..lanes {
            holders.lanes.push(Leads::Unset)?;
        }
        Ok(holders)
    }

    pub(crate) fn handle_count(&self) -> usize {
        self.handles.len()
    }

    pub(crate) fn guard_count(&self) -> usize {
        self.guards.len()
    }

    /// Adds a stack, and answers its handle.
    pub(crate) fn add(&mut self) -> Result<usize, AllocError> {
        self.handles.push(Some(self.stacks))?;
        self.stacks += 1;
        Ok(self.handles.len() - 1)
    }

    pub(crate) fn is_held(&self, stack: usize) -> bool {
        let own = Leads::To(stack);
        self.global == own
            || self.handles.iter().any(|handle| *handle == Some(stack))
            || self.lanes.iter().any(|lane| *lane == own)
            || self.guards.iter().any(|guard| match guard {
                Some(guard) => guard.restores == own,
                None => false,
            })
    }

    /// The stack that a lane reaches.
    pub(crate) fn reached(&self, lane: usize) -> Option<usize> {
        let default = match self.lanes[lane] {
            Leads::Unset => self.global,
            own => own,
        };
        match default {
            Leads::To(stack) => Some(stack),
            Leads::Unset | Leads::Nowhere => None,
        }
    }

    /// Why no call goes to the stack with this number.
    pub(crate) fn stack_refusal(&self, stack: usize) -> Option<Refusal> {
        if self.stacks <= stack {
            return Some(Refusal::UnknownStack);
        }
        if self.is_held(stack) {
            None
        } else {
            Some(Refusal::ReleasedStack)
        }
    }

    /// Why a request doesn't stand under this parent, but that it isn't open.
    pub(crate) fn parent_refusal(&self, lane: usize, parent: Parent) -> Option<Refusal> {
        let Parent::Explicit(name) = parent else {
            return None;
        };
        let refusal = self.stack_refusal(name.stack);
        if refusal.is_some() {
            return refusal;
        }
        if self.reached(lane) == Some(name.stack) {
            None
        } else {
            Some(Refusal::ForeignParent)
        }
    }

    /// Why a span doesn't follow another one, but that one isn't open.
    pub(crate) fn pair_refusal(&self, span: SpanName, follows: SpanName) -> Option<Refusal> {
        let unknown = self.stacks <= span.stack || self.stacks <= follows.stack;
        if unknown {
            return Some(Refusal::UnknownStack);
        }
        if !self.is_held(span.stack) || !self.is_held(follows.stack) {
            return Some(Refusal::ReleasedStack);
        }
        if span.stack == follows.stack {
            None
        } else {
            Some(Refusal::ForeignParent)
        }
    }

    /// The stack behind a handle.
    fn behind(&self, handle: usize) -> Result<usize, Refusal> {
        match self.handles.get(handle) {
            None => Err(Refusal::UnknownStack),
            Some(None) => Err(Refusal::ReleasedStack),
            Some(Some(stack)) => Ok(*stack),
        }
    }

    pub(crate) fn set_global_default(&mut self, handle: usize) -> Reply {
        match self.behind(handle) {
            Err(refusal) => Reply::Refused(refusal),
            Ok(_) if self.global != Leads::Unset => Reply::Refused(Refusal::GlobalSet),
            Ok(stack) => {
                self.global = Leads::To(stack);
                Reply::Done
            }
        }
    }

    pub(crate) fn set_default(
        &mut self,
        lane: usize,
        handle: Option<usize>,
    ) -> Result<Reply, AllocError> {
        if self.lanes.len() <= lane {
            return Ok(Reply::Refused(Refusal::UnknownLane));
        }
        let own = match handle {
            None => Leads::Nowhere,
            Some(handle) => match self.behind(handle) {
                Err(refusal) => return Ok(Reply::Refused(refusal)),
                Ok(stack) => Leads::To(stack),
            },
        };
        self.guards.push(Some(ModelGuard {
            lane,
            restores: self.lanes[lane],
        }))?;
        self.lanes[lane] = own;
        Ok(Reply::Guard(self.guards.len() - 1))
    }

    pub(crate) fn reset_default(&mut self, lane: usize, guard: usize) -> Reply {
        if self.lanes.len() <= lane {
            return Reply::Refused(Refusal::UnknownLane);
        }
        match self.guards.get(guard).copied() {
            Some(Some(kept)) if kept.lane == lane => {
                self.lanes[lane] = kept.restores;
                self.guards[guard] = None;
                Reply::Done
            }
            _ => Reply::Refused(Refusal::WrongLane),
        }
    }

    pub(crate) fn clone_handle(&mut self, handle: usize) -> Result<Reply, AllocError> {
        match self.behind(handle) {
            Err(refusal) => Ok(Reply::Refused(refusal)),
            Ok(stack) => {
                self.handles.push(Some(stack))?;
                Ok(Reply::Handle(self.handles.len() - 1))
            }
        }
    }

    pub(crate) fn release(&mut self, handle: usize) -> Reply {
        match self.behind(handle) {
            Err(refusal) => Reply::Refused(refusal),
            Ok(_) => {
                self.handles[handle] = None;
                Reply::Done
            }
        }
    }
}
