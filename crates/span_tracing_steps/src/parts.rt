//! All that a trace keeps.
ghost use Rattle.std.specs.Prelude.{◌≡◌};
ghost use Rattle.std.specs.Option.{option_copied};
ghost use Rattle.span_tracing_steps.specs.States.{held_in, stack_in, value_in};

use crate::callsite::TraceCallsite;
use std::alloc::Global;
use tracing_core::{DefaultGuard, Dispatch, Hub};
use tracing_core_fields::{Subscriber, weak_of};

/// A lane's name and thread.
#[derive(Debug, Drop)]
pub struct Thread {
    /// The name, where it has one.
    pub name: Option<String>,
    /// The number of the thread.
    pub thread_id: u64,
}

/// The lanes' threads; by number how many outputs and how many sinks each stack has; the hub with callsites, stacks and defaults; handles
/// and guards by number, where they aren't spent; and stacks that were released and wait to be taken, each in the place of its number.
pub struct TraceParts<T> {
    pub(crate) alloc: Global,
    pub(crate) threads: Vec<Thread>,
    pub(crate) outputs: Vec<usize>,
    pub(crate) sinks: Vec<usize>,
    pub(crate) hub: Hub<T, TraceCallsite>,
    pub(crate) handles: Vec<Option<Dispatch>>,
    pub(crate) guards: Vec<Option<DefaultGuard>>,
    pub(crate) retired: Vec<Option<T>>,
}

/// It is written down, so that whoever lets a trace's parts go needs no proof of his own for each of its parts.
impl<T: Drop> Drop for TraceParts<T> {
    fn drop(self) {
        let TraceParts {
            alloc: _alloc,
            threads: _threads,
            outputs: _outputs,
            sinks: _sinks,
            hub: _hub,
            handles: _handles,
            guards: _guards,
            retired: _retired,
        } = self;
    }
}

impl<T: Subscriber> TraceParts<T> {
    ghost use Rattle.span_tracing_steps.specs.TraceInvariant.{IsSound};

    /// The allocator that was given at first.
    pub fn alloc(&self) -> Global
        ensures { result ≡ self.now.alloc }
    {
        self.alloc
    }

    /// How many stacks were given.
    pub fn given(&self) -> usize
        requires { IsSound self.now }
        ensures { result ≡ (value_in self.now).hub.next }
    {
        self.retired.len()
    }

    /// The stack with a number, where somebody holds it.
    #[inline(always)]
    pub fn held(&self, number: usize) -> Option<&T>
        ensures { option_copied result ≡ held_in (value_in self.now) number }
    {
        self.hub.subscriber(&weak_of(Some(number as u64)))
    }

    /// The stack with a number, where somebody holds it, or where it was released and isn't taken yet.
    pub fn stack(&self, number: usize) -> Option<&T>
        ensures { option_copied result ≡ stack_in (value_in self.now) number }
    {
        match self.held(number) {
            Some(stack) => Some(stack),
            None => match self.retired.get(number) {
                Some(Some(stack)) => Some(stack),
                Some(None) | None => None,
            },
        }
    }
}
