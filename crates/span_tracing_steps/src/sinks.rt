//! Queues of sinks.
ghost use Rattle.std.specs.Prelude.{◌≡◌, slice_get};
ghost use Rattle.span_tracing_skeleton.specs.Looking.{inner, output_in};
ghost use Rattle.span_tracing_steps.specs.AnySteps.{holds_in, some_lives, some_waits};
ghost use Rattle.span_tracing_steps.specs.SinkCalls.{DriveGives, StackCalled, WaitingCalled};
ghost use Rattle.span_tracing_steps.specs.States.{held_in, value_in};

use crate::parts::TraceParts;
use crate::settings::place_in;
use span_tracing_skeleton::{HasRegistry, HasSinks, OutputPlace, QueueCall, Refusal, Reply};
use tracing_core::RegisteredSubscriber;
use tracing_core_fields::{Subscriber, weak_of};

// Whether a line is held in one of the stacks that somebody holds.
fn some_lives<T: HasSinks>(stacks: &[RegisteredSubscriber<T>]) -> bool
    ensures { result ≡ some_lives T.holds stacks.now }
{
    match stacks {
        [] => false,
        [first, later @ ..] => first.subscriber().is_holding() || some_lives(later),
    }
}

// Whether a line is held in one of the stacks that wait to be taken.
fn some_waits<T: HasSinks>(stacks: &[Option<T>]) -> bool
    ensures { result ≡ some_waits T.holds stacks.now }
{
    match stacks {
        [] => false,
        [Some(first), later @ ..] => first.is_holding() || some_waits(later),
        [None, later @ ..] => some_waits(later),
    }
}

impl<T: Subscriber> TraceParts<T> {
    /// Where the sink with a number stands, also where its stack was released or taken: its stack's number, and its number in that stack.
    pub fn sink_place(&self, sink: usize) -> Option<OutputPlace>
        ensures { result ≡ output_in (value_in self.now).sinks 0 sink }
    {
        place_in(self.sinks.as_slice(), sink)
    }
}

impl<T: Subscriber + HasRegistry + HasSinks> TraceParts<T> {
    ghost use Rattle.span_tracing_steps.specs.TraceInvariant.{IsSound};

    /// Whether a line is held beside the queue of a sink, whose stack may have been released, but not taken. Each step but the calls on
    /// queues is refused then.
    #[inline(always)]
    pub fn is_busy(&self) -> bool
        ensures { result ≡ holds_in T.holds (value_in self.now) }
    {
        some_lives(self.hub.subscribers()) || some_waits(self.retired.as_slice())
    }

    // Does this to the queue of the sink at a place of a stack that was released and waits to be taken.
    fn drive_waiting(&mut self, at: OutputPlace, call: QueueCall) -> Reply
        requires { IsSound self.old }
        ensures sound { IsSound self.new }
        ensures called { WaitingCalled T.drives (value_in self.old) at call (inner (slice_get (value_in self.old).retired at.stack)) result
            (value_in self.new) }
    {
        let Some(waits) = self.retired.get_mut(at.stack) else {
            return Reply::Refused(Refusal::UnknownSink);
        };
        match waits {
            Some(stack) => stack.drive(at.place, call),
            None => Reply::Refused(Refusal::UnknownSink),
        }
    }

    // Does this to the queue of the sink at a place.
    fn drive_at(&mut self, at: OutputPlace, call: QueueCall) -> Reply
        requires { IsSound self.old }
        ensures sound { IsSound self.new }
        ensures called { StackCalled T.drives (value_in self.old) at call (held_in (value_in self.old) at.stack)
            (inner (slice_get (value_in self.old).retired at.stack)) result (value_in self.new) }
    {
        let stack = weak_of(Some(at.stack as u64));
        let driven = self
            .hub
            .with_subscriber_mut(&stack, |stack: &mut T| stack.drive(at.place, call));
        match driven {
            Some(reply) => reply,
            None => self.drive_waiting(at, call),
        }
    }

    /// Does this to the queue of the sink with a number. Its stack may have been released, but not taken.
    pub fn drive(&mut self, sink: usize, call: QueueCall) -> Reply
        requires { IsSound self.old }
        ensures sound { IsSound self.new }
        ensures gives { DriveGives T.drives (value_in self.old) sink call result (value_in self.new) }
    {
        match self.sink_place(sink) {
            None => Reply::Refused(Refusal::UnknownSink),
            Some(at) => self.drive_at(at, call),
        }
    }
}
