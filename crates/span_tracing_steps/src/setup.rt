//! Setup calls, which are no steps.
ghost use Rattle.std.specs.Prelude.{◌≡◌, IfOk, OnErr, OnOk, length, slice_get, string_bytes};
ghost use Rattle.std.specs.Option.{option_map};
ghost use Rattle.tracing_core_fields.specs.Metadata.{plain_metadata};
ghost use Rattle.span_tracing_steps.specs.Setup.{AddGives, RegisterGives, own_at, with_thread, without_retired};
ghost use Rattle.span_tracing_skeleton.specs.Looking.{inner};
ghost use Rattle.span_tracing_steps.specs.States.{new_state, value_in};

use crate::callsite::TraceCallsite;
use crate::parts::{Thread, TraceParts};
use span_tracing_skeleton::{HasOutputs, HasRegistry, HasSinks, Refusal};
use std::alloc::{AllocError, Global};
use tracing_core::{AddError, Hub, RegisterError};
use tracing_core_fields::{Identifier, Interest, Metadata, Subscriber};

impl<T: Subscriber> TraceParts<T> {
    ghost use Rattle.span_tracing_steps.specs.TraceInvariant.{IsSound};

    /// Parts with no stack, no lane and no callsite.
    pub fn new(alloc: Global) -> TraceParts<T>
        // New parts are sound.
        ensures sound { IsSound result }
        ensures value { value_in result ≡ new_state }
    {
        TraceParts {
            alloc,
            threads: Vec::new(alloc),
            outputs: Vec::new(alloc),
            sinks: Vec::new(alloc),
            hub: Hub::new(alloc),
            handles: Vec::new(alloc),
            guards: Vec::new(alloc),
            retired: Vec::new(alloc),
        }
    }

    /// Adds a lane, and answers its number: lanes are numbered from 0.
    ///
    /// # Errors
    ///
    /// Out of memory, which changes nothing.
    pub fn thread(&mut self, name: Option<String>, thread_id: u64) -> Result<usize, AllocError>
        requires { IsSound self.old }
        ensures sound { IsSound self.new }
        ensures number { IfOk result (λ lane. lane ≡ length (value_in self.old).threads) }
        // The lane stands behind the others, with its thread and no default of its own.
        ensures ok { OnOk result (value_in self.new ≡ with_thread (value_in self.old)
            (record { name = option_map string_bytes name; number = thread_id })) }
        // Where there is no memory, nothing changes.
        ensures err { OnErr result (value_in self.new ≡ value_in self.old) }
    {
        self.threads.reserve(1)?;
        self.hub.thread()?;
        let lane = self.threads.len();
        self.threads.push_reserved(Thread { name, thread_id });
        Ok(lane)
    }

    /// Registers a callsite under an identifier, and answers the interest in it that is kept: what the stacks have in common of it,
    /// and never where there is no stack. Equal metadata may be registered again, which answers the kept interest
    /// and changes nothing.
    ///
    /// # Errors
    ///
    /// `Taken` where other metadata holds the identifier, else `OutOfMemory`; both change nothing.
    pub fn register(
        &mut self,
        identifier: Identifier,
        metadata: &Metadata<'_>,
    ) -> Result<Interest, Refusal>
        requires { IsSound self.old }
        ensures sound { IsSound self.new }
        // A callsite that isn't known is kept behind the others, with its metadata and what the stacks say of it; a known one changes
        // nothing.
        ensures gives { RegisterGives ⟦<T as Subscriber>⟧ (value_in self.old)
            (own_at identifier.0 (plain_metadata metadata.now)) result (value_in self.new) }
    {
        let Ok(callsite) = TraceCallsite::new(self.alloc, identifier, metadata) else {
            return Err(Refusal::OutOfMemory);
        };
        match self.hub.register(callsite) {
            Ok(interest) => Ok(interest),
            Err(RegisterError::Taken(_)) => Err(Refusal::Taken),
            Err(RegisterError::OutOfMemory(_)) => Err(Refusal::OutOfMemory),
        }
    }

    /// Takes the stack with a number, where it was released and wasn't taken yet. The sinks of its outputs come with it.
    pub fn take_retired(&mut self, number: usize) -> Option<T>
        requires { IsSound self.old }
        ensures sound { IsSound self.new }
        // It is the stack that waits under the number, where one does.
        ensures taken { result ≡ inner (slice_get (value_in self.old).retired number) }
        // It doesn't wait any more, and nothing else changes.
        ensures left { value_in self.new ≡ without_retired (value_in self.old) number }
    {
        if number < self.retired.len() {
            self.retired[number].take()
        } else {
            None
        }
    }
}

impl<T: Subscriber + HasRegistry + HasOutputs + HasSinks> TraceParts<T> {
    ghost use Rattle.span_tracing_steps.specs.TraceInvariant.{IsSound};

    /// Takes a stack, asks it of each callsite, and answers the number of its handle. Its outputs have the next numbers, in order, and
    /// so have its sinks.
    ///
    /// # Errors
    ///
    /// Out of memory, which changes nothing and gives the stack back.
    pub fn add_stack(&mut self, stack: T) -> Result<usize, T>
        requires { IsSound self.old }
        ensures sound { IsSound self.new }
        // The stack is told its handle, is asked of each callsite in order and for its hint, and is kept with what it said; where
        // there is no memory, it comes back, and nothing changes.
        ensures gives { AddGives ⟦<T as Subscriber>⟧ T.outputs_in T.sinks_in (value_in self.old) stack result (value_in self.new) }
    {
        if self.handles.reserve(1).is_err() {
            return Err(stack);
        }
        if self.outputs.reserve(1).is_err() {
            return Err(stack);
        }
        if self.sinks.reserve(1).is_err() {
            return Err(stack);
        }
        if self.retired.reserve(1).is_err() {
            return Err(stack);
        }
        let outputs = stack.output_count();
        let sinks = stack.sink_count();
        match self.hub.add(stack) {
            Ok(handle) => {
                let number = self.handles.len();
                self.handles.push_reserved(Some(handle));
                self.outputs.push_reserved(outputs);
                self.sinks.push_reserved(sinks);
                self.retired.push_reserved(None);
                Ok(number)
            }
            Err(AddError::OutOfMemory(stack)) => Err(stack),
            Err(AddError::NumbersSpent(stack)) => Err(stack),
        }
    }
}
