//! Filters of outputs, which change while a trace runs.
ghost use Rattle.std.specs.Prelude.{◌≡◌};
ghost use Rattle.span_tracing_skeleton.specs.Refusing.{output_refusal, output_refusal_by};
ghost use Rattle.span_tracing_steps.specs.FilterSwaps.{StackSwaps, SwapGives};
ghost use Rattle.span_tracing_steps.specs.States.{held_in, skeleton_of, value_in};

use crate::parts::TraceParts;
use span_tracing_skeleton::{HasFilters, HasRegistry, OutputPlace, Refusal, Reply};
use tracing_core_fields::{Subscriber, weak_of};

impl<T: Subscriber + HasRegistry> TraceParts<T> {
    ghost use Rattle.span_tracing_steps.specs.TraceInvariant.{IsSound};

    /// Why a call on the output with a number is refused, if it is.
    pub fn output_refusal(&self, output: usize) -> Option<Refusal>
        ensures { result ≡ output_refusal (skeleton_of T.registry_of (value_in self.now)) output }
    {
        match self.output_place(output) {
            None => Some(Refusal::NoOutput),
            Some(at) => self.life_refusal(at.stack),
        }
    }

    // Lets the filter of the output at a place and another one change places, and asks the stack anew.
    fn swap_at<F>(&mut self, at: OutputPlace, filter: &mut F)
    where
        T: HasFilters<F>,
        requires { IsSound self.old }
        ensures sound { IsSound self.new }
        ensures swaps { StackSwaps ⟦<T as Subscriber>⟧ T.swaps (value_in self.old) at filter.old
            (held_in (value_in self.old) at.stack) (value_in self.new) filter.new }
    {
        let stack = weak_of(Some(at.stack as u64));
        let Some(stack) = self.hub.subscriber_mut(&stack) else {
            return;
        };
        stack.swap_filter(at.place, filter);
        self.hub.refresh();
    }

    /// Lets the filter of an output and another one change places, from the next step on.
    pub fn swap_filter<F>(&mut self, output: usize, filter: &mut F) -> Reply
    where
        T: HasFilters<F>,
        requires { IsSound self.old }
        ensures sound { IsSound self.new }
        // A refused call changes nothing. Else the filters change places, the stack and maybe others are asked anew, what is kept of
        // callsites and the greatest level are formed anew, and all else stays.
        ensures gives { SwapGives ⟦<T as Subscriber>⟧ T.registry_of T.swaps (value_in self.old) output filter.old result
            (value_in self.new) filter.new }
    {
        let Some(at) = self.output_place(output) else {
            return Reply::Refused(Refusal::NoOutput);
        };
        if let Some(refusal) = self.life_refusal(at.stack) {
            return Reply::Refused(refusal);
        }
        self.swap_at(at, filter);
        Reply::Done
    }
}
