//! Settings of outputs, which change while a trace runs.
ghost use Rattle.std.specs.Prelude.{◌≡◌};
ghost use Rattle.span_tracing_skeleton.specs.Looking.{output_in};
ghost use Rattle.span_tracing_skeleton.specs.PlainData.{SetStep};
ghost use Rattle.span_tracing_skeleton.specs.Refusing.{output_refusal_by};
ghost use Rattle.span_tracing_steps.specs.States.{skeleton_of, value_in};
ghost use Rattle.span_tracing_steps.specs.Steps.{StepGives, with_setting};

use crate::parts::TraceParts;
use span_tracing_skeleton::{
    HasOutputs, HasRegistry, OutputPlace, Refusal, Reply, Setting, SettingCall,
};
use tracing_core_fields::{Subscriber, weak_of};

/// Where the output with a number stands: stacks in order have so many outputs. So it is with sinks.
pub(crate) fn place_in(counts: &[usize], output: usize) -> Option<OutputPlace>
    ensures { result ≡ output_in counts.now 0 output }
{
    let mut place = output;
    for (stack, count) in counts.iter().enumerate() {
        if place < *count {
            return Some(OutputPlace { stack, place });
        }
        place -= *count;
    }
    None
}

impl<T: Subscriber> TraceParts<T> {
    /// Where the output with a number stands, also where its stack was released.
    pub fn output_place(&self, output: usize) -> Option<OutputPlace>
        ensures { result ≡ output_in (value_in self.now).outputs 0 output }
    {
        place_in(self.outputs.as_slice(), output)
    }
}

impl<T: Subscriber + HasRegistry + HasOutputs> TraceParts<T> {
    ghost use Rattle.span_tracing_steps.specs.TraceInvariant.{IsSound};

    // Changes a setting of the output at a place.
    fn set_at(&mut self, at: OutputPlace, setting: Setting)
        requires { IsSound self.old }
        ensures sound { IsSound self.new }
        ensures state { value_in self.new ≡ with_setting T.set (value_in self.old) (Some at) setting }
    {
        let stack = weak_of(Some(at.stack as u64));
        let _set = self
            .hub
            .with_subscriber_mut(&stack, |stack: &mut T| stack.set(at.place, setting));
    }

    /// Changes a setting of an output, from the next step on.
    pub fn set(&mut self, call: &SettingCall) -> Reply
        requires { IsSound self.old }
        ensures sound { IsSound self.new }
        // A refused call changes nothing; else the output has the setting, and nothing else changes.
        ensures gives { StepGives ⟦<T as Subscriber>⟧ T.registry_of T.set (value_in self.old) (SetStep call.now) result
            (value_in self.new) }
    {
        let Some(at) = self.output_place(call.output) else {
            return Reply::Refused(Refusal::NoOutput);
        };
        if let Some(refusal) = self.life_refusal(at.stack) {
            return Reply::Refused(refusal);
        }
        self.set_at(at, call.setting);
        Reply::Done
    }
}
