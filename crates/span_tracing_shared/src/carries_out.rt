//! Whatever carries out steps.
ghost use Rattle.std.specs.Prelude.{◌≡◌, IfOk, List, Bool, length};
ghost use Rattle.span_tracing_skeleton.specs.PlainData.{AnyStep, any_step};
ghost use Rattle.span_tracing_skeleton.specs.Skeleton.{Skeleton};
ghost use Rattle.span_tracing_skeleton.specs.declared.call.Reply.{Reply};
ghost use Rattle.span_tracing_shared.specs.Journals.{counts, next_by, reply_if};

use crate::mask::Mask;
use span_tracing_skeleton::{Reply, Step};
use std::alloc::AllocError;

/// Carries out steps, as the machine on skeletons does.
pub trait CarriesOut: Drop {
    /// A copy of what decides replies, for whoever keeps it.
    type Start: Drop;

    // What decides replies.
    ghost skeleton: { Self → Skeleton };

    // What a copy says.
    ghost copied: { Self.Start → Skeleton };

    // What has to be known of it, so that it follows the machine.
    ghost ready: { Self → Type 0 };

    // What a step with a reply and a mask makes of it, and what it writes.
    ghost gives: { Self → AnyStep → Reply → List Bool → Self → Type 0 };

    /// A copy of what decides replies.
    ///
    /// # Errors
    ///
    /// Out of memory.
    fn start(&self) -> Result<Self::Start, AllocError>
        ensures { IfOk result (λ copy. copied copy ≡ skeleton self.now) };

    /// How many lanes it has. They are numbered from 0.
    fn lane_count(&self) -> usize
        ensures { result ≡ length (skeleton self.now).lanes };

    /// Carries out a step. It answers the reply, and the mask from which the machine reads what filters answered: of a new span what that of
    /// each output did, and of a question whether some passed; of all else it reads nothing. Where it refuses the step for lack of memory, or
    /// since a line is held, what decides replies is as it was.
    fn carry_out(&mut self, step: &Step) -> (Reply, Mask)
        requires { ready self.old }
        ensures ready { ready self.new }
        ensures gives { gives self.old (any_step step.now) result.0 result.1 self.new }
        // What decides replies is as the machine leaves it, or as it was.
        ensures skeleton { skeleton self.new ≡ next_by (counts result.0) (skeleton self.old) (any_step step.now) result.1 }
        // The reply is the machine's, or one of those that only memory, held lines or a queue decide.
        ensures reply { result.0 ≡ reply_if (counts result.0) (skeleton self.old) (any_step step.now) result.1 result.0 };
}
