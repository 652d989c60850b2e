//! What has sinks, of which some are queued.
ghost use Rattle.std.specs.Prelude.{◌≡◌, Bool, ℕ};
ghost use Rattle.span_tracing_skeleton.specs.Consistency.{StaysConsistent};
ghost use Rattle.span_tracing_skeleton.specs.declared.call.Reply.{Reply};
ghost use Rattle.span_tracing_skeleton.specs.declared.queue_call.QueueCall.{QueueCall};

use crate::call::Reply;
use crate::has_registry::HasRegistry;
use crate::queue_call::QueueCall;
use tracing_core_fields::Subscriber;

/// Has sinks that lines go to, numbered from 0. Some may be queued: their lines wait until a step of a worker writes them.
pub trait HasSinks: HasRegistry {
    // How many sinks it has.
    ghost sinks_in: { Self → ℕ };

    // What a call on the queue of the sink with a number is answered, and what it leaves.
    ghost drives: { Self → ℕ → QueueCall → Reply → Self → Type 0 };

    // Whether a line is held beside a queue of one of them.
    ghost holds: { Self → Bool };

    /// How many sinks it has.
    fn sink_count(&self) -> usize
        ensures { result ≡ sinks_in self.now };

    /// Whether a line is held beside a queue of one of them.
    fn is_holding(&self) -> bool
        ensures { result ≡ holds self.now };

    /// Does this to the queue of the sink with a number. Refused where there is no such sink (`UnknownSink`), and where it isn't queued
    /// (`NotQueued`).
    fn drive(&mut self, number: usize, call: QueueCall) -> Reply
        ensures { drives self.old number call result self.new };

    // It leaves the spans as they are.
    ghost spans_stay: { (x : Self) (number : ℕ) (call : QueueCall) (reply : Reply) (y : Self) → drives x number call reply y →
        Self.HasRegistry.registry_of y ≡ Self.HasRegistry.registry_of x };

    // It stays as consistent as it was, and says the same of its interests and its hint.
    ghost word_stays: { (x : Self) (number : ℕ) (call : QueueCall) (reply : Reply) (y : Self) → drives x number call reply y →
        StaysConsistent ⟦<Self as Subscriber>⟧ x y };
}
