//! Laws of what a trace keeps.
ghost use Rattle.span_tracing_steps.specs.InterestPreservation.{CacheStaysValid};

use span_tracing_skeleton::{HasOutputs, HasRegistry, HasSinks};
use tracing_core_fields::Subscriber;

/// What is kept of the interest in each callsite is right of each stack: of a new trace, and after each consistent stack and each callsite
/// that is added, and after each step, also one on a sink's queue.
pub fn cache_stays_valid<T: Subscriber + HasRegistry + HasOutputs + HasSinks>()
    ensures { CacheStaysValid ⟦<T as Subscriber>⟧ T.registry_of T.outputs_in T.sinks_in T.set T.drives T.holds }
{}
