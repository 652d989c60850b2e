//! What a trace keeps of the interest in its callsites.
ghost use Rattle.std.specs.Prelude.{◌≡◌, is_some};
ghost use Rattle.span_tracing_skeleton.specs.Looking.{named};
ghost use Rattle.span_tracing_steps.specs.Interests.{is_off_at};
ghost use Rattle.span_tracing_steps.specs.States.{at_index, callsites_of};

use crate::trace::Trace;
use span_tracing_skeleton::HasRegistry;
use tracing_core::CallsiteIndex;
use tracing_core_fields::{Identifier, Subscriber};

impl<T: Subscriber + HasRegistry> Trace<T> {
    /// Where the callsite with the identifier stands, for [`is_off`](Trace::is_off); none where it isn't registered. It stays the same
    /// while the trace lives.
    pub fn callsite(&self, identifier: Identifier) -> Option<CallsiteIndex>
        // It is the place of the callsite with the identifier.
        ensures names { at_index (callsites_of self.now.hub.callsites) result ≡ named (callsites_of self.now.hub.callsites) identifier.0 }
        // There is a place exactly where there is such a callsite.
        ensures there { is_some result ≡ is_some (named (callsites_of self.now.hub.callsites) identifier.0) }
    {
        self.parts.callsite(identifier)
    }
}

impl<T: Subscriber> Trace<T> {
    /// Whether it is kept of the callsite that nobody is interested in it. As long as what the trace keeps is right of each stack, an event
    /// there would reach no output, and a span wouldn't be made: whoever makes no request misses no line (`skipping_misses_nothing`).
    /// No refusal is told then.
    pub fn is_off(&self, callsite: CallsiteIndex) -> bool
        ensures { result ≡ is_off_at self.now.hub.callsites callsite }
    {
        self.parts.is_off(callsite)
    }
}
