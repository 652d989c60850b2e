//! What a trace keeps of the interest in its callsites.
ghost use Rattle.std.specs.Prelude.{◌≡◌, is_some};
ghost use Rattle.span_tracing_skeleton.specs.Looking.{named};
ghost use Rattle.span_tracing_steps.specs.Asking.{AsksAnew};
ghost use Rattle.span_tracing_steps.specs.Interests.{is_off_at};
ghost use Rattle.span_tracing_steps.specs.States.{at_index, skeleton_of, value_in};

use crate::parts::TraceParts;
use span_tracing_skeleton::HasRegistry;
use tracing_core::CallsiteIndex;
use tracing_core_fields::{Identifier, Subscriber};

impl<T: Subscriber + HasRegistry> TraceParts<T> {
    ghost use Rattle.span_tracing_steps.specs.TraceInvariant.{IsSound};

    /// Where the callsite with the identifier stands, where it is registered.
    pub fn callsite(&self, identifier: Identifier) -> Option<CallsiteIndex>
        requires { IsSound self.now }
        ensures names { at_index (skeleton_of T.registry_of (value_in self.now)).callsites result
            ≡ named (skeleton_of T.registry_of (value_in self.now)).callsites identifier.0 }
        ensures there { is_some result ≡ is_some (named (skeleton_of T.registry_of (value_in self.now)).callsites identifier.0) }
    {
        self.find(identifier.0)
    }
}

impl<T: Subscriber> TraceParts<T> {
    ghost use Rattle.span_tracing_steps.specs.TraceInvariant.{IsSound};

    /// Whether it is kept of the callsite at the index that nobody is interested in it.
    pub fn is_off(&self, index: CallsiteIndex) -> bool
        ensures { result ≡ is_off_at (value_in self.now).hub.callsites index }
    {
        match self.hub.interest_at(index) {
            Some(interest) => interest.is_never(),
            None => false,
        }
    }

    /// Asks each stack of each callsite and for its hint, and keeps what it says.
    pub fn rebuild_interest_cache(&mut self)
        requires { IsSound self.old }
        ensures sound { IsSound self.new }
        ensures asked { AsksAnew ⟦<T as Subscriber>⟧ (value_in self.old) (value_in self.new) }
    {
        self.hub.rebuild_interest_cache();
    }
}
