//! Whether spans and events are wanted.
ghost use Rattle.std.specs.Prelude.{◌≡◌, Bool, Some, slice_get};
ghost use Rattle.std.specs.Option.{option_map};
ghost use Rattle.tracing_core.specs.Commands.{GateGives, reached, callsite_with};
ghost use Rattle.tracing_core.specs.TableRows.{KeptCallsite, KeptSubscriber};
ghost use Rattle.tracing_core.specs.CachePreservation.{PreservesCaches};
ghost use Rattle.tracing_core.specs.ValidCaches.{HasValidCache};
ghost use Rattle.tracing_core.specs.Table.{own_setting, effective, chosen};

use crate::hub::Hub;
use crate::hub::parts::{Lane, LaneDefault, RegisteredCallsite, lane_at};
use tracing_core_fields::{Callsite, Identifier, Interest, Subscriber, WeakDispatch, weak_of};
use tracing_core_moments::At;

// The lane's own default.
pub(crate) fn setting_of(lanes: &[Lane], lane: u64) -> LaneDefault
    ensures { result ≡ own_setting (slice_get lanes.now lane) }
{
    match lane_at(lanes, lane) {
        None => LaneDefault::Nothing,
        Some(Lane::Ended) => LaneDefault::Unset,
        Some(Lane::Running(setting)) => setting,
    }
}

// The number that the default in force leads to.
fn serial_of(own: LaneDefault, global: LaneDefault) -> Option<u64>
    ensures { result ≡ chosen (effective own global) }
{
    match (own, global) {
        (LaneDefault::To(serial), _) => Some(serial),
        (LaneDefault::Unset, LaneDefault::To(serial)) => Some(serial),
        (_, _) => None,
    }
}

impl<S, C> Hub<S, C> {
    // The number of the subscriber that the lane reaches.
    pub(crate) fn reached_serial(&self, lane: u64) -> Option<u64>
        ensures { result ≡ reached self.now lane }
    {
        serial_of(setting_of(&self.lanes, lane), self.global)
    }

    /// The subscriber that requests of the lane reach: that of its own default where one was set, else of
    /// the global one. A lane that was never given reaches none.
    pub fn reached(&self, lane: u64) -> WeakDispatch
        ensures { result ≡ reached self.now lane }
    {
        weak_of(self.reached_serial(lane))
    }

    // The callsite with the identifier.
    pub(crate) fn callsite_with(&self, identifier: u64) -> Option<&RegisteredCallsite<C>>
        ensures { option_map (λ site. site.now) result ≡ callsite_with identifier self.now.callsites }
    {
        self.callsites.find(identifier)
    }

    /// The common interest that is kept of the callsite with the identifier.
    pub fn interest(&self, identifier: Identifier) -> Option<Interest>
        ensures { result ≡ option_map (λ site. site.interest) (callsite_with identifier.0 self.now.callsites) }
    {
        match self.callsites.find(identifier.0) {
            None => None,
            Some(registered) => Some(registered.interest),
        }
    }
}

impl<S: Subscriber, C: Callsite> Hub<S, C> {
    /// Whether a span or an event of the callsite with the identifier, made there and then, is wanted, or
    /// `None` where no callsite has it. Where the lane reaches nothing, it isn't. The reached subscriber is
    /// asked where what is kept doesn't tell.
    pub fn gate(&mut self, identifier: Identifier, at: At) -> Option<bool>
        ensures answer { GateGives ⟦<S as Subscriber>⟧ ⟦<C as Callsite>⟧ self.old identifier.0 at result self.new }
        // With a valid cache of the reached subscriber the answer is what that subscriber answers when it is asked.
        ensures asking { (site : KeptCallsite C) (e : KeptSubscriber S) (b : Bool) →
            callsite_with identifier.0 self.old.callsites ≡ Some site → reached self.old at.lane ≡ Some e.serial →
            HasValidCache ⟦<S as Subscriber>⟧ ⟦<C as Callsite>⟧ self.old e →
            S.answers e.subscriber (C.metadata_of site.callsite) at b → result ≡ Some b }
        ensures keeps { PreservesCaches ⟦<S as Subscriber>⟧ ⟦<C as Callsite>⟧ self.old self.new }
    {
        self.look(identifier, at)
    }

    fn look(&mut self, identifier: Identifier, at: At) -> Option<bool>
        ensures { GateGives ⟦<S as Subscriber>⟧ ⟦<C as Callsite>⟧ self.old identifier.0 at result self.new }
    {
        let serial = self.reached_serial(at.lane);
        match self.callsites.find(identifier.0) {
            None => None,
            Some(registered) => Some(registered.answer(
                &mut self.subscribers,
                serial,
                self.greatest,
                at,
            )),
        }
    }
}
