//! Subscribers, callsites with what is kept of them, lanes and defaults.
ghost use Rattle.std.specs.Prelude.{◌≡◌, ◌++◌, ◌∷◌, [], false, OnOk, OnErr, IfOk, length};
ghost use Rattle.tracing_core.specs.CachePreservation.{PreservesCaches};
ghost use Rattle.tracing_core.specs.HubInvariant.{IsSound};
ghost use Rattle.tracing_core.specs.Table.{fresh};
ghost use Rattle.tracing_core.specs.declared.hub.parts.Lane.TheVariants.{Running};
ghost use Rattle.tracing_core.specs.declared.hub.parts.LaneDefault.TheVariants.{Unset};

mod asking;
mod callsites;
mod defaults;
mod dispatching;
mod gate;
mod handing;
mod handles;
mod index;
mod indexed;
mod lending;
mod parts;
mod reaching;
mod registered;
mod requests;
mod scoped;
mod subscribers;
mod table;
mod taking;

use callsites::Callsites;
pub use index::CallsiteIndex;
pub use indexed::RequestParent;
pub use parts::{Lane, LaneDefault, RegisteredCallsite, RegisteredSubscriber};
use std::alloc::{AllocError, Global};
use std::marker::Model;
pub use table::{HandleCount, HubTable, KeptInterest};
use tracing_core_fields::{Callsite, LevelFilter, Subscriber};

/// Subscribers that handles lead to, callsites with their common interests, and the defaults of lanes.
///
/// A contract sees a hub as a `Table`.
#[derive(Drop)]
pub struct Hub<S, C> {
    subscribers: Vec<RegisteredSubscriber<S>>,
    next: u64,
    callsites: Callsites<C>,
    lanes: Vec<Lane>,
    // by lane, whether it is within a `get_default` or `get_current`
    entered: Vec<bool>,
    global: LaneDefault,
    greatest: LevelFilter,
}

impl<S, C> Model for Hub<S, C> {
    ghost use Rattle.tracing_core.specs.Table.{Table};

    ghost Value = { Table S C };

    ghost view = { λ h. record {
      subscribers = h.subscribers.items;
      next = h.next;
      callsites = h.callsites;
      lanes = h.lanes.items;
      entered = h.entered.items;
      global = h.global;
      greatest = h.greatest;
    } };
}

impl<S: Subscriber, C: Callsite> Hub<S, C> {
    /// A hub with no subscriber, no callsite and no lane, and no global default.
    pub fn new(alloc: Global) -> Hub<S, C>
        ensures empty { result ≡ fresh }
        // A new hub is sound.
        ensures sound { IsSound ⟦<C as Callsite>⟧ result }
    {
        Hub {
            subscribers: Vec::new(alloc),
            next: 0,
            callsites: Callsites::new(alloc),
            lanes: Vec::new(alloc),
            entered: Vec::new(alloc),
            global: LaneDefault::Unset,
            greatest: LevelFilter::OFF,
        }
    }

    /// The number of a new lane, which has no default of its own.
    pub fn thread(&mut self) -> Result<u64, AllocError>
        ensures number { IfOk result (λ lane. lane ≡ length self.old.lanes) }
        ensures added { OnOk result (self.new ≡ record self.old {
          lanes = self.old.lanes ++ Running Unset ∷ [];
          entered = self.old.entered ++ false ∷ [];
        }) }
        // Where there is no memory, the hub stays as it was.
        ensures refused { OnErr result (self.new ≡ self.old) }
        ensures keeps { PreservesCaches ⟦<S as Subscriber>⟧ ⟦<C as Callsite>⟧ self.old self.new }
    {
        self.add_lane()
    }
}

impl<S, C> Hub<S, C> {
    // A lane more.
    fn add_lane(&mut self) -> Result<u64, AllocError>
        ensures number { IfOk result (λ lane. lane ≡ length self.old.lanes) }
        ensures added { OnOk result (self.new ≡ record self.old {
          lanes = self.old.lanes ++ Running Unset ∷ [];
          entered = self.old.entered ++ false ∷ [];
        }) }
        ensures refused { OnErr result (self.new ≡ self.old) }
    {
        let lane = self.lanes.len() as u64;
        self.entered.reserve(1)?;
        self.lanes.push(Lane::Running(LaneDefault::Unset))?;
        self.entered.push_reserved(false);
        Ok(lane)
    }

    /// The most verbose level that some subscriber enabled at the last rebuild, refresh or `add`.
    pub fn max_level(&self) -> LevelFilter
        ensures { result ≡ self.now.greatest }
    {
        self.greatest
    }
}
