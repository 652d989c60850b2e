//! A copy of what a hub keeps, as plain data.
ghost use Rattle.std.specs.Prelude.{◌≡◌, IfOk, map};
ghost use Rattle.tracing_core.specs.Copies.{CopyOf, handles_of, kept_of};

use crate::hub::Hub;
use crate::hub::parts::{Lane, LaneDefault, RegisteredCallsite, RegisteredSubscriber};
use std::alloc::{AllocError, Global};
use tracing_core_fields::{Identifier, Interest, LevelFilter};

/// How many handles lead to the subscriber of a number.
#[derive(Clone, Copy, Debug)]
pub struct HandleCount {
    /// The number of the subscriber.
    pub serial: u64,
    /// How many handles and defaults lead to it.
    pub handles: u64,
}

/// What is kept of the callsite with an identifier.
#[derive(Clone, Copy, Debug)]
pub struct KeptInterest {
    /// The identifier of the callsite.
    pub identifier: Identifier,
    /// The common interest of all subscribers.
    pub interest: Interest,
}

/// A copy of what a hub keeps.
#[derive(Drop)]
pub struct HubTable {
    /// The subscribers that some handle leads to, in order of their numbers.
    pub handles: Vec<HandleCount>,
    /// The global default.
    pub global: LaneDefault,
    /// The defaults of the lanes, by the numbers of these.
    pub lanes: Vec<Lane>,
    /// The callsites, in order of registration.
    pub callsites: Vec<KeptInterest>,
    /// The most verbose level that some subscriber enabled at the last rebuild, refresh or `add`.
    pub greatest: LevelFilter,
}

fn count_handles<S>(
    alloc: Global,
    subscribers: &[RegisteredSubscriber<S>],
) -> Result<Vec<HandleCount>, AllocError>
    ensures { IfOk result (λ counts. counts.items ≡ map handles_of subscribers.now) }
{
    subscribers
        .iter()
        .map(|registered| HandleCount {
            serial: registered.serial,
            handles: registered.handles,
        })
        .collect(alloc)
}

fn copy_lanes(alloc: Global, lanes: &[Lane]) -> Result<Vec<Lane>, AllocError>
    ensures { IfOk result (λ copy. copy.items ≡ lanes.now) }
{
    lanes.iter().copied().collect(alloc)
}

fn copy_interests<C>(
    alloc: Global,
    callsites: &[RegisteredCallsite<C>],
) -> Result<Vec<KeptInterest>, AllocError>
    ensures { IfOk result (λ copy. copy.items ≡ map kept_of callsites.now) }
{
    callsites
        .iter()
        .map(|registered| KeptInterest {
            identifier: Identifier(registered.identifier),
            interest: registered.interest,
        })
        .collect(alloc)
}

impl<S, C> Hub<S, C> {
    /// A copy of what the hub keeps, as plain data.
    pub fn table(&self) -> Result<HubTable, AllocError>
        ensures { IfOk result (λ copy. CopyOf self.now copy) }
    {
        let alloc = *self.subscribers.allocator();
        Ok(HubTable {
            handles: count_handles(alloc, &self.subscribers)?,
            global: self.global,
            lanes: copy_lanes(alloc, &self.lanes)?,
            callsites: copy_interests(alloc, self.callsites.as_slice())?,
            greatest: self.greatest,
        })
    }
}
