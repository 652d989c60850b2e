//! A copy of what decides a trace's replies, as plain data.
ghost use Rattle.std.specs.Prelude.{◌≡◌, IfOk, length, map};
ghost use Rattle.tracing_core_fields.specs.OwnedMetadatas.{owned_plain};
ghost use Rattle.span_tracing_skeleton.specs.Looking.{inner};
ghost use Rattle.span_tracing_steps.specs.States.{callsites_of, held_stack, plain_guard, skeleton_of, value_in};
ghost use Rattle.span_tracing_steps.specs.Tables.{table_guard, table_skeleton, table_stack};

use crate::callsite::TraceCallsite;
use crate::parts::TraceParts;
use span_registry_layers_store::RegistryTable;
use span_tracing_skeleton::HasRegistry;
use std::alloc::{AllocError, Global};
use tracing_core::{
    DefaultGuard, Dispatch, HubTable, Lane, LaneDefault, RegisteredCallsite, RegisteredSubscriber,
};
use tracing_core_fields::{Callsite, OwnedMetadata, Subscriber, serial_of};

/// A stack that somebody holds.
#[derive(Drop)]
pub struct StackTable {
    /// Its number.
    pub number: u64,
    /// How many hold it: handles, lanes' own defaults, guards and the global default.
    pub holds: u64,
    /// Its open spans, and which of them each lane has entered.
    pub registry: RegistryTable,
}

/// A guard of a lane.
#[derive(Clone, Copy, Debug)]
pub struct GuardRow {
    /// The number of the lane.
    pub lane: u64,
    /// The default that it gives back.
    pub restores: LaneDefault,
}

/// A copy of what decides a trace's replies.
#[derive(Drop)]
pub struct TraceTable {
    /// The callsites, in order of registration, each with its identifier as the callsite of its fields.
    pub callsites: Vec<OwnedMetadata>,
    /// The defaults of the lanes, by the numbers of these.
    pub lanes: Vec<Lane>,
    /// How many stacks were given.
    pub given: usize,
    /// By number how many outputs each stack has.
    pub outputs: Vec<usize>,
    /// By number how many sinks each stack has.
    pub sinks: Vec<usize>,
    /// The stacks that somebody holds, in order of their numbers.
    pub stacks: Vec<StackTable>,
    /// By number the stack that each handle leads to, and none for a spent one.
    pub handles: Vec<Option<u64>>,
    /// By number each guard, and none for a spent one.
    pub guards: Vec<Option<GuardRow>>,
    /// The global default.
    pub global: LaneDefault,
}

// It takes any callsite: of metadata that a known type of them lends, the borrow checker finds no proof.
fn copy_callsite<C: Callsite>(alloc: Global, callsite: &C) -> Result<OwnedMetadata, AllocError>
    ensures { IfOk result (λ copy. owned_plain copy ≡ C.metadata_of callsite.now) }
{
    OwnedMetadata::new(alloc, &callsite.metadata())
}

#[tactic(auto, using(span_registry_layers_store::proofs::Lists::map_more))]
fn copy_callsites(
    alloc: Global,
    callsites: &[RegisteredCallsite<TraceCallsite>],
) -> Result<Vec<OwnedMetadata>, AllocError>
    ensures { IfOk result (λ copy. map owned_plain copy.items ≡ callsites_of callsites.now) }
{
    let mut copy = Vec::new(alloc);
    for registered in callsites {
        copy.push(copy_callsite(alloc, registered.callsite())?)?;
    }
    Ok(copy)
}

fn copy_counts(alloc: Global, counts: &[usize]) -> Result<Vec<usize>, AllocError>
    ensures { IfOk result (λ copy. copy.items ≡ counts.now) }
{
    counts.iter().copied().collect(alloc)
}

#[tactic(auto, using(span_registry_layers_store::proofs::RegistryCopies::copy_says))]
fn copy_stack<T: HasRegistry>(
    registered: &RegisteredSubscriber<T>,
) -> Result<StackTable, AllocError>
    ensures { IfOk result (λ copy. table_stack copy ≡ held_stack T.registry_of registered.now) }
{
    Ok(StackTable {
        number: registered.serial(),
        holds: registered.handles(),
        registry: registered.subscriber().registry().table()?,
    })
}

#[tactic(auto, using(span_registry_layers_store::proofs::Lists::map_more))]
fn copy_stacks<T: HasRegistry>(
    alloc: Global,
    stacks: &[RegisteredSubscriber<T>],
) -> Result<Vec<StackTable>, AllocError>
    ensures { IfOk result (λ copy. map table_stack copy.items ≡ map (held_stack T.registry_of) stacks.now) }
{
    let mut copy = Vec::new(alloc);
    for registered in stacks {
        copy.push(copy_stack(registered)?)?;
    }
    Ok(copy)
}

// The number of the stack that a handle leads to, where it isn't spent.
fn copy_handle(handle: &Option<Dispatch>) -> Option<u64>
    ensures { result ≡ inner handle.now }
{
    match handle {
        None => None,
        Some(handle) => serial_of(&handle.downgrade()),
    }
}

fn copy_handles(alloc: Global, handles: &[Option<Dispatch>]) -> Result<Vec<Option<u64>>, AllocError>
    ensures { IfOk result (λ copy. copy.items ≡ map inner handles.now) }
{
    handles.iter().map(copy_handle).collect(alloc)
}

fn copy_guard(guard: &Option<DefaultGuard>) -> Option<GuardRow>
    ensures { table_guard result ≡ plain_guard guard.now }
{
    match guard {
        None => None,
        Some(guard) => Some(GuardRow {
            lane: guard.lane(),
            restores: guard.before(),
        }),
    }
}

#[tactic(auto, using(span_registry_layers_store::proofs::Lists::map_more))]
fn copy_guards(
    alloc: Global,
    guards: &[Option<DefaultGuard>],
) -> Result<Vec<Option<GuardRow>>, AllocError>
    ensures { IfOk result (λ copy. map table_guard copy.items ≡ map plain_guard guards.now) }
{
    let mut copy = Vec::new(alloc);
    for guard in guards {
        copy.push(copy_guard(guard))?;
    }
    Ok(copy)
}

impl<T: Subscriber + HasRegistry> TraceParts<T> {
    ghost use Rattle.span_tracing_steps.specs.TraceInvariant.{IsSound};

    /// How many lanes there are. They are numbered from 0.
    #[tactic(auto, using(crate::proofs::Lanes::lanes_alike))]
    pub fn lane_count(&self) -> usize
        requires { IsSound self.now }
        ensures { result ≡ length (skeleton_of T.registry_of (value_in self.now)).lanes }
    {
        self.threads.len()
    }

    /// A copy of what decides replies.
    ///
    /// # Errors
    ///
    /// Out of memory.
    pub fn table(&self) -> Result<TraceTable, AllocError>
        requires { IsSound self.now }
        // The copy says the skeleton of the trace: callsites, lanes, the stacks that somebody holds with their open spans, handles, guards,
        // the global default, and how many outputs and sinks each stack has.
        ensures { IfOk result (λ copy. table_skeleton copy ≡ skeleton_of T.registry_of (value_in self.now)) }
    {
        let HubTable {
            handles: _handles,
            global,
            lanes,
            callsites: _callsites,
            greatest: _greatest,
        } = self.hub.table()?;
        Ok(TraceTable {
            callsites: copy_callsites(self.alloc, self.hub.callsites())?,
            lanes,
            given: self.given(),
            outputs: copy_counts(self.alloc, self.outputs.as_slice())?,
            sinks: copy_counts(self.alloc, self.sinks.as_slice())?,
            stacks: copy_stacks(self.alloc, self.hub.subscribers())?,
            handles: copy_handles(self.alloc, self.handles.as_slice())?,
            guards: copy_guards(self.alloc, self.guards.as_slice())?,
            global,
        })
    }
}
