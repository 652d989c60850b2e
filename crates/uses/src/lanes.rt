//! Lanes that log in threads of their own, through one trace.
ghost use Rattle.std.specs.Prelude.{◌≡◌, ◌<◌, IfOk};
ghost use Rattle.span_tracing.specs.Books.{Replays};
ghost use Rattle.span_tracing.specs.Entries.{plain_journal};
ghost use Rattle.span_tracing.specs.StepFollows.{TraceIsReady, skeleton_of};
ghost use Rattle.span_tracing.specs.Tables.{table_skeleton};

use crate::program::MemoryTrace;
use span_registry_layers::Filter;
use span_tracing::{Closed, Lines, Open, Seat, SeatError, Shared, Step, fits};
use std::alloc::{AllocError, AllocGlobal};
use std::sync::Wait;
use std::sync::ledger::{Blank, Ledger};
use std::thread::Threads;
use tracing_core::LevelFilter;

/// Why lanes didn't run to their ends.
#[derive(Clone, Copy, Debug, PartialEq, Eq)]
pub enum LanesError {
    /// There was no memory.
    OutOfMemory,
    /// There are more lists than lanes or seats.
    NoSeat,
    /// A list names another lane than its own.
    OtherLane,
}

impl From<AllocError> for LanesError {
    fn from(_: AllocError) -> LanesError {
        LanesError::OutOfMemory
    }
}

impl From<SeatError> for LanesError {
    fn from(_: SeatError) -> LanesError {
        LanesError::NoSeat
    }
}

/// Seats for the first lanes.
fn seats_of<L: Ledger, R: AllocGlobal + Wait>(
    rt: &R,
    shared: &Shared<L, MemoryTrace>,
    lanes: usize,
) -> Result<Vec<Seat<L>>, LanesError> {
    let mut seats = Vec::new(rt.alloc());
    for lane in 0..lanes {
        seats.reserve(1)?;
        seats.push_reserved(shared.seat(rt, lane)?);
    }
    Ok(seats)
}

/// Runs a list of steps for each lane, each in a thread of its own, over one trace. Answers the trace with its journal: one order of all
/// steps, which the machine can follow. The blank has one part more than there are lists.
///
/// # Errors
///
/// Why they didn't run to their ends. The trace is let go then.
pub fn run_in_threads<L: Ledger + Send + Sync, R: AllocGlobal + Threads + Wait + Sync>(
    rt: &R,
    blank: Blank,
    parts: u64,
    trace: MemoryTrace,
    lists: &[Vec<Step>],
) -> Result<Closed<MemoryTrace>, LanesError>
    requires name { blank.name ≡ L.name }
    requires parts { (blank.parts ≡ L.parts) × (blank.parts ≡ parts) × (0 < parts) }
    requires ready { TraceIsReady ⟦<LevelFilter as Filter>⟧ ⟦<Lines as span_registry_layers::Layer>⟧ trace }
    ensures { IfOk result (λ closed. Replays (skeleton_of closed.trace) (table_skeleton closed.start)
        (plain_journal closed.journal.items)) }
{
    let Ok(shared) = Shared::<L, MemoryTrace>::new(rt.alloc(), blank, parts, trace) else {
        return Err(LanesError::OutOfMemory);
    };
    let mut seats = seats_of(rt, &shared, lists.len())?;
    let lanes = seats.as_mut_slice();
    if !fits(lanes, lists) {
        return Err(LanesError::OtherLane);
    }
    shared.run_lanes(rt, &Open, lanes, lists)?;
    match shared.close(seats) {
        Ok(closed) => Ok(closed),
        // A seat for each lane, and all of them were handed in.
        Err(_) => Err(LanesError::NoSeat),
    }
}
