//! The seat of a lane.
ghost use Rattle.std.specs.Prelude.{◌≡◌, [], vec_len};

use crate::call::Call;
use std::alloc::Global;
use std::sync::ledger::{Ledger, Share};
use thiserror::Error;

/// Why a lane gets no seat.
#[derive(Clone, Copy, Debug, PartialEq, Eq, Error)]
pub enum SeatError {
    #[error("no such lane")]
    UnknownLane,
    #[error("no seat is left")]
    NoSeat,
}

/// A lane's share of the ledger, and the calls that it made.
#[derive(Drop)]
pub struct Seat<L: Ledger> {
    pub(crate) lane: usize,
    pub(crate) share: Share<L>,
    pub(crate) own: Vec<Call>,
    // The last run stopped because there was no memory for an entry.
    pub(crate) stopped: bool,
    ghost one_part: { share.parts ≡ 1 },
    ghost counted: { share.amount ≡ vec_len own },
}

impl<L: Ledger> Seat<L> {
    pub(crate) fn open(alloc: Global, lane: usize, share: Share<L>) -> Seat<L>
        requires { (share.parts ≡ 1) × (share.amount ≡ 0) }
        ensures { (result.lane ≡ lane) × (result.own.items ≡ []) }
    {
        Seat {
            lane,
            share,
            own: Vec::new(alloc),
            stopped: false,
        }
    }

    /// Its lane.
    pub fn lane(&self) -> usize
        ensures { result ≡ self.now.lane }
    {
        self.lane
    }

    /// The calls that it made, in order.
    pub fn calls(&self) -> &[Call]
        ensures { result.now ≡ self.now.own.items }
    {
        self.own.as_slice()
    }

    /// Whether its last run stopped because there was no memory for an entry.
    pub fn is_stopped(&self) -> bool
        ensures { result ≡ self.now.stopped }
    {
        self.stopped
    }
}
