//! A trace with the journal of its steps.
ghost use Rattle.std.specs.Prelude.{◌≡◌, ◌+◌, ◌<◌, [], ◌∷◌, ◌++◌, IfErr, IfOk, None, OnErr, Some};
ghost use Rattle.span_tracing_skeleton.specs.PlainData.{any_step};
ghost use Rattle.span_tracing_shared.specs.Books.{Replays, seat_refusal};
ghost use Rattle.span_tracing_shared.specs.Closing.{Closes};
ghost use Rattle.span_tracing_shared.specs.Entries.{plain_journal};
ghost use Rattle.span_tracing_shared.specs.Journals.{counts, next_by, reply_if};
ghost use Rattle.span_tracing_shared.specs.Lanes.{IsOfLane};
ghost use Rattle.span_tracing_shared.specs.Seats.{own_calls};

use crate::call::Call;
use crate::carries_out::CarriesOut;
use crate::closes::closes;
use crate::entry::Entry;
use crate::seat::{Seat, SeatError};
use span_tracing_skeleton::{Reply, Step};
use std::alloc::{AllocError, Global};
use std::marker::Model;
use std::sync::ledger::{Blank, Ledger, Share};
use std::sync::{Arc, ledger};

/// A trace, what decided its replies when the book was opened, and the journal of its steps since then.
pub struct Book<L: Ledger, T: CarriesOut> {
    pub(crate) alloc: Global,
    pub(crate) trace: T,
    pub(crate) start: T::Start,
    pub(crate) journal: Vec<Entry>,
    pub(crate) calls: ledger::Book<L>,
    pub(crate) rest: Share<L>,
    pub(crate) spare: u64,
}

impl<L: Ledger, T: CarriesOut> Drop for Book<L, T> {
    fn drop(self) {
        let Book {
            alloc: _alloc,
            trace: _trace,
            start: _start,
            journal: _journal,
            calls: _calls,
            rest: _rest,
            spare: _spare,
        } = self;
    }
}

impl<L: Ledger, T: CarriesOut> Model for Book<L, T> {
    ghost use Rattle.std.specs.Prelude.{◌≡◌, ◌+◌, vec_len};
    ghost use Rattle.span_tracing_shared.specs.Books.{BookValue, Replays};
    ghost use Rattle.span_tracing_shared.specs.Entries.{plain_journal};

    ghost Value = { BookValue T };

    ghost view = { λ b. record {
      trace = b.trace;
      start = T.copied b.start;
      journal = plain_journal b.journal.items;
      spare = b.spare;
    } };

    // What decides replies is what the journal makes of the start, and its replies are the machine's. There are as many entries as calls,
    // and one part of the ledger for each seat that is left, and one more.

    ghost invariant = { λ b.
        Replays (T.skeleton b.trace) (T.copied b.start) (plain_journal b.journal.items)
        × T.ready b.trace
        × (b.calls.total ≡ vec_len b.journal)
        × (b.rest.parts ≡ b.spare + 1)
        × (b.rest.amount ≡ 0) };
}

/// There was no memory for a copy of the trace's start. The blank and the trace are those that were handed in.
#[derive(Drop)]
pub struct NotOpened<T> {
    /// The blank.
    pub blank: Blank,
    /// The trace.
    pub trace: T,
}

/// A trace after its book was closed, what it started from, and the journal.
#[derive(Drop)]
pub struct Closed<T: CarriesOut> {
    /// The trace.
    pub trace: T,
    /// What decided its replies when the book was opened.
    pub start: T::Start,
    /// Its steps since then.
    pub journal: Vec<Entry>,
}

fn again(reply: &Reply) -> Reply
    ensures { result ≡ reply.now }
{
    *reply
}

impl<L: Ledger, T: CarriesOut> Book<L, T> {
    /// A book over a trace. The blank has one part more than the book has seats.
    ///
    /// # Errors
    ///
    /// Out of memory: both come back.
    pub fn new(
        alloc: Global,
        blank: Blank,
        parts: u64,
        trace: T,
    ) -> Result<Book<L, T>, NotOpened<T>>
        requires name { blank.name ≡ L.name }
        requires parts { (blank.parts ≡ L.parts) × (blank.parts ≡ parts) × (0 < parts) }
        requires ready { T.ready trace }
        ensures ok { IfOk result (λ book. (book.trace ≡ trace) × (book.start ≡ T.skeleton trace) × (book.journal ≡ [])
            × (book.spare + 1 ≡ parts)) }
        ensures back { IfErr result (λ e. (e.blank ≡ blank) × (e.trace ≡ trace)) }
    {
        let start = match trace.start() {
            Ok(start) => start,
            Err(_) => return Err(NotOpened { blank, trace }),
        };
        let (calls, rest) = blank.open::<L>();
        Ok(Book {
            alloc,
            trace,
            start,
            journal: Vec::new(alloc),
            calls,
            rest,
            spare: parts - 1,
        })
    }

    /// One step of the trace by the seat of a lane, which is entered into the journal and the seat.
    ///
    /// # Errors
    ///
    /// Out of memory for the entries, whose room is made first: then nothing is done.
    #[tactic(auto, using(crate::proofs::Journals::journal_more, crate::proofs::Journals::calls_more))]
    pub fn perform(&mut self, seat: &mut Seat<L>, step: &Step) -> Result<Reply, AllocError>
        requires { IsOfLane seat.old.lane (any_step step.now) }
        ensures lane { seat.new.lane ≡ seat.old.lane }
        ensures kept { (self.new.start ≡ self.old.start) × (self.new.spare ≡ self.old.spare) }
        // The seat gets the step with its reply, and its share one more.
        ensures own { IfOk result (λ r. own_calls seat.new
            ≡ own_calls seat.old ++ record { step = any_step step.now; reply = r } ∷ []) }
        ensures share { IfOk result (λ r. seat.new.share.amount ≡ seat.old.share.amount + 1) }
        // The trace did the step; what decides its replies and the reply are the machine's, where it decides; and the journal says so.
        ensures did { IfOk result (λ r. (mask : _)
            × (self.new.journal ≡ self.old.journal
            ++ record { lane = seat.old.lane; step = any_step step.now; reply = r; mask = mask } ∷ [])
            × T.gives self.old.trace (any_step step.now) r mask self.new.trace
            × (T.skeleton self.new.trace ≡ next_by (counts r) (T.skeleton self.old.trace) (any_step step.now) mask)
            × (r ≡ reply_if (counts r) (T.skeleton self.old.trace) (any_step step.now) mask r)) }
        ensures err { OnErr result ((self.new.trace ≡ self.old.trace) × (self.new.journal ≡ self.old.journal)
            × (own_calls seat.new ≡ own_calls seat.old) × (seat.new.share.amount ≡ seat.old.share.amount)) }
    {
        self.journal.reserve(1)?;
        seat.own.reserve(1)?;
        let copy = step.clone()?;
        let kept = Arc::new(self.alloc, copy)?;
        let mine = Arc::clone(&kept)?;
        let Book {
            trace,
            journal,
            calls,
            ..
        } = self;
        let Seat {
            lane,
            share,
            own,
            ..
        } = seat;
        let (reply, mask) = trace.carry_out(step);
        journal.push_reserved(Entry {
            lane: *lane,
            step: kept,
            reply: again(&reply),
            mask,
        });
        own.push_reserved(Call {
            step: mine,
            reply: again(&reply),
        });
        calls.add(share, 1);
        Ok(reply)
    }

    /// A seat of a lane, while one is left.
    ///
    /// # Errors
    ///
    /// The trace has no such lane (`UnknownLane`), or no seat is left (`NoSeat`). Nothing changes then.
    pub fn seat(&mut self, lane: usize) -> Result<Seat<L>, SeatError>
        ensures ok { IfOk result (λ s. (s.lane ≡ lane) × (own_calls s ≡ []) × (self.new.spare + 1 ≡ self.old.spare)
            × (seat_refusal (T.skeleton self.old.trace) self.old.spare lane ≡ None)) }
        ensures err { IfErr result (λ e. (self.new ≡ self.old)
            × (seat_refusal (T.skeleton self.old.trace) self.old.spare lane ≡ Some e)) }
        ensures kept { (self.new.trace ≡ self.old.trace) × (self.new.journal ≡ self.old.journal)
            × (self.new.start ≡ self.old.start) }
    {
        if lane >= self.trace.lane_count() {
            return Err(SeatError::UnknownLane);
        }
        if self.spare == 0 {
            return Err(SeatError::NoSeat);
        }
        let alloc = self.alloc;
        let Book { rest, spare, .. } = self;
        *spare -= 1;
        let share = rest.split_off(1, 0);
        Ok(Seat::open(alloc, lane, share))
    }

    /// The trace with its journal, where the seats have the whole of it.
    ///
    /// # Errors
    ///
    /// They don't: the book and the seats come back.
    pub fn close(self, seats: Vec<Seat<L>>) -> Result<Closed<T>, (Book<L, T>, Vec<Seat<L>>)>
        ensures ok { IfOk result (λ c. Closes seats.items (plain_journal c.journal.items) × (c.trace ≡ self.trace)
            × (T.copied c.start ≡ self.start) × (plain_journal c.journal.items ≡ self.journal)
            × Replays (T.skeleton c.trace) (T.copied c.start) (plain_journal c.journal.items)) }
        ensures err { IfErr result (λ e. ¬ Closes seats.items self.journal × (e.0 ≡ self) × (e.1 ≡ seats)) }
    {
        if !closes(seats.as_slice(), self.journal.as_slice()) {
            return Err((self, seats));
        }
        let Book {
            alloc: _alloc,
            trace,
            start,
            journal,
            calls: _calls,
            rest: _rest,
            spare: _spare,
        } = self;
        Ok(Closed {
            trace,
            start,
            journal,
        })
    }
}
