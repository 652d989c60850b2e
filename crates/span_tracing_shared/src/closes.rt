//! Whether seats have a whole journal.
ghost use Rattle.std.specs.Prelude.{◌≡◌, ◌↔◌, IsTrue};
ghost use Rattle.span_tracing_shared.specs.Closing.{Alone, Closes};
ghost use Rattle.span_tracing_shared.specs.Entries.{call_of, calls_of, plain_call, plain_calls, plain_entry, plain_journal};

use crate::call::Call;
use crate::entry::Entry;
use crate::seat::Seat;
use span_tracing_skeleton::{Reply, SpanName};
use std::sync::ledger::Ledger;

#[tactic(auto, using(span_tracing_skeleton::proofs::SpanNames::one_name))]
fn is_same_name(one: &SpanName, other: &SpanName) -> bool
    ensures { IsTrue result ↔ one.now ≡ other.now }
{
    one.stack == other.stack && one.id.get() == other.id.get()
}

fn is_same_span(one: &Option<SpanName>, other: &Option<SpanName>) -> bool
    ensures { IsTrue result ↔ one.now ≡ other.now }
{
    match (one, other) {
        (None, None) => true,
        (Some(a), Some(b)) => is_same_name(a, b),
        (_, _) => false,
    }
}

// Whether two replies are one.
fn is_same_reply(one: &Reply, other: &Reply) -> bool
    ensures { IsTrue result ↔ one.now ≡ other.now }
{
    match (one, other) {
        (Reply::Done, Reply::Done) => true,
        (Reply::Enabled(a), Reply::Enabled(b)) => *a == *b,
        (Reply::Span(a), Reply::Span(b)) => is_same_span(a, b),
        (Reply::Closed(a), Reply::Closed(b)) => *a == *b,
        (Reply::Handle(a), Reply::Handle(b)) => *a == *b,
        (Reply::Guard(a), Reply::Guard(b)) => *a == *b,
        (Reply::Worked(a), Reply::Worked(b)) => *a == *b,
        (Reply::Refused(a), Reply::Refused(b)) => *a == *b,
        _ => false,
    }
}

// Whether a call stands for an entry.
fn is_call(call: &Call, entry: &Entry) -> bool
    ensures { IsTrue result ↔ plain_call call.now ≡ call_of (plain_entry entry.now) }
{
    call.step.is_same(&entry.step) && is_same_reply(&call.reply, &entry.reply)
}

// Whether the calls are those of a lane in the journal.
fn is_own(own: &[Call], lane: usize, journal: &[Entry]) -> bool
    ensures { IsTrue result ↔ plain_calls own.now ≡ calls_of lane (plain_journal journal.now) }
{
    let mut left = own;
    let mut rest = journal;
    while let [entry, later @ ..] = rest {
        rest = later;
        if entry.lane == lane {
            let [call, others @ ..] = left else {
                return false;
            };
            if !is_call(call, entry) {
                return false;
            }
            left = others;
        }
    }
    left.is_empty()
}

// Whether no other seat of a lane that was used is among these.
fn is_alone<L: Ledger>(seat: &Seat<L>, others: &[Seat<L>]) -> bool
    ensures { IsTrue result ↔ Alone seat.now others.now }
{
    let mut rest = others;
    while let [other, later @ ..] = rest {
        rest = later;
        let used = !seat.calls().is_empty() || !other.calls().is_empty();
        if other.lane() == seat.lane() && used {
            return false;
        }
    }
    true
}

/// Whether the seats have the whole journal.
pub(crate) fn closes<L: Ledger>(seats: &[Seat<L>], journal: &[Entry]) -> bool
    ensures { IsTrue result ↔ Closes seats.now (plain_journal journal.now) }
{
    let mut left = journal.len();
    let mut rest = seats;
    while let [seat, later @ ..] = rest {
        rest = later;
        let own = seat.calls();
        if own.len() > left || !is_own(own, seat.lane(), journal) || !is_alone(seat, later) {
            return false;
        }
        left -= own.len();
    }
    left == 0
}
