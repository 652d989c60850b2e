// Spans in slots and plain spans, which give equal answers to the same calls.

ghost use Rattle.std.specs.Prelude.{◌≡◌, ◌<◌, map, true};
ghost use Rattle.std.specs.List.{AllByRecursion};
ghost use Rattle.span_registry_layers_store.specs.Copies.{PlainRow, plain_row};

use super::plain::PlainSpans;
use super::script::next;
use super::*;
use crate::lanes::{Lanes, drop_entry, push_entry};
use crate::record::SpanRecord;
use crate::spans::Spans;
use crate::table::SpanRow;
use crate::{FilterId, OutputKey, Slot, Tag};
use std::alloc::AllocError;
use std::sync::Arc;
use tracing_core_fields::OwnedMetadata;

/// Both, with the lanes that each is asked with, and the greatest id so far.
#[derive(Drop)]
struct Both {
    slots: Spans,
    plain: PlainSpans,
    lanes: Lanes,
    plain_lanes: Vec<Vec<Id>>,
    metadata: Arc<OwnedMetadata>,
    last: u64,
}

fn nothing_yet(alloc: Global) -> Result<Both, AllocError> {
    let metadata = span_metadata("a");
    // The proof of this function needs a call with a `FieldSet` in its type.
    let _fields = metadata.fields();
    let metadata = Arc::new(alloc, OwnedMetadata::new(alloc, &metadata)?)?;
    Ok(Both {
        slots: Spans::new(alloc),
        plain: PlainSpans::new(alloc),
        lanes: Lanes::new(alloc),
        plain_lanes: Vec::new(alloc),
        metadata,
        last: 0,
    })
}

/// Whether an id is above those of all rows.
fn is_past(rows: &[SpanRow], id: Id) -> bool
    ensures { result ≡ true → AllByRecursion (λ (r : PlainRow). r.kin.id < id) (map plain_row rows.now) }
{
    for row in rows {
        if row.kin.id.into_u64() >= id.into_u64() {
            return false;
        }
    }
    true
}

/// The verdicts of a span: each other one is refused by the first filter.
fn verdicts(id: Id) -> FilterMap {
    FilterMap::all().with(FilterId { index: 0 }, id.into_u64() & 1 == 0)
}

/// Adds a span to those in slots, where its id is above theirs.
fn push_slots(
    spans: &mut Spans,
    kin: SpanRecord,
    metadata: Arc<OwnedMetadata>,
    alloc: Global,
) -> Result<bool, AllocError> {
    let rows = spans.rows(alloc)?;
    let id = kin.id;
    if is_past(rows.as_slice(), id) {
        spans.push(kin, metadata, verdicts(id))?;
        Ok(true)
    } else {
        Ok(false)
    }
}

/// Adds a span to the plain ones, where its id is above theirs.
fn push_plain(
    spans: &mut PlainSpans,
    kin: SpanRecord,
    metadata: Arc<OwnedMetadata>,
    alloc: Global,
) -> Result<bool, AllocError> {
    let rows = spans.rows(alloc)?;
    let id = kin.id;
    if is_past(rows.as_slice(), id) {
        spans.push(kin, metadata, verdicts(id))?;
        Ok(true)
    } else {
        Ok(false)
    }
}

/// Keeps the id with its span. Answers whether nothing was kept with the span before.
fn mark(spans: &mut Spans, id: Id) -> bool {
    match spans.extensions_mut(id, None) {
        None => false,
        Some(kept) => kept
            .insert(OutputKey(1), Tag::Number, Slot::Number(id.into_u64()))
            .is_ok(),
    }
}

/// Whether the id is kept with its span, and nothing with a span that isn't open.
fn is_marked(spans: &Spans, id: Id) -> bool {
    match spans.find(id) {
        None => !spans.is_open(id),
        Some(span) => match span.extensions.get(OutputKey(1), Tag::Number) {
            Some(Slot::Number(number)) => *number == id.into_u64() && span.kin.id == id,
            _ => false,
        },
    }
}

/// Makes a span in both. Answers whether both took it, with nothing kept of it yet.
fn make_both(
    both: &mut Both,
    id: Id,
    parent: Option<Id>,
    handles: usize,
    alloc: Global,
) -> Result<bool, AllocError> {
    let (first, second) = (Arc::clone(&both.metadata)?, Arc::clone(&both.metadata)?);
    let kin = SpanRecord {
        id,
        parent,
        handles,
    };
    let in_slots = push_slots(&mut both.slots, kin, first, alloc)?;
    let in_plain = push_plain(&mut both.plain, kin, second, alloc)?;
    both.last = id.into_u64();
    Ok(in_slots && in_plain && mark(&mut both.slots, id))
}

/// Whether both answer alike of an id.
fn agree_on(both: &Both, id: Id) -> bool {
    let lanes = both.plain_lanes.as_slice();
    both.slots.is_open(id) == both.plain.is_open(id)
        && both.slots.parent_of(id) == both.plain.parent_of(id)
        && both.slots.handles_of(id) == both.plain.handles_of(id)
        && both.slots.stays(&both.lanes, id) == both.plain.stays(lanes, id)
        && is_marked(&both.slots, id)
}

fn is_same_row(row: &SpanRow, other: &SpanRow) -> bool {
    row.kin.id == other.kin.id
        && row.kin.parent == other.kin.parent
        && row.kin.handles == other.kin.handles
        && row.passed == other.passed
}

fn are_same_rows(rows: &[SpanRow], others: &[SpanRow]) -> bool {
    for (place, row) in rows.iter().enumerate() {
        match others.get(place) {
            None => return false,
            Some(other) => {
                if !is_same_row(row, other) {
                    return false;
                }
            }
        }
    }
    rows.len() == others.len()
}

/// Whether both answer alike of all.
fn agree(both: &Both, alloc: Global) -> Result<bool, AllocError> {
    for number in 1..both.last.saturating_add(2) {
        if let Some(id) = Id::from_u64(number)
            && !agree_on(both, id)
        {
            return Ok(false);
        }
    }
    let (rows, others) = (both.slots.rows(alloc)?, both.plain.rows(alloc)?);
    let lanes = both.plain_lanes.as_slice();
    Ok(
        are_same_rows(rows.as_slice(), others.as_slice())
            && both.slots.closing(&both.lanes) == both.plain.closing(lanes),
    )
}

/// Takes the span out of both, unless it stays. Answers whether they name the same parent.
fn remove_both(both: &mut Both, id: Id) -> bool {
    let stays = both.plain.stays(both.plain_lanes.as_slice(), id);
    match both.slots.close(&both.lanes, id) {
        None => stays,
        Some(above) => !stays && above == both.plain.remove(id),
    }
}

/// Closes what closes next, in both.
fn close_both(both: &mut Both) -> bool {
    match both.slots.closing(&both.lanes) {
        None => both.plain.closing(both.plain_lanes.as_slice()).is_none(),
        Some(id) => remove_both(both, id),
    }
}

/// Makes a span in both, or enters one, or leaves it.
fn first_calls(both: &mut Both, call: u64, lane: u64, id: Id, alloc: Global) -> Result<bool, Fail> {
    match call {
        0 => {
            both.lanes.remove(lane, id);
            let _was_there = drop_entry(&mut both.plain_lanes, lane, id);
        }
        1 => {
            if both.slots.is_open(id) {
                both.lanes.push(lane, id)?;
                push_entry(alloc, &mut both.plain_lanes, lane, id)?;
            }
        }
        _ => {
            let made = both.last.saturating_add(lane).saturating_add(1);
            let parent = if lane == 0 { None } else { Some(id) };
            let made = Id::from_u64(made).ok_or("an id")?;
            return Ok(make_both(both, made, parent, (call & 1) as usize, alloc)?);
        }
    }
    Ok(true)
}

/// Makes one call on both, and answers whether they agree on its answer.
fn step(both: &mut Both, seed: &mut u64, alloc: Global) -> Result<bool, Fail> {
    let lane = next(seed, 3);
    let bound = both.last.saturating_add(2);
    let id = Id::from_u64(next(seed, bound).saturating_add(1)).ok_or("an id")?;
    match next(seed, 9) {
        0 => Ok(remove_both(both, id)),
        1 | 2 => Ok(close_both(both)),
        3 => Ok(both.slots.take_one(id) == both.plain.take_one(id)),
        4 => Ok(both.slots.give_up(id) == both.plain.give_up(id)),
        call => first_calls(both, call.saturating_sub(5), lane, id, alloc),
    }
}

/// Makes some calls on both, and answers after how many they agreed.
fn run(seed: u64, calls: u64, alloc: Global) -> Result<u64, Fail> {
    let mut both = nothing_yet(alloc)?;
    let mut seed = seed;
    let mut agreed: u64 = 0;
    for _call in 0..calls {
        if step(&mut both, &mut seed, alloc)? && agree(&both, alloc)? {
            agreed = agreed.wrapping_add(1);
        }
    }
    Ok(agreed)
}

#[test]
fn slots_agree_with_plain_spans(rt: HostRuntime) -> Result<(), Fail> {
    for seed in 0..30 {
        assert!(rt; run(seed, 200, rt.alloc())? == 200);
    }
    Ok(())
}

/// Makes a span in a registry and in both, and closes it. Answers its id, where all agree.
fn come_and_go(
    registry: &mut Registry,
    both: &mut Both,
    alloc: Global,
) -> Result<Option<Id>, Fail> {
    let id = make(registry, "a", 0)?;
    let made = make_both(both, id, None, 0, alloc)?;
    let agreed = made && agree_on(both, id) && close_both(both) && !both.plain.is_open(id);
    let closed = registry.try_close(id) == Ok(true);
    Ok(if agreed && agree_on(both, id) && closed {
        Some(id)
    } else {
        None
    })
}

#[test]
fn each_of_many_spans_closes_before_the_next_is_made(rt: HostRuntime) -> Result<(), Fail> {
    let mut registry = Registry::new(rt.alloc());
    let mut both = nothing_yet(rt.alloc())?;
    for number in 1..10_001 {
        let id = come_and_go(&mut registry, &mut both, rt.alloc())?;
        assert!(rt; id.map(|id| id.into_u64()) == Some(number));
    }
    assert!(rt; both.last == 10_000 && agree(&both, rt.alloc())?);
    Ok(())
}

/// Any id so far.
fn any_id(both: &Both, seed: &mut u64) -> Result<Id, Fail> {
    Ok(Id::from_u64(next(seed, both.last).saturating_add(1)).ok_or("an id")?)
}

/// Makes one more span in both, below any other one.
fn one_more(both: &mut Both, seed: &mut u64, alloc: Global) -> Result<bool, Fail> {
    let parent = any_id(both, seed)?;
    let made = Id::from_u64(both.last.saturating_add(1)).ok_or("an id")?;
    let is_made = make_both(both, made, Some(parent), 1, alloc)?;
    Ok(is_made && agree_on(both, parent) && agree_on(both, made))
}

/// Gives up the handle of any span, if it is still there, and takes the span out, unless it has children.
fn any_goes(both: &mut Both, seed: &mut u64) -> Result<bool, Fail> {
    let id = any_id(both, seed)?;
    let is_given_up = both.slots.give_up(id) == both.plain.give_up(id);
    Ok(is_given_up && remove_both(both, id) && agree_on(both, id))
}

#[test]
fn any_of_many_spans_go_while_others_come(rt: HostRuntime) -> Result<(), Fail> {
    let mut both = nothing_yet(rt.alloc())?;
    let mut seed = 1;
    for _made in 0..300 {
        assert!(rt; one_more(&mut both, &mut seed, rt.alloc())?);
    }
    for _turn in 0..900 {
        assert!(rt; any_goes(&mut both, &mut seed)? && any_goes(&mut both, &mut seed)?);
        assert!(rt; one_more(&mut both, &mut seed, rt.alloc())?);
    }
    assert!(rt; agree(&both, rt.alloc())?);
    Ok(())
}
