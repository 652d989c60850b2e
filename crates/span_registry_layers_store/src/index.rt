//! Which slot a span stands in, by its id.

ghost use Rattle.std.specs.Prelude.{◌≡◌, IfSome, MatchOption, None, slice_get, true};
ghost use Rattle.span_registry_layers_store.specs.SpanSlots.{AreIndexed, EndsOpen, IsEntryPlace, IsSlotOf, entry_kin, holds_in, leads};
ghost use Rattle.span_registry_layers_store.specs.SpanSlots.{slot_kin, standing};
ghost use Rattle.span_registry_layers_store.specs.Spans.{Rises, found};

use crate::span_slot::SpanSlot;
use tracing_core_fields::Id;

/// A span that was open, and the slot that it stood in. It is open as long as it stands there.
#[derive(Clone, Copy, Debug, Drop)]
pub(crate) struct Entry {
    pub(crate) id: Id,
    pub(crate) slot: usize,
}

// Whether the span of an id stands in a slot.
#[inline(always)]
fn holds(slots: &[SpanSlot], id: Id, slot: usize) -> bool
    ensures { result ≡ holds_in id (slice_get slots.now slot) }
{
    match slots.get(slot) {
        None => false,
        Some(slot) => slot.is_open && slot.span.kin.id.into_u64() == id.into_u64(),
    }
}

impl Entry {
    /// Whether the span still stands in its slot.
    pub(crate) fn leads(&self, slots: &[SpanSlot]) -> bool
        ensures { result ≡ leads slots.now self.now }
    {
        holds(slots, self.id, self.slot)
    }
}

// Where the hint for an id lies, among so many hints.
#[inline(always)]
fn hint_of(count: usize, id: Id) -> usize {
    (id.into_u64() as usize) & count.wrapping_sub(1)
}

/// The slot that the hint for an id names, where the span stands there.
#[inline(always)]
pub(crate) fn slot_by_hint(slots: &[SpanSlot], hints: &[u32], id: Id) -> Option<usize>
    ensures { IfSome result (λ slot. holds_in id (slice_get slots.now slot) ≡ true) }
{
    let slot = *hints.get(hint_of(hints.len(), id))? as usize;
    if holds(slots, id, slot) {
        Some(slot)
    } else {
        None
    }
}

fn place_by_halves(index: &[Entry], id: Id) -> Option<usize>
    requires { Rises entry_kin 0 index.now }
    ensures { MatchOption result (found entry_kin index.now id ≡ None) (λ place. IsEntryPlace index.now id place) }
{
    match index.binary_search_by_key(&id.into_u64(), |entry| entry.id.into_u64()) {
        Ok(place) => Some(place),
        Err(_) => None,
    }
}

/// The slot of a span, where it is open, looked for by halves. Apart, so that callers stay small.
#[inline(never)]
pub(crate) fn slot_by_halves(slots: &[SpanSlot], index: &[Entry], id: Id) -> Option<usize>
    requires { Rises entry_kin 0 index.now }
    ensures { MatchOption result (found slot_kin (standing slots.now index.now) id ≡ None) (λ slot.
        IsSlotOf slots.now index.now id slot) }
{
    match place_by_halves(index, id) {
        None => None,
        Some(place) => {
            let entry = index[place];
            if entry.leads(slots) {
                Some(entry.slot)
            } else {
                None
            }
        }
    }
}

/// Takes out the last entries as far as they lead to no open span.
fn drop_last(slots: &[SpanSlot], index: &mut Vec<Entry>)
    requires rise { Rises entry_kin 0 index.old.items }
    requires indexed { AreIndexed slots.now index.old.items }
    ensures same { standing slots.now index.new.items ≡ standing slots.now index.old.items }
    ensures rise { Rises entry_kin 0 index.new.items }
    ensures indexed { AreIndexed slots.now index.new.items }
    ensures last { EndsOpen slots.now index.new.items }
{
    while let Some(entry) = index.as_slice().last() {
        if entry.leads(slots) {
            return;
        }
        let _entry = index.pop();
    }
}

/// Takes out the entries that lead to no open span.
fn drop_closed(slots: &[SpanSlot], index: &mut Vec<Entry>)
    requires rise { Rises entry_kin 0 index.old.items }
    requires indexed { AreIndexed slots.now index.old.items }
    ensures same { standing slots.now index.new.items ≡ standing slots.now index.old.items }
    ensures rise { Rises entry_kin 0 index.new.items }
    ensures indexed { AreIndexed slots.now index.new.items }
{
    index.retain(|entry| entry.leads(slots));
}

/// Takes out such entries at the end, and all of them where they fill at least half of the memory that is there.
pub(crate) fn tidy(slots: &[SpanSlot], open_ones: usize, index: &mut Vec<Entry>)
    requires rise { Rises entry_kin 0 index.old.items }
    requires indexed { AreIndexed slots.now index.old.items }
    ensures same { standing slots.now index.new.items ≡ standing slots.now index.old.items }
    ensures rise { Rises entry_kin 0 index.new.items }
    ensures indexed { AreIndexed slots.now index.new.items }
    ensures last { EndsOpen slots.now index.new.items }
{
    if index.len() == index.capacity() && open_ones <= index.len() / 2 {
        drop_closed(slots, index);
    }
    drop_last(slots, index);
}

/// Notes which slot a span stands in, where that is a number of 32 bits. The hint of another id may lie there, which is then looked for by
/// halves.
#[inline(always)]
pub(crate) fn note_slot(hints: &mut Vec<u32>, id: Id, slot: usize) {
    let Ok(slot) = u32::try_from(slot) else {
        return;
    };
    let hint = hint_of(hints.len(), id);
    if let Some(hint) = hints.get_mut(hint) {
        *hint = slot;
    }
}

// The least number of hints. Their numbers are powers of two, as those of the places in the index are.
const LEAST_HINTS: usize = 64;

// Makes so many hints, and notes the slot of each open span. Without memory there are as many as before.
#[inline(never)]
fn more_hints(hints: &mut Vec<u32>, room: usize, slots: &[SpanSlot], index: &Vec<Entry>) {
    if hints.resize(room, 0).is_err() {
        return;
    }
    for entry in index {
        if entry.leads(slots) {
            note_slot(hints, entry.id, entry.slot);
        }
    }
}

/// Makes more hints where the index has more room than there are hints.
#[inline(always)]
pub(crate) fn grow_hints(hints: &mut Vec<u32>, slots: &[SpanSlot], index: &Vec<Entry>) {
    let room = index.capacity().max(LEAST_HINTS);
    if hints.len() < room {
        more_hints(hints, room, slots, index);
    }
}
