//! Spans in slots, which are found by the spans' ids.

ghost use Rattle.std.specs.Prelude.{◌≡◌, MatchOption, None};
ghost use Rattle.span_registry_layers_store.specs.SlotLoans.{IsSpanToLend};
ghost use Rattle.span_registry_layers_store.specs.SpanSlots.{AreIndexed, ChangesCounts, CountsFit, IsSlotOf, entry_kin, less_children};
ghost use Rattle.span_registry_layers_store.specs.SpanSlots.{more_children, slot_kin, standing};
ghost use Rattle.span_registry_layers_store.specs.Spans.{Rises, found};
ghost use Rattle.span_registry_layers_store.specs.Views.{mask_of};

use crate::filter_map::FilterId;
use crate::index::{Entry, note_slot, slot_by_halves, slot_by_hint};
use crate::parts::is_seen;
use crate::span_slot::SpanSlot;
use std::alloc::Global;
use tracing_core_fields::Id;

/// Slots of spans, and what finds them by the spans' ids.
#[derive(Debug, Drop)]
pub(crate) struct SlotIndex {
    pub(crate) slots: Vec<SpanSlot>,
    /// The slots of spans, in order of the spans' ids. There may be entries of spans that are closed.
    pub(crate) entries: Vec<Entry>,
    /// Which slots spans stand in, by the remainder of their ids. They are looked at, and may be wrong. They have 32 bits, so that an
    /// open span takes less memory: a span in a later slot is looked for by halves.
    pub(crate) hints: Vec<u32>,
}

impl SlotIndex {
    /// The slot of a span, where it is open. Where the hint for it names another one, it is looked for by halves.
    #[inline(always)]
    pub(crate) fn slot_of(&self, id: Id) -> Option<usize>
        requires rise { Rises entry_kin 0 self.now.entries.items }
        requires indexed { AreIndexed self.now.slots.items self.now.entries.items }
        ensures { MatchOption result (found slot_kin (standing self.now.slots.items self.now.entries.items) id ≡ None) (λ slot.
            IsSlotOf self.now.slots.items self.now.entries.items id slot) }
    {
        match slot_by_hint(self.slots.as_slice(), self.hints.as_slice(), id) {
            Some(slot) => Some(slot),
            None => slot_by_halves(self.slots.as_slice(), self.entries.as_slice(), id),
        }
    }

    /// Counts one more child of the parent, where there is one and it is open. Its slot is noted again.
    pub(crate) fn add_child(&mut self, parent: Option<Id>)
        requires rise { Rises entry_kin 0 self.old.entries.items }
        requires indexed { AreIndexed self.old.slots.items self.old.entries.items }
        requires few { CountsFit self.old.slots.items self.old.entries.items }
        ensures counts { ChangesCounts (λ ss. more_children ss parent) self.old.slots self.new.slots self.old.entries.items }
        ensures entries { self.new.entries ≡ self.old.entries }
    {
        let Some(id) = parent else {
            return;
        };
        if let Some(slot) = self.slot_of(id) {
            self.slots[slot].add_child();
            note_slot(&mut self.hints, id, slot);
        }
    }

    /// Counts one child of the parent less, where there is one and it is open.
    pub(crate) fn drop_child(&mut self, parent: Option<Id>)
        requires rise { Rises entry_kin 0 self.old.entries.items }
        requires indexed { AreIndexed self.old.slots.items self.old.entries.items }
        ensures counts { ChangesCounts (λ ss. less_children ss parent) self.old.slots self.new.slots self.old.entries.items }
        ensures entries { self.new.entries ≡ self.old.entries }
    {
        let Some(id) = parent else {
            return;
        };
        if let Some(slot) = self.slot_of(id) {
            self.slots[slot].drop_child();
        }
    }

    /// The slot of a span, and the end where it is not open or the filter refused it.
    pub(crate) fn slot_to_lend(&self, id: Id, filter: Option<FilterId>) -> usize
        requires rise { Rises entry_kin 0 self.now.entries.items }
        requires indexed { AreIndexed self.now.slots.items self.now.entries.items }
        ensures { IsSpanToLend self.now.slots.items self.now.entries.items (mask_of filter) id result }
    {
        match self.slot_of(id) {
            None => self.slots.len(),
            Some(slot) => {
                if is_seen(&self.slots[slot].span, filter) {
                    slot
                } else {
                    self.slots.len()
                }
            }
        }
    }
}
