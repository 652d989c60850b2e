//! Open spans, in slots that are used again.

ghost use Rattle.std.specs.Prelude.{false, ◌≡◌, ◌<◌, ◌++◌, ◌∷◌, [], map, IfOk, MatchOption, OnErr, OnOk};
ghost use Rattle.std.specs.Borrow.{sem};
ghost use Rattle.std.specs.List.{AllByRecursion};
ghost use Rattle.std.specs.Option.{option_map};
ghost use Rattle.span_registry_layers_store.specs.Copies.{plain_row, row_of};
ghost use Rattle.span_registry_layers_store.specs.RegistryCalls.{ClosesFirst, GoesUnlessKept, handle_given_up, handle_taken};
ghost use Rattle.span_registry_layers_store.specs.Registries.{PlainSpan, kin_in, plain_span};
ghost use Rattle.span_registry_layers_store.specs.SlotLoans.{LendsSlotsOf, slots_of};
ghost use Rattle.span_registry_layers_store.specs.SpanSlots.{AreIndexed, CountChildren, before_only, entry_kin, goes, new_span, spans_in};
ghost use Rattle.span_registry_layers_store.specs.SpanSlots.{standing, stays_by};
ghost use Rattle.span_registry_layers_store.specs.Spans.{AllStay, Rises, found, handles_of, is_open, keeps, parent_of};
ghost use Rattle.span_registry_layers_store.specs.Views.{mask_of, seen_if};

use crate::extensions::Extensions;
use crate::filter_map::{FilterId, FilterMap};
use crate::index::{Entry, grow_hints, note_slot, tidy};
use crate::lanes::Lanes;
use crate::record::SpanRecord;
use crate::slot_index::SlotIndex;
use crate::slot_room::{make_room, occupy, vacate};
use crate::span::Span;
use crate::span_slot::SpanSlot;
use crate::table::{SpanRow, copy_spans};
use std::alloc::{AllocError, Global};
use std::marker::Model;
use std::sync::Arc;
use tracing_core_fields::{Id, OwnedMetadata, RequestError};

/// Open spans. A contract sees the list of them in order of making, so that ids rise.
///
/// Whoever calls can't see that ids rise, so methods after which that is needed say it (`rise`).
#[derive(Debug, Drop)]
pub(crate) struct Spans {
    alloc: Global,
    index: SlotIndex,
    /// Slots that hold no span.
    free: Vec<usize>,
}

impl Model for Spans {
    ghost use Rattle.std.specs.Prelude.{List};
    ghost use Rattle.span_registry_layers_store.specs.Registries.{PlainSpan};
    ghost use Rattle.span_registry_layers_store.specs.SpanSlots.{AreSound, spans_in};

    ghost Value = { List PlainSpan };

    ghost view = { λ s. spans_in s.index.slots.items s.index.entries.items };

    ghost invariant = { λ s. AreSound s.index.slots.items s.free s.index.entries.items };
}

/// Whether a span stays.
fn stays(lanes: &Lanes, slot: &SpanSlot) -> bool
    ensures { result ≡ stays_by lanes.now slot.now }
{
    slot.span.kin.handles > 0 || lanes.is_entered(slot.span.kin.id) || slot.children > 0
}

/// The parent, where it was made before the span.
fn parent_before(slot: &SpanSlot) -> Option<Id>
    ensures { result ≡ before_only slot.now.span.kin.id slot.now.span.kin.parent }
{
    match slot.span.kin.parent {
        None => None,
        Some(above) => {
            if above.into_u64() < slot.span.kin.id.into_u64() {
                Some(above)
            } else {
                None
            }
        }
    }
}

fn parent_of(slot: &SpanSlot) -> Option<Id>
    ensures { result ≡ slot.now.span.kin.parent }
{
    slot.span.kin.parent
}

// Whether an entry leads to an open span that doesn't stay.
fn goes(slots: &[SpanSlot], lanes: &Lanes, entry: &Entry) -> bool
    ensures { result ≡ goes slots.now lanes.now entry.now }
{
    match slots.get(entry.slot) {
        None => false,
        Some(slot) => {
            slot.is_open
                && slot.span.kin.id.into_u64() == entry.id.into_u64()
                && !stays(lanes, slot)
        }
    }
}

/// The latest open span that doesn't stay.
fn closing(slots: &[SpanSlot], index: &[Entry], lanes: &Lanes) -> Option<Id>
    requires rise { Rises entry_kin 0 index.now }
    requires indexed { AreIndexed slots.now index.now }
    requires children { CountChildren (standing slots.now index.now) }
    ensures { MatchOption result (AllStay kin_in lanes.now (spans_in slots.now index.now)) (λ id.
        ClosesFirst lanes.now (spans_in slots.now index.now) id
        × (keeps kin_in lanes.now (spans_in slots.now index.now) id ≡ false)) }
{
    let mut rest = index.len();
    while rest > 0 {
        rest -= 1;
        let entry = &index[rest];
        if goes(slots, lanes, entry) {
            return Some(entry.id);
        }
    }
    None
}

impl Spans {
    /// No span.
    pub(crate) fn new(alloc: Global) -> Spans
        ensures { result ≡ [] }
    {
        Spans {
            alloc,
            index: SlotIndex {
                slots: Vec::new(alloc),
                entries: Vec::new(alloc),
                hints: Vec::new(alloc),
            },
            free: Vec::new(alloc),
        }
    }

    /// A copy of all of them, without what outputs keep with them.
    pub(crate) fn rows(&self, alloc: Global) -> Result<Vec<SpanRow>, AllocError>
        ensures { IfOk result (λ rows. map plain_row rows.items ≡ map row_of self.now) }
    {
        copy_spans(
            alloc,
            self.index.slots.as_slice(),
            self.index.entries.as_slice(),
        )
    }

    /// The span of an id, where it is open.
    pub(crate) fn find(&self, id: Id) -> Option<&Span>
        ensures { option_map (λ s. plain_span s.now) result ≡ found kin_in self.now id }
    {
        match self.index.slot_of(id) {
            None => None,
            Some(slot) => Some(&self.index.slots[slot].span),
        }
    }

    /// Whether a span is open.
    pub(crate) fn is_open(&self, id: Id) -> bool
        ensures { result ≡ is_open kin_in self.now id }
    {
        self.index.slot_of(id).is_some()
    }

    /// The parent of a span, where it is open and has one.
    pub(crate) fn parent_of(&self, id: Id) -> Option<Id>
        ensures { result ≡ parent_of kin_in self.now id }
    {
        match self.find(id) {
            None => None,
            Some(span) => span.kin.parent,
        }
    }

    /// How many handles a span has, and 0 where it is not open.
    pub(crate) fn handles_of(&self, id: Id) -> usize
        ensures { result ≡ handles_of kin_in self.now id }
    {
        match self.find(id) {
            None => 0,
            Some(span) => span.kin.handles,
        }
    }

    /// Whether a span stays, or is not open.
    pub(crate) fn stays(&self, lanes: &Lanes, id: Id) -> bool
        ensures stays { result ≡ keeps kin_in lanes.now self.now id }
        ensures rise { Rises kin_in 0 self.now }
    {
        match self.index.slot_of(id) {
            None => true,
            Some(slot) => stays(lanes, &self.index.slots[slot]),
        }
    }

    /// The latest span that doesn't stay.
    pub(crate) fn closing(&self, lanes: &Lanes) -> Option<Id>
        ensures { MatchOption result (AllStay kin_in lanes.now self.now) (λ id.
            ClosesFirst lanes.now self.now id × (keeps kin_in lanes.now self.now id ≡ false)) }
    {
        closing(
            self.index.slots.as_slice(),
            self.index.entries.as_slice(),
            lanes,
        )
    }

    /// Adds a span that was made after all others.
    pub(crate) fn push(
        &mut self,
        kin: SpanRecord,
        metadata: Arc<OwnedMetadata>,
        passed: FilterMap,
    ) -> Result<(), AllocError>
        requires { AllByRecursion (λ (s : PlainSpan). s.kin.id < kin.id) self.old }
        ensures ok { OnOk result (self.new ≡ self.old ++ new_span kin metadata passed ∷ []) }
        ensures err { OnErr result (self.new ≡ self.old) }
    {
        let open_ones = self.index.slots.len().saturating_sub(self.free.len());
        tidy(
            self.index.slots.as_slice(),
            open_ones,
            &mut self.index.entries,
        );
        self.index.entries.reserve(1)?;
        make_room(&mut self.index.slots, &mut self.free)?;
        grow_hints(
            &mut self.index.hints,
            self.index.slots.as_slice(),
            &self.index.entries,
        );
        self.index.add_child(kin.parent);
        let id = kin.id;
        let slot = occupy(
            &mut self.index.slots,
            &mut self.free,
            self.alloc,
            kin,
            metadata,
            passed,
        );
        note_slot(&mut self.index.hints, id, slot);
        self.index.entries.push_reserved(Entry { id, slot });
        Ok(())
    }

    /// Takes a span out unless it stays, and answers its parent.
    pub(crate) fn close(&mut self, lanes: &Lanes, id: Id) -> Option<Option<Id>>
        ensures closes { GoesUnlessKept lanes.now self.old id result self.new }
        ensures rise { Rises kin_in 0 self.old }
    {
        let Some(slot) = self.index.slot_of(id) else {
            return None;
        };
        if stays(lanes, &self.index.slots[slot]) {
            return None;
        }
        let parent = parent_of(&self.index.slots[slot]);
        let counted = parent_before(&self.index.slots[slot]);
        vacate(&mut self.index.slots, &mut self.free, slot);
        self.index.drop_child(counted);
        Some(parent)
    }

    /// Counts one more handle of a span.
    pub(crate) fn take_one(&mut self, id: Id) -> Result<Id, RequestError>
        ensures { (result, self.new) ≡ handle_taken self.old id }
    {
        let Some(slot) = self.index.slot_of(id) else {
            return Err(RequestError::UnknownSpan);
        };
        if self.index.slots[slot].span.kin.handles == usize::MAX {
            return Err(RequestError::TooManyHandles);
        }
        self.index.slots[slot].span.kin.handles += 1;
        Ok(id)
    }

    /// Counts one handle of a span less.
    pub(crate) fn give_up(&mut self, id: Id) -> Result<(), RequestError>
        ensures { (result, self.new) ≡ handle_given_up self.old id }
    {
        let Some(slot) = self.index.slot_of(id) else {
            return Err(RequestError::UnknownSpan);
        };
        if self.index.slots[slot].span.kin.handles == 0 {
            return Err(RequestError::UnknownSpan);
        }
        self.index.slots[slot].span.kin.handles -= 1;
        Ok(())
    }

    /// What outputs keep with a span, to be changed, where it is open and the filter passed it.
    pub(crate) fn extensions_mut(
        &mut self,
        id: Id,
        filter: Option<FilterId>,
    ) -> Option<&mut Extensions>
        ensures lent { option_map (λ s. s.now) result
            ≡ option_map slots_of (seen_if (mask_of filter) (found kin_in self.old id)) }
        ensures* ends { sem 𝓛 (LendsSlotsOf self.entry id result) }
    {
        let slot = self.index.slot_to_lend(id, filter);
        match self.index.slots.get_mut(slot) {
            None => None,
            Some(slot) => Some(&mut slot.span.extensions),
        }
    }
}
