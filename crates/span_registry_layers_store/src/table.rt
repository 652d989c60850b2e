//! A copy of what a registry keeps, as plain data.
ghost use Rattle.std.specs.Prelude.{◌≡◌, ◌++◌, ◌∷◌, [], IfOk, OnOk, map};
ghost use Rattle.span_registry_layers_store.specs.Copies.{plain_row, row_of};
ghost use Rattle.span_registry_layers_store.specs.Lanes.{plain_lanes};
ghost use Rattle.span_registry_layers_store.specs.Registries.{plain_span};
ghost use Rattle.span_registry_layers_store.specs.SpanSlots.{spans_in};

use crate::filter_map::FilterMap;
use crate::index::Entry;
use crate::record::SpanRecord;
use crate::span::Span;
use crate::span_slot::SpanSlot;
use std::alloc::{AllocError, Global};
use std::sync::Arc;
use tracing_core_fields::{Id, OwnedMetadata};

/// An open span, without what outputs keep with it.
#[derive(Debug, Drop)]
pub struct SpanRow {
    /// Its id, its parent, and how many handles it has.
    pub kin: SpanRecord,
    /// The metadata that it was made with.
    pub metadata: Arc<OwnedMetadata>,
    /// Which filters passed it.
    pub passed: FilterMap,
}

/// A copy of what a registry keeps.
#[derive(Debug, Drop)]
pub struct RegistryTable {
    /// The open spans, in order of making.
    pub spans: Vec<SpanRow>,
    /// The entries of each lane, the earliest first. Lanes after the last one that was ever entered are missing.
    pub lanes: Vec<Vec<Id>>,
    /// The id of the next span; none where all ids were given.
    pub next_id: Option<Id>,
    /// How many filters are registered.
    pub filters: u8,
}

#[tactic(auto, using(crate::proofs::Lists::map_more))]
/// Adds the row of a span.
pub(crate) fn push_row(rows: &mut Vec<SpanRow>, span: &Span) -> Result<(), AllocError>
    ensures { OnOk result (map plain_row rows.new.items ≡ map plain_row rows.old.items ++ row_of (plain_span span.now) ∷ []) }
{
    rows.push(SpanRow {
        kin: span.kin,
        metadata: Arc::clone(&span.metadata)?,
        passed: span.passed,
    })?;
    Ok(())
}

// Adds the row of the span that an entry leads to, where it is open.
fn push_entry_row(
    rows: &mut Vec<SpanRow>,
    slots: &[SpanSlot],
    entry: &Entry,
) -> Result<(), AllocError>
    ensures { OnOk result (map plain_row rows.new.items
        ≡ map plain_row rows.old.items ++ map row_of (spans_in slots.now (entry.now ∷ []))) }
{
    if !entry.leads(slots) {
        return Ok(());
    }
    push_row(rows, &slots[entry.slot].span)
}

pub(crate) fn copy_spans(
    alloc: Global,
    slots: &[SpanSlot],
    index: &[Entry],
) -> Result<Vec<SpanRow>, AllocError>
    ensures { IfOk result (λ rows. map plain_row rows.items ≡ map row_of (spans_in slots.now index.now)) }
{
    let mut rows = Vec::new(alloc);
    for entry in index {
        push_entry_row(&mut rows, slots, entry)?;
    }
    Ok(rows)
}

#[tactic(auto, using(crate::proofs::Lists::map_more))]
pub(crate) fn copy_lanes(alloc: Global, lanes: &[Vec<Id>]) -> Result<Vec<Vec<Id>>, AllocError>
    ensures { IfOk result (λ copy. plain_lanes copy.items ≡ plain_lanes lanes.now) }
{
    let mut copy = Vec::new(alloc);
    for lane in lanes {
        let mut entries = Vec::new(alloc);
        entries.extend_from_slice(lane.as_slice())?;
        copy.push(entries)?;
    }
    Ok(copy)
}
