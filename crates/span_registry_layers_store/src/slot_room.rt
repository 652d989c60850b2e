//! Slots of spans that are taken and let go.

ghost use Rattle.std.specs.Prelude.{◌≡◌, ◌<◌, ◌≤◌, ◌++◌, ◌∷◌, [], length, OnOk, vec_capacity};
ghost use Rattle.span_registry_layers_store.specs.SpanSlots.{Apart, AreFree, IsVacated, TakesSlot, fresh};

use crate::extensions::Extensions;
use crate::filter_map::FilterMap;
use crate::record::SpanRecord;
use crate::span::Span;
use crate::span_slot::SpanSlot;
use std::alloc::{AllocError, Global};
use std::sync::Arc;
use tracing_core_fields::OwnedMetadata;

/// Makes room for one more span, and for its slot among the free ones.
pub(crate) fn make_room(slots: &mut Vec<SpanSlot>, free: &mut Vec<usize>) -> Result<(), AllocError>
    requires { length slots.old.items ≤ vec_capacity free.old }
    ensures slots { slots.new.items ≡ slots.old.items }
    ensures free { free.new.items ≡ free.old.items }
    ensures fits { length slots.new.items ≤ vec_capacity free.new }
    ensures room { OnOk result (free.new.items ≡ [] →
        (length slots.new.items < vec_capacity slots.new) × (length slots.new.items < vec_capacity free.new)) }
{
    if !free.is_empty() {
        return Ok(());
    }
    slots.reserve(1)?;
    free.reserve(slots.capacity())?;
    Ok(())
}

/// Puts a span into a free slot, or into a new one.
pub(crate) fn occupy(
    slots: &mut Vec<SpanSlot>,
    free: &mut Vec<usize>,
    alloc: Global,
    kin: SpanRecord,
    metadata: Arc<OwnedMetadata>,
    passed: FilterMap,
) -> usize
    requires room { free.old.items ≡ [] →
        (length slots.old.items < vec_capacity slots.old) × (length slots.old.items < vec_capacity free.old) }
    requires fits { length slots.old.items ≤ vec_capacity free.old }
    requires free { AreFree slots.old.items free.old.items }
    requires apart { Apart free.old.items }
    ensures { TakesSlot slots.old.items free.old (fresh kin metadata passed) result slots.new.items free.new }
{
    match free.pop() {
        Some(slot) => {
            slots[slot].take(kin, metadata, passed);
            slot
        }
        None => {
            let slot = slots.len();
            let span = Span {
                kin,
                metadata,
                passed,
                extensions: Extensions::new(alloc),
            };
            slots.push_reserved(SpanSlot {
                span,
                is_open: true,
                children: 0,
            });
            slot
        }
    }
}

/// Lets the span of a slot go, and counts the slot among the free ones.
pub(crate) fn vacate(slots: &mut Vec<SpanSlot>, free: &mut Vec<usize>, slot: usize)
    requires within { slot < length slots.old.items }
    requires room { length free.old.items < vec_capacity free.old }
    ensures slots { IsVacated slots.old.items slot slots.new.items }
    ensures free { free.new.items ≡ free.old.items ++ slot ∷ [] }
    ensures capacity { vec_capacity free.new ≡ vec_capacity free.old }
{
    slots[slot].let_go();
    free.push_reserved(slot);
}
