//! What is kept once values were recorded of a span.
ghost use Rattle.std.specs.Prelude.{◌≡◌, None, false, is_some, true};
ghost use Rattle.span_registry_layers_layers.specs.Contexts.{span_in};
ghost use Rattle.span_registry_layers_layers.specs.FilterViews.{SameLoan, left, view};
ghost use Rattle.event_formatter_lines.specs.slots.SlotsByTag.{Leaves, by_tag, kept_by};
ghost use Rattle.event_formatter_lines.specs.slots.FieldsAndTimings.{kept_more, text_by};
ghost use Rattle.event_formatter_lines.specs.slots.SpanUpdates.{Rekeeps, kept_in};

use crate::slots::adding::add_list;
use crate::slots::own_fields::{put_fields, take_fields};
use crate::slots::own_slots::has_text;
use event_formatter_text::{FormatFields, RecordFields, Settings};
use span_registry_layers_layers::Context;
use span_registry_layers_store::{Extensions, OutputKey};
use std::alloc::Global;
use tracing_core_fields::Id;

// Keeps what the values make of the text that spans start with, and answers whether that found memory.
fn keep_begun<F: FormatFields, R: RecordFields>(
    alloc: Global,
    slots: &mut Extensions,
    key: OutputKey,
    settings: Settings,
    formatter: &F,
    fields: &R,
) -> bool
    requires { is_some (text_by (by_tag key.0 slots.old).text) ≡ false }
    ensures { Leaves (by_tag key.0 slots.old)
        (kept_more result (λ kept. F.added formatter.now kept (R.values fields.now))
        (F.started formatter.now settings) (kept_by (by_tag key.0 slots.old))) (by_tag key.0 slots.new) }
{
    let Ok(mut begun) = formatter.start(alloc, settings) else {
        return false;
    };
    add_list(alloc, &mut begun, formatter, fields) && put_fields(slots, key, begun)
}

// Adds the values to the fields that are kept in slots, and answers whether that found memory. The fields are taken out
// and put back, so that nothing is copied.
fn add_more<F: FormatFields, R: RecordFields>(
    alloc: Global,
    slots: &mut Extensions,
    key: OutputKey,
    settings: Settings,
    formatter: &F,
    fields: &R,
) -> bool
    ensures { Leaves (by_tag key.0 slots.old)
        (kept_more result (λ kept. F.added formatter.now kept (R.values fields.now))
        (F.started formatter.now settings) (kept_by (by_tag key.0 slots.old))) (by_tag key.0 slots.new) }
{
    if !has_text(slots, key) {
        return keep_begun(alloc, slots, key, settings, formatter, fields);
    }
    let Some(mut kept) = take_fields(alloc, slots, key) else {
        return false;
    };
    let is_added = add_list(alloc, &mut kept, formatter, fields);
    let _put = put_fields(slots, key, kept);
    is_added
}

/// Adds values that were recorded to what is kept of a span's fields, and answers whether that found memory. Without
/// memory nothing changes. Values that can't be formatted add nothing.
///
/// Where nothing is kept, they are added to the text that spans start with, in these settings. Nothing happens where the
/// context doesn't see the span.
pub fn add_record<F: FormatFields, R: RecordFields>(
    alloc: Global,
    context: &mut Context<'_>,
    span: &Id,
    key: OutputKey,
    settings: Settings,
    formatter: &F,
    fields: &R,
) -> bool
    ensures lent { SameLoan context.old context.new }
    ensures kept { let before = kept_in (view context.old) span.now key.0 in
        Rekeeps (view context.old) span.now key.0
        (kept_more result (λ kept. F.added formatter.now kept (R.values fields.now))
        (F.started formatter.now settings) before) (left context.new) }
    ensures unseen { span_in (view context.old) span.now ≡ None → result ≡ true }
{
    match context.extensions_mut(span) {
        None => true,
        Some(slots) => add_more(alloc, slots, key, settings, formatter, fields),
    }
}
