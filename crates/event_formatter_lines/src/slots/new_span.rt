//! What is kept of a new span.
ghost use Rattle.std.specs.Prelude.{◌≡◌, None, true};
ghost use Rattle.span_registry_layers_layers.specs.Contexts.{span_in};
ghost use Rattle.span_registry_layers_layers.specs.FilterViews.{SameLoan, left, view};
ghost use Rattle.event_formatter_text.specs.SpanFields.{plain_fields};
ghost use Rattle.event_formatter_lines.specs.slots.SlotsByTag.{Leaves, PutsTimings, by_tag};
ghost use Rattle.event_formatter_lines.specs.slots.FieldsAndTimings.{is_whole, kept_alone, kept_first};
ghost use Rattle.event_formatter_lines.specs.slots.SpanUpdates.{Rekeeps};

use crate::slots::adding::add_list;
use crate::slots::first_text::FirstText;
use crate::slots::own_fields::put_fields;
use crate::slots::own_slots::{put, take};
use event_formatter_text::{FormatFields, FormattedFields, RecordFields, Settings};
use span_registry_layers_layers::Context;
use span_registry_layers_store::{Extensions, OutputKey, Slot, Tag, Timings};
use std::alloc::Global;
use tracing_core_fields::Id;

// Keeps nothing of the fields and no timings.
fn clear(slots: &mut Extensions, key: OutputKey)
    ensures { by_tag key.0 slots.new ≡ record (by_tag key.0 slots.old) { text = None; timings = None } }
{
    take(slots, key, Tag::Text);
    take(slots, key, Tag::Timings);
}

// Puts timings where there are none, and answers whether that found memory.
fn put_timings(
    alloc: Global,
    slots: &mut Extensions,
    key: OutputKey,
    timings: Option<Timings>,
) -> bool
    requires { (by_tag key.0 slots.old).timings ≡ None }
    ensures { PutsTimings timings (by_tag key.0 slots.old) result (by_tag key.0 slots.new) }
{
    match timings {
        None => true,
        Some(timings) => match Box::new(alloc, timings) {
            Ok(timings) => put(slots, key, Tag::Timings, Slot::Timings(timings)),
            Err(_) => false,
        },
    }
}

// Keeps these alone, or nothing without memory, and answers which.
fn keep_alone(
    alloc: Global,
    slots: &mut Extensions,
    key: OutputKey,
    fields: FormattedFields,
    timings: Option<Timings>,
) -> bool
    ensures { Leaves (by_tag key.0 slots.old) (kept_alone result (plain_fields fields) timings)
        (by_tag key.0 slots.new) }
{
    clear(slots, key);
    let kept = put_timings(alloc, slots, key, timings) && put_fields(slots, key, fields);
    if !kept {
        clear(slots, key);
    }
    kept
}

// Keeps what is made of the first list, and answers how much of that found memory.
fn keep_made<F: FormatFields, R: RecordFields>(
    alloc: Global,
    slots: &mut Extensions,
    key: OutputKey,
    settings: Settings,
    formatter: &F,
    fields: &R,
    timings: Option<Timings>,
) -> FirstText
    ensures { Leaves (by_tag key.0 slots.old)
        (kept_first result (λ kept. F.added formatter.now kept (R.values fields.now))
        (F.started formatter.now settings) timings) (by_tag key.0 slots.new) }
{
    let Ok(mut kept) = formatter.start(alloc, settings) else {
        clear(slots, key);
        return FirstText::Nothing;
    };
    let is_added = add_list(alloc, &mut kept, formatter, fields);
    if !keep_alone(alloc, slots, key, kept, timings) {
        return FirstText::Nothing;
    }
    if is_added {
        FirstText::Whole
    } else {
        FirstText::Started
    }
}

/// Keeps the fields of a span that was made, with its first list of values, and these timings, and answers how much of
/// that found memory. A list that can't be formatted adds nothing, and so does one whose text finds no memory.
///
/// Whatever the output kept with the span before is replaced. Nothing happens where the context doesn't see the span.
pub fn keep_new<F: FormatFields, R: RecordFields>(
    alloc: Global,
    context: &mut Context<'_>,
    span: &Id,
    key: OutputKey,
    settings: Settings,
    formatter: &F,
    fields: &R,
    timings: Option<Timings>,
) -> FirstText
    ensures lent { SameLoan context.old context.new }
    // A span that is seen keeps the text of its first list and the timings; where that text can't be formatted or finds no memory,
    // the text that spans start with; and nothing, where there is no memory for that either.
    ensures kept { Rekeeps (view context.old) span.now key.0
        (kept_first result (λ kept. F.added formatter.now kept (R.values fields.now))
        (F.started formatter.now settings) timings) (left context.new) }
    ensures unseen { span_in (view context.old) span.now ≡ None → is_whole result ≡ true }
{
    match context.extensions_mut(span) {
        None => FirstText::Whole,
        Some(slots) => keep_made(alloc, slots, key, settings, formatter, fields, timings),
    }
}
