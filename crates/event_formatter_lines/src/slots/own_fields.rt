//! The fields of a span in the slots of one output.
ghost use Rattle.std.specs.Prelude.{◌≡◌, IsSome, is_some, true};
ghost use Rattle.std.specs.Option.{option_map};
ghost use Rattle.event_formatter_text.specs.SpanFields.{plain_fields};
ghost use Rattle.event_formatter_lines.specs.slots.SlotsByTag.{PutsFields, TakesFields, by_tag};
ghost use Rattle.event_formatter_lines.specs.slots.FieldsAndTimings.{text_by};

use crate::slots::own_slots::{put, take_text, take_words};
use crate::slots::reading::settings_in;
use crate::slots::settings_number::number_of;
use event_formatter_text::FormattedFields;
use span_registry_layers_store::{Extensions, OutputKey, Slot, Tag};
use std::alloc::Global;

/// Keeps the fields, and answers whether that found memory. Where there are slots for them it needs none.
///
/// The text comes last, so that there are fields only where their words and settings are there.
pub(crate) fn put_fields(slots: &mut Extensions, key: OutputKey, fields: FormattedFields) -> bool
    ensures put { PutsFields (plain_fields fields) (by_tag key.0 slots.old) result (by_tag key.0 slots.new) }
    ensures room { let before = by_tag key.0 slots.old in
        IsSome before.text → IsSome before.words → IsSome before.number → result ≡ true }
{
    let number = number_of(fields.settings());
    let (text, words) = fields.into_parts();
    put(slots, key, Tag::Number, Slot::Number(number))
        && put(slots, key, Tag::Words, Slot::Words(words))
        && put(slots, key, Tag::Text, Slot::Text(text))
}

/// Takes the fields out of slots that have a text, and leaves slots for others. None without memory.
pub(crate) fn take_fields(
    alloc: Global,
    slots: &mut Extensions,
    key: OutputKey,
) -> Option<FormattedFields>
    requires { is_some (text_by (by_tag key.0 slots.old).text) ≡ true }
    ensures { TakesFields (by_tag key.0 slots.old) (option_map plain_fields result) (by_tag key.0 slots.new) }
{
    let settings = settings_in(slots, key);
    if !put(slots, key, Tag::Number, Slot::Number(number_of(settings))) {
        return None;
    }
    match take_words(alloc, slots, key) {
        None => None,
        Some(words) => match take_text(alloc, slots, key) {
            None => None,
            Some(text) => Some(FormattedFields::from_parts(text, words, settings)),
        },
    }
}
