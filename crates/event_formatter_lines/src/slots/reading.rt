//! What is kept, as it is read.
ghost use Rattle.std.specs.Prelude.{◌≡◌, [], unwrap_or};
ghost use Rattle.std.specs.Option.{option_map};
ghost use Rattle.span_registry_layers_store.specs.References.{plain_ref};
ghost use Rattle.span_registry_layers_store.specs.Slots.{plain_slot};
ghost use Rattle.event_formatter_lines.specs.slots.SlotsByTag.{by_tag};
ghost use Rattle.event_formatter_lines.specs.slots.FieldsAndTimings.{kept_at, settings_by, text_by, text_of};

use crate::slots::settings_number::settings_of;
use event_formatter_text::Settings;
use span_registry_layers_store::{Extensions, OutputKey, Slot, SpanRef, Tag};

fn text_in<'a>(slot: Option<&'a Slot>) -> &'a str
    ensures { result.now ≡ unwrap_or (text_by (option_map (λ s. plain_slot s.now) slot.entry)) [] }
{
    match slot {
        Some(Slot::Text(text)) => text.as_str(),
        _ => "",
    }
}

/// The text of a span's fields that the output keeps: the empty one where it keeps none.
pub fn kept_text<'a>(span: &SpanRef<'a>, key: OutputKey) -> &'a str
    ensures { result.now ≡ text_of (kept_at key.0 (plain_ref span.now).span.slots) }
{
    text_in(span.slot(key, Tag::Text))
}

/// How the text is written.
#[tactic(auto, unfolding(crate::specs::slots::SlotsByTag::by_tag))]
pub(crate) fn settings_in(slots: &Extensions, key: OutputKey) -> Settings
    ensures { result ≡ settings_by (by_tag key.0 slots.now).number }
{
    match slots.get(key, Tag::Number) {
        Some(Slot::Number(number)) => settings_of(*number),
        _ => settings_of(2),
    }
}
