//! The slots of one output.
ghost use Rattle.std.specs.Prelude.{◌≡◌, None, is_some, map, string_bytes};
ghost use Rattle.std.specs.Option.{option_map};
ghost use Rattle.span_registry_layers_store.specs.Slots.{plain_slot};
ghost use Rattle.event_formatter_lines.specs.slots.SlotsByTag.{Puts, TakesText, TakesWords, by_tag, with_under};
ghost use Rattle.event_formatter_lines.specs.slots.FieldsAndTimings.{text_by, words_by};

use span_registry_layers_store::{Extensions, OutputKey, Slot, Tag};
use std::alloc::Global;

/// Puts a slot there, and answers whether that found memory. Where there is a slot it needs none.
#[inline(never)]
pub(crate) fn put(slots: &mut Extensions, key: OutputKey, tag: Tag, slot: Slot) -> bool
    ensures { Puts tag (plain_slot slot) (by_tag key.0 slots.old) result (by_tag key.0 slots.new) }
{
    slots.replace(key, tag, slot).is_ok()
}

/// Takes the slot out, where there is one.
pub(crate) fn take(slots: &mut Extensions, key: OutputKey, tag: Tag)
    ensures { by_tag key.0 slots.new ≡ with_under tag None (by_tag key.0 slots.old) }
{
    if slots.get(key, tag).is_some() {
        let _before = slots.remove(key, tag);
    }
}

// The text in a slot, where there is one.
fn text_of(slot: Option<Slot>) -> Option<String>
    ensures { option_map string_bytes result ≡ text_by (option_map plain_slot slot) }
{
    match slot {
        Some(Slot::Text(text)) => Some(text),
        _ => None,
    }
}

// The words in a slot, where there are any.
fn words_of(alloc: Global, slot: Option<Slot>) -> Vec<String>
    ensures { map string_bytes result.items ≡ words_by (option_map plain_slot slot) }
{
    match slot {
        Some(Slot::Words(words)) => words,
        _ => Vec::new(alloc),
    }
}

/// Whether there is a text.
#[tactic(auto, unfolding(crate::specs::slots::SlotsByTag::by_tag))]
pub(crate) fn has_text(slots: &Extensions, key: OutputKey) -> bool
    ensures { result ≡ is_some (text_by (by_tag key.0 slots.now).text) }
{
    matches!(slots.get(key, Tag::Text), Some(Slot::Text(_)))
}

/// Takes the text out, where there is one, and leaves an empty one there.
pub(crate) fn take_text(alloc: Global, slots: &mut Extensions, key: OutputKey) -> Option<String>
    ensures { TakesText (by_tag key.0 slots.old) (option_map string_bytes result) (by_tag key.0 slots.new) }
{
    if !has_text(slots, key) {
        return None;
    }
    match slots.replace(key, Tag::Text, Slot::Text(String::new(alloc))) {
        Ok(before) => text_of(before),
        Err(_) => None,
    }
}

/// Takes the words out, and leaves none there. None without memory, which is needed only where no words were kept.
pub(crate) fn take_words(
    alloc: Global,
    slots: &mut Extensions,
    key: OutputKey,
) -> Option<Vec<String>>
    ensures { TakesWords (by_tag key.0 slots.old) (option_map (λ words. map string_bytes words.items) result)
        (by_tag key.0 slots.new) }
{
    match slots.replace(key, Tag::Words, Slot::Words(Vec::new(alloc))) {
        Ok(before) => Some(words_of(alloc, before)),
        Err(_) => None,
    }
}
