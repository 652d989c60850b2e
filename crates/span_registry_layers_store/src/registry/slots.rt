//! What outputs keep with the spans of a registry.

ghost use Rattle.std.specs.Prelude.{◌≡◌};
ghost use Rattle.std.specs.Borrow.{sem};
ghost use Rattle.std.specs.Option.{option_map};
ghost use Rattle.span_registry_layers_store.specs.SlotCalls.{InsertsSlot, RemovesSlot, ReplacesSlot};
ghost use Rattle.span_registry_layers_store.specs.SlotLoans.{LendsSlots, slots_of};
ghost use Rattle.span_registry_layers_store.specs.Registries.{kin_in};
ghost use Rattle.span_registry_layers_store.specs.Slots.{plain_slot};
ghost use Rattle.span_registry_layers_store.specs.Spans.{found};
ghost use Rattle.span_registry_layers_store.specs.Views.{mask_of, seen};

use crate::extensions::ExtensionsMut;
use crate::filter_map::FilterId;
use crate::registry::Registry;
use crate::slot::{InsertError, OutputKey, Slot, Tag};
use tracing_core_fields::Id;

impl Registry {
    /// What outputs keep with an open span, to be changed.
    pub fn extensions_mut(&mut self, span: &Id) -> Option<ExtensionsMut<'_>>
        ensures lent { option_map (λ s. s.now) result ≡ option_map slots_of (found kin_in self.old.spans span.now) }
        ensures* ends { sem 𝓛 (LendsSlots self.entry span.now result) }
    {
        self.parts.spans.extensions_mut(*span, None)
    }

    /// What outputs keep with an open span, to be changed, where the filter passed it.
    pub fn extensions_mut_under(
        &mut self,
        span: &Id,
        filter: Option<FilterId>,
    ) -> Option<ExtensionsMut<'_>>
        ensures lent { option_map (λ s. s.now) result ≡ option_map slots_of (seen self.old (mask_of filter) span.now) }
        ensures* ends { sem 𝓛 (LendsSlots self.entry span.now result) }
    {
        self.parts.spans.extensions_mut(*span, filter)
    }

    /// Puts a slot of an output with a span. All else stays as it was.
    ///
    /// # Errors
    ///
    /// The slot comes back with `UnknownSpan` where the span is not open, with `Present` where the output has one
    /// under that tag already, and with `OutOfMemory`; each leaves the registry as it was.
    pub fn insert_slot(
        &mut self,
        span: &Id,
        key: OutputKey,
        tag: Tag,
        slot: Slot,
    ) -> Result<(), InsertError>
        ensures { InsertsSlot self.old span.now key.0 tag (plain_slot slot) result self.new }
    {
        match self.extensions_mut(span) {
            None => Err(InsertError::UnknownSpan(slot)),
            Some(extensions) => extensions.insert(key, tag, slot),
        }
    }

    /// Puts a slot of an output with a span, and answers the one that was there. All else stays as it was.
    ///
    /// # Errors
    ///
    /// The slot comes back where the span is not open, or for lack of memory; both leave the registry as it was.
    pub fn replace_slot(
        &mut self,
        span: &Id,
        key: OutputKey,
        tag: Tag,
        slot: Slot,
    ) -> Result<Option<Slot>, Slot>
        ensures { ReplacesSlot self.old span.now key.0 tag (plain_slot slot) result self.new }
    {
        match self.extensions_mut(span) {
            None => Err(slot),
            Some(extensions) => extensions.replace(key, tag, slot),
        }
    }

    /// Takes the slot of an output under a tag out of a span, where there is one. All else stays as it was.
    pub fn remove_slot(&mut self, span: &Id, key: OutputKey, tag: Tag) -> Option<Slot>
        ensures { RemovesSlot self.old span.now key.0 tag result self.new }
    {
        match self.extensions_mut(span) {
            None => None,
            Some(extensions) => extensions.remove(key, tag),
        }
    }
}
