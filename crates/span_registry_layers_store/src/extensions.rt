//! What outputs keep with a span.

ghost use Rattle.std.specs.Prelude.{◌≡◌, [], MatchOption, None, map};
ghost use Rattle.std.specs.Borrow.{sem};
ghost use Rattle.std.specs.Option.{option_map};
ghost use Rattle.span_registry_layers_store.specs.SlotLoans.{IsSlotToLend, LendsSlot};
ghost use Rattle.span_registry_layers_store.specs.Slots.{AreInOrder, InsertGives, IsPlaceFor, IsSlotPlace, PutGives, RemoveGives};
ghost use Rattle.span_registry_layers_store.specs.Slots.{ReplaceGives, is_at, is_before, plain_place, plain_slot, rank, slot_at};

use crate::slot::{InsertError, OutputKey, Place, Slot, Tag};
use std::alloc::Global;
use std::marker::Model;

/// What outputs keep with a span: slots, by the output's key and a tag, in order of key, and of tag under one key.
///
/// A contract sees it as the list of them.
#[derive(Debug, Drop)]
pub struct Extensions {
    places: Vec<Place>,
}

// Where a tag stands among the tags.
fn rank(tag: Tag) -> u8
    ensures { result ≡ rank tag }
{
    match tag {
        Tag::Text => 0,
        Tag::Timings => 1,
        Tag::Number => 2,
        Tag::Words => 3,
    }
}

fn is_at(place: &Place, key: OutputKey, tag: Tag) -> bool
    ensures { result ≡ is_at key.0 tag (plain_place place.now) }
{
    place.key.0 == key.0 && rank(place.tag) == rank(tag)
}

// Whether the slot of an output under a tag stands before this one.
fn is_before(key: OutputKey, tag: Tag, place: &Place) -> bool
    ensures { result ≡ is_before key.0 tag (plain_place place.now) }
{
    key.0 < place.key.0 || (key.0 == place.key.0 && rank(tag) < rank(place.tag))
}

fn place_of(places: &[Place], key: OutputKey, tag: Tag) -> Option<usize>
    ensures { MatchOption result (slot_at (map plain_place places.now) key.0 tag ≡ None) (λ place.
        IsSlotPlace places.now key.0 tag place) }
{
    for place in 0..places.len() {
        if is_at(&places[place], key, tag) {
            return Some(place);
        }
    }
    None
}

// The place for the slot of an output under a tag that has none yet.
fn place_for(places: &[Place], key: OutputKey, tag: Tag) -> usize
    ensures { IsPlaceFor places.now key tag result }
{
    for place in 0..places.len() {
        if is_before(key, tag, &places[place]) {
            return place;
        }
    }
    places.len()
}

/// What outputs keep with a span, lent to be changed.
pub type ExtensionsMut<'a> = &'a mut Extensions;

impl Model for Extensions {
    ghost use Rattle.std.specs.Prelude.{List, map};
    ghost use Rattle.span_registry_layers_store.specs.Slots.{AreInOrder, PlainPlace, plain_place};

    ghost Value = { List PlainPlace };

    ghost view = { λ s. map plain_place s.places.items };

    ghost invariant = { λ s. AreInOrder (map plain_place s.places.items) };
}

// Puts a slot there, where there is none, in order.
fn put_place(places: &mut Vec<Place>, key: OutputKey, tag: Tag, slot: Slot) -> Result<(), Slot>
    ensures { PutGives (record { key = key.0; tag = tag; slot = plain_slot slot }) (map plain_place places.old.items)
        result (map plain_place places.new.items) }
{
    // Most spans keep few slots, and the first ones take no more room than they need.
    if places.len() < 4 && places.reserve_exact(1).is_err() {
        return Err(slot);
    }
    let place = place_for(places.as_slice(), key, tag);
    match places.insert(place, Place { key, tag, slot }) {
        Ok(()) => Ok(()),
        Err(refused) => {
            let Place { slot, .. } = refused.value;
            Err(slot)
        }
    }
}

/// Puts a slot there, unless there is one.
fn insert_place(
    places: &mut Vec<Place>,
    key: OutputKey,
    tag: Tag,
    slot: Slot,
) -> Result<(), InsertError>
    ensures { InsertGives (map plain_place places.old.items) key.0 tag (plain_slot slot) result
        (map plain_place places.new.items) }
{
    match place_of(places.as_slice(), key, tag) {
        Some(_) => Err(InsertError::Present(slot)),
        None => match put_place(places, key, tag, slot) {
            Ok(()) => Ok(()),
            Err(slot) => Err(InsertError::OutOfMemory(slot)),
        },
    }
}

/// Puts a slot there, and answers the one that was there.
#[inline(always)]
fn replace_place(
    places: &mut Vec<Place>,
    key: OutputKey,
    tag: Tag,
    slot: Slot,
) -> Result<Option<Slot>, Slot>
    ensures { ReplaceGives (map plain_place places.old.items) key.0 tag (plain_slot slot) result
        (map plain_place places.new.items) }
{
    match place_of(places.as_slice(), key, tag) {
        Some(place) => {
            let before = std::mem::replace(&mut places[place].slot, slot);
            Ok(Some(before))
        }
        None => match put_place(places, key, tag, slot) {
            Ok(()) => Ok(None),
            Err(slot) => Err(slot),
        },
    }
}

/// Takes the slot out, where there is one.
fn remove_place(places: &mut Vec<Place>, key: OutputKey, tag: Tag) -> Option<Slot>
    ensures { RemoveGives (map plain_place places.old.items) key.0 tag result (map plain_place places.new.items) }
{
    match place_of(places.as_slice(), key, tag) {
        None => None,
        Some(place) => {
            let Place { slot, .. } = places.remove(place);
            Some(slot)
        }
    }
}

/// The slot of an output under a tag.
fn slot_in(places: &[Place], key: OutputKey, tag: Tag) -> Option<&Slot>
    ensures { option_map (λ s. plain_slot s.now) result ≡ slot_at (map plain_place places.now) key.0 tag }
{
    match place_of(places, key, tag) {
        None => None,
        Some(place) => Some(&places[place].slot),
    }
}

// The place of the slot of an output under a tag, and the end where there is none.
fn place_to_lend(places: &[Place], key: OutputKey, tag: Tag) -> usize
    ensures { IsSlotToLend places.now key.0 tag result }
{
    match place_of(places, key, tag) {
        None => places.len(),
        Some(place) => place,
    }
}

impl Extensions {
    /// No slot.
    pub(crate) fn new(alloc: Global) -> Extensions
        ensures { result ≡ [] }
    {
        Extensions {
            places: Vec::new(alloc),
        }
    }

    /// The slot of an output under a tag.
    pub fn get(&self, key: OutputKey, tag: Tag) -> Option<&Slot>
        ensures slot { option_map (λ s. plain_slot s.now) result ≡ slot_at self.now key.0 tag }
        ensures order { AreInOrder self.now }
    {
        slot_in(self.places.as_slice(), key, tag)
    }

    /// The slot of an output under a tag, to be changed.
    pub fn get_mut(&mut self, key: OutputKey, tag: Tag) -> Option<&mut Slot>
        ensures lent { option_map (λ s. plain_slot s.now) result ≡ slot_at self.old key.0 tag }
        ensures* ends { sem 𝓛 (LendsSlot self.entry key.0 tag result) }
    {
        let place = place_to_lend(self.places.as_slice(), key, tag);
        match self.places.get_mut(place) {
            None => None,
            Some(place) => Some(&mut place.slot),
        }
    }

    /// Puts a slot there. All others stay as they were.
    ///
    /// # Errors
    ///
    /// The slot comes back with `Present` where there is one, and with `OutOfMemory`; both change nothing.
    pub fn insert(&mut self, key: OutputKey, tag: Tag, slot: Slot) -> Result<(), InsertError>
        ensures state { InsertGives self.old key.0 tag (plain_slot slot) result self.new }
        ensures order { AreInOrder self.new }
    {
        insert_place(&mut self.places, key, tag, slot)
    }

    /// Puts a slot there, and answers the one that was there. All others stay as they were.
    ///
    /// # Errors
    ///
    /// The slot comes back for lack of memory, which changes nothing.
    #[inline(always)]
    pub fn replace(&mut self, key: OutputKey, tag: Tag, slot: Slot) -> Result<Option<Slot>, Slot>
        ensures state { ReplaceGives self.old key.0 tag (plain_slot slot) result self.new }
        ensures order { AreInOrder self.new }
    {
        replace_place(&mut self.places, key, tag, slot)
    }

    /// Lets all slots go. Their memory stays, for later ones.
    pub(crate) fn clear(&mut self)
        ensures { self.new ≡ [] }
    {
        self.places.clear();
    }

    /// Takes the slot out, where there is one. All others stay as they were.
    pub fn remove(&mut self, key: OutputKey, tag: Tag) -> Option<Slot>
        ensures state { RemoveGives self.old key.0 tag result self.new }
        ensures order { AreInOrder self.new }
    {
        remove_place(&mut self.places, key, tag)
    }
}
