//! Handles, weak handles and guards by number.
ghost use Rattle.std.specs.Prelude.{◌≡◌, ◌<◌, ◌∷◌, [], ◌++◌, Some, length, slice_set, vec_len, vec_capacity};
ghost use Rattle.std.specs.Option.{option_map};
ghost use Rattle.tracing_core.specs.CommandReplies.{empty_book, item_of, named, spent_by};

use crate::dispatch::Dispatch;
use crate::guard::DefaultGuard;
use std::alloc::Global;
use std::marker::Model;
use tracing_core_fields::WeakDispatch;

/// The handles, weak handles and guards that commands made. Each of the three is numbered from 0 in order
/// of making, and no number is used again.
#[derive(Drop)]
pub struct Book {
    pub(crate) handles: Vec<Option<Dispatch>>,
    pub(crate) weak: Vec<WeakDispatch>,
    pub(crate) guards: Vec<Option<DefaultGuard>>,
}

impl Model for Book {
    ghost use Rattle.tracing_core.specs.CommandReplies.{PlainBook};

    ghost Value = { PlainBook };

    ghost view = { λ book. record {
      handles = book.handles.items;
      weak = book.weak.items;
      guards = book.guards.items;
    } };
}

impl Book {
    /// A book of nothing.
    pub fn new(alloc: Global) -> Book
        ensures { result ≡ empty_book }
    {
        Book {
            handles: Vec::new(alloc),
            weak: Vec::new(alloc),
            guards: Vec::new(alloc),
        }
    }

    /// The handle with the number, where it isn't spent.
    pub fn handle(&self, number: u64) -> Option<&Dispatch>
        ensures { option_map (λ dispatch. dispatch.now) result ≡ item_of self.now.handles number }
    {
        match self.handles.get(number as usize) {
            None => None,
            Some(None) => None,
            Some(Some(dispatch)) => Some(dispatch),
        }
    }
}

// What the handle with the number leads to, where it isn't spent, as a handle that isn't counted.
pub(crate) fn find_handle(handles: &[Option<Dispatch>], number: u64) -> Option<Dispatch>
    ensures { result ≡ item_of handles.now number }
{
    match handles.get(number as usize) {
        None => None,
        Some(None) => None,
        Some(Some(dispatch)) => Some(Dispatch::new(dispatch.serial())),
    }
}

// The same, where no number is the handle to no subscriber.
pub(crate) fn find_named(handles: &[Option<Dispatch>], number: Option<u64>) -> Option<Dispatch>
    ensures { result ≡ named handles.now number }
{
    match number {
        None => Some(Dispatch::none()),
        Some(number) => find_handle(handles, number),
    }
}

// Takes out what has the number, and spends it.
#[tactic(auto, using(crate::proofs::Books::none_past, crate::proofs::Books::item_at, crate::proofs::Books::spent))]
pub(crate) fn spend<T>(items: &mut [Option<T>], number: u64) -> Option<T>
    ensures item { result ≡ item_of items.old number }
    ensures state { items.new ≡ spent_by items.old number (item_of items.old number) }
{
    let index = number as usize;
    if index < items.len() {
        items[index].take()
    } else {
        None
    }
}

// Puts an item back under its number, where there was one.
#[tactic(auto, using(crate::proofs::Books::set_past))]
pub(crate) fn put_back<T: Drop>(items: &mut [Option<T>], number: u64, item: T)
    ensures { items.new ≡ slice_set items.old number (Some item) }
{
    let index = number as usize;
    if index < items.len() {
        items[index] = Some(item);
    }
}

// Adds an item, and answers its number.
pub(crate) fn keep<T>(items: &mut Vec<T>, item: T) -> u64
    requires { vec_len items.old < vec_capacity items.old }
    ensures number { result ≡ length items.old.items }
    ensures kept { items.new.items ≡ items.old.items ++ item ∷ [] }
{
    let number = items.len() as u64;
    items.push_reserved(item);
    number
}
