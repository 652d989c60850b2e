// Open spans as a plain list in order of making, under the contract of the spans in slots: the two are compared.

ghost use Rattle.std.specs.Prelude.{true, false, ◌≡◌, ◌<◌, ◌+◌, ◌++◌, ◌∷◌, [], length, map, drop, IfOk, IfSome, MatchOption, OnErr, OnOk};
ghost use Rattle.std.specs.List.{AllByRecursion};
ghost use Rattle.std.specs.Option.{option_map};
ghost use Rattle.span_registry_layers_store.specs.Copies.{plain_row, row_of};
ghost use Rattle.span_registry_layers_store.specs.RegistryCalls.{ClosesFirst, dropped, handle_given_up, handle_taken};
ghost use Rattle.span_registry_layers_store.specs.Lanes.{plain_lanes};
ghost use Rattle.span_registry_layers_store.specs.Places.{HasId, IsPlace, kin_of};
ghost use Rattle.span_registry_layers_store.specs.Registries.{PlainSpan, kin_in, plain_span};
ghost use Rattle.span_registry_layers_store.specs.SpanSlots.{new_span};
ghost use Rattle.span_registry_layers_store.specs.Spans.{AllStay, ClosesNext, Rises, found, handles_of, has_child, is_open, is_parent};
ghost use Rattle.span_registry_layers_store.specs.Spans.{keeps, parent_of, stays};

use crate::extensions::Extensions;
use crate::filter_map::FilterMap;
use crate::lanes::is_entered;
use crate::record::SpanRecord;
use crate::span::Span;
use crate::table::{SpanRow, push_row};
use std::alloc::{AllocError, Global};
use std::marker::Model;
use std::sync::Arc;
use tracing_core_fields::{Id, OwnedMetadata, RequestError};

/// Open spans, in order of making, so that ids rise. A contract sees the list of them.
///
/// Whoever calls can't see that ids rise, so methods after which that is needed say it (`rise`).
#[derive(Debug, Drop)]
pub(super) struct PlainSpans {
    alloc: Global,
    spans: Vec<Span>,
}

impl Model for PlainSpans {
    ghost use Rattle.std.specs.Prelude.{List, map};
    ghost use Rattle.span_registry_layers_store.specs.Registries.{PlainSpan, kin_in, plain_span};
    ghost use Rattle.span_registry_layers_store.specs.Spans.{Rises};

    ghost Value = { List PlainSpan };

    ghost view = { λ s. map plain_span s.spans.items };

    ghost invariant = { λ s. Rises kin_in 0 (map plain_span s.spans.items) };
}

/// A place where the span of an id stands, if the spans after it have the ids that follow.
fn place_from_end(spans: &[Span], id: Id) -> Option<usize>
    ensures { IfSome result (λ place. HasId spans.now id place) }
{
    let last = spans.last()?;
    let back = last.kin.id.into_u64().checked_sub(id.into_u64())?;
    let place = (spans.len() - 1).checked_sub(usize::try_from(back).ok()?)?;
    if spans[place].kin.id.into_u64() == id.into_u64() {
        Some(place)
    } else {
        None
    }
}

// Apart, so that callers stay small.
#[inline(never)]
fn place_by_halves(spans: &[Span], id: Id) -> Option<usize>
    requires { Rises kin_of 0 spans.now }
    ensures { MatchOption result (is_open kin_of spans.now id ≡ false) (λ place. IsPlace spans.now id place) }
{
    match spans.binary_search_by_key(&id.into_u64(), |span| span.kin.id.into_u64()) {
        Ok(place) => Some(place),
        Err(_) => None,
    }
}

/// The place of a span, where it is open. Ids of late spans often follow one another; else it is looked for by halves.
fn place_of(spans: &[Span], id: Id) -> Option<usize>
    requires { Rises kin_of 0 spans.now }
    ensures { MatchOption result (is_open kin_of spans.now id ≡ false) (λ place. IsPlace spans.now id place) }
{
    match place_from_end(spans, id) {
        Some(place) => Some(place),
        None => place_by_halves(spans, id),
    }
}

fn is_parent(id: Id, parent: Option<Id>) -> bool
    ensures { result ≡ is_parent id parent }
{
    match parent {
        None => false,
        Some(above) => above.into_u64() == id.into_u64(),
    }
}

fn has_child(spans: &[Span], id: Id) -> bool
    ensures { result ≡ has_child kin_of spans.now id }
{
    for span in spans {
        if is_parent(id, span.kin.parent) {
            return true;
        }
    }
    false
}

fn stays(lanes: &[Vec<Id>], span: &Span, later: &[Span]) -> bool
    ensures { result ≡ stays kin_of (plain_lanes lanes.now) span.now later.now }
{
    span.kin.handles > 0 || is_entered(lanes, span.kin.id) || has_child(later, span.kin.id)
}

fn later_than(spans: &[Span], place: usize) -> &[Span]
    requires { place < length spans.now }
    ensures { result.now ≡ drop (place + 1) spans.now }
{
    &spans[place + 1..]
}

/// The place of the latest span that doesn't stay.
fn closing(spans: &[Span], lanes: &[Vec<Id>]) -> Option<usize>
    ensures { MatchOption result (AllStay kin_of (plain_lanes lanes.now) spans.now) (λ place.
        ClosesNext kin_of (plain_lanes lanes.now) spans.now place) }
{
    let mut rest = spans.len();
    while rest > 0 {
        rest -= 1;
        if !stays(lanes, &spans[rest], later_than(spans, rest)) {
            return Some(rest);
        }
    }
    None
}

fn copy_spans(alloc: Global, spans: &[Span]) -> Result<Vec<SpanRow>, AllocError>
    ensures { IfOk result (λ rows. map plain_row rows.items ≡ map row_of (map plain_span spans.now)) }
{
    let mut rows = Vec::new(alloc);
    for span in spans {
        push_row(&mut rows, span)?;
    }
    Ok(rows)
}

impl PlainSpans {
    /// No span.
    pub(super) fn new(alloc: Global) -> PlainSpans
        ensures { result ≡ [] }
    {
        PlainSpans {
            alloc,
            spans: Vec::new(alloc),
        }
    }

    /// A copy of all of them, without what outputs keep with them.
    pub(super) fn rows(&self, alloc: Global) -> Result<Vec<SpanRow>, AllocError>
        ensures { IfOk result (λ rows. map plain_row rows.items ≡ map row_of self.now) }
    {
        copy_spans(alloc, self.spans.as_slice())
    }

    /// The span of an id, where it is open.
    pub(super) fn find(&self, id: Id) -> Option<&Span>
        ensures { option_map (λ s. plain_span s.now) result ≡ found kin_in self.now id }
    {
        match place_of(self.spans.as_slice(), id) {
            None => None,
            Some(place) => Some(&self.spans[place]),
        }
    }

    /// Whether a span is open.
    pub(super) fn is_open(&self, id: Id) -> bool
        ensures { result ≡ is_open kin_in self.now id }
    {
        place_of(self.spans.as_slice(), id).is_some()
    }

    /// The parent of a span, where it is open and has one.
    pub(super) fn parent_of(&self, id: Id) -> Option<Id>
        ensures { result ≡ parent_of kin_in self.now id }
    {
        match self.find(id) {
            None => None,
            Some(span) => span.kin.parent,
        }
    }

    /// How many handles a span has, and 0 where it is not open.
    pub(super) fn handles_of(&self, id: Id) -> usize
        ensures { result ≡ handles_of kin_in self.now id }
    {
        match self.find(id) {
            None => 0,
            Some(span) => span.kin.handles,
        }
    }

    /// Whether a span stays, or is not open.
    pub(super) fn stays(&self, lanes: &[Vec<Id>], id: Id) -> bool
        ensures stays { result ≡ keeps kin_in (plain_lanes lanes.now) self.now id }
        ensures rise { Rises kin_in 0 self.now }
    {
        let spans = self.spans.as_slice();
        match place_of(spans, id) {
            None => true,
            Some(place) => stays(lanes, &spans[place], later_than(spans, place)),
        }
    }

    /// The latest span that doesn't stay.
    pub(super) fn closing(&self, lanes: &[Vec<Id>]) -> Option<Id>
        ensures { MatchOption result (AllStay kin_in (plain_lanes lanes.now) self.now) (λ id.
            ClosesFirst (plain_lanes lanes.now) self.now id) }
    {
        match closing(self.spans.as_slice(), lanes) {
            None => None,
            Some(place) => Some(self.spans[place].kin.id),
        }
    }

    /// Adds a span that was made after all others.
    pub(super) fn push(
        &mut self,
        kin: SpanRecord,
        metadata: Arc<OwnedMetadata>,
        passed: FilterMap,
    ) -> Result<(), AllocError>
        requires { AllByRecursion (λ (s : PlainSpan). s.kin.id < kin.id) self.old }
        ensures ok { OnOk result (self.new ≡ self.old ++ new_span kin metadata passed ∷ []) }
        ensures err { OnErr result (self.new ≡ self.old) }
    {
        self.spans.push(Span {
            kin,
            metadata,
            passed,
            extensions: Extensions::new(self.alloc),
        })?;
        Ok(())
    }

    /// Takes a span out, and answers its parent.
    pub(super) fn remove(&mut self, id: Id) -> Option<Id>
        ensures parent { result ≡ parent_of kin_in self.old id }
        ensures left { self.new ≡ dropped self.old id }
        ensures rise { Rises kin_in 0 self.old }
    {
        match place_of(self.spans.as_slice(), id) {
            None => None,
            Some(place) => {
                let span = self.spans.remove(place);
                span.kin.parent
            }
        }
    }

    /// Counts one more handle of a span.
    pub(super) fn take_one(&mut self, id: Id) -> Result<Id, RequestError>
        ensures { (result, self.new) ≡ handle_taken self.old id }
    {
        let Some(place) = place_of(self.spans.as_slice(), id) else {
            return Err(RequestError::UnknownSpan);
        };
        if self.spans[place].kin.handles == usize::MAX {
            return Err(RequestError::TooManyHandles);
        }
        self.spans[place].kin.handles += 1;
        Ok(id)
    }

    /// Counts one handle of a span less.
    pub(super) fn give_up(&mut self, id: Id) -> Result<(), RequestError>
        ensures { (result, self.new) ≡ handle_given_up self.old id }
    {
        let Some(place) = place_of(self.spans.as_slice(), id) else {
            return Err(RequestError::UnknownSpan);
        };
        if self.spans[place].kin.handles == 0 {
            return Err(RequestError::UnknownSpan);
        }
        self.spans[place].kin.handles -= 1;
        Ok(())
    }
}
