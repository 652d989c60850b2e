//! What a registry keeps.

ghost use Rattle.std.specs.Prelude.{◌≡◌, ◌<◌, ◌≤◌, ◌+◌, IfOk, None, OnErr, OnOk, Some, get_or, length, reverse, take, true};
ghost use Rattle.std.specs.Option.{option_map};
ghost use Rattle.tracing_core_fields.specs.requests.Refusals.{or_refused};
ghost use Rattle.tracing_core_fields.specs.Metadata.{plain_metadata};
ghost use Rattle.tracing_core_fields.specs.requests.PlainRequests.{explicit_parent, plain_attributes};
ghost use Rattle.span_registry_layers_store.specs.Copies.{CopyOf};
ghost use Rattle.span_registry_layers_store.specs.RegistryCalls.{EntryGives, FilterGives, SpanGives, clone_gives, follow_refusal};
ghost use Rattle.span_registry_layers_store.specs.RegistryCalls.{open_refusal};
ghost use Rattle.span_registry_layers_store.specs.Lanes.{lane_at};
ghost use Rattle.span_registry_layers_store.specs.IdOrder.{IsBelow};
ghost use Rattle.span_registry_layers_store.specs.CloseCandidates.{IsWhole};
ghost use Rattle.span_registry_layers_store.specs.Parts.{next_number, plain_registry};
ghost use Rattle.span_registry_layers_store.specs.Registries.{current_on, kin_in, knows, plain_span, under, with_span};
ghost use Rattle.span_registry_layers_store.specs.Spans.{handles_of, is_open, parent_of};
ghost use Rattle.span_registry_layers_store.specs.Views.{current_under, entry_seen, latest_seen, mask_of, seen, sees};

mod closing;

use crate::close_candidates::CloseCandidates;
use crate::filter_count::FilterCount;
use crate::filter_map::{FilterId, FilterMap, TooManyFilters};
use crate::kept_metadata::KeptMetadata;
use crate::lanes::{Lanes, current, is_member};
use crate::record::SpanRecord;
use crate::span::Span;
use crate::spans::Spans;
use crate::table::RegistryTable;
use std::alloc::{AllocError, Global};
use tracing_core_fields::{Attributes, Id, Metadata, RequestError};

/// Open spans, lane stacks, and the metadata of callsites that spans were made at.
#[derive(Debug, Drop)]
pub(crate) struct RegistryParts {
    pub(crate) alloc: Global,
    pub(crate) lanes: Lanes,
    pub(crate) spans: Spans,
    /// Which of the spans may not stay.
    pub(crate) close_candidates: CloseCandidates,
    /// The next span's id; none where all are given.
    pub(crate) next_id: Option<Id>,
    pub(crate) callsites: KeptMetadata,
    pub(crate) filters: FilterCount,
}

/// The id after an id, where there is one.
fn id_after(id: u64) -> Option<Id>
    requires { (0 < id) × (id ≤ 18446744073709551615) }
    ensures { next_number result ≡ id + 1 }
{
    if id == u64::MAX {
        return None;
    }
    Id::from_u64(id + 1)
}

/// Whether the filter, where there is one, passed the span.
pub(crate) fn is_seen(span: &Span, filter: Option<FilterId>) -> bool
    ensures { result ≡ sees (mask_of filter) (plain_span span.now) }
{
    match filter {
        None => true,
        Some(filter) => span.passed.passes(filter),
    }
}

impl RegistryParts {
    /// A copy of what is kept, but for what outputs keep with spans.
    pub(crate) fn table(&self) -> Result<RegistryTable, AllocError>
        ensures { IfOk result (λ copy. CopyOf (plain_registry self.now) copy) }
    {
        Ok(RegistryTable {
            spans: self.spans.rows(self.alloc)?,
            lanes: self.lanes.copy(self.alloc)?,
            next_id: self.next_id,
            filters: self.filters.count(),
        })
    }

    /// The entries of a lane, the earliest first.
    pub(crate) fn lane(&self, lane: u64) -> &[Id]
        ensures { result.now ≡ lane_at (plain_registry self.now).lanes lane }
    {
        self.lanes.lane(lane)
    }

    /// The span that a lane is in.
    pub(crate) fn current_on(&self, lane: u64) -> Option<Id>
        ensures { result ≡ current_on (plain_registry self.now) lane }
    {
        current(self.lanes.lane(lane))
    }

    /// Whether a span is open.
    pub(crate) fn is_open(&self, id: Id) -> bool
        ensures { result ≡ is_open kin_in (plain_registry self.now).spans id }
    {
        self.spans.is_open(id)
    }

    /// How many handles a span has, and 0 where it is not open.
    pub(crate) fn handles_of(&self, id: Id) -> usize
        ensures { result ≡ handles_of kin_in (plain_registry self.now).spans id }
    {
        self.spans.handles_of(id)
    }

    /// The span of an id, where it is open and the filter passed it.
    pub(crate) fn find(&self, id: Id, filter: Option<FilterId>) -> Option<&Span>
        ensures { option_map (λ s. plain_span s.now) result ≡ seen (plain_registry self.now) (mask_of filter) id }
    {
        match self.spans.find(id) {
            None => None,
            Some(span) => {
                if is_seen(span, filter) {
                    Some(span)
                } else {
                    None
                }
            }
        }
    }

    // The span of the entry at the place, where it is seen and no earlier entry has its id.
    fn entry_seen(&self, lane: &[Id], place: usize, filter: Option<FilterId>) -> Option<&Span>
        requires { place < length lane.now }
        ensures { option_map (λ s. plain_span s.now) result
            ≡ entry_seen (plain_registry self.now) (mask_of filter) (take place lane.now) (get_or lane.now place 0) }
    {
        let id = lane[place];
        if is_member(&lane[..place], id) {
            return None;
        }
        self.find(id, filter)
    }

    // The span of the last such entry.
    #[inline(always)]
    fn latest_seen(&self, lane: &[Id], filter: Option<FilterId>) -> Option<&Span>
        ensures { option_map (λ s. plain_span s.now) result
            ≡ latest_seen (plain_registry self.now) (mask_of filter) (reverse lane.now) }
    {
        let mut rest = lane.len();
        while rest > 0 {
            rest -= 1;
            if let Some(span) = self.entry_seen(lane, rest, filter) {
                return Some(span);
            }
        }
        None
    }

    /// The span that a lane is in, as the filter sees it.
    #[inline(always)]
    pub(crate) fn current_under(&self, lane: u64, filter: Option<FilterId>) -> Option<&Span>
        ensures { option_map (λ s. plain_span s.now) result
            ≡ current_under (plain_registry self.now) (mask_of filter) lane }
    {
        self.latest_seen(self.lane(lane), filter)
    }

    /// The parent of a span, where it is open and has one.
    pub(crate) fn above(&self, id: Id) -> Option<Id>
        ensures { result ≡ parent_of kin_in (plain_registry self.now).spans id }
    {
        self.spans.parent_of(id)
    }

    // Whether the parent is open, where one is named.
    fn knows_parent(&self, attributes: &Attributes<'_, '_>) -> bool
        ensures { result ≡ knows (plain_registry self.now) (explicit_parent (plain_attributes attributes.now).parent) }
    {
        match attributes.parent() {
            None => true,
            Some(id) => self.is_open(*id),
        }
    }

    // The span that a new one stands under.
    fn parent_of(&self, attributes: &Attributes<'_, '_>, lane: u64) -> Option<Id>
        ensures { result ≡ under (plain_registry self.now) lane (plain_attributes attributes.now).parent }
    {
        if attributes.is_contextual() {
            return self.current_on(lane);
        }
        match attributes.parent() {
            None => None,
            Some(id) => Some(*id),
        }
    }

    // Adds the span of the next id.
    #[tactic(auto, using(crate::proofs::Lists::map_more))]
    fn push_span(
        &mut self,
        id: Id,
        parent: Option<Id>,
        metadata: &Metadata<'_>,
        passed: FilterMap,
    ) -> Result<(), AllocError>
        requires next { self.old.next_id ≡ Some id }
        requires below { IsBelow (plain_registry self.old) }
        ensures ok { OnOk result (plain_registry self.new
            ≡ with_span (plain_registry self.old) (plain_metadata metadata.now) parent passed.passed) }
        ensures err { OnErr result (plain_registry self.new ≡ plain_registry self.old) }
        ensures same { self.new.close_candidates ≡ self.old.close_candidates }
        ensures fits { id ≤ 18446744073709551615 }
    {
        let metadata = self.callsites.share(metadata)?;
        let kin = SpanRecord {
            id,
            parent,
            handles: 1,
        };
        self.spans.push(kin, metadata, passed)?;
        self.next_id = id_after(id.into_u64());
        Ok(())
    }

    /// Makes a span, with one handle.
    pub(crate) fn new_span(
        &mut self,
        attributes: &Attributes<'_, '_>,
        lane: u64,
        passed: FilterMap,
    ) -> Result<Id, RequestError>
        requires { IsWhole self.old.close_candidates (plain_registry self.old) }
        ensures gives { let a = plain_attributes attributes.now in
            SpanGives (plain_registry self.old) a.metadata a.parent lane passed.passed result
            (plain_registry self.new) }
        ensures whole { IsWhole self.new.close_candidates (plain_registry self.new) }
    {
        if !self.knows_parent(attributes) {
            return Err(RequestError::UnknownParent);
        }
        let Some(id) = self.next_id else {
            return Err(RequestError::IdsSpent);
        };
        let parent = self.parent_of(attributes, lane);
        match self.push_span(id, parent, attributes.metadata(), passed) {
            Ok(()) => Ok(id),
            Err(_) => Err(RequestError::OutOfMemory),
        }
    }

    /// Whether a span is open.
    pub(crate) fn record(&self, id: Id) -> Result<(), RequestError>
        ensures { result ≡ or_refused (open_refusal (plain_registry self.now) id) tt }
    {
        if self.is_open(id) {
            Ok(())
        } else {
            Err(RequestError::UnknownSpan)
        }
    }

    /// Whether both spans are open.
    pub(crate) fn record_follows_from(&self, id: Id, follows: Id) -> Result<(), RequestError>
        ensures { result ≡ or_refused (follow_refusal (plain_registry self.now) id follows) tt }
    {
        if self.is_open(id) && self.is_open(follows) {
            Ok(())
        } else {
            Err(RequestError::UnknownSpan)
        }
    }

    /// Counts one more filter.
    pub(crate) fn register_filter(&mut self) -> Result<FilterId, TooManyFilters>
        requires { IsWhole self.old.close_candidates (plain_registry self.old) }
        ensures gives { FilterGives (plain_registry self.old) result (plain_registry self.new) }
        ensures whole { IsWhole self.new.close_candidates (plain_registry self.new) }
    {
        let filter = self.filters.next()?;
        Ok(filter)
    }

    /// Adds an entry of a span on a lane.
    pub(crate) fn enter(&mut self, id: Id, lane: u64) -> Result<(), RequestError>
        requires { IsWhole self.old.close_candidates (plain_registry self.old) }
        ensures gives { EntryGives (plain_registry self.old) lane id result (plain_registry self.new) }
        ensures whole { IsWhole self.new.close_candidates (plain_registry self.new) }
    {
        if !self.is_open(id) {
            return Err(RequestError::UnknownSpan);
        }
        match self.lanes.push(lane, id) {
            Ok(()) => Ok(()),
            Err(_) => Err(RequestError::OutOfMemory),
        }
    }

    /// Counts one more handle of a span.
    pub(crate) fn take_one(&mut self, id: Id) -> Result<Id, RequestError>
        requires { IsWhole self.old.close_candidates (plain_registry self.old) }
        ensures gives { (result, plain_registry self.new) ≡ clone_gives (plain_registry self.old) id }
        ensures whole { IsWhole self.new.close_candidates (plain_registry self.new) }
    {
        self.spans.take_one(id)
    }
}
