//! What a filter or a layer may look at.
ghost use Rattle.std.specs.Borrow.{sem};
ghost use Rattle.std.specs.Option.{option_map};
ghost use Rattle.std.specs.Prelude.{◌≡◌, is_some};
ghost use Rattle.tracing_core_fields.specs.Metadata.{plain_metadata};
ghost use Rattle.tracing_core_fields.specs.requests.PlainRequests.{plain_event};
ghost use Rattle.span_registry_layers_store.specs.References.{plain_ref, scope_left};
ghost use Rattle.span_registry_layers_store.specs.Views.{mask_of};
ghost use Rattle.span_registry_layers_layers.specs.Contexts.{current_told, event_span, lane_span, metadata_in, ref_in, scope_in, span_in};
ghost use Rattle.span_registry_layers_layers.specs.FilterViews.{view};
ghost use Rattle.span_registry_layers_layers.specs.ContextLoans.{IsLoanOf, LendsSlots, slots_in};

use span_registry_layers_store::{ExtensionsMut, FilterId, Registry, Scope, SpanRef};
use tracing_core_fields::{CurrentSpan, Event, Id, Metadata};
use tracing_core_moments::At;

/// Where and when a request is made, and the registry as one filter sees it: without the spans that it refused.
///
/// A filter is lent it to be read. A layer that is told of something may write the slots of spans that it sees, by
/// `extensions_mut`, under keys of its own. It isn't `Clone`: two contexts would hold one registry.
#[derive(Drop)]
pub struct Context<'a> {
    pub(crate) registry: &'a mut Registry,
    pub(crate) at: At,
    pub(crate) filter: Option<FilterId>,
}

impl<'a> Context<'a> {
    /// The registry under a filter, or whole, at a lane and a moment.
    pub fn new(registry: &'a mut Registry, at: At, filter: Option<FilterId>) -> Context<'a>
        ensures lent { IsLoanOf registry.entry result }
        ensures view { view result ≡ record { at = at; registry = registry.old; mask = mask_of filter } }
    {
        Context {
            registry,
            at,
            filter,
        }
    }

    /// The lane and the moment of what is asked or told.
    pub fn at(&self) -> At
        ensures { result ≡ (view self.now).at }
    {
        self.at
    }

    /// The span that the lane is in: its last entry that is no duplicate and that the filter passed.
    #[inline(always)]
    pub fn lookup_current(&self) -> Option<SpanRef<'_>>
        ensures { let v = view self.now in option_map plain_ref result ≡ option_map (ref_in v) (lane_span v) }
    {
        self.registry.current_under(self.at.lane, self.filter)
    }

    /// Which span the lane is in, as `lookup_current` finds it.
    pub fn current_span(&self) -> CurrentSpan
        ensures { result ≡ current_told (lane_span (view self.now)) }
    {
        match self.lookup_current() {
            None => CurrentSpan::Outside,
            Some(span) => CurrentSpan::Inside(span.id()),
        }
    }

    /// An open span, where the filter passed it.
    pub fn span(&self, id: &Id) -> Option<SpanRef<'_>>
        ensures { let v = view self.now in option_map plain_ref result ≡ option_map (ref_in v) (span_in v id.now) }
    {
        self.registry.span_under(id, self.filter)
    }

    /// Whether a span is open and the filter passed it.
    pub fn exists(&self, id: &Id) -> bool
        ensures { result ≡ is_some (span_in (view self.now) id.now) }
    {
        self.span(id).is_some()
    }

    /// The metadata of an open span, where the filter passed it.
    pub fn metadata(&self, id: &Id) -> Option<Metadata<'_>>
        ensures { option_map plain_metadata result ≡ option_map metadata_in (span_in (view self.now) id.now) }
    {
        match self.span(id) {
            None => None,
            Some(span) => Some(span.metadata()),
        }
    }

    /// A span and its ancestors, the nearest first, without those that the filter refused. None where the span
    /// is not open or refused itself.
    pub fn span_scope(&self, id: &Id) -> Option<Scope<'_>>
        ensures { let v = view self.now in option_map scope_left result ≡ option_map (scope_in v) (span_in v id.now) }
    {
        match self.span(id) {
            None => None,
            Some(span) => Some(span.scope()),
        }
    }

    /// The span that an event stands in: the one that it names, where the filter passed it, else none for a root,
    /// else the lane's.
    #[inline(always)]
    pub fn event_span(&self, event: &Event<'_, '_>) -> Option<SpanRef<'_>>
        ensures { let v = view self.now in option_map plain_ref result
            ≡ option_map (ref_in v) (event_span v (plain_event event.now).parent) }
    {
        if event.is_contextual() {
            return self.lookup_current();
        }
        match event.parent() {
            None => None,
            Some(id) => self.span(id),
        }
    }

    /// The span that an event stands in and its ancestors, the nearest first, without those that the filter
    /// refused.
    pub fn event_scope(&self, event: &Event<'_, '_>) -> Option<Scope<'_>>
        ensures { let v = view self.now in option_map scope_left result
            ≡ option_map (scope_in v) (event_span v (plain_event event.now).parent) }
    {
        match self.event_span(event) {
            None => None,
            Some(span) => Some(span.scope()),
        }
    }

    /// What outputs keep with a span, to be changed, where it is open and the filter passed it.
    pub fn extensions_mut(&mut self, id: &Id) -> Option<ExtensionsMut<'_>>
        ensures lent { option_map (λ s. s.now) result ≡ option_map slots_in (span_in (view self.old) id.now) }
        ensures* ends { sem 𝓛 (LendsSlots self.entry id.now result) }
    {
        let filter = self.filter;
        self.registry.extensions_mut_under(id, filter)
    }
}
