//! What is known of an event where its line is written.
ghost use Rattle.std.specs.Prelude.{◌≡◌, is_some, map, string_bytes};
ghost use Rattle.std.specs.Fn.{CalledAt};
ghost use Rattle.std.specs.Option.{option_map};
ghost use Rattle.tracing_core_fields.specs.Metadata.{plain_metadata};
ghost use Rattle.span_registry_layers_store.specs.References.{plain_ref, scope_left};
ghost use Rattle.span_registry_layers_layers.specs.Contexts.{current_told, lane_span, metadata_in};
ghost use Rattle.span_registry_layers_layers.specs.Contexts.{ref_in, scope_in, span_in};
ghost use Rattle.span_registry_layers_layers.specs.FilterViews.{view};
ghost use Rattle.event_formatter_text.specs.Lists.{Formats};
ghost use Rattle.event_formatter.specs.formats.Contexts.{plain_thread, spans_in};
ghost use Rattle.event_formatter.specs.formats.EventSpans.{HandsEach, leaf_in, refs_at};
ghost use Rattle.event_formatter.specs.formats.Scopes.{only_if, shown_at};

use crate::formats::scope::ScopedSpans;
use event_formatter_text::{FormatError, FormatFields, RecordFields, Settings, Writer};
use span_registry_layers_layers::Context;
use span_registry_layers_store::{OutputKey, Scope, SpanRef};
use std::alloc::Global;
use tracing_core_fields::{CurrentSpan, Id, Metadata};
use tracing_core_moments::At;

/// The thread that an event happened on.
#[derive(Clone, Copy, Debug, Drop)]
pub struct CurrentThread<'a> {
    /// Its name, where it has one.
    pub name: Option<&'a str>,
    /// Its number.
    pub id: u64,
    /// How many bytes the longest name has that was met so far. Shorter names are filled up with spaces.
    pub longest: usize,
}

// Hands each of the spans that is seen to the closure, up to its first refusal, which is the answer.
fn hand_each<E: Drop, F: FnMut(&SpanRef<'_>) -> Result<(), E>>(
    context: &Context<'_>,
    ids: &[Id],
    mut f: F,
) -> Result<(), E>
    requires { F.IsAlwaysCallable f }
    ensures { HandsEach (λ p span answer q. CalledAt F.FnMut p span answer q) (refs_at (view context.now) ids.now) f
        result }
{
    let mut rest = ids;
    while let Some((id, later)) = rest.split_first() {
        rest = later;
        let Some(span) = context.span(id) else {
            continue;
        };
        f(&span)?;
    }
    Ok(())
}

/// What a format may ask where it writes the line of an event: the moment, the thread, the spans, and how fields are
/// written.
#[derive(Drop)]
pub struct FmtContext<'c, 'r, N> {
    pub(crate) context: &'c Context<'r>,
    pub(crate) fields: &'c N,
    pub(crate) key: OutputKey,
    pub(crate) thread: CurrentThread<'c>,
    pub(crate) ids: &'c [Id],
    pub(crate) has_scope: bool,
}

impl<'c, 'r, N> FmtContext<'c, 'r, N> {
    /// The context of an event, of these parts. The ids are those of the spans that a line may show, and `has_scope` tells
    /// whether the event stands in them, as [`fill_scope`](crate::formats::fill_scope) gives both. The output's key is the one
    /// under which the spans' texts are kept.
    pub fn new(
        context: &'c Context<'r>,
        fields: &'c N,
        key: OutputKey,
        thread: CurrentThread<'c>,
        ids: &'c [Id],
        has_scope: bool,
    ) -> FmtContext<'c, 'r, N>
        ensures registry { result.context.now ≡ context.now }
        ensures fields { result.fields.now ≡ fields.now }
        ensures key { result.key ≡ key }
        ensures thread { plain_thread result.thread ≡ plain_thread thread.entry }
        ensures scope { (result.ids.now ≡ ids.now) × (result.has_scope ≡ has_scope) }
    {
        FmtContext {
            context,
            fields,
            key,
            thread,
            ids,
            has_scope,
        }
    }

    // A copy. Where only the copy is lent to calls that aren't inlined, the compiler keeps this context in registers.
    #[inline(always)]
    pub(crate) fn copied(&self) -> FmtContext<'c, 'r, N>
        ensures registry { result.context.now ≡ self.now.context.now }
        ensures fields { result.fields.now ≡ self.now.fields.now }
        ensures key { result.key ≡ self.now.key }
        ensures thread { plain_thread result.thread ≡ plain_thread self.now.thread }
        ensures scope { (result.ids.now ≡ self.now.ids.now) × (result.has_scope ≡ self.now.has_scope) }
    {
        let ids = self.ids;
        FmtContext {
            context: self.context,
            fields: self.fields,
            key: self.key,
            thread: self.thread,
            ids,
            has_scope: self.has_scope,
        }
    }

    /// The lane and the moment of the event.
    pub fn at(&self) -> At
        ensures { result ≡ (view self.now.context.now).at }
    {
        self.context.at()
    }

    /// The thread that the event happened on.
    pub fn thread(&self) -> CurrentThread<'c>
        ensures { plain_thread result ≡ plain_thread self.now.thread }
    {
        self.thread
    }

    // The ids of the spans that the event stands in, from the root on.
    fn strict_ids(&self) -> &'c [Id]
        ensures { result.now ≡ only_if self.now.has_scope self.now.ids.now }
    {
        if self.has_scope { self.ids } else { &[] }
    }

    /// The spans that the event stands in, from the root on. There are none for a root event, nor where its parent was
    /// refused by the output's filter.
    pub fn strict_spans(&self) -> ScopedSpans<'c, 'r>
        ensures { spans_in result ≡ only_if self.now.has_scope
            (map (shown_at (view self.now.context.now) self.now.key.0) self.now.ids.now) }
    {
        ScopedSpans {
            context: self.context,
            key: self.key,
            ids: self.strict_ids(),
        }
    }

    /// The spans that the event stands in, or else those that its lane is in, from the root on.
    pub fn loose_spans(&self) -> ScopedSpans<'c, 'r>
        ensures { spans_in result ≡ map (shown_at (view self.now.context.now) self.now.key.0) self.now.ids.now }
    {
        ScopedSpans {
            context: self.context,
            key: self.key,
            ids: self.ids,
        }
    }

    /// The metadata of an open span, where the filter passed it.
    pub fn metadata(&self, id: &Id) -> Option<Metadata<'_>>
        ensures { option_map plain_metadata result
            ≡ option_map metadata_in (span_in (view self.now.context.now) id.now) }
    {
        self.context.metadata(id)
    }

    /// An open span, where the filter passed it.
    pub fn span(&self, id: &Id) -> Option<SpanRef<'_>>
        ensures { let v = view self.now.context.now in option_map plain_ref result
            ≡ option_map (ref_in v) (span_in v id.now) }
    {
        self.context.span(id)
    }

    /// Whether a span is open and the filter passed it.
    pub fn exists(&self, id: &Id) -> bool
        ensures { result ≡ is_some (span_in (view self.now.context.now) id.now) }
    {
        self.context.exists(id)
    }

    /// The span that the lane is in, of those that the filter passed.
    pub fn lookup_current(&self) -> Option<SpanRef<'_>>
        ensures { let v = view self.now.context.now in option_map plain_ref result
            ≡ option_map (ref_in v) (lane_span v) }
    {
        self.context.lookup_current()
    }

    /// Which span the lane is in, as `lookup_current` finds it.
    pub fn current_span(&self) -> CurrentSpan
        ensures { result ≡ current_told (lane_span (view self.now.context.now)) }
    {
        self.context.current_span()
    }

    /// A span and its ancestors, the nearest first, without those that the filter refused.
    pub fn span_scope(&self, id: &Id) -> Option<Scope<'_>>
        ensures { let v = view self.now.context.now in option_map scope_left result
            ≡ option_map (scope_in v) (span_in v id.now) }
    {
        self.context.span_scope(id)
    }

    /// The innermost of the spans that the event stands in. There is none for a root event, nor where its parent was
    /// refused by the output's filter.
    #[tactic(auto, using(crate::proofs::formats::EventSpans::last_is))]
    pub fn parent_span(&self) -> Option<SpanRef<'_>>
        ensures { let v = view self.now.context.now in option_map plain_ref result
            ≡ option_map (ref_in v) (leaf_in v (only_if self.now.has_scope self.now.ids.now)) }
    {
        match self.strict_ids().last() {
            None => None,
            Some(id) => self.context.span(id),
        }
    }

    /// The innermost of the spans that the event stands in and its ancestors, the nearest first, without those that the
    /// filter refused.
    pub fn event_scope(&self) -> Option<Scope<'_>>
        ensures { let v = view self.now.context.now in option_map scope_left result
            ≡ option_map (scope_in v) (leaf_in v (only_if self.now.has_scope self.now.ids.now)) }
    {
        match self.parent_span() {
            None => None,
            Some(span) => Some(span.scope()),
        }
    }

    /// Hands each span that the event stands in to the closure, from the root on, up to its first refusal, which is the
    /// answer.
    ///
    /// # Errors
    ///
    /// That of the closure.
    pub fn visit_spans<E: Drop, F: FnMut(&SpanRef<'_>) -> Result<(), E>>(
        &self,
        f: F,
    ) -> Result<(), E>
        requires { F.IsAlwaysCallable f }
        ensures { HandsEach (λ p span answer q. CalledAt F.FnMut p span answer q)
            (refs_at (view self.now.context.now) (only_if self.now.has_scope self.now.ids.now)) f result }
    {
        hand_each(self.context, self.strict_ids(), f)
    }

    /// How fields are written.
    pub fn field_format(&self) -> &'c N
        ensures { result.now ≡ self.now.fields.now }
    {
        self.fields
    }
}

impl<N: FormatFields> FmtContext<'_, '_, N> {
    /// Appends the text of the fields.
    ///
    /// # Errors
    ///
    /// A value that can't be formatted, or out of memory. What was appended before is to be dropped.
    #[inline(always)]
    pub fn format_fields<R: RecordFields>(
        &self,
        alloc: Global,
        out: &mut String,
        settings: Settings,
        fields: &R,
    ) -> Result<(), FormatError>
        ensures { Formats (N.text_of self.now.fields.now settings (R.values fields.now)) (string_bytes out.old) result
            (string_bytes out.new) }
    {
        let mut writer = Writer::with_settings(out, settings);
        self.fields.format_fields(alloc, &mut writer, fields)
    }
}
