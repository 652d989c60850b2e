//! The spans that a line shows, read from the registry.
ghost use Rattle.std.specs.Prelude.{◌≡◌, ◌<◌, [], ◌∷◌, IfOk, OnOk, map, reverse};
ghost use Rattle.std.specs.Option.{option_map};
ghost use Rattle.tracing_core_fields.specs.requests.PlainRequests.{plain_event};
ghost use Rattle.span_registry_layers_layers.specs.Contexts.{event_span, lane_span, ref_in};
ghost use Rattle.span_registry_layers_layers.specs.FilterViews.{view};
ghost use Rattle.span_registry_layers_store.specs.References.{plain_ref, scope_left};
ghost use Rattle.event_formatter_lines.specs.Shown.{plain_shown};
ghost use Rattle.event_formatter.specs.formats.Scopes.{shown_span};
ghost use Rattle.event_formatter.specs.formats.ScopeIds.{FillsScope, HasNumber, IsSeen, ShowsScope, id_of_ref, ids_to, ids_up};

use crate::formats::cold_path::refused;
use event_formatter_lines::{ShownSpan, ShownSpans, kept_text};
use span_registry_layers_layers::Context;
use span_registry_layers_store::{OutputKey, Scope, SpanRef};
use std::alloc::AllocError;
use tracing_core_fields::{Event, Id};

/// The spans of a scope, from the root on, by their ids. A span that isn't open, or that the filter refused, has no
/// name.
#[derive(Clone, Copy, Drop)]
pub struct ScopedSpans<'c, 'r> {
    pub(crate) context: &'c Context<'r>,
    pub(crate) key: OutputKey,
    pub(crate) ids: &'c [Id],
}

// A span as a line shows it.
#[inline(always)]
fn shown_span<'a>(span: &SpanRef<'a>, key: OutputKey) -> ShownSpan<'a>
    ensures { plain_shown result ≡ shown_span key.0 (plain_ref span.now).span }
{
    let metadata = span.metadata();
    // The proof's borrow checker knows the type of the fields by a call alone.
    let _fields = metadata.fields();
    ShownSpan {
        name: metadata.name(),
        target: metadata.target(),
        text: kept_text(span, key),
    }
}

impl ShownSpans for ScopedSpans<'_, '_> {
    ghost use Rattle.event_formatter.specs.formats.Contexts.{spans_in};

    ghost spans = { spans_in };

    fn count(&self) -> usize {
        self.ids.len()
    }

    #[inline(always)]
    fn span(&self, index: usize) -> ShownSpan<'_> {
        match self.context.span(&self.ids[index]) {
            Some(span) => shown_span(&span, self.key),
            None => ShownSpan {
                name: "",
                target: "",
                text: "",
            },
        }
    }
}

// The id of a span. The proof sees by this call that it isn't 0.
fn id_of(span: &SpanRef<'_>) -> Id
    ensures same { result ≡ (plain_ref span.now).span.kin.id }
    ensures number { 0 < result }
{
    span.id()
}

// The ancestors of a span that is open and seen. With it in front they are its scope.
#[inline(always)]
fn above_of<'a>(leaf: &SpanRef<'a>) -> Scope<'a>
    requires { IsSeen (plain_ref leaf.now) }
    ensures { let r = plain_ref leaf.now in ids_up r ≡ r.span.kin.id ∷ map id_of_ref (scope_left result) }
{
    let _id = id_of(leaf);
    leaf.ancestors()
}

// Puts the ids of a span and its ancestors, from the root on, into an empty list. A span alone needs no loop.
#[inline(always)]
fn fill_from(ids: &mut Vec<Id>, leaf: &SpanRef<'_>) -> Result<(), AllocError>
    requires empty { ids.old.items ≡ [] }
    requires seen { IsSeen (plain_ref leaf.now) }
    ensures { OnOk result (ids.new.items ≡ reverse (ids_up (plain_ref leaf.now))) }
{
    let Ok(()) = ids.push(leaf.id()) else {
        return Err(refused());
    };
    let mut above = above_of(leaf);
    let Some(parent) = above.next() else {
        return Ok(());
    };
    ids.push(parent.id())?;
    for span in above {
        ids.push(span.id())?;
    }
    ids.reverse();
    Ok(())
}

// Puts the ids of the spans that the lane is in, from the root on, into an empty list.
#[inline(never)]
fn fill_from_lane(context: &Context<'_>, ids: &mut Vec<Id>) -> Result<(), AllocError>
    requires { ids.old.items ≡ [] }
    ensures { let v = view context.now in OnOk result (ids.new.items
        ≡ reverse (ids_to (option_map (ref_in v) (lane_span v)))) }
{
    match context.lookup_current() {
        None => Ok(()),
        Some(span) => fill_from(ids, &span),
    }
}

/// Puts the ids of the spans that a line of the event may show, from the root on, in place of what the list held.
/// Those are the span that the event stands in and its ancestors; where there is none, the lane's span and its
/// ancestors. The answer tells whether the event stands in them.
///
/// # Errors
///
/// Out of memory. The list then holds some of them.
#[inline(always)]
pub fn fill_scope(
    context: &Context<'_>,
    event: &Event<'_, '_>,
    ids: &mut Vec<Id>,
) -> Result<bool, AllocError>
    // The ids are those of the span that the event stands in and its ancestors, or else of the lane's span and its ancestors, from
    // the root on; the answer tells whether the event stands in a span.
    ensures spans { IfOk result (λ stands_in.
        FillsScope (view context.now) (plain_event event.now).parent ids.new.items stands_in) }
    ensures number { IfOk result (λ _. HasNumber (event_span (view context.now) (plain_event event.now).parent)) }
    ensures shown { IfOk result (λ stands_in.
        ShowsScope (view context.now) (plain_event event.now).parent ids.new.items stands_in) }
{
    ids.clear();
    match context.event_span(event) {
        None => {
            fill_from_lane(context, ids)?;
            Ok(false)
        }
        Some(span) => {
            let _id = id_of(&span);
            fill_from(ids, &span)?;
            Ok(true)
        }
    }
}
