//! How long spans were busy and idle, as it is kept.
ghost use Rattle.std.specs.Prelude.{◌≡◌, Some, is_some};
ghost use Rattle.std.specs.Option.{option_map};
ghost use Rattle.span_registry_layers_layers.specs.FilterViews.{SameLoan, left, view};
ghost use Rattle.span_registry_layers_store.specs.Slots.{plain_slot};
ghost use Rattle.event_formatter_lines.specs.slots.FieldsAndTimings.{timings_by};
ghost use Rattle.event_formatter_lines.specs.slots.SlotsByTag.{Leaves, by_tag, kept_by};
ghost use Rattle.event_formatter_lines.specs.slots.SpanUpdates.{Rekeeps, kept_in};
ghost use Rattle.event_formatter_lines.specs.slots.SteppedTimings.{kept_stepped, slot_after, timings_after};

use crate::times::{timings_after_close, timings_after_enter, timings_after_exit};
use span_registry_layers_layers::Context;
use span_registry_layers_store::{Extensions, OutputKey, Slot, Tag, Timings};
use tracing_core_fields::Id;
use tracing_core_moments::At;

/// What a span is told that counts for its timings.
#[derive(Clone, Copy, Debug, PartialEq, Eq)]
pub enum TimingStep {
    /// It was entered.
    Enter,
    /// It was left.
    Exit,
    /// It closes.
    Close,
}

// The timings after the step at this moment.
fn timings_after(step: TimingStep, at: At, timings: &Timings) -> Timings
    ensures { result ≡ timings_after step at timings.now }
{
    match step {
        TimingStep::Enter => timings_after_enter(timings, at.seconds, at.nanoseconds),
        TimingStep::Exit => timings_after_exit(timings, at.seconds, at.nanoseconds),
        TimingStep::Close => timings_after_close(timings, at.seconds, at.nanoseconds),
    }
}

// The same of timings in a box, which are changed.
fn step_boxed(timings: &mut Box<Timings>, step: TimingStep, at: At) -> Timings
    ensures kept { timings.new.value ≡ timings_after step at timings.old.value }
    ensures answered { result ≡ timings.new.value }
{
    let after = timings_after(step, at, timings);
    **timings = after;
    after
}

// The same of a slot, where it has timings.
fn step_slot(slot: &mut Slot, step: TimingStep, at: At) -> Option<Timings>
    ensures kept { plain_slot slot.new ≡ slot_after step at (plain_slot slot.old) }
    ensures answered { result ≡ timings_by (Some (plain_slot slot.new)) }
{
    match slot {
        Slot::Timings(timings) => Some(step_boxed(timings, step, at)),
        Slot::Text(_) | Slot::Number(_) | Slot::Words(_) => None,
    }
}

// The same of timings that are kept in slots.
fn step_kept(slots: &mut Extensions, key: OutputKey, step: TimingStep, at: At) -> Option<Timings>
    ensures kept { Leaves (by_tag key.0 slots.old) (kept_stepped step at (kept_by (by_tag key.0 slots.old)))
        (by_tag key.0 slots.new) }
    ensures answered { result ≡ (kept_stepped step at (kept_by (by_tag key.0 slots.old))).timings }
{
    match slots.get_mut(key, Tag::Timings) {
        None => None,
        Some(slot) => step_slot(slot, step, at),
    }
}

// Whether timings are kept with the span, where the context sees it.
#[inline(always)]
fn keeps_timings(context: &Context<'_>, span: &Id, key: OutputKey) -> bool
    ensures { result ≡ is_some (kept_in (view context.now) span.now key.0).timings }
{
    match context.span(span) {
        None => false,
        Some(found) => matches!(found.slot(key, Tag::Timings), Some(Slot::Timings(_))),
    }
}

/// Brings the timings that are kept with a span up to the context's moment, and answers them.
///
/// Where the context doesn't see the span, or no timings are kept, there is nothing to answer and nothing happens.
pub fn step_timings(
    context: &mut Context<'_>,
    span: &Id,
    key: OutputKey,
    step: TimingStep,
) -> Option<Timings>
    ensures lent { SameLoan context.old context.new }
    ensures kept { let v = view context.old in
        Rekeeps v span.now key.0 (kept_stepped step v.at (kept_in v span.now key.0)) (left context.new) }
    ensures answered { let v = view context.old in
        result ≡ (kept_stepped step v.at (kept_in v span.now key.0)).timings }
{
    // Most spans keep none, and a look costs less than a loan of what is to be changed.
    if !keeps_timings(context, span, key) {
        return None;
    }
    let at = context.at();
    match context.extensions_mut(span) {
        None => None,
        Some(slots) => step_kept(slots, key, step, at),
    }
}
