//! What is asked of all outputs, and told to them, in order.
ghost use Rattle.std.specs.Prelude.{◌≡◌, IsTrue, None, Some, map, not, false};
ghost use Rattle.std.specs.List.{list_any};
ghost use Rattle.tracing_core_fields.specs.requests.Interests.{joined, settled};
ghost use Rattle.tracing_core_fields.specs.Metadata.{plain_metadata};
ghost use Rattle.tracing_core_fields.specs.requests.PlainRequests.{plain_event};
ghost use Rattle.span_registry_layers_store.specs.Verdicts.{all_pass};
ghost use Rattle.span_registry_layers_layers.specs.Several.{EachInTurn};
ghost use Rattle.span_registry_layers.specs.CommonAnswers.{AsksFrom, CommonInterest, common_hint};
ghost use Rattle.span_registry_layers.specs.OutputSlots.{AsksCallsite, AsksEvent, EachBecomes, TellsEvent, filters_of, is_marked, marked, marks_of};
ghost use Rattle.span_registry_layers.specs.Stacks.{some_passes};

mod spans;

use crate::output_slot::OutputSlot;
use span_registry_layers_layers::{Filter, Filtered, Layer, either_hint};
use span_registry_layers_store::{FilterMap, Registry};
pub(crate) use spans::{tell_dispatch, tell_follows, tell_new_span, tell_record, tell_step};
use tracing_core_fields::{Event, Interest, LevelFilter, Metadata};
use tracing_core_moments::At;

// Asks the filter of each output of the event, and marks what it answers.
#[inline(always)]
pub(crate) fn ask_event<L: Layer, F: Filter>(
    rows: &mut [OutputSlot<Filtered<L, F>>],
    event: &Event<'_, '_>,
    registry: &mut Registry,
    at: At,
)
    ensures asked { EachBecomes (AsksEvent ⟦<F as Filter>⟧ (plain_event event.now) at registry.old) rows.old rows.new }
    ensures same { registry.new ≡ registry.old }
{
    // A lone output needs no loop.
    if let [only] = rows {
        only.ask_event(event, registry, at);
        return;
    }
    for row in rows.iter_mut() {
        row.ask_event(event, registry, at);
    }
}

// Tells each output, in order, of the event, where that is marked.
#[inline(always)]
pub(crate) fn tell_event<L: Layer, F: Filter>(
    rows: &mut [OutputSlot<Filtered<L, F>>],
    event: &Event<'_, '_>,
    registry: &mut Registry,
    at: At,
)
    ensures { EachInTurn (TellsEvent ⟦<L as Layer>⟧ (plain_event event.now) at) registry.old rows.old registry.new
        rows.new }
{
    if let [only] = rows {
        only.tell_event(event, registry, at);
        return;
    }
    for row in rows.iter_mut() {
        row.tell_event(event, registry, at);
    }
}

// No filter passed the request.
pub(crate) fn clear_marks<O>(rows: &mut [OutputSlot<O>])
    ensures { rows.new ≡ map (marked false) rows.old }
{
    for row in rows.iter_mut() {
        row.clear();
    }
}

// Whether no output is marked.
fn none_marked<O>(rows: &[OutputSlot<O>]) -> bool
    ensures { result ≡ not (list_any is_marked rows.now) }
{
    let mut rest = rows;
    while let [row, later @ ..] = rest {
        if row.is_marked() {
            return false;
        }
        rest = later;
    }
    true
}

// Whether clearing the marks changes nothing.
#[tactic(auto, using(crate::proofs::Unmarked::cleared_same))]
pub(crate) fn are_clear<O>(rows: &[OutputSlot<O>]) -> bool
    ensures { IsTrue result → map (marked false) rows.now ≡ rows.now }
{
    none_marked(rows)
}

// Asks the filter of each output of a callsite, and marks what it answers.
pub(crate) fn ask_callsite<L: Layer, F: Filter>(
    rows: &mut [OutputSlot<Filtered<L, F>>],
    metadata: &Metadata<'_>,
    registry: &mut Registry,
    at: At,
)
    ensures asked { EachBecomes (AsksCallsite F.answers (plain_metadata metadata.now) at registry.old) rows.old rows.new }
    ensures same { registry.new ≡ registry.old }
{
    for row in rows.iter_mut() {
        row.ask_callsite(metadata, registry, at);
    }
}

// Whether some output is marked as passing.
pub(crate) fn some_passes<O>(rows: &[OutputSlot<O>]) -> bool
    ensures { result ≡ some_passes (marks_of rows.now) }
{
    let mut rest = rows;
    while let [row, later @ ..] = rest {
        if row.passed {
            return true;
        }
        rest = later;
    }
    false
}

// Asks each filter of a new span, also those in layers: which ones pass it, and whether an output's own does.
pub(crate) fn ask_span<L: Layer, F: Filter>(
    rows: &[OutputSlot<Filtered<L, F>>],
    metadata: &Metadata<'_>,
    registry: &mut Registry,
    at: At,
) -> (FilterMap, bool)
    ensures asked { AsksFrom ⟦<F as Filter>⟧ ⟦<L as Layer>⟧ (plain_metadata metadata.now) at registry.old all_pass
        false rows.now result.0.passed result.1 }
    ensures same { registry.new ≡ registry.old }
{
    let mut verdicts = FilterMap::all();
    let mut some = false;
    let mut rest = rows;
    while let [row, later @ ..] = rest {
        let (said, passes) = row.ask_span(metadata, registry, at, verdicts);
        verdicts = said;
        some = some || passes;
        rest = later;
    }
    (verdicts, some)
}

// With those before, where there were any.
fn join(before: Option<Interest>, answer: Interest) -> Option<Interest>
    ensures { result ≡ joined before answer }
{
    match before {
        None => Some(answer),
        Some(interest) => Some(interest.common(answer)),
    }
}

fn settle(interest: Option<Interest>) -> Interest
    ensures { result ≡ settled interest }
{
    match interest {
        None => Interest::never(),
        Some(interest) => interest,
    }
}

// What all filters have in common of a callsite, asked now.
pub(crate) fn ask_interest<L: Layer, F: Filter>(
    rows: &[OutputSlot<Filtered<L, F>>],
    metadata: &Metadata<'_>,
) -> Interest
    ensures { CommonInterest ⟦<F as Filter>⟧ (plain_metadata metadata.now) (filters_of rows.now) result }
{
    let mut interest = None;
    let mut rest = rows;
    while let [row, later @ ..] = rest {
        interest = join(interest, row.interest(metadata));
        rest = later;
    }
    settle(interest)
}

// The most verbose level that some filter passes, asked now; none where a filter doesn't know its own.
pub(crate) fn ask_hint<L: Layer, F: Filter>(
    rows: &[OutputSlot<Filtered<L, F>>],
) -> Option<LevelFilter>
    ensures { result ≡ common_hint ⟦<F as Filter>⟧ (Some 0) (filters_of rows.now) }
{
    let mut hint = Some(LevelFilter::OFF);
    for row in rows {
        hint = either_hint(hint, row.hint());
    }
    hint
}
