//! What holds of every stack.
ghost use Rattle.span_registry_layers.specs.RegistryIndependence.{RegistryStandsAlone, UnwrittenStandsAlone};
ghost use Rattle.span_registry_layers.specs.Keys.{CallsKeepToKeys, NewKeepsToKeys, TurnsKeepToKeys};
ghost use Rattle.span_registry_layers.specs.Numbers.{DroppedSpanTellsNobody, DroppedTellsNobody, NumbersStay, OneOutputDecides};
ghost use Rattle.span_registry_layers.specs.Numbers.{VerdictsAreOwn};
ghost use Rattle.span_registry_layers.specs.Soundness.{NewIsSound, StackStaysSound};

use span_registry_layers_layers::{Filter, Layer};

/// An event that no output's filter passes changes no layer and no filter, where the filters are honest.
pub fn dropped_events_tell_nobody<L: Layer, F: Filter>()
    ensures { DroppedTellsNobody ⟦<F as Filter>⟧ ⟦<L as Layer>⟧ }
{}

/// A span that no output's filter passes is dropped, and changes no layer and no filter, where the filters
/// are honest and a parent that is named is open.
pub fn dropped_spans_tell_nobody<L: Layer, F: Filter>()
    ensures { DroppedSpanTellsNobody ⟦<F as Filter>⟧ ⟦<L as Layer>⟧ }
{}

/// Each filter keeps its number, whatever is called: the numbers afterwards are those from before.
pub fn numbers_stay<L: Layer, F: Filter>()
    ensures { NumbersStay ⟦<F as Filter>⟧ ⟦<L as Layer>⟧ }
{}

/// What is kept with a new span is, of each output, what its filter answered when the span was made, and what
/// the filters in its layer said then.
pub fn verdicts_are_own<L: Layer, F: Filter>()
    ensures { VerdictsAreOwn ⟦<F as Filter>⟧ ⟦<L as Layer>⟧ }
{}

/// The registry of a new stack is sound, and each call keeps it so: ids rise, parents stand before their children, and
/// the listed spans are the open ones. So closes are told of a child before its parent.
pub fn stack_registry_stays_sound<L: Layer, F: Filter>()
    // The registry of a new stack is sound.
    ensures start { NewIsSound ⟦<F as Filter>⟧ ⟦<L as Layer>⟧ }
    ensures call { StackStaysSound ⟦<F as Filter>⟧ ⟦<L as Layer>⟧ }
{}

/// What a call leaves of a stack's registry is what the registry's own call leaves: outputs, filters and
/// layers have no say in ids, handles, entries and closes, but for whether a span is made, what is kept with
/// it of their filters' answers, and slots; and where no layer writes a slot, it is just so.
pub fn registry_stands_alone<L: Layer, F: Filter>()
    // A call leaves a stack's registry as the registry's own call does, but for whether a span is made, verdicts and slots.
    ensures slots { RegistryStandsAlone ⟦<F as Filter>⟧ ⟦<L as Layer>⟧ }
    // Where no layer writes a slot, a call leaves a stack's registry, slots included, as the registry's own call does, but for
    // whether a span is made and its verdicts.
    ensures unwritten { UnwrittenStandsAlone ⟦<F as Filter>⟧ ⟦<L as Layer>⟧ }
{}

/// In a stack of one output, whose layer has no filters, a span whose named parent is open is made where the
/// output's filter passes it, and what is kept with it passes under each number; else it is dropped.
pub fn one_output_decides<L: Layer, F: Filter>()
    ensures { OneOutputDecides ⟦<F as Filter>⟧ ⟦<L as Layer>⟧ }
{}

/// Where the layer of each output that a stack is made of writes slots under the output's key alone, so it is
/// in the stack and after each of the core's calls, which keep the outputs' keys; and what such an output is
/// told in its turn changes slots under its key alone.
pub fn layers_keep_to_keys<L: Layer, F: Filter>()
    // In a new stack each output's layer writes slots under the output's key alone, if it did so before.
    ensures start { NewKeepsToKeys ⟦<F as Filter>⟧ ⟦<L as Layer>⟧ }
    // Each call keeps the outputs' keys, and layers that write slots under their own output's key alone stay so.
    ensures call { CallsKeepToKeys ⟦<F as Filter>⟧ ⟦<L as Layer>⟧ }
    // An output whose layer writes slots under the output's key alone changes, when it is told something, nothing of the registry but
    // such slots.
    ensures turn { TurnsKeepToKeys ⟦<F as Filter>⟧ ⟦<L as Layer>⟧ }
{}
