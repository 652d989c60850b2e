//! Outputs over a registry of spans.
ghost use Rattle.std.specs.Prelude.{◌≡◌, IfOk};
ghost use Rattle.tracing_core_fields.specs.requests.Lists.{Every};
ghost use Rattle.tracing_core_fields.specs.Metadata.{plain_metadata};
ghost use Rattle.tracing_core_fields.specs.requests.PlainRequests.{plain_event};
ghost use Rattle.span_registry_layers_layers.specs.declared.filtered.Filtered.{Filtered};
ghost use Rattle.span_registry_layers.specs.NewStack.{NewGives};
ghost use Rattle.span_registry_layers.specs.Numbers.{HasNumbers};
ghost use Rattle.span_registry_layers.specs.OutputSlots.{filters_of};
ghost use Rattle.span_registry_layers.specs.Stacks.{EventAsked, EventCached, PassesAsked, PassesCached, QuestionAsked, QuestionCached};
ghost use Rattle.span_registry_layers.specs.Stacks.{cleared};
ghost use Rattle.span_registry_layers.specs.CacheValidity.{CacheIsValid};
ghost use Rattle.span_registry_layers.specs.declared.output.Output.{Output};

mod asking;
mod reading;
mod spans;
mod swapping;
mod taking;

use crate::output::{Output, StackError, StackRefusal, refusal};
use crate::parts::StackParts;
use span_registry_layers_layers::{Filter, Filtered, Layer};
use std::alloc::Global;
use std::marker::Model;
pub use taking::IntoOutputs;
use tracing_core_fields::{Event, Metadata, RequestError};
use tracing_core_moments::At;

/// Outputs in order, over one registry of spans.
///
/// It keeps what its filters have in common of callsites, and their hint, and asks nobody where these refuse. While
/// what is kept is right, which a contract says by `CacheIsValid`, each call is what asking every filter again gives.
///
/// A contract sees a stack as a `StackValue`.
pub struct Stack<O> {
    pub(crate) parts: StackParts<O>,
}

/// It is written down, so that whoever lets a stack go needs no proof of his own for each of its parts.
impl<O: Drop> Drop for Stack<O> {
    fn drop(self) {
        let Stack { parts: _parts } = self;
    }
}

impl<O> Model for Stack<O> {
    ghost use Rattle.span_registry_layers.specs.Stacks.{StackValue, plain_stack};

    ghost Value = { StackValue O };

    ghost view = { λ s. plain_stack s.parts };
}

impl<L: Layer, F: Filter> Stack<Filtered<L, F>> {
    /// The outputs in order, over a registry without spans, which numbers their filters, also those in their layers.
    ///
    /// # Errors
    ///
    /// `NoOutput` where there is none, else `TooManyFilters` where there are more than 64, else `EqualKeys`
    /// where two have the same key, else `OutOfMemory`. The outputs come back.
    pub fn new(
        alloc: Global,
        outputs: Vec<Output<Filtered<L, F>>>,
    ) -> Result<Stack<Filtered<L, F>>, StackRefusal<Filtered<L, F>>>
        // The outputs become a stack, unless there is none, their filters are too many (those in layers count), keys are equal, or
        // memory runs out: then they come back in order.
        ensures exact { NewGives ⟦<L as Layer>⟧ ⟦<F as Filter>⟧ outputs.items result }
        // Each filter, also one in a layer, has a number of its own below 64.
        ensures numbers { IfOk result (λ s. HasNumbers ⟦<L as Layer>⟧ s) }
        // Where the stack's filters are honest, its cache is valid.
        ensures kept { IfOk result (λ s. Every (λ f. F.honest f) (filters_of s.rows) → CacheIsValid ⟦<F as Filter>⟧ s) }
        // Where the outputs' filters are honest, the new stack's cache is valid.
        ensures honest { Every (λ (o : Output (Filtered L F)). F.honest o.output.filter) outputs.items →
            IfOk result (λ s. CacheIsValid ⟦<F as Filter>⟧ s) }
    {
        Stack::build(alloc, outputs)
    }

    fn build(
        alloc: Global,
        outputs: Vec<Output<Filtered<L, F>>>,
    ) -> Result<Stack<Filtered<L, F>>, StackRefusal<Filtered<L, F>>>
        ensures { NewGives ⟦<L as Layer>⟧ ⟦<F as Filter>⟧ outputs.items result }
    {
        if let Some(error) = refusal(&outputs) {
            return Err(StackRefusal { error, outputs });
        }
        let mut parts = match StackParts::new(alloc, outputs) {
            Ok(parts) => parts,
            Err(outputs) => {
                return Err(StackRefusal {
                    error: StackError::OutOfMemory,
                    outputs,
                });
            }
        };
        let _hint = parts.ask_hint();
        Ok(Stack { parts })
    }

    /// Asks the outputs' own filters, then tells each output, in order, whose filter passes the event; it
    /// asks nobody where what is kept refuses it.
    ///
    /// No output's own filter sees what is written at this event. An output sees the slots that those told
    /// before it wrote, and so does a filter in its layer, which is asked when the output is told.
    ///
    /// # Errors
    ///
    /// `UnknownParent` where a parent is named that is not open, which leaves the stack as it was.
    #[inline(always)]
    pub fn event(&mut self, event: &Event<'_, '_>, at: At) -> Result<(), RequestError>
        ensures exact { EventCached ⟦<F as Filter>⟧ ⟦<L as Layer>⟧ (plain_event event.now) at self.old result self.new }
        // With a valid cache this goes as if every output's filter were asked.
        ensures asking { CacheIsValid ⟦<F as Filter>⟧ self.old →
            EventAsked ⟦<F as Filter>⟧ ⟦<L as Layer>⟧ (plain_event event.now) at self.old result self.new }
        // A valid cache stays valid.
        ensures kept { CacheIsValid ⟦<F as Filter>⟧ self.old → CacheIsValid ⟦<F as Filter>⟧ self.new }
    {
        self.parts.event(event, at)
    }

    /// Whether some output's filter passes what is made of the callsite there and then.
    ///
    /// Each output's filter is asked, also behind one that passes, and what it answers is marked ([`passed`](Stack::passed)); no output is
    /// told anything. Where what is kept refuses the callsite, nobody is asked, and no mark is left.
    pub fn enabled(&mut self, metadata: &Metadata<'_>, at: At) -> bool
        ensures exact { PassesCached ⟦<F as Filter>⟧ self.old (plain_metadata metadata.now) at result }
        // With a valid cache the answer is whether some output's filter passes the callsite, by its current answer.
        ensures asking { CacheIsValid ⟦<F as Filter>⟧ self.old →
            PassesAsked ⟦<F as Filter>⟧ self.old (plain_metadata metadata.now) at result }
        // What each output's filter answers is marked, or nothing where what is kept refuses the callsite; the answer is whether some mark
        // is left.
        ensures marks { QuestionCached ⟦<F as Filter>⟧ (plain_metadata metadata.now) at self.old result self.new }
        // With a valid cache the marks are what each output's filter answers, asked again.
        ensures marked { CacheIsValid ⟦<F as Filter>⟧ self.old →
            QuestionAsked ⟦<F as Filter>⟧ (plain_metadata metadata.now) at self.old result self.new }
        // Nothing but marks changes.
        ensures alike { cleared self.new ≡ cleared self.old }
        // A valid cache stays valid.
        ensures kept { CacheIsValid ⟦<F as Filter>⟧ self.old → CacheIsValid ⟦<F as Filter>⟧ self.new }
    {
        self.parts.enabled(metadata, at)
    }
}
