//! A trace, and its setup.
ghost use Rattle.std.specs.Prelude.{◌≡◌, IfOk, OnErr, OnOk, false, length, slice_get, string_bytes, true};
ghost use Rattle.std.specs.Option.{option_copied, option_map};
ghost use Rattle.tracing_core_fields.specs.Metadata.{plain_metadata};
ghost use Rattle.span_tracing_laws.specs.runs.Laws.{AskedFollows, SwapFollows};
ghost use Rattle.span_tracing_laws.specs.runs.DrivenSinks.{holds};
ghost use Rattle.span_tracing_laws.specs.runs.StepFollows.{TraceIsReady, registry_of};
ghost use Rattle.span_tracing_outputs.specs.OutputFilters.{StackSwap};
ghost use Rattle.span_tracing_outputs.specs.sinks.AnySinks.{TakesAny};
ghost use Rattle.span_tracing_outputs.specs.sinks.Routed.{TakesRouted};
ghost use Rattle.span_tracing_outputs.specs.sinks.SinkCalls.{outputs_hold};
ghost use Rattle.span_tracing_skeleton.specs.Looking.{inner, output_in};
ghost use Rattle.span_tracing_skeleton.specs.Refusing.{output_refusal};
ghost use Rattle.span_tracing_skeleton.specs.declared.call.Reply.TheVariants as Reply;
ghost use Rattle.span_tracing_skeleton.specs.declared.refusal.Refusal.TheVariants.{Busy};
ghost use Rattle.span_tracing_steps.specs.AnySteps.{holds_in};
ghost use Rattle.span_tracing_steps.specs.Asking.{AsksAnew};
ghost use Rattle.span_tracing_steps.specs.FilterSwaps.{SwapGives};
ghost use Rattle.span_tracing_steps.specs.Setup.{AddGives, RegisterGives, own_at, with_thread, without_retired};
ghost use Rattle.span_tracing_steps.specs.States.{new_state, skeleton_of, stack_in};

use event_formatter::{FormatEvent, Layer};
use event_formatter_text::FormatFields;
use span_registry_layers_layers::Filter;
use span_tracing_laws::setup_follows;
use span_tracing_outputs::{AnySink, LineSink, PendingLines, RoutedSinks, TraceStack};
use span_tracing_skeleton::{HasOutputs, HasRegistry, HasSinks, OutputPlace, Refusal, Reply};
use span_tracing_steps::TraceParts;
use std::alloc::{AllocError, Global};
use std::marker::Model;
use tracing_appender::LiveQueue;
use tracing_appender_rolling::Folder;
use tracing_core_fields::{Identifier, Interest, Metadata, Subscriber};

/// Takes calls of events and spans and answers replies, over stacks of the type `T`: each is a
/// [`TraceStack`](span_tracing_outputs::TraceStack) of outputs, which have sinks that take their lines.
///
/// Stacks are numbered from 0 in the order of adding. A *handle* is a number that holds a stack. A lane reaches the stack that is its own
/// default, or else the global default; its own default may be that it reaches nothing. These hold their stacks, too. So does a *guard*, a
/// number that keeps a lane's earlier default, until it is spent. A stack that nobody holds any more is *released*: it takes no further
/// call, and can be read until it is taken.
///
/// A contract sees a trace as what its hub keeps (stacks with who holds them, callsites with the interest in them, lanes and the global
/// default), the lanes' threads, how many outputs and sinks each stack has, handles, guards, and the stacks that were released.
pub struct Trace<T: Subscriber> {
    pub(crate) parts: TraceParts<T>,
}

/// It is written down, so that whoever lets a trace go needs no proof of his own for each of its parts.
impl<T: Subscriber> Drop for Trace<T> {
    fn drop(self) {
        let Trace { parts: _parts } = self;
    }
}

impl<T: Subscriber> Model for Trace<T> {
    ghost use Rattle.span_tracing_steps.specs.TraceInvariant.{IsSound};
    ghost use Rattle.span_tracing_steps.specs.States.{StateValue, value_in};

    ghost Value = { StateValue T };

    ghost view = { λ t. value_in t.parts };

    ghost invariant = { λ t. IsSound t.parts };
}

impl<T: Subscriber> Trace<T> {
    /// A trace with no stack, no lane and no callsite.
    pub fn new(alloc: Global) -> Trace<T>
        ensures { result ≡ new_state }
    {
        Trace {
            parts: TraceParts::new(alloc),
        }
    }

    /// How many stacks were added.
    pub fn stack_count(&self) -> usize
        ensures { result ≡ self.now.hub.next }
    {
        self.parts.given()
    }

    /// The stack with this number, also where it was released and isn't taken yet.
    pub fn stack(&self, number: usize) -> Option<&T>
        ensures { option_copied result ≡ stack_in self.now number }
    {
        self.parts.stack(number)
    }

    /// Where the output with this number stands, also where its stack was released. Outputs are numbered from 0 through all stacks, in the
    /// order in which they were added.
    pub fn output_place(&self, output: usize) -> Option<OutputPlace>
        ensures { result ≡ output_in self.now.outputs 0 output }
    {
        self.parts.output_place(output)
    }

    /// Adds a lane, and answers its number: lanes are numbered from 0. No layer is told of its thread yet, so that lines show
    /// only the threads that their layer was told of.
    ///
    /// # Errors
    ///
    /// Out of memory, which leaves the trace as it was.
    pub fn thread(&mut self, name: Option<String>, thread_id: u64) -> Result<usize, AllocError>
        ensures number { IfOk result (λ lane. lane ≡ length self.old.threads) }
        // The new lane, with its name and its thread's number, stands behind the others and has no default of its own, and nothing else
        // changes.
        ensures ok { OnOk result (self.new ≡ with_thread self.old
            (record { name = option_map string_bytes name; number = thread_id })) }
        // Where there is no memory, the trace stays as it was.
        ensures err { OnErr result (self.new ≡ self.old) }
    {
        self.parts.thread(name, thread_id)
    }

    /// Registers a callsite under an identifier, and answers the interest in it that is kept: what the stacks have in common of it,
    /// and never where no stack is held. Equal metadata may be registered again, which answers the kept interest
    /// and changes nothing.
    ///
    /// # Errors
    ///
    /// `Taken` where other metadata holds the identifier, else `OutOfMemory`; both leave the trace as it was.
    pub fn register(
        &mut self,
        identifier: Identifier,
        metadata: &Metadata<'_>,
    ) -> Result<Interest, Refusal>
        ensures { RegisterGives ⟦<T as Subscriber>⟧ self.old
            (own_at identifier.0 (plain_metadata metadata.now)) result self.new }
    {
        self.parts.register(identifier, metadata)
    }

    /// Takes the stack with this number, where it was released and wasn't taken yet. The sinks of its outputs come with it, so that their
    /// files close when it is let go. Spans of the stack and its handles stay refused as before.
    pub fn take_retired(&mut self, number: usize) -> Option<T>
        // It is the stack that waits under the number, where one does.
        ensures taken { result ≡ inner (slice_get self.old.retired number) }
        // It doesn't wait any more, and nothing else changes.
        ensures left { self.new ≡ without_retired self.old number }
    {
        self.parts.take_retired(number)
    }
}

impl<T: Subscriber + HasRegistry + HasOutputs + HasSinks> Trace<T> {
    /// Takes a stack under the next number, and answers the number of its handle. The stack is told of its handle, and asked of each
    /// callsite and for its hint. Its outputs get the next numbers, in order, and so do their sinks. A ready trace stays ready where the
    /// stack is.
    ///
    /// # Errors
    ///
    /// Out of memory, which leaves the trace as it was and gives the stack back.
    pub fn add_stack(&mut self, stack: T) -> Result<usize, T>
        // The stack is told its handle, is asked of each callsite in order and for its hint, and is kept with what it said; its handle
        // stands behind the others, and its outputs and sinks are counted. Or it comes back, and nothing changes.
        ensures gives { AddGives ⟦<T as Subscriber>⟧ T.outputs_in T.sinks_in self.old stack result self.new }
    {
        self.parts.add_stack(stack)
    }
}

impl<T: Subscriber + HasRegistry> Trace<T> {
    /// Why a call on the output with this number is refused, if it is: there is no such output (`NoOutput`), or nobody holds its stack
    /// (`ReleasedStack`).
    pub fn output_refusal(&self, output: usize) -> Option<Refusal>
        ensures { result ≡ output_refusal (skeleton_of T.registry_of self.now) output }
    {
        self.parts.output_refusal(output)
    }
}

impl<N: FormatFields + Drop, E: FormatEvent, F: Filter, D: Folder, Q: LiveQueue> Trace<
    TraceStack<N, E, F, RoutedSinks<AnySink<D, Q>>>,
> {
    /// Lets the filter of an output and this one change places. From the next step on the new filter decides which events and new spans the
    /// output is told of. A span that is open stays passed or refused as the filter had it that stood when it was made. Outputs are
    /// numbered from 0 through all stacks, in the order in which they were added. Refused while a line is held (`Busy`), and as
    /// [`output_refusal`](Trace::output_refusal) says. It needs no memory; where there is none, answers that are kept of callsites are left
    /// out. `tracing-subscriber` has its `reload` for this.
    pub fn swap_filter(&mut self, output: usize, filter: &mut F) -> Reply
        // While a line is held, it is refused and changes nothing.
        ensures busy { holds_in (holds outputs_hold) self.old ≡ true →
            (result ≡ Reply.Refused Busy) × (self.new ≡ self.old) × (filter.new ≡ filter.old) }
        // Else a refused call changes nothing. One that isn't refused lets the filters change places, the stack and maybe others are asked
        // anew, what is kept of callsites and the greatest level are formed anew, and all else stays.
        ensures gives { holds_in (holds outputs_hold) self.old ≡ false →
            SwapGives ⟦<TraceStack<N, E, F, RoutedSinks<AnySink<D, Q>>> as Subscriber>⟧ registry_of
            (λ x place f y b. StackSwap ⟦<F as Filter>⟧ x place f y b) self.old output filter.old result self.new filter.new }
        // A ready trace stays ready then where the filter is honest. Its skeleton is the same, its stacks are but for that filter and what
        // filters and outputs were last told, and outputs agree with the machines that they agreed with.
        ensures follows { holds_in (holds outputs_hold) self.old ≡ false →
            TraceIsReady ⟦<F as Filter>⟧ ⟦<Layer<N, E, PendingLines> as span_registry_layers_layers::Layer>⟧ self.old →
            F.honest filter.old → SwapFollows ⟦<N as FormatFields>⟧ E.line_of ⟦<F as Filter>⟧ (TakesRouted (TakesAny D.contents D.failed Q.settles))
            ⟦<Layer<N, E, PendingLines> as span_registry_layers_layers::Layer>⟧
            ⟦<TraceStack<N, E, F, RoutedSinks<AnySink<D, Q>>> as Subscriber>⟧
            self.old output filter.old self.new }
    {
        setup_follows::<N, E, F, RoutedSinks<AnySink<D, Q>>>();
        if self.parts.is_busy() {
            return Reply::Refused(Refusal::Busy);
        }
        self.parts.swap_filter(output, filter)
    }
}

impl<N: FormatFields + Drop, E: FormatEvent, F: Filter, S: LineSink> Trace<TraceStack<N, E, F, S>> {
    /// Asks all filters anew of each callsite and for their greatest levels, and keeps what they say. An honest filter answers as it did
    /// before, and setup calls ask on their own, so it is wanted only where a filter changes its answers by itself. Of such a filter little
    /// is promised.
    pub fn rebuild_interest_cache(&mut self)
        ensures asked { AsksAnew ⟦<TraceStack<N, E, F, S> as Subscriber>⟧ self.old self.new }
        // A ready trace stays ready, and all is as before but for what filters and outputs were last told. What is kept of the interest in
        // callsites is right then, whatever it was before.
        ensures follows { TraceIsReady ⟦<F as Filter>⟧ ⟦<Layer<N, E, PendingLines> as span_registry_layers_layers::Layer>⟧ self.old →
            AskedFollows ⟦<N as FormatFields>⟧ E.line_of ⟦<F as Filter>⟧ S.takes
            ⟦<Layer<N, E, PendingLines> as span_registry_layers_layers::Layer>⟧ ⟦<TraceStack<N, E, F, S> as Subscriber>⟧
            self.old self.new }
    {
        setup_follows::<N, E, F, S>();
        self.parts.rebuild_interest_cache();
    }
}
