//! A trace that lanes may share.
ghost use Rattle.std.specs.Prelude.{◌≡◌};
ghost use Rattle.span_tracing.specs.CarriedSteps.{FitsMask, asked_by};
ghost use Rattle.span_tracing_laws.specs.runs.StepFollows.{skeleton_of};
ghost use Rattle.span_tracing_laws.specs.runs.StepMasks.{marks_at, unless_refused};
ghost use Rattle.span_tracing_skeleton.specs.PlainData.{any_step};

use crate::trace::Trace;
use event_formatter::{FormatEvent, Layer};
use event_formatter_text::FormatFields;
use span_registry_layers_layers::Filter;
use span_tracing_laws::plain_steps_follow;
use span_tracing_outputs::{AnySink, PendingLines, RoutedSinks, TraceStack};
use span_tracing_shared::{CarriesOut, Mask};
use span_tracing_skeleton::{Reply, Step};
use span_tracing_steps::TraceTable;
use std::alloc::AllocError;
use tracing_appender::LiveQueue;
use tracing_appender_rolling::Folder;
use tracing_core_fields::Subscriber;

impl<N: FormatFields + Drop, E: FormatEvent, F: Filter, D: Folder, Q: LiveQueue> Trace<
    TraceStack<N, E, F, RoutedSinks<AnySink<D, Q>>>,
> {
    // The stack whose outputs' filters a step asks.
    fn asked_by(&self, step: &Step) -> Option<usize>
        ensures { result ≡ asked_by (skeleton_of self.now) (any_step step.now) }
    {
        match step {
            Step::Event(event) => self.parts.reach(event.lane),
            Step::Enabled(call) => self.parts.reach(call.lane),
            Step::NewSpan(span) => self.parts.reach(span.lane),
            _ => None,
        }
    }

    // What the filters of a stack's outputs answered to the last request.
    fn marks_at(&self, asked: Option<usize>) -> Mask
        ensures { FitsMask asked self.now → result ≡ marks_at asked self.now }
    {
        let Some(number) = asked else {
            return Mask::none();
        };
        let Some(stack) = self.parts.held(number) else {
            return Mask::none();
        };
        let outputs = stack.stack().len();
        if outputs > 64 {
            return Mask::none();
        }
        Mask::of(outputs, stack.passed_by())
    }

    // What the filters of the stack that a step asked answered to it, once it was taken.
    fn mask_of(&self, asked: Option<usize>, reply: &Reply) -> Mask
        ensures { FitsMask asked self.now → result ≡ unless_refused reply.now (marks_at asked self.now) }
    {
        match reply {
            Reply::Refused(_) => Mask::none(),
            _ => self.marks_at(asked),
        }
    }
}

impl<N: FormatFields + Drop, E: FormatEvent, F: Filter, D: Folder, Q: LiveQueue> CarriesOut
    for Trace<TraceStack<N, E, F, RoutedSinks<AnySink<D, Q>>>> {
    ghost use Rattle.span_tracing.specs.CarriedSteps.{IsMaskOf, mask_of};
    ghost use Rattle.span_tracing.specs.Ready.{IsStep};
    ghost use Rattle.span_tracing_laws.specs.runs.StepFollows.{TraceIsReady, skeleton_of};
    ghost use Rattle.span_tracing_steps.specs.Tables.{table_skeleton};

    type Start = TraceTable;

    ghost skeleton = { λ v. skeleton_of v };

    ghost copied = { λ table. table_skeleton table };

    ghost ready = { λ v. TraceIsReady ⟦<F as Filter>⟧ ⟦<Layer<N, E, PendingLines> as span_registry_layers_layers::Layer>⟧ v };

    // It is a step of the trace. The mask of an event, a question and a new span is the marks that it left: what the filter of each output
    // of the reached stack answers, asked again.

    ghost gives = { λ v step reply mask w. IsStep D.contents D.failed Q.settles
        ⟦<TraceStack<N, E, F, RoutedSinks<AnySink<D, Q>>> as Subscriber>⟧ ⟦<N as FormatFields>⟧ E.line_of ⟦<F as Filter>⟧
        ⟦<Layer<N, E, PendingLines> as span_registry_layers_layers::Layer>⟧ v step reply w × (mask ≡ mask_of v step reply w)
        × IsMaskOf ⟦<F as Filter>⟧ v step reply mask };

    fn start(&self) -> Result<TraceTable, AllocError> {
        self.parts.table()
    }

    fn lane_count(&self) -> usize {
        self.parts.lane_count()
    }

    fn carry_out(&mut self, step: &Step) -> (Reply, Mask) {
        plain_steps_follow::<N, E, F, RoutedSinks<AnySink<D, Q>>>();
        let asked = self.asked_by(step);
        let reply = self.step(step);
        let mask = self.mask_of(asked, &reply);
        (reply, mask)
    }
}
