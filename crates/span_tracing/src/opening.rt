//! A trace with its outputs, in one call.
ghost use Rattle.std.specs.Prelude.{◌≡◌, ◌∷◌, [], Err, IfOk, None, length, true, false};
ghost use Rattle.tracing_core_fields.specs.requests.Lists.{Every};
ghost use Rattle.tracing_core_moments.specs.Moments.{is_moment};
ghost use Rattle.span_tracing.specs.OpenedTrace.{HasOutputs, ReachesFirst, sinks_asked};
ghost use Rattle.span_tracing_laws.specs.runs.StepFollows.{TraceIsReady, skeleton_of};
ghost use Rattle.span_tracing_skeleton.specs.Counting.{IsCounted};
ghost use Rattle.span_tracing_steps.specs.States.{stack_in};
ghost use Rattle.span_tracing_outputs.specs.files.OpenedStack.{Answers, of_all, outputs_refusal};
ghost use Rattle.span_tracing_outputs.specs.files.OpenRefusals.{IsRouted, NamesAnswer};
ghost use Rattle.span_tracing_outputs.specs.declared.files.output_spec.OutputSpec.{OutputSpec};

use crate::laws::traces_start_ready;
use crate::trace::Trace;
use event_formatter::{Fields, Format, LineFormat, Timer};
use span_registry_layers_layers::Filter;
use span_tracing_laws::{plain_steps_follow, setup_follows, traces_stay_counted};
use span_tracing_outputs::{
    AnySink, FileStack, Lines, OpenStackError, OutputSpec, RoutedSinks, open_stack,
};
use span_tracing_skeleton::{Refusal, Reply, Step};
use std::alloc::Global;
use tracing_appender::LiveQueue;
use tracing_appender_rolling::Folder;
use tracing_core_moments::Moment;

/// A trace with one stack of these outputs, whose files are opened at the moment, and with one lane. The stack, its handle and the lane
/// have the number 0. The stack is the global default, so that what the lane tells reaches the outputs. The lane's thread has no name and
/// the number 1.
///
/// # Errors
///
/// Those of [`open_stack`](crate::open_stack).
pub fn open_trace<F: Filter, D: Folder, Q: LiveQueue>(
    alloc: Global,
    outputs: Vec<OutputSpec<F, D, Q>>,
    moment: Moment,
) -> Result<Trace<FileStack<F, D, Q>>, OpenStackError>
    // A moment out of range is refused, whatever else is wrong.
    ensures moment { is_moment moment ≡ false → result ≡ Err (of_all Refusal.BadMoment) }
    // At a moment in range, no output, more than 64 outputs, or two with one key are refused; out of memory may be answered instead.
    ensures told { is_moment moment ≡ true → Answers (outputs_refusal outputs.items) result }
    // Where each output's route is good, as `OutputSpec::new` makes it, the queues of a trace that is opened have room and its files good
    // names, and the first that hasn't is refused ahead of what a folder refuses; out of memory may be answered instead. A folder's refusal
    // is told only where the folder told a fault.
    ensures names { is_moment moment ≡ true → outputs_refusal outputs.items ≡ None → Every IsRouted outputs.items →
        NamesAnswer D.failed outputs.items result }
    // With honest filters the trace is ready.
    ensures ready { Every (λ (spec : OutputSpec F D Q). F.honest spec.filter) outputs.items →
        IfOk result (λ trace. TraceIsReady ⟦<F as Filter>⟧ ⟦<Lines as span_registry_layers_layers::Layer>⟧ trace) }
    // With honest filters the trace's outputs and sinks are those that were asked for, under their keys, filters, settings and routes,
    // with their files open, and no span is open.
    ensures opened { Every (λ (spec : OutputSpec F D Q). F.honest spec.filter) outputs.items →
        IfOk result (λ trace. HasOutputs D.contents D.failed ⟦<F as Filter>⟧ ⟦<Lines as span_registry_layers_layers::Layer>⟧ moment
        outputs.items (stack_in trace 0)) }
    // Its outputs have the numbers from 0 to below their count.
    ensures outputs { IfOk result (λ trace. trace.outputs ≡ length outputs.items ∷ []) }
    // So have its sinks, through all outputs.
    ensures sinks { IfOk result (λ trace. trace.sinks ≡ sinks_asked outputs.items ∷ []) }
    // With honest filters its stack is held by as many as it counts.
    ensures counted { Every (λ (spec : OutputSpec F D Q). F.honest spec.filter) outputs.items →
        IfOk result (λ trace. IsCounted (skeleton_of trace)) }
    // No callsite is registered.
    ensures bare { IfOk result (λ trace. trace.hub.callsites ≡ []) }
    // The lane reaches the stack, which is the only one: it is the global default, and has a handle. There is no guard.
    ensures reached { IfOk result (λ trace. ReachesFirst trace) }
    // The lane is the only one.
    ensures lane { IfOk result (λ trace. trace.threads ≡ record { name = None; number = 1 } ∷ []) }
{
    setup_follows::<Fields, Format<LineFormat, Timer>, F, RoutedSinks<AnySink<D, Q>>>();
    traces_start_ready::<Fields, Format<LineFormat, Timer>, F, RoutedSinks<AnySink<D, Q>>>();
    plain_steps_follow::<Fields, Format<LineFormat, Timer>, F, RoutedSinks<AnySink<D, Q>>>();
    traces_stay_counted::<Fields, Format<LineFormat, Timer>, F, D, Q>();
    let stack = open_stack(alloc, outputs, moment)?;
    let mut trace = Trace::new(alloc);
    let Ok(_lane) = trace.thread(None, 1) else {
        return Err(OpenStackError::from(Refusal::OutOfMemory));
    };
    let Ok(handle) = trace.add_stack(stack) else {
        return Err(OpenStackError::from(Refusal::OutOfMemory));
    };
    // No line is held yet, so the step needn't wait.
    match trace.act(&Step::SetGlobalDefault(handle)) {
        Reply::Done => Ok(trace),
        // It is the first default, of a stack that is there.
        _ => unreachable!(),
    }
}
