//! A layer of lines, and a stack of them, go along with output machines.
ghost use Rattle.std.specs.Prelude.{List};
ghost use Rattle.span_tracing_outputs.specs.LayerAgreement.{KeepsLines, LayerFollows};
ghost use Rattle.span_tracing_outputs.specs.OutputMachines.{PlainLine};
ghost use Rattle.span_tracing_outputs.specs.OutputFolds.{FollowingFolds};
ghost use Rattle.span_tracing_outputs.specs.StackFollows.{StackFollows};
ghost use Rattle.span_tracing_outputs.specs.TraceFollows.{TraceFollows};
ghost use Rattle.span_tracing_outputs.specs.TraceStarts.{TraceStarts};

use crate::pending::PendingLines;
use crate::sink::LineSink;
use event_formatter::{FormatEvent, Layer};
use event_formatter_lines::rekeeping_is_local;
use event_formatter_text::{FormatFields, MakeWriter};
use span_registry_layers::stack_registry_stays_sound;
use span_registry_layers_layers::Filter;

/// What a layer makes of an event, or of a call on a span that it sees, is one step of an output machine. The maker may
/// be any that keeps the lines that it is handed, and refuses one for lack of memory alone.
pub fn layer_follows<N: FormatFields, E: FormatEvent, W: MakeWriter>()
    ensures { (lines_in : W → List PlainLine) → KeepsLines W.writes lines_in →
        LayerFollows ⟦<N as FormatFields>⟧ E.line_of lines_in W.writes }
{
    rekeeping_is_local();
}

/// What the calls of a stack tell its outputs, where each is a layer that keeps its lines, under a key of its own: each
/// output goes through its own notices, which the skeleton decides, whatever the others write.
pub fn stack_follows<N: FormatFields + Drop, E: FormatEvent, F: Filter>()
    ensures { StackFollows ⟦<N as FormatFields>⟧ E.line_of ⟦<F as Filter>⟧
        ⟦<Layer<N, E, PendingLines> as span_registry_layers_layers::Layer>⟧ }
{
    layer_follows::<N, E, PendingLines>();
}

/// Outputs that go through their notices fold them: with some fates of their texts and lines, each agrees afterwards with
/// what its output machine makes of its own notices, from whichever machine it agreed with before.
pub fn outputs_fold<N: FormatFields, E: FormatEvent, F: Filter>()
    ensures { FollowingFolds ⟦<N as FormatFields>⟧ E.line_of ⟦<F as Filter>⟧ }
{}

/// Each call of a stack with sinks answers, and makes of its outputs and sinks, what the skeleton and the output machines
/// say, where what is kept of the filters' answers is right, the registry is sound, no two layers have the same key, and
/// no output keeps a line. So it is afterwards.
///
/// Each output is told its notices in order, which the skeleton and the filters' answers decide, and goes on as any output
/// machine does that it agrees with, with some fates of its texts and lines. Each sink takes the lines of its machine. What
/// is refused changes nothing.
pub fn trace_follows<N: FormatFields + Drop, E: FormatEvent, F: Filter, S: LineSink>()
    ensures { TraceFollows ⟦<N as FormatFields>⟧ E.line_of ⟦<F as Filter>⟧ S.takes
        ⟦<Layer<N, E, PendingLines> as span_registry_layers_layers::Layer>⟧ }
{
    stack_follows::<N, E, F>();
    stack_registry_stays_sound::<Layer<N, E, PendingLines>, F>();
}

/// A new stack is ready for its first call once it has its sinks, where the layer of each output was made with the
/// output's key, and what is kept of the filters' answers is right. Its outputs agree with machines that keep nothing.
pub fn trace_starts<N: FormatFields + Drop, E: FormatEvent, F: Filter, S: LineSink>()
    ensures { TraceStarts ⟦<N as FormatFields>⟧ E.line_of ⟦<F as Filter>⟧
        ⟦<Layer<N, E, PendingLines> as span_registry_layers_layers::Layer>⟧ S }
{
    stack_registry_stays_sound::<Layer<N, E, PendingLines>, F>();
}
