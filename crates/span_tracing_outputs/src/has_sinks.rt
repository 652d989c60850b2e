//! The sinks of a stack's outputs, numbered through all outputs.
ghost use Rattle.std.specs.Prelude.{◌≡◌};
ghost use Rattle.std.specs.Option.{option_copied};
ghost use Rattle.span_tracing_outputs.specs.sinks.SinkCalls.{CallsIn, CallsStack, sink_in, sink_place, sinks_in, sinks_of};
ghost use Rattle.span_tracing_outputs.specs.sinks.SinkCalls.{stack_holds};

use crate::output_sinks::OutputSinks;
use crate::sink::{LineSink, some_hold};
use crate::sinks::{AnySink, RoutedSinks};
use crate::trace_stack::TraceStack;
use event_formatter::FormatEvent;
use event_formatter_text::FormatFields;
use span_registry_layers_layers::Filter;
use span_tracing_skeleton::{HasSinks, QueueCall, Refusal, Reply};
use tracing_appender::LiveQueue;
use tracing_appender_rolling::Folder;

// How many sinks outputs have.
fn count_in<S: Drop>(outputs: &[RoutedSinks<S>]) -> usize
    ensures { result ≡ sinks_of outputs.now }
{
    match outputs {
        [] => 0,
        [first, later @ ..] => count_in(later).saturating_add(first.sinks().len()),
    }
}

/// Where a sink of a stack stands. Contracts of calls on queues speak of it.
#[derive(Clone, Copy, Debug, PartialEq, Eq)]
pub struct SinkPlace {
    /// The place of its output.
    pub output: usize,
    /// Its number among the output's sinks.
    pub sink: usize,
}

// Where the sink with a number stands.
fn place_in<S: Drop>(outputs: &[RoutedSinks<S>], number: usize) -> Option<SinkPlace>
    ensures { result ≡ sink_place outputs.now 0 number }
{
    let mut sink = number;
    for (output, routed) in outputs.iter().enumerate() {
        let count = routed.sinks().len();
        if sink < count {
            return Some(SinkPlace { output, sink });
        }
        sink -= count;
    }
    None
}

// The sink with a number.
fn sink_in<S: Drop>(outputs: &[RoutedSinks<S>], number: usize) -> Option<&S>
    ensures { option_copied result ≡ sink_in outputs.now number }
{
    match place_in(outputs, number) {
        None => None,
        Some(at) => match outputs.get(at.output) {
            None => None,
            Some(routed) => routed.sinks().get(at.sink),
        },
    }
}

// Does this to the queue of the sink with a number.
fn drive_in<D: Folder, Q: LiveQueue>(
    outputs: &mut [RoutedSinks<AnySink<D, Q>>],
    number: usize,
    call: QueueCall,
) -> Reply
    ensures { CallsIn D.contents D.failed number call outputs.old result outputs.new }
{
    let Some(at) = place_in(outputs, number) else {
        return Reply::Refused(Refusal::UnknownSink);
    };
    if at.output < outputs.len() {
        outputs[at.output].drive(at.sink, call)
    } else {
        Reply::Refused(Refusal::UnknownSink)
    }
}

impl<D: Folder, Q: LiveQueue> OutputSinks<RoutedSinks<AnySink<D, Q>>> {
    // Does this to the queue of the sink with a number.
    fn drive(&mut self, number: usize, call: QueueCall) -> Reply
        ensures { CallsIn D.contents D.failed number call self.old result self.new }
    {
        let reply = drive_in(self.sinks.as_mut_slice(), number, call);
        self.holding = some_hold(self.sinks.as_slice());
        reply
    }
}

impl<N, E, F, S: LineSink> TraceStack<N, E, F, RoutedSinks<S>> {
    /// The sink with a number: sinks are numbered from 0 through all outputs, in order.
    pub fn sink(&self, number: usize) -> Option<&S>
        ensures { option_copied result ≡ sink_in self.now.sinks number }
    {
        sink_in(self.sinks.as_slice(), number)
    }
}

impl<N: FormatFields + Drop, E: FormatEvent, F: Filter, D: Folder, Q: LiveQueue> HasSinks
    for TraceStack<N, E, F, RoutedSinks<AnySink<D, Q>>> {
    ghost use Rattle.std.proofs.Common.{ap};
    ghost use Rattle.span_tracing_outputs.specs.OutputSettings.{same_word};

    ghost sinks_in = { λ x. sinks_in x };

    ghost drives = { λ x number call reply y. CallsStack D.contents D.failed x number call reply y };

    ghost holds = { λ x. stack_holds x };

    ghost spans_stay = { λ x number call reply y goes. ap (λ s. s.registry) goes.0 };

    ghost word_stays = { λ x number call reply y goes k. same_word ⟦<F as Filter>⟧ x y goes.0 k };

    fn sink_count(&self) -> usize {
        count_in(self.sinks.as_slice())
    }

    fn is_holding(&self) -> bool {
        self.sinks.is_holding()
    }

    fn drive(&mut self, number: usize, call: QueueCall) -> Reply {
        self.sinks.drive(number, call)
    }
}
