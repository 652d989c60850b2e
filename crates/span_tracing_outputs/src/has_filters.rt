//! The filters of a stack's outputs change.
ghost use Rattle.span_tracing_outputs.specs.OutputFilters.{LinedSwap, StackSwap};

use crate::pending::PendingLines;
use crate::sink::LineSink;
use crate::trace_stack::TraceStack;
use event_formatter::{FormatEvent, Layer};
use event_formatter_text::FormatFields;
use span_registry_layers::Stack;
use span_registry_layers_layers::{Filter, Filtered};
use span_tracing_skeleton::HasFilters;

// Lets the filter of the output at a place and another one change places, where there is such an output.
fn swap_in<N: FormatFields + Drop, E: FormatEvent, F: Filter>(
    stack: &mut Stack<Filtered<Layer<N, E, PendingLines>, F>>,
    place: usize,
    filter: &mut F,
)
    ensures { LinedSwap ⟦<F as Filter>⟧ stack.old place filter.old stack.new filter.new }
{
    let _swapped = stack.swap_filter(place, filter);
}

impl<N: FormatFields + Drop, E: FormatEvent, F: Filter, S: LineSink> HasFilters<F>
    for TraceStack<N, E, F, S> {
    ghost swaps = { λ x place filter y back. StackSwap ⟦<F as Filter>⟧ x place filter y back };

    fn swap_filter(&mut self, place: usize, filter: &mut F) {
        swap_in(&mut self.stack, place, filter);
    }
}
