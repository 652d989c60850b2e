//! A stack with sinks lets its spans be read, and tells which levels it ignores.

use crate::sink::LineSink;
use crate::trace_stack::TraceStack;
use event_formatter::FormatEvent;
use event_formatter_text::FormatFields;
use span_registry_layers_layers::Filter;
use span_registry_layers_store::Registry;
use span_tracing_skeleton::HasRegistry;
use tracing_core_fields::Level;

impl<N: FormatFields + Drop, E: FormatEvent, F: Filter, S: LineSink> HasRegistry
    for TraceStack<N, E, F, S> {
    ghost registry_of = { λ x. x.stack.registry };

    fn registry(&self) -> &Registry {
        self.stack().registry()
    }

    fn ignores(&self, level: Level) -> bool {
        self.stack_ignores(level)
    }
}
