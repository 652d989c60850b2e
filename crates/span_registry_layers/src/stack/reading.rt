//! Reading a stack.
ghost use Rattle.std.specs.Prelude.{◌≡◌, IfOk, IsTrue, length, slice_get, true};
ghost use Rattle.std.specs.Option.{option_map};
ghost use Rattle.span_registry_layers_store.specs.Copies.{CopyOf};
ghost use Rattle.span_registry_layers.specs.SpanNotices.{sees};
ghost use Rattle.span_registry_layers.specs.Stacks.{cleared, is_above};

use crate::stack::Stack;
use span_registry_layers_store::{Registry, RegistryTable};
use std::alloc::AllocError;
use tracing_core_fields::{Id, Level};

impl<O> Stack<O> {
    /// The spans and the entries of lanes.
    pub fn registry(&self) -> &Registry
        ensures { result.now ≡ self.now.registry }
    {
        &self.parts.registry
    }

    /// A copy of the open spans, of the lanes' entries, of the next id and of the number of filters.
    ///
    /// # Errors
    ///
    /// Out of memory.
    pub fn table(&self) -> Result<RegistryTable, AllocError>
        ensures { IfOk result (λ copy. CopyOf self.now.registry copy) }
    {
        self.parts.registry.table()
    }

    /// How many outputs it has.
    pub fn len(&self) -> usize
        ensures { result ≡ length self.now.rows }
    {
        self.parts.rows.len()
    }

    /// The output at this place, counted from 0.
    pub fn output(&self, output: usize) -> Option<&O>
        ensures { option_map (λ read. read.now) result
            ≡ option_map (λ row. row.output) (slice_get self.now.rows output) }
    {
        match self.parts.rows.get(output) {
            None => None,
            Some(row) => Some(&row.output),
        }
    }

    /// Whether the filter of the output at this place passed the callsite of the last question, or of the last event or new span that was
    /// handed over.
    pub fn passed(&self, output: usize) -> Option<bool>
        ensures { result ≡ option_map (λ row. row.passed) (slice_get self.now.rows output) }
    {
        match self.parts.rows.get(output) {
            None => None,
            Some(row) => Some(row.passed),
        }
    }

    /// Whether the output at this place was told of the last event or new span that was handed over: its
    /// filter passed the callsite and, of an event, the event itself. After a question no output was told.
    pub fn told(&self, output: usize) -> Option<bool>
        ensures { result ≡ option_map (λ row. row.told) (slice_get self.now.rows output) }
    {
        match self.parts.rows.get(output) {
            None => None,
            Some(row) => Some(row.told),
        }
    }

    /// Whether the output at this place sees a span: the span is open, and the output's filter passed it when it was made.
    pub fn sees(&self, output: usize, span: &Id) -> Option<bool>
        ensures { result ≡ option_map (λ row. sees self.now.registry span.now row) (slice_get self.now.rows output) }
    {
        match self.parts.rows.get(output) {
            None => None,
            Some(row) => Some(row.sees(span, &self.parts.registry)),
        }
    }

    /// True only where what is kept refuses every callsite of this level, and the last request left no output marked. By what
    /// `event` promises, an event at such a callsite that names no parent then leaves the stack as it is.
    pub fn ignores(&self, level: Level) -> bool
        ensures { IsTrue result → (is_above self.now.hint level ≡ true) × (cleared self.now ≡ self.now) }
    {
        self.parts.ignores(level)
    }
}
