//! What filters are told of spans, as a value.
use tracing_core_fields::{Attributes, Id, Record};

/// A call of a filter's on a span that it passed.
#[derive(Clone, Copy, Drop)]
pub enum SpanCall<'a, 'b, 'c, 'd> {
    /// The span was made.
    NewSpan(&'a Id, &'b Attributes<'c, 'd>),
    /// Values were recorded on it.
    Record(&'a Id, &'b Record<'c>),
    /// It was entered.
    Enter(&'a Id),
    /// It was left.
    Exit(&'a Id),
    /// It closed.
    Close(&'a Id),
}
