//! Requests whose values are lent.

use span_tracing_skeleton::{Parent, SpanName};
use tracing_core_fields::IndexedValues;
use tracing_core_moments::Moment;

/// An event or a new span on a lane.
#[derive(Clone, Copy, Debug)]
pub struct Request<'a> {
    /// The lane's number.
    pub lane: usize,
    /// The moment.
    pub moment: Moment,
    /// The identifier of the callsite.
    pub callsite: u64,
    /// Which span it stands under.
    pub parent: Parent,
    /// Values, each by its field's place among those of the callsite.
    pub values: IndexedValues<'a>,
}

/// Values for a span, or for none.
#[derive(Clone, Copy, Debug)]
pub struct RecordRequest<'a> {
    /// The lane's number.
    pub lane: usize,
    /// The moment.
    pub moment: Moment,
    /// The span.
    pub span: Option<SpanName>,
    /// Values, each by its field's place among those of the span's callsite.
    pub values: IndexedValues<'a>,
}
