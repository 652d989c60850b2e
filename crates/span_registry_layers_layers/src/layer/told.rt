//! What layers are told of spans and events, as a value.
use tracing_core_fields::{Attributes, Event, Id, Record};

/// A call of a layer's on a span or an event.
#[derive(Clone, Copy, Drop)]
pub enum Told<'a, 'b, 'c, 'd> {
    /// A span was made.
    NewSpan(&'a Id, &'b Attributes<'c, 'd>),
    /// Values were recorded on a span.
    Record(&'a Id, &'b Record<'c>),
    /// The first span was said to follow from the second.
    FollowsFrom(&'a Id, &'b Id),
    /// An event happened.
    Event(&'a Event<'c, 'd>),
    /// A span was entered.
    Enter(&'a Id),
    /// A span was left.
    Exit(&'a Id),
    /// A span closes.
    Close(&'a Id),
    /// The first id became the second. No stack of this crate tells it.
    IdChange(&'a Id, &'b Id),
}
