//! Where a span or an event is written.

/// Tells one callsite from the others.
#[derive(Clone, Copy, Debug, PartialEq, Eq, Hash)]
pub struct Identifier(pub u64);
