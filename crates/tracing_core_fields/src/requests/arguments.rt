//! What is handed to a subscriber, and what it answers of the current span.

mod attributes;
mod current;
mod event;
mod parent;
mod record;
#[cfg(test)]
mod tests;

pub use attributes::Attributes;
pub use current::Current;
pub use event::Event;
pub use record::Record;
