//! A layer that writes a line for each event that it is told.

mod builders;
mod format_builders;
mod hearing;
mod layer;
mod output;
mod span_events;
mod threads;
mod told;

pub use layer::Layer;
