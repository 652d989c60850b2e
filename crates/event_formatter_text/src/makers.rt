//! Who takes the lines: makers of writers, their combinations, and routes to sinks.

mod boxed;
mod combined;
mod either;
mod function;
mod make_writer;
mod route;
#[cfg(test)]
mod tests;

pub use boxed::BoxMakeWriter;
pub use combined::{OrElse, Tee, WithFilter, WithMaxLevel, WithMinLevel};
pub use either::{EitherWriter, OptionalWriter};
pub use function::{ClosureWriter, LineTaker};
pub use make_writer::{MakeWriter, MakeWriterExt, MetadataTest};
pub use route::{BadRoute, Route};
