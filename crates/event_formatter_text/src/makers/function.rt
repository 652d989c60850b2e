//! A closure as a maker.
ghost use Rattle.std.specs.Prelude.{◌≡◌, true};

use crate::makers::make_writer::MakeWriter;
use std::io;
use tracing_core_fields::Metadata;

/// Takes a line of an event with this metadata.
pub type LineTaker = Box<dyn FnMut(&Metadata<'_>, &[u8]) -> io::Result<()>>;

/// Hands each line to a closure.
///
/// In Rust such a closure answers a writer, to which the line is then written. Here it's called with the line.
#[derive(Drop)]
pub struct ClosureWriter {
    pub(crate) taker: LineTaker,
    ghost callable: { LineTaker.IsAlwaysCallable taker },
}

impl ClosureWriter {
    /// Hands lines to the closure.
    pub fn new(taker: LineTaker) -> ClosureWriter
        requires { LineTaker.IsAlwaysCallable taker }
        ensures { result.taker ≡ taker }
    {
        ClosureWriter { taker }
    }
}

impl MakeWriter for ClosureWriter {
    ghost use Rattle.event_formatter_text.specs.makers.Filters.{TakesLine};

    ghost takes = { λ maker m b. b ≡ true };

    ghost writes = { λ maker m line answer after.
        TakesLine (LineTaker.step maker.taker) m line answer after.taker };

    fn writes_for(&self, _metadata: &Metadata<'_>) -> bool {
        true
    }

    fn write_for(&mut self, metadata: &Metadata<'_>, line: &[u8]) -> io::Result<()> {
        (self.taker)(metadata, line)
    }
}
