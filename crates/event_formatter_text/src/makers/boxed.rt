//! Makers in boxes.
ghost use Rattle.std.specs.Prelude.{◌≡◌};

use crate::makers::make_writer::MakeWriter;
use std::io;
use tracing_core_fields::Metadata;

/// The box takes what the maker in it takes.
impl MakeWriter for Box<dyn MakeWriter> {
    ghost takes = { λ b. (MakeWriter-box b).takes b.value };

    ghost writes = { λ b m line answer after.
        (v : _) × (MakeWriter-box b).writes b.value m line answer v × (after ≡ record b { value = v }) };

    fn writes_for(&self, metadata: &Metadata<'_>) -> bool {
        (**self).writes_for(metadata)
    }

    fn write_for(&mut self, metadata: &Metadata<'_>, line: &[u8]) -> io::Result<()> {
        (**self).write_for(metadata, line)
    }

    fn pass_for(&mut self, metadata: &Metadata<'_>, line: &[u8]) -> io::Result<()> {
        (**self).pass_for(metadata, line)
    }
}

/// A maker of any type, in a box.
#[derive(Drop)]
pub struct BoxMakeWriter {
    pub(crate) maker: Box<dyn MakeWriter>,
}

impl BoxMakeWriter {
    /// Hands lines to the maker in the box.
    pub fn new(maker: Box<dyn MakeWriter>) -> BoxMakeWriter
        ensures { result.maker ≡ maker }
    {
        BoxMakeWriter { maker }
    }
}

impl MakeWriter for BoxMakeWriter {
    ghost takes = { λ maker m b. (MakeWriter-box maker.maker).takes maker.maker.value m b };

    ghost writes = { λ maker m line answer after.
        (v : _) × (MakeWriter-box maker.maker).writes maker.maker.value m line answer v ×
        (after.maker ≡ record maker.maker { value = v }) };

    fn writes_for(&self, metadata: &Metadata<'_>) -> bool {
        self.maker.writes_for(metadata)
    }

    fn write_for(&mut self, metadata: &Metadata<'_>, line: &[u8]) -> io::Result<()> {
        self.maker.write_for(metadata, line)
    }

    fn pass_for(&mut self, metadata: &Metadata<'_>, line: &[u8]) -> io::Result<()> {
        self.maker.pass_for(metadata, line)
    }
}
