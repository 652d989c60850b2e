//! What takes the lines.
ghost use Rattle.std.specs.Prelude.{◌≡◌, ℕ, Bool, true, List, Result};
ghost use Rattle.std.specs.declared.io.Error.{Error};
ghost use Rattle.tracing_core_fields.specs.Metadata.{plain_metadata};
ghost use Rattle.tracing_core_fields.specs.PlainMetadata.{PlainMetadata};

use crate::makers::combined::{OrElse, Tee, WithFilter, WithMaxLevel, WithMinLevel};
use std::io;
use tracing_core_fields::{Level, Metadata};

/// Decides by metadata alone.
pub type MetadataTest = Box<dyn Fn(&Metadata<'_>) -> bool>;

/// Takes lines, each by one write.
///
/// In Rust a maker makes a writer for an event's metadata, and the formatter writes the line to it. Here the maker does
/// both in one call, so that a line is handed over whole.
pub trait MakeWriter: Drop {
    // Whether its outermost bound lets lines of such metadata through.
    ghost takes: { Self → PlainMetadata → Bool → Type 0 };

    // What handing over a line may answer, and leave.
    ghost writes: { Self → PlainMetadata → List ℕ → Result (Unit {0}) Error → Self → Type 0 };

    /// Whether the outermost bound of the maker lets lines of such metadata through. A bound deeper inside isn't asked.
    fn writes_for(&self, metadata: &Metadata<'_>) -> bool
        ensures { takes self.now (plain_metadata metadata.now) result };

    /// Hands over a line, by one `write_all` to each writer that takes it.
    ///
    /// # Errors
    ///
    /// That of the first writer that had no memory for it, else that of the first writer that refuses it.
    fn write_for(&mut self, metadata: &Metadata<'_>, line: &[u8]) -> io::Result<()>
        ensures { writes self.old (plain_metadata metadata.now) line.now result self.new };

    /// Hands over a line that the outermost bound lets through. A maker with such a bound doesn't ask it again here.
    ///
    /// # Errors
    ///
    /// As those of [`write_for`](MakeWriter::write_for).
    fn pass_for(&mut self, metadata: &Metadata<'_>, line: &[u8]) -> io::Result<()>
        ensures { takes self.old (plain_metadata metadata.now) true →
            writes self.old (plain_metadata metadata.now) line.now result self.new }
    {
        self.write_for(metadata, line)
    }
}

/// Combinations of makers.
pub trait MakeWriterExt: Sized {
    /// Takes only lines whose level is at most this one.
    fn with_max_level(self, level: Level) -> WithMaxLevel<Self>
        ensures { (result.maker ≡ self) × (result.level ≡ level) };

    /// Takes only lines whose level is at least this one.
    fn with_min_level(self, level: Level) -> WithMinLevel<Self>
        ensures { (result.maker ≡ self) × (result.level ≡ level) };

    /// Takes only lines of metadata that the closure passes.
    fn with_filter(self, filter: MetadataTest) -> WithFilter<Self>
        requires { MetadataTest.IsAlwaysCallable filter }
        ensures { (result.maker ≡ self) × (result.filter ≡ filter) };

    /// Hands each line to this maker, and then to the other.
    fn and<B>(self, other: B) -> Tee<Self, B>
        ensures { (result.first ≡ self) × (result.second ≡ other) };

    /// Hands a line to the other maker where this one's outermost bound doesn't let it through.
    fn or_else<B>(self, other: B) -> OrElse<Self, B>
        ensures { (result.first ≡ self) × (result.second ≡ other) };
}

impl<M: MakeWriter> MakeWriterExt for M {
    fn with_max_level(self, level: Level) -> WithMaxLevel<M> {
        WithMaxLevel::new(self, level)
    }

    fn with_min_level(self, level: Level) -> WithMinLevel<M> {
        WithMinLevel::new(self, level)
    }

    fn with_filter(self, filter: MetadataTest) -> WithFilter<M> {
        WithFilter::new(self, filter)
    }

    fn and<B>(self, other: B) -> Tee<M, B> {
        Tee::new(self, other)
    }

    fn or_else<B>(self, other: B) -> OrElse<M, B> {
        OrElse::new(self, other)
    }
}
