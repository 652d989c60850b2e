//! Makers over other makers.
ghost use Rattle.std.specs.Prelude.{◌≡◌, true};

use crate::makers::make_writer::{MakeWriter, MetadataTest};
use std::io;
use std::io::ErrorKind;
use tracing_core_fields::{Level, Metadata};

/// Takes only lines whose level is at most a bound.
#[derive(Clone, Copy, Debug)]
pub struct WithMaxLevel<M> {
    pub(crate) maker: M,
    pub(crate) level: Level,
}

impl<M> WithMaxLevel<M> {
    /// Hands lines of at most this level to the maker.
    pub fn new(maker: M, level: Level) -> WithMaxLevel<M>
        ensures { (result.maker ≡ maker) × (result.level ≡ level) }
    {
        WithMaxLevel { maker, level }
    }
}

impl<M: MakeWriter> MakeWriter for WithMaxLevel<M> {
    ghost use Rattle.std.specs.Prelude.{nat_le};
    ghost use Rattle.event_formatter_text.specs.makers.Makers.{WritesIf};

    ghost takes = { λ maker m b. b ≡ nat_le m.level maker.level };

    ghost writes = { λ maker m line answer after.
        WritesIf (nat_le m.level maker.level) (M.writes maker.maker m line) maker.maker answer after.maker × (after.level ≡ maker.level) };

    fn writes_for(&self, metadata: &Metadata<'_>) -> bool {
        *metadata.level() <= self.level
    }

    fn pass_for(&mut self, metadata: &Metadata<'_>, line: &[u8]) -> io::Result<()> {
        self.maker.write_for(metadata, line)
    }

    fn write_for(&mut self, metadata: &Metadata<'_>, line: &[u8]) -> io::Result<()> {
        if *metadata.level() <= self.level {
            self.maker.write_for(metadata, line)
        } else {
            Ok(())
        }
    }
}

/// Takes only lines whose level is at least a bound.
#[derive(Clone, Copy, Debug)]
pub struct WithMinLevel<M> {
    pub(crate) maker: M,
    pub(crate) level: Level,
}

impl<M> WithMinLevel<M> {
    /// Hands lines of at least this level to the maker.
    pub fn new(maker: M, level: Level) -> WithMinLevel<M>
        ensures { (result.maker ≡ maker) × (result.level ≡ level) }
    {
        WithMinLevel { maker, level }
    }
}

impl<M: MakeWriter> MakeWriter for WithMinLevel<M> {
    ghost use Rattle.std.specs.Prelude.{nat_le};
    ghost use Rattle.event_formatter_text.specs.makers.Makers.{WritesIf};

    ghost takes = { λ maker m b. b ≡ nat_le maker.level m.level };

    ghost writes = { λ maker m line answer after.
        WritesIf (nat_le maker.level m.level) (M.writes maker.maker m line) maker.maker answer after.maker × (after.level ≡ maker.level) };

    fn writes_for(&self, metadata: &Metadata<'_>) -> bool {
        self.level <= *metadata.level()
    }

    fn pass_for(&mut self, metadata: &Metadata<'_>, line: &[u8]) -> io::Result<()> {
        self.maker.write_for(metadata, line)
    }

    fn write_for(&mut self, metadata: &Metadata<'_>, line: &[u8]) -> io::Result<()> {
        if self.level <= *metadata.level() {
            self.maker.write_for(metadata, line)
        } else {
            Ok(())
        }
    }
}

/// Hands each line to two makers.
#[derive(Clone, Copy, Debug)]
pub struct Tee<A, B> {
    pub(crate) first: A,
    pub(crate) second: B,
}

impl<A, B> Tee<A, B> {
    /// Hands lines to the first, and then to the second.
    pub fn new(first: A, second: B) -> Tee<A, B>
        ensures { (result.first ≡ first) × (result.second ≡ second) }
    {
        Tee { first, second }
    }
}

impl<A: MakeWriter, B: MakeWriter> MakeWriter for Tee<A, B> {
    ghost use Rattle.event_formatter_text.specs.makers.Makers.{WritesBoth};

    ghost takes = { λ maker m b. b ≡ true };

    ghost writes = { λ maker m line answer after.
        WritesBoth (A.writes maker.first m line) (B.writes maker.second m line) answer after.first after.second };

    fn writes_for(&self, _metadata: &Metadata<'_>) -> bool {
        true
    }

    // Both are asked, whatever the first answers. Want of memory is told of either, so that it can be counted.
    fn write_for(&mut self, metadata: &Metadata<'_>, line: &[u8]) -> io::Result<()> {
        let first = self.first.write_for(metadata, line);
        let second = self.second.write_for(metadata, line);
        match (first, second) {
            (Ok(()), second) => second,
            (Err(error), Ok(())) => Err(error),
            (Err(_), Err(other)) if other.kind() == ErrorKind::OutOfMemory => Err(other),
            (Err(error), Err(_)) => Err(error),
        }
    }
}

/// Hands a line to a second maker where the first one's outermost bound doesn't let it through. The bound is asked once, so that each
/// line goes to one of them.
#[derive(Clone, Copy, Debug)]
pub struct OrElse<A, B> {
    pub(crate) first: A,
    pub(crate) second: B,
}

impl<A, B> OrElse<A, B> {
    /// Hands lines to the first, or else to the second.
    pub fn new(first: A, second: B) -> OrElse<A, B>
        ensures { (result.first ≡ first) × (result.second ≡ second) }
    {
        OrElse { first, second }
    }
}

impl<A: MakeWriter, B: MakeWriter> MakeWriter for OrElse<A, B> {
    ghost use Rattle.event_formatter_text.specs.makers.Makers.{WritesEither};

    ghost takes = { λ maker m b. b ≡ true };

    ghost writes = { λ maker m line answer after.
        WritesEither (A.takes maker.first m) (A.writes maker.first m line) (B.writes maker.second m line)
        maker.first maker.second answer after.first after.second };

    fn writes_for(&self, _metadata: &Metadata<'_>) -> bool {
        true
    }

    fn write_for(&mut self, metadata: &Metadata<'_>, line: &[u8]) -> io::Result<()> {
        if self.first.writes_for(metadata) {
            self.first.pass_for(metadata, line)
        } else {
            self.second.write_for(metadata, line)
        }
    }
}

/// Takes only lines of metadata that a closure passes.
#[derive(Drop)]
pub struct WithFilter<M> {
    pub(crate) maker: M,
    pub(crate) filter: MetadataTest,
    ghost callable: { MetadataTest.IsAlwaysCallable filter },
}

impl<M> WithFilter<M> {
    /// Hands lines of metadata that the closure passes to the maker.
    pub fn new(maker: M, filter: MetadataTest) -> WithFilter<M>
        requires { MetadataTest.IsAlwaysCallable filter }
        ensures { (result.maker ≡ maker) × (result.filter ≡ filter) }
    {
        WithFilter { maker, filter }
    }
}

impl<M: MakeWriter + Drop> MakeWriter for WithFilter<M> {
    ghost use Rattle.std.specs.Prelude.{Bool};
    ghost use Rattle.tracing_core_fields.specs.Metadata.{plain_metadata};
    ghost use Rattle.event_formatter_text.specs.makers.Makers.{WritesIf};
    ghost use Rattle.event_formatter_text.specs.makers.Filters.{AnswersOf};

    ghost takes = { λ maker m b. AnswersOf (MetadataTest.post maker.filter) m b };

    ghost writes = { λ maker m line answer after. (after.filter ≡ maker.filter) ×
        ((b : Bool) × AnswersOf (MetadataTest.post maker.filter) m b ×
        WritesIf b (M.writes maker.maker m line) maker.maker answer after.maker) };

    fn writes_for(&self, metadata: &Metadata<'_>) -> bool {
        (self.filter)(metadata)
    }

    fn pass_for(&mut self, metadata: &Metadata<'_>, line: &[u8]) -> io::Result<()> {
        self.maker.write_for(metadata, line)
    }

    fn write_for(&mut self, metadata: &Metadata<'_>, line: &[u8]) -> io::Result<()> {
        if (self.filter)(metadata) {
            self.maker.write_for(metadata, line)
        } else {
            Ok(())
        }
    }
}
