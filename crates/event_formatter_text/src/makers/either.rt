//! Writers of one of two types.
ghost use Rattle.std.specs.Prelude.{◌≡◌, OnOk};
ghost use Rattle.std.specs.Io.KnownBytes.{Appends, Keeps, WriteAppends};
ghost use Rattle.std.specs.Io.{WritesAtMost};
ghost use Rattle.event_formatter_text.specs.makers.Either.{IsSameSide, contents_of};

use std::io;
use std::io::{Sink, Write};

/// A writer of one of two types.
#[derive(Debug, Drop)]
pub enum EitherWriter<A, B> {
    /// Writes to one of the first type.
    A(A),
    /// Writes to one of the second type.
    B(B),
}

/// A writer, or none.
pub type OptionalWriter<T> = EitherWriter<T, Sink>;

impl<A: Write, B: Write> Write for EitherWriter<A, B> {
    ghost contents = { λ writer. contents_of A.contents B.contents writer };

    fn write(&mut self, buf: &[u8]) -> io::Result<usize>
        ensures bound { WritesAtMost result buf.now }
        ensures bytes { WriteAppends (contents_of A.contents B.contents self.old)
            (contents_of A.contents B.contents self.new) result buf.now }
        ensures side { IsSameSide self.old self.new }
    {
        match self {
            EitherWriter::A(writer) => writer.write(buf),
            EitherWriter::B(writer) => writer.write(buf),
        }
    }

    fn flush(&mut self) -> io::Result<()>
        ensures bytes { Keeps (contents_of A.contents B.contents self.old)
            (contents_of A.contents B.contents self.new) }
        ensures side { IsSameSide self.old self.new }
    {
        match self {
            EitherWriter::A(writer) => writer.flush(),
            EitherWriter::B(writer) => writer.flush(),
        }
    }

    fn write_all(&mut self, buf: &[u8]) -> io::Result<()>
        ensures bytes { OnOk result (Appends (contents_of A.contents B.contents self.old)
            (contents_of A.contents B.contents self.new) buf.now) }
        ensures side { IsSameSide self.old self.new }
    {
        match self {
            EitherWriter::A(writer) => writer.write_all(buf),
            EitherWriter::B(writer) => writer.write_all(buf),
        }
    }
}

impl<T> EitherWriter<T, Sink> {
    ghost use Rattle.event_formatter_text.specs.declared.makers.either.EitherWriter.TheVariants.{A, B};

    /// Takes all, and writes nothing.
    pub fn none() -> OptionalWriter<T>
        ensures { result ≡ B (record {}) }
    {
        EitherWriter::B(io::sink())
    }

    /// Writes to the writer.
    pub fn some(writer: T) -> OptionalWriter<T>
        ensures { result ≡ A writer }
    {
        EitherWriter::A(writer)
    }
}

impl<T> From<Option<T>> for EitherWriter<T, Sink> {
    ghost use Rattle.event_formatter_text.specs.makers.Either.{optional};

    ghost from_gives = { λ writer result. result ≡ optional writer };

    fn from(writer: Option<T>) -> OptionalWriter<T> {
        match writer {
            Some(writer) => EitherWriter::some(writer),
            None => EitherWriter::none(),
        }
    }
}
