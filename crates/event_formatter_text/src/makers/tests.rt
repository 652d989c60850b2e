//! Which makers and sinks take a line.
use super::*;
use std::alloc::Global;
use std::cell::Cell;
use std::io;
use std::io::{ErrorKind, Sink, Write};
use std::test::Fail;
use tracing_core_fields::{FieldSet, Identifier, Kind, Level, Metadata};

// Keeps what it is handed, and refuses if it is to.
#[derive(Drop)]
struct Kept {
    text: Vec<u8>,
    refuses: bool,
}

impl MakeWriter for Kept {
    ghost takes = { λ maker m b. Unit {0} };

    ghost writes = { λ maker m line answer after. Unit {0} };

    fn writes_for(&self, _metadata: &Metadata<'_>) -> bool {
        true
    }

    fn write_for(&mut self, _metadata: &Metadata<'_>, line: &[u8]) -> io::Result<()> {
        if self.refuses || self.text.extend_from_slice(line).is_err() {
            return Err(io::ErrorKind::Other.into());
        }
        Ok(())
    }
}

fn make_kept(alloc: Global, refuses: bool) -> Kept {
    Kept {
        text: Vec::new(alloc),
        refuses,
    }
}

// Refuses each line with an error of this kind.
#[derive(Drop)]
struct Refusing(ErrorKind);

impl MakeWriter for Refusing {
    ghost takes = { λ maker m b. Unit {0} };

    ghost writes = { λ maker m line answer after. Unit {0} };

    fn writes_for(&self, _metadata: &Metadata<'_>) -> bool {
        true
    }

    fn write_for(&mut self, _metadata: &Metadata<'_>, _line: &[u8]) -> io::Result<()> {
        Err(self.0.into())
    }
}

// Counts how often it is flushed, and refuses all with an error of this kind, if there is one.
#[derive(Drop)]
struct Counted {
    flushes: usize,
    refusal: Option<ErrorKind>,
}

impl Counted {
    fn new(refusal: Option<ErrorKind>) -> Counted {
        Counted {
            flushes: 0,
            refusal,
        }
    }

    fn answer(&self) -> io::Result<()> {
        match self.refusal {
            Some(kind) => Err(kind.into()),
            None => Ok(()),
        }
    }
}

impl Write for Counted {
    fn write(&mut self, buf: &[u8]) -> io::Result<usize> {
        self.answer()?;
        Ok(buf.len())
    }

    fn flush(&mut self) -> io::Result<()> {
        self.flushes = self.flushes.saturating_add(1);
        self.answer()
    }
}

// The kind of the error, where there is one.
fn fault(answer: io::Result<()>) -> Option<ErrorKind> {
    match answer {
        Ok(()) => None,
        Err(error) => Some(error.kind()),
    }
}

// Hands the letter of each level over, in order.
fn hand_over<M: MakeWriter>(maker: &mut M) -> usize {
    let mut refused = 0;
    let fields = FieldSet::new(&[], Identifier(1));
    for (level, letter) in [
        (Level::ERROR, b"e"),
        (Level::WARN, b"w"),
        (Level::INFO, b"i"),
        (Level::DEBUG, b"d"),
        (Level::TRACE, b"t"),
    ] {
        let metadata = Metadata::new("n", "app", level, None, None, None, fields, Kind::EVENT);
        if maker.write_for(&metadata, letter).is_err() {
            refused += 1;
        }
    }
    refused
}

#[test]
fn bounds(rt: HostRuntime) {
    let mut maker = make_kept(rt.alloc(), false)
        .with_max_level(Level::INFO)
        .with_min_level(Level::WARN);
    assert_eq!(rt; hand_over(&mut maker), 0);
    assert!(rt; maker.maker.maker.text.as_slice() == b"wi".as_slice());
}

#[test]
fn both_are_asked(rt: HostRuntime) {
    let mut maker = make_kept(rt.alloc(), true).and(make_kept(rt.alloc(), false));
    assert_eq!(rt; hand_over(&mut maker), 5);
    assert!(rt; maker.first.text.is_empty() && maker.second.text.as_slice() == b"ewidt".as_slice());
}

#[test]
fn want_of_memory_is_told_of_either_side(rt: HostRuntime) {
    let fields = FieldSet::new(&[], Identifier(1));
    let metadata = Metadata::new(
        "n",
        "app",
        Level::INFO,
        None,
        None,
        None,
        fields,
        Kind::EVENT,
    );
    let mut behind = Refusing(ErrorKind::Other).and(Refusing(ErrorKind::OutOfMemory));
    assert!(rt; fault(behind.write_for(&metadata, b"x")) == Some(ErrorKind::OutOfMemory));
    let mut before = Refusing(ErrorKind::OutOfMemory).and(Refusing(ErrorKind::Other));
    assert!(rt; fault(before.write_for(&metadata, b"x")) == Some(ErrorKind::OutOfMemory));
    let mut neither = Refusing(ErrorKind::Other).and(Refusing(ErrorKind::WriteZero));
    assert!(rt; fault(neither.write_for(&metadata, b"x")) == Some(ErrorKind::Other));
}

#[test]
fn the_outermost_bound_decides(rt: HostRuntime) {
    let deep = make_kept(rt.alloc(), false)
        .with_max_level(Level::ERROR)
        .with_max_level(Level::INFO);
    let mut maker = deep.or_else(make_kept(rt.alloc(), false));
    assert_eq!(rt; hand_over(&mut maker), 0);
    assert!(rt; maker.first.maker.maker.text.as_slice() == b"e".as_slice());
    assert!(rt; maker.second.text.as_slice() == b"dt".as_slice());
}

#[test]
fn closures_filter(rt: HostRuntime) -> Result<(), Fail> {
    let test: MetadataTest = Box::new(
        rt.alloc(),
        |metadata: &Metadata<'_>| *metadata.level() == Level::DEBUG,
    )?;
    let mut maker = make_kept(rt.alloc(), false).with_filter(test);
    assert_eq!(rt; hand_over(&mut maker), 0);
    assert!(rt; maker.maker.text.as_slice() == b"d".as_slice());
    Ok(())
}

// A closure that answers otherwise at each call is asked once for a line, so that each line goes to one side.
#[test]
fn a_bound_is_asked_once(rt: HostRuntime) -> Result<(), Fail> {
    let answer = Cell::new(false);
    let test: MetadataTest = Box::new(rt.alloc(), move |_: &Metadata<'_>| {
        answer.set(!answer.get());
        answer.get()
    })?;
    let bounded = make_kept(rt.alloc(), false).with_filter(test);
    let mut maker = bounded.or_else(make_kept(rt.alloc(), false));
    assert_eq!(rt; hand_over(&mut maker), 0);
    assert!(rt; maker.first.maker.text.as_slice() == b"eit".as_slice());
    assert!(rt; maker.second.text.as_slice() == b"wd".as_slice());
    Ok(())
}

#[test]
fn makers_in_boxes(rt: HostRuntime) -> Result<(), Fail> {
    let taking: Box<dyn MakeWriter> = Box::new(rt.alloc(), make_kept(rt.alloc(), false))?;
    assert_eq!(rt; hand_over(&mut BoxMakeWriter::new(taking)), 0);
    let bounded = make_kept(rt.alloc(), true).with_max_level(Level::WARN);
    let refusing: Box<dyn MakeWriter> = Box::new(rt.alloc(), bounded)?;
    let maker = BoxMakeWriter::new(refusing);
    let mut maker = maker.or_else(make_kept(rt.alloc(), false));
    assert_eq!(rt; hand_over(&mut maker), 2);
    assert!(rt; maker.second.text.as_slice() == b"idt".as_slice());
    Ok(())
}

#[test]
fn closures_are_makers(rt: HostRuntime) -> Result<(), Fail> {
    let mut lines = 0;
    let taker: LineTaker = Box::new(rt.alloc(), move |metadata: &Metadata<'_>, line: &[u8]| {
        lines += line.len() % 2;
        if lines > 2 || *metadata.level() == Level::ERROR {
            return Err(io::ErrorKind::Other.into());
        }
        Ok(())
    })?;
    assert_eq!(rt; hand_over(&mut ClosureWriter::new(taker)), 4);
    Ok(())
}

#[test]
fn writers_of_a_side(rt: HostRuntime) {
    let mut first = EitherWriter::<Vec<u8>, Vec<u8>>::A(Vec::new(rt.alloc()));
    assert!(rt; first.write_all(b"ab").is_ok() && first.flush().is_ok());
    assert!(rt; matches!(first, EitherWriter::A(bytes) if bytes.as_slice() == b"ab".as_slice()));
    let mut some = OptionalWriter::from(Some(Vec::new(rt.alloc())));
    assert!(rt; matches!(some.write(b"c"), Ok(1)));
    assert!(rt; matches!(some, EitherWriter::A(bytes) if bytes.as_slice() == b"c".as_slice()));
    let mut none = OptionalWriter::<Vec<u8>>::from(None);
    assert!(rt; matches!(none.write(b"c"), Ok(1)) && none.write_all(b"de").is_ok());
    assert!(rt; none.flush().is_ok());
    assert!(rt; matches!(none, EitherWriter::B(_)));
}

#[test]
fn sides_are_flushed(rt: HostRuntime) {
    let mut first = EitherWriter::<Counted, Sink>::A(Counted::new(None));
    assert!(rt; first.flush().is_ok() && first.flush().is_ok());
    assert!(rt; matches!(first, EitherWriter::A(counted) if counted.flushes == 2));
    let mut second = EitherWriter::<Sink, Counted>::B(Counted::new(None));
    assert!(rt; second.flush().is_ok() && second.write_all(b"a").is_ok());
    assert!(rt; matches!(second, EitherWriter::B(counted) if counted.flushes == 1));
}

#[test]
fn sides_refuse_as_their_writers_do(rt: HostRuntime) {
    let memory = Some(ErrorKind::OutOfMemory);
    let mut first = EitherWriter::<Counted, Sink>::A(Counted::new(memory));
    assert!(rt; fault(first.flush()) == memory && fault(first.write_all(b"a")) == memory);
    assert!(rt; fault(first.write(b"a").map(|_| ())) == memory);
    let mut second = EitherWriter::<Sink, Counted>::B(Counted::new(memory));
    assert!(rt; fault(second.flush()) == memory && fault(second.write_all(b"a")) == memory);
    assert!(rt; fault(second.write(b"a").map(|_| ())) == memory);
}

fn boxed(alloc: Global, route: Route) -> Result<Box<Route>, Fail> {
    Ok(Box::new(alloc, route)?)
}

#[test]
fn routes(rt: HostRuntime) -> Result<(), Fail> {
    let warnings = Route::MaxLevel(Level::WARN, boxed(rt.alloc(), Route::Sink(0))?);
    let route = Route::OrElse(
        boxed(rt.alloc(), warnings)?,
        boxed(rt.alloc(), Route::Sink(1))?,
    );
    assert!(rt; route.check(2).is_ok());
    assert!(rt; route.check(1) == Err(BadRoute));
    let mut taken = Vec::new(rt.alloc());
    route.push_taken(Level::INFO, &mut taken)?;
    route.push_taken(Level::WARN, &mut taken)?;
    assert!(rt; taken.as_slice() == [1, 0].as_slice());
    Ok(())
}

#[test]
fn bad_routes(rt: HostRuntime) -> Result<(), Fail> {
    let twice = Route::Tee(
        boxed(rt.alloc(), Route::Sink(0))?,
        boxed(rt.alloc(), Route::Sink(0))?,
    );
    assert!(rt; twice.check(1) == Err(BadRoute));
    let unbounded = Route::OrElse(
        boxed(rt.alloc(), Route::Sink(0))?,
        boxed(rt.alloc(), Route::Sink(1))?,
    );
    assert!(rt; unbounded.check(2) == Err(BadRoute));
    assert!(rt; Route::Sink(2).check(2) == Err(BadRoute));
    let tee = Route::Tee(
        boxed(rt.alloc(), Route::Sink(1))?,
        boxed(rt.alloc(), Route::Sink(0))?,
    );
    assert!(rt; tee.check(2).is_ok());
    Ok(())
}
