//! A delimiter between fields.
ghost use Rattle.std.specs.Prelude.{◌≡◌, false, true};
ghost use Rattle.event_formatter_text.specs.field.Delimiters.{Begins};

use crate::field::make_visitor::MakeVisitor;
use crate::field::visit_output::{VisitFmt, VisitOutput};
use std::convert::AsStr;
use tracing_core_fields::{DebugText, Field, Visit};

/// Makes visitors that write the delimiter between each two fields.
#[derive(Clone, Copy, Debug)]
pub struct Delimited<D, M> {
    pub(crate) delimiter: D,
    pub(crate) inner: M,
}

impl<D, M> Delimited<D, M> {
    /// Writes the delimiter between the fields that visitors of the maker write.
    pub fn new(delimiter: D, inner: M) -> Delimited<D, M>
        ensures { (result.delimiter ≡ delimiter) × (result.inner ≡ inner) }
    {
        Delimited { delimiter, inner }
    }
}

/// Writes the delimiter before each field but the first, and hands the field to the inner visitor.
#[derive(Drop)]
pub struct VisitDelimited<D, V> {
    pub(crate) delimiter: D,
    pub(crate) seen: bool,
    pub(crate) inner: V,
}

impl<D, V> VisitDelimited<D, V> {
    /// Writes the delimiter before each field that follows. The first one has none.
    pub fn new(delimiter: D, inner: V) -> VisitDelimited<D, V>
        ensures { (result.delimiter ≡ delimiter) × (result.seen ≡ false) × (result.inner ≡ inner) }
    {
        VisitDelimited {
            delimiter,
            seen: false,
            inner,
        }
    }
}

impl<D: AsStr, V: VisitFmt> VisitDelimited<D, V> {
    // Writes the delimiter, unless no field was seen.
    fn delimit(&mut self) -> Result<(), V::Error>
        ensures inner { Begins self.old.seen (λ v answer w. V.appends v (D.text self.old.delimiter) answer w)
            self.old.inner result self.new.inner }
        ensures seen { self.new.seen ≡ true }
        ensures delimiter { self.new.delimiter ≡ self.old.delimiter }
    {
        if self.seen {
            return self.inner.write_str(self.delimiter.as_str());
        }
        self.seen = true;
        Ok(())
    }
}

impl<D: AsStr, V: VisitFmt> Visit for VisitDelimited<D, V> {
    ghost use Rattle.event_formatter_text.specs.field.DelimitedFields.{ShowsDelimited};

    type Error = V::Error;

    ghost shows = { ShowsDelimited D.text V.appends V.shows };

    fn record_debug(&mut self, field: &Field<'_>, value: &DebugText<'_>) -> Result<(), V::Error> {
        match self.delimit() {
            Ok(()) => self.inner.record_debug(field, value),
            Err(error) => Err(error),
        }
    }
}

impl<D: AsStr, V: VisitFmt> VisitFmt for VisitDelimited<D, V> {
    ghost appends = { λ before text answer after. (after.seen ≡ before.seen) × (after.delimiter ≡ before.delimiter) ×
        V.appends before.inner text answer after.inner };

    fn write_str(&mut self, text: &str) -> Result<(), V::Error> {
        self.inner.write_str(text)
    }
}

impl<Out, D: AsStr + Drop, V: VisitOutput<Out> + VisitFmt> VisitOutput<Out>
    for VisitDelimited<D, V> {
    ghost finishes = { λ visitor out. V.finishes visitor.inner out };

    fn finish(self) -> Out {
        self.inner.finish()
    }
}

impl<T, D: AsStr + Copy, M: MakeVisitor<T>> MakeVisitor<T> for Delimited<D, M>
where
    M::Visitor: VisitFmt,
{
    type Visitor = VisitDelimited<D, M::Visitor>;

    ghost makes = { λ maker target visitor. (visitor.delimiter ≡ maker.delimiter) × (visitor.seen ≡ false)
        × M.makes maker.inner target visitor.inner };

    fn make_visitor(&self, target: T) -> VisitDelimited<D, M::Visitor> {
        VisitDelimited::new(self.delimiter, self.inner.make_visitor(target))
    }
}
